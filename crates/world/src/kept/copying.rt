//! Copies of lists that a world keeps.
ghost use Rattle.std.specs.Prelude.{◌≡◌, IfOk};

use crate::kept::loaded::Loaded;
use machine::Run;
use std::alloc::{AllocError, Global};

/// A copy of the run in a run slot; `None` where the run slot is free.
fn copy_of_run(run: &Option<Run>) -> Option<Run>
    ensures { result ≡ run.now }
{
    match run {
        None => None,
        Some(found) => Some(found.copy()),
    }
}

/// Copies of runs, each in the run slot of its original. Fails where memory runs out.
pub(crate) fn copy_of_runs(
    alloc: Global,
    runs: &[Option<Run>],
) -> Result<Vec<Option<Run>>, AllocError>
    ensures same { IfOk result (λ v. v.items ≡ runs.now) }
{
    let mut copy = Vec::with_capacity(alloc, runs.len())?;
    for slot in runs {
        copy.push(copy_of_run(slot))?;
    }
    Ok(copy)
}

/// Copies of loaded programs, in their order. Fails where memory runs out.
pub(crate) fn copy_of_programs(
    alloc: Global,
    programs: &[Loaded],
) -> Result<Vec<Loaded>, AllocError>
    ensures same { IfOk result (λ v. v.items ≡ programs.now) }
{
    let mut copy = Vec::with_capacity(alloc, programs.len())?;
    for loaded in programs {
        copy.push(loaded.copy(alloc)?)?;
    }
    Ok(copy)
}
