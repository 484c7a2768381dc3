//! Programs and runs by their numbers.
ghost use Rattle.std.specs.Prelude.{◌≡◌, Some, slice_get, option_copied, IfSome, IfNone};
ghost use Rattle.world.specs.Keeping.{HasNoRun};

use crate::kept::loaded::Loaded;
use bpf_model::{ProgId, RunId};
use machine::Run;

/// The program of this number, if there is one.
pub(crate) fn program_at(programs: &[Loaded], prog: ProgId) -> Option<&Loaded>
    ensures { option_copied result ≡ slice_get programs.now prog }
{
    programs.get(prog.index())
}

/// The run in a run slot, if there is one.
pub(crate) fn run_at(runs: &[Option<Run>], run: RunId) -> Option<&Run>
    ensures some { IfSome result (λ r. slice_get runs.now run ≡ Some (Some r.now)) }
    ensures none { IfNone result (HasNoRun runs.now run) }
{
    match runs.get(run.index()) {
        Some(Some(found)) => Some(found),
        _ => None,
    }
}
