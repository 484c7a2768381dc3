//! Flags of run slots, by which the end of a grace period is told.
ghost use Rattle.std.specs.Prelude.{◌≡◌, ◌&&◌, IfOk};
ghost use Rattle.bpf_model.specs.Schedule.{still_open as still_open_of, is_any as is_any_of};

use std::alloc::{AllocError, Global};

/// Whether both flags are set.
fn both(a: bool, b: bool) -> bool
    ensures { result ≡ (a && b) }
{
    a && b
}

/// The flags that are set in both lists.
pub(crate) fn still_open(
    alloc: Global,
    awaited: &[bool],
    opened: &[bool],
) -> Result<Vec<bool>, AllocError>
    ensures { IfOk result (λ flags. flags.items ≡ still_open_of awaited.now opened.now) }
{
    let mut flags = Vec::new(alloc);
    for r in 0..awaited.len().min(opened.len()) {
        flags.push(both(awaited[r], opened[r]))?;
    }
    Ok(flags)
}

/// Whether any flag is set.
pub(crate) fn is_any(flags: &[bool]) -> bool
    ensures { result ≡ is_any_of flags.now }
{
    flags.iter().any(|flag| *flag)
}
