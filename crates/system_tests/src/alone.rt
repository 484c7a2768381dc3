//! Runs of programs by themselves, also of such as were verified for maps.
use crate::programs::{MAPS, longest, verified};
use bpf_model::{CtxBytes, MapShape};
use shared_runs::alone::{has_no_maps, run_to_exit};
use std::alloc::Global;
use std::test::Fail;

/// A sum in a section.
const SUM: &str = "callbtf 1; mov64 r6, 20; add64 r6, 22; callbtf 2; mov64 r0, r6; exit";

/// A program that loads a map's reference, and makes nothing of it.
const NAMING: &str = "ldmap r1, 0; mov64 r0, 0; exit";

/// The exit value and the number of steps, where the program names no map.
fn exit_of(alloc: Global, lines: &str, maps: &[MapShape]) -> Result<Option<(u64, usize)>, Fail> {
    let verified = verified(alloc, lines, maps, 0)?;
    if !has_no_maps(&verified) {
        return Ok(None);
    }
    let finished = run_to_exit(&verified, &CtxBytes::new());
    Ok(Some((finished.value, finished.steps)))
}

#[test]
fn runs_to_the_exit(rt: HostRuntime) -> Result<(), Fail> {
    let alloc = rt.alloc();
    // Maps that the program does not name change nothing.
    assert_eq!(rt; exit_of(alloc, SUM, &MAPS)?, Some((42, 6)));
    assert_eq!(rt; exit_of(alloc, NAMING, &MAPS)?, None);
    let straight = longest(alloc, "mov64 r0, 0; mov64 r0, 0; ")?;
    assert_eq!(rt; exit_of(alloc, &straight, &[])?, Some((0, 4096)));
    // Each jump skips the move behind it.
    let branches = longest(alloc, "jeq r0, 0, +1; mov64 r0, 0; ")?;
    assert_eq!(rt; exit_of(alloc, &branches, &[])?, Some((0, 2049)));
    Ok(())
}
