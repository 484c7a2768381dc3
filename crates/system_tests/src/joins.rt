//! How many states wait at once where paths meet.

use crate::programs::{MAPS, longest, verified};
use std::test::Fail;

/// How many states wait at most at once.
static PEAKS: [(usize, &str); 11] = [
    // No conditional jump, or one of which both edges lead to one instruction.
    (1, "mov64 r0, 1; exit"),
    (1, "ldxb r0, [r1+0]; exit"),
    (1, "ldxb r0, [r1+0]; ja +0; mov64 r0, 0; exit"),
    (1, "ldxb r0, [r1+0]; jeq r0, 0, +0; exit"),
    // One target, of one jump or of several; or one after the other.
    (2, "ldxb r0, [r1+0]; jeq r0, 0, +1; mov64 r0, 1; exit"),
    (
        2,
        "ldxb r0, [r1+0]; jeq r0, 1, +3; jeq r0, 2, +2; jeq r0, 3, +1; mov64 r0, 1; exit",
    ),
    (
        2,
        "ldxb r0, [r1+0]; jeq r0, 1, +1; mov64 r0, 1; jeq r0, 2, +1; mov64 r0, 2; exit",
    ),
    (
        2,
        "ldxb r0, [r1+0]; jeq r0, 0, +2; mov64 r0, 1; ja +1; mov64 r0, 2; exit",
    ),
    // A lookup, a test for null and a load, in a section.
    (
        2,
        "mov64 r9, r1; callbtf 1; stw [r10-4], 0; mov64 r2, r10; add64 r2, -4; ldmap r1, 0; call 1; jeq r0, 0, +1; ldxdw r6, [r0+0]; callbtf 2; mov64 r0, 0; exit",
    ),
    // Several that wait together.
    (
        3,
        "ldxb r0, [r1+0]; jeq r0, 1, +3; jeq r0, 2, +3; mov64 r0, 9; ja +2; mov64 r0, 1; ja +0; exit",
    ),
    (
        4,
        "ldxb r0, [r1+0]; jeq r0, 1, +3; jeq r0, 2, +3; jeq r0, 3, +3; mov64 r0, 9; add64 r0, 1; add64 r0, 1; exit",
    ),
];

#[test]
fn waiting_states(rt: HostRuntime) -> Result<(), Fail> {
    for (most, lines) in &PEAKS {
        let verified = verified(rt.alloc(), lines, &MAPS, 8)?;
        assert_eq!(rt; verified.peak_states(), *most, "{lines}");
    }
    // Where nothing jumps, each instruction has one successor: one state waits, however long the program is.
    let straight = longest(rt.alloc(), "mov64 r0, 0; mov64 r0, 0; ")?;
    assert_eq!(rt; verified(rt.alloc(), &straight, &MAPS, 8)?.peak_states(), 1);
    Ok(())
}
