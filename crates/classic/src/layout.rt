//! Where the block of each instruction begins.
ghost use Rattle.std.specs.Prelude.{◌≡◌, ◌≤◌, length, IfOk};
ghost use Rattle.classic.specs.Layout.{starts_from, end_from, prologue_slots};
ghost use Rattle.classic_program.specs.WellFormed.{most_instructions};

use crate::notes::Note;
use crate::slots::block_slots;
use classic_program::{ClassicInsn, Data};
use std::alloc::{AllocError, Global};

/// The slot where each block begins, and the slot behind the last.
pub(crate) fn starts_of(
    alloc: Global,
    kind: Data,
    instructions: &[ClassicInsn],
    notes: &[Option<Note>],
    first: usize,
) -> Result<(Vec<usize>, usize), AllocError>
    requires same { length notes.now ≡ length instructions.now }
    requires few { length instructions.now ≤ most_instructions }
    requires first { first ≤ prologue_slots }
    ensures starts { IfOk result
        (λ x. x.0.items ≡ starts_from kind first instructions.now notes.now) }
    ensures end { IfOk result (λ x. x.1 ≡ end_from kind first instructions.now notes.now) }
    ensures bound { IfOk result (λ x. x.1 ≤ 100000) }
{
    let mut starts = Vec::with_capacity(alloc, instructions.len())?;
    let mut slot = first;
    for index in 0..instructions.len() {
        starts.push(slot)?;
        if let Some(note) = notes[index] {
            slot += block_slots(kind, &note, &instructions[index]);
        }
    }
    Ok((starts, slot))
}
