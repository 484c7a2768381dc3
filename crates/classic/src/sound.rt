//! Whether notes say what holds.
ghost use Rattle.std.specs.Prelude.{◌≡◌, ◌+◌, ◌<◌, ◌≤◌, true, length, slice_get, Some, IsTrue};
ghost use Rattle.classic_program.specs.WellFormed.{most_instructions};
ghost use Rattle.classic.specs.declared.notes.Note.{Note as Note_};
ghost use Rattle.classic.specs.Notes.{claims as claims_note, IsSoundAt, AreSound};

use crate::notes::{Note, claims, is_ready, left, start};
use classic_program::{ClassicInsn, Data};

/// Whether the instruction there has a note that claims no more than what is known.
fn leads_to(notes: &[Option<Note>], at: usize, known: &Note) -> bool
    ensures { IsTrue result → (n : Note_) × (slice_get notes.now at ≡ Some (Some n))
        × (claims_note n known.now ≡ true) }
{
    match notes.get(at) {
        Some(Some(note)) => claims(note, known),
        _ => false,
    }
}

/// Whether an instruction reads what is known, and leads to notes that claim no more than what it leaves.
fn is_sound_at(
    kind: Data,
    instruction: &ClassicInsn,
    note: &Note,
    behind: usize,
    notes: &[Option<Note>],
) -> bool
    requires behind { behind ≤ most_instructions }
    ensures { IsTrue result → IsSoundAt kind instruction.now note.now behind notes.now }
{
    if !is_ready(note, instruction) {
        return false;
    }
    let known = left(kind, note, instruction);
    match instruction {
        ClassicInsn::Jump { skip } => leads_to(notes, behind + *skip as usize, &known),
        ClassicInsn::JumpIf {
            if_true,
            if_false,
            ..
        } => {
            leads_to(notes, behind + usize::from(*if_true), &known)
                && leads_to(notes, behind + usize::from(*if_false), &known)
        }
        ClassicInsn::ReturnNumber { .. } | ClassicInsn::ReturnA => true,
        _ => leads_to(notes, behind, &known),
    }
}

/// Whether the notes hold on every path.
pub(crate) fn are_sound(kind: Data, instructions: &[ClassicInsn], notes: &[Option<Note>]) -> bool
    requires few { length instructions.now ≤ most_instructions }
    requires same { length notes.now ≡ length instructions.now }
    ensures { IsTrue result → AreSound kind instructions.now notes.now }
{
    if !leads_to(notes, 0, &start()) {
        return false;
    }
    for index in 0..instructions.len() {
        if let Some(note) = notes[index] {
            if !is_sound_at(kind, &instructions[index], &note, index + 1, notes) {
                return false;
            }
        }
    }
    true
}
