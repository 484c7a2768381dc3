//! The instructions that paths lead to.
ghost use Rattle.std.specs.Prelude.{◌≡◌, ℕ, ◌+◌, ◌<◌, ◌≤◌, length, IfOk};
ghost use Rattle.classic_program.specs.Paths.{AreMarks, Marks, IsSkip, skips_of, stops_at};
ghost use Rattle.classic_program.specs.WellFormed.{LeadsInside, most_instructions};

use crate::insn::ClassicInsn;
use std::alloc::{AllocError, Global};

/// How many of the instructions behind it an instruction may skip.
#[derive(Clone, Copy, Debug, PartialEq, Eq)]
pub(crate) enum Skips {
    Nowhere,
    One(u32),
    Two(u8, u8),
}

/// Where the instruction leads to.
pub(crate) fn targets(instruction: &ClassicInsn) -> Skips
    ensures { result ≡ skips_of instruction.now }
{
    match instruction {
        ClassicInsn::Jump { skip } => Skips::One(*skip),
        ClassicInsn::JumpIf {
            if_true,
            if_false,
            ..
        } => Skips::Two(*if_true, *if_false),
        ClassicInsn::ReturnNumber { .. } | ClassicInsn::ReturnA => Skips::Nowhere,
        _ => Skips::One(0),
    }
}

/// Whether a path stops at the instruction: it stores to the word, if one is given.
fn stops(word: Option<u8>, instruction: &ClassicInsn) -> bool
    ensures { result ≡ stops_at word instruction.now }
{
    match instruction {
        ClassicInsn::Store { word: stored, .. } => match word {
            Some(number) => stored.number() == number,
            None => false,
        },
        _ => false,
    }
}

/// Marks the instructions that the skips lead to; a skip of 0 leads to the one of index `behind`.
fn mark(marks: &mut [bool], behind: usize, skips: Skips)
    requires inside { (s : ℕ) → IsSkip skips s → behind + s < length marks.old }
    requires few { length marks.old ≤ most_instructions }
    ensures { Marks skips behind marks.old marks.new }
{
    match skips {
        Skips::Nowhere => {}
        Skips::One(skip) => marks[behind + skip as usize] = true,
        Skips::Two(if_true, if_false) => {
            marks[behind + usize::from(if_true)] = true;
            marks[behind + usize::from(if_false)] = true;
        }
    }
}

/// For each instruction, whether a path leads to it from the first, past none that stores to the word.
pub(crate) fn marks_of(
    alloc: Global,
    instructions: &[ClassicInsn],
    word: Option<u8>,
) -> Result<Vec<bool>, AllocError>
    requires some { 0 < length instructions.now }
    requires few { length instructions.now ≤ most_instructions }
    requires inside { LeadsInside instructions.now }
    ensures { IfOk result (λ v. AreMarks instructions.now (stops_at word) v.items) }
{
    let mut marks = vec![in alloc; false; instructions.len()]?;
    marks[0] = true;
    for index in 0..instructions.len() {
        let instruction = &instructions[index];
        if marks[index] && !stops(word, instruction) {
            mark(&mut marks, index + 1, targets(instruction));
        }
    }
    Ok(marks)
}
