//! Programs out of text.
ghost use Rattle.std.specs.Prelude.{◌≡◌, ◌+◌, ◌<◌, ◌≤◌, ◌^◌, List, length, map, OnOk, IfOk, IfErr, ◌⊎◌, ◌↔◌, IsTrue};
ghost use Rattle.std.specs.List.{AllByRecursion};
ghost use Rattle.bpf_model.specs.declared.limits.TheConstants.{MAX_SLOTS};
ghost use Rattle.bpf_model.specs.Spelling.{FitsInsn, IsProgram};
ghost use Rattle.bpf_model.specs.Places.{slot_total};
ghost use Rattle.bpf_model.specs.declared.insn.Insn.{Insn as InsnOf};
ghost use Rattle.disasm.specs.Text.{line_of, program_text};
ghost use Rattle.asm.specs.Faults.{is_comment as is_comment_line, statements_in, IsAsmFault};
ghost use Rattle.asm.specs.Assembling.{AddsLine, IsLineFault, IsAsmTextFault, IsSizeFault};

use crate::fault::{AsmFault, LineFlaw};
use crate::line::read_insn;
use crate::pieces::cut;
use bpf_model::MAX_SLOTS;
use insn_codec::{Insn, Program};
use std::alloc::Global;

/// Whether the line stands for no instruction: it is empty, or begins with `;`.
fn is_comment(line: &str) -> bool
    ensures { result ≡ is_comment_line line.now }
{
    match line.as_bytes() {
        [] => true,
        [first, ..] => *first == b';',
    }
}

/// Adds the instruction of the line with this index; a comment adds none.
fn add_line(instructions: &mut Vec<Insn>, index: usize, line: &str) -> Result<(), AsmFault>
    requires { index + length line.now < 2 ^ 64 }
    ensures added { OnOk result (AddsLine line.now instructions.old.items instructions.new.items) }
    ensures fault { IfErr result (IsLineFault index line.now) }
{
    if is_comment(line) {
        return Ok(());
    }
    match read_insn(line) {
        Ok(insn) => {
            instructions.push(insn)?;
            Ok(())
        }
        Err(LineFlaw::NoForm) => Err(AsmFault::BadLine(index + 1)),
        Err(LineFlaw::OutOfRange) => Err(AsmFault::BadOperand(index + 1)),
    }
}

/// The instructions of the lines.
fn read_lines(alloc: Global, text: &str) -> Result<Vec<Insn>, AsmFault>
    ensures fits { IfOk result (λ v. AllByRecursion FitsInsn v.items) }
    ensures found { IfOk result (λ v. statements_in text.now ≡ map line_of v.items) }
    ensures only { IfOk result (λ v. (is : List InsnOf) →
        AllByRecursion FitsInsn is → statements_in text.now ≡ map line_of is → v.items ≡ is) }
    ensures fault { IfErr result (IsAsmTextFault text.now) }
{
    let mut instructions = Vec::new(alloc);
    let mut rest = text;
    let mut index = 0;
    while let Some((line, more)) = cut(rest, '\n') {
        add_line(&mut instructions, index, line)?;
        rest = more;
        index += 1;
    }
    add_line(&mut instructions, index, rest)?;
    Ok(instructions)
}

/// Whether the instructions take at most `MAX_SLOTS` slots.
fn has_room(instructions: &[Insn]) -> bool
    ensures { IsTrue result ↔ (slot_total instructions.now ≤ MAX_SLOTS) }
{
    let mut slots = 0;
    for instruction in instructions {
        slots += instruction.slot_count();
        if slots > MAX_SLOTS {
            return false;
        }
    }
    true
}

/// The program of the instructions.
fn program_of(alloc: Global, instructions: Vec<Insn>) -> Result<Program, AsmFault>
    requires { AllByRecursion FitsInsn instructions.items }
    ensures made { IfOk result (λ p. p ≡ instructions.items) }
    ensures program { IfOk result IsProgram }
    ensures fault { IfErr result (IsSizeFault instructions.items) }
{
    if !has_room(&instructions) {
        return Err(AsmFault::TooLong);
    }
    if instructions.is_empty() {
        return Err(AsmFault::Empty);
    }
    Ok(Program::from_instructions(alloc, instructions)?)
}

/// The program whose instructions' texts are the lines of the text, empty lines and lines that begin with
/// `;` left out. Only a line feed ends a line, and the last may be missing.
///
/// # Errors
///
/// `BadLine` and `BadOperand` for the first line that is the text of no instruction. Where each line is,
/// `TooLong` above `MAX_SLOTS` slots, and `Empty` without an instruction. `Memory` where memory runs out.
pub fn assemble(alloc: Global, text: &str) -> Result<Program, AsmFault>
    // The lines are the texts of the program's instructions.
    ensures found { IfOk result (λ p. statements_in text.now ≡ map line_of p) }
    ensures program { IfOk result IsProgram }
    // The lines of a program give that program, unless memory runs out.
    ensures only { (p : List InsnOf) → IsProgram p → statements_in text.now ≡ map line_of p →
        (result ≡ Ok p) ⊎ (result ≡ Err AsmFault.Memory) }
    // What a program was disassembled to gives it back, unless memory runs out.
    ensures again { (p : List InsnOf) → IsProgram p → text.now ≡ program_text p →
        (result ≡ Ok p) ⊎ (result ≡ Err AsmFault.Memory) }
    // Which fault it is.
    ensures fault { IfErr result (IsAsmFault text.now) }
{
    let instructions = read_lines(alloc, text)?;
    program_of(alloc, instructions)
}
