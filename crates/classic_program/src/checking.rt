//! Which classic programs are taken.
ghost use Rattle.std.specs.Prelude.{◌≡◌, ℕ, true, false, ◌+◌, ◌<◌, ◌≤◌, ◌⊎◌, List, length, slice_get, Some, IfSome, IfNone, IfOk, IfErr, IsTrue, OnOk};
ghost use Rattle.classic_program.specs.declared.insn.ClassicInsn.{ClassicInsn as InsnOf};
ghost use Rattle.classic_program.specs.declared.fault.ClassicFault.TheVariants.{Memory};
ghost use Rattle.classic_program.specs.Faults.{IsFlawAt, IsSoundAt, IsUnstored, IsCheckFault};
ghost use Rattle.classic_program.specs.Opcode.{AreInsnsOf};
ghost use Rattle.classic_program.specs.Paths.{IsSkip};
ghost use Rattle.classic_program.specs.WellFormed.{divides_by_zero as divides_by_0, shifts_too_far as shifts_far, is_datum_of as is_datum, is_of as is_insn_of, is_policy_remainder as is_remainder_of_policy, reads_from, stores_to, Reaches, LeadsInside, IsWellFormed, most_instructions};

use crate::data::Data;
use crate::decoding::decode;
use crate::fault::ClassicFault;
use crate::insn::{ClassicInsn, ClassicOp, ClassicOperand, Datum, LoadSize};
use crate::paths::{Skips, marks_of, targets};
use crate::program::ClassicProgram;
use crate::sock_filter::SockFilter;
use std::alloc::Global;

/// The most instructions of a program.
pub(crate) const MOST_INSTRUCTIONS: usize = 4096;

fn divides_by_zero(instruction: &ClassicInsn) -> bool
    ensures { result ≡ divides_by_0 instruction.now }
{
    match instruction {
        ClassicInsn::Alu {
            op: ClassicOp::Div | ClassicOp::Mod,
            operand: ClassicOperand::Number(k),
        } => *k == 0,
        _ => false,
    }
}

fn shifts_too_far(instruction: &ClassicInsn) -> bool
    ensures { result ≡ shifts_far instruction.now }
{
    match instruction {
        ClassicInsn::Alu {
            op: ClassicOp::ShiftLeft | ClassicOp::ShiftRight,
            operand: ClassicOperand::Number(k),
        } => *k >= 32,
        _ => false,
    }
}

/// Whether a system call's data have this: aligned words below 64 have their place.
fn is_of_calls(datum: &Datum) -> bool
    ensures { result ≡ is_datum Data.Seccomp datum.now }
{
    match datum {
        Datum::Bytes { size, at } => match size {
            LoadSize::Word => *at < 64 && *at % 4 == 0,
            LoadSize::Half | LoadSize::Byte => false,
        },
        Datum::Indexed { .. } | Datum::HeaderLength { .. } => false,
        Datum::Number(_) | Datum::Memory(_) | Datum::Length => true,
    }
}

/// Whether the data of this kind have what the instruction loads.
fn is_of(kind: Data, instruction: &ClassicInsn) -> bool
    ensures { result ≡ is_insn_of kind instruction.now }
{
    match instruction {
        ClassicInsn::Load { datum, .. } => match kind {
            Data::Packet => true,
            Data::Seccomp => is_of_calls(datum),
        },
        _ => true,
    }
}

/// Whether the instruction is a remainder, and the program a policy.
fn is_policy_remainder(kind: Data, instruction: &ClassicInsn) -> bool
    ensures { result ≡ is_remainder_of_policy kind instruction.now }
{
    match kind {
        Data::Packet => false,
        Data::Seccomp => match instruction {
            ClassicInsn::Alu { op, .. } => matches!(op, ClassicOp::Mod),
            _ => false,
        },
    }
}

/// A skip past so many instructions.
fn outside(skips: Skips, left: usize) -> Option<usize>
    ensures some { IfSome result (λ s. IsSkip skips s × (left ≤ s)) }
    ensures none { IfNone result ((s : ℕ) → IsSkip skips s → s < left) }
{
    match skips {
        Skips::Nowhere => None,
        Skips::One(skip) => {
            let skip = skip as usize;
            if skip < left { None } else { Some(skip) }
        }
        Skips::Two(if_true, if_false) => {
            let skip = usize::from(if_true);
            let other = usize::from(if_false);
            if skip >= left {
                return Some(skip);
            }
            if other < left { None } else { Some(other) }
        }
    }
}

/// What is wrong with the instruction of this index, of so many.
fn flaw_at(
    kind: Data,
    count: usize,
    index: usize,
    instruction: &ClassicInsn,
) -> Option<ClassicFault>
    requires { index < count }
    ensures some { IfSome result (IsFlawAt kind count index instruction.now) }
    ensures none { IfNone result (IsSoundAt kind count index instruction.now) }
{
    if divides_by_zero(instruction) {
        return Some(ClassicFault::DivisionByZero(index));
    }
    if shifts_too_far(instruction) {
        return Some(ClassicFault::BadShift(index));
    }
    if !is_of(kind, instruction) {
        return Some(ClassicFault::NotOfSeccomp(index));
    }
    if is_policy_remainder(kind, instruction) {
        return Some(ClassicFault::PolicyRemainder(index));
    }
    let left = count - (index + 1);
    match outside(targets(instruction), left) {
        Some(_) => Some(ClassicFault::BadJump(index)),
        None => None,
    }
}

/// The first instruction with which something is wrong by itself.
fn first_flaw(kind: Data, program: &[ClassicInsn]) -> Option<ClassicFault>
    ensures some { IfSome result (λ e. (k : ℕ) × (i : InsnOf) × (slice_get program.now k ≡ Some i)
        × IsFlawAt kind (length program.now) k i e) }
    ensures none { IfNone result ((k : ℕ) (i : InsnOf) → slice_get program.now k ≡ Some i →
        IsSoundAt kind (length program.now) k i) }
{
    for index in 0..program.len() {
        if let Some(fault) = flaw_at(kind, program.len(), index, &program[index]) {
            return Some(fault);
        }
    }
    None
}

fn reads(number: u8, instruction: &ClassicInsn) -> bool
    ensures { result ≡ reads_from number instruction.now }
{
    match instruction {
        ClassicInsn::Load { datum, .. } => match datum {
            Datum::Memory(word) => word.number() == number,
            _ => false,
        },
        _ => false,
    }
}

/// Whether the instruction loads a word of memory.
fn reads_memory(instruction: &ClassicInsn) -> bool
    ensures { result ≡ false → (w : ℕ) → reads_from w instruction.now ≡ false }
{
    match instruction {
        ClassicInsn::Load { datum, .. } => matches!(datum, Datum::Memory(_)),
        _ => false,
    }
}

/// Whether no instruction loads a word of memory. (So it is with most filters.)
fn reads_no_memory(program: &[ClassicInsn]) -> bool
    ensures { IsTrue result → (k : ℕ) (i : InsnOf) (w : ℕ) → slice_get program.now k ≡ Some i → reads_from w i ≡ false }
{
    for index in 0..program.len() {
        if reads_memory(&program[index]) {
            return false;
        }
    }
    true
}

/// The first marked instruction that reads the word.
fn marked_reader(program: &[ClassicInsn], marks: &[bool], number: u8) -> Option<usize>
    requires { length marks.now ≡ length program.now }
    ensures some { IfSome result (λ k. (i : InsnOf) × (slice_get program.now k ≡ Some i)
        × (reads_from number i ≡ true) × (slice_get marks.now k ≡ Some true)) }
    ensures none { IfNone result ((k : ℕ) (i : InsnOf) → slice_get program.now k ≡ Some i →
        reads_from number i ≡ true → slice_get marks.now k ≡ Some true → ⊥) }
{
    for index in 0..program.len() {
        if marks[index] && reads(number, &program[index]) {
            return Some(index);
        }
    }
    None
}

/// No word of memory is read on a path on which it is not stored.
fn check_memory(alloc: Global, program: &[ClassicInsn]) -> Result<(), ClassicFault>
    requires some { 0 < length program.now }
    requires few { length program.now ≤ most_instructions }
    requires inside { LeadsInside program.now }
    ensures stored { OnOk result ((w k : ℕ) (i : InsnOf) → w < 16 → slice_get program.now k ≡ Some i →
        reads_from w i ≡ true → Reaches program.now (stores_to w) k → ⊥) }
    ensures fault { IfErr result (λ e. (e ≡ Memory)
        ⊎ ((k : ℕ) × (e ≡ ClassicFault.UnwrittenWord k) × IsUnstored program.now k)) }
{
    if reads_no_memory(program) {
        return Ok(());
    }
    for number in 0..16 {
        let marks = marks_of(alloc, program, Some(number))?;
        if let Some(index) = marked_reader(program, &marks, number) {
            return Err(ClassicFault::UnwrittenWord(index));
        }
    }
    Ok(())
}

/// The program of these instructions, if it is well-formed for data of this kind.
///
/// # Errors
///
/// The length is tested first, then each opcode with its word of memory, then each instruction by itself, and then
/// that no word of memory is read before it is written. `Memory` where memory runs out.
pub fn check(
    alloc: Global,
    filter: &[SockFilter],
    kind: Data,
) -> Result<ClassicProgram, ClassicFault>
    // What is taken is the program of these instructions, and well-formed.
    ensures found { IfOk result (λ p. (p.kind ≡ kind) × AreInsnsOf filter.now p.instructions
        × IsWellFormed kind p.instructions) }
    // A well-formed program is taken, unless memory runs out.
    ensures only { (program : List InsnOf) → AreInsnsOf filter.now program →
        IsWellFormed kind program → IfErr result (λ e. e ≡ Memory) }
    // Which fault it is, and where.
    ensures fault { IfErr result (IsCheckFault kind filter.now) }
{
    if filter.is_empty() {
        return Err(ClassicFault::Empty);
    }
    if filter.len() > MOST_INSTRUCTIONS {
        return Err(ClassicFault::TooLong);
    }
    let program = decode(alloc, filter)?;
    if let Some(fault) = first_flaw(kind, &program) {
        return Err(fault);
    }
    check_memory(alloc, &program)?;
    Ok(ClassicProgram::from_checked(kind, program))
}
