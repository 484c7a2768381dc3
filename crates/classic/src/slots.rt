//! How many slots the block of each instruction takes.
ghost use Rattle.std.specs.Prelude.{◌≡◌, ℕ, ◌≤◌, ◌^◌, List, length};
ghost use Rattle.classic.specs.Layout.{load_bytes, fetch, check, load_indexed, load_block, alu_block, skip_block, test_block, slots};
ghost use Rattle.classic_program.specs.declared.insn.ClassicReg.{ClassicReg as RegisterName};
ghost use Rattle.bpf_model.specs.declared.insn.Operand.{Operand as SecondOperand};

use crate::blocks::{PACKET_START, bytes_of, keeps};
use crate::emitting::{divides, opposite_for};
use crate::notes::{Note, is_near};
use classic_program::{
    ClassicInsn, ClassicOp, ClassicOperand, ClassicReg, ClassicTest, Data, Datum, LoadSize,
};

/// How many slots a load of bytes one by one takes.
fn bytes_slots(size: LoadSize) -> usize
    ensures value { (dst base at : ℕ) → length (load_bytes dst base at size) ≡ result }
    ensures bound { result ≤ 10 }
{
    match size {
        LoadSize::Byte => 1,
        LoadSize::Half => 4,
        LoadSize::Word => 10,
    }
}

/// How many a load takes by the widest loads that are aligned, with a swap unless the order of bytes is kept.
fn fetch_slots(keep: bool, at: usize, size: LoadSize) -> usize
    ensures value { (dst base : ℕ) → length (fetch keep dst base at size) ≡ result }
    ensures bound { result ≤ 10 }
{
    let swap = usize::from(!keep);
    match size {
        LoadSize::Byte => 1,
        LoadSize::Half => { if at.is_multiple_of(2) { 1 + swap } else { 4 } }
        LoadSize::Word => {
            if at.is_multiple_of(4) {
                1 + swap
            } else if at.is_multiple_of(2) {
                4 + swap
            } else {
                10
            }
        }
    }
}

/// How many the test takes that so many bytes were captured.
fn check_slots(note: &Note, end: usize) -> usize
    ensures value { (tail start : ℕ) → length (check tail note.now start end) ≡ result }
    ensures bound { result ≤ 1 }
{
    usize::from(end > note.captured)
}

/// How many a load of bytes at `X + at` takes.
fn indexed_slots(note: &Note, keep: bool, size: LoadSize, at: usize) -> usize
    requires { at ≤ 2 ^ 32 }
    ensures value { (tail start : ℕ) (into : RegisterName)
        → length (load_indexed tail note.now keep start into size at) ≡ result }
    ensures bound { result ≤ 16 }
{
    if is_near(note.x, at + bytes_of(size)) {
        5 + fetch_slots(keep, PACKET_START + at, size)
    } else {
        6 + bytes_slots(size)
    }
}

/// How many the block of a load takes.
fn load_slots(kind: Data, note: &Note, into: ClassicReg, datum: &Datum) -> usize
    ensures value { length (load_block kind 0 note.now into datum.now 0) ≡ result }
    ensures bound { result ≤ 16 }
{
    match datum {
        Datum::Number(_) | Datum::Memory(_) | Datum::Length => 1,
        Datum::Bytes { size, at } => match kind {
            Data::Seccomp => 1,
            Data::Packet => {
                let at = *at as usize;
                check_slots(note, at + bytes_of(*size))
                    + fetch_slots(keeps(kind, note, into, datum), PACKET_START + at, *size)
            }
        },
        Datum::Indexed { size, at } => {
            indexed_slots(note, keeps(kind, note, into, datum), *size, *at as usize)
        }
        Datum::HeaderLength { at } => check_slots(note, *at as usize + 1) + 3,
    }
}

/// How many the block of an operation takes.
fn alu_slots(op: ClassicOp, operand: ClassicOperand) -> usize
    ensures value { length (alu_block 0 op operand 0) ≡ result }
    ensures bound { result ≤ 2 }
{
    match operand {
        ClassicOperand::Number(_) => 1,
        ClassicOperand::Index => 1 + usize::from(divides(op)),
    }
}

/// How many a jump takes that skips so many blocks.
fn skip_slots(skip: usize) -> usize
    ensures value { (start : ℕ) (behind : List ℕ) → length (skip_block start skip behind) ≡ result }
    ensures bound { result ≤ 1 }
{
    usize::from(skip != 0)
}

/// How many a test takes that skips so many blocks on either side.
fn test_slots(test: ClassicTest, if_true: usize, if_false: usize) -> usize
    ensures value { (operand : SecondOperand) (start : ℕ) (behind : List ℕ)
        → length (test_block test operand if_true if_false start behind) ≡ result }
    ensures bound { result ≤ 2 }
{
    if if_true == if_false {
        skip_slots(if_true)
    } else if if_false == 0 || (if_true == 0 && opposite_for(test).is_some()) {
        1
    } else {
        2
    }
}

/// How many slots the block of an instruction takes.
pub(crate) fn block_slots(kind: Data, note: &Note, instruction: &ClassicInsn) -> usize
    ensures value { result ≡ slots kind note.now instruction.now }
    ensures bound { result ≤ 16 }
{
    match instruction {
        ClassicInsn::Load { into, datum } => load_slots(kind, note, *into, datum),
        ClassicInsn::Alu { op, operand } => alu_slots(*op, *operand),
        ClassicInsn::Jump { skip } => skip_slots(*skip as usize),
        ClassicInsn::JumpIf {
            test,
            if_true,
            if_false,
            ..
        } => test_slots(*test, usize::from(*if_true), usize::from(*if_false)),
        ClassicInsn::ReturnNumber { .. } | ClassicInsn::ReturnA => 2,
        ClassicInsn::Store { .. }
        | ClassicInsn::Negate
        | ClassicInsn::CopyToX
        | ClassicInsn::CopyToA => 1,
    }
}
