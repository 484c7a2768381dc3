//! Classic opcodes (Linux, *networking/filter.rst*; include/uapi/linux/bpf_common.h).
ghost use Rattle.std.specs.Prelude.{◌≡◌, ◌%◌, ◌⊎◌, IfSome, Some};
ghost use Rattle.classic_program.specs.declared.opcode.ClassicOpcode.{ClassicOpcode};
ghost use Rattle.classic_program.specs.Opcode.{opcode_number};

use crate::insn::{ClassicOp, ClassicReg, ClassicTest, LoadSize};

/// Where the second operand comes from.
#[derive(Clone, Copy, Debug, PartialEq, Eq)]
pub enum ClassicSource {
    Constant,
    Index,
}

/// What an opcode says.
#[derive(Clone, Copy, Debug, PartialEq, Eq)]
pub enum ClassicOpcode {
    LoadNumber(ClassicReg),
    LoadMemory(ClassicReg),
    LoadLength(ClassicReg),
    LoadBytes(LoadSize),
    LoadIndexed(LoadSize),
    LoadHeaderLength,
    Store(ClassicReg),
    Alu(ClassicOp, ClassicSource),
    Negate,
    Jump,
    JumpIf(ClassicTest, ClassicSource),
    ReturnNumber,
    ReturnA,
    CopyToX,
    CopyToA,
}

/// The opcodes of loads into A.
fn load_opcode(code: u16) -> Option<ClassicOpcode>
    requires class { code % 8 ≡ 0 }
    ensures found { IfSome result (λ o. opcode_number o ≡ code) }
    ensures only { (o : ClassicOpcode) → opcode_number o ≡ code → result ≡ Some o }
{
    Some(match code {
        0x00 => ClassicOpcode::LoadNumber(ClassicReg::A),
        0x20 => ClassicOpcode::LoadBytes(LoadSize::Word),
        0x28 => ClassicOpcode::LoadBytes(LoadSize::Half),
        0x30 => ClassicOpcode::LoadBytes(LoadSize::Byte),
        0x40 => ClassicOpcode::LoadIndexed(LoadSize::Word),
        0x48 => ClassicOpcode::LoadIndexed(LoadSize::Half),
        0x50 => ClassicOpcode::LoadIndexed(LoadSize::Byte),
        0x60 => ClassicOpcode::LoadMemory(ClassicReg::A),
        0x80 => ClassicOpcode::LoadLength(ClassicReg::A),
        _ => return None,
    })
}

/// The opcodes of loads into X.
fn index_opcode(code: u16) -> Option<ClassicOpcode>
    requires class { code % 8 ≡ 1 }
    ensures found { IfSome result (λ o. opcode_number o ≡ code) }
    ensures only { (o : ClassicOpcode) → opcode_number o ≡ code → result ≡ Some o }
{
    Some(match code {
        0x01 => ClassicOpcode::LoadNumber(ClassicReg::X),
        0x61 => ClassicOpcode::LoadMemory(ClassicReg::X),
        0x81 => ClassicOpcode::LoadLength(ClassicReg::X),
        0xb1 => ClassicOpcode::LoadHeaderLength,
        _ => return None,
    })
}

/// The opcodes of operations.
fn alu_opcode(code: u16) -> Option<ClassicOpcode>
    requires class { code % 8 ≡ 4 }
    ensures found { IfSome result (λ o. opcode_number o ≡ code) }
    ensures only { (o : ClassicOpcode) → opcode_number o ≡ code → result ≡ Some o }
{
    Some(match code {
        0x04 => ClassicOpcode::Alu(ClassicOp::Add, ClassicSource::Constant),
        0x0c => ClassicOpcode::Alu(ClassicOp::Add, ClassicSource::Index),
        0x14 => ClassicOpcode::Alu(ClassicOp::Sub, ClassicSource::Constant),
        0x1c => ClassicOpcode::Alu(ClassicOp::Sub, ClassicSource::Index),
        0x24 => ClassicOpcode::Alu(ClassicOp::Mul, ClassicSource::Constant),
        0x2c => ClassicOpcode::Alu(ClassicOp::Mul, ClassicSource::Index),
        0x34 => ClassicOpcode::Alu(ClassicOp::Div, ClassicSource::Constant),
        0x3c => ClassicOpcode::Alu(ClassicOp::Div, ClassicSource::Index),
        0x44 => ClassicOpcode::Alu(ClassicOp::Or, ClassicSource::Constant),
        0x4c => ClassicOpcode::Alu(ClassicOp::Or, ClassicSource::Index),
        0x54 => ClassicOpcode::Alu(ClassicOp::And, ClassicSource::Constant),
        0x5c => ClassicOpcode::Alu(ClassicOp::And, ClassicSource::Index),
        0x64 => ClassicOpcode::Alu(ClassicOp::ShiftLeft, ClassicSource::Constant),
        0x6c => ClassicOpcode::Alu(ClassicOp::ShiftLeft, ClassicSource::Index),
        0x74 => ClassicOpcode::Alu(ClassicOp::ShiftRight, ClassicSource::Constant),
        0x7c => ClassicOpcode::Alu(ClassicOp::ShiftRight, ClassicSource::Index),
        0x84 => ClassicOpcode::Negate,
        0x94 => ClassicOpcode::Alu(ClassicOp::Mod, ClassicSource::Constant),
        0x9c => ClassicOpcode::Alu(ClassicOp::Mod, ClassicSource::Index),
        0xa4 => ClassicOpcode::Alu(ClassicOp::Xor, ClassicSource::Constant),
        0xac => ClassicOpcode::Alu(ClassicOp::Xor, ClassicSource::Index),
        _ => return None,
    })
}

/// The opcodes of jumps.
fn jump_opcode(code: u16) -> Option<ClassicOpcode>
    requires class { code % 8 ≡ 5 }
    ensures found { IfSome result (λ o. opcode_number o ≡ code) }
    ensures only { (o : ClassicOpcode) → opcode_number o ≡ code → result ≡ Some o }
{
    Some(match code {
        0x05 => ClassicOpcode::Jump,
        0x15 => ClassicOpcode::JumpIf(ClassicTest::Equal, ClassicSource::Constant),
        0x1d => ClassicOpcode::JumpIf(ClassicTest::Equal, ClassicSource::Index),
        0x25 => ClassicOpcode::JumpIf(ClassicTest::Greater, ClassicSource::Constant),
        0x2d => ClassicOpcode::JumpIf(ClassicTest::Greater, ClassicSource::Index),
        0x35 => ClassicOpcode::JumpIf(ClassicTest::GreaterOrEqual, ClassicSource::Constant),
        0x3d => ClassicOpcode::JumpIf(ClassicTest::GreaterOrEqual, ClassicSource::Index),
        0x45 => ClassicOpcode::JumpIf(ClassicTest::SharesBits, ClassicSource::Constant),
        0x4d => ClassicOpcode::JumpIf(ClassicTest::SharesBits, ClassicSource::Index),
        _ => return None,
    })
}

/// The opcodes of stores, returns and copies.
fn other_opcode(code: u16) -> Option<ClassicOpcode>
    requires class { (code % 8 ≡ 2) ⊎ (code % 8 ≡ 3) ⊎ (code % 8 ≡ 6) ⊎ (code % 8 ≡ 7) }
    ensures found { IfSome result (λ o. opcode_number o ≡ code) }
    ensures only { (o : ClassicOpcode) → opcode_number o ≡ code → result ≡ Some o }
{
    Some(match code {
        0x02 => ClassicOpcode::Store(ClassicReg::A),
        0x03 => ClassicOpcode::Store(ClassicReg::X),
        0x06 => ClassicOpcode::ReturnNumber,
        0x16 => ClassicOpcode::ReturnA,
        0x07 => ClassicOpcode::CopyToX,
        0x87 => ClassicOpcode::CopyToA,
        _ => return None,
    })
}

/// What the code says.
pub(crate) fn opcode_of(code: u16) -> Option<ClassicOpcode>
    ensures found { IfSome result (λ o. opcode_number o ≡ code) }
    ensures only { (o : ClassicOpcode) → opcode_number o ≡ code → result ≡ Some o }
{
    match code % 8 {
        0 => load_opcode(code),
        1 => index_opcode(code),
        4 => alu_opcode(code),
        5 => jump_opcode(code),
        _ => other_opcode(code),
    }
}
