//! The eBPF instructions that blocks are made of.
ghost use Rattle.std.specs.Prelude.{◌≡◌, ◌+◌, ◌<◌, ◌≤◌, ◌^◌, pos};
ghost use Rattle.bpf_model.specs.declared.limits.TheConstants.{MAX_SLOTS};
ghost use Rattle.bpf_model.specs.declared.insn.Insn.TheVariants as bpf;
ghost use Rattle.bpf_model.specs.declared.insn.Operand.TheVariants as second;
ghost use Rattle.bpf_model.specs.declared.insn.AluOp.TheVariants as ops;
ghost use Rattle.bpf_model.specs.declared.opcode.Size.TheVariants.{Word32, Word64};
ghost use Rattle.bpf_model.specs.declared.insn.UnaryOp.TheVariants as unary;
ghost use Rattle.bpf_model.specs.declared.opcode.ByteOrder.TheVariants as order;
ghost use Rattle.classic.specs.Layout.{distance as distance_of, jump_to as jump_to_insn, jump_if as jump_if_insn, move as move_insn, put_number as put_number_insn, word_offset as word_offset_of, register_of, alu_of, condition_of, opposite_of, divides as divides_op, compared as compared_of, test_operand};

use crate::notes::{Accumulator, Note};
use bpf_model::{AluOp, ByteOrder, Condition, Insn, Operand, Reg, Size, SwapWidth, UnaryOp, Width};
use classic_program::{ClassicOp, ClassicOperand, ClassicReg, ClassicTest};

/// The register of A.
pub(crate) const A: u8 = 6;
/// The register of X.
pub(crate) const X: u8 = 7;
/// The register of the context.
pub(crate) const CONTEXT: u8 = 1;
/// The register of the length.
pub(crate) const LENGTH: u8 = 9;

/// The register of this number.
pub(crate) fn reg(number: u8) -> Reg
    requires { number ≤ 10 }
    ensures { result ≡ number }
{
    match Reg::new(number) {
        Some(register) => register,
        None => Reg::R0,
    }
}

pub(crate) fn register_for(register: ClassicReg) -> Reg
    ensures { result ≡ register_of register }
{
    match register {
        ClassicReg::A => reg(A),
        ClassicReg::X => reg(X),
    }
}

pub(crate) fn op_for(op: ClassicOp) -> AluOp
    ensures { result ≡ alu_of op }
{
    match op {
        ClassicOp::Add => AluOp::Add,
        ClassicOp::Sub => AluOp::Sub,
        ClassicOp::Mul => AluOp::Mul,
        ClassicOp::Div => AluOp::Div,
        ClassicOp::Mod => AluOp::Mod,
        ClassicOp::Or => AluOp::Or,
        ClassicOp::And => AluOp::And,
        ClassicOp::Xor => AluOp::Xor,
        ClassicOp::ShiftLeft => AluOp::ShiftLeft,
        ClassicOp::ShiftRight => AluOp::ShiftRight,
    }
}

pub(crate) fn condition_for(test: ClassicTest) -> Condition
    ensures { result ≡ condition_of test }
{
    match test {
        ClassicTest::Equal => Condition::Equal,
        ClassicTest::Greater => Condition::Greater,
        ClassicTest::GreaterOrEqual => Condition::GreaterOrEqual,
        ClassicTest::SharesBits => Condition::SharesBits,
    }
}

/// The condition of the opposite of a test, where there is one.
pub(crate) fn opposite_for(test: ClassicTest) -> Option<Condition>
    ensures { result ≡ opposite_of test }
{
    match test {
        ClassicTest::Equal => Some(Condition::NotEqual),
        ClassicTest::Greater => Some(Condition::LessOrEqual),
        ClassicTest::GreaterOrEqual => Some(Condition::Less),
        ClassicTest::SharesBits => None,
    }
}

/// Whether the operation has no result where the second operand is 0.
pub(crate) fn divides(op: ClassicOp) -> bool
    ensures { result ≡ divides_op op }
{
    matches!(op, ClassicOp::Div | ClassicOp::Mod)
}

/// A number as what A is compared with: its bytes are swapped where those of A are.
fn compared(a: Accumulator, number: u32) -> u32
    ensures { result ≡ compared_of a number }
{
    match a {
        Accumulator::Unset | Accumulator::Number => number,
        Accumulator::SwappedHalf => u32::from(((number % 65536) as u16).swap_bytes()),
        Accumulator::SwappedWord => number.swap_bytes(),
    }
}

/// The second operand of a test.
pub(crate) fn compared_operand(note: &Note, operand: ClassicOperand) -> Operand
    ensures { result ≡ test_operand note.now operand }
{
    match operand {
        ClassicOperand::Number(k) => Operand::Immediate(compared(note.a, k).cast_signed()),
        ClassicOperand::Index => Operand::Register(reg(X)),
    }
}

/// The low bytes of a register, swapped.
pub(crate) fn swap_order(width: SwapWidth, dst: Reg) -> Insn
    ensures { result ≡ bpf.Unary (unary.ByteSwap order.ToBig width) dst }
{
    Insn::Unary {
        op: UnaryOp::ByteSwap {
            order: ByteOrder::ToBig,
            width,
        },
        dst,
    }
}

/// The offset of a jump from one slot to a later one.
pub(crate) fn distance(from: usize, target: usize) -> i16
    requires from { from < 2 ^ 32 }
    requires target { target ≤ MAX_SLOTS }
    ensures { result ≡ distance_of from target }
{
    target.saturating_sub(from + 1) as i16
}

/// A jump from one slot to a later one.
pub(crate) fn jump_to(from: usize, target: usize) -> Insn
    requires from { from < 2 ^ 32 }
    requires target { target ≤ MAX_SLOTS }
    ensures { result ≡ jump_to_insn from target }
{
    Insn::Jump {
        offset: distance(from, target),
    }
}

/// A jump from one slot to a later one, where the register compares so with the number.
pub(crate) fn jump_if(
    from: usize,
    target: usize,
    condition: Condition,
    register: u8,
    number: usize,
) -> Insn
    requires from { from < 2 ^ 32 }
    requires target { target ≤ MAX_SLOTS }
    requires register { register ≤ 10 }
    requires number { number ≤ MAX_SLOTS }
    ensures { result ≡ jump_if_insn from target condition register number }
{
    Insn::JumpIf {
        condition,
        size: Size::Word64,
        dst: reg(register),
        src: Operand::Immediate(number as i32),
        offset: distance(from, target),
    }
}

/// A copy of a register.
pub(crate) fn copy(dst: u8, src: u8) -> Insn
    requires dst { dst ≤ 10 }
    requires src { src ≤ 10 }
    ensures { result ≡ move_insn dst src }
{
    Insn::Alu {
        op: AluOp::Move,
        size: Size::Word64,
        dst: reg(dst),
        src: Operand::Register(reg(src)),
    }
}

/// A number of 32 bits into a register.
pub(crate) fn put_number(dst: Reg, number: u32) -> Insn
    ensures { result ≡ put_number_insn dst number }
{
    Insn::Alu {
        op: AluOp::Move,
        size: Size::Word32,
        dst,
        src: Operand::Immediate(number.cast_signed()),
    }
}

/// An operation on a register and a small number.
pub(crate) fn with_number(op: AluOp, size: Size, dst: Reg, number: usize) -> Insn
    requires { number ≤ MAX_SLOTS }
    ensures { result ≡ bpf.Alu op size dst (second.Immediate (pos number)) }
{
    Insn::Alu {
        op,
        size,
        dst,
        src: Operand::Immediate(number as i32),
    }
}

/// An operation on two registers.
pub(crate) fn with_register(op: AluOp, size: Size, dst: Reg, src: u8) -> Insn
    requires { src ≤ 10 }
    ensures { result ≡ bpf.Alu op size dst (second.Register src) }
{
    Insn::Alu {
        op,
        size,
        dst,
        src: Operand::Register(reg(src)),
    }
}

/// A load from an offset of a register.
pub(crate) fn load(width: Width, dst: Reg, base: u8, at: usize) -> Insn
    requires base { base ≤ 10 }
    requires at { at ≤ MAX_SLOTS }
    ensures { result ≡ bpf.Load width dst base (pos at) }
{
    Insn::Load {
        width,
        dst,
        src: reg(base),
        offset: at as i16,
    }
}

/// Where a word of memory stands, from the frame's end.
pub(crate) fn word_offset(number: u8) -> i16
    requires { number < 16 }
    ensures { result ≡ word_offset_of number }
{
    -8 * (i16::from(number) + 1)
}
