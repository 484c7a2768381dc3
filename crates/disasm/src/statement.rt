//! Instructions as they are written: a mnemonic with its arguments.
ghost use Rattle.std.specs.Prelude.{◌≡◌};
ghost use Rattle.disasm.specs.Text.{number_argument, offset_argument, memory_argument, source_argument, unary_mnemonic as unary_mnemonic_of, store_mnemonic as store_mnemonic_of, unary_arguments as unary_arguments_of, sign_of as sign_of_number, magnitude as magnitude_of, mnemonic_of, text_arguments, statement_of};

use crate::mnemonic::Mnemonic;
use bpf_model::{Insn, Operand, Reg, UnaryOp, Width};
use insn_codec::extension_parts;

/// The sign that a number is written with.
#[derive(Clone, Copy, Debug, PartialEq, Eq)]
pub enum Sign {
    Plus,
    Minus,
}

/// An argument as it is written, whether or not its numbers are in their ranges: `r1`, `4`, `-4` or `[r10-8]`.
#[derive(Clone, Copy, Debug, PartialEq, Eq)]
pub enum Argument {
    /// `r` and a number.
    Register(u128),
    /// A number without a sign.
    Number(u128),
    /// A number with a sign.
    Signed(Sign, u128),
    /// A register with an offset, in brackets.
    Memory {
        base: u128,
        sign: Sign,
        offset: u128,
    },
}

/// The arguments of a mnemonic, in order.
#[derive(Clone, Copy, Debug, PartialEq, Eq)]
pub enum Arguments {
    Zero,
    One(Argument),
    Two(Argument, Argument),
    Three(Argument, Argument, Argument),
}

/// A line of text in its parts.
#[derive(Clone, Copy, Debug, PartialEq, Eq)]
pub struct Statement {
    pub mnemonic: Mnemonic,
    pub arguments: Arguments,
}

fn register(register: Reg) -> Argument
    ensures { result ≡ Argument.Register register }
{
    Argument::Register(u128::from(register.number()))
}

/// The number without its sign.
fn magnitude(value: i32) -> u128
    ensures { result ≡ magnitude_of value }
{
    u128::from(value.unsigned_abs())
}

/// A number bears a sign where it is below 0.
fn number(value: i32) -> Argument
    ensures { result ≡ number_argument value }
{
    if value < 0 {
        Argument::Signed(Sign::Minus, magnitude(value))
    } else {
        Argument::Number(magnitude(value))
    }
}

fn sign_of(value: i32) -> Sign
    ensures { result ≡ sign_of_number value }
{
    if value < 0 { Sign::Minus } else { Sign::Plus }
}

/// An offset always bears its sign.
fn offset(value: i32) -> Argument
    ensures { result ≡ offset_argument value }
{
    Argument::Signed(sign_of(value), magnitude(value))
}

fn memory(base: Reg, offset: i16) -> Argument
    ensures { result ≡ memory_argument base offset }
{
    let offset = i32::from(offset);
    Argument::Memory {
        base: u128::from(base.number()),
        sign: sign_of(offset),
        offset: magnitude(offset),
    }
}

fn source(operand: &Operand) -> Argument
    ensures { result ≡ source_argument operand.now }
{
    match operand {
        Operand::Register(src) => register(*src),
        Operand::Immediate(imm) => number(*imm),
    }
}

fn unary_mnemonic(op: &UnaryOp) -> Mnemonic
    ensures { result ≡ unary_mnemonic_of op.now }
{
    match op {
        UnaryOp::Negate(size) => Mnemonic::Negate(*size),
        UnaryOp::ByteSwap { order, width } => Mnemonic::ByteSwap(*order, *width),
        UnaryOp::MoveSigned { extension, .. } => Mnemonic::MoveSigned(
            extension_parts(*extension).0,
        ),
    }
}

/// A store of the field `imm` and one of a register have names of their own.
fn store_mnemonic(width: Width, src: &Operand) -> Mnemonic
    ensures { result ≡ store_mnemonic_of width src.now }
{
    match src {
        Operand::Immediate(_) => Mnemonic::Store(width),
        Operand::Register(_) => Mnemonic::StoreRegister(width),
    }
}

fn mnemonic_for(insn: &Insn) -> Mnemonic
    ensures { result ≡ mnemonic_of insn.now }
{
    match insn {
        Insn::Alu { op, size, .. } => Mnemonic::Alu(*op, *size),
        Insn::Unary { op, .. } => unary_mnemonic(op),
        Insn::LoadNumber { .. } => Mnemonic::LoadNumber,
        Insn::LoadMap { .. } => Mnemonic::LoadMap,
        Insn::Jump { .. } => Mnemonic::Jump,
        Insn::JumpLong { .. } => Mnemonic::JumpLong,
        Insn::JumpIf {
            condition,
            size,
            ..
        } => Mnemonic::JumpIf(*condition, *size),
        Insn::Call { kind, .. } => Mnemonic::Call(*kind),
        Insn::Exit => Mnemonic::Exit,
        Insn::Load { width, .. } => Mnemonic::Load(*width),
        Insn::LoadSigned { width, .. } => Mnemonic::LoadSigned(*width),
        Insn::Store { width, src, .. } => store_mnemonic(*width, src),
    }
}

fn unary_arguments(op: &UnaryOp, dst: Reg) -> Arguments
    ensures { result ≡ unary_arguments_of op.now dst }
{
    match op {
        UnaryOp::Negate(_) | UnaryOp::ByteSwap { .. } => Arguments::One(register(dst)),
        UnaryOp::MoveSigned { extension, src } => Arguments::Three(
            register(dst),
            register(*src),
            number(i32::from(extension_parts(*extension).1)),
        ),
    }
}

fn arguments_for(insn: &Insn) -> Arguments
    ensures { result ≡ text_arguments insn.now }
{
    match insn {
        Insn::Alu { dst, src, .. } => Arguments::Two(register(*dst), source(src)),
        Insn::Unary { op, dst } => unary_arguments(op, *dst),
        Insn::LoadNumber { dst, number } => Arguments::Two(
            register(*dst),
            Argument::Number(u128::from(*number)),
        ),
        Insn::LoadMap { dst, map } => Arguments::Two(register(*dst), number(*map)),
        Insn::Jump { offset: distance } => Arguments::One(offset(i32::from(*distance))),
        Insn::JumpLong { imm } => Arguments::One(offset(*imm)),
        Insn::JumpIf {
            dst,
            src,
            offset: distance,
            ..
        } => Arguments::Three(register(*dst), source(src), offset(i32::from(*distance))),
        Insn::Call { imm, .. } => Arguments::One(number(*imm)),
        Insn::Exit => Arguments::Zero,
        Insn::Load {
            dst,
            src,
            offset,
            ..
        }
        | Insn::LoadSigned {
            dst,
            src,
            offset,
            ..
        } => Arguments::Two(register(*dst), memory(*src, *offset)),
        Insn::Store {
            dst,
            src,
            offset,
            ..
        } => Arguments::Two(memory(*dst, *offset), source(src)),
    }
}

/// How an instruction is written.
pub(crate) fn statement_of(insn: &Insn) -> Statement
    ensures { result ≡ statement_of insn.now }
{
    Statement {
        mnemonic: mnemonic_for(insn),
        arguments: arguments_for(insn),
    }
}
