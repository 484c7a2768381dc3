//! Bytes out of programs.
ghost use Rattle.std.specs.Prelude.{pos, ◌%◌, ◌≡◌, ◌<◌, ◌≤◌, ◌/◌, ◌^◌, ◌++◌, OnOk, IfOk};
ghost use Rattle.std.specs.Int.{w32, cast_signed};
ghost use Rattle.bpf_model.specs.Spelling.{FitsInsn, FitsOperand, FitsSlot, slot_bytes, spelling, text, extension_size, extension_bits, swap_bits, source_of, operand_src, operand_imm, slot as slot_of};
ghost use Rattle.bpf_model.specs.Spelling.{FitsUnary, IsProgram, first_slot as first_slot_of, unary_slot as unary_slot_of, tail_slot as tail_slot_of, call_source as call_source_of};

use crate::opcode::byte_of;
use crate::operation::{code_of, offset_of};
use crate::program::Program;
use crate::slots::slot_to;
use bpf_model::{
    AluCode, AluOp, CallKind, Condition, Insn, Opcode, Operand, Reg, SignExtension, Size, Slot,
    Source, SwapWidth, UnaryOp, Width,
};
use std::alloc::{AllocError, Global};

/// The class of a move that extends a sign, and the offset that says of how many bits.
pub fn extension_parts(extension: SignExtension) -> (Size, i16)
    ensures { result ≡ (extension_size extension, extension_bits extension) }
{
    match extension {
        SignExtension::ByteTo32 => (Size::Word32, 8),
        SignExtension::ShortTo32 => (Size::Word32, 16),
        SignExtension::ByteTo64 => (Size::Word64, 8),
        SignExtension::ShortTo64 => (Size::Word64, 16),
        SignExtension::WordTo64 => (Size::Word64, 32),
    }
}

fn swap_bits(width: SwapWidth) -> i32
    ensures { result ≡ swap_bits width }
{
    match width {
        SwapWidth::Two => 16,
        SwapWidth::Four => 32,
        SwapWidth::Eight => 64,
    }
}

/// The source bit, the source register and imm of an operand.
fn operand_parts(operand: Operand) -> (Source, u8, i32)
    requires { FitsOperand operand }
    ensures { result ≡ (source_of operand, operand_src operand, operand_imm operand) }
{
    match operand {
        Operand::Register(src) => (Source::Register, src.number(), 0),
        Operand::Immediate(imm) => (Source::Immediate, 0, imm),
    }
}

fn slot(opcode: Opcode, dst: u8, src: u8, offset: i16, imm: i32) -> Slot
    requires dst { dst < 16 }
    requires src { src < 16 }
    ensures value { result ≡ slot_of opcode dst src offset imm }
    ensures fits { FitsSlot result }
{
    Slot {
        opcode: byte_of(opcode),
        dst,
        src,
        offset,
        imm,
    }
}

/// The slot of an operation of one operand: the bits of a byte swap stand in `imm`, those of a move with
/// sign extension in `offset`.
fn unary_slot(op: UnaryOp, dst: Reg) -> Slot
    requires dst { dst ≤ 10 }
    requires op { FitsUnary op }
    ensures value { result ≡ unary_slot_of op dst }
    ensures fits { FitsSlot result }
{
    match op {
        UnaryOp::Negate(size) => slot(Opcode::Negate(size), dst.number(), 0, 0, 0),
        UnaryOp::ByteSwap { order, width } => slot(
            Opcode::ByteSwap(order),
            dst.number(),
            0,
            0,
            swap_bits(width),
        ),
        UnaryOp::MoveSigned { extension, src } => {
            let (size, bits) = extension_parts(extension);
            let opcode = Opcode::Alu(AluCode::Move, size, Source::Register);
            slot(opcode, dst.number(), src.number(), bits, 0)
        }
    }
}

/// The slot of an operation on a register and an operand: where a code has two operations, `offset` tells
/// which it is.
fn alu_slot(op: AluOp, size: Size, dst: Reg, operand: Operand) -> Slot
    requires dst { dst ≤ 10 }
    requires operand { FitsOperand operand }
    ensures value { result ≡ first_slot_of (Insn.Alu op size dst operand) }
    ensures fits { FitsSlot result }
{
    let (source, src, imm) = operand_parts(operand);
    let opcode = Opcode::Alu(code_of(op), size, source);
    slot(opcode, dst.number(), src, offset_of(op), imm)
}

/// The slot of a conditional jump.
fn jump_slot(condition: Condition, size: Size, dst: Reg, operand: Operand, offset: i16) -> Slot
    requires dst { dst ≤ 10 }
    requires operand { FitsOperand operand }
    ensures value { result ≡ first_slot_of (Insn.JumpIf condition size dst operand offset) }
    ensures fits { FitsSlot result }
{
    let (source, src, imm) = operand_parts(operand);
    let opcode = Opcode::JumpIf(condition, size, source);
    slot(opcode, dst.number(), src, offset, imm)
}

/// The slot of a store.
fn store_slot(width: Width, dst: Reg, offset: i16, operand: Operand) -> Slot
    requires dst { dst ≤ 10 }
    requires operand { FitsOperand operand }
    ensures value { result ≡ first_slot_of (Insn.Store width dst offset operand) }
    ensures fits { FitsSlot result }
{
    let (source, src, imm) = operand_parts(operand);
    slot(Opcode::Store(width, source), dst.number(), src, offset, imm)
}

/// The slot of a load with this opcode.
fn load_slot(opcode: Opcode, dst: Reg, src: Reg, offset: i16) -> Slot
    requires dst { dst ≤ 10 }
    requires src { src ≤ 10 }
    ensures value { result ≡ slot_of opcode dst src offset (pos 0) }
    ensures fits { FitsSlot result }
{
    slot(opcode, dst.number(), src.number(), offset, 0)
}

/// The source field of a call: 0 of a helper, 2 of a kernel function.
fn call_source(kind: CallKind) -> u8
    ensures value { result ≡ call_source_of kind }
    ensures fits { result < 16 }
{
    match kind {
        CallKind::Helper => 0,
        CallKind::Kernel => 2,
    }
}

fn low_half(number: u64) -> i32
    ensures { result ≡ cast_signed w32 (number % 2 ^ 32) }
{
    ((number % 0x1_0000_0000) as u32).cast_signed()
}

/// The first slot of an instruction, with 0 in each field that it does not use.
fn first_slot(instruction: Insn) -> Slot
    requires { FitsInsn instruction }
    ensures value { result ≡ first_slot_of instruction }
    ensures fits { FitsSlot result }
{
    match instruction {
        Insn::Alu { op, size, dst, src } => alu_slot(op, size, dst, src),
        Insn::Unary { op, dst } => unary_slot(op, dst),
        Insn::LoadNumber { dst, number } => {
            slot(Opcode::Wide, dst.number(), 0, 0, low_half(number))
        }
        Insn::LoadMap { dst, map } => slot(Opcode::Wide, dst.number(), 5, 0, map),
        Insn::Jump { offset } => slot(Opcode::Jump(Size::Word64), 0, 0, offset, 0),
        Insn::JumpLong { imm } => slot(Opcode::Jump(Size::Word32), 0, 0, 0, imm),
        Insn::JumpIf {
            condition,
            size,
            dst,
            src,
            offset,
        } => jump_slot(condition, size, dst, src, offset),
        Insn::Call { kind, imm } => slot(Opcode::Call, 0, call_source(kind), 0, imm),
        Insn::Exit => slot(Opcode::Exit, 0, 0, 0, 0),
        Insn::Load {
            width,
            dst,
            src,
            offset,
        } => load_slot(Opcode::Load(width), dst, src, offset),
        Insn::LoadSigned {
            width,
            dst,
            src,
            offset,
        } => load_slot(Opcode::LoadSigned(width), dst, src, offset),
        Insn::Store {
            width,
            dst,
            offset,
            src,
        } => store_slot(width, dst, offset, src),
    }
}

/// The second slot of a wide instruction.
fn tail_slot(imm: i32) -> Slot
    ensures value { result ≡ tail_slot_of imm }
    ensures fits { FitsSlot result }
{
    Slot {
        opcode: 0,
        dst: 0,
        src: 0,
        offset: 0,
        imm,
    }
}

fn high_half(number: u64) -> i32
    ensures { result ≡ cast_signed w32 (number / 2 ^ 32) }
{
    ((number / 0x1_0000_0000) as u32).cast_signed()
}

fn put_slot(out: &mut Vec<u8>, slot: Slot) -> Result<(), AllocError>
    requires { FitsSlot slot }
    ensures { OnOk result (out.new.items ≡ out.old.items ++ slot_bytes slot) }
{
    out.extend_from_slice(&slot_to(slot))
}

#[tactic(auto, using(std::proofs::Common::append_assoc))]
fn put(out: &mut Vec<u8>, instruction: Insn) -> Result<(), AllocError>
    requires { FitsInsn instruction }
    ensures { OnOk result (out.new.items ≡ out.old.items ++ spelling instruction) }
{
    put_slot(out, first_slot(instruction))?;
    match &instruction {
        Insn::LoadNumber { number, .. } => put_slot(out, tail_slot(high_half(*number)))?,
        Insn::LoadMap { .. } => put_slot(out, tail_slot(0))?,
        _ => {}
    }
    Ok(())
}

/// The bytes that spell the program: 8 for each of its slots, little-endian. An error says that an
/// allocation failed.
pub fn encode(alloc: Global, program: &Program) -> Result<Vec<u8>, AllocError>
    ensures text { IfOk result (λ bytes. bytes.items ≡ text program.now) }
    ensures program { IsProgram program.now }
{
    let instructions = program.instructions();
    let mut out = Vec::with_capacity(alloc, 8 * program.slot_count())?;
    for instruction in instructions {
        put(&mut out, *instruction)?;
    }
    Ok(out)
}
