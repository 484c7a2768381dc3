//! Instructions out of slots.
ghost use Rattle.std.specs.Prelude.{[], ◌≤◌, OnErr, ◌≢◌, ◌⊎◌, pos, IsNone, ◌≡◌, ◌%◌, ◌/◌, ◌^◌, ◌∷◌, IfOk, IfErr, IfSome, true, false};
ghost use Rattle.std.specs.Int.{w32, cast_signed};
ghost use Rattle.bpf_model.specs.Spelling.{extension_size, extension_bits, swap_bits, FitsSlot, FitsInsn, slots_of, call_source, source_of, first_slot, opcode_of};
ghost use Rattle.bpf_model.specs.declared.insn.Insn.{Insn};
ghost use Rattle.bpf_model.specs.declared.insn.SignExtension.{SignExtension as SignExtensionOf};
ghost use Rattle.bpf_model.specs.Opcode.{opcode_byte};
ghost use Rattle.insn_codec.specs.Begins.{BeginsWith};
ghost use Rattle.insn_codec.specs.Faults.{IsInsnFlaw, flaw_with, has_bad_offset, has_bad_width, tail_flaw, has_unused, used_fields, has_unsupported_source as unsupported_source, is_excluded as is_excluded_opcode};

use crate::flaw::InsnFlaw;
use crate::opcode::opcode_from;
use crate::operation::op_of;
use bpf_model::{
    AluCode, ByteOrder, CallKind, Insn, Opcode, Operand, Reg, SignExtension, Size, Slot, Source,
    SwapWidth, UnaryOp,
};

/// Whether the opcode is of the groups packet, atomic32 and atomic64.
fn is_excluded(opcode: Opcode) -> bool
    ensures { result ≡ is_excluded_opcode opcode }
{
    matches!(opcode, Opcode::Excluded(_))
}

fn has_unsupported_source(opcode: Opcode, slot: Slot) -> bool
    ensures { result ≡ unsupported_source opcode slot }
{
    match opcode {
        Opcode::Call => slot.src != 0 && slot.src != 2,
        Opcode::Wide => slot.src != 0 && slot.src != 5,
        _ => false,
    }
}

fn has_unused_field(opcode: Opcode, slot: Slot) -> bool
    ensures { result ≡ has_unused (used_fields opcode) slot }
{
    match opcode {
        Opcode::Alu(AluCode::Move | AluCode::Div | AluCode::Mod, _, Source::Register) => slot.imm
            != 0,
        Opcode::Alu(AluCode::Div | AluCode::Mod, _, Source::Immediate) => { slot.src != 0 }
        Opcode::Alu(_, _, Source::Register) => slot.offset != 0 || slot.imm != 0,
        Opcode::Alu(_, _, Source::Immediate) => slot.src != 0 || slot.offset != 0,
        Opcode::Negate(_) => slot.src != 0 || slot.offset != 0 || slot.imm != 0,
        Opcode::ByteSwap(_) => slot.src != 0 || slot.offset != 0,
        Opcode::Jump(Size::Word64) => slot.dst != 0 || slot.src != 0 || slot.imm != 0,
        Opcode::Jump(Size::Word32) => slot.dst != 0 || slot.src != 0 || slot.offset != 0,
        Opcode::JumpIf(_, _, Source::Register) => slot.imm != 0,
        Opcode::JumpIf(_, _, Source::Immediate) => slot.src != 0,
        Opcode::Call => slot.dst != 0 || slot.offset != 0,
        Opcode::Exit | Opcode::Excluded(_) => {
            slot.dst != 0 || slot.src != 0 || slot.offset != 0 || slot.imm != 0
        }
        Opcode::Load(_) | Opcode::LoadSigned(_) | Opcode::Store(_, Source::Register) => slot.imm
            != 0,
        Opcode::Store(_, Source::Immediate) => slot.src != 0,
        Opcode::Wide => slot.offset != 0,
    }
}

/// The sign extension to a size from so many bits: 8 or 16, and to 64 bits also 32.
pub fn extension_of(size: Size, offset: i16) -> Option<SignExtension>
    ensures only { (x : SignExtensionOf) →
        extension_size x ≡ size → extension_bits x ≡ offset → result ≡ Some x }
    ensures some { IfSome result (λ x. (extension_size x ≡ size) × (extension_bits x ≡ offset)) }
    ensures none { IsNone result →
        (offset ≢ pos 8) × (offset ≢ pos 16) × (size ≡ Size.Word64 → offset ≢ pos 32) }
{
    match (size, offset) {
        (Size::Word32, 8) => Some(SignExtension::ByteTo32),
        (Size::Word32, 16) => Some(SignExtension::ShortTo32),
        (Size::Word64, 8) => Some(SignExtension::ByteTo64),
        (Size::Word64, 16) => Some(SignExtension::ShortTo64),
        (Size::Word64, 32) => Some(SignExtension::WordTo64),
        _ => None,
    }
}

fn swap_width_of(imm: i32) -> Option<SwapWidth>
    ensures some { IfSome result (λ w. swap_bits w ≡ imm) }
    ensures none { IsNone result → (imm ≢ pos 16) × (imm ≢ pos 32) × (imm ≢ pos 64) }
{
    match imm {
        16 => Some(SwapWidth::Two),
        32 => Some(SwapWidth::Four),
        64 => Some(SwapWidth::Eight),
        _ => None,
    }
}

/// The 64-bit number of its low and its high half.
fn joined(low: i32, high: i32) -> u64
    ensures low { cast_signed w32 (result % 2 ^ 32) ≡ low }
    ensures high { cast_signed w32 (result / 2 ^ 32) ≡ high }
{
    u64::from(high.cast_unsigned()) << 32 | u64::from(low.cast_unsigned())
}

fn call_kind_of(src: u8) -> CallKind
    requires { (src ≡ 0) ⊎ (src ≡ 2) }
    ensures { call_source result ≡ src }
{
    if src == 0 {
        CallKind::Helper
    } else {
        CallKind::Kernel
    }
}

fn operand_of(source: Source, src: Reg, imm: i32) -> Operand
    ensures source { source_of result ≡ source }
    ensures src { source ≡ Source.Register → result ≡ Operand.Register src }
    ensures imm { source ≡ Source.Immediate → result ≡ Operand.Immediate imm }
{
    match source {
        Source::Register => Operand::Register(src),
        Source::Immediate => Operand::Immediate(imm),
    }
}

fn alu(
    code: AluCode,
    size: Size,
    source: Source,
    slot: Slot,
    dst: Reg,
    src: Reg,
) -> Result<Insn, InsnFlaw>
    requires fields { FitsSlot slot }
    requires opcode { opcode_byte (Opcode.Alu code size source) ≡ slot.opcode }
    requires dst { (dst ≡ slot.dst) × (dst ≤ 10) }
    requires src { (src ≡ slot.src) × (src ≤ 10) }
    requires used { has_unused (used_fields (Opcode.Alu code size source)) slot ≡ false }
    ensures found { IfOk result (λ i. first_slot i ≡ slot) }
    ensures one { IfOk result (λ i. slots_of i ≡ first_slot i ∷ []) }
    ensures fits { IfOk result FitsInsn }
    ensures kind { IfOk result (λ i. opcode_of i ≡ Opcode.Alu code size source) }
    ensures flaw { IfErr result (λ f. f ≡ InsnFlaw.BadOffset) }
    ensures bad { OnErr result (has_bad_offset (Opcode.Alu code size source) slot ≡ true) }
{
    if let Some(op) = op_of(code, slot.offset) {
        return Ok(Insn::Alu {
            op,
            size,
            dst,
            src: operand_of(source, src, slot.imm),
        });
    }
    if code == AluCode::Move && source == Source::Register {
        if let Some(extension) = extension_of(size, slot.offset) {
            let op = UnaryOp::MoveSigned { extension, src };
            return Ok(Insn::Unary { op, dst });
        }
    }
    Err(InsnFlaw::BadOffset)
}

fn wide(slot: Slot, next: Option<Slot>, dst: Reg) -> Result<Insn, InsnFlaw>
    requires slot { FitsSlot slot }
    requires next { IfSome next FitsSlot }
    requires opcode { opcode_byte Opcode.Wide ≡ slot.opcode }
    requires dst { (dst ≡ slot.dst) × (dst ≤ 10) }
    requires source { unsupported_source Opcode.Wide slot ≡ false }
    requires used { has_unused (used_fields Opcode.Wide) slot ≡ false }
    ensures found { IfOk result (BeginsWith slot next) }
    ensures fits { IfOk result FitsInsn }
    ensures kind { IfOk result (λ i. opcode_of i ≡ Opcode.Wide) }
    ensures flaw { IfErr result (λ f. tail_flaw Opcode.Wide slot next ≡ Some f) }
{
    let Some(tail) = next else {
        return Err(InsnFlaw::WideCut);
    };
    if tail.opcode != 0 || tail.dst != 0 || tail.src != 0 || tail.offset != 0 {
        return Err(InsnFlaw::WideTail);
    }
    if slot.src == 0 {
        let number = joined(slot.imm, tail.imm);
        return Ok(Insn::LoadNumber { dst, number });
    }
    if tail.imm != 0 {
        return Err(InsnFlaw::WideTail);
    }
    Ok(Insn::LoadMap { dst, map: slot.imm })
}

/// A swap of bytes, whose width stands in `imm`.
fn byte_swap(order: ByteOrder, slot: Slot, dst: Reg) -> Result<Insn, InsnFlaw>
    requires fields { FitsSlot slot }
    requires opcode { opcode_byte (Opcode.ByteSwap order) ≡ slot.opcode }
    requires dst { (dst ≡ slot.dst) × (dst ≤ 10) }
    requires used { has_unused (used_fields (Opcode.ByteSwap order)) slot ≡ false }
    ensures found { IfOk result (λ i. first_slot i ≡ slot) }
    ensures one { IfOk result (λ i. slots_of i ≡ first_slot i ∷ []) }
    ensures fits { IfOk result FitsInsn }
    ensures kind { IfOk result (λ i. opcode_of i ≡ Opcode.ByteSwap order) }
    ensures flaw { IfErr result (λ f. f ≡ InsnFlaw.BadWidth) }
    ensures bad { OnErr result (has_bad_width (Opcode.ByteSwap order) slot ≡ true) }
{
    let Some(width) = swap_width_of(slot.imm) else {
        return Err(InsnFlaw::BadWidth);
    };
    let op = UnaryOp::ByteSwap { order, width };
    Ok(Insn::Unary { op, dst })
}

/// The instruction with this opcode and these registers, whose unused fields are 0, or the flaw of its
/// other fields.
fn insn_with(
    opcode: Opcode,
    slot: Slot,
    next: Option<Slot>,
    dst: Reg,
    src: Reg,
) -> Result<Insn, InsnFlaw>
    requires slot { FitsSlot slot }
    requires next { IfSome next FitsSlot }
    requires opcode { opcode_byte opcode ≡ slot.opcode }
    requires included { is_excluded_opcode opcode ≡ false }
    requires dst { (dst ≡ slot.dst) × (dst ≤ 10) }
    requires src { (src ≡ slot.src) × (src ≤ 10) }
    requires source { unsupported_source opcode slot ≡ false }
    requires used { has_unused (used_fields opcode) slot ≡ false }
    ensures found { IfOk result (BeginsWith slot next) }
    ensures fits { IfOk result FitsInsn }
    ensures kind { IfOk result (λ i. opcode_of i ≡ opcode) }
    ensures flaw { IfErr result (λ f. flaw_with opcode slot next ≡ Some f) }
{
    let Slot { offset, imm, .. } = slot;
    match opcode {
        Opcode::Alu(code, size, source) => alu(code, size, source, slot, dst, src),
        Opcode::Wide => wide(slot, next, dst),
        Opcode::Negate(size) => Ok(Insn::Unary {
            op: UnaryOp::Negate(size),
            dst,
        }),
        Opcode::ByteSwap(order) => byte_swap(order, slot, dst),
        Opcode::Jump(Size::Word64) => Ok(Insn::Jump { offset }),
        Opcode::Jump(Size::Word32) => Ok(Insn::JumpLong { imm }),
        Opcode::JumpIf(condition, size, source) => Ok(Insn::JumpIf {
            condition,
            size,
            dst,
            src: operand_of(source, src, imm),
            offset,
        }),
        Opcode::Call => Ok(Insn::Call {
            kind: call_kind_of(slot.src),
            imm,
        }),
        Opcode::Exit => Ok(Insn::Exit),
        Opcode::Load(width) => Ok(Insn::Load {
            width,
            dst,
            src,
            offset,
        }),
        Opcode::LoadSigned(width) => Ok(Insn::LoadSigned {
            width,
            dst,
            src,
            offset,
        }),
        Opcode::Store(width, source) => Ok(Insn::Store {
            width,
            dst,
            offset,
            src: operand_of(source, src, imm),
        }),
        Opcode::Excluded(_) => unreachable!(),
    }
}

/// The instruction with this opcode that begins with this slot, or its first flaw.
fn decode_with(opcode: Opcode, slot: Slot, next: Option<Slot>) -> Result<Insn, InsnFlaw>
    requires slot { FitsSlot slot }
    requires next { IfSome next FitsSlot }
    requires opcode { opcode_byte opcode ≡ slot.opcode }
    requires included { is_excluded_opcode opcode ≡ false }
    ensures found { IfOk result (BeginsWith slot next) }
    ensures fits { IfOk result FitsInsn }
    ensures kind { IfOk result (λ i. opcode_of i ≡ opcode) }
    ensures flaw { IfErr result (λ f. flaw_with opcode slot next ≡ Some f) }
{
    let Some(dst) = Reg::new(slot.dst) else {
        return Err(InsnFlaw::BadRegister);
    };
    let Some(src) = Reg::new(slot.src) else {
        return Err(InsnFlaw::BadRegister);
    };
    if has_unsupported_source(opcode, slot) {
        return Err(InsnFlaw::UnsupportedSource);
    }
    if has_unused_field(opcode, slot) {
        return Err(InsnFlaw::UnusedField);
    }
    insn_with(opcode, slot, next, dst, src)
}

/// The instruction that begins with this slot, or its first flaw.
pub fn decode_slot(slot: Slot, next: Option<Slot>) -> Result<Insn, InsnFlaw>
    requires slot { FitsSlot slot }
    requires next { IfSome next FitsSlot }
    // The slots begin with the instruction that is found.
    ensures found { IfOk result (BeginsWith slot next) }
    ensures fits { IfOk result FitsInsn }
    // An instruction that the slots begin with is the one that is found.
    ensures only { (i : Insn) → FitsInsn i → BeginsWith slot next i → result ≡ Ok i }
    ensures flaw { IfErr result (IsInsnFlaw slot next) }
{
    let Some(opcode) = opcode_from(slot.opcode) else {
        return Err(InsnFlaw::UnknownOpcode);
    };
    if is_excluded(opcode) {
        return Err(InsnFlaw::OutsideProfile);
    }
    decode_with(opcode, slot, next)
}
