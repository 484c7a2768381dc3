//! Opcodes as bytes, and back (RFC 9669, sections 3 to 5).
ghost use Rattle.std.specs.Prelude.{◌≡◌, ◌+◌, ◌*◌, ◌%◌, IfSome, Some};
ghost use Rattle.bpf_model.specs.declared.opcode.AluCode.{AluCode as AluCodeOf};
ghost use Rattle.bpf_model.specs.declared.opcode.Condition.{Condition as ConditionOf};
ghost use Rattle.bpf_model.specs.declared.opcode.Opcode.{Opcode as OpcodeOf};
ghost use Rattle.bpf_model.specs.declared.opcode.Size.{Size as SizeOf};
ghost use Rattle.bpf_model.specs.declared.opcode.Source.{Source as SourceOf};
ghost use Rattle.bpf_model.specs.Opcode.{opcode_byte, alu_class, jump_class, condition_code, source_bit, width_code, signed_width_code, store_class, swap_byte, excluded_byte};

use crate::operation::{alu_code_bits, alu_code_of};
use bpf_model::{ByteOrder, Condition, Excluded, Opcode, SignedWidth, Size, Source, Width};

/// The condition of a jump, by the high four bits of its byte.
fn condition_of(high: u8) -> Option<Condition>
    ensures found { IfSome result (λ c. condition_code c ≡ 16 * high) }
    ensures only { (c : ConditionOf) → condition_code c ≡ 16 * high → result ≡ Some c }
{
    Some(match high {
        0x1 => Condition::Equal,
        0x2 => Condition::Greater,
        0x3 => Condition::GreaterOrEqual,
        0x4 => Condition::SharesBits,
        0x5 => Condition::NotEqual,
        0x6 => Condition::SignedGreater,
        0x7 => Condition::SignedGreaterOrEqual,
        0xa => Condition::Less,
        0xb => Condition::LessOrEqual,
        0xc => Condition::SignedLess,
        0xd => Condition::SignedLessOrEqual,
        _ => return None,
    })
}

/// The operation on two operands of a byte with this source and this class.
fn alu_by(byte: u8, size: Size, source: Source) -> Option<Opcode>
    requires { byte % 16 ≡ source_bit source + alu_class size }
    ensures found { IfSome result (λ o. opcode_byte o ≡ byte) }
    ensures only { (c : AluCodeOf) → opcode_byte (Opcode.Alu c size source) ≡ byte
        → result ≡ Some (Opcode.Alu c size source) }
{
    let code = alu_code_of(byte / 16)?;
    Some(Opcode::Alu(code, size, source))
}

/// The jump on two operands of a byte with this source and this class.
fn jump_by(byte: u8, size: Size, source: Source) -> Option<Opcode>
    requires { byte % 16 ≡ source_bit source + jump_class size }
    ensures found { IfSome result (λ o. opcode_byte o ≡ byte) }
    ensures only { (c : ConditionOf) → opcode_byte (Opcode.JumpIf c size source) ≡ byte
        → result ≡ Some (Opcode.JumpIf c size source) }
{
    let condition = condition_of(byte / 16)?;
    Some(Opcode::JumpIf(condition, size, source))
}

/// The operation or the jump on two operands of a byte: the low three bits are its class, the next one tells a
/// register from a number, and the high four are its code.
fn with_operands(byte: u8) -> Option<Opcode>
    ensures found { IfSome result (λ o. opcode_byte o ≡ byte) }
    ensures alu { (c : AluCodeOf) (size : SizeOf) (source : SourceOf)
        → opcode_byte (Opcode.Alu c size source) ≡ byte → result ≡ Some (Opcode.Alu c size source) }
    ensures jump { (c : ConditionOf) (size : SizeOf) (source : SourceOf)
        → opcode_byte (Opcode.JumpIf c size source) ≡ byte → result ≡ Some (Opcode.JumpIf c size source) }
{
    match byte % 16 {
        0x4 => alu_by(byte, Size::Word32, Source::Immediate),
        0x7 => alu_by(byte, Size::Word64, Source::Immediate),
        0xc => alu_by(byte, Size::Word32, Source::Register),
        0xf => alu_by(byte, Size::Word64, Source::Register),
        0x5 => jump_by(byte, Size::Word64, Source::Immediate),
        0x6 => jump_by(byte, Size::Word32, Source::Immediate),
        0xd => jump_by(byte, Size::Word64, Source::Register),
        0xe => jump_by(byte, Size::Word32, Source::Register),
        _ => None,
    }
}

/// The opcode of a byte. The groups packet, atomic32 and atomic64 are excluded.
pub fn opcode_from(byte: u8) -> Option<Opcode>
    ensures found { IfSome result (λ o. opcode_byte o ≡ byte) }
    ensures only { (o : OpcodeOf) → opcode_byte o ≡ byte → result ≡ Some o }
{
    Some(match byte {
        0x05 => Opcode::Jump(Size::Word64),
        0x06 => Opcode::Jump(Size::Word32),
        0x18 => Opcode::Wide,
        0x20 => Opcode::Excluded(Excluded::AbsoluteWord),
        0x28 => Opcode::Excluded(Excluded::AbsoluteHalf),
        0x30 => Opcode::Excluded(Excluded::AbsoluteByte),
        0x40 => Opcode::Excluded(Excluded::IndirectWord),
        0x48 => Opcode::Excluded(Excluded::IndirectHalf),
        0x50 => Opcode::Excluded(Excluded::IndirectByte),
        0x61 => Opcode::Load(Width::Four),
        0x62 => Opcode::Store(Width::Four, Source::Immediate),
        0x63 => Opcode::Store(Width::Four, Source::Register),
        0x69 => Opcode::Load(Width::Two),
        0x6a => Opcode::Store(Width::Two, Source::Immediate),
        0x6b => Opcode::Store(Width::Two, Source::Register),
        0x71 => Opcode::Load(Width::One),
        0x72 => Opcode::Store(Width::One, Source::Immediate),
        0x73 => Opcode::Store(Width::One, Source::Register),
        0x79 => Opcode::Load(Width::Eight),
        0x7a => Opcode::Store(Width::Eight, Source::Immediate),
        0x7b => Opcode::Store(Width::Eight, Source::Register),
        0x81 => Opcode::LoadSigned(SignedWidth::Four),
        0x84 => Opcode::Negate(Size::Word32),
        0x85 => Opcode::Call,
        0x87 => Opcode::Negate(Size::Word64),
        0x89 => Opcode::LoadSigned(SignedWidth::Two),
        0x91 => Opcode::LoadSigned(SignedWidth::One),
        0x95 => Opcode::Exit,
        0xc3 => Opcode::Excluded(Excluded::AtomicWord),
        0xd4 => Opcode::ByteSwap(ByteOrder::ToLittle),
        0xd7 => Opcode::ByteSwap(ByteOrder::Swap),
        0xdb => Opcode::Excluded(Excluded::AtomicDouble),
        0xdc => Opcode::ByteSwap(ByteOrder::ToBig),
        _ => return with_operands(byte),
    })
}

fn condition_bits(condition: Condition) -> u8
    ensures { result ≡ condition_code condition }
{
    match condition {
        Condition::Equal => 0x10,
        Condition::Greater => 0x20,
        Condition::GreaterOrEqual => 0x30,
        Condition::SharesBits => 0x40,
        Condition::NotEqual => 0x50,
        Condition::SignedGreater => 0x60,
        Condition::SignedGreaterOrEqual => 0x70,
        Condition::Less => 0xa0,
        Condition::LessOrEqual => 0xb0,
        Condition::SignedLess => 0xc0,
        Condition::SignedLessOrEqual => 0xd0,
    }
}

fn alu_class_bits(size: Size) -> u8
    ensures { result ≡ alu_class size }
{
    match size {
        Size::Word32 => 0x04,
        Size::Word64 => 0x07,
    }
}

fn jump_class_bits(size: Size) -> u8
    ensures { result ≡ jump_class size }
{
    match size {
        Size::Word32 => 0x06,
        Size::Word64 => 0x05,
    }
}

fn source_bits(source: Source) -> u8
    ensures { result ≡ source_bit source }
{
    match source {
        Source::Immediate => 0x00,
        Source::Register => 0x08,
    }
}

fn width_bits(width: Width) -> u8
    ensures { result ≡ width_code width }
{
    match width {
        Width::One => 0x10,
        Width::Two => 0x08,
        Width::Four => 0x00,
        Width::Eight => 0x18,
    }
}

fn signed_width_bits(width: SignedWidth) -> u8
    ensures { result ≡ signed_width_code width }
{
    match width {
        SignedWidth::One => 0x10,
        SignedWidth::Two => 0x08,
        SignedWidth::Four => 0x00,
    }
}

fn store_class_bits(source: Source) -> u8
    ensures { result ≡ store_class source }
{
    match source {
        Source::Immediate => 0x62,
        Source::Register => 0x63,
    }
}

fn byte_of_swap(order: ByteOrder) -> u8
    ensures { result ≡ swap_byte order }
{
    match order {
        ByteOrder::ToLittle => 0xd4,
        ByteOrder::ToBig => 0xdc,
        ByteOrder::Swap => 0xd7,
    }
}

fn byte_of_excluded(excluded: Excluded) -> u8
    ensures { result ≡ excluded_byte excluded }
{
    match excluded {
        Excluded::AbsoluteWord => 0x20,
        Excluded::AbsoluteHalf => 0x28,
        Excluded::AbsoluteByte => 0x30,
        Excluded::IndirectWord => 0x40,
        Excluded::IndirectHalf => 0x48,
        Excluded::IndirectByte => 0x50,
        Excluded::AtomicWord => 0xc3,
        Excluded::AtomicDouble => 0xdb,
    }
}

/// The byte of an opcode.
pub fn byte_of(opcode: Opcode) -> u8
    ensures { result ≡ opcode_byte opcode }
{
    match opcode {
        Opcode::Alu(code, size, source) => {
            alu_code_bits(code) + source_bits(source) + alu_class_bits(size)
        }
        Opcode::Negate(size) => 0x80 + alu_class_bits(size),
        Opcode::ByteSwap(order) => byte_of_swap(order),
        Opcode::Jump(size) => jump_class_bits(size),
        Opcode::JumpIf(condition, size, source) => {
            condition_bits(condition) + source_bits(source) + jump_class_bits(size)
        }
        Opcode::Call => 0x85,
        Opcode::Exit => 0x95,
        Opcode::Load(width) => 0x61 + width_bits(width),
        Opcode::LoadSigned(width) => 0x81 + signed_width_bits(width),
        Opcode::Store(width, source) => store_class_bits(source) + width_bits(width),
        Opcode::Wide => 0x18,
        Opcode::Excluded(excluded) => byte_of_excluded(excluded),
    }
}
