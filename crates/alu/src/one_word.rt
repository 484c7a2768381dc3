//! Operations on one word: negation, bytes in another order, low bits as signed numbers.
ghost use Rattle.std.specs.Prelude.{◌≡◌, ◌%◌};
ghost use Rattle.bpf_model.specs.Arithmetic.{negated, reordered, moved_signed, loaded_signed, unary as unary_of, immediate as immediate_of};

use crate::operate::low_half;
use bpf_model::{ByteOrder, SignExtension, SignedWidth, Size, SwapWidth, UnaryOp};

/// Zero less the word, on 64 bits or on the low 32; of 32 the high half of the result is 0.
#[inline]
pub fn negate(size: Size, dst: u64) -> u64
    ensures { result ≡ negated size dst }
{
    match size {
        Size::Word64 => dst.wrapping_neg(),
        Size::Word32 => u64::from(low_half(dst).wrapping_neg()),
    }
}

/// The low bytes, in the order of a little-endian host, in big-endian order, or swapped; the rest
/// is 0.
pub fn byte_swap(order: ByteOrder, width: SwapWidth, dst: u64) -> u64
    ensures { result ≡ reordered order width dst }
{
    match (order, width) {
        (ByteOrder::ToLittle, SwapWidth::Two) => dst % 0x1_0000,
        (ByteOrder::ToLittle, SwapWidth::Four) => dst % 0x1_0000_0000,
        (ByteOrder::ToLittle, SwapWidth::Eight) => dst,
        (ByteOrder::ToBig | ByteOrder::Swap, SwapWidth::Two) => {
            u64::from(((dst % 0x1_0000) as u16).swap_bytes())
        }
        (ByteOrder::ToBig | ByteOrder::Swap, SwapWidth::Four) => {
            u64::from(low_half(dst).swap_bytes())
        }
        (ByteOrder::ToBig | ByteOrder::Swap, SwapWidth::Eight) => dst.swap_bytes(),
    }
}

/// The low 8, 16 or 32 bits as a signed number, as a word of 32 or 64 bits; of 32 the high half is
/// 0.
pub fn move_signed(extension: SignExtension, src: u64) -> u64
    ensures { result ≡ moved_signed extension src }
{
    match extension {
        SignExtension::ByteTo32 => {
            u64::from(i32::from(((src % 0x100) as u8).cast_signed()).cast_unsigned())
        }
        SignExtension::ShortTo32 => {
            u64::from(i32::from(((src % 0x1_0000) as u16).cast_signed()).cast_unsigned())
        }
        SignExtension::ByteTo64 => i64::from(((src % 0x100) as u8).cast_signed()).cast_unsigned(),
        SignExtension::ShortTo64 => {
            i64::from(((src % 0x1_0000) as u16).cast_signed()).cast_unsigned()
        }
        SignExtension::WordTo64 => { i64::from(low_half(src).cast_signed()).cast_unsigned() }
    }
}

/// The operation of one operand, on the word that it reads.
#[inline]
pub fn unary(op: UnaryOp, word: u64) -> u64
    ensures { result ≡ unary_of op word }
{
    match op {
        UnaryOp::Negate(size) => negate(size, word),
        UnaryOp::ByteSwap { order, width } => byte_swap(order, width, word),
        UnaryOp::MoveSigned { extension, .. } => move_signed(extension, word),
    }
}

/// What a sign-extending load of this width leaves: the low 8, 16 or 32 bits of the number as a
/// signed number, as a word of 64 bits.
pub fn load_signed(width: SignedWidth, number: u64) -> u64
    ensures { result ≡ loaded_signed width number }
{
    match width {
        SignedWidth::One => move_signed(SignExtension::ByteTo64, number),
        SignedWidth::Two => move_signed(SignExtension::ShortTo64, number),
        SignedWidth::Four => move_signed(SignExtension::WordTo64, number),
    }
}

/// The field imm as a word: its sign is extended to 64 bits.
#[inline]
pub fn immediate(imm: i32) -> u64
    ensures { result ≡ immediate_of imm }
{
    i64::from(imm).cast_unsigned()
}
