//! Comparisons of two words.
ghost use Rattle.std.specs.Prelude.{◌≡◌, ◌%◌, ◌^◌};
ghost use Rattle.std.specs.Int.{w32, w64};
ghost use Rattle.bpf_model.specs.Arithmetic.{holds, compares};

use crate::operate::low_half;
use bpf_model::{Condition, Size};

/// Whether the condition holds of all 64 bits.
pub fn compare64(condition: Condition, dst: u64, src: u64) -> bool
    ensures { result ≡ holds w64 condition dst src }
{
    match condition {
        Condition::Equal => dst == src,
        Condition::Greater => dst > src,
        Condition::GreaterOrEqual => dst >= src,
        Condition::SharesBits => dst & src != 0,
        Condition::NotEqual => dst != src,
        Condition::SignedGreater => dst.cast_signed() > src.cast_signed(),
        Condition::SignedGreaterOrEqual => dst.cast_signed() >= src.cast_signed(),
        Condition::Less => dst < src,
        Condition::LessOrEqual => dst <= src,
        Condition::SignedLess => dst.cast_signed() < src.cast_signed(),
        Condition::SignedLessOrEqual => dst.cast_signed() <= src.cast_signed(),
    }
}

/// Whether the condition holds of two words of 32 bits.
fn compare_words(condition: Condition, left: u32, right: u32) -> bool
    ensures { result ≡ holds w32 condition left right }
{
    match condition {
        Condition::Equal => left == right,
        Condition::Greater => left > right,
        Condition::GreaterOrEqual => left >= right,
        Condition::SharesBits => left & right != 0,
        Condition::NotEqual => left != right,
        Condition::SignedGreater => left.cast_signed() > right.cast_signed(),
        Condition::SignedGreaterOrEqual => left.cast_signed() >= right.cast_signed(),
        Condition::Less => left < right,
        Condition::LessOrEqual => left <= right,
        Condition::SignedLess => left.cast_signed() < right.cast_signed(),
        Condition::SignedLessOrEqual => left.cast_signed() <= right.cast_signed(),
    }
}

/// Whether the condition holds of the low 32 bits.
pub fn compare32(condition: Condition, dst: u64, src: u64) -> bool
    ensures { result ≡ holds w32 condition (dst % 2 ^ 32) (src % 2 ^ 32) }
{
    compare_words(condition, low_half(dst), low_half(src))
}

/// Whether the condition holds of all 64 bits, or of the low 32.
#[inline]
pub fn compare(size: Size, condition: Condition, dst: u64, src: u64) -> bool
    ensures { result ≡ compares size condition dst src }
{
    match size {
        Size::Word64 => compare64(condition, dst, src),
        Size::Word32 => compare32(condition, dst, src),
    }
}
