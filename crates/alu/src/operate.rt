//! Operations on two words.
ghost use Rattle.std.specs.Prelude.{◌≡◌, ◌%◌, ◌^◌};
ghost use Rattle.std.specs.Int.{w32, w64};
ghost use Rattle.bpf_model.specs.Arithmetic.{operate, alu as alu_of};

use bpf_model::{AluOp, Size};

/// The operation on all 64 bits. Division by zero gives 0 and the remainder by zero leaves `dst`;
/// signed division truncates toward zero; a shift takes its amount modulo 64.
pub fn alu64(op: AluOp, dst: u64, src: u64) -> u64
    ensures { result ≡ operate w64 op dst src }
{
    match op {
        AluOp::Add => dst.wrapping_add(src),
        AluOp::Sub => dst.wrapping_sub(src),
        AluOp::Mul => dst.wrapping_mul(src),
        AluOp::Div => dst.checked_div(src).unwrap_or(0),
        AluOp::SignedDiv => {
            if src == 0 {
                0
            } else {
                let quotient: i64 = dst.cast_signed().wrapping_div(src.cast_signed());
                quotient.cast_unsigned()
            }
        }
        AluOp::Or => dst | src,
        AluOp::And => dst & src,
        AluOp::ShiftLeft => dst.wrapping_shl((src % 64) as u32),
        AluOp::ShiftRight => dst.wrapping_shr((src % 64) as u32),
        AluOp::Mod => dst.checked_rem(src).unwrap_or(dst),
        AluOp::SignedMod => {
            if src == 0 {
                dst
            } else {
                let remainder: i64 = dst.cast_signed().wrapping_rem(src.cast_signed());
                remainder.cast_unsigned()
            }
        }
        AluOp::Xor => dst ^ src,
        AluOp::Move => src,
        AluOp::ShiftRightSigned => {
            dst.cast_signed()
                .wrapping_shr((src % 64) as u32)
                .cast_unsigned()
        }
    }
}

/// The operation on words of 32 bits.
fn operate_words(op: AluOp, dst: u32, src: u32) -> u32
    ensures { result ≡ operate w32 op dst src }
{
    match op {
        AluOp::Add => dst.wrapping_add(src),
        AluOp::Sub => dst.wrapping_sub(src),
        AluOp::Mul => dst.wrapping_mul(src),
        AluOp::Div => dst.checked_div(src).unwrap_or(0),
        AluOp::SignedDiv => {
            if src == 0 {
                0
            } else {
                let quotient: i32 = dst.cast_signed().wrapping_div(src.cast_signed());
                quotient.cast_unsigned()
            }
        }
        AluOp::Or => dst | src,
        AluOp::And => dst & src,
        AluOp::ShiftLeft => dst.wrapping_shl(src),
        AluOp::ShiftRight => dst.wrapping_shr(src),
        AluOp::Mod => dst.checked_rem(src).unwrap_or(dst),
        AluOp::SignedMod => {
            if src == 0 {
                dst
            } else {
                let remainder: i32 = dst.cast_signed().wrapping_rem(src.cast_signed());
                remainder.cast_unsigned()
            }
        }
        AluOp::Xor => dst ^ src,
        AluOp::Move => src,
        AluOp::ShiftRightSigned => dst.cast_signed().wrapping_shr(src).cast_unsigned(),
    }
}

/// The low 32 bits.
#[inline]
pub(crate) fn low_half(word: u64) -> u32
    ensures { result ≡ word % 2 ^ 32 }
{
    (word % 0x1_0000_0000) as u32
}

/// The operation on the low 32 bits; the high ones of the result are 0.
pub fn alu32(op: AluOp, dst: u64, src: u64) -> u64
    ensures { result ≡ operate w32 op (dst % 2 ^ 32) (src % 2 ^ 32) }
{
    u64::from(operate_words(op, low_half(dst), low_half(src)))
}

/// The operation on words of this size; of 32-bit ones the high half of the result is 0.
#[inline]
pub fn alu(size: Size, op: AluOp, dst: u64, src: u64) -> u64
    ensures { result ≡ alu_of size op dst src }
{
    match size {
        Size::Word64 => alu64(op, dst, src),
        Size::Word32 => alu32(op, dst, src),
    }
}
