//! Operations and tests of numbers.
ghost use Rattle.std.specs.Prelude.{◌≡◌};
ghost use Rattle.classic_program.specs.Machine.{operated, passes as passes_test};

use classic_program::{ClassicOp, ClassicTest};

/// What an operation comes to, if it has a result.
#[inline(always)]
pub(crate) fn operate(op: ClassicOp, a: u32, b: u32) -> Option<u32>
    ensures { result ≡ operated op a b }
{
    match op {
        ClassicOp::Add => Some(a.wrapping_add(b)),
        ClassicOp::Sub => Some(a.wrapping_sub(b)),
        ClassicOp::Mul => Some(a.wrapping_mul(b)),
        ClassicOp::Div => a.checked_div(b),
        ClassicOp::Mod => a.checked_rem(b),
        ClassicOp::Or => Some(a | b),
        ClassicOp::And => Some(a & b),
        ClassicOp::Xor => Some(a ^ b),
        ClassicOp::ShiftLeft => Some(a.wrapping_shl(b)),
        ClassicOp::ShiftRight => Some(a.wrapping_shr(b)),
    }
}

/// Whether A passes a test.
#[inline(always)]
pub(crate) fn passes(test: ClassicTest, a: u32, b: u32) -> bool
    ensures { result ≡ passes_test test a b }
{
    match test {
        ClassicTest::Equal => a == b,
        ClassicTest::Greater => a > b,
        ClassicTest::GreaterOrEqual => a >= b,
        ClassicTest::SharesBits => a & b != 0,
    }
}
