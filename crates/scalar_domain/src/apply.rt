//! What operations of two operands can give, of numbers in two sets.
ghost use Rattle.std.specs.Prelude.{◌≡◌, ℕ, ◌<◌, ◌^◌};
ghost use Rattle.std.specs.Int.{w32, w64};
ghost use Rattle.bpf_model.specs.Arithmetic.{operate, alu};
ghost use Rattle.scalar_domain.specs.Scalar.{Holds};
ghost use Rattle.scalar_domain.specs.Floor.{KeepsFloor, KeepsWideFloor};
ghost use Rattle.scalar_domain.specs.Unsigned.{unsigned_form};

use crate::scalar::Scalar;
use bpf_model::{AluOp, Size};

impl Scalar {
    /// What an operation can give, on 64 bits or on the low 32: at least as narrow as
    /// `specs/Floor.antt` says, so of two constants the constant.
    #[inline(always)]
    pub fn apply(size: Size, op: AluOp, a: Scalar, b: Scalar) -> Scalar
        ensures sound { (x y : ℕ) → x < 2 ^ 64 → y < 2 ^ 64 → Holds a x → Holds b y
            → Holds result (alu size op x y) }
        ensures floor { KeepsFloor size op a b result }
    {
        match (a.as_constant(), b.as_constant()) {
            (Some(x), Some(y)) => Scalar::constant(alu::alu(size, op, x, y)),
            _ => apply_sets(size, op, a.copied(), b.copied()),
        }
    }
}

/// What an operation can give, on 64 bits or on the low 32, where not both operands are constants.
#[inline(never)]
fn apply_sets(size: Size, op: AluOp, a: Scalar, b: Scalar) -> Scalar
    ensures sound { (x y : ℕ) → x < 2 ^ 64 → y < 2 ^ 64 → Holds a x → Holds b y
        → Holds result (alu size op x y) }
    ensures narrow { size ≡ Size.Word32 → result.greatest < 2 ^ 32 }
    ensures wide { size ≡ Size.Word64 → KeepsWideFloor op a b result }
{
    match size {
        Size::Word64 => apply_wide(op, a, b),
        Size::Word32 => apply_narrow(op, a.low_bits(32), b.low_bits(32)),
    }
}

/// What an operation on 64 bits can give.
fn apply_wide(op: AluOp, a: Scalar, b: Scalar) -> Scalar
    ensures sound { (x y : ℕ) → x < 2 ^ 64 → y < 2 ^ 64 → Holds a x → Holds b y
        → Holds result (operate w64 op x y) }
    ensures floor { KeepsWideFloor op a b result }
{
    if a.greatest < 1 << 63 && b.greatest < 1 << 63 {
        apply_unsigned(without_sign(op), a, b)
    } else {
        apply_unsigned(op, a, b)
    }
}

/// What an operation on the low 32 bits can give, of numbers below 2^32.
fn apply_narrow(op: AluOp, a: Scalar, b: Scalar) -> Scalar
    ensures sound { (x y : ℕ) → x < 2 ^ 32 → y < 2 ^ 32 → Holds a x → Holds b y
        → Holds result (operate w32 op x y) }
    ensures bound { result.greatest < 2 ^ 32 }
{
    if a.greatest < 1 << 31 && b.greatest < 1 << 31 {
        apply_narrow_unsigned(without_sign(op), a, b)
    } else {
        apply_narrow_unsigned(op, a, b)
    }
}

/// The operation that does the same where both operands have no sign.
fn without_sign(op: AluOp) -> AluOp
    ensures { result ≡ unsigned_form op }
{
    match op {
        AluOp::SignedDiv => AluOp::Div,
        AluOp::SignedMod => AluOp::Mod,
        AluOp::ShiftRightSigned => AluOp::ShiftRight,
        _ => op,
    }
}

/// What an operation on 64 bits can give; of a signed one nothing is known.
fn apply_unsigned(op: AluOp, a: Scalar, b: Scalar) -> Scalar
    ensures sound { (x y : ℕ) → x < 2 ^ 64 → y < 2 ^ 64 → Holds a x → Holds b y
        → Holds result (operate w64 op x y) }
    ensures floor { KeepsWideFloor op a b result }
{
    match op {
        AluOp::Add => a.add(b),
        AluOp::Sub => a.subtract(b),
        AluOp::Mul => a.multiply(b),
        AluOp::Div => a.divide(b),
        AluOp::Mod => a.remainder(b),
        AluOp::And => a.mask(b),
        AluOp::Or => a.or(b),
        AluOp::Xor => a.xor(b),
        AluOp::Move => b,
        AluOp::ShiftLeft => a.shift_left_by(b, 64),
        AluOp::ShiftRight => a.shift_right_by(b, 64),
        AluOp::SignedDiv | AluOp::SignedMod | AluOp::ShiftRightSigned => Scalar::unknown(),
    }
}

/// What an operation on 32 bits can give, of numbers below 2^32; of a signed one nothing is known.
fn apply_narrow_unsigned(op: AluOp, a: Scalar, b: Scalar) -> Scalar
    ensures sound { (x y : ℕ) → x < 2 ^ 32 → y < 2 ^ 32 → Holds a x → Holds b y
        → Holds result (operate w32 op x y) }
    ensures bound { result.greatest < 2 ^ 32 }
{
    match op {
        AluOp::ShiftLeft => a.shift_left_by(b, 32).low_bits(32),
        AluOp::ShiftRight => a.shift_right_by(b, 32).low_bits(32),
        AluOp::SignedDiv | AluOp::SignedMod | AluOp::ShiftRightSigned => {
            Scalar::between(0, 0xffff_ffff)
        }
        _ => apply_unsigned(op, a, b).low_bits(32),
    }
}
