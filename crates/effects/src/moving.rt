//! References that are moved by a number.
ghost use Rattle.std.specs.Prelude.{◌≡◌, ℕ, ◌+◌, ◌<◌, ◌≤◌, ◌^◌, ℤ, pos, ◌+ℤ◌, IfOk, OnOk, IsOk, Ok};
ghost use Rattle.model_laws.specs.Near.{IsNearOffset};
ghost use Rattle.scalar_domain.specs.Scalar.{Holds, IsConstant};
ghost use Rattle.plan_laws.specs.Describes.{HasOffset};
ghost use Rattle.effects.specs.Computes.{MovesOffsets, IsNearStep, signed_move, shifted_word};

use bpf_model::{AluOp, NEAR_LIMIT, Size};
use register_kinds::{InsnFault, ORIGIN};
use scalar_domain::Scalar;

/// Which way a reference is moved: by a sum, or by a difference.
#[derive(Clone, Copy, Debug, PartialEq, Eq)]
pub(crate) enum Way {
    Forward,
    Back,
}

/// Each of the numbers, read as a signed one, lies within the limit, so far as a reference may be moved at
/// once, and all have one sign.
fn check_step(by: Scalar) -> Result<(), InsnFault>
    ensures steps { OnOk result ((n : ℕ) → Holds by n → IsNearStep n) }
    ensures accepts { (n : ℕ) → IsConstant by n → IsNearStep n → IsOk result }
{
    if by.greatest <= NEAR_LIMIT || by.least >= u64::MAX - (NEAR_LIMIT - 1) {
        return Ok(());
    }
    Err(InsnFault::PointerArithmetic)
}

/// The raised offsets, forward or back by each of the numbers, as words.
fn shifted(way: Way, offset: Scalar, by: Scalar) -> Scalar
    ensures sound { (x n : ℕ) → x < 2 ^ 64 → n < 2 ^ 64 → Holds offset x → Holds by n
        → Holds result (shifted_word way x n) }
    ensures constant { (x n : ℕ) → IsConstant offset x → IsConstant by n
        → IsConstant result (shifted_word way x n) }
{
    match way {
        Way::Forward => Scalar::apply(Size::Word64, AluOp::Add, offset, by),
        Way::Back => Scalar::apply(Size::Word64, AluOp::Sub, offset, by),
    }
}

/// The offsets of a reference that is moved. Error: `PointerArithmetic` where a number may lie
/// outside the limit, or a new offset.
pub(crate) fn moved(way: Way, offset: Scalar, by: Scalar) -> Result<Scalar, InsnFault>
    ensures sound { IfOk result (λ t. MovesOffsets way offset by t) }
    ensures constant { (x n : ℕ) → IsConstant offset x → IsConstant by n → IsNearStep n
        → shifted_word way x n ≤ 2 ^ 30
        → (t : Scalar) × (result ≡ Ok t) × IsConstant t (shifted_word way x n) }
{
    check_step(by)?;
    let new = shifted(way, offset, by);
    if new.greatest > 2 * NEAR_LIMIT {
        return Err(InsnFault::PointerArithmetic);
    }
    Ok(new)
}

/// An offset of a reference to the frame, kept 2^29 higher, where it is near.
fn raised(offset: i32) -> Result<Scalar, InsnFault>
    ensures value { IfOk result (λ s. HasOffset s offset) }
    ensures constant { (m : ℕ) → offset ≡ pos m → m ≤ 2 ^ 29
        → (s : Scalar) × (result ≡ Ok s) × IsConstant s (m + 2 ^ 29) }
{
    let raised = i64::from(offset) + ORIGIN as i64;
    if raised < 0 || raised > 2 * NEAR_LIMIT as i64 {
        return Err(InsnFault::PointerArithmetic);
    }
    Ok(Scalar::constant(raised as u64))
}

/// The one offset of a set, where it has one.
fn lowered(offsets: Scalar) -> Result<i32, InsnFault>
    ensures value { IfOk result (λ p. (o : ℤ) → HasOffset offsets o → p ≡ o) }
    ensures near { IfOk result IsNearOffset }
    ensures accepts { (x : ℕ) → IsConstant offsets x → x ≤ 2 ^ 30 → IsOk result }
{
    match offsets.as_constant() {
        Some(raised) => {
            if raised > 2 * NEAR_LIMIT {
                return Err(InsnFault::PointerArithmetic);
            }
            Ok((raised as i64 - ORIGIN as i64) as i32)
        }
        None => Err(InsnFault::PointerArithmetic),
    }
}

/// The offset of a reference to the frame that is moved by the one number of a set. Errors as
/// `moved`, and where there may be more numbers.
pub(crate) fn moved_in_frame(way: Way, offset: i32, by: Scalar) -> Result<i32, InsnFault>
    ensures value { IfOk result (λ p. (n : ℕ) → n < 2 ^ 64 → Holds by n
        → p ≡ offset +ℤ signed_move way n) }
    ensures near { IfOk result IsNearOffset }
    ensures inside { (m n at : ℕ) → offset ≡ pos m → m ≤ 2 ^ 29 → IsConstant by n → IsNearStep n
        → shifted_word way (m + 2 ^ 29) n ≡ at + 2 ^ 29 → at ≤ 2 ^ 29 → result ≡ Ok (pos at) }
{
    let new = moved(way, raised(offset)?, by)?;
    lowered(new)
}
