//! Tests of registers.
ghost use Rattle.std.specs.Prelude.{◌≡◌, ℕ, OnOk, IfOk, IsOk, slice_get, Some};
ghost use Rattle.bpf_model.specs.declared.limits.MapShape.{MapShape};
ghost use Rattle.scalar_domain.specs.declared.scalar.Scalar.{Scalar};
ghost use Rattle.plan_laws.specs.Effects.{IsWritten};
ghost use Rattle.register_kinds.specs.States.{kind_in, kind_of};
ghost use Rattle.register_kinds.specs.Tests.{held_kind, frame_of, numbers_of};

use crate::fault::InsnFault;
use crate::kind::RegKind;
use crate::state::AbsState;
use bpf_model::{MapShape, Reg};
use scalar_domain::Scalar;

/// No instruction writes r10. Error: `FramePointerWritten`.
pub fn check_writable(dst: Reg) -> Result<(), InsnFault>
    ensures value { OnOk result (10 ≡ dst → ⊥) }
    ensures accepts { (10 ≡ dst → ⊥) → IsOk result }
{
    if dst.number() == 10 {
        return Err(InsnFault::FramePointerWritten);
    }
    Ok(())
}

/// What a register holds that is read. Errors: `UnwrittenRegister`, `OutsideSection`, `MixedRegions`.
pub fn held(state: &AbsState, r: Reg) -> Result<RegKind, InsnFault>
    ensures result { result ≡ held_kind (kind_in state.now.regs r) }
    ensures value { IfOk result (λ k. kind_in state.now.regs r ≡ k) }
    ensures written { IfOk result (λ k. IsWritten (kind_of k)) }
{
    match state.kind(r) {
        RegKind::Unwritten => Err(InsnFault::UnwrittenRegister),
        RegKind::Ended => Err(InsnFault::OutsideSection),
        RegKind::Mixed => Err(InsnFault::MixedRegions),
        kind => Ok(kind),
    }
}

/// The map that a call is given, and its shape. Errors, in this order: those of `held`,
/// `WrongArgument`, `NoSuchMap`.
pub fn map_argument(
    state: &AbsState,
    r: Reg,
    shapes: &[MapShape],
) -> Result<(u32, MapShape), InsnFault>
    ensures map { IfOk result (λ p. kind_in state.now.regs r ≡ RegKind.Map p.0) }
    ensures shape { IfOk result (λ p. slice_get shapes.now p.0 ≡ Some p.1) }
    ensures accepts { (map : ℕ) (shape : MapShape) → kind_in state.now.regs r ≡ RegKind.Map map
        → slice_get shapes.now map ≡ Some shape → IsOk result }
{
    match held(state, r)? {
        RegKind::Map(map) => match shapes.get(map as usize) {
            Some(shape) => Ok((map, *shape)),
            None => Err(InsnFault::NoSuchMap),
        },
        _ => Err(InsnFault::WrongArgument),
    }
}

/// The offset in the frame that a call is given. Errors: those of `held`, then `WrongArgument`.
pub fn frame_argument(state: &AbsState, r: Reg) -> Result<i32, InsnFault>
    ensures result { result ≡ frame_of (kind_in state.now.regs r) }
    ensures value { IfOk result (λ o. kind_in state.now.regs r ≡ RegKind.Frame o) }
{
    match held(state, r)? {
        RegKind::Frame(offset) => Ok(offset),
        _ => Err(InsnFault::WrongArgument),
    }
}

/// The numbers that a call may be given. Errors: those of `held`, then `WrongArgument`.
pub fn number_argument(state: &AbsState, r: Reg) -> Result<Scalar, InsnFault>
    ensures result { result ≡ numbers_of (kind_in state.now.regs r) }
    ensures value { IfOk result (λ s. kind_in state.now.regs r ≡ RegKind.Num s) }
{
    match held(state, r)? {
        RegKind::Num(numbers) => Ok(numbers),
        _ => Err(InsnFault::WrongArgument),
    }
}
