//! The arguments of a helper, from r1 on.
ghost use Rattle.std.specs.Prelude.{◌≡◌, ℕ, ◌+◌, ◌≤◌, ◌<◌, OnOk, IfOk, IsOk, pos};
ghost use Rattle.bpf_model.specs.declared.limits.TheConstants.{FRAME_BYTES};
ghost use Rattle.plan_laws.specs.Effects.{HasBytes, HasMap};
ghost use Rattle.bpf_model.specs.declared.limits.MapShape.{MapShape};
ghost use Rattle.bpf_model.specs.Request.{signature_of};
ghost use Rattle.register_kinds.specs.States.{kind_in, state_of};
ghost use Rattle.effects.specs.Calls.{IsArgument, AreArguments};

use bpf_model::{ArgumentKind, FRAME_BYTES, Helper, MapShape, Reg};
use register_kinds::{
    AbsState, InsnFault, RegKind, check_bytes, frame_argument, map_argument, number_argument,
};

/// Where so many bytes of the frame begin, if all of them lie inside.
fn frame_start(offset: i32, len: usize) -> Result<usize, InsnFault>
    ensures offset { IfOk result (λ at. offset ≡ pos at) }
    ensures inside { IfOk result (λ at. at + len ≤ FRAME_BYTES) }
    ensures accepts { (at : ℕ) → offset ≡ pos at → at + len ≤ FRAME_BYTES → IsOk result }
{
    if offset < 0 {
        return Err(InsnFault::OutOfBounds);
    }
    let at = offset as usize;
    if at > FRAME_BYTES || FRAME_BYTES - at < len {
        return Err(InsnFault::OutOfBounds);
    }
    Ok(at)
}

/// A register points to so many bytes of the frame. Errors, in this order: those of a register that
/// is read, then `WrongArgument`, `OutOfBounds`, and those of the bytes.
fn check_bytes_argument(state: &AbsState, r: Reg, len: usize) -> Result<(), InsnFault>
    ensures bytes { OnOk result (HasBytes (state_of state.now) r len) }
    ensures accepts { HasBytes (state_of state.now) r len → IsOk result }
{
    let offset = frame_argument(state, r)?;
    let at = frame_start(offset, len)?;
    check_bytes(&state.frame, at, len)?;
    Ok(())
}

/// The register of an argument: the first is in r1, and there are at most five.
fn argument_register(index: usize) -> Reg
    requires { index < 5 }
    ensures { result ≡ 1 + index }
{
    match Reg::new(1 + index as u8) {
        Some(r) => r,
        None => unreachable!(),
    }
}

/// A register holds an argument of this kind, of a helper that is called with a map of this shape. Errors: those of
/// a register that is read, then `WrongArgument`; `NoSuchMap` of a map, `OutOfBounds` and its bytes.
fn check_argument(
    state: &AbsState,
    kind: ArgumentKind,
    r: Reg,
    shapes: &[MapShape],
    shape: MapShape,
) -> Result<(), InsnFault>
    ensures argument { OnOk result (IsArgument shapes.now (state_of state.now) shape kind r) }
    ensures accepts { IsArgument shapes.now (state_of state.now) shape kind r → IsOk result }
{
    match kind {
        ArgumentKind::MapOfProgram => {
            let (_, given) = map_argument(state, r, shapes)?;
            if given != shape {
                return Err(InsnFault::WrongArgument);
            }
        }
        ArgumentKind::KeyOfMap => check_bytes_argument(state, r, shape.key_len)?,
        ArgumentKind::ValueOfMap => check_bytes_argument(state, r, shape.value_len)?,
        ArgumentKind::AnyNumber => {
            let _numbers = number_argument(state, r)?;
        }
    }
    Ok(())
}

/// The arguments of a helper, from r1 on: each of its kind, and the keys and values by the shape of the map in r1,
/// which comes first in each signature. The answer is that map, by its index.
pub(crate) fn check_arguments(
    state: &AbsState,
    helper: Helper,
    shapes: &[MapShape],
) -> Result<u32, InsnFault>
    ensures arguments { IfOk result (λ map. (shape : MapShape)
        × HasMap shapes.now (state_of state.now) map shape
        × AreArguments shapes.now (state_of state.now) shape (signature_of helper).arguments 1) }
    ensures map { IfOk result (λ map. kind_in state.now.regs 1 ≡ RegKind.Map map) }
    ensures accepts { (shape : MapShape)
        → AreArguments shapes.now (state_of state.now) shape (signature_of helper).arguments 1
        → IsOk result }
{
    let (map, shape) = map_argument(state, Reg::R1, shapes)?;
    for (index, kind) in helper.arguments().iter().enumerate() {
        check_argument(state, *kind, argument_register(index), shapes, shape)?;
    }
    Ok(map)
}
