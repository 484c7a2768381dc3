//! Tests for null.
ghost use Rattle.std.specs.Prelude.{◌≡◌, ℕ, IfOk, OnErr, true, false};
ghost use Rattle.register_kinds.specs.States.{kind_in};
ghost use Rattle.register_kinds.specs.Pairs.{AreBelow};
ghost use Rattle.effects.specs.Forks.{ForksOnNull};
ghost use Rattle.effects.specs.Calls.{Splits};

use register_kinds::{AbsState, Boxes, Lesson, RegKind};
use std::alloc::AllocError;

/// Both edges of a comparison by 64 bits of what may be null with the number 0, which jumps where
/// it is equal or, where `equal` is false, where it is not. Where it is null, all registers and all
/// bytes of the frame of its identity are 0; elsewhere they are a reference to the element's value.
/// The state itself becomes that where control falls through, the answer is that where it jumps.
/// Fails where memory runs out.
pub fn fork_null(
    state: &mut AbsState,
    boxes: &mut Boxes,
    equal: bool,
    id: u32,
) -> Result<Box<AbsState>, AllocError>
    ensures sound { IfOk result (λ taken. (dst map : ℕ)
        → kind_in state.old.regs dst ≡ RegKind.MaybeNull map id
        → ForksOnNull equal dst state.old state.new taken.value) }
    ensures jumps_on_null { IfOk result (λ taken. equal ≡ true
        → Splits id state.old taken.value state.new) }
    ensures jumps_elsewhere { IfOk result (λ taken. equal ≡ false
        → Splits id state.old state.new taken.value) }
    ensures below { (top : ℕ) → AreBelow top state.old → AreBelow top state.new }
    ensures taken_below { IfOk result (λ taken. (top : ℕ)
        → AreBelow top state.old → AreBelow top taken.value) }
    ensures unchanged { OnErr result (state.new ≡ state.old) }
{
    let mut taken = state.copy(boxes)?;
    if equal {
        taken.learn(Lesson::IsNull(id));
        state.learn(Lesson::IsThere(id));
    } else {
        taken.learn(Lesson::IsThere(id));
        state.learn(Lesson::IsNull(id));
    }
    Ok(taken)
}
