//! Conditional jumps.
ghost use Rattle.std.specs.Prelude.{◌≡◌, ℕ, ◌<◌, IfOk, IsOk, OnOk, OnErr, Bool, true, false};
ghost use Rattle.std.specs.Prelude.{IsOkUnless};
ghost use Rattle.plan_laws.specs.Kinds as model;
ghost use Rattle.plan_laws.specs.Effects.{IsNumberOperand, HasNumber};
ghost use Rattle.register_kinds.specs.declared.state.AbsState.{AbsState as StateHere};
ghost use Rattle.register_kinds.specs.States.{kind_in, state_of};
ghost use Rattle.register_kinds.specs.Pairs.{AreBelow};
ghost use Rattle.effects.specs.Computes.{HasValue};
ghost use Rattle.effects.specs.Forks.{Forks, ForksOnNull, taken_from};
ghost use Rattle.effects.specs.Narrowing.{ComparesNumbers, Narrows, AreNarrowed, SetsSides, NarrowsKnown};
ghost use Rattle.effects.specs.Floor.{operand_kind};

use crate::kinds::operand;
use bpf_model::{Condition, Operand, Reg, Size};
use register_kinds::{AbsState, Boxes, InsnFault, RegKind, held};
use scalar_domain::Scalar;

/// What is known where a conditional jump is taken.
#[derive(Drop)]
pub enum Taken {
    /// What is known where control falls through: the comparison tells nothing.
    Same,
    /// This state.
    Apart(Box<AbsState>),
}

/// The numbers of two kinds that are compared. Errors: `MaybeNull`, then `PointerArithmetic`, where one is of
/// no numbers.
fn compared(x: RegKind, y: RegKind) -> Result<(Scalar, Scalar), InsnFault>
    ensures left { IfOk result (λ p. x ≡ RegKind.Num p.0) }
    ensures right { IfOk result (λ p. y ≡ RegKind.Num p.1) }
    ensures accepts { (a b : Scalar) → x ≡ RegKind.Num a → y ≡ RegKind.Num b → IsOk result }
{
    match (x, y) {
        (RegKind::Num(a), RegKind::Num(b)) => Ok((a, b)),
        (RegKind::MaybeNull { .. }, _) => Err(InsnFault::MaybeNull),
        (_, RegKind::MaybeNull { .. }) => Err(InsnFault::MaybeNull),
        _ => Err(InsnFault::PointerArithmetic),
    }
}

/// The numbers that the destination and the second operand of a comparison may be.
fn sides(state: &AbsState, dst: Reg, src: &Operand) -> Result<(Scalar, Scalar), InsnFault>
    ensures left { IfOk result (λ p. kind_in state.now.regs dst ≡ RegKind.Num p.0) }
    ensures right { IfOk result (λ p. HasValue (state_of state.now) src.now (model.Num p.1)) }
    ensures known { IfOk result (λ p. operand_kind src.now (state_of state.now) ≡ model.Num p.1) }
    ensures accepts { HasNumber (state_of state.now) dst
        → IsNumberOperand (state_of state.now) src.now → IsOk result }
{
    let x = held(state, dst)?;
    let y = operand(state, src)?;
    compared(x, y)
}

/// The registers of a comparison become these numbers.
fn narrow(state: &mut AbsState, dst: Reg, src: &Operand, x: Scalar, y: Scalar)
    ensures sound { Narrows dst src.now x y (state_of state.old) (state_of state.new) }
    ensures narrowed { AreNarrowed dst src.now (state_of state.old) (state_of state.new) }
    ensures sides { SetsSides dst src.now x y (state_of state.new) }
    ensures below { (top : ℕ) → AreBelow top state.old → AreBelow top state.new }
{
    match src {
        Operand::Register(r) => state.set(*r, RegKind::Num(y)),
        Operand::Immediate(_) => {}
    }
    state.set(dst, RegKind::Num(x));
}

/// Both edges of a comparison of numbers: the state itself becomes that where control falls
/// through, the answer says what is known where it jumps.
///
/// Errors, in this order; the state is then as it was.
/// - `UnwrittenRegister`, `OutsideSection`, `MixedRegions`: a register that it reads is so, the
///   destination before the source.
/// - `MaybeNull`, then `PointerArithmetic`: one of both may be null, or is a reference or a map.
/// - `Memory`: there is none for the second state.
pub fn fork(
    state: &mut AbsState,
    boxes: &mut Boxes,
    condition: Condition,
    size: Size,
    dst: Reg,
    src: &Operand,
) -> Result<Taken, InsnFault>
    ensures sound { IfOk result (λ taken.
        Forks condition size dst src.now state.old state.new (taken_from state.new taken)) }
    ensures compares { OnOk result (ComparesNumbers (state_of state.old) dst src.now) }

    // On either edge both sides are as narrow as the scalar domain promises.
    ensures floor { OnOk result (NarrowsKnown size condition false dst src.now
        (state_of state.old) (state_of state.new)) }
    ensures taken_floor { IfOk result (λ taken. NarrowsKnown size condition true dst src.now
        (state_of state.old) (state_of (taken_from state.new taken))) }

    ensures narrowed { OnOk result
        (AreNarrowed dst src.now (state_of state.old) (state_of state.new)) }
    ensures taken_narrowed { IfOk result (λ taken.
        AreNarrowed dst src.now (state_of state.old) (state_of (taken_from state.new taken))) }
    ensures accepts { HasNumber (state_of state.old) dst
        → IsNumberOperand (state_of state.old) src.now → IsOkUnless result InsnFault.Memory }
    ensures below { (top : ℕ) → AreBelow top state.old → AreBelow top state.new }
    ensures taken_below { IfOk result (λ taken. (top : ℕ)
        → AreBelow top state.old → AreBelow top (taken_from state.new taken)) }
    ensures unchanged { OnErr result (state.new ≡ state.old) }
{
    let (x, y) = sides(state, dst, src)?;
    if let (Some(_), Some(_)) = (x.as_constant(), y.as_constant()) {
        Scalar::constants_stay();
        return Ok(Taken::Same);
    }
    let edges = Scalar::refine(size, condition, x, y);
    let mut taken = state.copy(boxes)?;
    let (p, q) = edges.taken;
    narrow(&mut taken, dst, src, p, q);
    let (p, q) = edges.not_taken;
    narrow(state, dst, src, p, q);
    Ok(Taken::Apart(taken))
}

/// A test for null of a reference to an element's value, which is never null, leaves all that is known as
/// it is on both edges.
pub fn value_forks()
    ensures { (equal : Bool) (dst map : ℕ) (s : Scalar) (a : StateHere)
        → kind_in a.regs dst ≡ RegKind.Value map s → ForksOnNull equal dst a a a }
{}
