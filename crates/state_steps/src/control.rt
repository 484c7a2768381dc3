//! Steps of jumps, of calls, and of the exit.
ghost use Rattle.std.specs.Prelude.{◌≡◌, ℕ, ℤ, List, Ok, Some, true, false, ◌+◌, ◌^◌, ◌<◌, IfOk, OnOk, OnErr, IfSome, if◌then◌else◌, pos};
ghost use Rattle.std.specs.Prelude.{IsOkUnless};
ghost use Rattle.bpf_model.specs.declared.limits.MapShape.{MapShape};
ghost use Rattle.plan_laws.specs.Effects.{IsNumberOperand, HasNumber};
ghost use Rattle.register_kinds.specs.declared.state.AbsState.{AbsState as StateHere};
ghost use Rattle.register_kinds.specs.Pairs.{AreBelow, TakesFew};
ghost use Rattle.register_kinds.specs.States.{state_of};
ghost use Rattle.effects.specs.Calls.{Splits};
ghost use Rattle.effects.specs.Forks.{Forks, taken_from};
ghost use Rattle.effects.specs.Narrowing.{AreNarrowed, NarrowsKnown};
ghost use Rattle.state_steps.specs.Floor.{KeepsNumbers};
ghost use Rattle.state_steps.specs.Stepped.{Stepped, ComparesWell, IsEqualToNull};

use crate::flow::{Flow, single};
use bpf_model::{CallKind, Condition, Insn, Operand, Reg, Size};
use effects::{
    EnvironmentShape, Region, Taken, call, exit, fork, fork_null, jump_long_transfers,
    jump_transfers, value_forks,
};
use register_kinds::{AbsState, Boxes, Identities, InsnFault, RegKind};

/// A jump, which leaves all that is known as it is.
pub(crate) fn jump_step() -> Flow
    ensures { (offset : ℤ) (shapes : List MapShape) (ctx_len top : ℕ) (a : StateHere)
        → AreBelow top a → Stepped (Insn.Jump offset) shapes ctx_len top a a (Ok result) }
{
    jump_transfers();
    single(Region::None)
}

/// The unconditional jump of class JMP32, whose distance stands in imm.
pub(crate) fn jump_long_step() -> Flow
    ensures { (imm : ℤ) (shapes : List MapShape) (ctx_len top : ℕ) (a : StateHere)
        → AreBelow top a → Stepped (Insn.JumpLong imm) shapes ctx_len top a a (Ok result) }
{
    jump_long_transfers();
    single(Region::None)
}

/// Whether a comparison of what is no number is a test for null, and then whether it jumps where that is null.
fn null_test(kind: &RegKind, condition: Condition, size: Size, src: &Operand) -> Option<bool>
    ensures condition { IfSome result (λ equal. condition
        ≡ (if equal then Condition.Equal else Condition.NotEqual)) }
    ensures size { IfSome result (λ equal. size ≡ Size.Word64) }
    ensures number { IfSome result (λ equal. src.now ≡ Operand.Immediate (pos 0)) }
    ensures equal { (map id : ℕ) → kind.now ≡ RegKind.MaybeNull map id → condition ≡ Condition.Equal
        → size ≡ Size.Word64 → src.now ≡ Operand.Immediate (pos 0) → result ≡ Some true }
{
    match (kind, condition, size, src) {
        (RegKind::Num(_), _, _, _) => None,
        (_, Condition::Equal, Size::Word64, Operand::Immediate(imm)) if *imm == 0 => Some(true),
        (_, Condition::NotEqual, Size::Word64, Operand::Immediate(imm)) if *imm == 0 => Some(false),
        _ => None,
    }
}

/// Both edges of a comparison: a test for null of what may be null or is a reference to an element's
/// value, else of numbers.
fn branch(
    state: &mut AbsState,
    boxes: &mut Boxes,
    condition: Condition,
    size: Size,
    dst: Reg,
    src: &Operand,
) -> Result<Taken, InsnFault>
    ensures sound { IfOk result (λ taken.
        Forks condition size dst src.now state.old state.new (taken_from state.new taken)) }
    ensures compares { OnOk result (ComparesWell condition size dst src.now (state_of state.old)) }
    ensures floor { OnOk result (NarrowsKnown size condition false dst src.now
        (state_of state.old) (state_of state.new)) }
    ensures taken_floor { IfOk result (λ taken. NarrowsKnown size condition true dst src.now
        (state_of state.old) (state_of (taken_from state.new taken))) }
    ensures others { OnOk result ((offset : ℤ)
        → KeepsNumbers (Insn.JumpIf condition size dst src.now offset)
        (state_of state.old) (state_of state.new)) }
    ensures others_taken { IfOk result (λ taken. (offset : ℤ)
        → KeepsNumbers (Insn.JumpIf condition size dst src.now offset)
        (state_of state.old) (state_of (taken_from state.new taken))) }
    ensures below { (top : ℕ) → AreBelow top state.old → AreBelow top state.new }
    ensures taken_below { IfOk result (λ taken. (top : ℕ)
        → AreBelow top state.old → AreBelow top (taken_from state.new taken)) }
    ensures narrowed { OnOk result (HasNumber (state_of state.old) dst
        → AreNarrowed dst src.now (state_of state.old) (state_of state.new)) }
    ensures taken_narrowed { IfOk result (λ taken. HasNumber (state_of state.old) dst
        → AreNarrowed dst src.now (state_of state.old) (state_of (taken_from state.new taken))) }
    ensures accepts { HasNumber (state_of state.old) dst
        → IsNumberOperand (state_of state.old) src.now → IsOkUnless result InsnFault.Memory }
    ensures splits { IfOk result (λ taken. (map id : ℕ)
        → IsEqualToNull condition size dst src.now map id state.old
        → Splits id state.old (taken_from state.new taken) state.new) }
    ensures accepts_null { (map id : ℕ)
        → IsEqualToNull condition size dst src.now map id state.old
        → IsOkUnless result InsnFault.Memory }
    ensures unchanged { OnErr result (state.new ≡ state.old) }
{
    let kind = state.kind(dst);
    match (null_test(&kind, condition, size, src), kind) {
        (Some(equal), RegKind::MaybeNull { id, .. }) => {
            Ok(Taken::Apart(fork_null(state, boxes, equal, id)?))
        }
        (Some(_), RegKind::Value { .. }) => {
            value_forks();
            Ok(Taken::Same)
        }
        _ => fork(state, boxes, condition, size, dst, src),
    }
}

/// A conditional jump.
pub(crate) fn branch_step(
    state: &mut AbsState,
    boxes: &mut Boxes,
    condition: Condition,
    size: Size,
    dst: Reg,
    src: &Operand,
) -> Result<Flow, InsnFault>
    ensures { (offset : ℤ) (shapes : List MapShape) (ctx_len top : ℕ) → AreBelow top state.old
        → Stepped (Insn.JumpIf condition size dst src.now offset) shapes ctx_len top
        state.old state.new result }
{
    let taken = branch(state, boxes, condition, size, dst, src)?;
    Ok(Flow {
        region: Region::None,
        taken: Some(taken),
    })
}

/// A call.
pub(crate) fn call_step(
    state: &mut AbsState,
    kind: CallKind,
    imm: i32,
    shape: &EnvironmentShape,
    ids: &mut Identities,
) -> Result<Flow, InsnFault>
    requires room { ids.old.next + 1 < 2 ^ 32 }
    requires below { AreBelow ids.old.next state.old }
    ensures stepped { (ctx_len : ℕ) → Stepped (Insn.Call kind imm) shape.now.shapes.now ctx_len
        ids.new.next state.old state.new result }
    ensures few { TakesFew 1 ids.old.next ids.new.next }
{
    call(state, kind, imm, shape.shapes, ids)?;
    Ok(single(Region::None))
}

/// The end of a run.
pub(crate) fn exit_step(state: &AbsState) -> Result<Flow, InsnFault>
    ensures { (shapes : List MapShape) (ctx_len top : ℕ) → AreBelow top state.now
        → Stepped Insn.Exit shapes ctx_len top state.now state.now result }
{
    exit(state)?;
    Ok(single(Region::None))
}
