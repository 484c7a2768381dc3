//! Jumps without a condition, and the exit.
ghost use Rattle.std.specs.Prelude.{◌≡◌, ℕ, ℤ, List, None, OnOk, IsOk};
ghost use Rattle.bpf_model.specs.declared.limits.MapShape.{MapShape};
ghost use Rattle.effects.specs.Performs.{PerformsAnywhere};
ghost use Rattle.plan_laws.specs.Kinds as model;
ghost use Rattle.plan_laws.specs.Effects.{HasNumber};
ghost use Rattle.plan_laws.specs.Verified.{Transfers};
ghost use Rattle.register_kinds.specs.States.{state_of};

use bpf_model::{Insn, Reg};
use register_kinds::{AbsState, InsnFault, RegKind, held};

/// A run ends outside every section.
fn check_outside(state: &AbsState) -> Result<(), InsnFault>
    ensures outside { OnOk result (state.now.depth ≡ 0) }
    ensures accepts { state.now.depth ≡ 0 → IsOk result }
{
    if state.depth != 0 {
        return Err(InsnFault::UnpairedSection);
    }
    Ok(())
}

/// The end of a run. Errors, in this order: those of r0 as a register that is read; `PointerLeak`
/// where it is no number; `UnpairedSection` inside a section.
pub fn exit(state: &AbsState) -> Result<(), InsnFault>
    ensures sound { OnOk result (PerformsAnywhere Insn.Exit state.now state.now) }
    ensures accepts { HasNumber (state_of state.now) 0 → state.now.depth ≡ 0 → IsOk result }
{
    match held(state, Reg::R0)? {
        RegKind::Num(_) => {
            check_outside(state)?;
            Ok(())
        }
        _ => Err(InsnFault::PointerLeak),
    }
}

/// A jump without a condition leaves all that is known as it is.
pub fn jump_transfers()
    ensures { (offset : ℤ) (shapes : List MapShape) (ctx_len : ℕ) (a : model.AbsState)
        → Transfers (Insn.Jump offset) shapes ctx_len a a None }
{}

/// The unconditional jump of class JMP32 leaves all that is known as it is.
pub fn jump_long_transfers()
    ensures { (imm : ℤ) (shapes : List MapShape) (ctx_len : ℕ) (a : model.AbsState)
        → Transfers (Insn.JumpLong imm) shapes ctx_len a a None }
{}
