//! Steps of loads and stores.
ghost use Rattle.std.specs.Prelude.{ℕ};
ghost use Rattle.register_kinds.specs.Pairs.{AreBelow};
ghost use Rattle.state_steps.specs.Stepped.{Stepped};

use crate::flow::{Flow, single};
use bpf_model::{Insn, Operand, Reg, SignedWidth, Width};
use effects::{Address, EnvironmentShape, load, load_signed, store};
use register_kinds::{AbsState, InsnFault};

/// A load without sign.
pub(crate) fn load_step(
    state: &mut AbsState,
    width: Width,
    dst: Reg,
    from: Address,
    shape: &EnvironmentShape,
) -> Result<Flow, InsnFault>
    ensures { (top : ℕ) → AreBelow top state.old
        → Stepped (Insn.Load width dst from.base from.offset) shape.now.shapes.now
        shape.now.ctx_len top state.old state.new result }
{
    let region = load(state, width, dst, from, shape)?;
    Ok(single(region))
}

/// A load that extends the sign.
pub(crate) fn load_signed_step(
    state: &mut AbsState,
    width: SignedWidth,
    dst: Reg,
    from: Address,
    shape: &EnvironmentShape,
) -> Result<Flow, InsnFault>
    ensures { (top : ℕ) → AreBelow top state.old
        → Stepped (Insn.LoadSigned width dst from.base from.offset) shape.now.shapes.now
        shape.now.ctx_len top state.old state.new result }
{
    let region = load_signed(state, width, dst, from, shape)?;
    Ok(single(region))
}

/// A store.
pub(crate) fn store_step(
    state: &mut AbsState,
    width: Width,
    to: Address,
    src: &Operand,
    shape: &EnvironmentShape,
) -> Result<Flow, InsnFault>
    ensures { (top : ℕ) → AreBelow top state.old
        → Stepped (Insn.Store width to.base to.offset src.now) shape.now.shapes.now
        shape.now.ctx_len top state.old state.new result }
{
    let region = store(state, width, to, src, shape.shapes)?;
    Ok(single(region))
}
