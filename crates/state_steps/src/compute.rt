//! Steps of instructions that compute, and of those that load a number or a map from the program.
ghost use Rattle.std.specs.Prelude.{ℕ, List};
ghost use Rattle.bpf_model.specs.declared.limits.MapShape.{MapShape};
ghost use Rattle.register_kinds.specs.Pairs.{AreBelow};
ghost use Rattle.state_steps.specs.Stepped.{Stepped};

use crate::flow::{Flow, single};
use bpf_model::{AluOp, Insn, Operand, Reg, Size, UnaryOp};
use effects::{EnvironmentShape, Region, alu, load_map, load_number, unary};
use register_kinds::{AbsState, InsnFault};

/// An operation of two operands.
pub(crate) fn alu_step(
    state: &mut AbsState,
    op: AluOp,
    size: Size,
    dst: Reg,
    src: &Operand,
) -> Result<Flow, InsnFault>
    ensures { (shapes : List MapShape) (ctx_len top : ℕ) → AreBelow top state.old
        → Stepped (Insn.Alu op size dst src.now) shapes ctx_len top state.old state.new result }
{
    alu(state, op, size, dst, src)?;
    Ok(single(Region::None))
}

/// An operation of one operand.
pub(crate) fn unary_step(state: &mut AbsState, op: &UnaryOp, dst: Reg) -> Result<Flow, InsnFault>
    ensures { (shapes : List MapShape) (ctx_len top : ℕ) → AreBelow top state.old
        → Stepped (Insn.Unary op.now dst) shapes ctx_len top state.old state.new result }
{
    unary(state, op, dst)?;
    Ok(single(Region::None))
}

/// The wide instruction with a number.
pub(crate) fn load_number_step(
    state: &mut AbsState,
    dst: Reg,
    number: u64,
) -> Result<Flow, InsnFault>
    ensures { (shapes : List MapShape) (ctx_len top : ℕ) → AreBelow top state.old
        → Stepped (Insn.LoadNumber dst number) shapes ctx_len top state.old state.new result }
{
    load_number(state, dst, number)?;
    Ok(single(Region::None))
}

/// The wide instruction with a map.
pub(crate) fn load_map_step(
    state: &mut AbsState,
    dst: Reg,
    map: i32,
    shape: &EnvironmentShape,
) -> Result<Flow, InsnFault>
    ensures { (ctx_len top : ℕ) → AreBelow top state.old
        → Stepped (Insn.LoadMap dst map) shape.now.shapes.now ctx_len top
        state.old state.new result }
{
    load_map(state, dst, map, shape.shapes.len())?;
    Ok(single(Region::None))
}
