//! Instructions that compute, and those that load a number or a map from the program.
ghost use Rattle.std.specs.Prelude.{◌≡◌, ℕ, ◌<◌, ◌≤◌, OnOk, OnErr, IfOk, Ok, ℤ, pos, ◌+ℤ◌, List, length};
ghost use Rattle.bpf_model.specs.declared.limits.TheConstants.{FRAME_BYTES};
ghost use Rattle.plan_laws.specs.Kinds as model;
ghost use Rattle.bpf_model.specs.declared.limits.MapShape.{MapShape};
ghost use Rattle.bpf_model.specs.Operand.{unary_source};
ghost use Rattle.effects.specs.Performs.{IsNumbers, SetsNumber, Performs, PerformsAnywhere, KeepsOthers};
ghost use Rattle.plan_laws.specs.Effects.{IsNumberOperand, IsWritten, HasNumber};
ghost use Rattle.register_kinds.specs.States.{kind_at, kind_in, kind_of, state_of};
ghost use Rattle.register_kinds.specs.Pairs.{IsBelow, AreBelow};
ghost use Rattle.effects.specs.Computes.{Computes, ReadsNumber, GivesNumber, SetsKind};
ghost use Rattle.effects.specs.Floor.{operand_kind, LeavesKnown};
ghost use Rattle.scalar_domain.specs.Floor.{KeepsUnaryFloor};
ghost use Rattle.scalar_domain.specs.Scalar.{IsConstant};

use crate::kinds::{combined, copied, numbers, operand};
use bpf_model::{AluOp, Insn, Operand, Reg, Size, UnaryOp};
use register_kinds::{AbsState, InsnFault, RegKind, check_writable, held};
use scalar_domain::Scalar;

/// What an operation of two operands leaves.
fn computed_kind(
    state: &AbsState,
    op: AluOp,
    size: Size,
    dst: Reg,
    src: &Operand,
) -> Result<RegKind, InsnFault>
    ensures sound { IfOk result
        (λ k. Computes size op dst src.now (state_of state.now) (kind_of k)) }
    ensures floor { IfOk result (λ k. LeavesKnown size op (kind_at state.now.regs dst)
        (operand_kind src.now (state_of state.now)) (kind_of k)) }
    ensures below { IfOk result (λ k. (top : ℕ) → AreBelow top state.now
        → IsBelow top (kind_of k)) }
    ensures numbers { ReadsNumber op (state_of state.now) dst
        → IsNumberOperand (state_of state.now) src.now → GivesNumber result }
    ensures copies { (s : ℕ) → op ≡ AluOp.Move → size ≡ Size.Word64 → src.now ≡ Operand.Register s
        → IsWritten (kind_at state.now.regs s) → result ≡ Ok (kind_in state.now.regs s) }
    ensures frame { (m at : ℕ) (imm : ℤ) → op ≡ AluOp.Add → size ≡ Size.Word64
        → src.now ≡ Operand.Immediate imm → kind_in state.now.regs dst ≡ RegKind.Frame (pos m)
        → m ≤ FRAME_BYTES → at ≤ FRAME_BYTES → pos m +ℤ imm ≡ pos at
        → result ≡ Ok (RegKind.Frame (pos at)) }
{
    match op {
        AluOp::Move => copied(size, operand(state, src)?),
        _ => {
            let x = held(state, dst)?;
            let y = operand(state, src)?;
            combined(size, op, x, y)
        }
    }
}

/// An operation of two operands. A move of 64 bits copies any value; a sum or a difference of 64
/// bits moves a reference to the context, to the frame or to an element's value by a number.
///
/// Errors, in this order; the state is then as it was.
/// - `FramePointerWritten`: it sets r10.
/// - `UnwrittenRegister`, `OutsideSection`, `MixedRegions`: a register that it reads is so, the
///   destination before the source.
/// - `MaybeNull`: it computes with what may be null.
/// - `PointerArithmetic`: it computes otherwise with a reference or a map; or moves a reference by
///   a number that may lie outside 2^29 either way, or of which the sign is not known, or to an
///   offset that may lie outside it, or one to the frame by more than one number.
pub fn alu(
    state: &mut AbsState,
    op: AluOp,
    size: Size,
    dst: Reg,
    src: &Operand,
) -> Result<(), InsnFault>
    ensures sound { OnOk result (PerformsAnywhere (Insn.Alu op size dst src.now)
        state.old state.new) }
    ensures floor { OnOk result (LeavesKnown size op (kind_at state.old.regs dst)
        (operand_kind src.now (state_of state.old)) (kind_at state.new.regs dst)) }
    ensures others { OnOk result (KeepsOthers dst state.old state.new) }
    ensures numbers { (10 ≡ dst → ⊥) → ReadsNumber op (state_of state.old) dst
        → IsNumberOperand (state_of state.old) src.now
        → SetsNumber result dst (state_of state.old) (state_of state.new) }

    // A move of 64 bits copies whatever may be read; a sum moves a reference inside the frame.
    ensures copies { (s : ℕ) → op ≡ AluOp.Move → size ≡ Size.Word64 → src.now ≡ Operand.Register s
        → (10 ≡ dst → ⊥) → IsWritten (kind_at state.old.regs s)
        → SetsKind result dst (kind_at state.old.regs s)
        (state_of state.old) (state_of state.new) }
    ensures frame { (m at : ℕ) (imm : ℤ) → op ≡ AluOp.Add → size ≡ Size.Word64
        → src.now ≡ Operand.Immediate imm → (10 ≡ dst → ⊥)
        → kind_in state.old.regs dst ≡ RegKind.Frame (pos m)
        → m ≤ FRAME_BYTES → at ≤ FRAME_BYTES → pos m +ℤ imm ≡ pos at
        → SetsKind result dst (model.FrameAt (pos at)) (state_of state.old) (state_of state.new) }

    ensures below { (top : ℕ) → AreBelow top state.old → AreBelow top state.new }
    ensures unchanged { OnErr result (state.new ≡ state.old) }
{
    check_writable(dst)?;
    let kind = computed_kind(state, op, size, dst, src)?;
    state.set(dst, kind);
    Ok(())
}

/// An operation of one operand, a number.
///
/// Errors, in this order; the state is then as it was: `FramePointerWritten` where it sets r10;
/// `UnwrittenRegister`, `OutsideSection`, `MixedRegions` where the register that it reads is so;
/// `MaybeNull` or `PointerArithmetic` where that holds what may be null, or a reference or a map.
pub fn unary(state: &mut AbsState, op: &UnaryOp, dst: Reg) -> Result<(), InsnFault>
    ensures sound { OnOk result (PerformsAnywhere (Insn.Unary op.now dst) state.old state.new) }
    ensures floor { OnOk result ((a : Scalar)
        → kind_at state.old.regs (unary_source op.now dst) ≡ model.Num a
        → IsNumbers (KeepsUnaryFloor op.now a) (kind_at state.new.regs dst)) }
    ensures numbers { (10 ≡ dst → ⊥) → HasNumber (state_of state.old) (unary_source op.now dst)
        → SetsNumber result dst (state_of state.old) (state_of state.new) }
    ensures others { OnOk result (KeepsOthers dst state.old state.new) }
    ensures below { (top : ℕ) → AreBelow top state.old → AreBelow top state.new }
    ensures unchanged { OnErr result (state.new ≡ state.old) }
{
    check_writable(dst)?;
    let kind = held(state, op.source(dst))?;
    let n = numbers(kind)?;
    state.set(dst, RegKind::Num(Scalar::unary(*op, n)));
    Ok(())
}

/// The wide instruction with a number. Error: `FramePointerWritten`.
pub fn load_number(state: &mut AbsState, dst: Reg, number: u64) -> Result<(), InsnFault>
    ensures sound { OnOk result (PerformsAnywhere (Insn.LoadNumber dst number)
        state.old state.new) }
    ensures floor { OnOk result (IsNumbers (λ s. IsConstant s number)
        (kind_at state.new.regs dst)) }
    ensures numbers { (10 ≡ dst → ⊥)
        → SetsNumber result dst (state_of state.old) (state_of state.new) }
    ensures others { OnOk result (KeepsOthers dst state.old state.new) }
    ensures below { (top : ℕ) → AreBelow top state.old → AreBelow top state.new }
    ensures unchanged { OnErr result (state.new ≡ state.old) }
{
    check_writable(dst)?;
    state.set(dst, RegKind::Num(Scalar::constant(number)));
    Ok(())
}

/// The index of a map in the program's list of so many.
fn map_index(map: i32, maps: usize) -> Result<u32, InsnFault>
    ensures value { IfOk result (λ n. map ≡ pos n) }
    ensures bound { IfOk result (λ n. n < maps) }
    ensures accepts { (n : ℕ) → map ≡ pos n → n < maps → result ≡ Ok n }
{
    if map < 0 || map as usize >= maps {
        return Err(InsnFault::NoSuchMap);
    }
    Ok(map as u32)
}

/// The wide instruction with a map, of a list of so many. Errors: `FramePointerWritten`,
/// `NoSuchMap`.
pub fn load_map(state: &mut AbsState, dst: Reg, map: i32, maps: usize) -> Result<(), InsnFault>
    ensures sound { OnOk result ((shapes : List MapShape) (ctx_len : ℕ) → length shapes ≡ maps
        → Performs (Insn.LoadMap dst map) ctx_len shapes state.old state.new) }
    ensures sets { (n : ℕ) → (10 ≡ dst → ⊥) → map ≡ pos n → n < maps
        → SetsKind result dst (model.MapAt n) (state_of state.old) (state_of state.new) }
    ensures others { OnOk result (KeepsOthers dst state.old state.new) }
    ensures below { (top : ℕ) → AreBelow top state.old → AreBelow top state.new }
    ensures unchanged { OnErr result (state.new ≡ state.old) }
{
    check_writable(dst)?;
    let index = map_index(map, maps)?;
    state.set(dst, RegKind::Map(index));
    Ok(())
}
