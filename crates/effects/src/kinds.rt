//! What operations give, by the kinds of their operands.
ghost use Rattle.std.specs.Prelude.{◌≡◌, ℕ, ◌+◌, ◌≤◌, ◌^◌, ℤ, pos, ◌+ℤ◌, IfOk, OnOk, Ok};
ghost use Rattle.bpf_model.specs.declared.limits.TheConstants.{FRAME_BYTES};
ghost use Rattle.bpf_model.specs.Arithmetic.{immediate};
ghost use Rattle.scalar_domain.specs.Scalar.{IsConstant};
ghost use Rattle.plan_laws.specs.Kinds as model;
ghost use Rattle.plan_laws.specs.Effects.{IsWritten, IsNumberOperand};
ghost use Rattle.register_kinds.specs.States.{kind_of, state_of};
ghost use Rattle.register_kinds.specs.Pairs.{IsBelow, AreBelow};
ghost use Rattle.effects.specs.Computes.{Combines, HasValue, IsMove, IsNearStep, shifted_word, GivesNumber, HasOperand};
ghost use Rattle.effects.specs.Performs.{IsNumbers};
ghost use Rattle.effects.specs.Floor.{operand_kind, CombinesKnown};
ghost use Rattle.scalar_domain.specs.Floor.{KeepsFloor};

use crate::moving::{Way, moved, moved_in_frame};
use bpf_model::{AluOp, Operand, Size};
use register_kinds::{AbsState, InsnFault, RegKind, held};
use scalar_domain::Scalar;

/// Which way an operation moves a reference.
fn way_of(size: Size, op: AluOp) -> Result<Way, InsnFault>
    ensures way { IfOk result (λ way. IsMove way size op) }
    ensures forward { size ≡ Size.Word64 → op ≡ AluOp.Add → result ≡ Ok Way.Forward }
{
    match (size, op) {
        (Size::Word64, AluOp::Add) => Ok(Way::Forward),
        (Size::Word64, AluOp::Sub) => Ok(Way::Back),
        _ => Err(InsnFault::PointerArithmetic),
    }
}

/// What a reference becomes that is moved.
fn moved_kind(way: Way, x: RegKind, by: Scalar) -> Result<RegKind, InsnFault>
    ensures sound { IfOk result (λ k. (size : Size) (op : AluOp) → IsMove way size op
        → Combines size op (kind_of x) (model.Num by) (kind_of k)) }
    ensures reference { OnOk result ((a : Scalar) → kind_of x ≡ model.Num a → ⊥) }
    ensures below { IfOk result (λ k. (top : ℕ) → IsBelow top (kind_of k)) }
    ensures frame { (m n at : ℕ) → x ≡ RegKind.Frame (pos m) → m ≤ 2 ^ 29 → IsConstant by n
        → IsNearStep n → shifted_word way (m + 2 ^ 29) n ≡ at + 2 ^ 29 → at ≤ 2 ^ 29
        → result ≡ Ok (RegKind.Frame (pos at)) }
{
    match x {
        RegKind::Ctx(offset) => Ok(RegKind::Ctx(moved(way, offset, by)?)),
        RegKind::Value { map, offset } => Ok(RegKind::Value {
            map,
            offset: moved(way, offset, by)?,
        }),
        RegKind::Frame(offset) => Ok(RegKind::Frame(moved_in_frame(way, offset, by)?)),
        _ => Err(InsnFault::PointerArithmetic),
    }
}

/// What an operation of two operands leaves that is no move.
pub(crate) fn combined(size: Size, op: AluOp, x: RegKind, y: RegKind) -> Result<RegKind, InsnFault>
    ensures sound { IfOk result (λ k. Combines size op (kind_of x) (kind_of y) (kind_of k)) }
    ensures floor { IfOk result (λ k. CombinesKnown size op (kind_of x) (kind_of y) (kind_of k)) }
    ensures below { IfOk result (λ k. (top : ℕ) → IsBelow top (kind_of k)) }
    ensures numbers { (a b : Scalar) → x ≡ RegKind.Num a → y ≡ RegKind.Num b → GivesNumber result }
    ensures frame { (m at : ℕ) (imm : ℤ) (by : Scalar) → size ≡ Size.Word64 → op ≡ AluOp.Add
        → x ≡ RegKind.Frame (pos m) → y ≡ RegKind.Num by → IsConstant by (immediate imm)
        → m ≤ FRAME_BYTES → at ≤ FRAME_BYTES → pos m +ℤ imm ≡ pos at
        → result ≡ Ok (RegKind.Frame (pos at)) }
{
    match (x, y) {
        (RegKind::Num(a), RegKind::Num(b)) => Ok(RegKind::Num(Scalar::apply(size, op, a, b))),
        (RegKind::MaybeNull { .. }, _) => Err(InsnFault::MaybeNull),
        (_, RegKind::MaybeNull { .. }) => Err(InsnFault::MaybeNull),
        (_, RegKind::Num(by)) => moved_kind(way_of(size, op)?, x, by),
        _ => Err(InsnFault::PointerArithmetic),
    }
}

/// The numbers of a register that is read as one.
pub(crate) fn numbers(kind: RegKind) -> Result<Scalar, InsnFault>
    ensures value { IfOk result (λ s. kind ≡ RegKind.Num s) }
    ensures accepts { (s : Scalar) → kind ≡ RegKind.Num s → result ≡ Ok s }
{
    match kind {
        RegKind::Num(s) => Ok(s),
        RegKind::MaybeNull { .. } => Err(InsnFault::MaybeNull),
        _ => Err(InsnFault::PointerArithmetic),
    }
}

/// What a move leaves.
pub(crate) fn copied(size: Size, kind: RegKind) -> Result<RegKind, InsnFault>
    requires { IsWritten (kind_of kind) }
    ensures sound { IfOk result
        (λ k. Combines size AluOp.Move model.Blank (kind_of kind) (kind_of k)) }
    ensures floor { IfOk result (λ k. (a b : Scalar) → kind_of kind ≡ model.Num b
        → IsNumbers (KeepsFloor size AluOp.Move a b) (kind_of k)) }
    ensures below { IfOk result (λ k. (top : ℕ) → IsBelow top (kind_of kind)
        → IsBelow top (kind_of k)) }
    ensures numbers { (s : Scalar) → kind ≡ RegKind.Num s → GivesNumber result }
    ensures copies { size ≡ Size.Word64 → result ≡ Ok kind }
{
    match size {
        Size::Word64 => Ok(kind),
        Size::Word32 => {
            let low = numbers(kind)?;
            let zero = Scalar::constant(0);
            Ok(RegKind::Num(Scalar::apply(size, AluOp::Move, zero, low)))
        }
    }
}

/// What a second operand may be. Errors: `UnwrittenRegister`, `OutsideSection`, `MixedRegions`
/// where it is a register that is so.
pub(crate) fn operand(state: &AbsState, src: &Operand) -> Result<RegKind, InsnFault>
    ensures value { IfOk result (λ k. HasValue (state_of state.now) src.now (kind_of k)) }
    ensures kind { IfOk result (λ k. operand_kind src.now (state_of state.now) ≡ kind_of k) }
    ensures written { IfOk result (λ k. IsWritten (kind_of k)) }
    ensures below { IfOk result (λ k. (top : ℕ) → AreBelow top state.now
        → IsBelow top (kind_of k)) }
    ensures numbers { IsNumberOperand (state_of state.now) src.now → GivesNumber result }
    ensures operand { HasOperand state.now src.now result }
{
    match src {
        Operand::Register(r) => held(state, *r),
        Operand::Immediate(imm) => Ok(RegKind::Num(Scalar::constant(alu::immediate(*imm)))),
    }
}
