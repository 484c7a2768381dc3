//! The step of any instruction.
ghost use Rattle.std.specs.Prelude.{◌≡◌, ℕ, ◌+◌, ◌^◌, ◌<◌, IfOk, OnOk, OnErr, IfSome, IsSome, Some, option_map};
ghost use Rattle.bpf_model.specs.Step.{State};
ghost use Rattle.plan_laws.specs.Describes.{Scene, Describes};
ghost use Rattle.plan_laws.specs.Verified.{Transfers};
ghost use Rattle.register_kinds.specs.Pairs.{AreBelow, TakesFew};
ghost use Rattle.register_kinds.specs.States.{state_of};
ghost use Rattle.effects.specs.Calls.{MayLookUp};
ghost use Rattle.state_steps.specs.Steps.{IsBranch, taken_state, base_of, IsInRegion, Compares, IsComparable, IsFine, LooksUp};
ghost use Rattle.state_steps.specs.Facts.{IsReadyInsn, KeepsFacts};
ghost use Rattle.state_steps.specs.Lookups.{IsReadyWithMaps, Serves};
ghost use Rattle.state_steps.specs.Stepped.{Stepped};
ghost use Rattle.state_steps.specs.Floor.{KeepsInsnFloor, KeepsNumbers};

use crate::access::{load_signed_step, load_step, store_step};
use crate::compute::{alu_step, load_map_step, load_number_step, unary_step};
use crate::control::{branch_step, call_step, exit_step, jump_long_step, jump_step};
use crate::flow::Flow;
use bpf_model::Insn;
use effects::{Address, EnvironmentShape};
use register_kinds::{AbsState, Boxes, Identities, InsnFault};

/// What an instruction makes of what is known before it. The state becomes that where control falls
/// through, or where an unconditional jump leads; the answer has that where a conditional jump is
/// taken, and the region that is reached. Of identities it takes at most one.
///
/// Errors: the first of these, by the instruction. The state is then as it was.
/// - An operation, or a load of a number or a map: `FramePointerWritten`; a register that it reads
///   is not written (`UnwrittenRegister`), of a section that has ended (`OutsideSection`) or of no
///   one kind (`MixedRegions`); `MaybeNull`; `PointerArithmetic`; `NoSuchMap`.
/// - A comparison: a register that it reads, `MaybeNull`, `PointerArithmetic`. What may be null and
///   a reference to an element's value may be compared with the number 0 by 64 bits, for equality or
///   its contrary.
/// - A call: `UnknownCall`; `UnpairedSection`, or `OutsideSection` of a lookup, unless r1 is an array of
///   the list; then its arguments, from r1 on.
/// - The exit: r0 as a register that is read; `PointerLeak`; `UnpairedSection`.
/// - An access: `FramePointerWritten`; its base, then what is stored, as registers that are read;
///   `NotAPointer` or `MaybeNull`; `ContextWrite`; `PointerLeak` of what is stored; `NoSuchMap`;
///   `OutOfBounds`, `Misaligned`; the bytes of the frame that are read.
/// - `Memory`: there is none for the second state of a comparison.
pub fn transfer(
    state: &mut AbsState,
    boxes: &mut Boxes,
    insn: &Insn,
    shape: &EnvironmentShape,
    ids: &mut Identities,
) -> Result<Flow, InsnFault>
    requires room { ids.old.next + 1 < 2 ^ 32 }
    requires below { AreBelow ids.old.next state.old }

    // From each described run where a jump has its target the instruction has a step, and each
    // leads to one that is described.
    ensures sound { IfOk result (λ f. Transfers insn.now shape.now.shapes.now shape.now.ctx_len
        (state_of state.old) (state_of state.new) (option_map state_of (taken_state state.new f))) }
    ensures branches { IfOk result (λ f. IsBranch insn.now → IsSome f.taken) }

    // What the register holds by which it reaches memory, and those that it compares.
    ensures region { IfOk result (λ f. (b : ℕ) (c : Scene) (m : State) → base_of insn.now ≡ Some b
        → Describes (state_of state.old) c m → IsInRegion c f.region (m.regs b)) }
    ensures compares { OnOk result ((r : ℕ) (c : Scene) (m : State) → Compares insn.now r
        → Describes (state_of state.old) c m → IsComparable insn.now (m.regs r)) }

    // A lookup is made inside a section, or in an array.
    ensures looks_up { OnOk result (LooksUp insn.now
        → MayLookUp shape.now.shapes.now (state_of state.old)) }

    // The identities that are taken.
    ensures below { AreBelow ids.new.next state.new }
    ensures taken_below { IfOk result (λ f. IfSome (taken_state state.new f) (AreBelow ids.new.next)) }
    ensures few { TakesFew 1 ids.old.next ids.new.next }
    ensures unchanged { OnErr result (state.new ≡ state.old) }

    // Of the number that is written, and of both sides of a comparison, as much is known as the
    // scalar domain promises.
    ensures floor { IfOk result (λ f. KeepsInsnFloor insn.now (state_of state.old)
        (state_of state.new) (option_map state_of (taken_state state.new f))) }

    // Numbers in registers that the instruction leaves alone stay as they are.
    ensures others { OnOk result (KeepsNumbers insn.now (state_of state.old)
        (state_of state.new)) }
    ensures others_taken { IfOk result (λ f. IfSome (taken_state state.new f)
        (λ t. KeepsNumbers insn.now (state_of state.old) (state_of t))) }

    // An instruction that is ready is not refused but for want of memory, and what is known stays
    // known.
    ensures accepts { IsReadyInsn insn.now (state_of state.old) → IsFine result }
    ensures keeps { OnOk result (IsReadyInsn insn.now (state_of state.old)
        → KeepsFacts insn.now (state_of state.old) (state_of state.new)) }
    ensures keeps_taken { IfOk result (λ f. IsReadyInsn insn.now (state_of state.old)
        → IfSome (taken_state state.new f) (λ t. KeepsFacts insn.now (state_of state.old) (state_of t))) }

    // A part of a guarded lookup that is ready, and a call that begins or ends a section, is not
    // refused but for want of memory; and what the next part needs is known.
    ensures accepts_maps { IsReadyWithMaps shape.now.shapes.now insn.now (state_of state.old)
        → IsFine result }
    ensures serves { IfOk result (λ f. Serves shape.now.shapes.now insn.now (state_of state.old)
        (state_of state.new) (option_map state_of (taken_state state.new f))) }
{
    perform(state, boxes, insn, shape, ids)
}

/// The step of the instruction, by its kind: all that `transfer` promises, as one definition (`Stepped`).
fn perform(
    state: &mut AbsState,
    boxes: &mut Boxes,
    insn: &Insn,
    shape: &EnvironmentShape,
    ids: &mut Identities,
) -> Result<Flow, InsnFault>
    requires room { ids.old.next + 1 < 2 ^ 32 }
    requires below { AreBelow ids.old.next state.old }
    ensures stepped { Stepped insn.now shape.now.shapes.now shape.now.ctx_len ids.new.next
        state.old state.new result }
    ensures few { TakesFew 1 ids.old.next ids.new.next }
{
    match insn {
        Insn::Alu { op, size, dst, src } => alu_step(state, *op, *size, *dst, src),
        Insn::Unary { op, dst } => unary_step(state, op, *dst),
        Insn::LoadNumber { dst, number } => load_number_step(state, *dst, *number),
        Insn::LoadMap { dst, map } => load_map_step(state, *dst, *map, shape),
        Insn::Jump { .. } => Ok(jump_step()),
        Insn::JumpLong { .. } => Ok(jump_long_step()),
        Insn::JumpIf {
            condition,
            size,
            dst,
            src,
            ..
        } => branch_step(state, boxes, *condition, *size, *dst, src),
        Insn::Call { kind, imm } => call_step(state, *kind, *imm, shape, ids),
        Insn::Exit => exit_step(state),
        Insn::Load {
            width,
            dst,
            src,
            offset,
        } => {
            let from = Address {
                base: *src,
                offset: *offset,
            };
            load_step(state, *width, *dst, from, shape)
        }
        Insn::LoadSigned {
            width,
            dst,
            src,
            offset,
        } => {
            let from = Address {
                base: *src,
                offset: *offset,
            };
            load_signed_step(state, *width, *dst, from, shape)
        }
        Insn::Store {
            width,
            dst,
            offset,
            src,
        } => {
            let to = Address {
                base: *dst,
                offset: *offset,
            };
            store_step(state, *width, to, src, shape)
        }
    }
}
