//! Calls of helpers, by their signatures; lock and unlock.
ghost use Rattle.std.specs.Prelude.{◌≡◌, ℕ, IfSome, None, Err, IsOk, slice_get, ◌+◌, ◌^◌, ◌<◌, ◌⊎◌, OnOk, OnErr, Some, List, ℤ};
ghost use Rattle.bpf_model.specs.Call.{helper_of, kernel_function_of};
ghost use Rattle.bpf_model.specs.declared.limits.MapKind.{MapKind};
ghost use Rattle.bpf_model.specs.declared.limits.MapShape.{MapShape};
ghost use Rattle.bpf_model.specs.Request.{signature_of};
ghost use Rattle.register_kinds.specs.States.{kind_at, kind_in, kind_of, state_of};
ghost use Rattle.register_kinds.specs.Pairs.{IsBelow, AreBelow, TakesFew};
ghost use Rattle.plan_laws.specs.Effects.{HasBytes, after_lock, after_unlock};
ghost use Rattle.plan_laws.specs.Planned.{AreAlike};
ghost use Rattle.bpf_model.specs.declared.call.Helper.{Helper as HelperId};
ghost use Rattle.effects.specs.Calls.{PerformsCall, FindsIn, AreArguments, IsLeft, GoesBySignature, MayLookUp, is_array_of, helper_fault, kernel_fault, section_fault, outcome_of, Called, KeepsOwnNumbers};

use crate::arguments::check_arguments;
use bpf_model::{CallKind, Helper, KernelFunction, MAX_DEPTH, MapShape, Reg, ResultKind};
use register_kinds::{AbsState, Identities, InsnFault, RegKind, is_array};
use scalar_domain::Scalar;

/// A lock. Error: `UnpairedSection` where `MAX_DEPTH` are open.
fn lock(state: &mut AbsState) -> Result<(), InsnFault>
    ensures sound { OnOk result ((imm : ℤ) (shapes : List MapShape)
        → kernel_function_of imm ≡ Some KernelFunction.ReadLock
        → PerformsCall CallKind.Kernel imm shapes state.old state.new) }
    ensures result { result
        ≡ outcome_of (kernel_fault (Some KernelFunction.ReadLock) state.old.depth) }
    ensures opens { OnOk result (AreAlike (after_lock (state_of state.old)) (state_of state.new)) }
    ensures others { OnOk result (KeepsOwnNumbers (state_of state.old) (state_of state.new)) }
    ensures below { (top : ℕ) → AreBelow top state.old → AreBelow top state.new }
    ensures unchanged { OnErr result (state.new ≡ state.old) }
{
    if state.depth >= MAX_DEPTH {
        return Err(InsnFault::UnpairedSection);
    }
    state.enter_section();
    Ok(())
}

/// An unlock. Error: `UnpairedSection` outside every section.
fn unlock(state: &mut AbsState, shapes: &[MapShape]) -> Result<(), InsnFault>
    ensures sound { OnOk result ((imm : ℤ)
        → kernel_function_of imm ≡ Some KernelFunction.ReadUnlock
        → PerformsCall CallKind.Kernel imm shapes.now state.old state.new) }
    ensures result { result
        ≡ outcome_of (kernel_fault (Some KernelFunction.ReadUnlock) state.old.depth) }
    ensures closes { OnOk result (AreAlike (after_unlock shapes.now (state_of state.old))
        (state_of state.new)) }
    ensures others { OnOk result (KeepsOwnNumbers (state_of state.old) (state_of state.new)) }
    ensures below { (top : ℕ) → AreBelow top state.old → AreBelow top state.new }
    ensures unchanged { OnErr result (state.new ≡ state.old) }
{
    if state.depth == 0 {
        return Err(InsnFault::UnpairedSection);
    }
    state.leave_section(shapes);
    Ok(())
}

/// Whether r1 is known to be an array of the list.
fn is_array_argument(state: &AbsState, shapes: &[MapShape]) -> bool
    ensures { result ≡ is_array_of shapes.now (kind_at state.now.regs 1) }
{
    match state.kind(Reg::R1) {
        RegKind::Map(map) => is_array(shapes, map),
        _ => false,
    }
}

/// The section test of a helper: one that gives an element is called inside a section, or with an array.
fn check_inside(helper: Helper, state: &AbsState, shapes: &[MapShape]) -> Result<(), InsnFault>
    ensures may { OnOk result ((signature_of helper).result ≡ ResultKind.ElementOrNull
        → MayLookUp shapes.now (state_of state.now)) }
    ensures result { result
        ≡ outcome_of (helper_fault (Some helper) shapes.now (state_of state.now)) }
{
    let gives_element = helper.result() == ResultKind::ElementOrNull;
    if gives_element && state.depth == 0 && !is_array_argument(state, shapes) {
        return Err(InsnFault::OutsideSection);
    }
    Ok(())
}

/// What a helper leaves in r0: what may be null or an element of the map has an identity of its own.
fn returned(kind: ResultKind, map: u32, ids: &mut Identities) -> RegKind
    requires room { ids.old.next + 1 < 2 ^ 32 }
    ensures left { IsLeft kind map ids.old.next result }
    ensures below { IsBelow ids.new.next (kind_of result) }
    ensures few { TakesFew 1 ids.old.next ids.new.next }
{
    match kind {
        ResultKind::ElementOrNull => {
            let id = ids.next;
            ids.next += 1;
            RegKind::MaybeNull { map, id }
        }
        ResultKind::Integer => RegKind::Num(Scalar::unknown()),
    }
}

/// A call by a helper's signature. Errors, in this order: `OutsideSection`; those of the arguments, from r1 on.
fn call_by_signature(
    state: &mut AbsState,
    helper: Helper,
    shapes: &[MapShape],
    ids: &mut Identities,
) -> Result<(), InsnFault>
    requires room { ids.old.next + 1 < 2 ^ 32 }
    requires below { AreBelow ids.old.next state.old }
    ensures sound { OnOk result ((imm : ℤ) → helper_of imm ≡ Some helper
        → PerformsCall CallKind.Helper imm shapes.now state.old state.new) }
    ensures first { IfSome (helper_fault (Some helper) shapes.now (state_of state.old))
        (λ e. result ≡ Err e) }
    ensures accepts { (shape : MapShape)
        → helper_fault (Some helper) shapes.now (state_of state.old) ≡ None
        → AreArguments shapes.now (state_of state.old) shape (signature_of helper).arguments 1
        → IsOk result }
    ensures finds { OnOk result ((map : ℕ)
        → (signature_of helper).result ≡ ResultKind.ElementOrNull
        → kind_in state.old.regs 1 ≡ RegKind.Map map → FindsIn map state.old state.new) }
    ensures signature { OnOk result (GoesBySignature helper shapes.now
        (state_of state.old) (state_of state.new)) }
    ensures others { OnOk result (KeepsOwnNumbers (state_of state.old) (state_of state.new)) }
    ensures below { AreBelow ids.new.next state.new }
    ensures few { TakesFew 1 ids.old.next ids.new.next }
    ensures unchanged { OnErr result (state.new ≡ state.old) }
{
    check_inside(helper, state, shapes)?;
    let map = check_arguments(state, helper, shapes)?;
    let r0 = returned(helper.result(), map, ids);
    state.leave_call(r0);
    Ok(())
}

/// A call of a kernel function.
fn call_kernel(state: &mut AbsState, imm: i32, shapes: &[MapShape]) -> Result<(), InsnFault>
    ensures sound { OnOk result (PerformsCall CallKind.Kernel imm shapes.now state.old state.new) }
    ensures result { result ≡ outcome_of (kernel_fault (kernel_function_of imm) state.old.depth) }
    ensures called { OnOk result (Called (kernel_function_of imm) shapes.now (state_of state.old)
        (state_of state.new)) }
    ensures others { OnOk result (KeepsOwnNumbers (state_of state.old) (state_of state.new)) }
    ensures below { (top : ℕ) → AreBelow top state.old → AreBelow top state.new }
    ensures unchanged { OnErr result (state.new ≡ state.old) }
{
    match KernelFunction::from_number(imm) {
        Some(KernelFunction::ReadLock) => lock(state),
        Some(KernelFunction::ReadUnlock) => unlock(state, shapes),
        None => Err(InsnFault::UnknownCall),
    }
}

/// A call of a helper.
fn call_helper(
    state: &mut AbsState,
    imm: i32,
    shapes: &[MapShape],
    ids: &mut Identities,
) -> Result<(), InsnFault>
    requires room { ids.old.next + 1 < 2 ^ 32 }
    requires below { AreBelow ids.old.next state.old }
    ensures sound { OnOk result (PerformsCall CallKind.Helper imm shapes.now state.old state.new) }
    ensures first { IfSome (helper_fault (helper_of imm) shapes.now (state_of state.old))
        (λ e. result ≡ Err e) }
    ensures accepts { (helper : HelperId) (shape : MapShape) → helper_of imm ≡ Some helper
        → helper_fault (Some helper) shapes.now (state_of state.old) ≡ None
        → AreArguments shapes.now (state_of state.old) shape (signature_of helper).arguments 1
        → IsOk result }
    ensures finds { OnOk result ((map : ℕ) → helper_of imm ≡ Some Helper.Lookup
        → kind_in state.old.regs 1 ≡ RegKind.Map map → FindsIn map state.old state.new) }
    ensures signature { OnOk result ((helper : HelperId) → helper_of imm ≡ Some helper
        → GoesBySignature helper shapes.now (state_of state.old) (state_of state.new)) }
    ensures others { OnOk result (KeepsOwnNumbers (state_of state.old) (state_of state.new)) }
    ensures below { AreBelow ids.new.next state.new }
    ensures few { TakesFew 1 ids.old.next ids.new.next }
    ensures unchanged { OnErr result (state.new ≡ state.old) }
{
    match Helper::from_number(imm) {
        Some(helper) => call_by_signature(state, helper, shapes, ids),
        None => Err(InsnFault::UnknownCall),
    }
}

/// A call: of a helper by its number, with arguments by its signature, or of a kernel function.
/// Afterwards r1 to r5 hold nothing, and r0 what a helper gives; a lock or an unlock leaves nothing
/// in r0. `shapes` are those of the maps of the program's list; of identities a lookup takes one.
///
/// Errors, in this order; the state is then as it was.
/// - `UnknownCall`.
/// - `UnpairedSection` of a lock or an unlock; `OutsideSection` of a lookup, unless r1 is an array of
///   the list.
/// - Those of the arguments, from r1 on: each as a register that is read, then `WrongArgument`. Then
///   of a map `NoSuchMap`; of a key or a value `OutOfBounds`, then those of its bytes.
pub fn call(
    state: &mut AbsState,
    kind: CallKind,
    imm: i32,
    shapes: &[MapShape],
    ids: &mut Identities,
) -> Result<(), InsnFault>
    requires room { ids.old.next + 1 < 2 ^ 32 }
    requires below { AreBelow ids.old.next state.old }
    ensures sound { OnOk result (PerformsCall kind imm shapes.now state.old state.new) }
    ensures first { IfSome (section_fault kind imm shapes.now (state_of state.old))
        (λ e. result ≡ Err e) }
    ensures kernel { kind ≡ CallKind.Kernel
        → result ≡ outcome_of (section_fault kind imm shapes.now (state_of state.old)) }
    ensures accepts_lookup { (map : ℕ) (shape : MapShape) → kind ≡ CallKind.Helper
        → helper_of imm ≡ Some Helper.Lookup
        → (0 < state.old.depth) ⊎ (shape.kind ≡ MapKind.Array)
        → kind_in state.old.regs 1 ≡ RegKind.Map map
        → slice_get shapes.now map ≡ Some shape → HasBytes (state_of state.old) 2 shape.key_len
        → IsOk result }

    // A helper is called by its signature.
    ensures signature { OnOk result ((helper : HelperId) → kind ≡ CallKind.Helper
        → helper_of imm ≡ Some helper
        → GoesBySignature helper shapes.now (state_of state.old) (state_of state.new)) }

    // A lookup leaves in r0 what may be null or an element of the map; a lock leads one deeper, an unlock
    // back, and the outermost ends all that is known of elements of hash maps.
    ensures finds { OnOk result ((map : ℕ) → kind ≡ CallKind.Helper
        → helper_of imm ≡ Some Helper.Lookup
        → kind_in state.old.regs 1 ≡ RegKind.Map map → FindsIn map state.old state.new) }
    ensures called { OnOk result (kind ≡ CallKind.Kernel
        → Called (kernel_function_of imm) shapes.now (state_of state.old) (state_of state.new)) }

    // Numbers in r6 to r9 stay as they are.
    ensures others { OnOk result (KeepsOwnNumbers (state_of state.old) (state_of state.new)) }

    ensures below { AreBelow ids.new.next state.new }
    ensures few { TakesFew 1 ids.old.next ids.new.next }
    ensures unchanged { OnErr result (state.new ≡ state.old) }
{
    match kind {
        CallKind::Kernel => call_kernel(state, imm, shapes),
        CallKind::Helper => call_helper(state, imm, shapes, ids),
    }
}
