//! Stores.
ghost use Rattle.std.specs.Prelude.{◌≡◌, ℕ, OnOk, OnErr, IfOk, Ok};
ghost use Rattle.bpf_model.specs.Access.{byte_count};
ghost use Rattle.effects.specs.Performs.{Performs, PerformsAnywhere, KeepsRegisters};
ghost use Rattle.plan_laws.specs.Effects.{IsNumberOperand, IsWritten};
ghost use Rattle.register_kinds.specs.States.{kind_in, kind_at, kind_of, state_of};
ghost use Rattle.register_kinds.specs.Pairs.{AreBelow};
ghost use Rattle.effects.specs.Accesses.{IsBase, ReachesFrame, StoresBytes};

use crate::offset::offset_in;
use crate::reads::check_value;
use crate::region::{Address, Region};
use bpf_model::{FRAME_BYTES, Insn, MapShape, Operand, Reg, Width};
use register_kinds::{AbsState, InsnFault, RegKind, held};
use scalar_domain::Scalar;

/// What is stored.
#[derive(Clone, Copy, Debug, PartialEq, Eq)]
enum Stored {
    /// A number.
    Number,
    /// A reference or a map, or what may be null: what this register holds.
    Pointer(Reg, RegKind),
}

/// A store as its instruction gives it: how wide, to which address, and of what.
#[derive(Clone, Copy)]
struct Fields {
    width: Width,
    to: Address,
    src: Operand,
}

/// What a register holds, or a constant.
fn stored_value(state: &AbsState, src: &Operand) -> Result<Stored, InsnFault>
    ensures number { IfOk result (λ x. x ≡ Stored.Number
        → IsNumberOperand (state_of state.now) src.now) }
    ensures pointer { IfOk result (λ x. (r : ℕ) (kind : RegKind) → x ≡ Stored.Pointer r kind
        → (src.now ≡ Operand.Register r) × (kind_in state.now.regs r ≡ kind)
        × IsWritten (kind_of kind)) }
    ensures accepts { IsNumberOperand (state_of state.now) src.now → result ≡ Ok Stored.Number }
{
    match src {
        Operand::Register(r) => match held(state, *r)? {
            RegKind::Num(_) => Ok(Stored::Number),
            kind => Ok(Stored::Pointer(*r, kind)),
        },
        Operand::Immediate(_) => Ok(Stored::Number),
    }
}

/// A store of a number to the frame.
fn store_number(state: &mut AbsState, fields: Fields, start: i32) -> Result<(), InsnFault>
    requires base { kind_in state.old.regs fields.to.base ≡ RegKind.Frame start }
    requires number { IsNumberOperand (state_of state.old) fields.src }
    ensures sound { OnOk result (PerformsAnywhere
        (Insn.Store fields.width fields.to.base fields.to.offset fields.src)
        state.old state.new) }
    ensures bytes { (at : ℕ)
        → ReachesFrame (state_of state.old) fields.to.base (byte_count fields.width)
        fields.to.offset at
        → StoresBytes result at (byte_count fields.width) (state_of state.old)
        (state_of state.new) }
    ensures others { OnOk result (KeepsRegisters state.old state.new) }
    ensures below { (top : ℕ) → AreBelow top state.old → AreBelow top state.new }
    ensures unchanged { OnErr result (state.new ≡ state.old) }
{
    let at = offset_in(FRAME_BYTES, fields.width, start, fields.to.offset)?;
    state.write(at, fields.width.bytes());
    Ok(())
}

/// A store to the frame of what is no number.
fn store_pointer(
    state: &mut AbsState,
    fields: Fields,
    start: i32,
    kind: RegKind,
) -> Result<(), InsnFault>
    requires base { kind_in state.old.regs fields.to.base ≡ RegKind.Frame start }
    requires value { (r : ℕ) × (fields.src ≡ Operand.Register r)
        × (kind_in state.old.regs r ≡ kind) }
    requires written { IsWritten (kind_of kind) }
    ensures sound { OnOk result (PerformsAnywhere
        (Insn.Store fields.width fields.to.base fields.to.offset fields.src)
        state.old state.new) }
    ensures others { OnOk result (KeepsRegisters state.old state.new) }
    ensures below { (top : ℕ) → AreBelow top state.old → AreBelow top state.new }
    ensures unchanged { OnErr result (state.new ≡ state.old) }
{
    match fields.width {
        Width::Eight => {
            let at = offset_in(FRAME_BYTES, Width::Eight, start, fields.to.offset)?;
            state.spill(at, kind);
            Ok(())
        }
        _ => Err(InsnFault::PointerLeak),
    }
}

/// A store of a number to the value of an element of this map.
fn check_store(
    state: &AbsState,
    fields: Fields,
    map: u32,
    offset: Scalar,
    shapes: &[MapShape],
) -> Result<(), InsnFault>
    requires base { kind_in state.now.regs fields.to.base ≡ RegKind.Value map offset }
    requires number { IsNumberOperand (state_of state.now) fields.src }
    ensures sound { OnOk result ((ctx_len : ℕ)
        → Performs (Insn.Store fields.width fields.to.base fields.to.offset fields.src)
        ctx_len shapes.now state.now state.now) }
{
    let _shape = check_value(offset, fields.width, fields.to.offset, map, shapes)?;
    Ok(())
}

/// A store of this to the frame: the bytes of a number, or by a width of 8 the parts of a reference.
fn store_frame(
    state: &mut AbsState,
    fields: Fields,
    start: i32,
    value: Stored,
) -> Result<(), InsnFault>
    requires base { kind_in state.old.regs fields.to.base ≡ RegKind.Frame start }
    requires number { value ≡ Stored.Number → IsNumberOperand (state_of state.old) fields.src }
    requires pointer { (r : ℕ) (kind : RegKind) → value ≡ Stored.Pointer r kind
        → (fields.src ≡ Operand.Register r) × (kind_in state.old.regs r ≡ kind)
        × IsWritten (kind_of kind) }
    requires accepts { IsNumberOperand (state_of state.old) fields.src → value ≡ Stored.Number }
    ensures sound { OnOk result (PerformsAnywhere
        (Insn.Store fields.width fields.to.base fields.to.offset fields.src)
        state.old state.new) }
    ensures bytes { (at : ℕ) → IsNumberOperand (state_of state.old) fields.src
        → ReachesFrame (state_of state.old) fields.to.base (byte_count fields.width)
        fields.to.offset at
        → StoresBytes result at (byte_count fields.width) (state_of state.old)
        (state_of state.new) }
    ensures others { OnOk result (KeepsRegisters state.old state.new) }
    ensures below { (top : ℕ) → AreBelow top state.old → AreBelow top state.new }
    ensures unchanged { OnErr result (state.new ≡ state.old) }
{
    match value {
        Stored::Number => store_number(state, fields, start),
        Stored::Pointer(_, kind) => store_pointer(state, fields, start, kind),
    }
}

/// A store of this to the value of an element, of a number alone.
fn store_value(
    state: &AbsState,
    fields: Fields,
    map: u32,
    offset: Scalar,
    value: Stored,
    shapes: &[MapShape],
) -> Result<(), InsnFault>
    requires base { kind_in state.now.regs fields.to.base ≡ RegKind.Value map offset }
    requires number { value ≡ Stored.Number → IsNumberOperand (state_of state.now) fields.src }
    ensures sound { OnOk result ((ctx_len : ℕ)
        → Performs (Insn.Store fields.width fields.to.base fields.to.offset fields.src)
        ctx_len shapes.now state.now state.now) }
{
    match value {
        Stored::Number => check_store(state, fields, map, offset, shapes),
        Stored::Pointer(_, _) => Err(InsnFault::PointerLeak),
    }
}

/// A store: of the low bytes of a number, or by a width of 8 to the frame of a reference, of a map
/// or of what may be null, whose eight parts are then in the frame. `shapes` are those of the maps
/// of the program's list. The answer is the region that is written.
///
/// Errors, in this order; the state is then as it was.
/// - `UnwrittenRegister`, `OutsideSection`, `MixedRegions`: the base is so, then what is stored.
/// - `NotAPointer`, `MaybeNull`: the base is a number or a map, or may be null.
/// - `ContextWrite`: the base is the context.
/// - `PointerLeak`: what is stored is no number, to an element or by a width below 8.
/// - `NoSuchMap`: the base is a value of a map that is not in the list.
/// - `OutOfBounds`, then `Misaligned`: at some of its offsets the access does not lie inside its
///   region, or not at a multiple of its width from the region's start.
pub fn store(
    state: &mut AbsState,
    width: Width,
    to: Address,
    src: &Operand,
    shapes: &[MapShape],
) -> Result<Region, InsnFault>
    ensures sound { OnOk result ((ctx_len : ℕ)
        → Performs (Insn.Store width to.base to.offset src.now)
        ctx_len shapes.now state.old state.new) }
    ensures region { IfOk result (λ region. IsBase region (kind_at state.old.regs to.base)) }
    ensures bytes { (at : ℕ) → IsNumberOperand (state_of state.old) src.now
        → ReachesFrame (state_of state.old) to.base (byte_count width) to.offset at
        → StoresBytes result at (byte_count width) (state_of state.old) (state_of state.new) }
    ensures others { OnOk result (KeepsRegisters state.old state.new) }
    ensures below { (top : ℕ) → AreBelow top state.old → AreBelow top state.new }
    ensures unchanged { OnErr result (state.new ≡ state.old) }
{
    let base = held(state, to.base)?;
    let value = stored_value(state, src)?;
    let fields = Fields {
        width,
        to,
        src: *src,
    };
    match base {
        RegKind::Frame(start) => {
            store_frame(state, fields, start, value)?;
            Ok(Region::Frame)
        }
        RegKind::Value { map, offset } => {
            store_value(state, fields, map, offset, value, shapes)?;
            Ok(Region::Value(map))
        }
        RegKind::Ctx(_) => Err(InsnFault::ContextWrite),
        RegKind::MaybeNull { .. } => Err(InsnFault::MaybeNull),
        _ => Err(InsnFault::NotAPointer),
    }
}
