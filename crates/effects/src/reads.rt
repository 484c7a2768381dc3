//! Where a load reads: in the context, in the value of an element, or in the frame.
ghost use Rattle.std.specs.Prelude.{◌≡◌, ℕ, IfOk, IsOk, Ok, List, Some, slice_get};
ghost use Rattle.bpf_model.specs.Access.{byte_count, region_offset};
ghost use Rattle.plan_laws.specs.Effects.{IsAlwaysInside};
ghost use Rattle.register_kinds.specs.States.{kind_in, kind_of, state_of};
ghost use Rattle.register_kinds.specs.Pairs.{IsBelow, AreBelow};
ghost use Rattle.effects.specs.Accesses.{IsReadByLoad, IsBase, IsStart, ReadsBytes, ReadsValue, read_kind};

use crate::environment::EnvironmentShape;
use crate::offset::{check_within, offset_in};
use crate::region::{Address, Region};
use bpf_model::{FRAME_BYTES, MapShape, Width};
use register_kinds::{AbsState, Content, InsnFault, RegKind, held, read_frame};
use scalar_domain::Scalar;

/// What a load reads.
#[derive(Clone, Copy, Debug, PartialEq, Eq)]
pub(crate) enum Reads {
    /// Bytes of the context.
    Context,
    /// Bytes of the value of an element of the map of this index.
    Value(u32),
    /// Bytes of numbers in the frame.
    FrameBytes,
    /// The reference, or null, that was stored in the frame.
    FramePointer(RegKind),
}

/// What a load from the frame reads: bytes of numbers, or all parts of one reference.
#[inline(always)]
fn read_from_frame(
    state: &AbsState,
    width: Width,
    from: Address,
    start: i32,
) -> Result<Reads, InsnFault>
    requires { kind_in state.now.regs from.base ≡ RegKind.Frame start }
    ensures reads { IfOk result (λ x. (ctx_len : ℕ) (shapes : List MapShape)
        → IsReadByLoad x (state_of state.now) (byte_count width) from ctx_len shapes) }
    ensures below { IfOk result (λ x. (top : ℕ) (t : Scalar) → AreBelow top state.now
        → IsBelow top (read_kind x t)) }
    ensures bytes { ReadsBytes (state_of state.now) from.base (byte_count width) from.offset
        → result ≡ Ok Reads.FrameBytes }
{
    let at = offset_in(FRAME_BYTES, width, start, from.offset)?;
    match read_frame(&state.frame, at, width.bytes())? {
        Content::Number => Ok(Reads::FrameBytes),
        Content::Pointer(kind) => Ok(Reads::FramePointer(kind)),
    }
}

/// An access to the value of an element of a map lies inside it, at each of the offsets.
pub(crate) fn check_value(
    offsets: Scalar,
    width: Width,
    offset: i16,
    map: u32,
    shapes: &[MapShape],
) -> Result<MapShape, InsnFault>
    ensures shape { IfOk result (λ shape. slice_get shapes.now map ≡ Some shape) }
    ensures inside { IfOk result (λ shape.
        IsAlwaysInside offsets (byte_count width) offset shape.value_len) }
    ensures accepts { (shape : MapShape) (at : ℕ) → IsStart offsets
        → slice_get shapes.now map ≡ Some shape
        → region_offset shape.value_len (byte_count width) offset ≡ Some at → IsOk result }
{
    match shapes.get(map as usize) {
        Some(shape) => {
            check_within(offsets, width, offset, shape.value_len)?;
            Ok(*shape)
        }
        None => Err(InsnFault::NoSuchMap),
    }
}

/// What a load reads. Errors, in this order: those of a register that is read; `NotAPointer` or
/// `MaybeNull`, `NoSuchMap` of the base; `OutOfBounds`, `Misaligned`; those of bytes of the frame.
#[inline(always)]
pub(crate) fn read(
    state: &AbsState,
    width: Width,
    from: Address,
    shape: &EnvironmentShape,
) -> Result<Reads, InsnFault>
    ensures reads { IfOk result (λ x.
        IsReadByLoad x (state_of state.now) (byte_count width) from
        shape.now.ctx_len shape.now.shapes.now) }
    ensures below { IfOk result (λ x. (top : ℕ) (t : Scalar) → AreBelow top state.now
        → IsBelow top (read_kind x t)) }
    ensures bytes { ReadsBytes (state_of state.now) from.base (byte_count width) from.offset
        → result ≡ Ok Reads.FrameBytes }
    ensures value { (map : ℕ)
        → ReadsValue shape.now.shapes.now state.now from.base map (byte_count width) from.offset
        → result ≡ Ok (Reads.Value map) }
{
    match held(state, from.base)? {
        RegKind::Ctx(offsets) => {
            check_within(offsets, width, from.offset, shape.ctx_len)?;
            Ok(Reads::Context)
        }
        RegKind::Value { map, offset } => {
            let _shape = check_value(offset, width, from.offset, map, shape.shapes)?;
            Ok(Reads::Value(map))
        }
        RegKind::Frame(start) => read_from_frame(state, width, from, start),
        RegKind::MaybeNull { .. } => Err(InsnFault::MaybeNull),
        _ => Err(InsnFault::NotAPointer),
    }
}

impl Reads {
    ghost use Rattle.bpf_model.specs.declared.limits.MapShape.{MapShape};
    ghost use Rattle.plan_laws.specs.Kinds.{AbsState as Known};
    ghost use Rattle.effects.specs.declared.region.Address.{Address};

    /// The region that what is read lies in.
    pub(crate) fn region(&self) -> Region
        ensures { (a : Known) (width : ℕ) (from : Address) (ctx_len : ℕ) (shapes : List MapShape)
            → IsReadByLoad self.now a width from ctx_len shapes → IsBase result (a.regs from.base) }
    {
        match self {
            Reads::Context => Region::Ctx,
            Reads::Value(map) => Region::Value(*map),
            Reads::FrameBytes | Reads::FramePointer(_) => Region::Frame,
        }
    }

    /// The kind of what is read, where these are the numbers that the load may give.
    pub(crate) fn kind(&self, numbers: Scalar) -> RegKind
        ensures { kind_of result ≡ read_kind self.now numbers }
    {
        match self {
            Reads::FramePointer(kind) => *kind,
            _ => RegKind::Num(numbers),
        }
    }
}
