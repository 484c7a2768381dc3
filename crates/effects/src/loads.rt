//! Loads.
ghost use Rattle.std.specs.Prelude.{◌≡◌, ℕ, OnOk, OnErr, IfOk};
ghost use Rattle.register_kinds.specs.States.{kind_at, state_of};
ghost use Rattle.bpf_model.specs.Access.{byte_count, unsigned_width};
ghost use Rattle.plan_laws.specs.Effects.{HasNumber};
ghost use Rattle.effects.specs.Performs.{Performs, SetsNumber, KeepsOthers};
ghost use Rattle.register_kinds.specs.Pairs.{AreBelow};
ghost use Rattle.effects.specs.Accesses.{IsBase, ReadsBytes, ReadsValue, LoadsKnown};

use crate::environment::EnvironmentShape;
use crate::reads::read;
use crate::region::{Address, Region};
use bpf_model::{Insn, Reg, SignedWidth, Width};
use register_kinds::{AbsState, InsnFault, check_writable};
use scalar_domain::Scalar;

/// A load without sign: a number, or the reference whose eight parts are read, of the context, the
/// maps and the frame that the program is verified against. The answer is the region that is read.
///
/// Errors, in this order; the state is then as it was.
/// - `FramePointerWritten`: it sets r10.
/// - `UnwrittenRegister`, `OutsideSection`, `MixedRegions`: the base is so.
/// - `NotAPointer`, `MaybeNull`: the base is a number or a map, or may be null.
/// - `NoSuchMap`: the base is a value of a map that is not in the list.
/// - `OutOfBounds`, then `Misaligned`: at some of its offsets the access does not lie inside its
///   region, or not at a multiple of its width from the region's start.
/// - `UnwrittenFrame`, `OutsideSection`, `MixedRegions`: a byte of the frame is so.
/// - `PointerLeak`: some byte is part of a reference, and not all eight are read.
pub fn load(
    state: &mut AbsState,
    width: Width,
    dst: Reg,
    from: Address,
    shape: &EnvironmentShape,
) -> Result<Region, InsnFault>
    ensures sound { OnOk result (Performs
        (Insn.Load width dst from.base from.offset) shape.now.ctx_len
        shape.now.shapes.now state.old state.new) }
    ensures floor { OnOk result (LoadsKnown width (kind_at state.new.regs dst)) }
    ensures others { OnOk result (KeepsOthers dst state.old state.new) }
    ensures region { IfOk result (λ region. IsBase region (kind_at state.old.regs from.base)) }
    ensures bytes { (10 ≡ dst → ⊥)
        → ReadsBytes (state_of state.old) from.base (byte_count width) from.offset
        → SetsNumber result dst (state_of state.old) (state_of state.new) }
    ensures value { (map : ℕ) → (10 ≡ dst → ⊥)
        → ReadsValue shape.now.shapes.now state.old from.base map (byte_count width) from.offset
        → SetsNumber result dst (state_of state.old) (state_of state.new) }
    ensures below { (top : ℕ) → AreBelow top state.old → AreBelow top state.new }
    ensures unchanged { OnErr result (state.new ≡ state.old) }
{
    check_writable(dst)?;
    let reads = read(state, width, from, shape)?;
    state.set(dst, reads.kind(Scalar::loaded(width)));
    Ok(reads.region())
}

/// A load that extends the sign, of a number. The answer is the region that is read. Errors: those
/// of `load`, in that order; the state is then as it was.
pub fn load_signed(
    state: &mut AbsState,
    width: SignedWidth,
    dst: Reg,
    from: Address,
    shape: &EnvironmentShape,
) -> Result<Region, InsnFault>
    ensures sound { OnOk result (Performs
        (Insn.LoadSigned width dst from.base from.offset) shape.now.ctx_len
        shape.now.shapes.now state.old state.new) }
    ensures floor { OnOk result (HasNumber (state_of state.new) dst) }
    ensures others { OnOk result (KeepsOthers dst state.old state.new) }
    ensures region { IfOk result (λ region. IsBase region (kind_at state.old.regs from.base)) }
    ensures bytes { (10 ≡ dst → ⊥)
        → ReadsBytes (state_of state.old) from.base (byte_count (unsigned_width width)) from.offset
        → SetsNumber result dst (state_of state.old) (state_of state.new) }
    ensures value { (map : ℕ) → (10 ≡ dst → ⊥)
        → ReadsValue shape.now.shapes.now state.old from.base map
        (byte_count (unsigned_width width)) from.offset
        → SetsNumber result dst (state_of state.old) (state_of state.new) }
    ensures below { (top : ℕ) → AreBelow top state.old → AreBelow top state.new }
    ensures unchanged { OnErr result (state.new ≡ state.old) }
{
    check_writable(dst)?;
    let reads = read(state, width.width(), from, shape)?;
    state.set(dst, reads.kind(Scalar::load_signed(width)));
    Ok(reads.region())
}
