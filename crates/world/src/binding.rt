//! Whether programs are bound to maps of the shapes that they were verified for.
ghost use Rattle.std.specs.Prelude.{◌≡◌, ◌≤◌, ◌↔◌, ℕ, length, IsTrue, IfSome, IfNone, Some, slice_get};
ghost use Rattle.bpf_model.specs.declared.limits.TheConstants.{MAX_MAPS};
ghost use Rattle.bpf_model.specs.Shapes.{AreShapes};
ghost use Rattle.bpf_model.specs.View.{shapes_of_maps};
ghost use Rattle.plan_laws.specs.Verified.{IsVerified};
ghost use Rattle.world_laws.specs.Typed.{IsRealProgram};
ghost use Rattle.world_laws.specs.Binding.{IsBoundTo};
ghost use Rattle.world.specs.declared.kept.loaded.Loaded.{Loaded};
ghost use Rattle.world.specs.BoundTo.{AreProgramsBound, IsBound};
ghost use Rattle.world.specs.Programs.{program_of};
ghost use Rattle.world.specs.Bound.{IsFirstUnbound};

use crate::kept::Loaded;
use bpf_model::{MapId, MapShape, ProgId};
use maps::Registry;
use world_laws::typed::code_is_real;

/// Whether the number is that of a map that is there and has this shape.
fn has_shape(registry: &Registry, number: MapId, asked: MapShape) -> bool
    ensures { IsTrue result ↔ (slice_get (shapes_of_maps registry.now.maps) number ≡ Some asked) }
{
    match registry.shape(number) {
        Some(shape) => shape == asked,
        None => false,
    }
}

/// Whether the numbers are those of maps that are there and have these shapes, one after another.
fn have_shapes(registry: &Registry, numbers: &[usize], asked: &[MapShape]) -> bool
    ensures { IsTrue result ↔ IsBoundTo (shapes_of_maps registry.now.maps) asked.now numbers.now }
{
    if numbers.len() != asked.len() {
        return false;
    }
    for (i, number) in numbers.iter().enumerate() {
        if !has_shape(registry, MapId::new(*number), asked[i]) {
            return false;
        }
    }
    true
}

/// Whether a program is bound.
pub(crate) fn is_bound(registry: &Registry, program: &Loaded) -> bool
    ensures { IsTrue result ↔ IsBound (shapes_of_maps registry.now.maps) program.now }
{
    have_shapes(registry, program.maps.as_slice(), program.verified.shapes())
}

/// The first program that is not bound.
pub(crate) fn first_unbound(registry: &Registry, loaded: &[Loaded]) -> Option<ProgId>
    ensures some { IfSome result (λ p.
        IsFirstUnbound (shapes_of_maps registry.now.maps) loaded.now p) }
    ensures none { IfNone result (AreProgramsBound (shapes_of_maps registry.now.maps) loaded.now) }
{
    for (index, program) in loaded.iter().enumerate() {
        if !is_bound(registry, program) {
            return Some(ProgId::new(index));
        }
    }
    None
}

/// A law: a registry has at most `MAX_MAPS` maps, and their shapes are shapes that maps may have.
pub(crate) fn certify_maps(registry: &Registry)
    ensures shapes { AreShapes (shapes_of_maps registry.now.maps) }
    ensures limit { length registry.now.maps ≤ MAX_MAPS }
{
    registry.have_shapes();
    let _count = registry.len();
}

/// A law: a loaded program is verified, and a value of its type.
pub(crate) fn certify(program: &Loaded)
    ensures verified { IsVerified program.now.verified.program program.now.verified.shapes
        program.now.verified.ctx_len }
    ensures real { IsRealProgram (program_of program.now) }
{
    let code = program.verified.program();
    code_is_real(code.instructions());
    let _count = program.maps.len();
}

/// A law: each loaded program of a list is verified, and a value of its type.
pub(crate) fn certify_programs(loaded: &[Loaded])
    ensures verified { (p : ℕ) (l : Loaded) → slice_get loaded.now p ≡ Some l →
        IsVerified l.verified.program l.verified.shapes l.verified.ctx_len }
    ensures real { (p : ℕ) (l : Loaded) → slice_get loaded.now p ≡ Some l →
        IsRealProgram (program_of l) }
{
    for program in loaded {
        certify(program);
    }
}
