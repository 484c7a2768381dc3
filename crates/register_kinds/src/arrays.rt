//! Which maps of a program's list are arrays.
ghost use Rattle.std.specs.Prelude.{◌≡◌};
ghost use Rattle.plan_laws.specs.Effects.{is_array_in};

use bpf_model::{MapKind, MapShape};

/// Whether the map of this index is an array, by the shapes of the maps of the program's list.
pub fn is_array(shapes: &[MapShape], map: u32) -> bool
    ensures { result ≡ is_array_in shapes.now map }
{
    match shapes.get(map as usize) {
        Some(shape) => shape.kind == MapKind::Array,
        None => false,
    }
}
