//! Shapes of maps.
ghost use Rattle.std.specs.Prelude.{◌≡◌, ◌↔◌, IsTrue};
ghost use Rattle.bpf_model.specs.Shapes.{IsShape};
ghost use Rattle.maps.specs.Registry.{is_shape as is_map_shape, is_of_kind};

use bpf_model::{
    INDEX_BYTES, KEY_BYTES, MAX_ENTRIES, MAX_REUSE, MAX_SPARE, MapKind, MapShape, VALUE_BYTES,
};

/// Whether the numbers of a shape are those of its kind: an array has keys of `INDEX_BYTES`, no further map
/// slots, and uses each once.
fn has_numbers_of_kind(shape: &MapShape) -> bool
    ensures { result ≡ is_of_kind shape.now.kind shape.now }
{
    match shape.kind {
        MapKind::Hash => true,
        MapKind::Array => {
            shape.key_len == INDEX_BYTES && shape.spare == 0 && shape.reuse_limit == 1
        }
    }
}

/// Whether a map may have this shape: each of its numbers is within its limits, and they are those of its kind.
pub fn is_shape(shape: &MapShape) -> bool
    ensures value { result ≡ is_map_shape shape.now }
    ensures shape { IsTrue result ↔ IsShape shape.now }
{
    shape.key_len >= 1
        && shape.key_len <= KEY_BYTES
        && shape.value_len >= 1
        && shape.value_len <= VALUE_BYTES
        && shape.entries >= 1
        && shape.entries <= MAX_ENTRIES
        && shape.spare <= MAX_SPARE
        && shape.reuse_limit >= 1
        && shape.reuse_limit <= MAX_REUSE
        && has_numbers_of_kind(shape)
}
