//! The shape of a map by the numbers of a line.
ghost use Rattle.std.specs.Prelude.{◌≡◌, ℕ, List, true};
ghost use Rattle.maps.specs.Registry.{is_shape};
ghost use Rattle.script_lines.specs.declared.reply.Reply.{Reply};
ghost use Rattle.control.specs.MapAndLoad.{MapReplies, shape_of_numbers};
ghost use Rattle.control.specs.Setups.{SetupView};

use bpf_model::MapShape;
use script_lines::ShapeNumbers;

/// The shape of these numbers. A number above what its field takes is none of any map's, and such a shape is
/// refused as these numbers are.
pub fn shape_of(numbers: ShapeNumbers) -> MapShape
    ensures fits { is_shape (shape_of_numbers numbers) ≡ true →
        result ≡ shape_of_numbers numbers }
    ensures refused { is_shape result ≡ is_shape (shape_of_numbers numbers) }
    // A map of the shape is replied as one of these numbers would be.
    ensures replied { (s : SetupView) (name : List ℕ) (reply : Reply) (new : SetupView) →
        MapReplies s name result reply new →
        MapReplies s name (shape_of_numbers numbers) reply new }
{
    MapShape {
        kind: numbers.kind,
        key_len: numbers.key_len as usize,
        value_len: numbers.value_len as usize,
        entries: numbers.entries as usize,
        spare: numbers.spare as usize,
        reuse_limit: u32::try_from(numbers.reuse_limit).unwrap_or(0),
    }
}
