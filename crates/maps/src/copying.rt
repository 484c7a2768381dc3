//! Copies of the parts of a registry.
ghost use Rattle.std.specs.Prelude.{◌≡◌, length, map, string_bytes, IfOk};

use indexmap::IndexSet;
use map_kinds::Map;
use std::alloc::{AllocError, Global};

/// Copies of maps, each in the state of its original, in their order. Fails where memory runs out.
pub(crate) fn copy_of_maps(alloc: Global, maps: &[Map]) -> Result<Vec<Map>, AllocError>
    ensures same { IfOk result (λ v. v.items ≡ maps.now) }
{
    let mut copy = Vec::with_capacity(alloc, maps.len())?;
    for chosen in maps {
        copy.push(chosen.copy(alloc)?)?;
    }
    Ok(copy)
}

/// A copy of the names of maps, in their order. Fails where memory runs out.
pub(crate) fn copy_of_names(names: &IndexSet<String>) -> Result<IndexSet<String>, AllocError>
    ensures same { IfOk result (λ s.
        map string_bytes s.keys ≡ map string_bytes names.now.keys) }
    ensures long { IfOk result (λ s. length s.keys ≡ length names.now.keys) }
{
    let copy = names.clone()?;
    Ok(copy)
}
