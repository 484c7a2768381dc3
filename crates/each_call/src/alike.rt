//! Whether two worlds are alike.
use bpf_model::{MAX_ENTRIES, MapId};
use world::World;

/// Whether the one map of two worlds has the same elements.
fn have_equal_elements(one: &World, other: &World) -> bool {
    let map = MapId::new(0);
    let mut last = None;
    for _ in 0..=MAX_ENTRIES {
        let next = one.next_above(map, last.as_ref());
        if next != other.next_above(map, last.as_ref()) {
            return false;
        }
        match next {
            None => return true,
            Some((key, _)) => last = Some(key),
        }
    }
    false
}

/// Whether two worlds have the same counts and the same elements.
pub fn are_alike(one: &World, other: &World) -> bool {
    one.stat() == other.stat() && have_equal_elements(one, other)
}
