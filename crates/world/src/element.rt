//! Loads and stores of elements' values.
ghost use Rattle.std.specs.Prelude.{◌≡◌};
ghost use Rattle.bpf_model.specs.Access.{byte_count};
ghost use Rattle.world_laws.specs.Locating.{location_of};
ghost use Rattle.world.specs.Elements.{ReachesElement, element_number, stored_element};

use crate::address::{map_slot_of, offset_in};
use bpf_model::{MapId, Width};
use maps::Registry;

/// The number of so many bytes of an element's value, at an offset in bytes from a word that
/// lies in the element's map slot.
#[inline]
pub(crate) fn load(maps: &Registry, address: u64, offset: i16, width: Width) -> u64
    requires { ReachesElement maps.now.maps (byte_count width) offset (location_of address) }
    ensures { result ≡ element_number maps.now.maps (byte_count width) offset
        (location_of address) }
{
    let reached = map_slot_of(address);
    match maps.map(MapId::new(reached.map)) {
        Some(map) => map.load(reached.slot, offset_in(address, offset), width),
        None => unreachable!(),
    }
}

/// Stores the low bytes of a number in an element's value, at an offset in bytes from a word that lies in
/// the element's map slot. Whoever reads the element later finds them: a store changes an element
/// where it lies, while an update of its key links a new one.
#[inline]
pub(crate) fn store(maps: &mut Registry, address: u64, offset: i16, width: Width, number: u64)
    requires { ReachesElement maps.old.maps (byte_count width) offset (location_of address) }
    ensures maps { maps.new.maps ≡ stored_element (byte_count width) number offset
        (location_of address) maps.old.maps }
    ensures names { maps.new.names ≡ maps.old.names }
{
    let reached = map_slot_of(address);
    let map = maps.map_mut(MapId::new(reached.map));
    map.store(reached.slot, offset_in(address, offset), width, number);
}
