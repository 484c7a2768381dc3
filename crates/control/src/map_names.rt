//! The names of maps.
ghost use Rattle.std.specs.Prelude.{◌≡◌};
ghost use Rattle.control.specs.Names.{map_name, IsMapOf};

use bpf_model::MapId;
use maps::Registry;

/// The map of a name; `None` where no map has it.
pub fn map_named(maps: &Registry, name: &[u8]) -> Option<MapId>
    ensures { IsMapOf maps.now.names name.now result }
{
    for number in 0..maps.len() {
        let map = MapId::new(number);
        if name_of(maps, map) == name {
            return Some(map);
        }
    }
    None
}

/// The name of a map; no bytes where there is no map of the number.
pub fn name_of(maps: &Registry, map: MapId) -> &[u8]
    ensures { result.now ≡ map_name maps.now.names map }
{
    match maps.name(map) {
        Some(name) => name.as_bytes(),
        None => &[],
    }
}
