//! The elements of a world's maps.
ghost use Rattle.std.specs.Prelude.{◌≡◌, ◌++◌, List, ℕ, OnOk};
ghost use Rattle.commands.specs.Runs.{AreDumps};

use bpf_model::MapId;
use control::write_elements;
use std::alloc::AllocError;
use world::World;

/// Adds what a script's `dump` writes of each map, in their order.
pub fn write_maps(world: &World, out: &mut Vec<u8>) -> Result<(), AllocError>
    ensures { OnOk result ((text : List ℕ) × AreDumps world.now.maps text
        × (out.new.items ≡ out.old.items ++ text)) }
{
    for number in 0..world.registry().len() {
        write_elements(world, MapId::new(number), out)?;
    }
    Ok(())
}
