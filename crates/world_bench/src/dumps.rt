//! Maps that are dumped, with all their elements.

use crate::activity::shape;
use crate::setup::{update, world_of};
use anyhow::{Result, bail};
use bpf_model::{Answer, MapId};
use control::write_elements;
use std::alloc::Global;
use world::World;

/// A map that is dumped: its line's name, and how many elements it has.
#[derive(Clone, Copy)]
pub struct Dump {
    pub name: &'static str,
    entries: usize,
}

/// The maps, by name.
pub fn dumps() -> [Dump; 2] {
    [
        Dump {
            name: "dump_of_256",
            entries: 256,
        },
        Dump {
            name: "dump_of_4096",
            entries: 4096,
        },
    ]
}

/// A world with a full map, whose keys and values have 8 bytes.
fn full_world(alloc: Global, entries: usize) -> Result<World> {
    let shape = shape(8, 8, entries);
    let mut world = world_of(alloc, shape, "mov64 r0, 0\nexit\n")?;
    for number in 0..entries {
        match world.apply(&update(number as u64, &shape)) {
            Answer::Ret(Ok(())) => {}
            _ => bail!("the map is not filled"),
        }
    }
    Ok(world)
}

/// Dumps a map so many times. Of how many bytes its lines are.
pub fn repeat_dump(alloc: Global, dump: &Dump, times: u32) -> Result<usize> {
    let world = full_world(alloc, dump.entries)?;
    let mut out = Vec::new(alloc);
    for _ in 0..times {
        out.clear();
        write_elements(&world, MapId::new(0), &mut out)?;
    }
    Ok(out.len())
}
