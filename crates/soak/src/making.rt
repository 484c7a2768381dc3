//! The world in which events happen.
ghost use Rattle.std.specs.Prelude.{IfOk};
ghost use Rattle.bpf_model.specs.View.{AreNewMaps};

use anyhow::Result;
use arrayvec::ArrayVec;
use asm::assemble;
use bpf_model::{MapKind, MapShape};
use maps::Registry;
use std::alloc::Global;
use verifier::verify;
use world::{Loaded, World};

/// How many maps there are.
pub const MAPS: usize = 16;

/// How many programs each map has.
pub const KINDS: usize = 4;

/// Exits with the number under the key that the context says, of eight; with 0 where there is none.
const LOOKUP: &str = "\
ldxb r6, [r1+0]
and64 r6, 7
stxw [r10-4], r6
callbtf 1
mov64 r2, r10
add64 r2, -4
ldmap r1, 0
mov64 r6, 0
call 1
jeq r0, 0, +1
ldxdw r6, [r0+0]
callbtf 2
mov64 r0, r6
exit
";

/// Adds 1 to that number, and exits with it.
const COUNT: &str = "\
ldxb r6, [r1+0]
and64 r6, 7
stxw [r10-4], r6
callbtf 1
mov64 r2, r10
add64 r2, -4
ldmap r1, 0
mov64 r6, 0
call 1
jeq r0, 0, +3
ldxdw r6, [r0+0]
add64 r6, 1
stxdw [r0+0], r6
callbtf 2
mov64 r0, r6
exit
";

/// Stores that key as its own value.
const UPDATE: &str = "\
ldxb r6, [r1+0]
and64 r6, 7
stxw [r10-4], r6
stxdw [r10-16], r6
mov64 r2, r10
add64 r2, -4
mov64 r3, r10
add64 r3, -16
mov64 r4, 0
ldmap r1, 0
call 2
exit
";

/// Deletes that key.
const DELETE: &str = "\
ldxb r6, [r1+0]
and64 r6, 7
stxw [r10-4], r6
mov64 r2, r10
add64 r2, -4
ldmap r1, 0
call 3
exit
";

/// What a program does with its key.
#[derive(Clone, Copy)]
enum Kind {
    Lookup,
    Count,
    Update,
    Delete,
}

/// A program of each kind, for each map.
const ALL_KINDS: [Kind; KINDS] = [Kind::Lookup, Kind::Count, Kind::Update, Kind::Delete];

/// The text of a program.
fn text_of(kind: Kind) -> &'static str {
    match kind {
        Kind::Lookup => LOOKUP,
        Kind::Count => COUNT,
        Kind::Update => UPDATE,
        Kind::Delete => DELETE,
    }
}

/// Keys of 4 bytes, values of 8. Every fourth map is an array; some hash maps have few map slots, or such as wear out.
fn shape_of(map: usize) -> MapShape {
    let few = map % 4;
    let is_array = few == 2;
    MapShape {
        kind: if is_array {
            MapKind::Array
        } else {
            MapKind::Hash
        },
        key_len: 4,
        value_len: 8,
        entries: 4 + few,
        spare: if is_array { 0 } else { 2 * few },
        reuse_limit: match map % 8 {
            2 | 6 => 1,
            7 => 50_000,
            _ => u32::MAX,
        },
    }
}

/// The program of a kind, bound to one map.
fn loaded(alloc: Global, kind: Kind, map: usize) -> Result<Loaded> {
    let program = assemble(alloc, text_of(kind))?;
    let verified = verify(alloc, program, &[shape_of(map)], 1)?;
    let mut maps = ArrayVec::new();
    maps.push(map);
    Ok(Loaded { verified, maps })
}

/// Adds a new map, m and its number.
fn add_map(alloc: Global, registry: &mut Registry, map: usize) -> Result<()>
    requires new { AreNewMaps registry.old.maps }
    ensures new { AreNewMaps registry.new.maps }
{
    let name = format!(in alloc; "m{map}")?;
    registry.create(&name, shape_of(map))?;
    Ok(())
}

/// The registry of all maps.
fn registry_of(alloc: Global) -> Result<Registry>
    ensures new { IfOk result (λ r. AreNewMaps r.maps) }
{
    let mut registry = Registry::new(alloc);
    for map in 0..MAPS {
        add_map(alloc, &mut registry, map)?;
    }
    Ok(registry)
}

/// Adds a program of each kind, bound to one map.
fn add_programs(alloc: Global, programs: &mut Vec<Loaded>, map: usize) -> Result<()> {
    for kind in ALL_KINDS {
        programs.push(loaded(alloc, kind, map)?)?;
    }
    Ok(())
}

/// A program of each kind for each map.
fn all_programs(alloc: Global) -> Result<Vec<Loaded>> {
    let mut programs = Vec::new(alloc);
    for map in 0..MAPS {
        add_programs(alloc, &mut programs, map)?;
    }
    Ok(programs)
}

/// A world of all maps, and of a program of each kind for each.
pub fn world_of(alloc: Global) -> Result<World> {
    let programs = all_programs(alloc)?;
    let registry = registry_of(alloc)?;
    Ok(World::new(alloc, registry, programs)?)
}
