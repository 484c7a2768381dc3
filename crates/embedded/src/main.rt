//! A program that embeds the runtime: it verifies a program, makes a world of it and of a map, starts a run, steps it to its
//! exit, and reads the map.
#![tactic(auto)]

use anyhow::{Result, bail};
use arrayvec::ArrayVec;
use asm::assemble;
use bpf_model::{
    Answer, CtxBytes, Event, KeyBytes, MAX_SLOTS, MapId, MapKind, MapShape, ProgId, array_of,
};
use maps::Registry;
use std::alloc::Global;
use verifier::verify;
use world::{Loaded, World};

/// Adds 1 to the number that the map has under key 7, and exits with the sum; with 0 where there is no such key.
const COUNT: &str = "\
mov64 r6, 0
callbtf 1
stw [r10-4], 7
mov64 r2, r10
add64 r2, -4
ldmap r1, 0
call 1
jeq r0, 0, +3
ldxdw r6, [r0+0]
add64 r6, 1
stxdw [r0+0], r6
callbtf 2
mov64 r0, r6
exit
";

/// Keys of 4 bytes, values of 8, 16 elements and as many further map slots, each used a thousand times at most.
const SHAPE: MapShape = MapShape {
    kind: MapKind::Hash,
    key_len: 4,
    value_len: 8,
    entries: 16,
    spare: 16,
    reuse_limit: 1000,
};

/// Key 7, as the program writes it.
fn key() -> KeyBytes {
    array_of(&[7, 0, 0, 0])
}

/// A world of one map, and of the program, verified and bound to it.
fn make_world(alloc: Global) -> Result<World> {
    let verified = verify(alloc, assemble(alloc, COUNT)?, &[SHAPE], 0)?;
    let mut registry = Registry::new(alloc);
    registry.create("counts", SHAPE)?;
    let mut maps = ArrayVec::new();
    maps.push(0);
    let mut programs = Vec::new(alloc);
    programs.push(Loaded { verified, maps })?;
    Ok(World::new(alloc, registry, programs)?)
}

/// Starts a run of the program on an empty context, steps it to its exit and drops it: its exit value.
fn run_once(world: &mut World) -> Result<u64> {
    let start = Event::Start {
        prog: ProgId::new(0),
        ctx: CtxBytes::new(),
    };
    let Answer::Started(run) = world.apply(&start) else {
        bail!("the run is not started");
    };
    for _ in 0..MAX_SLOTS {
        if let Answer::Exited(value) = world.apply(&Event::Step { run }) {
            world.apply(&Event::Drop { run });
            return Ok(value);
        }
    }
    bail!("the run has not ended")
}

fn main(rt: HostRuntime) -> Result<()> {
    let mut world = make_world(rt.alloc())?;
    let map = MapId::new(0);
    world.apply(&Event::Update {
        map,
        key: key(),
        value: array_of(&[41, 0, 0, 0, 0, 0, 0, 0]),
        flags: 0,
    });
    println!(rt; "exit {}", run_once(&mut world)?)?;
    if let Answer::Found(Some(value)) = world.apply(&Event::Read { map, key: key() }) {
        println!(rt; "value {:?}", value.as_slice())?;
    }
    Ok(())
}
