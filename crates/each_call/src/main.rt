//! Makes calls that take memory, on programs, maps, worlds and a shared world, and prints a line for each: `NAME done`. Where
//! a call was refused memory it is made once more, and the line is `NAME 13 done`. Before that, what the call may change is
//! found as it was; only `run_jobs` may have served some jobs. A shared world shows what is under its lock only at its end,
//! so there is also one that ends at the refused call. It is run with each growth of memory refused in turn
//! (checks/memory_agree).
#![tactic(auto)]

mod again;
mod alike;
mod pooled;
mod programs;
mod stopped;
mod worlds;

use crate::pooled::{MadeAgain, share};
use crate::programs::{arena, assembled, decoded, disassembled, encoded, verified};
use crate::stopped::stop;
use crate::worlds::{add_programs, created, make_world, ordered, run_events};
use anyhow::Result;
use std::marker::Brand;
use std::sync::ledger::Blank;
use verifier::Verified;
use world::World;

/// Tells what became of a call, and whether it was made again for want of memory.
fn tell(rt: &HostRuntime, name: &str, again: Result<bool>) -> Result<()> {
    let word = if again? { " 13" } else { "" };
    println!(rt; "{name}{word} done")?;
    Ok(())
}

/// The value of a call that has been made, once it is told.
fn told<T: Drop>(rt: &HostRuntime, name: &str, made: Result<(T, bool)>) -> Result<T> {
    let (value, again) = made?;
    tell(rt, name, Ok(again))?;
    Ok(value)
}

/// The calls on a program's text and bytes.
fn make_bytes(rt: &HostRuntime) -> Result<Vec<u8>> {
    let alloc = rt.alloc();
    let program = told(rt, "assemble", assembled(alloc))?;
    told(rt, "encode", encoded(alloc, &program))
}

/// The further calls on a program.
fn make_program(rt: &HostRuntime, bytes: &[u8]) -> Result<Verified> {
    let alloc = rt.alloc();
    let program = told(rt, "decode", decoded(alloc, bytes))?;
    tell(rt, "disassemble", disassembled(alloc, &program))?;
    told(rt, "verify", verified(alloc, bytes))
}

/// The calls on arenas and maps.
fn make_maps(rt: &HostRuntime) -> Result<()> {
    tell(rt, "arena", arena(rt.alloc()))?;
    tell(rt, "create", created(rt.alloc()))
}

/// The calls on a world that is there.
fn use_world(rt: &HostRuntime, world: &mut World, verified: &Verified) -> Result<()> {
    let alloc = rt.alloc();
    tell(rt, "load", add_programs(alloc, world, verified))?;
    tell(rt, "run_all", run_events(alloc, world))?;
    tell(rt, "in_order", ordered(alloc, world))
}

/// The calls on arenas, maps and worlds.
fn make_worlds(rt: &HostRuntime, verified: &Verified) -> Result<World> {
    make_maps(rt)?;
    let mut world = told(rt, "world", make_world(rt.alloc(), verified))?;
    use_world(rt, &mut world, verified)?;
    Ok(world)
}

/// All calls but those that wait.
fn make_all(rt: &HostRuntime) -> Result<World> {
    let bytes = make_bytes(rt)?;
    let verified = make_program(rt, &bytes)?;
    make_worlds(rt, &verified)
}

/// Tells of the calls on a world that was shared up to a refused call, and on one that was shared to the end.
fn tell_shared(rt: &HostRuntime, refused: MadeAgain, calls: MadeAgain) -> Result<()> {
    tell(rt, "run_for", Ok(calls.run_for))?;
    tell(rt, "act", Ok(refused.act | calls.act))?;
    tell(rt, "cut", Ok(refused.cut | calls.cut))?;
    tell(rt, "run_jobs", Ok(calls.jobs))
}

fn main(rt: HostRuntime) -> Result<()> {
    let world = make_all(&rt)?;
    let refused = stop::<Brand, _>(&rt, rt.alloc(), &world, Blank::new(2))?;
    let calls = share::<Brand, _>(&rt, rt.alloc(), world, Blank::new(2))?;
    tell_shared(&rt, refused, calls)
}
