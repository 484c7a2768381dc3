//! The calls on maps and worlds.
ghost use Rattle.std.specs.Prelude.{IfOk};
ghost use Rattle.bpf_model.specs.View.{AreNewMaps};

use crate::again::{done, made};
use crate::alike::are_alike;
use crate::programs::SHAPE;
use anyhow::{Result, bail, ensure};
use arrayvec::ArrayVec;
use bpf_model::{
    Answer, CtxBytes, Event, KeyBytes, MapId, MapKind, MapShape, ProgId, RunId, array_of,
};
use maps::{MapFault, Registry};
use std::alloc::Global;
use verifier::Verified;
use world::{Loaded, World, WorldFault};

/// Three values of eight bytes.
const ARRAY: MapShape = MapShape {
    kind: MapKind::Array,
    key_len: 4,
    value_len: 8,
    entries: 3,
    spare: 0,
    reuse_limit: 1,
};

/// How many events there are: an update, and a run of the program, to its exit, by single steps, which is then dropped.
const EVENTS: usize = 15;

/// Creates a map. One that could not be made has left no name.
fn create(registry: &mut Registry, name: &str, shape: MapShape) -> Result<bool> {
    let count = registry.len();
    match registry.create(name, shape) {
        Err(MapFault::Memory) => {
            ensure!(registry.id(name).is_none(), "a name was left");
            ensure!(registry.len() == count, "a map was left");
            done(registry.create(name, shape), true)
        }
        answer => done(answer, false),
    }
}

/// Creates two hash maps and an array.
fn create_all(registry: &mut Registry) -> Result<bool> {
    let first = create(registry, "first", SHAPE)?;
    let second = create(registry, "second", SHAPE)?;
    let third = create(registry, "third", ARRAY)?;
    Ok(first | second | third)
}

/// Creates maps in a registry of its own.
pub fn created(alloc: Global) -> Result<bool> {
    let mut registry = Registry::new(alloc);
    create_all(&mut registry)
}

/// A registry of one new map.
fn registry_of(alloc: Global, shape: MapShape) -> Result<Registry>
    ensures new { IfOk result (λ r. AreNewMaps r.maps) }
{
    let mut registry = Registry::new(alloc);
    registry.create("counts", shape)?;
    Ok(registry)
}

/// The program, bound to map 0.
fn bound(alloc: Global, verified: &Verified) -> Result<Loaded> {
    let verified = verified.copy(alloc)?;
    let mut maps = ArrayVec::new();
    maps.push(0);
    Ok(Loaded { verified, maps })
}

/// A list of the one program.
fn programs_of(alloc: Global, verified: &Verified) -> Result<Vec<Loaded>> {
    let program = bound(alloc, verified)?;
    let mut programs = Vec::new(alloc);
    programs.push(program)?;
    Ok(programs)
}

/// A world of one map, and of the program, bound to it.
fn world_of(alloc: Global, verified: &Verified) -> Result<Result<World, WorldFault>> {
    let registry = registry_of(alloc, SHAPE)?;
    let programs = programs_of(alloc, verified)?;
    Ok(World::new(alloc, registry, programs))
}

/// A world of one map and of the program.
pub fn make_world(alloc: Global, verified: &Verified) -> Result<(World, bool)> {
    match world_of(alloc, verified)? {
        Err(WorldFault::Memory) => made(world_of(alloc, verified)?, true),
        answer => made(answer, false),
    }
}

/// Key 7, as the program writes it.
fn key() -> KeyBytes {
    array_of(&[7, 0, 0, 0])
}

/// The number under key 7 becomes this one.
pub fn update(number: u8) -> Event {
    Event::Update {
        map: MapId::new(0),
        key: key(),
        value: array_of(&[number, 0, 0, 0, 0, 0, 0, 0]),
        flags: 0,
    }
}

/// Makes that update.
pub fn apply_update(world: &mut World, number: u8) {
    let _ = world.apply(&update(number));
}

/// A run of the program begins.
pub fn start() -> Event {
    Event::Start {
        prog: ProgId::new(0),
        ctx: CtxBytes::new(),
    }
}

/// The event of this number, counted from 0.
fn event_at(number: usize) -> Event {
    let run = RunId::new(0);
    match number {
        0 => update(42),
        1 => start(),
        2..14 => Event::Step { run },
        _ => Event::Drop { run },
    }
}

/// All events.
fn events(alloc: Global) -> Result<Vec<Event>> {
    let mut events = Vec::new(alloc);
    for number in 0..EVENTS {
        events.push(event_at(number))?;
    }
    Ok(events)
}

/// Whether the last answer but one is the exit with 42.
fn has_exited(answers: &[Answer]) -> bool {
    match answers {
        [.., Answer::Exited(value), Answer::Done] => *value == 42,
        _ => false,
    }
}

/// The answers to events. A world that had no memory for them has taken none of the events: it is as it was before.
fn answers_of(
    alloc: Global,
    world: &mut World,
    events: &[Event],
    before: &World,
) -> Result<(Vec<Answer>, bool)> {
    match world.run_all(alloc, events) {
        Err(_) => {
            ensure!(are_alike(world, before), "some events were taken");
            made(world.run_all(alloc, events), true)
        }
        answer => made(answer, false),
    }
}

/// Runs events, and looks whether the run has ended.
fn run_to_exit(alloc: Global, world: &mut World, events: &[Event], before: &World) -> Result<bool> {
    let (answers, again) = answers_of(alloc, world, events, before)?;
    ensure!(has_exited(&answers), "the run has not ended");
    Ok(again)
}

/// Runs a list of events, of which the first changes the one element that is there.
pub fn run_events(alloc: Global, world: &mut World) -> Result<bool> {
    let events = events(alloc)?;
    apply_update(world, 41);
    let before = world.copy(alloc)?;
    run_to_exit(alloc, world, &events, &before)
}

/// The map slots of the world's one map.
fn slots_of(alloc: Global, world: &World) -> Result<(Vec<usize>, bool)> {
    let Some(map) = world.registry().map(MapId::new(0)) else {
        bail!("there is no map");
    };
    match map.in_order(alloc) {
        Err(_) => made(map.in_order(alloc), true),
        answer => made(answer, false),
    }
}

/// Lists the map slots of the one element that is there.
pub fn ordered(alloc: Global, world: &World) -> Result<bool> {
    let (slots, again) = slots_of(alloc, world)?;
    ensure!(slots.len() == 1, "there is another number of elements");
    Ok(again)
}

/// Whether the program was added, under this number.
fn is_added(answer: Result<ProgId, WorldFault>, number: usize) -> Result<bool> {
    match answer {
        Err(WorldFault::Memory) => Ok(false),
        answer => {
            ensure!(answer?.index() == number, "another number");
            Ok(true)
        }
    }
}

/// Adds the program once more to a world that is as it was before.
fn add_again(
    alloc: Global,
    world: &mut World,
    before: &World,
    verified: &Verified,
    number: usize,
) -> Result<bool> {
    ensure!(are_alike(world, before), "something has changed");
    ensure!(
        world.program(ProgId::new(number)).is_none(),
        "a program was left"
    );
    done(world.load(bound(alloc, verified)?), true)
}

/// Adds the program under this number. A world that had no memory for one more is as it was.
fn add_once(alloc: Global, world: &mut World, verified: &Verified, number: usize) -> Result<bool> {
    let before = world.copy(alloc)?;
    let answer = world.load(bound(alloc, verified)?);
    if is_added(answer, number)? {
        return Ok(false);
    }
    add_again(alloc, world, &before, verified, number)
}

/// Adds the program again and again, so that the list of programs has to grow.
pub fn add_programs(alloc: Global, world: &mut World, verified: &Verified) -> Result<bool> {
    let mut again = false;
    for number in 1..8 {
        again |= add_once(alloc, world, verified, number)?;
    }
    Ok(again)
}
