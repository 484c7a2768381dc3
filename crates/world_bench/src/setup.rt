//! A world in which an activity can go on.
ghost use Rattle.std.specs.Prelude.{◌<◌};

use crate::activity::{Activity, Deed, Stepped};
use crate::programs::{
    ARITHMETIC_MOVES, LOOKUP_8, LOOKUP_8_MOVES, LOOKUP_64, LOOKUP_64_MOVES, arithmetic, program_of,
};
use crate::sequence::Sequence;
use crate::tally::Tally;
use anyhow::{Result, bail};
use arrayvec::ArrayVec;
use bpf_model::{
    Answer, CtxBytes, Event, KeyBytes, MAX_ENTRIES, MapId, MapShape, ProgId, RunId, ValueBytes,
};
use maps::Registry;
use std::alloc::Global;
use verifier::verify;
use world::{Loaded, World};

/// How many reads, or cycles, a round has.
const PARTS: usize = 1024;

/// How many runs of a lookup a round steps, each in a run slot of its own.
const LOOKUPS: usize = 64;

/// A world, and the events of a round: those of a list, or steps of so many runs with so many moves each.
#[derive(Drop)]
pub struct Setup {
    world: World,
    events: Vec<Event>,
    runs: usize,
    moves: usize,
    /// How many things are done in a round, whose times are added.
    pub parts: u64,
}

/// The map that the world has.
fn map() -> MapId {
    MapId::new(0)
}

/// The key of a number: its eight bytes, little-endian, cut to the length, and zeros behind them.
pub fn key_of(number: u64, len: usize) -> KeyBytes {
    let mut key = KeyBytes::new();
    let _ = key.try_extend_from_slice(&number.to_le_bytes());
    key.truncate(len);
    for _ in 8..len {
        let _ = key.try_push(0);
    }
    key
}

/// An update by a value of ones.
pub fn update(number: u64, shape: &MapShape) -> Event {
    let mut value = ValueBytes::new();
    for _ in 0..shape.value_len {
        let _ = value.try_push(1);
    }
    Event::Update {
        map: map(),
        key: key_of(number, shape.key_len),
        value,
        flags: 0,
    }
}

fn reads(alloc: Global, shape: &MapShape) -> Result<Vec<Event>> {
    let mut sequence = Sequence::new();
    let mut events = Vec::with_capacity(alloc, PARTS)?;
    for _ in 0..PARTS {
        let number = sequence.below(MAX_ENTRIES as u64) % shape.entries.max(1) as u64;
        events.push(Event::Read {
            map: map(),
            key: key_of(number, shape.key_len),
        })?;
    }
    Ok(events)
}

fn cycles(alloc: Global, shape: &MapShape) -> Result<Vec<Event>> {
    let mut sequence = Sequence::new();
    let mut events = Vec::with_capacity(alloc, 5 * PARTS)?;
    for _ in 0..PARTS {
        let number = (sequence.below(MAX_ENTRIES as u64) % shape.entries.max(1) as u64) | 1;
        events.push(update(number, shape))?;
        events.push(Event::Delete {
            map: map(),
            key: key_of(number, shape.key_len),
        })?;
        events.push(Event::Advance)?;
        events.push(Event::Advance)?;
        events.push(Event::Reap)?;
    }
    Ok(events)
}

/// The text of the program, and how many steps of a run lead further on.
fn text_of(alloc: Global, activity: &Activity) -> Result<(String, usize)> {
    match activity.deed {
        Deed::Steps(Stepped::Lookup) if activity.shape.key_len == 8 => {
            Ok((String::from_str(alloc, LOOKUP_8)?, LOOKUP_8_MOVES))
        }
        Deed::Steps(Stepped::Lookup) => Ok((String::from_str(alloc, LOOKUP_64)?, LOOKUP_64_MOVES)),
        _ => Ok((arithmetic(alloc)?, ARITHMETIC_MOVES)),
    }
}

/// A world with one map of the shape, and a program that is bound to it.
pub fn world_of(alloc: Global, shape: MapShape, text: &str) -> Result<World> {
    let verified = verify(alloc, program_of(alloc, text)?, &[shape], 0)?;
    let mut maps = ArrayVec::new();
    maps.push(0);
    let mut programs = Vec::new(alloc);
    programs.push(Loaded { verified, maps })?;
    let mut registry = Registry::new(alloc);
    registry.create("m", shape)?;
    Ok(World::new(alloc, registry, programs)?)
}

/// Stores an element under every other number, from 0.
fn fill(world: &mut World, shape: &MapShape) -> Result<()> {
    for half in 0..shape.entries / 2 {
        match world.apply(&update(2 * half as u64, shape)) {
            Answer::Ret(Ok(())) => {}
            _ => bail!("the map is not filled"),
        }
    }
    Ok(())
}

/// The world of an activity: one map, of whose keys every other one has an element, and one program.
pub fn make_world(alloc: Global, activity: &Activity) -> Result<World> {
    let (text, _) = text_of(alloc, activity)?;
    let mut world = world_of(alloc, activity.shape, &text)?;
    fill(&mut world, &activity.shape)?;
    Ok(world)
}

/// The world of an activity, and what happens in each round.
pub fn make_setup(alloc: Global, activity: &Activity) -> Result<Setup> {
    let shape = activity.shape;
    let world = make_world(alloc, activity)?;
    let (_, moves) = text_of(alloc, activity)?;
    let (events, runs) = match activity.deed {
        Deed::Reads => (reads(alloc, &shape)?, 0),
        Deed::Cycles => (cycles(alloc, &shape)?, 0),
        Deed::Steps(Stepped::Arithmetic) => (Vec::new(alloc), 1),
        Deed::Steps(Stepped::Lookup) => (Vec::new(alloc), LOOKUPS),
    };
    let parts = if runs == 0 {
        PARTS
    } else {
        moves.saturating_add(1).saturating_mul(runs)
    };
    Ok(Setup {
        world,
        events,
        runs,
        moves,
        parts: parts as u64,
    })
}

impl Setup {
    /// Starts the runs of a round.
    pub fn begin(&mut self) {
        for _ in 0..self.runs {
            let _ = self.world.apply(&Event::Start {
                prog: ProgId::new(0),
                ctx: CtxBytes::new(),
            });
        }
    }

    /// Every step of a run, its exit the last.
    fn step_through(&mut self, run: RunId, tally: &mut Tally) {
        let step = Event::Step { run };
        let mut answer = Answer::Done;
        for _ in 0..=self.moves {
            self.world.apply_into(&step, &mut answer);
            tally.note(&answer);
        }
    }

    /// What is timed: the events of the list.
    fn answer_events(&mut self, tally: &mut Tally) {
        let mut answer = Answer::Done;
        for event in self.events.as_slice() {
            self.world.apply_into(event, &mut answer);
            tally.note(&answer);
        }
    }

    /// What is timed: the events of the list, and each step of each run.
    pub fn go(&mut self, tally: &mut Tally) {
        self.answer_events(tally);
        for run in 0..self.runs {
            self.step_through(RunId::new(run), tally);
        }
    }

    /// Drops the runs of a round.
    pub fn end(&mut self) {
        for run in 0..self.runs {
            let _ = self.world.apply(&Event::Drop {
                run: RunId::new(run),
            });
        }
    }

    /// One round, whose answers are counted further.
    pub fn round_into(&mut self, tally: &mut Tally) {
        self.begin();
        self.go(tally);
        self.end();
    }

    /// What the events of one round are answered.
    pub fn round(&mut self) -> Tally {
        let mut tally = Tally::default();
        self.round_into(&mut tally);
        tally
    }
}
