//! One round.
ghost use Rattle.std.specs.Prelude.{◌≡◌};

use crate::mixing::Mixer;
use crate::replaying::{end_runs, replay};
use anyhow::{Result, ensure};
use bpf_model::{Answer, Event};
use shared::{Finished, Shared, Worker, Workers, is_quiet};
use std::alloc::Global;
use std::sync::Wait;
use std::sync::atomic::{AtomicU64, Ordering};
use std::sync::ledger::{Blank, Ledger};
use std::thread::{Threads, for_each_mut};
use world::World;

/// What all rounds came to.
#[derive(Clone, Copy)]
pub struct Tally {
    pub entries: u64,
    pub cuts: u64,
    pub worn: u64,
}

impl Tally {
    /// Nothing yet.
    pub fn new() -> Tally {
        Tally {
            entries: 0,
            cuts: 0,
            worn: 0,
        }
    }
}

/// How many of a worker's calls there are before it tries to cut the journal.
const CALLS_BEFORE_CUT: u32 = 64;

/// Whether the worker tries to cut the journal at this turn: the first one, in every other round. In the others the whole
/// round is replayed.
fn tries_to_cut(worker: u8, round: u32, turn: u32) -> bool {
    worker == 0 && round % 2 == 1 && turn % CALLS_BEFORE_CUT == 0
}

/// Makes one event, and lets its answer go.
fn act<L: Ledger, R: Wait>(rt: &R, shared: &Shared<L>, worker: &mut Worker<L>, event: &Event) {
    let mut answer = Answer::Done;
    let _ = shared.act_into(rt, worker, event, &mut answer);
}

/// A worker's calls, and cuts of the journal, which are counted where they are made.
fn work<L: Ledger, R: Wait>(
    rt: &R,
    alloc: Global,
    shared: &Shared<L>,
    worker: &mut Worker<L>,
    round: u32,
    calls: u32,
    cuts: &AtomicU64,
) {
    let mut mixer = Mixer::new(worker.number(), round);
    for turn in 0..calls {
        act(rt, shared, worker, &mixer.event(turn));
        if tries_to_cut(worker.number(), round, turn) && shared.cut(rt, alloc).is_ok() {
            cuts.fetch_add(1, Ordering::SeqCst);
        }
    }
}

/// All workers' calls. How many times the journal was cut.
fn work_all<L: Ledger + Send + Sync, R: Threads + Wait + Sync>(
    rt: &R,
    alloc: Global,
    shared: &Shared<L>,
    workers: &mut Workers<L>,
    round: u32,
    calls: u32,
) -> u64 {
    let cuts = AtomicU64::new(0);
    let count = &cuts;
    for_each_mut(
        rt,
        workers.as_mut_slice(),
        8,
        &|_, worker: &mut Worker<L>| {
            work(rt, alloc, shared, worker, round, calls, count);
        },
    );
    cuts.load(Ordering::SeqCst)
}

/// A world that eight workers share.
fn shared_by_eight<L: Ledger>(
    alloc: Global,
    world: World,
    blank: Blank,
) -> Result<(Shared<L>, Workers<L>)>
    requires name { blank.name ≡ L.name }
    requires parts { (blank.parts ≡ L.parts) × (blank.parts ≡ 8) }
{
    ensure!(is_quiet(&world), "a run slot is occupied");
    let (shared, workers, _) = Shared::<L>::new(alloc, world, 8, blank)?;
    Ok((shared, workers))
}

/// How many entries the workers have made.
fn made_by<L: Ledger>(workers: &Workers<L>) -> u64 {
    let mut made = 0u64;
    for worker in &workers.list {
        made = made.saturating_add(worker.made());
    }
    made
}

/// Replays what a round leaves. Its world, without runs.
fn end_round(alloc: Global, mut finished: Finished) -> Result<World> {
    replay(alloc, &mut finished)?;
    let Finished {
        base: _,
        before: _,
        mut world,
        journal: _,
    } = finished;
    end_runs(&mut world);
    Ok(world)
}

/// Counts so many entries and cuts of a round, and the map slots that are worn out behind it.
fn count_round(tally: &mut Tally, made: u64, cuts: u64, finished: &Finished) {
    tally.entries = tally.entries.saturating_add(made);
    tally.cuts = tally.cuts.saturating_add(cuts);
    tally.worn = finished.world.stat().worn as u64;
}

/// Shares the world, lets the workers call, and replays the journal. The world comes back without runs.
pub fn go_round<L: Ledger + Send + Sync, R: Threads + Wait + Sync>(
    rt: &R,
    alloc: Global,
    blank: Blank,
    world: World,
    round: u32,
    calls: u32,
    tally: &mut Tally,
) -> Result<World>
    requires name { blank.name ≡ L.name }
    requires parts { (blank.parts ≡ L.parts) × (blank.parts ≡ 8) }
{
    let (shared, mut workers) = shared_by_eight::<L>(alloc, world, blank)?;
    let cuts = work_all(rt, alloc, &shared, &mut workers, round, calls);
    let made = made_by(&workers);
    ensure!(made == 8 * u64::from(calls), "a call has made no entry");
    let finished = shared.finish(workers);
    count_round(tally, made, cuts, &finished);
    end_round(alloc, finished)
}
