//! The calls on a shared world.
ghost use Rattle.std.specs.Prelude.{◌≡◌};

use crate::again::done;
use crate::worlds::{start, update};
use anyhow::{Result, bail, ensure};
use bpf_model::{Answer, CtxBytes, Event, ProgId, RunId};
use shared::{CutFault, Shared, SharedFault, Worker, Workers, is_quiet};
use std::alloc::Global;
use std::sync::Wait;
use std::sync::ledger::{Blank, Ledger};
use std::thread::Threads;
use worker_pool::{Job, Outcome, PoolFault, Report, run_jobs};
use world::World;

/// Which calls were made again for want of memory.
#[derive(Clone, Copy)]
pub struct MadeAgain {
    pub run_for: bool,
    pub act: bool,
    pub cut: bool,
    pub jobs: bool,
}

/// How many updates there are, and how many jobs.
pub const TIMES: usize = 100;

/// How many entries a run makes that is started, makes eleven moves and its exit, and is dropped.
const RUN_ENTRIES: usize = 14;

/// A world that two workers share.
pub fn shared_by_two<L: Ledger>(
    alloc: Global,
    world: World,
    blank: Blank,
) -> Result<(Shared<L>, Workers<L>)>
    requires name { blank.name ≡ L.name }
    requires parts { (blank.parts ≡ L.parts) × (blank.parts ≡ 2) }
{
    ensure!(is_quiet(&world), "a run slot is occupied");
    let (shared, workers, _) = Shared::<L>::new(alloc, world, 2, blank)?;
    Ok((shared, workers))
}

/// Makes one event, and lets its answer go.
fn act_into<L: Ledger, R: Wait>(
    rt: &R,
    shared: &Shared<L>,
    worker: &mut Worker<L>,
    event: &Event,
) -> Result<(), SharedFault> {
    let mut answer = Answer::Moved;
    shared.act_into(rt, worker, event, &mut answer)
}

/// Makes one event, once more where memory was refused.
fn act_once<L: Ledger, R: Wait>(
    rt: &R,
    shared: &Shared<L>,
    worker: &mut Worker<L>,
    event: Event,
) -> Result<bool> {
    match act_into(rt, shared, worker, &event) {
        Err(SharedFault::Memory) => done(act_into(rt, shared, worker, &event), true),
        answer => done(answer, false),
    }
}

/// A move of a run. A call that was refused memory has made none.
fn move_once<L: Ledger, R: Wait>(
    rt: &R,
    shared: &Shared<L>,
    worker: &mut Worker<L>,
    run: RunId,
) -> Result<bool> {
    let made = worker.made();
    let mut steps = shared.run_for(rt, worker, run, 1);
    let again = matches!(steps.end, Err(SharedFault::Memory));
    if again {
        ensure!(worker.made() == made, "an entry was made");
        steps = shared.run_for(rt, worker, run, 1);
    }
    ensure!(steps.moved == 1, "the run has not moved");
    Ok(again)
}

/// The moves of a run, one a call.
fn run_for<L: Ledger, R: Wait>(
    rt: &R,
    shared: &Shared<L>,
    worker: &mut Worker<L>,
    run: RunId,
) -> Result<bool> {
    let mut again = false;
    for _ in 3..RUN_ENTRIES {
        again |= move_once(rt, shared, worker, run)?;
    }
    Ok(again)
}

/// Makes an update. Whether it was refused memory.
pub fn is_refused<L: Ledger, R: Wait>(
    rt: &R,
    shared: &Shared<L>,
    worker: &mut Worker<L>,
    number: u8,
) -> Result<bool> {
    match shared.act(rt, worker, update(number)) {
        Err(SharedFault::Memory) => Ok(true),
        answer => done(answer, false),
    }
}

/// Makes an update. One that was refused memory has made no entry.
fn update_once<L: Ledger, R: Wait>(
    rt: &R,
    shared: &Shared<L>,
    worker: &mut Worker<L>,
) -> Result<bool> {
    let made = worker.made();
    if !is_refused(rt, shared, worker, 42)? {
        return Ok(false);
    }
    ensure!(worker.made() == made, "an entry was made");
    done(shared.act(rt, worker, update(42)), true)
}

/// Makes updates.
fn act<L: Ledger, R: Wait>(rt: &R, shared: &Shared<L>, worker: &mut Worker<L>) -> Result<bool> {
    let mut again = false;
    for _ in 0..TIMES {
        again |= update_once(rt, shared, worker)?;
    }
    Ok(again)
}

/// Cuts the journal. Whether that was refused memory.
pub fn is_cut_refused<L: Ledger, R: Wait>(
    rt: &R,
    alloc: Global,
    shared: &Shared<L>,
) -> Result<bool> {
    match shared.cut(rt, alloc) {
        Err(CutFault::Memory) => Ok(true),
        answer => done(answer, false),
    }
}

/// Cuts the journal.
fn cut<L: Ledger, R: Wait>(rt: &R, alloc: Global, shared: &Shared<L>) -> Result<bool> {
    if !is_cut_refused(rt, alloc, shared)? {
        return Ok(false);
    }
    done(shared.cut(rt, alloc), true)
}

/// Jobs of the one program.
fn jobs(alloc: Global) -> Result<Vec<Job>> {
    let mut jobs = Vec::with_capacity(alloc, TIMES)?;
    for _ in 0..TIMES {
        jobs.push(Job {
            prog: ProgId::new(0),
            ctx: CtxBytes::new(),
        })?;
    }
    Ok(jobs)
}

/// Whether each job has exited with the number under the key.
fn have_exited<T>(report: &Report<T>) -> bool {
    for served in &report.jobs {
        if served.outcome != Outcome::Exit(42) {
            return false;
        }
    }
    report.jobs.len() == TIMES
}

/// Serves jobs by two workers. Whether all have exited: where memory was refused some are stopped, or there is no report.
fn serve<L: Ledger + Send + Sync, R: Threads + Wait + Sync>(
    rt: &R,
    alloc: Global,
    jobs: &[Job],
    shared: &Shared<L>,
    workers: &mut Workers<L>,
) -> Result<bool> {
    match run_jobs(rt, alloc, jobs, 2, shared, workers) {
        Ok(report) => Ok(have_exited(&report)),
        Err(PoolFault::Memory) => Ok(false),
        Err(fault) => Err(fault.into()),
    }
}

/// Serves jobs by two workers, which all have exited.
fn serve_all<L: Ledger + Send + Sync, R: Threads + Wait + Sync>(
    rt: &R,
    alloc: Global,
    jobs: &[Job],
    shared: &Shared<L>,
    workers: &mut Workers<L>,
) -> Result<()> {
    let report = run_jobs(rt, alloc, jobs, 2, shared, workers)?;
    ensure!(have_exited(&report), "a job has not exited");
    Ok(())
}

/// Serves jobs, once more where memory was refused.
fn serve_once<L: Ledger + Send + Sync, R: Threads + Wait + Sync>(
    rt: &R,
    alloc: Global,
    shared: &Shared<L>,
    workers: &mut Workers<L>,
) -> Result<bool> {
    let jobs = jobs(alloc)?;
    let again = !serve(rt, alloc, &jobs, shared, workers)?;
    if again {
        serve_all(rt, alloc, &jobs, shared, workers)?;
    }
    Ok(again)
}

/// How many entries the workers have made.
pub fn made_by<L: Ledger>(workers: &Workers<L>) -> u64 {
    let mut sum = 0u64;
    for worker in &workers.list {
        sum = sum.saturating_add(worker.made());
    }
    sum
}

/// Whether these are the entries that were made since the cut.
fn are_those_made(entries: usize, made: u64) -> bool {
    let before = TIMES.saturating_add(RUN_ENTRIES);
    (entries as u64).saturating_add(before as u64) == made
}

/// A run of the program, and then updates: which calls were made again, of `run_for` and of `act`.
fn run_and_update<L: Ledger, R: Wait>(
    rt: &R,
    shared: &Shared<L>,
    worker: &mut Worker<L>,
) -> Result<(bool, bool)> {
    let run = RunId::new(0);
    let started = act_once(rt, shared, worker, start())?;
    let moved = run_for(rt, shared, worker, run)?;
    let ended = act_once(rt, shared, worker, Event::Step { run })?;
    let dropped = act_once(rt, shared, worker, Event::Drop { run })?;
    let updated = act(rt, shared, worker)?;
    Ok((moved, started | ended | dropped | updated))
}

/// The same by the first worker.
fn act_by_first<L: Ledger, R: Wait>(
    rt: &R,
    shared: &Shared<L>,
    workers: &mut Workers<L>,
) -> Result<(bool, bool)> {
    match workers.as_mut_slice().first_mut() {
        Some(first) => run_and_update(rt, shared, first),
        None => bail!("there is no worker"),
    }
}

/// A run, updates, a cut and jobs.
fn make_calls<L: Ledger + Send + Sync, R: Threads + Wait + Sync>(
    rt: &R,
    alloc: Global,
    shared: &Shared<L>,
    workers: &mut Workers<L>,
) -> Result<MadeAgain> {
    let (run_for, act) = act_by_first(rt, shared, workers)?;
    let cut = cut(rt, alloc, shared)?;
    let jobs = serve_once(rt, alloc, shared, workers)?;
    Ok(MadeAgain {
        run_for,
        act,
        cut,
        jobs,
    })
}

/// Shares a world: a run, updates, a cut and jobs. In the end each entry since the cut is in the journal.
pub fn share<L: Ledger + Send + Sync, R: Threads + Wait + Sync>(
    rt: &R,
    alloc: Global,
    world: World,
    blank: Blank,
) -> Result<MadeAgain>
    requires name { blank.name ≡ L.name }
    requires parts { (blank.parts ≡ L.parts) × (blank.parts ≡ 2) }
{
    let (shared, mut workers) = shared_by_two::<L>(alloc, world, blank)?;
    let again = make_calls(rt, alloc, &shared, &mut workers)?;
    let made = made_by(&workers);
    let entries = shared.finish(workers).journal.len();
    ensure!(
        are_those_made(entries, made),
        "the entries are not those that were made"
    );
    Ok(again)
}
