//! Workers that share a world, each in a thread of its own.
ghost use Rattle.std.specs.Prelude.{◌≡◌, ◌<◌, ◌≤◌};
ghost use Rattle.shared_books.specs.declared.worker.TheConstants.{MAX_WORKERS};

use crate::activity::{Activity, Deed, SMALL_ENTRIES, Stepped, small};
use crate::batch_time::{BatchTime, LONG_TASK_BATCHES};
use crate::jobs::{JOBS, time_of_jobs};
use crate::sequence::Sequence;
use crate::setup::{key_of, make_world};
use anyhow::{Result, bail, ensure};
use bpf_model::{Answer, CtxBytes, Event, KeyBytes, MapId, ProgId, RunId};
use shared::{MAX_WORKERS, Shared, Worker, Workers, is_quiet};
use std::alloc::Global;
use std::marker::Brand;
use std::rt::Clock;
use std::sync::Wait;
use std::sync::ledger::{Blank, Ledger};
use std::thread::{Threads, for_each_mut};
use std::time::{Duration, Instant};

/// What each worker asks, again and again.
#[derive(Clone, Copy)]
pub enum Task {
    /// Steps of a run of its own, which is dropped and started again when it has exited.
    Steps,
    /// The same, up to `STRETCH` steps in a call.
    Stretches,
    /// Reads of keys, of which about half are there.
    Reads,
    /// Ends of grace periods.
    Advances,
}

/// What a crew does in a batch.
#[derive(Clone, Copy)]
pub enum Batch {
    /// `CALLS` calls of each worker.
    Calls(Task),
    /// `JOBS` jobs, which the workers serve together.
    Jobs,
}

/// So many workers, and what they do.
#[derive(Clone, Copy)]
pub struct Crew {
    pub name: &'static str,
    batch: Batch,
    pub workers: u8,
}

/// How many steps a call makes at most, where it makes many.
const STRETCH: usize = 64;

/// How many calls each worker makes in a batch.
const CALLS: u32 = 50_000;

const fn callers(name: &'static str, task: Task, workers: u8) -> Crew {
    let batch = Batch::Calls(task);
    Crew {
        name,
        batch,
        workers,
    }
}

const fn pool(name: &'static str, workers: u8) -> Crew {
    let batch = Batch::Jobs;
    Crew {
        name,
        batch,
        workers,
    }
}

/// The crews that make calls, in the order in which they are printed.
pub fn crews() -> [Crew; 12] {
    [
        callers("shared_step_by_1", Task::Steps, 1),
        callers("shared_step_by_2", Task::Steps, 2),
        callers("shared_step_by_4", Task::Steps, 4),
        callers("shared_step_by_8", Task::Steps, 8),
        callers("shared_read_by_1", Task::Reads, 1),
        callers("shared_read_by_2", Task::Reads, 2),
        callers("shared_read_by_4", Task::Reads, 4),
        callers("shared_read_by_8", Task::Reads, 8),
        callers("shared_advance_by_1", Task::Advances, 1),
        callers("shared_advance_by_2", Task::Advances, 2),
        callers("shared_advance_by_4", Task::Advances, 4),
        callers("shared_advance_by_8", Task::Advances, 8),
    ]
}

/// Crews of one worker that are repeated and not timed.
pub fn further_crews() -> [Crew; 1] {
    [callers("shared_stretch_by_1", Task::Stretches, 1)]
}

/// The crews that serve jobs, in the order in which they are printed.
pub fn pools() -> [Crew; 4] {
    [
        pool("pool_job_by_1", 1),
        pool("pool_job_by_2", 2),
        pool("pool_job_by_4", 4),
        pool("pool_job_by_8", 8),
    ]
}

impl Batch {
    /// The activity whose map and program the workers share.
    fn activity(self) -> Activity {
        let stepped = match self {
            Batch::Calls(_) => Stepped::Arithmetic,
            Batch::Jobs => Stepped::Lookup,
        };
        Activity {
            name: "shared",
            deed: Deed::Steps(stepped),
            shape: small(),
        }
    }
}

impl Crew {
    /// How many calls, or jobs, a batch has.
    fn parts(&self) -> u64 {
        match self.batch {
            Batch::Calls(_) => u64::from(CALLS) * u64::from(self.workers),
            Batch::Jobs => u64::from(JOBS),
        }
    }
}

/// A worker's run, and whether it has exited.
#[derive(Clone, Copy)]
enum Progress {
    None,
    Going(RunId),
    Ended(RunId),
}

impl Progress {
    /// The event that comes next.
    fn step(self) -> Event {
        match self {
            Progress::None => Event::Start {
                prog: ProgId::new(0),
                ctx: CtxBytes::new(),
            },
            Progress::Going(run) => Event::Step { run },
            Progress::Ended(run) => Event::Drop { run },
        }
    }

    /// The run, where it goes on.
    fn going(self) -> Option<RunId> {
        match self {
            Progress::Going(run) => Some(run),
            _ => None,
        }
    }

    /// Where the run is after an answer.
    fn after(self, answer: &Answer) -> Progress {
        match (self, answer) {
            (_, Answer::Started(run)) => Progress::Going(*run),
            (Progress::Going(run), Answer::Exited(_)) => Progress::Ended(run),
            (Progress::Ended(_), Answer::Done) => Progress::None,
            (progress, _) => progress,
        }
    }
}

/// The read of a key.
fn read(key: KeyBytes) -> Event {
    Event::Read {
        map: MapId::new(0),
        key,
    }
}

/// What a worker goes by: its task, the keys that it reads, its run, the event that comes next, and the place of
/// the answers.
#[derive(Drop)]
struct Caller {
    task: Task,
    sequence: Sequence,
    progress: Progress,
    event: Event,
    answer: Answer,
}

impl Caller {
    fn new(task: Task) -> Caller {
        let progress = Progress::None;
        Caller {
            task,
            sequence: Sequence::new(),
            progress,
            event: match task {
                Task::Steps | Task::Stretches => progress.step(),
                Task::Reads => read(key_of(0, 8)),
                Task::Advances => Event::Advance,
            },
            answer: Answer::Done,
        }
    }

    /// Goes on to the next event. A run that has moved makes another step, which is the same event.
    fn go_on(&mut self) {
        match self.task {
            Task::Steps | Task::Stretches => {
                if !matches!(self.answer, Answer::Moved) {
                    self.progress = self.progress.after(&self.answer);
                    self.event = self.progress.step();
                }
            }
            Task::Reads => self.read_next(),
            Task::Advances => (),
        }
    }

    /// Reads another key.
    fn read_next(&mut self) {
        let next = key_of(self.sequence.below(SMALL_ENTRIES as u64), 8);
        match &mut self.event {
            Event::Read { key, .. } => *key = next,
            event => *event = read(next),
        }
    }
}

/// One call of a worker.
fn call<L: Ledger, R: Wait>(
    rt: &R,
    shared: &Shared<L>,
    worker: &mut Worker<L>,
    caller: &mut Caller,
) {
    let outcome = shared.act_into(rt, worker, &caller.event, &mut caller.answer);
    if outcome.is_ok() {
        caller.go_on();
    }
}

/// One call of a worker that makes many steps of a run, where it goes on, or another event.
fn stretch<L: Ledger, R: Wait>(
    rt: &R,
    shared: &Shared<L>,
    worker: &mut Worker<L>,
    caller: &mut Caller,
) {
    let moved = match caller.progress.going() {
        Some(run) => shared.run_for(rt, worker, run, STRETCH).moved,
        None => 0,
    };
    if moved == 0 {
        if let Ok(answer) = shared.act(rt, worker, caller.progress.step()) {
            caller.progress = caller.progress.after(&answer);
        }
    }
}

/// So many calls of a worker, each of many steps where its run goes on; where the run is then.
fn stretches<L: Ledger, R: Wait>(
    rt: &R,
    shared: &Shared<L>,
    worker: &mut Worker<L>,
    calls: u32,
) -> Progress {
    let mut caller = Caller::new(Task::Stretches);
    for _ in 0..calls {
        stretch(rt, shared, worker, &mut caller);
    }
    caller.progress
}

/// Drops a worker's run.
fn drop_run<L: Ledger, R: Wait>(
    rt: &R,
    shared: &Shared<L>,
    worker: &mut Worker<L>,
    progress: Progress,
) {
    match progress {
        Progress::None => (),
        Progress::Going(run) | Progress::Ended(run) => {
            let _ = shared.act(rt, worker, Event::Drop { run });
        }
    }
}

/// So many calls of a worker, each of one event; where its run is then.
fn calls_of<L: Ledger, R: Wait>(
    rt: &R,
    shared: &Shared<L>,
    worker: &mut Worker<L>,
    task: Task,
    calls: u32,
) -> Progress {
    let mut caller = Caller::new(task);
    for _ in 0..calls {
        call(rt, shared, worker, &mut caller);
    }
    caller.progress
}

/// So many calls of a worker.
fn work<L: Ledger, R: Wait>(
    rt: &R,
    shared: &Shared<L>,
    worker: &mut Worker<L>,
    task: Task,
    calls: u32,
) {
    let progress = match task {
        Task::Stretches => stretches(rt, shared, worker, calls),
        _ => calls_of(rt, shared, worker, task, calls),
    };
    drop_run(rt, shared, worker, progress);
}

/// The time of so many calls by each worker.
fn time_of_calls<L: Ledger + Send + Sync, R: Threads + Wait + Clock + Sync>(
    rt: &R,
    shared: &Shared<L>,
    all_workers: &mut Workers<L>,
    task: Task,
    calls: u32,
) -> Result<Duration> {
    let workers = all_workers.count();
    let start = Instant::now(rt)?;
    for_each_mut(
        rt,
        all_workers.as_mut_slice(),
        workers,
        &|_, worker: &mut Worker<L>| work(rt, shared, worker, task, calls),
    );
    Ok(start.elapsed(rt)?)
}

/// The time of a batch.
fn time_of_batch<L: Ledger + Send + Sync, R: Threads + Wait + Clock + Sync>(
    rt: &R,
    alloc: Global,
    shared: &Shared<L>,
    all_workers: &mut Workers<L>,
    batch: Batch,
) -> Result<Duration> {
    match batch {
        Batch::Calls(task) => time_of_calls(rt, shared, all_workers, task, CALLS),
        Batch::Jobs => time_of_jobs(rt, alloc, shared, all_workers),
    }
}

/// The time of the quickest of so many batches by so many workers.
fn quickest<L: Ledger + Send + Sync, R: Threads + Wait + Clock + Sync>(
    rt: &R,
    alloc: Global,
    blank: Blank,
    batch: Batch,
    workers: u8,
    batches: u32,
) -> Result<Duration>
    requires name { blank.name ≡ L.name }
    requires parts { (blank.parts ≡ L.parts) × (blank.parts ≡ workers) }
    requires workers { (0 < workers) × (workers ≤ MAX_WORKERS) }
{
    let world = make_world(alloc, &batch.activity())?;
    if !is_quiet(&world) {
        bail!("a run was left");
    }
    let (shared, mut all_workers, _) = Shared::<L>::new(alloc, world, workers, blank)?;
    let mut best = Duration::MAX;
    for _ in 0..batches {
        let time = time_of_batch(rt, alloc, &shared, &mut all_workers, batch)?;
        best = best.min(time);
    }
    Ok(best)
}

/// The time of the quickest of so many batches of a crew.
fn quickest_of<R: Threads + Wait + Clock + Sync>(
    rt: &R,
    alloc: Global,
    crew: &Crew,
    batches: u32,
) -> Result<Duration> {
    let workers = crew.workers;
    ensure!(workers >= 1 && workers <= MAX_WORKERS, "no such crew");
    let blank = Blank::new(u64::from(workers));
    quickest::<Brand, R>(rt, alloc, blank, crew.batch, workers, batches)
}

/// Times a crew: all calls, or jobs, of its quickest batch after one another.
pub fn time_crew<R: Threads + Wait + Clock + Sync>(
    rt: &R,
    alloc: Global,
    crew: &Crew,
) -> Result<BatchTime> {
    Ok(BatchTime {
        name: crew.name,
        time: quickest_of(rt, alloc, crew, LONG_TASK_BATCHES)?,
        parts: crew.parts(),
    })
}

/// A crew does so many batches. How many calls, or jobs, they have.
pub fn repeat_crew<R: Threads + Wait + Clock + Sync>(
    rt: &R,
    alloc: Global,
    crew: &Crew,
    times: u32,
) -> Result<u64> {
    quickest_of(rt, alloc, crew, times)?;
    Ok(crew.parts().saturating_mul(u64::from(times)))
}
