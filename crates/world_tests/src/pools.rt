//! Pools of workers that serve jobs from a shared world: their outcomes, the entries that they make, and pools that are refused.
ghost use Rattle.std.specs.Prelude.{◌≡◌};

use crate::journals::are_entries;
use crate::scenes::{DROPPED, EXITED, MOVED, STARTED};
use crate::sharing::{event, scenery, shared_of};
use bpf_model::{CtxBytes, EventRefusal, ProgId};
use shared::{Receipt, Shared, SharedFault, Workers};
use std::alloc::{AllocError, Global};
use std::marker::Brand;
use std::process::Abort;
use std::sync::Wait;
use std::sync::ledger::{Blank, Ledger};
use std::test::Fail;
use std::thread::Threads;
use worker_pool::{Job, MAX_JOBS, Outcome, Report, StopCause, Trail, run_jobs};

/// A call of a pool: so many jobs, of these programs and contexts in turn, by so many threads; and their outcomes in turn,
/// or the code of the fault with which it ends.
struct Call {
    threads: usize,
    jobs: &'static [(usize, &'static [u8])],
    count: usize,
    end: Result<&'static [&'static str], u8>,
}

/// A shared world in which the key 0 has the value 5, with a journal of so many entries, if it is said how many. It is made
/// so often, with so many workers. After the calls the journal has so many entries, of which these are the first.
#[derive(Clone, Copy)]
struct Pool {
    rounds: u8,
    workers: u8,
    limit: Option<usize>,
    calls: &'static [Call],
    made: usize,
    entries: &'static [&'static str],
}

/// A thousand jobs of two steps each: a start, two steps and a drop are four entries.
const ONES: Pool = Pool {
    rounds: 1,
    workers: 3,
    limit: None,
    calls: &[Call {
        threads: 3,
        jobs: &[(0, &[])],
        count: 1000,
        end: Ok(&["Exit(1)"]),
    }],
    made: 4000,
    entries: &[],
};

/// Lookups of a key that is there (12 steps) and of one that isn't (11), a hundred of each, twenty times.
const LOOKUPS: Pool = Pool {
    rounds: 20,
    workers: 8,
    limit: None,
    calls: &[Call {
        threads: 8,
        jobs: &[(1, &[]), (2, &[])],
        count: 200,
        end: Ok(&["Exit(5)", "Exit(0)"]),
    }],
    made: 2700,
    entries: &[],
};

/// Of three jobs of four events, the third starts and moves, finds no entry left for its exit, and is stopped.
const FILLED: Pool = Pool {
    rounds: 1,
    workers: 1,
    limit: Some(10),
    calls: &[Call {
        threads: 1,
        jobs: &[(0, &[])],
        count: 3,
        end: Ok(&[
            "Exit(1)",
            "Exit(1)",
            "Stopped { run: Some(RunId { number: 0 }), cause: Fault(JournalFull) }",
        ]),
    }],
    made: 10,
    entries: &[
        STARTED, MOVED, EXITED, DROPPED, STARTED, MOVED, EXITED, DROPPED, STARTED, MOVED, "None",
    ],
};

/// A job of two steps on a context of a byte, and none of a program that is not there or a context of another length.
const STOPPED: &[(usize, &[u8])] = &[(9, &[]), (0, &[7]), (3, &[7])];

/// Jobs that stop, each for its cause, numbers of threads that are none, too many jobs, and no jobs. In the journal are two
/// starts that are refused, and a job of two steps.
const REFUSED: Pool = Pool {
    rounds: 1,
    workers: 2,
    limit: None,
    calls: &[
        Call {
            threads: 2,
            jobs: STOPPED,
            count: 3,
            end: Ok(&[
                "Stopped { run: None, cause: Refused(NoProgram) }",
                "Stopped { run: None, cause: Refused(BadContext) }",
                "Exit(7)",
            ]),
        },
        Call {
            threads: 0,
            jobs: STOPPED,
            count: 3,
            end: Err(90),
        },
        Call {
            threads: 3,
            jobs: STOPPED,
            count: 3,
            end: Err(90),
        },
        Call {
            threads: 9,
            jobs: STOPPED,
            count: 3,
            end: Err(90),
        },
        Call {
            threads: 1,
            jobs: &[(0, &[])],
            count: MAX_JOBS + 1,
            end: Err(91),
        },
        Call {
            threads: 1,
            jobs: &[],
            count: 0,
            end: Ok(&[]),
        },
    ],
    made: 6,
    entries: &[],
};

/// A job of this program on a context of these bytes.
fn job(prog: usize, bytes: &[u8]) -> Job {
    let mut ctx = CtxBytes::new();
    let _ = ctx.try_extend_from_slice(bytes);
    Job {
        prog: ProgId::new(prog),
        ctx,
    }
}

/// The jobs of a call.
fn jobs_of(alloc: Global, call: &Call) -> Result<Vec<Job>, AllocError> {
    let mut jobs = Vec::new(alloc);
    for (prog, bytes) in call.jobs.iter().cycle().take(call.count) {
        jobs.push(job(*prog, bytes))?;
    }
    Ok(jobs)
}

/// The outcomes of a report are these in turn.
fn come_out<T, R: Abort>(
    rt: &R,
    alloc: Global,
    report: &Report<T>,
    outcomes: &[&str],
) -> Result<(), AllocError> {
    for (job, outcome) in report.jobs.iter().zip(outcomes.iter().cycle()) {
        let text = format!(in alloc; "{:?}", job.outcome)?;
        assert_eq!(rt; text.as_str(), *outcome);
    }
    Ok(())
}

/// Whether a call was answered, and so entered, as a number.
fn entry_of<L: Ledger>(receipt: &Receipt<L>) -> u64 {
    u64::from(receipt.reply().is_ok())
}

/// How many entries a trail has.
fn entries_of<L: Ledger>(trail: &Trail<L>) -> u64 {
    match trail {
        Trail::Unstarted { start } => entry_of(start),
        Trail::Halted { start, moves, step } => entry_of(start)
            .saturating_add(moves.moved())
            .saturating_add(entry_of(step)),
        Trail::OtherRun {
            start,
            moves,
            step,
            note: _,
        } => entry_of(start)
            .saturating_add(moves.moved())
            .saturating_add(entry_of(step)),
        Trail::Ended {
            start,
            moves,
            step,
            note: _,
            dropped,
        } => entry_of(start)
            .saturating_add(moves.moved())
            .saturating_add(entry_of(step))
            .saturating_add(entry_of(dropped)),
    }
}

/// How many entries the trails of a report have.
fn entries_in<L: Ledger>(report: &Report<Trail<L>>) -> u64 {
    let mut sum = 0u64;
    for job in &report.jobs {
        sum = sum.saturating_add(entries_of(&job.trail));
    }
    sum
}

/// A call ends as it says, and workers have entered what stands in the trails.
fn serve<L: Ledger + Send + Sync, R: Threads + Wait + Abort + Sync>(
    rt: &R,
    alloc: Global,
    shared: &Shared<L>,
    workers: &mut Workers<L>,
    call: &Call,
) -> Result<(), AllocError> {
    let jobs = jobs_of(alloc, call)?;
    assert_eq!(rt; jobs.len(), call.count);
    let before = made_by(workers);
    match run_jobs(rt, alloc, &jobs, call.threads, shared, workers) {
        Ok(report) => {
            assert_eq!(rt; report.jobs.len(), call.count);
            let entered = made_by(workers).saturating_sub(before);
            assert_eq!(rt; entries_in(&report), entered);
            come_out(rt, alloc, &report, call.end.expect(rt, "outcomes"))
        }
        Err(fault) => {
            assert_eq!(rt; Some(fault.code()), call.end.err());
            Ok(())
        }
    }
}

/// How many entries the workers have made.
pub fn made_by<L: Ledger>(workers: &Workers<L>) -> u64 {
    let mut sum = 0u64;
    for worker in &workers.list {
        sum = sum.saturating_add(worker.made());
    }
    sum
}

/// Shares a world, and makes the calls of a pool.
fn run_pool<L: Ledger + Send + Sync, R: Threads + Wait + Abort + Sync>(
    rt: &R,
    alloc: Global,
    blank: Blank,
    pool: &Pool,
) -> Result<(), Fail>
    requires name { blank.name ≡ L.name }
    requires parts { (blank.parts ≡ L.parts) × (blank.parts ≡ pool.now.workers) }
{
    let mut world = scenery(alloc)?;
    world.apply(&event(rt, alloc, "put 0 00000000 0500000000000000 0")?);
    let (shared, mut workers, _) = shared_of::<L, R>(
        rt,
        alloc,
        world,
        blank,
        pool.workers,
        pool.limit,
    )?;
    for call in pool.calls {
        serve(rt, alloc, &shared, &mut workers, call)?;
    }
    let made = made_by(&workers);
    let finished = shared.finish(workers);
    assert_eq!(rt;
        (made, finished.before, finished.journal.len()),
        (pool.made as u64, 0, pool.made)
    );
    are_entries(rt, alloc, &finished.journal, pool.entries)?;
    Ok(())
}

#[test]
fn pools_serve_jobs(rt: HostRuntime) -> Result<(), Fail> {
    for pool in [ONES, LOOKUPS, FILLED, REFUSED] {
        for _ in 0..pool.rounds {
            run_pool::<Brand, _>(&rt, rt.alloc(), Blank::new(u64::from(pool.workers)), &pool)?;
        }
    }
    let full = StopCause::Fault(SharedFault::JournalFull);
    let causes = [
        StopCause::Refused(EventRefusal::NoProgram),
        StopCause::Refused(EventRefusal::BadContext),
        full,
    ];
    for (cause, code) in causes.into_iter().zip([62, 63, 70]) {
        assert_eq!(rt; cause.code(), code);
    }
    Ok(())
}

/// How many jobs count in one element.
const COUNTING: usize = 400;

/// Whether each number from 1 to that of the jobs is the exit value of one.
fn are_counted<T>(alloc: Global, report: &Report<T>) -> Result<bool, AllocError> {
    let mut seen = vec![in alloc; false; COUNTING + 1]?;
    for job in &report.jobs {
        if let Outcome::Exit(number) = job.outcome {
            if let Some(mark) = seen.get_mut(number as usize) {
                *mark = true;
            }
        }
    }
    Ok(seen.iter().skip(1).all(|mark| *mark))
}

/// Eight workers at once add 1 to one element for each job, and lose none.
fn count_together<L: Ledger + Send + Sync, R: Threads + Wait + Abort + Sync>(
    rt: &R,
    alloc: Global,
    blank: Blank,
) -> Result<(), Fail>
    requires name { blank.name ≡ L.name }
    requires parts { (blank.parts ≡ L.parts) × (blank.parts ≡ 8) }
{
    let mut world = scenery(alloc)?;
    world.apply(&event(rt, alloc, "put 0 00000000 0000000000000000 0")?);
    let (shared, mut workers, _) = shared_of::<L, R>(rt, alloc, world, blank, 8, None)?;
    let mut jobs = Vec::new(alloc);
    for _ in 0..COUNTING {
        jobs.push(job(5, &[0]))?;
    }
    let report = run_jobs(rt, alloc, &jobs, 8, &shared, &mut workers).expect(rt, "a report");
    assert!(rt; are_counted(alloc, &report)?);
    Ok(())
}

#[test]
fn no_count_is_lost(rt: HostRuntime) -> Result<(), Fail> {
    count_together::<Brand, _>(&rt, rt.alloc(), Blank::new(8))
}
