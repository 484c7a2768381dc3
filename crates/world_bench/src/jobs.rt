//! Jobs that the workers of a shared world serve.

use anyhow::Result;
use bpf_model::{CtxBytes, ProgId};
use shared::{Shared, Workers};
use std::alloc::{AllocError, Global};
use std::rt::Clock;
use std::sync::Wait;
use std::sync::ledger::Ledger;
use std::thread::Threads;
use std::time::{Duration, Instant};
use worker_pool::{Job, run_jobs};

/// How many jobs a batch has. Each is a lookup: a start, eleven moves, the exit and the drop.
pub const JOBS: u32 = 2000;

/// A batch of jobs, each of program 0 on an empty context.
fn world_jobs(alloc: Global) -> Result<Vec<Job>, AllocError> {
    let mut jobs = Vec::new(alloc);
    for _ in 0..JOBS {
        jobs.push(Job {
            prog: ProgId::new(0),
            ctx: CtxBytes::new(),
        })?;
    }
    Ok(jobs)
}

/// The time in which all workers serve a batch of jobs.
pub fn time_of_jobs<L: Ledger + Send + Sync, R: Threads + Wait + Clock + Sync>(
    rt: &R,
    alloc: Global,
    shared: &Shared<L>,
    all_workers: &mut Workers<L>,
) -> Result<Duration> {
    let jobs = world_jobs(alloc)?;
    let workers = all_workers.count();
    let start = Instant::now(rt)?;
    run_jobs(rt, alloc, &jobs, workers, shared, all_workers)?;
    Ok(start.elapsed(rt)?)
}
