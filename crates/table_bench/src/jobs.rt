//! Jobs that the seats of a table serve.
ghost use Rattle.std.specs.Prelude.{◌<◌, ◌≤◌, All, vec_len};
ghost use Rattle.job_queue.specs.Serving.{most_threads};
ghost use Rattle.read_table.specs.declared.limits.TheConstants.{MAX_READERS};

use crate::map_stage::{full_table, map_program};
use crate::stage::{SLOTS, fill, lookup_program};
use crate::task::Kind;
use anyhow::{Result, bail, ensure};
use bpf_model::{CtxBytes, ProgId};
use read_table::{MAX_READERS, ReadTable};
use shared_runs::RunsPrograms;
use shared_runs::maps::MapRuns;
use std::alloc::{AllocError, Global};
use std::rt::Clock;
use std::sync::Wait;
use std::thread::Threads;
use std::time::{Duration, Instant};
use verifier::Verified;
use worker_pool::{Job, JobReport, Outcome, run_table_jobs};

/// How many jobs a batch has. Each is a run that looks a key up and loads the value, once or again and again.
pub const JOBS: u32 = 65_536;

/// The value of the key.
const VALUE: u64 = 1;

/// A batch of jobs, each of program 0 on an empty context.
fn read_jobs(alloc: Global) -> Result<Vec<Job>, AllocError> {
    let mut jobs = Vec::new(alloc);
    for _ in 0..JOBS {
        jobs.push(Job {
            prog: ProgId::new(0),
            ctx: CtxBytes::new(),
        })?;
    }
    Ok(jobs)
}

/// Whether each job has exited with the value.
fn have_all_exited(reports: &[JobReport<()>]) -> bool {
    for report in reports {
        if report.outcome != Outcome::Exit(VALUE) {
            return false;
        }
    }
    true
}

/// The time in which these seats of a table serve the jobs.
fn time_of_jobs<T: RunsPrograms + Sync, R: Threads + Wait + Clock + Sync>(
    rt: &R,
    alloc: Global,
    programs: &[Verified],
    jobs: &[Job],
    table: &T,
    seats: &mut Vec<T::Seat>,
) -> Result<Duration>
    requires some { 0 < vec_len seats.old }
    requires few { vec_len seats.old ≤ most_threads }
    requires ready { All (T.IsReady table.now) seats.old.items }
    requires fit { All (λ c. T.Fits table.now c.shapes) programs.now }
{
    let start = Instant::now(rt)?;
    match run_table_jobs(rt, alloc, programs, jobs, table, seats) {
        Ok(report) => {
            let time = start.elapsed(rt)?;
            ensure!(
                have_all_exited(&report.jobs),
                "a job has not exited as it should"
            );
            Ok(time)
        }
        Err(fault) => bail!("{fault}"),
    }
}

/// The time in which so many seats of a `ReadTable` serve the jobs, of so many lookups each.
fn time_of_read_jobs<R: Threads + Wait + Clock + Sync>(
    rt: &R,
    alloc: Global,
    jobs: &[Job],
    seats: usize,
    lookups: u32,
) -> Result<Duration>
    requires { (0 < seats) × (seats ≤ MAX_READERS) }
{
    let (table, mut seats, mut writer) = ReadTable::new(alloc, SLOTS, 8, 8, seats)?;
    fill(&table, &mut writer)?;
    let programs = [lookup_program(alloc, &table, lookups)?];
    time_of_jobs(rt, alloc, &programs, jobs, &table, &mut seats.list)
}

/// The same of a `MapTable`.
fn time_of_map_jobs<R: Threads + Wait + Clock + Sync>(
    rt: &R,
    alloc: Global,
    jobs: &[Job],
    seats: usize,
    lookups: u32,
) -> Result<Duration>
    requires { (0 < seats) × (seats ≤ MAX_READERS) }
{
    let (table, mut seats, _writer) = full_table(alloc, seats)?;
    let programs = [map_program(alloc, &table, lookups)?];
    let runs = MapRuns { table: &table };
    time_of_jobs(rt, alloc, &programs, jobs, &runs, &mut seats.list)
}

/// The time of the quickest of so many batches, of `JOBS` jobs of so many lookups each.
pub fn time_of_job_batch<R: Threads + Wait + Clock + Sync>(
    rt: &R,
    alloc: Global,
    kind: Kind,
    seats: usize,
    lookups: u32,
    batches: u32,
) -> Result<Duration> {
    ensure!(seats >= 1 && seats <= MAX_READERS, "no such seats");
    let jobs = read_jobs(alloc)?;
    let mut best = Duration::MAX;
    for _ in 0..batches {
        let time = match kind {
            Kind::Read => time_of_read_jobs(rt, alloc, &jobs, seats, lookups)?,
            Kind::Map => time_of_map_jobs(rt, alloc, &jobs, seats, lookups)?,
        };
        best = best.min(time);
    }
    Ok(best)
}
