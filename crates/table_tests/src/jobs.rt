//! Jobs that the seats of a table serve.
ghost use Rattle.std.specs.Prelude.{◌≡◌, ◌≤◌, All, IfOk, length};
ghost use Rattle.read_table.specs.Held.{IsReady};
ghost use Rattle.read_table.specs.Table.{table_of};
ghost use Rattle.shared_runs.specs.Words.{FitsTable};
ghost use Rattle.worker_pool.specs.Readings.{AllFit};

use crate::making::{LOAD_BYTE, LOOKUP_AND_LOAD, verified};
use bpf_model::{CtxBytes, EventRefusal, ProgId};
use read_table::{ReadTable, Seats};
use std::alloc::{AllocError, Global};
use std::sync::Wait;
use std::test::Fail;
use std::thread::Threads;
use verifier::Verified;
use worker_pool::{Job, JobReport, MAX_JOBS, Outcome, PoolFault, Report, StopCause, run_read_jobs};

/// What comes of a job: it exits with a value, or is stopped for a cause.
pub enum End {
    Exit(u64),
    BadContext,
    SubWord,
    NoProgram,
}

/// A kind of jobs: the number of a program, the length of a context of zeros, and what comes of such a job.
pub type Kind = (usize, usize, End);

/// A lookup.
const LOOKUPS: &[Kind] = &[(0, 0, End::Exit(5))];

/// A lookup, with a context that is too long, a load of a byte, without and with its context, and a program that there is
/// not.
const EACH: &[Kind] = &[
    (0, 0, End::Exit(5)),
    (0, 1, End::BadContext),
    (1, 0, End::BadContext),
    (1, 1, End::SubWord),
    (2, 1, End::NoProgram),
];

/// Kinds of jobs, how many jobs there are of these in turn, and how many are served and not as their kind says.
static POOLS: [(&[Kind], usize, Result<[usize; 2], PoolFault>); 6] = [
    (EACH, 0, Ok([0, 0])),
    (EACH, 1, Ok([1, 0])),
    (EACH, 5, Ok([5, 0])),
    (EACH, 1003, Ok([1003, 0])),
    (LOOKUPS, 3, Ok([3, 0])),
    (LOOKUPS, MAX_JOBS + 3, Err(PoolFault::TooManyJobs)),
];

/// A program of the table's lengths, verified for a context of so many bytes.
fn fitting(alloc: Global, table: &ReadTable, text: &str, ctx_len: usize) -> Result<Verified, Fail>
    requires { ctx_len ≤ 1 }
    ensures { IfOk result (λ v. FitsTable (table_of table.now.shape) v.shapes) }
{
    let program = verified(alloc, text, ctx_len)?;
    if !table.fits(&program) {
        return Err(Fail::from("the program is for other lengths"));
    }
    Ok(program)
}

/// The lookup, for an empty context, and the load of a byte, for a context of one.
fn two_programs(alloc: Global, table: &ReadTable) -> Result<[Verified; 2], Fail>
    ensures { IfOk result (λ programs. AllFit table.now.shape programs) }
{
    let lookup = fitting(alloc, table, LOOKUP_AND_LOAD, 0)?;
    let byte = fitting(alloc, table, LOAD_BYTE, 1)?;
    Ok([lookup, byte])
}

/// A job of the program of this number on a context of so many zeros.
fn job(prog: usize, ctx_len: usize) -> Job {
    let mut ctx = CtxBytes::new();
    for _ in 0..ctx_len {
        let _ = ctx.try_push(0);
    }
    Job {
        prog: ProgId::new(prog),
        ctx,
    }
}

/// So many jobs, of these kinds in turn.
pub fn jobs_of(alloc: Global, kinds: &[Kind], count: usize) -> Result<Vec<Job>, AllocError> {
    let mut jobs = Vec::new(alloc);
    for (prog, ctx_len, _) in kinds.iter().cycle().take(count) {
        jobs.push(job(*prog, *ctx_len))?;
    }
    Ok(jobs)
}

/// The outcome of a job of which this comes. No job has a run.
fn outcome_of(end: &End) -> Outcome {
    let cause = match end {
        End::Exit(value) => return Outcome::Exit(*value),
        End::BadContext => StopCause::Refused(EventRefusal::BadContext),
        End::SubWord => StopCause::SubWord,
        End::NoProgram => StopCause::Refused(EventRefusal::NoProgram),
    };
    Outcome::Stopped { run: None, cause }
}

/// How many jobs, of these kinds in turn, have not the outcome that they should have.
fn count_wrong(reports: &[JobReport<()>], kinds: &[Kind]) -> usize {
    let mut wrong = 0usize;
    for (report, (_, _, end)) in reports.iter().zip(kinds.iter().cycle()) {
        if report.outcome != outcome_of(end) {
            wrong = wrong.saturating_add(1);
        }
    }
    wrong
}

/// How many jobs were served, of these kinds in turn, and how many of them have not the outcome that they should have.
pub fn counts(
    served: Result<Report<()>, PoolFault>,
    kinds: &[Kind],
) -> Result<[usize; 2], PoolFault> {
    let report = served?;
    Ok([report.jobs.len(), count_wrong(&report.jobs, kinds)])
}

/// What comes of jobs that the two seats of a table serve.
fn serve<R: Threads + Wait + Sync>(
    rt: &R,
    alloc: Global,
    table: &ReadTable,
    seats: &mut Seats,
    jobs: &[Job],
) -> Result<Result<Report<()>, PoolFault>, Fail>
    requires two { length seats.old ≡ 2 }
    requires ready { All (IsReady table.now) seats.old }
{
    let programs = two_programs(alloc, table)?;
    Ok(run_read_jobs(rt, alloc, &programs, jobs, table, seats))
}

/// The same of a new table, in which the key of zeros has the value 5.
fn serve_from_new<R: Threads + Wait + Sync>(
    rt: &R,
    alloc: Global,
    jobs: &[Job],
) -> Result<Result<Report<()>, PoolFault>, Fail> {
    let (table, mut seats, mut writer) = ReadTable::new(alloc, 4, 8, 8, 2)?;
    let _ = writer.link(&table, &[0; 8], &[5, 0, 0, 0, 0, 0, 0, 0]);
    serve(rt, alloc, &table, &mut seats, jobs)
}

/// How many jobs are served, of so many of these kinds in turn, and how many of them wrongly.
fn counts_of<R: Threads + Wait + Sync>(
    rt: &R,
    alloc: Global,
    kinds: &[Kind],
    count: usize,
) -> Result<Result<[usize; 2], PoolFault>, Fail> {
    let jobs = jobs_of(alloc, kinds, count)?;
    let served = serve_from_new(rt, alloc, &jobs)?;
    Ok(counts(served, kinds))
}

/// One outcome a job, in job order, whatever the number of jobs, with each cause for which a job is stopped. No job of too
/// many is served.
#[test]
fn each_job_has_its_outcome(rt: HostRuntime) -> Result<(), Fail> {
    assert!(rt; PoolFault::TooManyJobs.code() == 91);
    for (kinds, count, wanted) in &POOLS {
        let found = counts_of(&rt, rt.alloc(), kinds, *count)?;
        assert!(rt; found == *wanted, "{count} jobs");
    }
    Ok(())
}
