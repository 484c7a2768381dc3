//! Jobs that are served from a table, with no lock round an instruction.
ghost use Rattle.std.specs.Prelude.{◌≡◌, ◌⊎◌, ◌<◌, ◌≤◌, All, None, length, vec_len, Err, IsOk, IfOk};
ghost use Rattle.std.specs.List.{AllZip};
ghost use Rattle.job_queue.specs.declared.fault.PoolFault.{PoolFault};
ghost use Rattle.job_queue.specs.declared.fault.PoolFault.TheVariants as faults;
ghost use Rattle.job_queue.specs.Serving.{AreServed, most_jobs, most_threads};
ghost use Rattle.job_queue.specs.Turns.{AreSharedOut};
ghost use Rattle.read_table.specs.Held.{IsReady};
ghost use Rattle.shared_books.specs.Books.{most_workers};
ghost use Rattle.worker_pool.specs.Readings.{AllFit, GainsReadJob, HasGained, IsReadJob};
ghost use Rattle.worker_pool.specs.TableJobs.{GainsJob, HasGrown, IsTableJob};

use crate::job::{Job, JobReport, Outcome, Report, StopCause};
use bpf_model::EventRefusal;
use job_queue::{PoolFault, Serve, serve_all};
use read_table::{ReadTable, Seats};
use shared_runs::{RunsPrograms, SubWord};
use std::alloc::Global;
use std::sync::Wait;
use std::thread::Threads;
use verifier::Verified;

/// Serves jobs by runs over a table, of these programs. Each seat serves in a thread of its own.
#[derive(Drop)]
pub struct Reading<'a, T> {
    pub table: &'a T,
    pub programs: &'a [Verified],
}

/// The report of a job that was not begun.
fn unbegun(cause: StopCause) -> JobReport<()>
    ensures { result.outcome ≡ Outcome.Stopped None cause }
{
    JobReport {
        outcome: Outcome::Stopped { run: None, cause },
        trail: (),
    }
}

impl<T: RunsPrograms> Serve for Reading<'_, T> {
    ghost use Rattle.std.specs.Prelude.{All};
    ghost use Rattle.worker_pool.specs.TableJobs.{GainsJob, HasGrown, IsTableJob};
    ghost use Rattle.worker_pool.specs.ReadingLemmas.{grown_same, grown_again, job_wider};

    type Job = Job;

    type Worker = T::Seat;

    type Served = JobReport<()>;

    ghost ready = { λ s w. T.IsReady s.table.now w × All (λ c. T.Fits s.table.now c.shapes) s.programs.now };

    ghost later = { HasGrown T.mine T.name };

    ghost fits = { λ s. IsTableJob T.mine T.name (T.IsRun s.table.now) T.Refuses s.programs.now };

    ghost gains = { λ s. GainsJob T.mine T.name (T.IsRun s.table.now) s.programs.now };

    /// Runs the job's program on its context over the table.
    fn serve<R: Wait>(&self, _rt: &R, seat: &mut T::Seat, job: &Job) -> JobReport<()> {
        let Some(verified) = self.programs.get(job.prog.index()) else {
            return unbegun(StopCause::Refused(EventRefusal::NoProgram));
        };
        if job.ctx.len() != verified.ctx_len() {
            return unbegun(StopCause::Refused(EventRefusal::BadContext));
        }
        match self.table.run(seat, verified, &job.ctx) {
            Ok(value) => JobReport {
                outcome: Outcome::Exit(value),
                trail: (),
            },
            Err(SubWord) => unbegun(StopCause::SubWord),
        }
    }

    ghost later_same = { grown_same T.mine T.name };

    ghost later_again = { grown_again T.mine T.name };

    ghost fits_wider = { λ s. job_wider T.mine T.name (T.IsRun s.table.now) T.Refuses s.programs.now };
}

/// Serves all jobs by runs of these programs over a table, a thread for each seat, of which there are 1 to `MAX_THREADS`: one
/// outcome a job, in job order. The seats come back whatever the answer, in their order.
///
/// A job is stopped where there is no program of its number (`NoProgram`), where its context has another length
/// (`BadContext`), or where words don't serve its program (`SubWord`), in this order; else it has exited.
///
/// Errors: the first of these that holds.
/// - `TooManyJobs`: there are more than `MAX_JOBS`. Nothing was done.
/// - `Memory`: there is none for the queue or the results. Some jobs may have been served, and what they stored stays.
///
/// That it returns is not claimed: its threads take numbers from one queue, and may wait there for one another.
pub fn run_table_jobs<T: RunsPrograms + Sync, R: Threads + Wait + Sync>(
    rt: &R,
    alloc: Global,
    programs: &[Verified],
    jobs: &[Job],
    table: &T,
    seats: &mut Vec<T::Seat>,
) -> Result<Report<()>, PoolFault>
    requires some { 0 < vec_len seats.old }
    requires few { vec_len seats.old ≤ most_threads }
    requires ready { All (T.IsReady table.now) seats.old.items }
    requires fit { All (λ c. T.Fits table.now c.shapes) programs.now }
    ensures too_many_jobs { most_jobs < length jobs.now → result ≡ Err faults.TooManyJobs }
    ensures served { length jobs.now ≤ most_jobs →
        IsOk result ⊎ (result ≡ Err faults.Memory) }
    ensures refused { most_jobs < length jobs.now → seats.new ≡ seats.old }
    ensures ready { All (T.IsReady table.now) seats.new.items }
    ensures later { AllZip (HasGrown T.mine T.name) seats.old.items seats.new.items }
    ensures count { IfOk result (λ report. vec_len report.jobs ≡ length jobs.now) }
    ensures each { IfOk result (λ report. AreServed (IsTableJob T.mine T.name (T.IsRun table.now) T.Refuses programs.now)
        jobs.now seats.old.items seats.new.items report.jobs.items) }

    // No job is counted twice, and none is left out: what each seat's list gained is the moves of its jobs, one behind another.
    ensures shared_out { IfOk result (λ report. AreSharedOut (GainsJob T.mine T.name (T.IsRun table.now) programs.now)
        jobs.now seats.old.items seats.new.items report.jobs.items) }
{
    let reading = Reading { table, programs };
    let threads = seats.len();
    match serve_all(rt, alloc, &reading, jobs, threads, seats) {
        Ok(jobs) => Ok(Report { jobs }),
        Err(fault) => Err(fault),
    }
}

/// `run_table_jobs` over a `ReadTable`.
///
/// Errors: the same.
pub fn run_read_jobs<R: Threads + Wait + Sync>(
    rt: &R,
    alloc: Global,
    programs: &[Verified],
    jobs: &[Job],
    table: &ReadTable,
    seats: &mut Seats,
) -> Result<Report<()>, PoolFault>
    requires some { 0 < length seats.old }
    requires few { length seats.old ≤ most_workers }
    requires ready { All (IsReady table.now) seats.old }
    requires fit { AllFit table.now.shape programs.now }
    ensures too_many_jobs { most_jobs < length jobs.now → result ≡ Err faults.TooManyJobs }
    ensures served { length jobs.now ≤ most_jobs →
        IsOk result ⊎ (result ≡ Err faults.Memory) }
    ensures refused { most_jobs < length jobs.now → seats.new ≡ seats.old }
    ensures ready { All (IsReady table.now) seats.new }
    ensures later { AllZip HasGained seats.old seats.new }
    ensures count { IfOk result (λ report. vec_len report.jobs ≡ length jobs.now) }
    ensures each { IfOk result (λ report. AreServed (IsReadJob table.now.shape programs.now) jobs.now
        seats.old seats.new report.jobs.items) }
    ensures shared_out { IfOk result (λ report. AreSharedOut (GainsReadJob table.now.shape programs.now) jobs.now
        seats.old seats.new report.jobs.items) }
{
    run_table_jobs(rt, alloc, programs, jobs, table, &mut seats.list)
}
