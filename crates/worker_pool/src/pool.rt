//! All jobs, by as many workers as the caller says.
ghost use Rattle.std.specs.Prelude.{◌≡◌, ◌⊎◌, ◌<◌, ◌≤◌, length, vec_len, Err, IsOk, IfOk};
ghost use Rattle.std.specs.List.{AllZip};
ghost use Rattle.job_queue.specs.declared.fault.PoolFault.{PoolFault};
ghost use Rattle.job_queue.specs.declared.fault.PoolFault.TheVariants as faults;
ghost use Rattle.job_queue.specs.Serving.{AreServed, most_jobs};
ghost use Rattle.job_queue.specs.Turns.{AreSharedOut};
ghost use Rattle.worker_pool.specs.Outcomes.{AreBadWorkers};
ghost use Rattle.worker_pool.specs.Trails.{IsLater, IsServedJob, IsServedOnce};

use crate::job::{Job, Report, Trail};
use crate::pooled::Pooled;
use job_queue::{PoolFault, serve_all};
use shared::{MAX_WORKERS, Shared, Workers};
use std::alloc::Global;
use std::sync::Wait;
use std::sync::ledger::Ledger;
use std::thread::Threads;

/// A law: workers who have served nothing are later than themselves.
fn unchanged<L: Ledger>(workers: &Workers<L>)
    ensures { AllZip IsLater workers.now workers.now }
{}

/// Serves all jobs from a shared world by the last of its workers, each in a thread of its own: one outcome a
/// job, in job order. The workers come back whatever the answer, in their order.
///
/// Errors: the first of these that holds.
/// - `BadWorkers`: `threads` is not 1 to `MAX_WORKERS`, or more than there are workers. Nothing was done.
/// - `TooManyJobs`: there are more than `MAX_JOBS`. Nothing was done.
/// - `Memory`: there is none for the results. The entries that workers made stay in the journal then, and a run
///   of a job may stay in the world.
///
/// All of a job is done under the lock, which is taken once. That it returns is not claimed: each job waits for the lock.
pub fn run_jobs<L: Ledger + Send + Sync, R: Threads + Wait + Sync>(
    rt: &R,
    alloc: Global,
    jobs: &[Job],
    threads: usize,
    shared: &Shared<L>,
    workers: &mut Workers<L>,
) -> Result<Report<Trail<L>>, PoolFault>
    ensures bad_workers { AreBadWorkers threads (length workers.old) →
        result ≡ Err faults.BadWorkers }
    ensures too_many_jobs { (AreBadWorkers threads (length workers.old) → ⊥)
        → most_jobs < length jobs.now → result ≡ Err faults.TooManyJobs }
    ensures served { (AreBadWorkers threads (length workers.old) → ⊥)
        → length jobs.now ≤ most_jobs
        → IsOk result ⊎ (result ≡ Err faults.Memory) }
    ensures refused { AreBadWorkers threads (length workers.old) ⊎ (most_jobs < length jobs.now)
        → workers.new ≡ workers.old }
    ensures later { AllZip IsLater workers.old workers.new }
    ensures count { IfOk result (λ report. vec_len report.jobs ≡ length jobs.now) }
    ensures each { IfOk result (λ report. AreServed (IsServedJob shared.now) jobs.now
        workers.old workers.new report.jobs.items) }

    // Each job is served once, and workers entered nothing else. What each entered is the trails of its jobs, one behind
    // another: each entry is in the trail of its job.
    ensures shared_out { IfOk result (λ report. AreSharedOut (IsServedOnce shared.now) jobs.now
        workers.old workers.new report.jobs.items) }
{
    unchanged(workers);
    if threads > MAX_WORKERS as usize {
        return Err(PoolFault::BadWorkers);
    }
    let pooled = Pooled { shared };
    match serve_all(rt, alloc, &pooled, jobs, threads, &mut workers.list) {
        Ok(jobs) => Ok(Report { jobs }),
        Err(fault) => Err(fault),
    }
}
