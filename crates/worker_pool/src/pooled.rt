//! One worker serves one job.
ghost use Rattle.std.specs.Prelude.{◌≡◌, ◌≢◌, Ok, Some, IfOk};
ghost use Rattle.shared_books.specs.Books.{WorkerView};
ghost use Rattle.bpf_model.specs.declared.event.Event.TheVariants.{Start, Step};
ghost use Rattle.bpf_model.specs.declared.event.Answer.TheVariants.{Moved};
ghost use Rattle.shared_books.specs.Receipts.{IsMachineAnswer};
ghost use Rattle.worker_pool.specs.Trails.{IsLater, IsByWorker, IsStretchBy, WasStarted, IsOfWorker, FitsJob, HasOnly, IsNext, AreNext, IsServedJob};

use crate::job::{Job, JobReport, Outcome, StopCause, Trail};
use crate::reply::{dropped, exited, has_moved, started};
use bpf_model::{Event, MAX_SLOTS, RunId, array_of};
use job_queue::Serve;
use shared::{Held, Receipt, Shared, Stretch, Worker};
use std::sync::Wait;
use std::sync::ledger::Ledger;

/// Serves jobs from a shared world.
#[derive(Drop)]
pub struct Pooled<'a, L: Ledger> {
    pub shared: &'a Shared<L>,
}

/// Steps the run until a step is answered with something else than a move: the moves, and the receipt of that step. A
/// verified program makes fewer moves than `MAX_SLOTS`, so that the step behind them is none. No clause of what is under the
/// lock says so: where it moves nevertheless, it goes on step by step. Each move is an entry of the worker, which counts its
/// entries in 64 bits, so it ends.
fn step_to_end<L: Ledger, R: Wait>(
    rt: &R,
    held: &mut Held<'_, L>,
    worker: &mut Worker<L>,
    run: RunId,
) -> (Stretch<L>, Receipt<L>)
    ensures programs { held.new ≡ held.old }
    ensures event { result.1.event ≡ Step run }
    ensures answered { IfOk result.1.reply (IsMachineAnswer (Step run)) }
    ensures count { result.1.made ≡ worker.new.made }
    ensures last { result.1.reply ≢ Ok Moved }
    ensures later { IsLater worker.old worker.new }
    ensures by { IsByWorker worker.old worker.new result.1 }
    ensures moves { IsStretchBy worker.old worker.new result.0 }
    ensures run { result.0.run ≡ run }
    ensures next { AreNext worker.old.made result.0 result.1 }
{
    let (mut moves, _) = held.run_noted(rt, worker, run, MAX_SLOTS);
    let mut step = held.act_noted(rt, worker, Event::Step { run });
    while has_moved(step.reply()) {
        moves.add_step(&step);
        held.act_again(rt, worker, &mut step);
        let _made = worker.made();
    }
    (moves, step)
}

/// The job whose start was answered with this run, to its end.
fn finish_job<L: Ledger, R: Wait>(
    rt: &R,
    held: &mut Held<'_, L>,
    worker: &mut Worker<L>,
    job: &Job,
    start: Receipt<L>,
    run: RunId,
) -> JobReport<Trail<L>>
    requires started { WasStarted job.now run start }
    requires by { IsByWorker worker.old worker.old start }
    requires count { start.made ≡ worker.old.made }
    ensures programs { held.new ≡ held.old }
    ensures later { IsLater worker.old worker.new }
    ensures by { IsOfWorker worker.old worker.new result.trail }
    ensures fits { FitsJob held.old job.now result.outcome result.trail }
    ensures only { (first : WorkerView) → IsNext first.made start →
        HasOnly first worker.new result.trail }
{
    let (moves, step) = step_to_end(rt, held, worker, run);
    if let Err(cause) = exited(step.reply(), run) {
        let run = Some(run);
        return JobReport {
            outcome: Outcome::Stopped { run, cause },
            trail: Trail::Halted { start, moves, step },
        };
    }
    let note = held.exit_noted(worker, run, job.prog, &job.ctx);
    let Some(value) = note.exit() else {
        let run = Some(run);
        let cause = StopCause::OtherRun;
        return JobReport {
            outcome: Outcome::Stopped { run, cause },
            trail: Trail::OtherRun {
                start,
                moves,
                step,
                note,
            },
        };
    };
    let end = held.act_noted(rt, worker, Event::Drop { run });
    let outcome = match dropped(end.reply(), run) {
        Ok(()) => Outcome::Exit(value),
        Err(cause) => Outcome::Stopped {
            run: Some(run),
            cause,
        },
    };
    JobReport {
        outcome,
        trail: Trail::Ended {
            start,
            moves,
            step,
            note,
            dropped: end,
        },
    }
}

/// Starts the job's program on its context, steps the run to its exit, asks for the exit value of a run of this program
/// and context, and drops the run, all under the lock that is held.
pub(crate) fn serve_held<L: Ledger, R: Wait>(
    rt: &R,
    held: &mut Held<'_, L>,
    worker: &mut Worker<L>,
    job: &Job,
) -> JobReport<Trail<L>>
    ensures programs { held.new ≡ held.old }
    ensures later { IsLater worker.old worker.new }
    ensures fits { IsServedJob held.old worker.old worker.new job.now result }
    ensures only { HasOnly worker.old worker.new result.trail }
{
    let ctx = array_of(job.ctx.as_slice());
    let event = Event::Start {
        prog: job.prog,
        ctx,
    };
    let start = held.act_noted(rt, worker, event);
    match started(start.reply(), job) {
        Ok(run) => finish_job(rt, held, worker, job, start, run),
        Err(cause) => JobReport {
            outcome: Outcome::Stopped { run: None, cause },
            trail: Trail::Unstarted { start },
        },
    }
}

impl<L: Ledger + Send + Sync> Serve for Pooled<'_, L> {
    ghost use Rattle.worker_pool.specs.Trails.{IsLater, IsServedJob, IsServedOnce};
    ghost use Rattle.worker_pool.specs.TrailLemmas.{later_same, later_again, served_wider};

    type Job = Job;

    type Worker = Worker<L>;

    type Served = JobReport<Trail<L>>;

    ghost ready = { λ s w. Unit {0} };

    ghost later = { IsLater };

    ghost fits = { λ s. IsServedJob s.shared.now };

    ghost gains = { λ s. IsServedOnce s.shared.now };

    /// Serves one job. All of it is done under the lock, which is taken once.
    fn serve<R: Wait>(&self, rt: &R, worker: &mut Worker<L>, job: &Job) -> JobReport<Trail<L>> {
        let mut held = self.shared.hold(rt);
        serve_held(rt, &mut held, worker, job)
    }

    ghost later_same = { later_same };

    ghost later_again = { later_again };

    ghost fits_wider = { λ s t u v w job served. served_wider s.shared.now t u v w job served };
}
