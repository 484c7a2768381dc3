//! Jobs, and what came of them.
ghost use Rattle.std.specs.Prelude.{◌≡◌, IfOk};
ghost use Rattle.worker_pool.specs.Outcomes.{contexts_of, AreJobsOn};

use bpf_model::{CtxBytes, EventRefusal, ProgId, RunId, array_of};
use shared::{ExitNote, Receipt, SharedFault, Stretch};
use std::alloc::{AllocError, Global};
use std::sync::ledger::Ledger;

/// A program that is to run on a context.
#[derive(Debug, Drop)]
pub struct Job {
    pub prog: ProgId,
    pub ctx: CtxBytes,
}

/// Jobs of program 0 on these contexts, in their order. Fails where memory runs out.
pub(crate) fn jobs_on(alloc: Global, contexts: &[CtxBytes]) -> Result<Vec<Job>, AllocError>
    ensures { IfOk result (λ v. AreJobsOn (contexts_of contexts.now) v.items) }
{
    let mut jobs = Vec::with_capacity(alloc, contexts.len())?;
    for index in 0..contexts.len() {
        jobs.push_reserved(Job {
            prog: ProgId::new(0),
            ctx: array_of(contexts[index].as_slice()),
        });
    }
    Ok(jobs)
}

/// Why a job has no exit value.
#[derive(Clone, Copy, Debug, PartialEq, Eq)]
pub enum StopCause {
    /// An event of the job was refused.
    Refused(EventRefusal),
    /// An event of the job was not applied.
    Fault(SharedFault),
    /// The run slot has no ended run of the job's program and context. A job keeps the lock from its start to its
    /// drop, so that nobody drops its run; no clause says so.
    OtherRun,
    /// The job's program accesses an element by a width that the table does not serve, or changes a map. A `ReadTable`
    /// serves 8 bytes alone, a `MapTable` shorter loads, too.
    SubWord,
}

/// What came of one job.
#[derive(Clone, Copy, Debug, PartialEq, Eq)]
pub enum Outcome {
    /// The run has exited with this value. In a world it was dropped, too.
    Exit(u64),
    /// No exit value. The job's run, where it has one, stays in the world.
    Stopped {
        run: Option<RunId>,
        cause: StopCause,
    },
}

/// What one worker entered for a job: its start, its moves, its last step and its drop, as far as the job came. The moves
/// are one stretch, and each other call has a receipt. The outcome rests on these and on the note of the exit value.
#[derive(Drop)]
pub enum Trail<L: Ledger> {
    /// The start was refused, or not applied.
    Unstarted {
        start: Receipt<L>,
    },
    /// The last step was refused, or not applied.
    Halted {
        start: Receipt<L>,
        moves: Stretch<L>,
        step: Receipt<L>,
    },
    /// The last step was answered with an exit, but the note has no exit value.
    OtherRun {
        start: Receipt<L>,
        moves: Stretch<L>,
        step: Receipt<L>,
        note: ExitNote<L>,
    },
    /// The run has exited, and its drop was answered.
    Ended {
        start: Receipt<L>,
        moves: Stretch<L>,
        step: Receipt<L>,
        note: ExitNote<L>,
        dropped: Receipt<L>,
    },
}

/// The outcome of one job, with its trail.
#[derive(Debug, Drop)]
pub struct JobReport<T> {
    pub outcome: Outcome,
    pub trail: T,
}

/// One outcome for each job, in job order.
#[derive(Debug, Drop)]
pub struct Report<T> {
    pub jobs: Vec<JobReport<T>>,
}

impl StopCause {
    ghost use Rattle.worker_pool.specs.Numbers.{stop_cause_number};

    /// The number by which the cause is known: that of the refusal (60 to 67) or of the fault (70, or 13 for
    /// want of memory), 93, or 80.
    pub fn code(self) -> u8
        ensures { result ≡ stop_cause_number self }
    {
        match self {
            StopCause::Refused(refusal) => refusal.code(),
            StopCause::Fault(fault) => fault.code(),
            StopCause::OtherRun => 93,
            StopCause::SubWord => 80,
        }
    }
}
