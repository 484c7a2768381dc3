//! Whoever serves one job.
use std::sync::Wait;

/// What serves jobs, with a worker for each thread.
pub trait Serve {
    /// One job.
    type Job: Sync;

    /// What a thread serves jobs with.
    type Worker: Send + Drop;

    /// What serving one job gives.
    type Served: Send + Drop;

    /// The worker may serve a job.
    ghost ready: { Self → Self.Worker → Type 0 };

    /// The second worker is the first one after it has served some jobs, or none.
    ghost later: { Self.Worker → Self.Worker → Type 0 };

    /// What was served is right for the job, by a worker between what it was and what it is.
    ghost fits: { Self → Self.Worker → Self.Worker → Self.Job → Self.Served → Type 0 };

    /// The worker served the job once, between what it was and what it is, and did nothing else.
    ghost gains: { Self → Self.Worker → Self.Worker → Self.Job → Self.Served → Type 0 };

    /// Serves one job by a worker that may serve it, and leaves a worker that may serve the next.
    fn serve<R: Wait>(&self, rt: &R, worker: &mut Self::Worker, job: &Self::Job) -> Self::Served
        requires { ready self.now worker.old }
        ensures ready { ready self.now worker.new }
        ensures later { later worker.old worker.new }
        ensures fits { fits self.now worker.old worker.new job.now result }
        ensures gains { gains self.now worker.old worker.new job.now result };

    /// A worker that has served nothing is later than itself.
    ghost later_same: { (w : Self.Worker) → later w w };

    /// What is later than a later worker is later.
    ghost later_again: { (u v w : Self.Worker) → later u v → later v w → later u w };

    /// What is right stays so, from an earlier beginning to a later end.
    ghost fits_wider: { (s : Self) (t u v w : Self.Worker) (job : Self.Job) (served : Self.Served)
        → later t u → later v w → fits s u v job served → fits s t w job served };
}
