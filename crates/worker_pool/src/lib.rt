//! Jobs that threads serve: programs that run on contexts, over a shared world or over a table without a lock.
//!
//! Each job has one outcome, in job order. In a world, by up to `MAX_WORKERS` workers at once, a job's run is started, stepped
//! to its exit and dropped. Such a job has a trail: the receipts, moves and note on which the outcome rests. Over a table each
//! seat has a thread, up to `MAX_THREADS`, and contracts see all that it did. They say what is so for the job's own program
//! and context.
#![tactic(auto)]

mod apart;
mod batch;
mod fault;
mod job;
mod lines;
mod pool;
mod pooled;
mod printing;
mod reading;
mod repeated;
mod reply;

pub use fault::RunFault;
pub use job::{Job, JobReport, Outcome, Report, StopCause, Trail};
pub use job_queue::{MAX_JOBS, MAX_THREADS, PoolFault};
pub use pool::run_jobs;
pub use reading::{run_read_jobs, run_table_jobs};
pub use repeated::run_program;
pub use shared::{MAX_WORKERS, ProgramWithMaps};

// A pool has as many threads as a shared world may have workers.
const _: () = prove!(MAX_WORKERS as usize <= MAX_THREADS);
