//! Jobs that are served in threads, with one result a job, in job order.
//!
//! The numbers of blocks of jobs go through one queue, whose rule keeps that none is handed out twice. What serves a
//! job is a `Serve`; each thread has a worker of it, and all workers come back, whatever the answer.
#![tactic(auto)]

mod blocks;
mod fault;
mod numbers;
mod pool;
mod serve;
mod sheet;
mod station;

pub use fault::PoolFault;
pub use pool::{MAX_JOBS, MAX_THREADS, serve_all};
pub use serve::Serve;
