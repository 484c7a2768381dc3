//! Why a pool gives no results.
ghost use Rattle.std.specs.Prelude.{◌≡◌};

use thiserror::Error;

/// Why a pool gives no results.
#[derive(Clone, Copy, Debug, PartialEq, Eq, Error)]
pub enum PoolFault {
    #[error("the number of workers is 0, more than a pool may have, or more than there are")]
    BadWorkers,
    #[error("more jobs than a pool may have")]
    TooManyJobs,
    #[error("out of memory")]
    Memory,
    /// No call answers it: each job that is served has its result.
    #[error("the result of a job is missing or double, or is of no job")]
    Lost,
}

impl PoolFault {
    ghost use Rattle.job_queue.specs.Faults.{pool_fault_number};

    /// The number by which the fault is known: 90, 91, 92, or 13 for want of memory.
    pub fn code(self) -> u8
        ensures { result ≡ pool_fault_number self }
    {
        match self {
            PoolFault::BadWorkers => 90,
            PoolFault::TooManyJobs => 91,
            PoolFault::Memory => 13,
            PoolFault::Lost => 92,
        }
    }
}
