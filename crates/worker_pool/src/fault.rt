//! Why the runs of a program end early.
use job_queue::PoolFault;
use std::io;
use thiserror::Error;

/// Why the runs of a program end early.
#[derive(Debug, Drop, Error)]
pub enum RunFault {
    /// There is no pool of so many workers and jobs, or it gives no results.
    #[error(transparent)]
    Pool(PoolFault),
    /// The output failed.
    #[error(transparent)]
    Write(io::Error),
}

impl From<PoolFault> for RunFault {
    ghost use Rattle.std.specs.Prelude.{◌≡◌};
    ghost use Rattle.worker_pool.specs.declared.fault.RunFault.TheVariants.{Pool};

    ghost from_gives = { λ f e. e ≡ Pool f };

    fn from(fault: PoolFault) -> RunFault {
        RunFault::Pool(fault)
    }
}

impl From<io::Error> for RunFault {
    ghost use Rattle.std.specs.Prelude.{◌≡◌};
    ghost use Rattle.worker_pool.specs.declared.fault.RunFault.TheVariants.{Write};

    ghost from_gives = { λ f e. e ≡ Write f };

    fn from(error: io::Error) -> RunFault {
        RunFault::Write(error)
    }
}
