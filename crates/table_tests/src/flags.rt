//! Two jobs that wait for one another.

use job_queue::{PoolFault, Serve, serve_all};
use std::alloc::{AllocError, Global};
use std::sync::Wait;
use std::sync::atomic::{AtomicBool, Ordering};
use std::test::Fail;
use std::thread::{Threads, yield_now};

/// How often a job looks for the other's flag.
const LOOKS: u32 = 10_000_000;

/// A job is one side of a meeting.
#[derive(Clone, Copy, Debug, PartialEq, Eq)]
enum Side {
    Left,
    Right,
}

/// What became of a job.
#[derive(Clone, Copy, Debug, PartialEq, Eq)]
enum Outcome {
    Exit,
    Stopped,
}

/// A flag for each side, which its job sets.
#[derive(Drop)]
struct Meeting {
    left: AtomicBool,
    right: AtomicBool,
}

/// Whether the flag is seen set within so many looks.
fn is_seen(flag: &AtomicBool) -> bool {
    for _ in 0..LOOKS {
        if flag.load(Ordering::SeqCst) {
            return true;
        }
        yield_now();
    }
    false
}

impl Serve for Meeting {
    type Job = Side;

    type Worker = ();

    type Served = Outcome;

    ghost ready = { λ s w. Unit {0} };

    ghost later = { λ v w. Unit {0} };

    ghost fits = { λ s v w job served. Unit {0} };

    ghost gains = { λ s v w job served. Unit {0} };

    /// Sets the job's own flag, and exits once it sees the other's.
    fn serve<R: Wait>(&self, _rt: &R, _worker: &mut (), job: &Side) -> Outcome {
        let (own, other) = match job {
            Side::Left => (&self.left, &self.right),
            Side::Right => (&self.right, &self.left),
        };
        own.store(true, Ordering::SeqCst);
        if is_seen(other) {
            Outcome::Exit
        } else {
            Outcome::Stopped
        }
    }

    ghost later_same = { λ w. tt };

    ghost later_again = { λ u v w a b. tt };

    ghost fits_wider = { λ s t u v w job served a b c. tt };
}

/// Two workers, who have nothing of their own.
fn two_workers(alloc: Global) -> Result<Vec<()>, AllocError> {
    let mut workers = Vec::new(alloc);
    workers.push(())?;
    workers.push(())?;
    Ok(workers)
}

/// What becomes of the two sides of a meeting.
fn meet<R: Threads + Wait + Sync>(
    rt: &R,
    alloc: Global,
    workers: &mut Vec<()>,
) -> Result<Vec<Outcome>, PoolFault> {
    let meeting = Meeting {
        left: AtomicBool::new(false),
        right: AtomicBool::new(false),
    };
    serve_all(rt, alloc, &meeting, &[Side::Left, Side::Right], 2, workers)
}

#[test]
fn two_jobs_meet(rt: HostRuntime) -> Result<(), Fail> {
    let mut workers = two_workers(rt.alloc())?;
    let outcomes = meet(&rt, rt.alloc(), &mut workers)?;
    assert!(rt; outcomes.as_slice() == &[Outcome::Exit, Outcome::Exit][..]);
    Ok(())
}
