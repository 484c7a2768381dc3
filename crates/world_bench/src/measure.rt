//! How long a world's answers take.

use crate::activity::Activity;
use crate::batch_time::{BATCHES, BatchTime, LEAST_MILLIS};
use crate::setup::{Setup, make_setup};
use crate::tally::Tally;
use anyhow::{Result, ensure};
use std::alloc::Global;
use std::rt::Clock;
use std::time::{Duration, Instant};

/// A batch has at most so many rounds.
const MOST_ROUNDS: u32 = 1_000_000;

/// How many rounds take long enough to be timed, and their time.
fn time_batch(clock: &impl Clock, setup: &mut Setup, tally: &mut Tally) -> Result<(u32, Duration)> {
    let mut time = Duration::ZERO;
    for rounds in 1..=MOST_ROUNDS {
        setup.begin();
        let start = Instant::now(clock)?;
        setup.go(tally);
        time = time.saturating_add(start.elapsed(clock)?);
        setup.end();
        if time >= Duration::from_millis(LEAST_MILLIS) {
            return Ok((rounds, time));
        }
    }
    Ok((MOST_ROUNDS, time))
}

/// Times an activity: the quickest of some batches of rounds.
pub fn time_activity(clock: &impl Clock, alloc: Global, activity: &Activity) -> Result<BatchTime> {
    let name = activity.name;
    let mut setup = make_setup(alloc, activity)?;
    let mut tally = Tally::default();
    let mut best = BatchTime {
        name,
        time: Duration::MAX,
        parts: 1,
    };
    for _ in 0..BATCHES {
        let (rounds, time) = time_batch(clock, &mut setup, &mut tally)?;
        let parts = u64::from(rounds).saturating_mul(setup.parts);
        let batch = BatchTime { name, time, parts };
        if batch.is_quicker(&best) {
            best = batch;
        }
    }
    ensure!(
        tally.other == 0,
        "some events were not answered as they should be"
    );
    Ok(best)
}
