//! What was timed.
use std::time::Duration;

/// How many milliseconds a batch takes at least, so that reading the clock does not count.
pub const LEAST_MILLIS: u64 = 50;

/// How many batches are timed. The quickest counts, since whatever else the computer does only adds time.
pub const BATCHES: u32 = 10;

/// How many batches are timed of what takes long: scripts, crews of workers, and pools of jobs.
pub const LONG_TASK_BATCHES: u32 = 5;

/// The quickest batch of something: its time, and how many parts it had.
#[derive(Clone, Copy)]
pub struct BatchTime {
    pub name: &'static str,
    pub time: Duration,
    pub parts: u64,
}

impl BatchTime {
    /// Whether a part took less time than one of the other.
    pub fn is_quicker(&self, other: &BatchTime) -> bool {
        let own = self.time.as_nanos().saturating_mul(u128::from(other.parts));
        own < other.time.as_nanos().saturating_mul(u128::from(self.parts))
    }
}
