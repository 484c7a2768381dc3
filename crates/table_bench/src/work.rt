//! What readers did while their calls were counted.
use std::time::Duration;

/// How many calls were made, and for how much of the time the readers had a processor. Where several readers or rounds are told
/// together, both are sums.
#[derive(Clone, Copy)]
pub struct Work {
    pub calls: u64,
    /// The processor time of the threads. What other threads had the processor for, or the host of a virtual machine took, is no
    /// part of it.
    pub given: Duration,
}

impl Work {
    /// Nothing done.
    pub const NONE: Work = Work {
        calls: 0,
        given: Duration::ZERO,
    };

    /// Adds what was done elsewhere.
    pub fn add(&mut self, other: Work) {
        self.calls = self.calls.saturating_add(other.calls);
        self.given = self.given.saturating_add(other.given);
    }
}

/// How many times a second something was done that was done so often in this time, rounded down.
pub fn per_second(times: u64, time: Duration) -> u64 {
    let nanos = time.as_nanos().max(1);
    let rate = u128::from(times).saturating_mul(1_000_000_000) / nanos;
    u64::try_from(rate).unwrap_or(u64::MAX)
}
