//! A reader that counts the calls which it makes in a span of time.
ghost use Rattle.std.specs.Prelude.{All, IfOk};

use crate::measured::Measured;
use crate::task::Deed;
use crate::work::Work;
use anyhow::{Result, bail};
use std::alloc::{AllocError, Global};
use std::rt::Clock;
use std::time::{CpuClock, Duration, Instant};

/// How many calls a reader makes between two readings of the clock.
pub const BATCH: u32 = 1024;

/// How many milliseconds readers make calls before these are counted: a processor that was idle is slower at first.
const FROM: u64 = 50;

/// For how many milliseconds calls are counted in a round. A reader that has no processor in this time counts the less.
pub const SPAN: u64 = 100;

/// The most batches that are made until then; fewer fit in the time.
const MOST_BATCHES: u64 = 1 << 24;

/// A reader, the first of its keys, a sum of what its calls found, and what it did while calls were counted: nothing before, or
/// where a clock failed.
#[derive(Drop)]
pub struct Runner<T> {
    pub reader: T,
    pub first: u64,
    pub sum: u64,
    pub work: Option<Work>,
}

/// The time since then. Nothing where the clock fails.
fn time_since<C: Clock>(clock: &C, start: Instant) -> Option<Duration> {
    match start.elapsed(clock) {
        Ok(time) => Some(time),
        Err(_) => None,
    }
}

/// The processor time that this thread has had. Nothing where the clock fails.
fn given_so_far<C: CpuClock>(clock: &C) -> Option<Duration> {
    match clock.thread_cpu_time() {
        Ok(time) => Some(time),
        Err(_) => None,
    }
}

/// Makes so many calls.
pub fn make_calls<S: Measured>(table: &S, runner: &mut Runner<S::Reader>, deed: Deed, calls: u32)
    requires set { S.IsSet table.now }
    requires reader { S.IsReader table.now runner.old.reader }
    ensures { S.IsReader table.now runner.new.reader }
{
    let found = table.work(&mut runner.reader, runner.first, deed, calls);
    runner.sum = runner.sum.wrapping_add(found);
}

/// Makes calls until so much time has gone since the round began. How many batches; nothing where the clock fails.
fn work_until<S: Measured, C: Clock>(
    clock: &C,
    start: Instant,
    table: &S,
    runner: &mut Runner<S::Reader>,
    deed: Deed,
    end: Duration,
) -> Option<u64>
    requires set { S.IsSet table.now }
    requires reader { S.IsReader table.now runner.old.reader }
    ensures { S.IsReader table.now runner.new.reader }
{
    for batches in 0..MOST_BATCHES {
        if time_since(clock, start)? >= end {
            return Some(batches);
        }
        make_calls(table, runner, deed, BATCH);
    }
    None
}

/// Makes calls until the round's time is over. What was done while they were counted; nothing where a clock fails.
fn work_in_span<S: Measured, C: Clock + CpuClock>(
    clock: &C,
    start: Instant,
    table: &S,
    runner: &mut Runner<S::Reader>,
    deed: Deed,
) -> Option<Work>
    requires set { S.IsSet table.now }
    requires reader { S.IsReader table.now runner.old.reader }
    ensures { S.IsReader table.now runner.new.reader }
{
    work_until(
        clock,
        start,
        table,
        runner,
        deed,
        Duration::from_millis(FROM),
    )?;
    let given_before = given_so_far(clock)?;
    let end = Duration::from_millis(FROM + SPAN);
    let batches = work_until(clock, start, table, runner, deed, end)?;
    let given = given_so_far(clock)?.saturating_sub(given_before);
    let calls = batches.saturating_mul(u64::from(BATCH));
    Some(Work { calls, given })
}

/// Makes calls until the round's time is over, and keeps what was done while they were counted.
pub fn work_counted<S: Measured, C: Clock + CpuClock>(
    clock: &C,
    start: Instant,
    table: &S,
    runner: &mut Runner<S::Reader>,
    deed: Deed,
)
    requires set { S.IsSet table.now }
    requires reader { S.IsReader table.now runner.old.reader }
    ensures { S.IsReader table.now runner.new.reader }
{
    let work = work_in_span(clock, start, table, runner, deed);
    runner.work = work;
}

/// The readers, each with keys of its own, none of which has made a call.
pub fn runners_of<S: Measured>(
    alloc: Global,
    table: &S,
    readers: Vec<S::Reader>,
) -> Result<Vec<Runner<S::Reader>>, AllocError>
    requires { All (S.IsReader table.now) readers.items }
    ensures { IfOk result (λ v. All (λ r. S.IsReader table.now r.reader) v.items) }
{
    let _ = table;
    let keys = S::keys_of_reader();
    let mut runners = Vec::new(alloc);
    let mut first = 0u64;
    for reader in readers {
        runners.push(Runner {
            reader,
            first,
            sum: 0,
            work: None,
        })?;
        first = first.wrapping_add(keys);
    }
    Ok(runners)
}

/// What a reader did while calls were counted. Fails where a clock has failed.
pub fn work_of<T>(runner: &Runner<T>) -> Result<Work> {
    match runner.work {
        Some(work) => Ok(work),
        None => bail!("a clock failed"),
    }
}

/// The same of all readers together.
pub fn work_of_all<T>(runners: &[Runner<T>]) -> Result<Work> {
    let mut all = Work::NONE;
    for runner in runners {
        all.add(work_of(runner)?);
    }
    Ok(all)
}
