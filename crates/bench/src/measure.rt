//! How long runs and verifications take.
ghost use Rattle.std.specs.Prelude.{◌≡◌, ◌<◌, ◌^◌, ◌%◌, length, IfOk};
ghost use Rattle.bench.specs.Trials.{IsReadyTrial};

use crate::decimal::{Decimal, quotient};
use crate::trial::{Trial, counted_run, counting_bytes};
use anyhow::{Result, ensure};
use bpf_model::CtxBytes;
use shared_runs::alone::run_to_exit;
use std::alloc::Global;
use std::rt::Clock;
use std::time::{Duration, Instant};
use verifier::verify;
use world_bench::{BATCHES, LEAST_MILLIS};

/// A batch has at most 2 to this power of calls.
const MOST_DOUBLINGS: u32 = 24;

/// What is timed.
#[derive(Clone, Copy)]
pub enum Timed {
    /// Runs of the program to its exit.
    Runs,
    /// Verifications of the program.
    Verifications,
}

/// One of two contexts, as a number is even or odd.
fn by_parity<'a>(number: u64, even: &'a CtxBytes, odd: &'a CtxBytes) -> &'a CtxBytes
    requires { length even.now.items ≡ length odd.now.items }
    ensures even { number % 2 ≡ 0 → result.now ≡ even.now }
    ensures odd { number % 2 ≡ 1 → result.now ≡ odd.now }
    ensures length { length result.now.items ≡ length even.now.items }
{
    if number % 2 == 0 { even } else { odd }
}

/// The exit value of the last of so many runs of the program. The exit before decides on which of two equal
/// contexts each is made, so that no compiler can take the runs out of the loop.
fn last_exit(trial: &Trial, copy: &CtxBytes, calls: u32) -> u64
    requires ready { IsReadyTrial trial.now }
    requires copy { length copy.now.items ≡ length trial.now.ctx.items }
{
    let mut exit = 0;
    for _ in 0..calls {
        exit = run_to_exit(&trial.verified, by_parity(exit, &trial.ctx, copy)).value;
    }
    exit
}

/// The exit value of the program, after so many runs of it and no more.
pub fn repeat_runs(trial: &Trial, times: u32) -> u64
    requires { IsReadyTrial trial.now }
{
    let copy = counting_bytes(trial.verified.ctx_len());
    last_exit(trial, &copy, times)
}

/// Verifies copies of the program so many times more.
pub fn repeat_verifications(alloc: Global, trial: &Trial, times: u32) -> Result<()> {
    for _ in 0..times {
        let program = trial.verified.program().copy(alloc)?;
        let _verified = verify(alloc, program, &[], trial.verified.ctx_len())?;
    }
    Ok(())
}

/// Times runs of the program.
fn time_runs(clock: &impl Clock, trial: &Trial, calls: u32) -> Result<Duration>
    requires { IsReadyTrial trial.now }
{
    let copy = counting_bytes(trial.verified.ctx_len());
    let expected = counted_run(trial).value;
    let start = Instant::now(clock)?;
    let exit = last_exit(trial, &copy, calls);
    let time = start.elapsed(clock)?;
    ensure!(
        exit == expected,
        "runs exited with {expected} and with {exit}"
    );
    Ok(time)
}

/// Times verifications of copies of the program, without the time that the copies take.
fn time_verifications(
    alloc: Global,
    clock: &impl Clock,
    trial: &Trial,
    calls: u32,
) -> Result<Duration> {
    let mut time = Duration::ZERO;
    for _ in 0..calls {
        let program = trial.verified.program().copy(alloc)?;
        let start = Instant::now(clock)?;
        let verified = verify(alloc, program, &[], trial.verified.ctx_len())?;
        time = time.saturating_add(start.elapsed(clock)?);
        drop(verified);
    }
    Ok(time)
}

fn time_of(
    alloc: Global,
    clock: &impl Clock,
    timed: Timed,
    trial: &Trial,
    calls: u32,
) -> Result<Duration>
    requires { IsReadyTrial trial.now }
{
    match timed {
        Timed::Runs => time_runs(clock, trial, calls),
        Timed::Verifications => time_verifications(alloc, clock, trial, calls),
    }
}

/// A number of calls that take long enough to be timed.
fn calls_of_batch(alloc: Global, clock: &impl Clock, timed: Timed, trial: &Trial) -> Result<u32>
    requires { IsReadyTrial trial.now }
    ensures { IfOk result (λ calls. 0 < calls) }
{
    for doublings in 0..MOST_DOUBLINGS {
        let calls = 1 << doublings;
        if time_of(alloc, clock, timed, trial, calls)? >= Duration::from_millis(LEAST_MILLIS) {
            return Ok(calls);
        }
    }
    Ok(1 << MOST_DOUBLINGS)
}

/// The time of one call in nanoseconds, divided further by `parts`: the mean of the quickest of some
/// batches, each long enough for the clock.
pub fn time_per_call_part(
    alloc: Global,
    clock: &impl Clock,
    timed: Timed,
    trial: &Trial,
    parts: u64,
) -> Result<Decimal>
    requires ready { IsReadyTrial trial.now }
    requires positive { 0 < parts }
    requires small { parts < 2 ^ 32 }
{
    let calls = calls_of_batch(alloc, clock, timed, trial)?;
    let mut best = Duration::MAX;
    for _ in 0..BATCHES {
        let time = time_of(alloc, clock, timed, trial, calls)?;
        if time < best {
            best = time;
        }
    }
    Ok(quotient(best.as_nanos(), u128::from(calls) * u128::from(parts)))
}
