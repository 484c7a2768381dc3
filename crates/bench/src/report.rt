//! The lines that the program prints.
ghost use Rattle.std.specs.Prelude.{◌≡◌, ◌/◌, ◌%◌, ◌++◌, IfOk, string_bytes, codes, decimal};

use crate::decimal::{Decimal, quotient};
use shared_runs::alone::Ended;
use std::alloc::{AllocError, Global};
use std::time::Duration;
use world_bench::{Outcome, Tally};

/// The line of a program that is built in: its name, and what it came to.
pub fn sample_line(alloc: Global, name: &str, finished: Ended) -> Result<String, AllocError>
    ensures { IfOk result (λ s. string_bytes s ≡ name.now
        ++ (codes " exit " ++ (decimal finished.value
        ++ (codes " instructions " ++ decimal finished.steps)))) }
{
    let exit = finished.value;
    let instructions = finished.steps;
    format!(in alloc; "{name} exit {exit} instructions {instructions}")
}

/// The line of a measurement: its name, and the number with two decimal places.
pub fn measurement_line(alloc: Global, name: &str, value: Decimal) -> Result<String, AllocError>
    ensures { IfOk result (λ s. string_bytes s ≡ name.now
        ++ (codes " " ++ (decimal value.whole
        ++ (codes "." ++ (decimal (value.hundredths / 10) ++ decimal (value.hundredths % 10)))))) }
{
    let whole = value.whole;
    let tenths = value.hundredths / 10;
    let hundredths = value.hundredths % 10;
    format!(in alloc; "{name} {whole}.{tenths}{hundredths}")
}

/// The line of so many parts that took a time together: their name, and the nanoseconds of one.
pub fn mean_line(
    alloc: Global,
    name: &str,
    time: Duration,
    parts: u64,
) -> Result<String, AllocError> {
    let mean = quotient(time.as_nanos(), u128::from(parts.max(1)));
    measurement_line(alloc, name, mean)
}

/// The line of an activity: its name, and what its events were answered.
pub fn answers_line(alloc: Global, name: &str, tally: &Tally) -> Result<String, AllocError> {
    format!(in alloc;
        "{name} moved {} exited {} made {} found {} absent {} reclaimed {} other {} sum {}",
        tally.moved,
        tally.exited,
        tally.made,
        tally.found,
        tally.absent,
        tally.reclaimed,
        tally.other,
        tally.sum
    )
}

/// The line of what was done again and again: its name, and what it came to.
pub fn outcome_line(alloc: Global, name: &str, outcome: &Outcome) -> Result<String, AllocError> {
    match outcome {
        Outcome::Answers(tally) => answers_line(alloc, name, tally),
        Outcome::Calls(calls) => format!(in alloc; "{name} calls {calls}"),
        Outcome::Bytes(bytes) => format!(in alloc; "{name} bytes {bytes}"),
    }
}
