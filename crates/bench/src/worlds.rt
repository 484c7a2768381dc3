//! What worlds answer, and how long that takes.

use crate::command::WorldCommand;
use crate::report::{answers_line, mean_line, outcome_line};
use anyhow::Result;
use std::rt::Clock;
use std::sync::Wait;
use std::thread::Threads;
use world_bench::{BatchTime, activities, answers_of, repeat, times_of};

/// Goes through each activity once, and prints what its events were answered.
fn print_answers(rt: &HostRuntime) -> Result<()> {
    let alloc = rt.alloc();
    for activity in activities() {
        let tally = answers_of(alloc, &activity)?;
        rt.println(answers_line(alloc, activity.name, &tally)?)?;
    }
    Ok(())
}

/// Prints the nanoseconds of a part of each thing that was timed.
fn print_times(rt: &HostRuntime, times: &[BatchTime]) -> Result<()> {
    for batch in times {
        rt.println(mean_line(rt.alloc(), batch.name, batch.time, batch.parts)?)?;
    }
    Ok(())
}

/// Does what is asked of worlds, and prints what it came to. The handle for threads, for waiting and for the clock is the
/// runtime again.
pub fn perform_world<H: Threads + Wait + Clock + Sync>(
    rt: &HostRuntime,
    handle: &H,
    command: WorldCommand<'_>,
) -> Result<()> {
    let alloc = rt.alloc();
    match command {
        WorldCommand::Answers => print_answers(rt),
        WorldCommand::Times(subject) => print_times(rt, &times_of(handle, alloc, subject)?),
        WorldCommand::Repeat { activity, times } => {
            let outcome = repeat(handle, alloc, activity, times)?;
            rt.println(outcome_line(alloc, activity, &outcome)?)?;
            Ok(())
        }
    }
}
