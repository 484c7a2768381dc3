//! How long each thing of a subject takes.

use crate::activity::activities;
use crate::batch_time::BatchTime;
use crate::crew::{Crew, crews, pools, time_crew};
use crate::measure::time_activity;
use crate::scripts::time_script;
use anyhow::Result;
use std::alloc::Global;
use std::rt::Clock;
use std::sync::Wait;
use std::thread::Threads;

/// What is timed.
#[derive(Clone, Copy)]
pub enum Subject {
    /// The parts of each activity.
    Activities,
    /// The calls of workers that share a world.
    Crews,
    /// Jobs that workers of a shared world serve.
    Pools,
    /// The lines of a script.
    Script,
}

/// Times each activity.
fn activity_times(clock: &impl Clock, alloc: Global) -> Result<Vec<BatchTime>> {
    let mut times = Vec::new(alloc);
    for activity in activities() {
        times.push(time_activity(clock, alloc, &activity)?)?;
    }
    Ok(times)
}

/// Times each of these crews.
fn crew_times<R: Threads + Wait + Clock + Sync>(
    rt: &R,
    alloc: Global,
    crews: &[Crew],
) -> Result<Vec<BatchTime>> {
    let mut times = Vec::new(alloc);
    for crew in crews {
        times.push(time_crew(rt, alloc, crew)?)?;
    }
    Ok(times)
}

/// Times the lines of a script.
fn script_times(clock: &impl Clock, alloc: Global) -> Result<Vec<BatchTime>> {
    let mut times = Vec::new(alloc);
    times.push(time_script(clock, alloc)?)?;
    Ok(times)
}

/// Times what belongs to the subject.
pub fn times_of<R: Threads + Wait + Clock + Sync>(
    rt: &R,
    alloc: Global,
    subject: Subject,
) -> Result<Vec<BatchTime>> {
    match subject {
        Subject::Activities => activity_times(rt, alloc),
        Subject::Crews => crew_times(rt, alloc, &crews()),
        Subject::Pools => crew_times(rt, alloc, &pools()),
        Subject::Script => script_times(rt, alloc),
    }
}
