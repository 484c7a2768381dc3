//! What is done again and again, by its name.

use crate::activity::{Activity, activities, further_activities};
use crate::crew::{crews, further_crews, repeat_crew};
use crate::dumps::{dumps, repeat_dump};
use crate::setup::make_setup;
use crate::tally::Tally;
use anyhow::{Result, bail};
use std::alloc::Global;
use std::rt::Clock;
use std::sync::Wait;
use std::thread::Threads;

/// What so many times came to.
#[derive(Clone, Copy)]
pub enum Outcome {
    /// What the events of an activity were answered.
    Answers(Tally),
    /// How many calls a worker made.
    Calls(u64),
    /// How many bytes a dump has.
    Bytes(usize),
}

/// What the events of one round of an activity are answered.
pub fn answers_of(alloc: Global, activity: &Activity) -> Result<Tally> {
    let mut setup = make_setup(alloc, activity)?;
    Ok(setup.round())
}

/// What the events of so many rounds of an activity are answered.
fn repeat_activity(alloc: Global, activity: &Activity, times: u32) -> Result<Tally> {
    let mut setup = make_setup(alloc, activity)?;
    let mut tally = Tally::default();
    for _ in 0..times {
        setup.round_into(&mut tally);
    }
    Ok(tally)
}

/// The activity of a name.
fn activity_named(name: &str) -> Option<Activity> {
    for activity in activities() {
        if activity.name == name {
            return Some(activity);
        }
    }
    for activity in further_activities() {
        if activity.name == name {
            return Some(activity);
        }
    }
    None
}

/// So many dumps of the map of a name, or batches of the crew of one worker of that name.
fn repeat_further<R: Threads + Wait + Clock + Sync>(
    rt: &R,
    alloc: Global,
    name: &str,
    times: u32,
) -> Result<Outcome> {
    for dump in dumps() {
        if dump.name == name {
            return Ok(Outcome::Bytes(repeat_dump(alloc, &dump, times)?));
        }
    }
    for crew in further_crews() {
        if crew.name == name {
            return Ok(Outcome::Calls(repeat_crew(rt, alloc, &crew, times)?));
        }
    }
    for crew in crews() {
        if crew.name == name && crew.workers == 1 {
            return Ok(Outcome::Calls(repeat_crew(rt, alloc, &crew, times)?));
        }
    }
    bail!("no activity {name}, no dump, and no crew of one worker")
}

/// So many rounds of the activity of a name, or of what else has this name.
pub fn repeat<R: Threads + Wait + Clock + Sync>(
    rt: &R,
    alloc: Global,
    name: &str,
    times: u32,
) -> Result<Outcome> {
    match activity_named(name) {
        Some(activity) => Ok(Outcome::Answers(repeat_activity(alloc, &activity, times)?)),
        None => repeat_further(rt, alloc, name, times),
    }
}
