//! How many calls readers of a table without a lock make, and how long jobs at one take.

use crate::command::ReadCommand;
use crate::decimal::quotient;
use crate::report::{mean_line, measurement_line};
use anyhow::Result;
use std::alloc::{AllocError, Global};
use std::rt::Clock;
use std::sync::Wait;
use std::thread::Threads;
use std::time::CpuClock;
use table_bench::{
    ALONE, Company, Crew, FOUR, FOUR_APART, JOBS, Kind, Task, count_task, repeat, tasks,
    time_of_job_batch,
};
use world_bench::LONG_TASK_BATCHES;

/// Jobs that are timed: the front of their lines' names, at which table, and how many lookups each makes in one section.
#[derive(Clone, Copy)]
struct Series {
    name: &'static str,
    kind: Kind,
    lookups: u32,
}

/// How many lookups a long job makes.
const LOOKUPS_OF_LONG_JOB: u32 = 32;

/// By how many seats jobs are served.
const SEATS: [usize; 3] = [1, 2, 4];

fn new_series(name: &'static str, kind: Kind, lookups: u32) -> Series {
    Series {
        name,
        kind,
        lookups,
    }
}

/// The jobs, in the order in which they are printed.
fn all_series() -> [Series; 4] {
    let long = LOOKUPS_OF_LONG_JOB;
    [
        new_series("read_job", Kind::Read, 1),
        new_series("long_read_job", Kind::Read, long),
        new_series("map_job", Kind::Map, 1),
        new_series("long_map_job", Kind::Map, long),
    ]
}

/// What the company of a crew adds to its name.
fn ending_of(company: Company) -> &'static str {
    match company {
        Company::Readers => "",
        Company::Writer => "_beside_writer",
        Company::Nobody => "_apart",
    }
}

/// So many calls a second, and how many times as many that is as one reader alone makes.
fn ratio_line(alloc: Global, front: &str, rate: u64, alone: u64) -> Result<String, AllocError> {
    let front = format!(in alloc; "{front} {rate} a second, ratio")?;
    measurement_line(
        alloc,
        front.as_str(),
        quotient(u128::from(rate), u128::from(alone.max(1))),
    )
}

/// The line of a crew: its name; how many calls all its readers made in a second; how many in a second in which each has a
/// processor throughout; each also as a multiple of what one reader alone makes; and the part of the time in which they had one.
fn crew_line(alloc: Global, task: &Task, crew: &Crew, alone: &Crew) -> Result<String, AllocError> {
    let name = format!(in alloc;
        "{}_by_{}{}",
        task.name,
        crew.readers,
        ending_of(crew.company)
    )?;
    let line = ratio_line(alloc, name.as_str(), crew.per_second(), alone.per_second())?;
    let front = format!(in alloc; "{line}; by processor time")?;
    let (given, alone_given) = (crew.per_given_second(), alone.per_given_second());
    let line = ratio_line(alloc, front.as_str(), given, alone_given)?;
    let front = format!(in alloc; "{line}; given")?;
    let wanted = u128::from(crew.wanted_millis().max(1));
    let share = quotient(crew.work.given.as_millis(), wanted);
    measurement_line(alloc, front.as_str(), share)
}

/// The line that tells how many times as many calls readers of one table made as those with a table each, by processor time:
/// what they lose by sharing the table.
fn sharing_line(
    alloc: Global,
    task: &Task,
    together: &Crew,
    apart: &Crew,
) -> Result<String, AllocError> {
    let name = format!(in alloc; "{}_by_{}_to_apart", task.name, together.readers)?;
    let rate = u128::from(together.per_given_second());
    let apart = u128::from(apart.per_given_second().max(1));
    measurement_line(alloc, name.as_str(), quotient(rate, apart))
}

/// Counts the calls of a task that each crew makes, and prints them.
fn print_task<H: Threads + Clock + CpuClock + Sync>(
    rt: &HostRuntime,
    handle: &H,
    task: &Task,
) -> Result<()> {
    let alloc = rt.alloc();
    let crews = count_task(handle, alloc, task)?;
    for crew in &crews {
        rt.println(crew_line(alloc, task, crew, &crews[ALONE])?)?;
    }
    rt.println(sharing_line(alloc, task, &crews[FOUR], &crews[FOUR_APART])?)?;
    Ok(())
}

/// Times the jobs of a series by each number of seats, and prints the nanoseconds of one.
fn print_series<H: Threads + Wait + Clock + Sync>(
    rt: &HostRuntime,
    handle: &H,
    series: &Series,
) -> Result<()> {
    let alloc = rt.alloc();
    let front = series.name;
    for seats in SEATS {
        let time = time_of_job_batch(
            handle,
            alloc,
            series.kind,
            seats,
            series.lookups,
            LONG_TASK_BATCHES,
        )?;
        let name = format!(in alloc; "{front}_by_{seats}")?;
        rt.println(mean_line(alloc, name.as_str(), time, u64::from(JOBS))?)?;
    }
    Ok(())
}

/// Counts the calls of each task.
fn print_tasks<H: Threads + Clock + CpuClock + Sync>(rt: &HostRuntime, handle: &H) -> Result<()> {
    for task in tasks() {
        print_task(rt, handle, &task)?;
    }
    Ok(())
}

/// Times the jobs of each series.
fn print_jobs<H: Threads + Wait + Clock + Sync>(rt: &HostRuntime, handle: &H) -> Result<()> {
    for series in all_series() {
        print_series(rt, handle, &series)?;
    }
    Ok(())
}

/// Does what is asked of a table without a lock, and prints what it came to.
pub fn perform_read<H: Threads + Wait + Clock + CpuClock + Sync>(
    rt: &HostRuntime,
    handle: &H,
    command: ReadCommand<'_>,
) -> Result<()> {
    match command {
        ReadCommand::Times => {
            print_tasks(rt, handle)?;
            print_jobs(rt, handle)
        }
        ReadCommand::Repeat { name, times } => {
            let sum = repeat(rt.alloc(), name, times)?;
            println!(rt; "{name} sum {sum}")?;
            Ok(())
        }
    }
}
