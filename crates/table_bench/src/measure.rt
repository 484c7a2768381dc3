//! How many calls readers make in a time.
ghost use Rattle.std.specs.Prelude.{◌<◌, ◌≤◌};
ghost use Rattle.read_table.specs.declared.limits.TheConstants.{MAX_READERS};

use crate::apart::count_apart;
use crate::crew::go;
use crate::key_tables::repeat_map_calls;
use crate::map_stage::MapStage;
use crate::measured::Measured;
use crate::runner::{BATCH, SPAN, make_calls, runners_of, work_of_all};
use crate::stage::Stage;
use crate::task::{Deed, Kind, Task, task_named};
use crate::work::{Work, per_second};
use anyhow::{Result, bail, ensure};
use read_table::MAX_READERS;
use std::alloc::Global;
use std::rt::Clock;
use std::thread::Threads;
use std::time::{CpuClock, Duration, Instant};

/// In how many rounds each crew makes its calls.
const ROUNDS: u64 = 15;

/// For how many milliseconds the calls of a crew are counted, in all rounds.
const COUNTED: u64 = SPAN * ROUNDS;

/// With whom readers share their table.
#[derive(Clone, Copy)]
pub enum Company {
    /// With each other.
    Readers,
    /// With each other, and with the writer, which changes it all the time.
    Writer,
    /// With nobody: each has a table of its own.
    Nobody,
}

/// So many readers, and what they did together in all rounds.
#[derive(Clone, Copy)]
pub struct Crew {
    pub readers: usize,
    pub company: Company,
    pub work: Work,
}

impl Crew {
    /// A crew that has made no calls.
    pub fn new(readers: usize, company: Company) -> Crew {
        Crew {
            readers,
            company,
            work: Work::NONE,
        }
    }

    /// How many calls all its readers made together in a second.
    pub fn per_second(&self) -> u64 {
        per_second(self.work.calls, Duration::from_millis(COUNTED))
    }

    /// How many calls all its readers would make together in a second in which each had a processor throughout.
    pub fn per_given_second(&self) -> u64 {
        let of_one = per_second(self.work.calls, self.work.given);
        of_one.saturating_mul(u64::try_from(self.readers).unwrap_or(u64::MAX))
    }

    /// How many milliseconds of a processor its readers would have had throughout.
    pub fn wanted_millis(&self) -> u64 {
        let readers = u64::try_from(self.readers).unwrap_or(u64::MAX);
        readers.saturating_mul(COUNTED)
    }
}

/// Lets so many readers make the calls of a task for a round. What they did while calls were counted.
fn count_together<S: Measured, R: Threads + Clock + CpuClock + Sync>(
    rt: &R,
    alloc: Global,
    task: &Task,
    readers: usize,
    is_written: bool,
) -> Result<Work>
    requires { (0 < readers) × (readers ≤ MAX_READERS) }
{
    let (table, readers, mut writer) = S::make(alloc, readers)?;
    let mut runners = runners_of(alloc, &table, readers)?;
    let start = Instant::now(rt)?;
    let rounds = go(
        rt,
        start,
        &table,
        runners.as_mut_slice(),
        &mut writer,
        task.deed,
        is_written,
    );
    ensure!(rounds < u64::MAX, "the writer did not end");
    work_of_all(&runners)
}

/// Lets a crew make the calls of a task for a round.
fn count_once<S: Measured, R: Threads + Clock + CpuClock + Sync>(
    rt: &R,
    alloc: Global,
    task: &Task,
    crew: &mut Crew,
) -> Result<()> {
    let readers = crew.readers;
    ensure!(readers >= 1 && readers <= MAX_READERS, "no such crew");
    let work = match crew.company {
        Company::Readers => count_together::<S, R>(rt, alloc, task, readers, false)?,
        Company::Writer => count_together::<S, R>(rt, alloc, task, readers, true)?,
        Company::Nobody => count_apart::<S, R>(rt, alloc, task.deed, readers)?,
    };
    crew.work.add(work);
    Ok(())
}

/// Lets each crew make the calls of a task for a round.
fn count_round<S: Measured, R: Threads + Clock + CpuClock + Sync>(
    rt: &R,
    alloc: Global,
    task: &Task,
    crews: &mut [Crew],
) -> Result<()> {
    for crew in crews {
        count_once::<S, R>(rt, alloc, task, crew)?;
    }
    Ok(())
}

/// Lets each crew make the calls of a task for `ROUNDS` rounds, one crew after the other in each: so all of them have the machine
/// as it is then.
fn count_crews<S: Measured, R: Threads + Clock + CpuClock + Sync>(
    rt: &R,
    alloc: Global,
    task: &Task,
    crews: &mut [Crew],
) -> Result<()> {
    for _ in 0..ROUNDS {
        count_round::<S, R>(rt, alloc, task, crews)?;
    }
    Ok(())
}

/// The place of one reader alone among the crews of `count_task`.
pub const ALONE: usize = 0;

/// The place of four readers of one table.
pub const FOUR: usize = 2;

/// The place of four readers with a table each.
pub const FOUR_APART: usize = 3;

/// The crews whose calls of a task are counted.
fn crews() -> [Crew; 7] {
    [
        Crew::new(1, Company::Readers),
        Crew::new(2, Company::Readers),
        Crew::new(4, Company::Readers),
        Crew::new(4, Company::Nobody),
        Crew::new(1, Company::Writer),
        Crew::new(2, Company::Writer),
        Crew::new(4, Company::Writer),
    ]
}

/// Counts the calls of a task that each crew makes.
pub fn count_task<R: Threads + Clock + CpuClock + Sync>(
    rt: &R,
    alloc: Global,
    task: &Task,
) -> Result<[Crew; 7]> {
    let mut crews = crews();
    match task.kind {
        Kind::Read => count_crews::<Stage, R>(rt, alloc, task, &mut crews)?,
        Kind::Map => count_crews::<MapStage, R>(rt, alloc, task, &mut crews)?,
    }
    Ok(crews)
}

/// The sum of what so many rounds of calls of one reader find, all in this thread.
fn repeat_calls<S: Measured>(alloc: Global, task: &Task, times: u32) -> Result<u64> {
    let (table, readers, _writer) = S::make(alloc, 1)?;
    let mut runners = runners_of(alloc, &table, readers)?;
    let Some(runner) = runners.first_mut() else {
        bail!("no reader");
    };
    for _ in 0..times {
        make_calls(&table, runner, task.deed, BATCH);
    }
    Ok(runner.sum)
}

/// The sum of what so many rounds of the calls of a name come to.
pub fn repeat(alloc: Global, name: &str, times: u32) -> Result<u64> {
    if let Some(task) = task_named(name) {
        match (task.kind, task.deed) {
            (Kind::Read, _) => return repeat_calls::<Stage>(alloc, &task, times),
            (Kind::Map, Deed::Runs) => return repeat_calls::<MapStage>(alloc, &task, times),
            (Kind::Map, _) => {}
        }
    }
    match repeat_map_calls(alloc, name, times)? {
        Some(sum) => Ok(sum),
        None => bail!("no calls {name}"),
    }
}
