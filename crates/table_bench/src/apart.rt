//! Readers that share no table, to compare with: what they lose beside each other is not the table's.
ghost use Rattle.std.specs.Prelude.{All, IfOk};
ghost use Rattle.table_bench.specs.Reads.{IsAtHome};

use crate::measured::Measured;
use crate::runner::{Runner, work_counted, work_of};
use crate::task::Deed;
use crate::work::Work;
use anyhow::{Result, bail};
use read_table::MAX_READERS;
use std::alloc::Global;
use std::rt::Clock;
use std::thread::{Threads, for_each_mut};
use std::time::{CpuClock, Instant};

/// A reader with the table that it alone reads.
#[derive(Drop)]
pub struct AtHome<S, T> {
    pub table: S,
    pub runner: Runner<T>,
}

/// A reader with a table of its own.
fn at_home<S: Measured>(alloc: Global) -> Result<AtHome<S, S::Reader>>
    ensures { IfOk result (IsAtHome S.IsSet S.IsReader) }
{
    let (table, mut readers, _writer) = S::make(alloc, 1)?;
    let Some(reader) = readers.pop() else {
        bail!("no reader");
    };
    let runner = Runner {
        reader,
        first: 0,
        sum: 0,
        work: None,
    };
    Ok(AtHome { table, runner })
}

/// So many readers, each with a table of its own.
fn all_at_home<S: Measured>(alloc: Global, readers: usize) -> Result<Vec<AtHome<S, S::Reader>>>
    ensures { IfOk result (λ v. All (IsAtHome S.IsSet S.IsReader) v.items) }
{
    let mut all = Vec::new(alloc);
    for _ in 0..readers {
        all.push(at_home::<S>(alloc)?)?;
    }
    Ok(all)
}

/// Each reader makes calls in a thread of its own, at its own table, until the time of the round is over, which began at `start`.
fn read_all_apart<S: Measured, R: Threads + Clock + CpuClock + Sync>(
    rt: &R,
    start: Instant,
    readers: &mut [AtHome<S, S::Reader>],
    deed: Deed,
)
    requires { All (IsAtHome S.IsSet S.IsReader) readers.old }
{
    for_each_mut(
        rt,
        readers,
        MAX_READERS,
        &|_, one: &mut AtHome<S, S::Reader>| -> ()
            requires { IsAtHome S.IsSet S.IsReader one.old }
        { work_counted(rt, start, &one.table, &mut one.runner, deed) },
    );
}

/// Lets so many readers, each with a table of its own, do this for a round. What they did while calls were counted.
pub fn count_apart<S: Measured, R: Threads + Clock + CpuClock + Sync>(
    rt: &R,
    alloc: Global,
    deed: Deed,
    readers: usize,
) -> Result<Work> {
    let mut all = all_at_home::<S>(alloc, readers)?;
    read_all_apart(rt, Instant::now(rt)?, all.as_mut_slice(), deed);
    let mut work = Work::NONE;
    for one in &all {
        work.add(work_of(&one.runner)?);
    }
    Ok(work)
}
