//! Eight workers share a world of sixteen maps for so many rounds, with events of every kind, as quickly as they can; in every
//! other round the journal is cut whenever it may be. After each round it is replayed from its base, and its answers, the counts
//! and all elements are compared with what the workers left. `soak ROUNDS CALLS`: how many rounds, and how many events a worker
//! brings in each.
//!
//! Then eight readers make as many runs over a table without a lock, beside a writer that links, unlinks, replaces and reclaims, and
//! moves elements, since the table is nearly full: a key that stays is always found, with one of its values, and never with an
//! earlier one than before.
#![tactic(auto)]

mod making;
mod mixing;
mod replaying;
mod round;
mod tables;

use crate::making::world_of;
use crate::round::{Tally, go_round};
use crate::tables::{TableTally, go_table};
use anyhow::{Result, bail};
use std::alloc::Global;
use std::env;
use std::marker::Brand;
use std::process::ExitCode;
use std::sync::Wait;
use std::sync::ledger::Blank;
use std::thread::Threads;
use world::World;

/// The number that a word says, unless it says none, or 0.
fn number_of(word: &str) -> Option<u32> {
    match word.parse::<u32>() {
        Ok(number) if number > 0 => Some(number),
        _ => None,
    }
}

/// A number that is not 0.
fn number(word: Option<String>) -> Result<u32> {
    let found = match &word {
        Some(word) => number_of(word.as_str()),
        None => None,
    };
    match found {
        Some(number) => Ok(number),
        None => bail!("usage: soak ROUNDS CALLS"),
    }
}

/// The two numbers that the words say.
fn numbers(rt: &HostRuntime) -> Result<(u32, u32)> {
    let mut words = env::args(rt)?.skip(1);
    let rounds = number(words.next())?;
    let calls = number(words.next())?;
    if words.next().is_some() {
        bail!("usage: soak ROUNDS CALLS");
    }
    Ok((rounds, calls))
}

/// One round, with a ledger of its own.
fn go_once<R: Threads + Wait + Sync>(
    rt: &R,
    alloc: Global,
    world: World,
    round: u32,
    calls: u32,
    tally: &mut Tally,
) -> Result<World> {
    let blank = Blank::new(8);
    go_round::<Brand, R>(rt, alloc, blank, world, round, calls, tally)
}

/// Goes so many rounds over one world, each where the last one ended.
fn go<R: Threads + Wait + Sync>(rt: &R, alloc: Global, rounds: u32, calls: u32) -> Result<Tally> {
    let mut world = world_of(alloc)?;
    let mut tally = Tally::new();
    for round in 0..rounds {
        world = go_once(rt, alloc, world, round, calls, &mut tally)?;
    }
    Ok(tally)
}

/// Goes so many rounds over tables.
fn go_tables<R: Threads + Sync>(
    rt: &R,
    alloc: Global,
    rounds: u32,
    calls: u32,
) -> Result<TableTally> {
    let mut all = TableTally::NONE;
    for _ in 0..rounds {
        all.add(go_table(rt, alloc, calls)?);
    }
    Ok(all)
}

/// A line on standard error, and one on standard output.
fn tell(rt: &HostRuntime, rounds: u32, tally: Tally, tables: TableTally) -> Result<()> {
    eprintln!(rt;
        "entries {} cuts {} worn {} runs {} changes {} made {} held {} full {}",
        tally.entries,
        tally.cuts,
        tally.worn,
        tables.runs,
        tables.changes,
        tables.made,
        tables.held,
        tables.full
    )?;
    println!(rt; "rounds {rounds}, no difference")?;
    Ok(())
}

/// What the words ask for, and what it came to.
fn perform<H: Threads + Wait + Sync>(rt: &HostRuntime, handle: &H) -> Result<()> {
    let (rounds, calls) = numbers(rt)?;
    let tally = go(handle, rt.alloc(), rounds, calls)?;
    let tables = go_tables(handle, rt.alloc(), rounds, calls)?;
    tell(rt, rounds, tally, tables)
}

fn main(rt: HostRuntime) -> ExitCode {
    match perform(&rt, &rt) {
        Ok(()) => ExitCode::SUCCESS,
        Err(error) => {
            let _ = eprintln!(&rt; "{error}");
            ExitCode::FAILURE
        }
    }
}
