//! A shared world that ends where a call is refused memory, so that what is under its lock shows.
ghost use Rattle.std.specs.Prelude.{◌≡◌};

use crate::alike::are_alike;
use crate::pooled::{MadeAgain, TIMES, is_cut_refused, is_refused, made_by, shared_by_two};
use crate::worlds::apply_update;
use anyhow::{Result, bail, ensure};
use shared::{Finished, Shared, Worker, Workers};
use std::alloc::Global;
use std::sync::Wait;
use std::sync::ledger::{Blank, Ledger};
use world::World;

/// Makes updates, each of another value, until one is refused memory, and does those that were answered to a world of
/// its own. How many they are.
fn act<L: Ledger, R: Wait>(
    rt: &R,
    shared: &Shared<L>,
    worker: &mut Worker<L>,
    wanted: &mut World,
) -> Result<usize> {
    for number in 0..TIMES {
        if is_refused(rt, shared, worker, number as u8)? {
            return Ok(number);
        }
        apply_update(wanted, number as u8);
    }
    Ok(TIMES)
}

/// The same by the first worker.
fn act_by_first<L: Ledger, R: Wait>(
    rt: &R,
    shared: &Shared<L>,
    workers: &mut Workers<L>,
    wanted: &mut World,
) -> Result<usize> {
    match workers.as_mut_slice().first_mut() {
        Some(first) => act(rt, shared, first, wanted),
        None => bail!("there is no worker"),
    }
}

/// Makes updates and cuts the journal, up to a call that is refused memory: how many updates were made, and whether it was
/// the cut. The workers' shares are those of the calls before it.
fn make_calls<L: Ledger, R: Wait>(
    rt: &R,
    alloc: Global,
    shared: &Shared<L>,
    workers: &mut Workers<L>,
    wanted: &mut World,
) -> Result<(usize, bool)> {
    let count = act_by_first(rt, shared, workers, wanted)?;
    let cut = count >= TIMES && is_cut_refused(rt, alloc, shared)?;
    ensure!(made_by(workers) == count as u64, "the shares are others");
    Ok((count, cut))
}

/// The entries stand before the base or in the journal, and both worlds are those that they are to be.
fn compare(finished: &Finished, entries: (u64, usize), base: &World, world: &World) -> Result<()> {
    let found = (finished.before, finished.journal.len());
    ensure!(found == entries, "the journal is another one");
    ensure!(are_alike(&finished.base, base), "the base is another one");
    ensure!(
        are_alike(&finished.world, world),
        "the world is another one"
    );
    Ok(())
}

/// Compares what a shared world leaves, after so many updates of this world, with the one that is wanted.
fn compare_with(
    finished: &Finished,
    count: usize,
    refused: MadeAgain,
    world: &World,
    wanted: &World,
) -> Result<MadeAgain> {
    let same = if refused.act | refused.cut {
        compare(finished, (0, count), world, wanted)
    } else {
        compare(finished, (count as u64, 0), wanted, wanted)
    };
    same?;
    Ok(refused)
}

/// Shares a world, makes the calls, and ends the sharing. What it leaves, how many updates were made, and whether the cut was
/// refused.
fn share_to_end<L: Ledger, R: Wait>(
    rt: &R,
    alloc: Global,
    world: World,
    blank: Blank,
    wanted: &mut World,
) -> Result<(Finished, usize, bool)>
    requires name { blank.name ≡ L.name }
    requires parts { (blank.parts ≡ L.parts) × (blank.parts ≡ 2) }
{
    let (shared, mut workers) = shared_by_two::<L>(alloc, world, blank)?;
    let (count, cut) = make_calls(rt, alloc, &shared, &mut workers, wanted)?;
    Ok((shared.finish(workers), count, cut))
}

/// Shares a copy of the world, makes updates and cuts the journal, up to a call that is refused memory. The journal, the
/// worlds and the workers' shares are then those of the calls before it.
pub fn stop<L: Ledger, R: Wait>(
    rt: &R,
    alloc: Global,
    world: &World,
    blank: Blank,
) -> Result<MadeAgain>
    requires name { blank.name ≡ L.name }
    requires parts { (blank.parts ≡ L.parts) × (blank.parts ≡ 2) }
{
    let mut wanted = world.copy(alloc)?;
    let copy = world.copy(alloc)?;
    let (finished, count, cut) = share_to_end::<L, R>(rt, alloc, copy, blank, &mut wanted)?;
    let refused = MadeAgain {
        run_for: false,
        act: count < TIMES,
        cut,
        jobs: false,
    };
    compare_with(&finished, count, refused, world, &wanted)
}
