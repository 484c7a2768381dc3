//! A journal's events, once more from its base.
use crate::making::MAPS;
use anyhow::{Result, ensure};
use bpf_model::{Answer, Entry, Event, MAX_ENTRIES, MAX_RUNS, MAX_SLOTS, MapId, RunId};
use shared::Finished;
use std::alloc::Global;
use world::World;

/// Whether two answers have one text.
fn are_alike(alloc: Global, one: &Answer, other: &Answer) -> Result<bool> {
    let text = format!(in alloc; "{one:?}")?;
    Ok(text == format!(in alloc; "{other:?}")?)
}

/// Whether the maps of this number have the same elements in two worlds.
fn have_equal_elements(one: &World, other: &World, map: MapId) -> bool {
    let mut last = None;
    for _ in 0..=MAX_ENTRIES {
        let next = one.next_above(map, last.as_ref());
        if next != other.next_above(map, last.as_ref()) {
            return false;
        }
        match next {
            None => return true,
            Some((key, _)) => last = Some(key),
        }
    }
    false
}

/// Applies an entry's event to a world, and compares the answer with the entry's.
fn replay_entry(alloc: Global, base: &mut World, entry: &Entry, index: usize) -> Result<()> {
    let answer = base.apply(&entry.event);
    ensure!(
        are_alike(alloc, &answer, &entry.answer)?,
        "entry {index} is answered otherwise"
    );
    Ok(())
}

/// Applies the journal's events to the base, and compares each answer with the journal's.
fn replay_all(alloc: Global, finished: &mut Finished) -> Result<()> {
    for index in 0..finished.journal.len() {
        let Some(entry) = finished.journal.entry(index) else {
            break;
        };
        replay_entry(alloc, &mut finished.base, &entry, index)?;
    }
    Ok(())
}

/// Compares the counts and all elements of two worlds.
fn compare(one: &World, other: &World) -> Result<()> {
    ensure!(one.stat() == other.stat(), "the counts are others");
    for map in 0..MAPS {
        ensure!(
            have_equal_elements(one, other, MapId::new(map)),
            "map {map} has other elements"
        );
    }
    Ok(())
}

/// Applies the journal's events to the base, and compares each answer with the journal's; then the base with the world.
pub fn replay(alloc: Global, finished: &mut Finished) -> Result<()> {
    replay_all(alloc, finished)?;
    compare(&finished.base, &finished.world)
}

/// Steps each run to its exit and drops it.
pub fn end_runs(world: &mut World) {
    for number in 0..MAX_RUNS {
        let run = RunId::new(number);
        for _ in 0..MAX_SLOTS {
            if !matches!(world.apply(&Event::Step { run }), Answer::Moved) {
                break;
            }
        }
        let _ = world.apply(&Event::Drop { run });
    }
}
