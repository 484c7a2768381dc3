//! An index in the order of the keys.
ghost use Rattle.std.specs.Prelude.{◌≡◌, ◌<◌, ◌≤◌, IfOk, None, Some, insert, slice_get, vec_capacity, vec_len};
ghost use Rattle.std.specs.FinMap as map;
ghost use Rattle.element_store.specs.State.{IsTaken, key_at};
ghost use Rattle.hash_index.specs.Sorted.{SortedFits, sorted_contents};

use crate::index::Index;
use crate::place::Place;
use crate::position::{find_in, least_above, position};
use element_store::Arena;
use std::alloc::{AllocError, Global};

/// The slots in a vector with room for all of them, in the order of their keys. Every call searches by
/// halves, and `link` and `unlink` move the slots with greater keys.
#[derive(Drop)]
pub struct Sorted {
    slots: Vec<usize>,
}

/// Puts a slot at a position of a list that has room.
fn put_at(list: &mut Vec<usize>, position: usize, slot: usize)
    requires room { vec_len list.old < vec_capacity list.old }
    requires position { position ≤ vec_len list.old }
    ensures items { list.new.items ≡ insert list.old.items position slot }
    ensures room { vec_capacity list.old ≤ vec_capacity list.new }
{
    match list.insert(position, slot) {
        Ok(()) => (),
        Err(_) => unreachable!(),
    }
}

/// A copy of a list, with as much room.
fn copy_of(alloc: Global, list: &Vec<usize>) -> Result<Vec<usize>, AllocError>
    ensures items { IfOk result (λ v. v.items ≡ list.now.items) }
    ensures room { IfOk result (λ v. vec_capacity list.now ≤ vec_capacity v) }
{
    let mut copy = Vec::with_capacity(alloc, list.capacity())?;
    copy.extend_from_slice(list)?;
    Ok(copy)
}

impl Sorted {
    /// A taken slot joins, whose key no slot has.
    fn join(&mut self, arena: &Arena, slot: usize)
        requires fits { SortedFits self.old arena.now }
        requires taken { IsTaken arena.now slot }
        requires absent { map.get (sorted_contents self.old arena.now) (key_at arena.now.slots slot)
            ≡ None }
        ensures contents { sorted_contents self.new arena.now
            ≡ map.insert (sorted_contents self.old arena.now) (key_at arena.now.slots slot) slot }
        ensures fits { SortedFits self.new arena.now }
    {
        let position = position(&self.slots, arena, arena.key(slot));
        put_at(&mut self.slots, position, slot);
    }

    /// The slot at a position leaves.
    fn leave(&mut self, arena: &Arena, position: usize, slot: usize)
        requires fits { SortedFits self.old arena.now }
        requires at { slice_get self.old.slots.items position ≡ Some slot }
        ensures contents { sorted_contents self.new arena.now
            ≡ map.remove (sorted_contents self.old arena.now) (key_at arena.now.slots slot) }
        ensures fits { SortedFits self.new arena.now }
    {
        let _arena = arena;
        let _slot = self.slots.remove(position);
    }
}

impl Index for Sorted {
    ghost use Rattle.hash_index.specs.Sorted.{sorted_contents, SortedFits, sorted_place, sorted-frame, sorted-stays};

    ghost contents = { sorted_contents };

    ghost fits = { SortedFits };

    ghost is_place = { sorted_place };

    ghost is_made_for = { λ _ _. Unit {0} };

    fn new(alloc: Global, _entries: usize, slots: usize) -> Result<Self, AllocError> {
        Ok(Sorted {
            slots: Vec::with_capacity(alloc, slots)?,
        })
    }

    fn find(&self, arena: &Arena, key: &[u8]) -> Place {
        find_in(&self.slots, arena, key)
    }

    fn link(&mut self, arena: &mut Arena, place: Place, slot: usize) {
        match place.slot {
            None => self.join(arena, slot),
            Some(old) => {
                self.leave(arena, place.home, old);
                self.join(arena, slot);
            }
        }
    }

    fn unlink(&mut self, arena: &mut Arena, key: &[u8]) -> Option<usize> {
        let place = self.find(arena, key);
        match place.slot {
            None => None,
            Some(slot) => {
                self.leave(arena, place.home, slot);
                Some(slot)
            }
        }
    }

    fn next_above(&self, arena: &Arena, bound: Option<&[u8]>) -> Option<usize> {
        least_above(&self.slots, arena, bound)
    }

    fn in_order(&self, alloc: Global, _arena: &Arena) -> Result<Vec<usize>, AllocError> {
        copy_of(alloc, &self.slots)
    }

    fn copy(&self, alloc: Global) -> Result<Self, AllocError> {
        Ok(Sorted {
            slots: copy_of(alloc, &self.slots)?,
        })
    }

    ghost frame = { sorted-frame };

    ghost stays = { sorted-stays };
}
