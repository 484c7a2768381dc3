//! The slots of one map.
ghost use Rattle.std.specs.Prelude.{◌≡◌, ◌≢◌, ◌+◌, ◌<◌, ◌≤◌, ◌∷◌, [], length, slice_get};
ghost use Rattle.std.specs.Prelude.{slice_index, None, Some, IfSome, IfNone, IfOk, IfErr};
ghost use Rattle.std.specs.Prelude.{if◌then◌else◌};
ghost use Rattle.std.specs.Ordering.{nat_cmp};
ghost use Rattle.std.specs.Cmp.Lexicographic.{slice_cmp};
ghost use Rattle.bpf_model.specs.Access.{byte_count, number_at, with_bytes};
ghost use Rattle.bpf_model.specs.declared.event.Given.TheVariants as given;
ghost use Rattle.bpf_model.specs.declared.limits.TheConstants.{KEY_BYTES, VALUE_BYTES};
ghost use Rattle.element_store.specs.State.{IsTaken, generation_at, given_back, is_last_use, key_at};
ghost use Rattle.element_store.specs.State.{link_at, new_arena, taken, value_at, with_link, with_slot_value};

use crate::blocks::{block, write_block, write_inside, zero_blocks};
use crate::cell::{SlotCell, Standing, append, given_cell, last_after};
use crate::make::{below, fresh_cells};
use bpf_model::{Given, KeyBytes, ValueBytes, Width, array_of, number_of};
use std::alloc::{AllocError, Global};
use std::cmp::Ordering;
use std::marker::Model;

/// A slot, and how often it had been given back when the tag was made.
#[derive(Clone, Copy, Debug, PartialEq, Eq)]
pub struct Tag {
    pub slot: usize,
    pub generation: u32,
}

/// The slot of a tag was given back since, or the arena has no such slot.
#[derive(Clone, Copy, Debug, PartialEq, Eq)]
pub struct Stale;

/// Slots for keys and values of fixed lengths. Each slot is free, taken, or worn: used as often as the
/// arena allows.
#[derive(Drop)]
pub struct Arena {
    cells: Vec<SlotCell>,
    keys: Vec<u8>,
    values: Vec<u8>,
    key_len: usize,
    value_len: usize,
    first: Option<usize>,
    last: Option<usize>,
    limit: u32,
}

impl Model for Arena {
    ghost use Rattle.element_store.specs.State.{ArenaState};

    ghost Value = { ArenaState };

    ghost use Rattle.element_store.specs.Kept.{arena_state_of, AreCellsKept, IsLaidOut};

    ghost view = { λ a. arena_state_of a.cells.items a.first a.keys.items a.values.items
        a.key_len a.value_len a.limit };

    ghost invariant = { λ a. AreCellsKept a.cells.items a.first a.last a.limit
        × IsLaidOut a.cells.items a.keys.items a.values.items a.key_len a.value_len };
}

impl Arena {
    /// An arena of so many slots, all free, in ascending order. Keys have `key_len` bytes, at most
    /// `KEY_BYTES`, and values `value_len`, at most `VALUE_BYTES`; a slot may be used `limit`
    /// times, at least once. Fails where memory runs out; no later call but `copy` takes any.
    pub fn new(
        alloc: Global,
        slots: usize,
        key_len: usize,
        value_len: usize,
        limit: u32,
    ) -> Result<Arena, AllocError>
        requires key_len { key_len ≤ KEY_BYTES }
        requires value_len { value_len ≤ VALUE_BYTES }
        requires limit { 1 ≤ limit }
        ensures new { IfOk result (λ a. a ≡ new_arena slots key_len value_len limit) }
    {
        let cells = fresh_cells(alloc, slots)?;
        let keys = zero_blocks(alloc, slots, key_len)?;
        let values = zero_blocks(alloc, slots, value_len)?;
        Ok(Arena {
            cells,
            keys,
            values,
            key_len,
            value_len,
            first: below(0, slots),
            last: slots.checked_sub(1),
            limit,
        })
    }

    /// Takes the slot that has been free longest for a key and a value of the arena's lengths. `None` where
    /// no slot is free.
    pub fn take(&mut self, key: &[u8], value: &[u8]) -> Option<usize>
        requires key { length key.now ≡ self.old.key_len }
        requires value { length value.now ≡ self.old.value_len }
        ensures none { IfNone result (self.old.free ≡ []) }
        ensures unchanged { IfNone result (self.new ≡ self.old) }
        ensures slot { IfSome result (λ i. self.old.free ≡ i ∷ self.new.free) }
        ensures new { IfSome result
            (λ i. self.new ≡ taken self.old i self.new.free key.now value.now) }
    {
        match self.first {
            None => None,
            Some(slot) => {
                let old = self.cells[slot];
                self.cells[slot] = SlotCell {
                    uses: old.uses + 1,
                    generation: old.generation,
                    standing: Standing::Taken,
                    link: None,
                };
                write_block(&mut self.keys, slot, key);
                write_block(&mut self.values, slot, value);
                self.first = old.link;
                self.last = last_after(old.link, self.last);
                Some(slot)
            }
        }
    }

    /// Gives a taken slot back: it is free again, behind the other free ones, or worn after its last use.
    pub fn give(&mut self, slot: usize) -> Given
        requires { IsTaken self.old slot }
        ensures given { result ≡ (if is_last_use self.old slot then given.Worn else given.Free) }
        ensures new { self.new ≡ given_back self.old slot }
    {
        let old = self.cells[slot];
        if old.uses == self.limit {
            self.cells[slot] = given_cell(old, Standing::Worn);
            return Given::Worn;
        }
        self.cells[slot] = given_cell(old, Standing::Free);
        self.first = append(&mut self.cells, self.first, self.last, slot);
        self.last = Some(slot);
        Given::Free
    }

    /// The key in a slot, as many bytes as the arena's keys have; none where the slot was never used.
    pub fn key(&self, slot: usize) -> &[u8]
        requires { slot < length self.now.slots }
        ensures { result.now ≡ key_at self.now.slots slot }
    {
        if self.cells[slot].uses == 0 {
            &self.keys[..0]
        } else {
            block(&self.keys, self.key_len, slot)
        }
    }

    /// The key in a slot; none where the arena has no such slot.
    fn key_or_none(&self, slot: usize) -> &[u8]
        ensures { result.now ≡ key_at self.now.slots slot }
    {
        if slot < self.cells.len() {
            self.key(slot)
        } else {
            &self.keys[..0]
        }
    }

    /// How the keys of two slots compare, in byte order. A slot that was never used has a key of no bytes, and so
    /// has one that is not the arena's.
    pub fn compare_keys(&self, slot: usize, other: usize) -> Ordering
        ensures { result
            ≡ slice_cmp nat_cmp (key_at self.now.slots slot) (key_at self.now.slots other) }
    {
        self.key_or_none(slot).cmp(&self.key_or_none(other))
    }

    /// The value in a slot, as many bytes as the arena's values have; none where the slot was never used.
    pub fn value(&self, slot: usize) -> &[u8]
        requires { slot < length self.now.slots }
        ensures { result.now ≡ value_at self.now.slots slot }
    {
        if self.cells[slot].uses == 0 {
            &self.values[..0]
        } else {
            block(&self.values, self.value_len, slot)
        }
    }

    /// The link of a taken slot.
    pub fn next_of(&self, slot: usize) -> Option<usize>
        requires { IsTaken self.now slot }
        ensures { result ≡ link_at self.now.links slot }
    {
        self.cells[slot].link
    }

    /// Links a taken slot to another, or to none.
    pub fn set_next(&mut self, slot: usize, to: Option<usize>)
        requires { IsTaken self.old slot }
        ensures new { self.new ≡ with_link self.old slot to }
        ensures linked { link_at self.new.links slot ≡ to }
    {
        let cell = &mut self.cells[slot];
        cell.link = to;
    }

    /// The slot with its present generation.
    pub fn tag(&self, slot: usize) -> Tag
        requires { slot < length self.now.slots }
        ensures { result
            ≡ record { slot = slot; generation = slice_index self.now.generations slot } }
    {
        Tag {
            slot,
            generation: self.cells[slot].generation,
        }
    }

    /// The little-endian number in the value of a taken slot, from an offset in bytes on.
    pub fn load(&self, slot: usize, offset: usize, width: Width) -> u64
        requires taken { IsTaken self.now slot }
        requires inside { offset + byte_count width ≤ self.now.value_len }
        ensures { number_at (slice_get (value_at self.now.slots slot)) offset (byte_count width)
            ≡ Some result }
    {
        let value = block(&self.values, self.value_len, slot);
        number_of(value, offset, width)
    }

    /// Stores the low bytes of a number in the value of a taken slot, from an offset in bytes on.
    pub fn store(&mut self, slot: usize, offset: usize, width: Width, number: u64)
        requires taken { IsTaken self.old slot }
        requires inside { offset + byte_count width ≤ self.old.value_len }
        ensures { self.new ≡ with_slot_value self.old slot
            (with_bytes offset (byte_count width) number (value_at self.old.slots slot)) }
    {
        write_inside(
            &mut self.values,
            self.value_len,
            slot,
            offset,
            width,
            number,
        );
    }

    /// The key and the value in the slot of a tag. `Stale` where the slot was given back since the tag was
    /// made, or the arena has no such slot.
    pub fn peek(&self, tag: Tag) -> Result<(KeyBytes, ValueBytes), Stale>
        ensures stale { IfErr result (λ _. generation_at self.now tag.slot ≢ Some tag.generation) }
        ensures same { IfOk result (λ _. generation_at self.now tag.slot ≡ Some tag.generation) }
        ensures key { IfOk result (λ found. found.0.items ≡ key_at self.now.slots tag.slot) }
        ensures value { IfOk result (λ found. found.1.items ≡ value_at self.now.slots tag.slot) }
    {
        if tag.slot < self.cells.len() && self.cells[tag.slot].generation == tag.generation {
            Ok((array_of(self.key(tag.slot)), array_of(self.value(tag.slot))))
        } else {
            Err(Stale)
        }
    }

    /// Another arena in the same state. Fails where memory runs out.
    pub fn copy(&self) -> Result<Arena, AllocError>
        ensures { IfOk result (λ b. b ≡ self.now) }
    {
        Ok(Arena {
            cells: self.cells.clone()?,
            keys: self.keys.clone()?,
            values: self.values.clone()?,
            key_len: self.key_len,
            value_len: self.value_len,
            first: self.first,
            last: self.last,
            limit: self.limit,
        })
    }
}
