//! The writer of a table.
ghost use Rattle.std.specs.Prelude.{◌≡◌, ℕ, List, ◌+◌, ◌*◌, ◌^◌, ◌<◌, ◌≤◌, ◌↔◌, ◌⊎◌, [], ◌∷◌, ◌++◌, length, vec_capacity, true, false, IsNone, IfNone, IfSome, IfOk};
ghost use Rattle.std.specs.List.{range_with_len, Contains};
ghost use Rattle.read_table.specs.History.{header_in, Cleared, MayLink};
ghost use Rattle.read_table.specs.Held.{IsKnown, IsSized};
ghost use Rattle.read_table.specs.Limits.{word_bytes};
ghost use Rattle.read_table.specs.declared.view.Move.{Move};
ghost use Rattle.read_table.specs.Found.{IsLinkedUnder};
ghost use Rattle.read_table.specs.Lookups.{OnlySearches};
ghost use Rattle.read_table.specs.Slots.{Links, Looks, Unlinks, Leaves, Waits, Works, AreSlots};
ghost use Rattle.read_table.specs.declared.view.TableShape.{TableShape};
ghost use Rattle.read_table.specs.Law.{writer_after};

use crate::View;
use crate::by_key::find_in;
use crate::sightings::{forget, no_sightings};
use crate::table::ReadTable;
use crate::words::home_of;
use crate::writing::{change, each_was_outside, take_nearest, take_out, write_slot};
use atomic_table::Seat;
use std::alloc::{AllocError, Global};
use std::marker::Model;
use table_words::zeros;

/// The header of a slot that was linked and unlinked 2^62 times. It is never linked again.
const LAST_HEADER: u64 = 1 << 63;

/// Links slots under keys, unlinks them and reclaims them. Contracts see at which table, what it did and saw there, and
/// its slots in three lists: those that it may link, those that are linked, and those that it has unlinked and not yet
/// reclaimed. Each slot stands in one of them, once.
#[derive(Drop)]
pub struct Writer {
    seat: Seat<u8, View>,
    headers: Vec<u64>,
    // For each slot, which readers were seen outside a section since its header changed.
    seen: Vec<bool>,
    free: Vec<usize>,
    linked: Vec<usize>,
    unlinked: Vec<usize>,
}

impl Model for Writer {
    ghost use Rattle.std.specs.Prelude.{◌≡◌, ◌≤◌, [], vec_capacity};
    ghost use Rattle.read_table.specs.Sightings.{AreSightings};
    ghost use Rattle.read_table.specs.Slots.{WriterView, IsWriter, AreSlots};

    ghost Value = { WriterView };

    ghost view = { λ w. record {
      table = record { id = w.seat.table_id; shape = w.seat.me.0.shape };
      view = w.seat.me.0;
      free = w.free.items;
      linked = w.linked.items;
      unlinked = w.unlinked.items;
    } };

    ghost invariant = { λ w. IsWriter w.seat.me.0 w.headers.items
        × AreSlots w.seat.me.0 w.free.items w.linked.items w.unlinked.items × (w.seat.me.1 ≡ [])
        × (w.seat.me.0.shape.slots ≤ vec_capacity w.free)
        × (w.seat.me.0.shape.slots ≤ vec_capacity w.linked)
        × (w.seat.me.0.shape.slots ≤ vec_capacity w.unlinked)
        × AreSightings w.seat.me.0 w.seen.items };
}

/// The numbers below `count`, in order.
fn numbers(alloc: Global, count: usize) -> Result<Vec<usize>, AllocError>
    ensures numbers { IfOk result (λ v. v.items ≡ range_with_len 0 count) }
    ensures capacity { IfOk result (λ v. count ≤ vec_capacity v) }
{
    let mut v = Vec::with_capacity(alloc, count)?;
    for i in 0..count {
        v.push_reserved(i);
    }
    Ok(v)
}

impl Writer {
    /// Links a free slot under a key, with a value: the one nearest at or behind the slot where a search for the key
    /// begins. `None` where no slot is free. Keys are not compared: a key that is linked twice is found at either slot.
    pub fn link(&mut self, table: &ReadTable, key: &[u8], value: &[u8]) -> Option<usize>
        requires table { self.old.table ≡ table.now }
        requires key { length key.now ≡ word_bytes * table.now.shape.key_words }
        requires value { length value.now ≡ word_bytes * table.now.shape.value_words }
        ensures table { self.new.table ≡ self.old.table }
        ensures none { IsNone result ↔ (self.old.free ≡ []) }
        ensures unchanged { IfNone result (self.new ≡ self.old) }
        ensures slot { IfSome result (λ slot. slot < table.now.shape.slots) }
        ensures free { IfSome result (λ slot. Leaves slot self.old.free self.new.free) }
        ensures linked { IfSome result (λ slot. self.new.linked ≡ self.old.linked ++ slot ∷ []) }
        ensures unlinked { self.new.unlinked ≡ self.old.unlinked }
        ensures reuse { IfSome result (λ slot.
            MayLink table.now.shape.readers slot self.old.view.mine) }
        ensures steps { IfSome result (λ slot. Links slot key.now value.now self.old self.new) }
        ensures under { IfSome result (λ slot.
            IsLinkedUnder table.now.shape key.now slot self.new.view.seen) }
    {
        if self.free.is_empty() {
            return None;
        }
        let shape = table.shape();
        let home = home_of(key, shape.key_words, shape.slots);
        let slot = take_nearest(&mut self.free, home, shape.slots);
        write_slot(table, &mut self.seat, slot, key, value);
        change(table, &mut self.seat, &mut self.headers, slot);
        forget(&mut self.seen, slot);
        self.linked.push_reserved(slot);
        Some(slot)
    }

    /// The slots that are linked. The one that was linked last stands last.
    pub fn linked(&self) -> &[usize]
        ensures { result.now ≡ self.now.linked }
    {
        self.linked.as_slice()
    }

    /// The slots that were unlinked and are not free yet. The one that was unlinked last stands last.
    pub fn unlinked(&self) -> &[usize]
        ensures { result.now ≡ self.now.unlinked }
    {
        self.unlinked.as_slice()
    }

    /// A slot that is linked under the key, or `None`. It stores nothing.
    pub fn find(&mut self, table: &ReadTable, key: &[u8]) -> Option<usize>
        requires table { self.old.table ≡ table.now }
        requires key { length key.now ≡ word_bytes * table.now.shape.key_words }
        ensures table { self.new.table ≡ self.old.table }
        ensures free { self.new.free ≡ self.old.free }
        ensures linked { self.new.linked ≡ self.old.linked }
        ensures unlinked { self.new.unlinked ≡ self.old.unlinked }
        ensures steps { (ms : List Move) × OnlySearches table.now.shape ms
            × Works self.old ms self.new }
        ensures found { IfSome result (λ slot. Contains self.new.linked slot
            × IsLinkedUnder table.now.shape key.now slot self.new.view.seen) }
        ensures none { IsNone result → (slot : ℕ) →
            IsLinkedUnder table.now.shape key.now slot self.new.view.seen → ⊥ }
    {
        find_in(table, &mut self.seat, self.linked.as_slice(), key)
    }

    /// Unlinks a slot. Readers that learnt it before may use it until they end their section.
    pub fn unlink(&mut self, table: &ReadTable, slot: usize)
        requires table { self.old.table ≡ table.now }
        requires linked { Contains self.old.linked slot }
        ensures table { self.new.table ≡ self.old.table }
        ensures free { self.new.free ≡ self.old.free }
        ensures linked { Leaves slot self.old.linked self.new.linked }
        ensures unlinked { self.new.unlinked ≡ self.old.unlinked ++ slot ∷ [] }
        ensures step { Unlinks slot self.old self.new }
    {
        take_out(&mut self.linked, slot);
        change(table, &mut self.seat, &mut self.headers, slot);
        forget(&mut self.seen, slot);
        self.unlinked.push_reserved(slot);
    }

    /// Makes an unlinked slot free, if each reader was seen outside a section since it was unlinked, in this call or
    /// before, and tells whether it did. It looks at each reader once at most. A slot that was linked 2^62 times
    /// stays unlinked.
    pub fn try_reclaim(&mut self, table: &ReadTable, slot: usize) -> bool
        requires table { self.old.table ≡ table.now }
        requires unlinked { Contains self.old.unlinked slot }
        ensures table { self.new.table ≡ self.old.table }
        ensures free { result ≡ true → self.new.free ≡ self.old.free ++ slot ∷ [] }
        ensures unlinked { result ≡ true → Leaves slot self.old.unlinked self.new.unlinked }
        ensures outside { result ≡ true → (r : ℕ) → 0 < r → r ≤ table.now.shape.readers →
            Cleared r slot self.new.view.mine }
        ensures scanned { result ≡ true →
            (ms : List Move) × Looks table.now.shape.readers self.old ms self.new }
        ensures linked { self.new.linked ≡ self.old.linked }
        ensures kept { result ≡ false →
            (self.new.free ≡ self.old.free) × (self.new.unlinked ≡ self.old.unlinked) }
        ensures waits { result ≡ false → Waits table.now.shape.readers slot self.old self.new
            ⊎ ((header_in slot self.old.view.mine ≡ 2 ^ 63) × (self.new ≡ self.old)) }
    {
        if self.headers[slot] >= LAST_HEADER {
            return false;
        }
        if !each_was_outside(table, &mut self.seat, &mut self.seen, slot) {
            return false;
        }
        take_out(&mut self.unlinked, slot);
        self.free.push_reserved(slot);
        true
    }

    /// A law: the writer is number 0 at its table, and what it saw there is lawful. So what is said of its view is said of the
    /// table.
    pub fn is_writers(&self)
        ensures me { self.now.view.me ≡ 0 }
        ensures shape { self.now.view.shape ≡ self.now.table.shape }
        ensures known { IsKnown self.now.view }
    {
        let _ = &self.free;
    }

    /// The writer's share of the table: the view stands among those of whom the rule of the table speaks
    /// (`ReadTable::ruled`).
    pub fn share(&self) -> &Seat<u8, View>
        ensures table { result.now.table_id ≡ self.now.table.id }
        ensures view { result.now.me ≡ (self.now.view, []) }
    {
        &self.seat
    }

    /// A law: each slot stands in one of the three lists, once: a free one may be linked, a linked one has an odd header,
    /// and an unlinked one an even one.
    pub fn each_slot_once(&self)
        ensures { AreSlots self.now.view self.now.free self.now.linked self.now.unlinked }
    {
        let _ = &self.free;
    }

    /// The writer of a table on which nothing was done.
    pub(crate) fn begin(
        alloc: Global,
        seat: Seat<u8, View>,
        slots: usize,
    ) -> Result<Writer, AllocError>
        requires writer { (n : ℕ) × (k : TableShape) × (seat.me ≡ (writer_after n k, [])) × (k.slots ≡ slots) }
        requires sized { IsSized seat.me.0.shape }
        ensures table { IfOk result (λ w. w.table.id ≡ seat.table_id) }
        ensures view { IfOk result (λ w. w.view ≡ seat.me.0) }
        ensures shape { IfOk result (λ w. w.table.shape ≡ seat.me.0.shape) }
        ensures free { IfOk result (λ w. w.free ≡ range_with_len 0 slots) }
        ensures linked { IfOk result (λ w. w.linked ≡ []) }
        ensures unlinked { IfOk result (λ w. w.unlinked ≡ []) }
    {
        let headers = zeros(alloc, slots)?;
        let seen = no_sightings(alloc)?;
        let free = numbers(alloc, slots)?;
        let linked = Vec::with_capacity(alloc, slots)?;
        let unlinked = Vec::with_capacity(alloc, slots)?;
        Ok(Writer {
            seat,
            headers,
            seen,
            free,
            linked,
            unlinked,
        })
    }
}
