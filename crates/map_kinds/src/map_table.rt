//! What a map of either kind answers and does.
ghost use Rattle.std.specs.Prelude.{◌≡◌, ◌<◌, ◌≤◌, ◌+◌, [], List, ℕ, length, slice_get, Some, None, IfSome, IfNone, IfOk, OnErr, option_copied, option_map};
ghost use Rattle.std.specs.FinMap as map;
ghost use Rattle.bpf_model.specs.declared.limits.TheConstants.{VALUE_BYTES, MAX_ENTRIES, MAX_SPARE};
ghost use Rattle.bpf_model.specs.Access.{byte_count, number_at, with_bytes};
ghost use Rattle.bpf_model.specs.Shapes.{IsShape};
ghost use Rattle.bpf_model.specs.View.{MapView};
ghost use Rattle.element_store.specs.State.{key_at, value_at};
ghost use Rattle.hash_index.specs.Order.{AreInOrder, NoneAbove};
ghost use Rattle.model_laws.specs.Views.{updated, deleted, written, turned_view, value_read};
ghost use Rattle.map_kinds.specs.Shown.{IsOccupied, IsReaped, IsNext};
ghost use Rattle.map_kinds.specs.Counting.{counts_of};

use crate::counts::Counts;
use bpf_model::{Errno, Given, KeyBytes, MapShape, ValueBytes, Width};
use std::alloc::{AllocError, Global};

/// Elements by key, each in a map slot. A hash map and an array keep them each in its own way, and meet the
/// same contracts over what is seen of them.
pub trait MapTable {
    /// What is seen of the map.
    ghost seen: { Self → MapView };

    /// The keys that an update takes.
    ghost takes: { Self → List ℕ → Type 0 };

    /// The lengths of its keys and values, and its limits.
    fn shape(&self) -> MapShape
        ensures { result ≡ (seen self.now).shape };

    /// A law: its shape is one that a map may have.
    fn has_shape(&self)
        ensures { IsShape (seen self.now).shape };

    /// The map slot of a key. A key of another length than the map's has none.
    fn lookup(&self, key: &[u8]) -> Option<usize>
        ensures slot { result ≡ map.get (seen self.now).index key.now }
        ensures long { IfSome result (λ i. length key.now ≡ (seen self.now).shape.key_len) }
        ensures inside { IfSome result (λ i. i < MAX_ENTRIES + MAX_SPARE) };

    /// The bytes of the value of a key, where they stand; `None` where the key has none (`lookup`).
    fn bytes_of(&self, key: &[u8]) -> Option<&[u8]>
        ensures bytes { option_map (λ b. record { items = b }) (option_copied result)
            ≡ value_read (seen self.now) key.now }
        ensures short { IfSome result (λ b. length b.now ≤ VALUE_BYTES) };

    /// How many elements are linked and unlinked, and how many map slots are worn out.
    fn counts(&self) -> Counts
        ensures value { result ≡ counts_of (seen self.now) }
        ensures linked { result.linked ≤ MAX_ENTRIES + MAX_SPARE }
        ensures unlinked { result.unlinked ≤ MAX_ENTRIES + MAX_SPARE }
        ensures worn { result.worn ≤ MAX_ENTRIES + MAX_SPARE };

    /// Gives a key a value of the length of the map's shape, by flags: any (0), only a new key (1), only a
    /// present one (2). It takes no memory. On an error nothing has changed.
    fn update(&mut self, key: &[u8], value: &[u8], flags: u64) -> Result<(), Errno>
        requires key { takes self.old key.now }
        requires value { length value.now ≡ (seen self.old).shape.value_len }
        ensures result { result ≡ (updated (seen self.old) key.now value.now flags).0 }
        ensures new { seen self.new ≡ (updated (seen self.old) key.now value.now flags).1 }
        ensures err { OnErr result (self.new ≡ self.old) }
        ensures shape { (seen self.new).shape ≡ (seen self.old).shape };

    /// Unlinks the element of a key. It takes no memory. On an error nothing has changed.
    fn delete(&mut self, key: &[u8]) -> Result<(), Errno>
        ensures result { result ≡ (deleted (seen self.old) key.now).0 }
        ensures new { seen self.new ≡ (deleted (seen self.old) key.now).1 }
        ensures err { OnErr result (self.new ≡ self.old) }
        ensures shape { (seen self.new).shape ≡ (seen self.old).shape };

    /// A grace period ends, and the next begins: the elements that waited for its end may be reclaimed, and
    /// those unlinked meanwhile wait.
    fn advance(&mut self)
        ensures { seen self.new ≡ turned_view (seen self.old) };

    /// Reclaims the element that has been ready longest, and answers its key and whether its map slot
    /// may be used again. `None` where no element is ready.
    fn reap(&mut self) -> Option<(KeyBytes, Given)>
        ensures none { IfNone result ((seen self.old).ready ≡ []) }
        ensures unchanged { IfNone result (self.new ≡ self.old) }
        ensures some { IfSome result (λ r.
            IsReaped (seen self.old) (seen self.new) r.0.items r.1) }
        ensures shape { (seen self.new).shape ≡ (seen self.old).shape };

    /// The little-endian number in the value of the element in a map slot, from an offset in bytes
    /// on.
    fn load(&self, slot: usize, offset: usize, width: Width) -> u64
        requires occupied { IsOccupied (seen self.now) slot }
        requires inside { offset + byte_count width ≤ (seen self.now).shape.value_len }
        ensures { number_at (slice_get (value_at (seen self.now).slots slot)) offset
            (byte_count width) ≡ Some result };

    /// Stores the low bytes of a number in the value of the element in a map slot, from an offset
    /// in bytes on.
    fn store(&mut self, slot: usize, offset: usize, width: Width, number: u64)
        requires occupied { IsOccupied (seen self.old) slot }
        requires inside { offset + byte_count width ≤ (seen self.old).shape.value_len }
        ensures { seen self.new ≡ written (seen self.old) slot
            (with_bytes offset (byte_count width) number (value_at (seen self.old).slots slot)) };

    /// The element with the least key above a bound, in byte order. Every key is above no bound.
    fn next_above(&self, bound: Option<&[u8]>) -> Option<(KeyBytes, ValueBytes)>
        ensures some { IfSome result (λ r.
            IsNext (seen self.now) (option_copied bound.entry) r.0.items r.1.items) }
        ensures none { IfNone result
            (NoneAbove (seen self.now).index (option_copied bound.entry)) };

    /// The map slots of all elements, in byte order of their keys. The error is that there is no memory left.
    fn in_order(&self, alloc: Global) -> Result<Vec<usize>, AllocError>
        ensures { IfOk result (λ v.
            AreInOrder (seen self.now).index (key_at (seen self.now).slots) None v.items) };

    /// The key and the value of a linked element, by its map slot.
    fn element(&self, slot: usize) -> (KeyBytes, ValueBytes)
        requires { map.get (seen self.now).index (key_at (seen self.now).slots slot) ≡ Some slot }
        ensures key { result.0.items ≡ key_at (seen self.now).slots slot }
        ensures value { result.1.items ≡ value_at (seen self.now).slots slot };
}
