//! A map of either kind.
ghost use Rattle.std.specs.Prelude.{◌≡◌, ◌<◌, ◌≤◌, ◌+◌, [], length, slice_get, Some, None, IfSome, IfNone, IfOk, OnErr, option_copied, option_map};
ghost use Rattle.std.specs.FinMap as map;
ghost use Rattle.bpf_model.specs.declared.limits.TheConstants.{VALUE_BYTES, MAX_ENTRIES, MAX_SPARE};
ghost use Rattle.bpf_model.specs.Access.{byte_count, number_at};
ghost use Rattle.bpf_model.specs.Access.{with_bytes};
ghost use Rattle.bpf_model.specs.Shapes.{IsShape};
ghost use Rattle.bpf_model.specs.View.{new_map_view};
ghost use Rattle.element_store.specs.State.{key_at, value_at};
ghost use Rattle.hash_index.specs.Order.{AreInOrder, NoneAbove};
ghost use Rattle.model_laws.specs.Views.{updated, deleted, written, turned_view, value_read};
ghost use Rattle.map_kinds.specs.Shown.{IsOccupied, IsReaped, IsNext};
ghost use Rattle.map_kinds.specs.Counting.{counts_of};

use crate::array_map::ArrayMap;
use crate::counts::Counts;
use crate::hash_map::HashMap;
use crate::map_table::MapTable;
use bpf_model::{Errno, Given, KeyBytes, MapKind, MapShape, ValueBytes, Width};
use hash_index::Buckets;
use std::alloc::{AllocError, Global};
use std::marker::Model;

/// The elements of a map, as its kind keeps them. The index and the lists of a hash map are threaded through its
/// map slots.
#[derive(Drop)]
enum Elements {
    Hash(HashMap<Buckets>),
    Array(ArrayMap),
}

/// The runtime's map, of either kind: elements by key, each in a map slot.
#[derive(Drop)]
pub struct Map {
    elements: Elements,
}

impl Model for Map {
    ghost use Rattle.bpf_model.specs.View.{MapView};
    ghost use Rattle.model_laws.specs.Codes.{view_code};

    ghost Value = { MapView };

    ghost coded = { view_code };

    ghost use Rattle.map_kinds.specs.Kinds.{view_of};

    ghost view = { λ m. view_of m.elements };
}

impl Map {
    /// A map of its shape's kind: a hash map has nothing, an array has zero bytes at each index. All the memory
    /// that it ever takes is taken here.
    pub fn new(alloc: Global, shape: MapShape) -> Result<Map, AllocError>
        requires { IsShape shape }
        ensures { IfOk result (λ m. m ≡ new_map_view shape) }
    {
        let elements = match shape.kind {
            MapKind::Hash => Elements::Hash(HashMap::new(alloc, shape)?),
            MapKind::Array => Elements::Array(ArrayMap::new(alloc, shape)?),
        };
        Ok(Map { elements })
    }

    /// Another map in the same state. Fails where memory runs out.
    pub fn copy(&self, alloc: Global) -> Result<Map, AllocError>
        ensures { IfOk result (λ m. m ≡ self.now) }
    {
        let elements = match &self.elements {
            Elements::Hash(map) => Elements::Hash(map.copy(alloc)?),
            Elements::Array(map) => Elements::Array(map.copy()?),
        };
        Ok(Map { elements })
    }

    /// The lengths of its keys and values, and its limits.
    pub fn shape(&self) -> MapShape
        ensures { result ≡ self.now.shape }
    {
        match &self.elements {
            Elements::Hash(map) => map.shape(),
            Elements::Array(map) => map.shape(),
        }
    }

    /// A law: its shape is one that a map may have.
    pub fn has_shape(&self)
        ensures { IsShape self.now.shape }
    {
        match &self.elements {
            Elements::Hash(map) => map.has_shape(),
            Elements::Array(map) => map.has_shape(),
        }
    }

    /// The map slot of a key. A key of another length than the map's has none.
    #[inline]
    pub fn lookup(&self, key: &[u8]) -> Option<usize>
        ensures slot { result ≡ map.get self.now.index key.now }
        ensures long { IfSome result (λ i. length key.now ≡ self.now.shape.key_len) }
        ensures inside { IfSome result (λ i. i < MAX_ENTRIES + MAX_SPARE) }
    {
        match &self.elements {
            Elements::Hash(map) => map.lookup(key),
            Elements::Array(map) => map.lookup(key),
        }
    }

    /// The bytes of the value of a key, where they stand; `None` where the key has none (`lookup`).
    pub fn bytes_of(&self, key: &[u8]) -> Option<&[u8]>
        ensures bytes { option_map (λ b. record { items = b }) (option_copied result)
            ≡ value_read self.now key.now }
        ensures short { IfSome result (λ b. length b.now ≤ VALUE_BYTES) }
    {
        match &self.elements {
            Elements::Hash(map) => map.bytes_of(key),
            Elements::Array(map) => map.bytes_of(key),
        }
    }

    /// How many elements are linked and unlinked, and how many map slots are worn out.
    pub fn counts(&self) -> Counts
        ensures value { result ≡ counts_of self.now }
        ensures linked { result.linked ≤ MAX_ENTRIES + MAX_SPARE }
        ensures unlinked { result.unlinked ≤ MAX_ENTRIES + MAX_SPARE }
        ensures worn { result.worn ≤ MAX_ENTRIES + MAX_SPARE }
    {
        match &self.elements {
            Elements::Hash(map) => map.counts(),
            Elements::Array(map) => map.counts(),
        }
    }

    /// Gives a key a value, both of the lengths of the map's shape: a hash map links a new element, in the map
    /// slot that has been free longest, and unlinks the one that the key had; an array writes the value into the
    /// element of the index. Flags: any (0), only a new key (1), only a present one (2). It takes no memory.
    ///
    /// Errors, in this order, and then nothing has changed: `InvalidArgument` for other flags. Of a hash map
    /// `Exists` and `NoEntry` by the flags; `TooBig` for a new key, where the map has as many linked elements as
    /// its shape allows; `NoMemory` where no map slot is free. Of an array `TooBig` for a key that is none of its
    /// indices; `Exists` for flag 1.
    pub fn update(&mut self, key: &[u8], value: &[u8], flags: u64) -> Result<(), Errno>
        requires key { length key.now ≡ self.old.shape.key_len }
        requires value { length value.now ≡ self.old.shape.value_len }
        ensures result { result ≡ (updated self.old key.now value.now flags).0 }
        ensures new { self.new ≡ (updated self.old key.now value.now flags).1 }
        ensures err { OnErr result (self.new ≡ self.old) }
        ensures shape { self.new.shape ≡ self.old.shape }
    {
        match &mut self.elements {
            Elements::Hash(map) => map.update(key, value, flags),
            Elements::Array(map) => map.update(key, value, flags),
        }
    }

    /// Unlinks the element of a key. Errors, and then nothing has changed: `NoEntry` where the key has none
    /// (`lookup`); of an array `InvalidArgument` for every key. It takes no memory.
    pub fn delete(&mut self, key: &[u8]) -> Result<(), Errno>
        ensures result { result ≡ (deleted self.old key.now).0 }
        ensures new { self.new ≡ (deleted self.old key.now).1 }
        ensures err { OnErr result (self.new ≡ self.old) }
        ensures shape { self.new.shape ≡ self.old.shape }
    {
        match &mut self.elements {
            Elements::Hash(map) => map.delete(key),
            Elements::Array(map) => map.delete(key),
        }
    }

    /// A grace period ends, and the next begins: the elements that waited for its end may be reclaimed, and
    /// those unlinked meanwhile wait.
    pub fn advance(&mut self)
        ensures { self.new ≡ turned_view self.old }
    {
        match &mut self.elements {
            Elements::Hash(map) => map.advance(),
            Elements::Array(map) => map.advance(),
        }
    }

    /// Reclaims the element that has been ready longest, and answers its key and whether its map slot
    /// may be used again. `None` where no element is ready.
    pub fn reap(&mut self) -> Option<(KeyBytes, Given)>
        ensures none { IfNone result (self.old.ready ≡ []) }
        ensures unchanged { IfNone result (self.new ≡ self.old) }
        ensures some { IfSome result (λ r. IsReaped self.old self.new r.0.items r.1) }
        ensures shape { self.new.shape ≡ self.old.shape }
    {
        match &mut self.elements {
            Elements::Hash(map) => map.reap(),
            Elements::Array(map) => map.reap(),
        }
    }

    /// The little-endian number in the value of the element in a map slot, from an offset in bytes
    /// on.
    #[inline]
    pub fn load(&self, slot: usize, offset: usize, width: Width) -> u64
        requires occupied { IsOccupied self.now slot }
        requires inside { offset + byte_count width ≤ self.now.shape.value_len }
        ensures { number_at (slice_get (value_at self.now.slots slot)) offset (byte_count width)
            ≡ Some result }
    {
        match &self.elements {
            Elements::Hash(map) => map.load(slot, offset, width),
            Elements::Array(map) => map.load(slot, offset, width),
        }
    }

    /// Stores the low bytes of a number in the value of the element in a map slot, from an offset
    /// in bytes on.
    #[inline]
    pub fn store(&mut self, slot: usize, offset: usize, width: Width, number: u64)
        requires occupied { IsOccupied self.old slot }
        requires inside { offset + byte_count width ≤ self.old.shape.value_len }
        ensures { self.new ≡ written self.old slot
            (with_bytes offset (byte_count width) number (value_at self.old.slots slot)) }
    {
        match &mut self.elements {
            Elements::Hash(map) => map.store(slot, offset, width, number),
            Elements::Array(map) => map.store(slot, offset, width, number),
        }
    }

    /// The element with the least key above a bound, in byte order. Every key is above no bound.
    pub fn next_above(&self, bound: Option<&[u8]>) -> Option<(KeyBytes, ValueBytes)>
        ensures some { IfSome result (λ r.
            IsNext self.now (option_copied bound.entry) r.0.items r.1.items) }
        ensures none { IfNone result (NoneAbove self.now.index (option_copied bound.entry)) }
    {
        match &self.elements {
            Elements::Hash(map) => map.next_above(bound),
            Elements::Array(map) => map.next_above(bound),
        }
    }

    /// The map slots of all elements, in byte order of their keys. This alone and `copy` take memory; the error is
    /// that there is none left.
    pub fn in_order(&self, alloc: Global) -> Result<Vec<usize>, AllocError>
        ensures { IfOk result (λ v.
            AreInOrder self.now.index (key_at self.now.slots) None v.items) }
    {
        match &self.elements {
            Elements::Hash(map) => map.in_order(alloc),
            Elements::Array(map) => map.in_order(alloc),
        }
    }

    /// The key and the value of a linked element, by its map slot.
    pub fn element(&self, slot: usize) -> (KeyBytes, ValueBytes)
        requires { map.get self.now.index (key_at self.now.slots slot) ≡ Some slot }
        ensures key { result.0.items ≡ key_at self.now.slots slot }
        ensures value { result.1.items ≡ value_at self.now.slots slot }
    {
        match &self.elements {
            Elements::Hash(map) => map.element(slot),
            Elements::Array(map) => map.element(slot),
        }
    }
}
