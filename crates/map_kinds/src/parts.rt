//! The parts of a hash map: an arena with an index and the lists that stand in it.
ghost use Rattle.std.specs.Prelude.{◌≡◌, ◌<◌, ◌≤◌, ◌+◌, length, slice_get, is_some, None, Some, IfSome, IfNone, IfOk, OnErr, if◌then◌else◌, option_copied};
ghost use Rattle.std.specs.FinMap as map;
ghost use Rattle.bpf_model.specs.Schedule.{turned, no_queues};
ghost use Rattle.bpf_model.specs.declared.event.Given.TheVariants as given;
ghost use Rattle.bpf_model.specs.Access.{byte_count, number_at};
ghost use Rattle.bpf_model.specs.Access.{with_bytes};
ghost use Rattle.bpf_model.specs.Helper.{hash_error};
ghost use Rattle.bpf_model.specs.MapState.{MapState, slots_of_shape};
ghost use Rattle.bpf_model.specs.Shapes.{IsShape};
ghost use Rattle.element_store.specs.State.{key_at, value_at, is_last_use, given_back, with_slot_value, new_arena};
ghost use Rattle.hash_index.specs.Order.{AreInOrder, IsAbove, NoneAbove, NoneBetween};
ghost use Rattle.element_store.specs.Queued.{reaped_lists};
ghost use Rattle.map_kinds.specs.Parted.{IsParted, IsInHand, IsInUse};
ghost use Rattle.map_kinds.specs.Updated.{IsPut, error_of, unlinked_of};

use crate::admission::Admission;
use bpf_model::{Errno, Given, MapShape, Width};
use element_store::{Arena, DeferredSlots};
use hash_index::Index;
use std::alloc::{AllocError, Global};
use std::marker::Model;

/// The slots of a map, each of which stands once at most: free, linked, in one of the three lists, or
/// worn. Between two calls a slot may be in hand: taken, and standing nowhere.
#[derive(Drop)]
pub struct Parts<I: Index> {
    arena: Arena,
    index: I,
    deferred: DeferredSlots,
}

impl<I: Index> Model for Parts<I> {
    ghost use Rattle.element_store.specs.Deferred.{DeferredFits, deferred_lists};
    ghost use Rattle.map_kinds.specs.Parted.{PartsView, IsParted, parts_code};

    ghost Value = { PartsView };

    ghost coded = { parts_code };

    ghost view = { λ p. record {
      index = I.contents p.index p.arena;
      lists = deferred_lists p.deferred p.arena;
      arena = p.arena;
    } };

    ghost invariant = { λ p. (I.fits p.index p.arena × DeferredFits p.deferred p.arena)
        × IsParted (record {
          index = I.contents p.index p.arena;
          lists = deferred_lists p.deferred p.arena;
          arena = p.arena;
        }) };
}

impl<I: Index> Parts<I> {
    /// A law: each slot stands once at most.
    pub fn is_parted(&self)
        ensures { IsParted self.now }
    {
        let _arena = &self.arena;
    }

    /// The slot of a key.
    pub fn find(&self, key: &[u8]) -> Option<usize>
        ensures found { result ≡ map.get self.now.index key.now }
        ensures parted { IsParted self.now }
    {
        self.index.find(&self.arena, key).slot
    }

    /// Links the slot that has been free longest under a key; key and value have the arena's lengths. The
    /// slot that the key had is unlinked, and joins the end of next: it is the result. An error is that of
    /// the first test that fails, and then nothing has changed.
    pub fn update(
        &mut self,
        key: &[u8],
        value: &[u8],
        admission: Admission,
    ) -> Result<Option<usize>, Errno>
        requires key { length key.now ≡ self.old.arena.key_len }
        requires value { length value.now ≡ self.old.arena.value_len }
        ensures parted { IsParted self.old }
        ensures tested { (m : MapState) → m.shape.entries ≡ admission.entries →
            length m.bag ≡ length self.old.arena.free →
            hash_error admission.flags (is_some (map.get self.old.index key.now))
            admission.linked m
            ≡ error_of result }
        ensures err { OnErr result (self.new ≡ self.old) }
        ensures found { IfOk result (λ found. map.get self.old.index key.now ≡ found) }
        ensures room { IfOk result (λ found. IfNone found (admission.linked < admission.entries)) }
        ensures put { IfOk result (λ found. IsPut self.old self.new key.now value.now found) }
    {
        let place = self.index.find(&self.arena, key);
        match admission.first_error(place.slot.is_some()) {
            Some(errno) => Err(errno),
            None => match self.arena.take(key, value) {
                None => Err(Errno::NoMemory),
                Some(slot) => {
                    self.index.link(&mut self.arena, place, slot);
                    match place.slot {
                        None => Ok(None),
                        Some(old) => {
                            self.deferred.retire(&mut self.arena, old);
                            Ok(Some(old))
                        }
                    }
                }
            },
        }
    }

    /// Unlinks the slot of a key, if there is one, which joins the end of next.
    pub fn remove(&mut self, key: &[u8]) -> Option<usize>
        ensures parted { IsParted self.old }
        ensures found { result ≡ map.get self.old.index key.now }
        ensures new { self.new ≡ unlinked_of self.old key.now result self.new.arena.links }
    {
        match self.index.unlink(&mut self.arena, key) {
            None => None,
            Some(slot) => {
                self.deferred.retire(&mut self.arena, slot);
                Some(slot)
            }
        }
    }

    /// A grace period ends, and the next begins.
    pub fn advance(&mut self)
        ensures { let old = self.old in self.new ≡ record {
          index = old.index;
          lists = turned old.lists;
          arena = record old.arena { links = self.new.arena.links };
        } }
    {
        self.deferred.advance(&mut self.arena);
    }

    /// The first ready slot, which is in hand then.
    pub fn reap(&mut self) -> Option<usize>
        ensures first { result ≡ slice_get self.old.lists.ready 0 }
        ensures new { let old = self.old in self.new ≡ record {
          index = old.index;
          lists = reaped_lists old.lists;
          arena = record old.arena { links = self.new.arena.links };
        } }
        ensures held { IfSome result (IsInHand self.new) }
        ensures parted { IsParted self.new }
    {
        self.deferred.reap(&mut self.arena)
    }

    /// Gives a slot in hand back.
    pub fn give(&mut self, slot: usize) -> Given
        requires held { IsInHand self.old slot }
        ensures given { result
            ≡ (if is_last_use self.old.arena slot then given.Worn else given.Free) }
        ensures new { self.new ≡ record self.old { arena = given_back self.old.arena slot } }
    {
        self.arena.give(slot)
    }

    /// The key in a slot.
    pub fn key(&self, slot: usize) -> &[u8]
        requires { slot < length self.now.arena.slots }
        ensures { result.now ≡ key_at self.now.arena.slots slot }
    {
        self.arena.key(slot)
    }

    /// The value in a slot that is linked or in one of the three lists.
    pub fn value(&self, slot: usize) -> &[u8]
        requires { IsInUse self.now.index self.now.arena.slots self.now.lists slot }
        ensures { result.now ≡ value_at self.now.arena.slots slot }
    {
        self.arena.value(slot)
    }

    /// The little-endian number in the value of a slot that is linked or in one of the three lists, from an
    /// offset in bytes on.
    pub fn load(&self, slot: usize, offset: usize, width: Width) -> u64
        requires stands { IsInUse self.now.index self.now.arena.slots self.now.lists slot }
        requires inside { offset + byte_count width ≤ self.now.arena.value_len }
        ensures { number_at (slice_get (value_at self.now.arena.slots slot))
            offset (byte_count width)
            ≡ Some result }
    {
        self.arena.load(slot, offset, width)
    }

    /// Stores the low bytes of a number in the value of a slot that is linked or in one of the three lists,
    /// from an offset in bytes on.
    pub fn store(&mut self, slot: usize, offset: usize, width: Width, number: u64)
        requires stands { IsInUse self.old.index self.old.arena.slots self.old.lists slot }
        requires inside { offset + byte_count width ≤ self.old.arena.value_len }
        ensures { self.new ≡ record self.old {
          arena = with_slot_value self.old.arena slot
              (with_bytes offset (byte_count width) number (value_at self.old.arena.slots slot));
        } }
    {
        self.arena.store(slot, offset, width, number);
    }

    /// The slot of the least key above a bound, in byte order. Every key is above no bound.
    pub fn next_above(&self, bound: Option<&[u8]>) -> Option<usize>
        ensures some { IfSome result (λ i.
            map.get self.now.index (key_at self.now.arena.slots i) ≡ Some i) }
        ensures above { IfSome result (λ i.
            IsAbove (option_copied bound.entry) (key_at self.now.arena.slots i)) }
        ensures least { IfSome result (λ i.
            NoneBetween self.now.index (option_copied bound.entry)
            (key_at self.now.arena.slots i)) }
        ensures none { IfNone result (NoneAbove self.now.index (option_copied bound.entry)) }
        ensures parted { IsParted self.now }
    {
        self.index.next_above(&self.arena, bound)
    }

    /// All linked slots, in byte order of their keys. Fails where memory runs out.
    pub fn in_order(&self, alloc: Global) -> Result<Vec<usize>, AllocError>
        ensures { IfOk result (λ v.
            AreInOrder self.now.index (key_at self.now.arena.slots) None v.items) }
    {
        self.index.in_order(alloc, &self.arena)
    }
}

impl<I: Index + Drop> Parts<I> {
    /// The parts of a map that has nothing: a free slot for each of its entries and spare ones, and an
    /// index for its entries. Fails where memory runs out.
    pub fn new(alloc: Global, shape: MapShape) -> Result<Parts<I>, AllocError>
        requires { IsShape shape }
        ensures { IfOk result (λ p. p ≡ record {
          index = map.empty;
          lists = no_queues;
          arena = new_arena (slots_of_shape shape)
              shape.key_len shape.value_len shape.reuse_limit;
        }) }
    {
        let slots = shape.entries + shape.spare;
        let arena = Arena::new(
            alloc,
            slots,
            shape.key_len,
            shape.value_len,
            shape.reuse_limit,
        )?;
        let index = I::new(alloc, shape.entries, slots)?;
        Ok(Parts {
            arena,
            index,
            deferred: DeferredSlots::new(),
        })
    }

    /// Other parts in the same state. Fails where memory runs out.
    pub fn copy(&self, alloc: Global) -> Result<Parts<I>, AllocError>
        ensures { IfOk result (λ p. p ≡ self.now) }
    {
        let arena = self.arena.copy()?;
        let index = self.index.copy(alloc)?;
        Ok(Parts {
            arena,
            index,
            deferred: self.deferred.copy(),
        })
    }
}
