//! An index by a hash of the key.
ghost use Rattle.std.specs.Prelude.{◌≡◌, IfOk, None, Some, length, min, option_copied, replicate};
ghost use Rattle.std.specs.FinMap as map;
ghost use Rattle.std.specs.Ordering.{nat_cmp};
ghost use Rattle.std.specs.Cmp.Lexicographic.{slice_cmp};
ghost use Rattle.std.specs.List.Sorted.{IsPermutation, IsSortedByKey};
ghost use Rattle.bpf_model.specs.declared.limits.TheConstants.{MAX_ENTRIES};
ghost use Rattle.element_store.specs.State.{IsTaken, LinksOf, indexed, is_at, key_at};
ghost use Rattle.hash_index.specs.Buckets.{BucketsFits, HeadsFit, IsLeastPowerOfTwo, IsPlaceIn, chained_slots, contents_in};
ghost use Rattle.hash_index.specs.Chains.{bucket_of};
ghost use Rattle.hash_index.specs.Order.{IsLeastOf};

use crate::chain::{add_chain, cut, least_with, search};
use crate::hash::{HALF_BYTES, WORD_BYTES};
use crate::index::Index;
use crate::key_form::{AnyLength, HalfWord, KeyForm, OneWord};
use crate::place::Place;
use bpf_model::MAX_ENTRIES;
use element_store::Arena;
use std::alloc::{AllocError, Global};

/// The heads of chains of slots, whose links stand in the slots themselves: the least power of two that is
/// no less than the entries, at most `MAX_ENTRIES`. The chain of a key is told by a hash of its bytes:
/// `find` and `unlink` hash a key and walk its chain once, `link` does neither, `next_above` walks all
/// chains, and `in_order` sorts their slots. A slot joins at the head of its chain.
#[derive(Drop)]
pub struct Buckets {
    heads: Vec<Option<usize>>,
}

/// How many chains there are for so many keys: the least power of two that is no less. More keys than a
/// map may link count as so many.
fn chain_count(entries: usize) -> usize
    ensures { IsLeastPowerOfTwo (min entries MAX_ENTRIES) result }
{
    entries.min(MAX_ENTRIES).next_power_of_two()
}

/// The heads of so many chains, each without a slot. Fails where memory runs out.
fn empty_heads(alloc: Global, count: usize) -> Result<Vec<Option<usize>>, AllocError>
    ensures { IfOk result (λ v. v.items ≡ replicate count None) }
{
    vec![in alloc; None; count]
}

/// The slot of the least key above a bound, of all chains.
fn least_in(heads: &[Option<usize>], arena: &Arena, bound: Option<&[u8]>) -> Option<usize>
    requires { HeadsFit heads.now arena.now }
    ensures { IsLeastOf (key_at arena.now.slots) (option_copied bound.entry)
        (chained_slots heads.now arena.now) result }
{
    let mut least = None;
    for head in heads {
        least = least_with(arena, *head, bound, least);
    }
    least
}

/// The slots of all chains, one chain behind the other.
fn slots_in(alloc: Global, heads: &[Option<usize>], arena: &Arena) -> Result<Vec<usize>, AllocError>
    requires { HeadsFit heads.now arena.now }
    ensures { IfOk result (λ v. v.items ≡ chained_slots heads.now arena.now) }
{
    let mut slots = Vec::new(alloc);
    for head in heads {
        add_chain(arena, *head, &mut slots)?;
    }
    Ok(slots)
}

/// Puts slots in the order of their keys.
fn sort_slots(slots: &mut Vec<usize>, arena: &Arena)
    ensures same { IsPermutation slots.old.items slots.new.items }
    ensures order { IsSortedByKey (key_at arena.now.slots) (slice_cmp nat_cmp) slots.new.items }
{
    slots.sort_unstable_by(|a, b| arena.compare_keys(*a, *b));
}

impl Buckets {
    /// The place of a key of this form.
    #[inline(always)]
    fn find_in<K: KeyForm>(&self, arena: &Arena, key: &[u8]) -> Place
        requires fits { BucketsFits self.now arena.now }
        requires serves { K.serves key.now }
        ensures slot { result.slot ≡ map.get (contents_in self.now arena.now) key.now }
        ensures place { IsPlaceIn self.now.heads.items arena.now key.now result }
    {
        let home = K::bucket(key, self.heads.len());
        search::<K>(arena, home, self.heads[home], key)
    }

    /// The place of a key, of any length, by a call: so the code for keys of one word and of half a word stays small.
    #[inline(never)]
    fn find_any(&self, arena: &Arena, key: &[u8]) -> Place
        requires { BucketsFits self.now arena.now }
        ensures slot { result.slot ≡ map.get (contents_in self.now arena.now) key.now }
        ensures place { IsPlaceIn self.now.heads.items arena.now key.now result }
    {
        self.find_in::<AnyLength>(arena, key)
    }

    /// A taken slot joins the chain of its key, which no slot has.
    #[inline]
    fn join(&mut self, arena: &mut Arena, home: usize, slot: usize)
        requires fits { BucketsFits self.old arena.old }
        requires taken { IsTaken arena.old slot }
        requires home { home ≡ bucket_of (length self.old.heads.items) (key_at arena.old.slots slot) }
        requires absent { map.get (contents_in self.old arena.old) (key_at arena.old.slots slot)
            ≡ None }
        ensures contents { contents_in self.new arena.new
            ≡ map.insert (contents_in self.old arena.old) (key_at arena.old.slots slot) slot }
        ensures fits { BucketsFits self.new arena.new }
        ensures links { LinksOf (is_at (Some slot)) arena.old arena.new }
        ensures count { length self.new.heads.items ≡ length self.old.heads.items }
    {
        arena.set_next(slot, self.heads[home]);
        self.heads[home] = Some(slot);
    }

    /// The slot of a key leaves its chain.
    #[inline]
    fn leave(&mut self, arena: &mut Arena, place: Place, slot: usize)
        requires fits { BucketsFits self.old arena.old }
        requires place { IsPlaceIn self.old.heads.items arena.old (key_at arena.old.slots slot) place }
        requires slot { place.slot ≡ Some slot }
        requires linked { map.get (contents_in self.old arena.old) (key_at arena.old.slots slot)
            ≡ Some slot }
        ensures contents { contents_in self.new arena.new
            ≡ map.remove (contents_in self.old arena.old) (key_at arena.old.slots slot) }
        ensures fits { BucketsFits self.new arena.new }
        ensures links { LinksOf (indexed (contents_in self.old arena.old) arena.old.slots)
            arena.old arena.new }
        ensures count { length self.new.heads.items ≡ length self.old.heads.items }
    {
        let first = self.heads[place.home];
        self.heads[place.home] = cut(arena, first, place.last, slot);
    }
}

impl Index for Buckets {
    ghost use Rattle.hash_index.specs.Buckets.{contents_in, AreHeadsFor, BucketsFits, buckets_place};

    ghost contents = { contents_in };

    ghost fits = { BucketsFits };

    ghost is_place = { buckets_place };

    ghost is_made_for = { AreHeadsFor };

    fn new(alloc: Global, entries: usize, _slots: usize) -> Result<Self, AllocError> {
        Ok(Buckets {
            heads: empty_heads(alloc, chain_count(entries))?,
        })
    }

    #[inline(always)]
    fn find(&self, arena: &Arena, key: &[u8]) -> Place {
        if key.len() == WORD_BYTES {
            self.find_in::<OneWord>(arena, key)
        } else if key.len() == HALF_BYTES {
            self.find_in::<HalfWord>(arena, key)
        } else {
            self.find_any(arena, key)
        }
    }

    #[inline]
    fn link(&mut self, arena: &mut Arena, place: Place, slot: usize) {
        match place.slot {
            None => self.join(arena, place.home, slot),
            Some(old) => {
                self.leave(arena, place, old);
                self.join(arena, place.home, slot);
            }
        }
    }

    #[inline]
    fn unlink(&mut self, arena: &mut Arena, key: &[u8]) -> Option<usize> {
        let place = self.find(arena, key);
        match place.slot {
            None => None,
            Some(slot) => {
                self.leave(arena, place, slot);
                Some(slot)
            }
        }
    }

    fn next_above(&self, arena: &Arena, bound: Option<&[u8]>) -> Option<usize> {
        least_in(&self.heads, arena, bound)
    }

    fn in_order(&self, alloc: Global, arena: &Arena) -> Result<Vec<usize>, AllocError> {
        let mut slots = slots_in(alloc, &self.heads, arena)?;
        sort_slots(&mut slots, arena);
        Ok(slots)
    }

    fn copy(&self, alloc: Global) -> Result<Self, AllocError> {
        Ok(Buckets {
            heads: Vec::from_slice(alloc, &self.heads)?,
        })
    }

    ghost use Rattle.hash_index.specs.Frame.{buckets-frame, buckets-stays};

    ghost frame = { buckets-frame };

    ghost stays = { buckets-stays };
}
