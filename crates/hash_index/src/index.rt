//! What an index of slots is.
ghost use Rattle.std.specs.Prelude.{◌≡◌, ◌≤◌, ◌+◌, ℕ, List, None, Some, length, IfOk, IfSome, IfNone, option_copied};
ghost use Rattle.std.specs.FinMap as map;
ghost use Rattle.bpf_model.specs.View.{KeyMap};
ghost use Rattle.element_store.specs.State.{ArenaState, IsTaken, LinksOf, SameAt, indexed, is_at, key_at};
ghost use Rattle.hash_index.specs.declared.place.Place.{Place};
ghost use Rattle.hash_index.specs.Order.{IsAbove, AreInOrder, NoneAbove, NoneBetween};

use crate::place::Place;
use element_store::Arena;
use std::alloc::{AllocError, Global};

/// Slots of an arena by their keys, at most one of a key. What an index has is read over the arena's state:
/// each call takes the arena in which the index stands.
pub trait Index {
    /// The slot of each key, over this arena.
    ghost contents: { Self → ArenaState → KeyMap };

    /// That the index stands in this arena, and has room for each of its slots.
    ghost fits: { Self → ArenaState → Type 0 };

    /// That a place is that of a key, over this arena.
    ghost is_place: { Self → ArenaState → List ℕ → Place → Type 0 };

    /// That the index is as large as one that is made for so many entries. It stays so, whatever joins and
    /// leaves.
    ghost is_made_for: { Self → ℕ → Type 0 };

    /// An index that has nothing. It is made for any arena of at most so many slots, and for about so many
    /// entries; it may come to have more. No other calls but `copy` and `in_order` take memory. The error is that there is
    /// none left.
    fn new(alloc: Global, entries: usize, slots: usize) -> Result<Self, AllocError>
        ensures fits { IfOk result (λ x. (a : ArenaState) → length a.slots ≤ slots → fits x a) }
        ensures empty { IfOk result (λ x. (a : ArenaState) → length a.slots ≤ slots →
            contents x a ≡ map.empty) }
        ensures made { IfOk result (λ x. is_made_for x entries) };

    /// The place of a key, with the key's slot if there is one.
    fn find(&self, arena: &Arena, key: &[u8]) -> Place
        requires { fits self.now arena.now }
        ensures slot { result.slot ≡ map.get (contents self.now arena.now) key.now }
        ensures place { is_place self.now arena.now key.now result };

    /// A taken slot that the index does not have joins under its key, at the place of that key. The slot
    /// that the key had leaves.
    fn link(&mut self, arena: &mut Arena, place: Place, slot: usize)
        requires fits { fits self.old arena.old }
        requires taken { IsTaken arena.old slot }
        requires apart { indexed (contents self.old arena.old) arena.old.slots slot ≡ 0 }
        requires place { is_place self.old arena.old (key_at arena.old.slots slot) place }
        requires found { place.slot
            ≡ map.get (contents self.old arena.old) (key_at arena.old.slots slot) }
        ensures contents { contents self.new arena.new
            ≡ map.insert (contents self.old arena.old) (key_at arena.old.slots slot) slot }
        ensures fits { fits self.new arena.new }
        ensures links { LinksOf (λ j. indexed (contents self.old arena.old) arena.old.slots j
            + is_at (Some slot) j) arena.old arena.new }
        ensures made { (n : ℕ) → is_made_for self.old n → is_made_for self.new n };

    /// The slot of a key leaves the index, if there is one.
    fn unlink(&mut self, arena: &mut Arena, key: &[u8]) -> Option<usize>
        requires fits { fits self.old arena.old }
        ensures slot { result ≡ map.get (contents self.old arena.old) key.now }
        ensures contents { contents self.new arena.new
            ≡ map.remove (contents self.old arena.old) key.now }
        ensures fits { fits self.new arena.new }
        ensures links { LinksOf (indexed (contents self.old arena.old) arena.old.slots)
            arena.old arena.new }
        ensures made { (n : ℕ) → is_made_for self.old n → is_made_for self.new n };

    /// The slot of the least key above a bound, in byte order, if there is one. Every key is above no bound,
    /// and a bound may have any length.
    fn next_above(&self, arena: &Arena, bound: Option<&[u8]>) -> Option<usize>
        requires { fits self.now arena.now }
        ensures some { IfSome result (λ i.
            map.get (contents self.now arena.now) (key_at arena.now.slots i) ≡ Some i) }
        ensures above { IfSome result (λ i.
            IsAbove (option_copied bound.entry) (key_at arena.now.slots i)) }
        ensures least { IfSome result (λ i.
            NoneBetween (contents self.now arena.now) (option_copied bound.entry)
            (key_at arena.now.slots i)) }
        ensures none { IfNone result
            (NoneAbove (contents self.now arena.now) (option_copied bound.entry)) };

    /// All its slots, in byte order of their keys. The error is that there is no memory left.
    fn in_order(&self, alloc: Global, arena: &Arena) -> Result<Vec<usize>, AllocError>
        requires { fits self.now arena.now }
        ensures { IfOk result (λ v.
            AreInOrder (contents self.now arena.now) (key_at arena.now.slots) None v.items) };

    /// The same slots in an index of its own, which stands wherever this one does. The error is that there is
    /// no memory left.
    fn copy(&self, alloc: Global) -> Result<Self, AllocError>
        ensures same { IfOk result (λ y. (a : ArenaState) → fits self.now a →
            fits y a × (contents y a ≡ contents self.now a)) }
        ensures made { IfOk result (λ y. (n : ℕ) → is_made_for self.now n → is_made_for y n) };

    /// An index reads nothing of the arena but what stands in its own slots.
    ghost frame: { (x : Self) (a b : ArenaState) → fits x a →
        SameAt (indexed (contents x a) a.slots) a b → fits x b × (contents x b ≡ contents x a) };

    /// So a key's place is the same over any arena with the same own slots.
    ghost stays: { (x : Self) (a b : ArenaState) (key : List ℕ) (p : Place) → fits x a →
        SameAt (indexed (contents x a) a.slots) a b → is_place x a key p → is_place x b key p };
}
