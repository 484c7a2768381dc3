//! Finds the element of a key, with no lock.
ghost use Rattle.std.specs.Prelude.{◌≡◌, ℕ, ◌+◌, ◌*◌, ◌<◌, ◌≤◌, ◌^◌, ◌++◌, List, MatchBool, IfSome, IsSome, length};
ghost use Rattle.table_words.specs.declared.moves.Move.{Move};
ghost use Rattle.table_words.specs.Layout.{bucket_ways};
ghost use Rattle.table_words.specs.History.{inside, Holds};
ghost use Rattle.table_words.specs.Lookups.{OnlySearches, LooksUp};
ghost use Rattle.map_table.specs.Hashes.{layout_of, tag_of};
ghost use Rattle.map_table.specs.Law.{ways_from, ways_of};
ghost use Rattle.map_table.specs.Held.{IsKnown, Goes};
ghost use Rattle.map_table.specs.Search.{HadKey, HadOther, Searched, StaysThere, WasThere};

use crate::table::{MapTable, ReadSeat};
use table_words::{BUCKET_WAYS, candidates_of, named};

impl MapTable {
    /// An element that is linked under the key, or `None` where each way of the key's two buckets was found without it.
    /// Its words may be loaded, and those of its value stored, until the section ends.
    ///
    /// It is inlined whatever calls it, since a caller most often knows how many words a key has.
    #[inline(always)]
    pub fn lookup(&self, seat: &mut ReadSeat, key: &[u64]) -> Option<usize>
        requires table { seat.old.table ≡ self.now }
        requires inside { inside seat.old.view.mine ≡ 1 }
        requires known { IsKnown seat.old.view }
        requires key { length key.now ≡ self.now.shape.key_words }
        ensures searched { (ms : List Move) × Goes seat.old ms seat.new
            × LooksUp (layout_of self.now.shape) 0 key.now ms result }
        ensures inside { inside seat.new.view.mine ≡ 1 }
        ensures held { IfSome result (λ element. Holds element seat.new.view.mine) }
        ensures element { IfSome result (λ element. element < self.now.shape.elements) }
        ensures keeps { (element : ℕ) → Holds element seat.old.view.mine →
            Holds element seat.new.view.mine }

        // A key that stays linked in one way through these moves, also while its value is replaced, is found.
        ensures found { (ns : List Move) → seat.new.view.mine ≡ ns ++ seat.old.view.mine →
            StaysThere self.now.shape key.now seat.old.view.me seat.old.view.mine ns seat.new.view.seen →
            IsSome result }

        // An element that is answered was linked under the key at some moment of these moves.
        ensures linked { (ns : List Move) → seat.new.view.mine ≡ ns ++ seat.old.view.mine →
            IfSome result (λ element. WasThere self.now.shape key.now element seat.old.view.me
            seat.old.view.mine ns seat.new.view.seen) }
    {
        let found = self.search_both(seat, key);
        seat.is_readers();
        found
    }

    /// The same: the first bucket, and then the second.
    #[inline(always)]
    fn search_both(&self, seat: &mut ReadSeat, key: &[u64]) -> Option<usize>
        requires table { seat.old.table ≡ self.now }
        requires inside { inside seat.old.view.mine ≡ 1 }
        requires known { IsKnown seat.old.view }
        requires key { length key.now ≡ self.now.shape.key_words }
        ensures searched { (ms : List Move) × Goes seat.old ms seat.new
            × LooksUp (layout_of self.now.shape) 0 key.now ms result }
        ensures element { IfSome result (λ element. element < self.now.shape.elements) }
    {
        let shape = self.shape();
        let candidates = candidates_of(shape, key);
        if let Some(element) = self.search(seat, key, candidates.first, candidates.tag) {
            return Some(element);
        }
        self.search(seat, key, candidates.second, candidates.tag)
    }

    /// An element that is linked under the key in one of the eight ways from this one on.
    #[inline(always)]
    fn search(&self, seat: &mut ReadSeat, key: &[u64], first: usize, tag: u64) -> Option<usize>
        requires table { seat.old.table ≡ self.now }
        requires inside { inside seat.old.view.mine ≡ 1 }
        requires known { IsKnown seat.old.view }
        requires key { length key.now ≡ self.now.shape.key_words }
        requires ways { first + bucket_ways ≤ ways_of self.now.shape }
        requires few { ways_of self.now.shape < 2 ^ 32 }
        requires tag { tag ≡ tag_of self.now.shape key.now }
        ensures { (ms : List Move) × Goes seat.old ms seat.new
            × OnlySearches (layout_of self.now.shape) 0 ms
            × Searched self.now.shape key.now first (first + bucket_ways) ms result
            × (length ms ≤ bucket_ways * (1 + self.now.shape.key_words)) }
    {
        let ways = self.first_way();
        for at in 0..BUCKET_WAYS {
            if let Some(element) = self.match_way(seat, key, ways, first + at, tag) {
                return Some(element);
            }
        }
        None
    }

    /// The element that the way names, if it has the key.
    #[inline(always)]
    fn match_way(
        &self,
        seat: &mut ReadSeat,
        key: &[u64],
        ways: usize,
        way: usize,
        tag: u64,
    ) -> Option<usize>
        requires table { seat.old.table ≡ self.now }
        requires inside { inside seat.old.view.mine ≡ 1 }
        requires key { length key.now ≡ self.now.shape.key_words }
        requires ways { ways ≡ ways_from self.now.shape }
        requires way { way < ways_of self.now.shape }
        requires tag { tag ≡ tag_of self.now.shape key.now }
        ensures { (ms : List Move) × Goes seat.old ms seat.new
            × OnlySearches (layout_of self.now.shape) 0 ms
            × Searched self.now.shape key.now way (way + 1) ms result
            × (length ms ≤ 1 + self.now.shape.key_words) }
    {
        let word = self.learn_behind(seat, ways, way);
        let Some(element) = named(word, tag) else {
            return None;
        };
        if !self.has_key(seat, element, key) {
            return None;
        }
        Some(element)
    }

    /// Whether an element that was found has this key.
    #[inline(always)]
    fn has_key(&self, seat: &mut ReadSeat, element: usize, key: &[u64]) -> bool
        requires table { seat.old.table ≡ self.now }
        requires held { Holds element seat.old.view.mine }
        requires known { IsKnown seat.old.view }
        requires element { element < self.now.shape.elements }
        requires key { length key.now ≡ self.now.shape.key_words }
        ensures { (ms : List Move) × Goes seat.old ms seat.new
            × OnlySearches (layout_of self.now.shape) 0 ms
            × MatchBool result (HadKey self.now.shape key.now element ms)
            (HadOther self.now.shape key.now element ms) × (length ms ≤ self.now.shape.key_words) }
    {
        for place in 0..key.len() {
            if self.load(seat, element, place) != key[place] {
                return false;
            }
        }
        true
    }
}
