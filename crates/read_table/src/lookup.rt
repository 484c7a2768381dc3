//! Finds the slot of a key, with no lock.
ghost use Rattle.std.specs.Prelude.{◌≡◌, ℕ, ◌+◌, ◌*◌, ◌<◌, ◌≤◌, ◌++◌, List, MatchBool, Some, IfSome, IsSome, length};
ghost use Rattle.read_table.specs.declared.view.Move.{Move};
ghost use Rattle.read_table.specs.History.{inside, Knows, IsLearnt};
ghost use Rattle.read_table.specs.Lookups.{OnlySearches, IsBrief, Refuted, AnswersLookup};
ghost use Rattle.read_table.specs.Found.{StaysLinked};
ghost use Rattle.read_table.specs.Limits.{word_bytes};
ghost use Rattle.read_table.specs.Held.{IsKnown, Goes};
ghost use Rattle.read_table.specs.Search.{HadKey, Searched};

use crate::table::{ReadSeat, ReadTable};
use crate::words::{home_of, word_of};

impl ReadTable {
    /// A slot that is linked under the key, or `None` where each slot was found without it. The search begins where the
    /// writer would rather link the key.
    pub fn lookup(&self, seat: &mut ReadSeat, key: &[u8]) -> Option<usize>
        requires table { seat.old.table ≡ self.now }
        requires inside { inside seat.old.view.mine ≡ 1 }
        requires known { IsKnown seat.old.view }
        requires key { length key.now ≡ word_bytes * self.now.shape.key_words }
        ensures searched { (ms : List Move) × Goes seat.old ms seat.new × OnlySearches self.now.shape ms
            × AnswersLookup self.now.shape key.now ms result × IsBrief self.now.shape ms }
        ensures inside { inside seat.new.view.mine ≡ 1 }
        ensures learnt { IfSome result (λ slot. IsLearnt slot seat.new.view.mine) }
        ensures slot { IfSome result (λ slot. slot < self.now.shape.slots) }
        ensures known { (slot h : ℕ) → Knows slot h seat.old.view.mine →
            Knows slot h seat.new.view.mine }

        // A key under which some slot stays linked through these moves is found.
        ensures found { (slot : ℕ) (ns : List Move) → seat.new.view.mine ≡ ns ++ seat.old.view.mine →
            StaysLinked self.now.shape key.now slot seat.old.view.me seat.old.view.mine ns seat.new.view.seen →
            IsSome result }
    {
        let found = self.search_all(seat, key);
        seat.is_readers();
        found
    }

    /// The same: from the home of the key up, and then from the first slot up to it.
    #[inline]
    fn search_all(&self, seat: &mut ReadSeat, key: &[u8]) -> Option<usize>
        requires table { seat.old.table ≡ self.now }
        requires inside { inside seat.old.view.mine ≡ 1 }
        requires known { IsKnown seat.old.view }
        requires key { length key.now ≡ word_bytes * self.now.shape.key_words }
        ensures { (ms : List Move) × Goes seat.old ms seat.new × OnlySearches self.now.shape ms
            × AnswersLookup self.now.shape key.now ms result × IsBrief self.now.shape ms }
    {
        let shape = self.shape();
        let home = home_of(key, shape.key_words, shape.slots);
        if let Some(slot) = self.search(seat, key, home, shape.slots) {
            return Some(slot);
        }
        self.search(seat, key, 0, home)
    }

    /// A slot that is linked under the key, of those from `low` on and below `high`.
    fn search(&self, seat: &mut ReadSeat, key: &[u8], low: usize, high: usize) -> Option<usize>
        requires table { seat.old.table ≡ self.now }
        requires inside { inside seat.old.view.mine ≡ 1 }
        requires known { IsKnown seat.old.view }
        requires key { length key.now ≡ word_bytes * self.now.shape.key_words }
        requires slots { (low ≤ high) × (high ≤ self.now.shape.slots) }
        ensures { (ms : List Move) × Goes seat.old ms seat.new × OnlySearches self.now.shape ms
            × Searched self.now.shape key.now low high ms result
            × (length ms + low * (1 + self.now.shape.key_words)
            ≤ high * (1 + self.now.shape.key_words)) }
    {
        for slot in low..high {
            if self.has(seat, slot, key) {
                return Some(slot);
            }
        }
        None
    }

    /// Whether the slot is linked, and under this key.
    #[inline]
    fn has(&self, seat: &mut ReadSeat, slot: usize, key: &[u8]) -> bool
        requires table { seat.old.table ≡ self.now }
        requires inside { inside seat.old.view.mine ≡ 1 }
        requires slot { slot < self.now.shape.slots }
        requires key { length key.now ≡ word_bytes * self.now.shape.key_words }
        ensures { (ms : List Move) × Goes seat.old ms seat.new × OnlySearches self.now.shape ms
            × MatchBool result (AnswersLookup self.now.shape key.now ms (Some slot))
            (Refuted self.now.shape key.now slot ms)
            × (length ms ≤ 1 + self.now.shape.key_words) }
    {
        self.learn(seat, slot) && self.has_key(seat, slot, key)
    }

    /// Whether a slot that was learnt has this key.
    #[inline]
    fn has_key(&self, seat: &mut ReadSeat, slot: usize, key: &[u8]) -> bool
        requires table { seat.old.table ≡ self.now }
        requires learnt { IsLearnt slot seat.old.view.mine }
        requires known { IsKnown seat.old.view }
        requires slot { slot < self.now.shape.slots }
        requires key { length key.now ≡ word_bytes * self.now.shape.key_words }
        ensures { (ms : List Move) × Goes seat.old ms seat.new × OnlySearches self.now.shape ms
            × MatchBool result (HadKey self.now.shape key.now slot ms)
            (Refuted self.now.shape key.now slot ms) × (length ms ≤ self.now.shape.key_words) }
    {
        for place in 0..self.shape().key_words {
            if self.load(seat, slot, place) != word_of(key, place) {
                return false;
            }
        }
        true
    }
}
