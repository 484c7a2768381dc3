//! How a reader goes through all ways.
ghost use Rattle.std.specs.Prelude.{◌≡◌, ℕ, ◌<◌, List, ◌++◌, IfSome, IsNone, length};
ghost use Rattle.table_words.specs.declared.moves.Move.{Move};
ghost use Rattle.table_words.specs.declared.moves.Move.TheVariants.{Learn};
ghost use Rattle.table_words.specs.History.{inside, Holds};
ghost use Rattle.table_words.specs.Lookups.{OnlySearches};
ghost use Rattle.table_words.specs.Scanned.{LookedAt};
ghost use Rattle.table_words.specs.Walks.{Meets};
ghost use Rattle.map_table.specs.Hashes.{layout_of};
ghost use Rattle.map_table.specs.Law.{ways_of};
ghost use Rattle.map_table.specs.Held.{IsKnown, Does, Goes};
ghost use Rattle.map_table.specs.Reading.{Reads, ReadsWay};

use crate::table::{MapTable, ReadSeat};
use table_words::element_in;

impl MapTable {
    /// Learns a way, and loads the key of the element that it names: the element, whose words may be loaded, and those of
    /// its value stored, until the section ends. `None` where the way is empty, and then nothing is written.
    ///
    /// Whoever meets all ways in one section, from 0 on up to `buckets * BUCKET_WAYS`, walks through the table. The walk
    /// meets each key that stays linked in one way meanwhile (law `walks_of_readers_meet_keys_that_stay`). It meets no
    /// key that was never linked (law `walks_of_readers_meet_linked_keys`). One that is linked or unlinked meanwhile is
    /// met or not, and one that goes to another way may be met twice.
    #[inline]
    pub fn meet(&self, seat: &mut ReadSeat, way: usize, key: &mut [u64]) -> Option<usize>
        requires table { seat.old.table ≡ self.now }
        requires inside { inside seat.old.view.mine ≡ 1 }
        requires known { IsKnown seat.old.view }
        requires way { way < ways_of self.now.shape }
        requires key { length key.old ≡ self.now.shape.key_words }
        ensures searched { (ms : List Move) × Goes seat.old ms seat.new
            × OnlySearches (layout_of self.now.shape) 0 ms × LookedAt way ms }
        ensures inside { inside seat.new.view.mine ≡ 1 }
        ensures held { IfSome result (λ element. Holds element seat.new.view.mine) }
        ensures within { IfSome result (λ element. element < self.now.shape.elements) }
        ensures keeps { (element : ℕ) → Holds element seat.old.view.mine →
            Holds element seat.new.view.mine }

        // These moves were one learn of the way, and one load for each word of the key.
        ensures loaded { IfSome result (λ element.
            ReadsWay way element key.new self.now.shape.key_words seat.old seat.new) }

        // When the way was learnt, the element was linked there under the key.
        ensures met { IfSome result (λ element. (late : List (ℕ × Move))
            × (seat.new.view.seen ≡ late ++ seat.old.view.seen)
            × Meets (layout_of self.now.shape) 0 key.new seat.old.view.me way element late
            seat.old.view.seen) }
        ensures none { IsNone result → Does seat.old (Learn way 0) seat.new }
        ensures unwritten { IsNone result → key.new ≡ key.old }
        ensures count { length key.new ≡ length key.old }
    {
        let word = self.learn(seat, way);
        if word == 0 {
            return None;
        }
        let element = element_in(word);
        self.copy_key(seat, element, key);
        seat.is_readers();
        Some(element)
    }

    /// Loads the key of an element that was found.
    #[inline]
    fn copy_key(&self, seat: &mut ReadSeat, element: usize, key: &mut [u64])
        requires table { seat.old.table ≡ self.now }
        requires held { Holds element seat.old.view.mine }
        requires known { IsKnown seat.old.view }
        requires element { element < self.now.shape.elements }
        requires key { length key.old ≡ self.now.shape.key_words }
        ensures count { length key.new ≡ length key.old }
        ensures loaded { (ms : List Move) × Goes seat.old ms seat.new
            × OnlySearches (layout_of self.now.shape) 0 ms
            × Reads element 0 key.new self.now.shape.key_words ms }
    {
        for place in 0..key.len() {
            key[place] = self.load(seat, element, place);
        }
    }
}
