//! How the writer finds an element that can go to the other bucket of its key.
ghost use Rattle.std.specs.Prelude.{◌≡◌, ◌≢◌, ℕ, ◌+◌, ◌<◌, ◌≤◌, ◌^◌, List, ◌++◌, IfSome, IsNone, length, slice_index};
ghost use Rattle.table_words.specs.declared.moves.Move.{Move};
ghost use Rattle.table_words.specs.Layout.{Names, bucket_ways, candidate_ways};
ghost use Rattle.table_words.specs.History.{word_in, key_of, IsSettled, MayDouble};
ghost use Rattle.table_words.specs.Lookups.{OnlySearches};
ghost use Rattle.map_table.specs.Hashes.{layout_of};
ghost use Rattle.map_table.specs.Law.{ways_of};
ghost use Rattle.map_table.specs.Held.{IsKnown, IsSized, Went};
ghost use Rattle.map_table.specs.Moving.{HasFullBuckets, IsNth};
ghost use Rattle.table_words.specs.Ways.{IsOfBoth};

use crate::reading::load_key;
use crate::table::MapTable;
use atomic_table::Seat;
use table_words::{
    BUCKET_WAYS, Candidates, MAX_WORDS, View, candidates_of, element_in, empty_of_both,
};

/// What came of making room for a key.
#[derive(Clone, Copy, Debug, PartialEq, Eq)]
pub enum Room {
    /// A way of the key's two buckets is empty.
    Made,
    /// An element could go to its other bucket, but a reader stayed in one section. So it stands where it stood, and a later
    /// call may make room.
    Held,
    /// Each element that stands in the key's two buckets could go nowhere else.
    Full,
}

/// The ways of two buckets, by number.
fn nth_way(candidates: Candidates, at: usize) -> usize
    requires at { at < candidate_ways }
    requires first { candidates.first + bucket_ways < 2 ^ 64 }
    requires second { candidates.second + bucket_ways < 2 ^ 64 }
    ensures { IsNth candidates.first candidates.second at result }
{
    if at < BUCKET_WAYS {
        candidates.first + at
    } else {
        candidates.second + (at - BUCKET_WAYS)
    }
}

/// An empty way of the other bucket of the key that is linked in a way.
fn second_way(
    table: &MapTable,
    seat: &mut Seat<u8, View>,
    ways: &[u64],
    way: usize,
) -> Option<usize>
    requires table { (seat.old.table_id ≡ table.now.id) × (seat.old.me.0.shape ≡ table.now.shape) }
    requires writer { seat.old.me.0.me ≡ 0 }
    requires known { IsKnown seat.old.me.0 }
    requires sized { IsSized table.now.shape }
    requires settled { IsSettled seat.old.me.0.mine }
    requires ways { length ways.now ≡ ways_of table.now.shape }
    requires words { (w : ℕ) → w < ways_of table.now.shape →
        slice_index ways.now w ≡ word_in w seat.old.me.0.mine }
    requires way { way < ways_of table.now.shape }
    requires some { slice_index ways.now way ≢ 0 }
    ensures table { seat.new.table_id ≡ seat.old.table_id }
    ensures held { seat.new.me.1 ≡ seat.old.me.1 }
    ensures steps { (ms : List Move) × OnlySearches (layout_of table.now.shape) 0 ms
        × Went seat.old.me.0 (ms ++ seat.old.me.0.mine) seat.new.me.0 }
    ensures some { IfSome result (λ to. (to < ways_of table.now.shape)
        × MayDouble (layout_of table.now.shape) seat.new.me.0.seen way to (slice_index ways.now way)) }
    ensures none { IsNone result → (element : ℕ) → Names (slice_index ways.now way) element →
        HasFullBuckets table.now.shape ways.now
        (key_of (layout_of table.now.shape) element seat.new.me.0.seen) }
{
    let shape = table.shape();
    let element = element_in(ways[way]);
    let mut words = [0; MAX_WORDS];
    let key = &mut words[..shape.key_words];
    load_key(table, seat, element, key);
    empty_of_both(ways, candidates_of(shape, key))
}

/// Of the ways of two buckets, which are full, one whose key has an empty way in its other bucket, and that one.
pub(crate) fn find_move(
    table: &MapTable,
    seat: &mut Seat<u8, View>,
    ways: &[u64],
    candidates: Candidates,
) -> Option<(usize, usize)>
    requires table { (seat.old.table_id ≡ table.now.id) × (seat.old.me.0.shape ≡ table.now.shape) }
    requires writer { seat.old.me.0.me ≡ 0 }
    requires known { IsKnown seat.old.me.0 }
    requires sized { IsSized table.now.shape }
    requires settled { IsSettled seat.old.me.0.mine }
    requires ways { length ways.now ≡ ways_of table.now.shape }
    requires words { (w : ℕ) → w < ways_of table.now.shape →
        slice_index ways.now w ≡ word_in w seat.old.me.0.mine }
    requires first { candidates.first + bucket_ways ≤ ways_of table.now.shape }
    requires second { candidates.second + bucket_ways ≤ ways_of table.now.shape }
    requires full { (w : ℕ) → IsOfBoth candidates.first candidates.second w → slice_index ways.now w ≢ 0 }
    ensures table { seat.new.table_id ≡ seat.old.table_id }
    ensures held { seat.new.me.1 ≡ seat.old.me.1 }
    ensures steps { (ms : List Move) × OnlySearches (layout_of table.now.shape) 0 ms
        × Went seat.old.me.0 (ms ++ seat.old.me.0.mine) seat.new.me.0 }
    ensures some { IfSome result (λ m. IsOfBoth candidates.first candidates.second m.0
        × (m.1 < ways_of table.now.shape)
        × MayDouble (layout_of table.now.shape) seat.new.me.0.seen m.0 m.1 (slice_index ways.now m.0)) }
    ensures none { IsNone result → (w element : ℕ) → IsOfBoth candidates.first candidates.second w →
        Names (slice_index ways.now w) element → HasFullBuckets table.now.shape ways.now
        (key_of (layout_of table.now.shape) element seat.new.me.0.seen) }
{
    for at in 0..2 * BUCKET_WAYS {
        let way = nth_way(candidates, at);
        if let Some(to) = second_way(table, seat, ways, way) {
            return Some((way, to));
        }
    }
    None
}
