//! How the writer finds the way of a key.
ghost use Rattle.std.specs.Prelude.{◌≡◌, ℕ, ◌+◌, ◌<◌, ◌≤◌, List, ◌++◌, Decides, IfSome, IsNone, length, slice_index};
ghost use Rattle.table_words.specs.declared.moves.Move.{Move};
ghost use Rattle.table_words.specs.Layout.{bucket_ways};
ghost use Rattle.table_words.specs.History.{word_in, key_of};
ghost use Rattle.table_words.specs.Lookups.{OnlySearches};
ghost use Rattle.table_words.specs.Found.{IsLinkedUnder};
ghost use Rattle.map_table.specs.Hashes.{layout_of, tag_of};
ghost use Rattle.map_table.specs.Law.{ways_of};
ghost use Rattle.map_table.specs.Held.{IsKnown, Went};

use crate::table::MapTable;
use atomic_table::Seat;
use table_words::{BUCKET_WAYS, View, candidates_of, named};

/// Whether an element has this key.
fn has_key(table: &MapTable, seat: &mut Seat<u8, View>, element: usize, key: &[u64]) -> bool
    requires table { (seat.old.table_id ≡ table.now.id) × (seat.old.me.0.shape ≡ table.now.shape) }
    requires writer { seat.old.me.0.me ≡ 0 }
    requires known { IsKnown seat.old.me.0 }
    requires element { element < table.now.shape.elements }
    requires key { length key.now ≡ table.now.shape.key_words }
    ensures table { seat.new.table_id ≡ seat.old.table_id }
    ensures held { seat.new.me.1 ≡ seat.old.me.1 }
    ensures steps { (ms : List Move) × OnlySearches (layout_of table.now.shape) 0 ms
        × Went seat.old.me.0 (ms ++ seat.old.me.0.mine) seat.new.me.0 }
    ensures key { Decides result
        (key_of (layout_of table.now.shape) element seat.new.me.0.seen ≡ key.now) }
{
    for place in 0..key.len() {
        if table.peek(seat, element, place) != key[place] {
            return false;
        }
    }
    true
}

/// Whether the key is linked in a way, by the words of all ways.
fn is_under(
    table: &MapTable,
    seat: &mut Seat<u8, View>,
    ways: &[u64],
    way: usize,
    tag: u64,
    key: &[u64],
) -> bool
    requires table { (seat.old.table_id ≡ table.now.id) × (seat.old.me.0.shape ≡ table.now.shape) }
    requires writer { seat.old.me.0.me ≡ 0 }
    requires known { IsKnown seat.old.me.0 }
    requires way { way < length ways.now }
    requires word { slice_index ways.now way ≡ word_in way seat.old.me.0.mine }
    requires tag { tag ≡ tag_of table.now.shape key.now }
    requires key { length key.now ≡ table.now.shape.key_words }
    ensures table { seat.new.table_id ≡ seat.old.table_id }
    ensures held { seat.new.me.1 ≡ seat.old.me.1 }
    ensures steps { (ms : List Move) × OnlySearches (layout_of table.now.shape) 0 ms
        × Went seat.old.me.0 (ms ++ seat.old.me.0.mine) seat.new.me.0 }
    ensures under { Decides result
        (IsLinkedUnder (layout_of table.now.shape) 0 key.now way seat.new.me.0.seen) }
{
    let word = ways[way];
    let Some(element) = named(word, tag) else {
        return false;
    };
    has_key(table, seat, element, key)
}

/// The way in which the key is linked, of the eight from this one on.
fn find_in(
    table: &MapTable,
    seat: &mut Seat<u8, View>,
    ways: &[u64],
    first: usize,
    tag: u64,
    key: &[u64],
) -> Option<usize>
    requires table { (seat.old.table_id ≡ table.now.id) × (seat.old.me.0.shape ≡ table.now.shape) }
    requires writer { seat.old.me.0.me ≡ 0 }
    requires known { IsKnown seat.old.me.0 }
    requires first { first + bucket_ways ≤ length ways.now }
    requires words { (way : ℕ) → way < length ways.now →
        slice_index ways.now way ≡ word_in way seat.old.me.0.mine }
    requires tag { tag ≡ tag_of table.now.shape key.now }
    requires key { length key.now ≡ table.now.shape.key_words }
    ensures table { seat.new.table_id ≡ seat.old.table_id }
    ensures held { seat.new.me.1 ≡ seat.old.me.1 }
    ensures steps { (ms : List Move) × OnlySearches (layout_of table.now.shape) 0 ms
        × Went seat.old.me.0 (ms ++ seat.old.me.0.mine) seat.new.me.0 }
    ensures within { IfSome result (λ way. way < length ways.now) }
    ensures found { IfSome result (λ way.
        IsLinkedUnder (layout_of table.now.shape) 0 key.now way seat.new.me.0.seen) }
    ensures none { IsNone result → (way : ℕ) → first ≤ way → way < first + bucket_ways →
        IsLinkedUnder (layout_of table.now.shape) 0 key.now way seat.new.me.0.seen → ⊥ }
{
    for at in 0..BUCKET_WAYS {
        if is_under(table, seat, ways, first + at, tag, key) {
            return Some(first + at);
        }
    }
    None
}

/// The way in which the key is linked.
pub(crate) fn find_way(
    table: &MapTable,
    seat: &mut Seat<u8, View>,
    ways: &[u64],
    key: &[u64],
) -> Option<usize>
    requires table { (seat.old.table_id ≡ table.now.id) × (seat.old.me.0.shape ≡ table.now.shape) }
    requires writer { seat.old.me.0.me ≡ 0 }
    requires known { IsKnown seat.old.me.0 }
    requires ways { length ways.now ≡ ways_of table.now.shape }
    requires words { (way : ℕ) → way < length ways.now →
        slice_index ways.now way ≡ word_in way seat.old.me.0.mine }
    requires key { length key.now ≡ table.now.shape.key_words }
    ensures table { seat.new.table_id ≡ seat.old.table_id }
    ensures held { seat.new.me.1 ≡ seat.old.me.1 }
    ensures steps { (ms : List Move) × OnlySearches (layout_of table.now.shape) 0 ms
        × Went seat.old.me.0 (ms ++ seat.old.me.0.mine) seat.new.me.0 }
    ensures within { IfSome result (λ way. way < ways_of table.now.shape) }
    ensures found { IfSome result (λ way.
        IsLinkedUnder (layout_of table.now.shape) 0 key.now way seat.new.me.0.seen) }
    ensures none { IsNone result → (way : ℕ) →
        IsLinkedUnder (layout_of table.now.shape) 0 key.now way seat.new.me.0.seen → ⊥ }
{
    let candidates = candidates_of(table.shape(), key);
    if let Some(way) = find_in(table, seat, ways, candidates.first, candidates.tag, key) {
        return Some(way);
    }
    find_in(table, seat, ways, candidates.second, candidates.tag, key)
}
