//! What the calls of the writer are made of.
ghost use Rattle.std.specs.Prelude.{◌≡◌, ◌⊎◌, ℕ, ◌+◌, ◌<◌, ◌≤◌, List, ◌∷◌, ◌++◌, length, slice_index, slice_set};
ghost use Rattle.table_words.specs.declared.moves.Move.{Move};
ghost use Rattle.table_words.specs.declared.moves.Move.TheVariants.{Put, Double};
ghost use Rattle.table_words.specs.History.{word_at, key_of, Settles, IsSpare, MayDouble, MayLink};
ghost use Rattle.map_table.specs.Hashes.{layout_of};
ghost use Rattle.map_table.specs.Law.{width_of, ways_of};
ghost use Rattle.map_table.specs.Values.{stored_of};
ghost use Rattle.map_table.specs.Held.{IsKnown, Went, IsSized};
ghost use Rattle.map_table.specs.Writing.{Fills};

use crate::table::MapTable;
use atomic_table::Seat;
use table_words::View;

/// Writes words into a spare element, from a place on.
pub(crate) fn fill(
    table: &MapTable,
    seat: &mut Seat<u8, View>,
    element: usize,
    from: usize,
    words: &[u64],
)
    requires table { (seat.old.table_id ≡ table.now.id) × (seat.old.me.0.shape ≡ table.now.shape) }
    requires writer { seat.old.me.0.me ≡ 0 }
    requires known { IsKnown seat.old.me.0 }
    requires element { element < table.now.shape.elements }
    requires spare { IsSpare table.now.shape.readers element seat.old.me.0.mine }
    requires places { from + length words.now ≤ width_of table.now.shape }
    requires sized { IsSized table.now.shape }
    ensures table { seat.new.table_id ≡ seat.old.table_id }
    ensures held { seat.new.me.1 ≡ seat.old.me.1 }
    ensures steps { (ms : List Move) × Fills element from words.now (length words.now) ms
        × Went seat.old.me.0 (ms ++ seat.old.me.0.mine) seat.new.me.0 }
    ensures spare { IsSpare table.now.shape.readers element seat.new.me.0.mine }
    ensures words { (p : ℕ) → p < length words.now →
        word_at element (from + p) seat.new.me.0.seen ≡ slice_index words.now p }
    ensures others { (p : ℕ) → p < from →
        word_at element p seat.new.me.0.seen ≡ word_at element p seat.old.me.0.seen }
{
    for place in 0..words.len() {
        table.write(seat, element, from + place, words[place]);
    }
}

/// Writes a key and a value into a spare element.
pub(crate) fn fill_element(
    table: &MapTable,
    seat: &mut Seat<u8, View>,
    element: usize,
    key: &[u64],
    value: &[u64],
)
    requires table { (seat.old.table_id ≡ table.now.id) × (seat.old.me.0.shape ≡ table.now.shape) }
    requires writer { seat.old.me.0.me ≡ 0 }
    requires known { IsKnown seat.old.me.0 }
    requires element { element < table.now.shape.elements }
    requires spare { IsSpare table.now.shape.readers element seat.old.me.0.mine }
    requires key { length key.now ≡ table.now.shape.key_words }
    requires value { length value.now ≡ stored_of table.now.shape }
    ensures table { seat.new.table_id ≡ seat.old.table_id }
    ensures held { seat.new.me.1 ≡ seat.old.me.1 }
    ensures steps { (ks vs : List Move) × Fills element 0 key.now table.now.shape.key_words ks
        × Fills element table.now.shape.key_words value.now (stored_of table.now.shape) vs
        × Went seat.old.me.0 ((vs ++ ks) ++ seat.old.me.0.mine) seat.new.me.0 }
    ensures spare { IsSpare table.now.shape.readers element seat.new.me.0.mine }
    ensures key { key_of (layout_of table.now.shape) element seat.new.me.0.seen ≡ key.now }
{
    let shape = table.shape();
    fill(table, seat, element, 0, key);
    fill(table, seat, element, shape.key_words, value);
}

/// Puts the word of a way in a second one, and notes it.
pub(crate) fn double_word(
    table: &MapTable,
    seat: &mut Seat<u8, View>,
    ways: &mut Vec<u64>,
    from: usize,
    to: usize,
)
    requires table { (seat.old.table_id ≡ table.now.id) × (seat.old.me.0.shape ≡ table.now.shape) }
    requires writer { seat.old.me.0.me ≡ 0 }
    requires known { IsKnown seat.old.me.0 }
    requires from { from < ways_of table.now.shape }
    requires to { to < ways_of table.now.shape }
    requires ways { length ways.old.items ≡ ways_of table.now.shape }
    requires may { MayDouble (layout_of table.now.shape) seat.old.me.0.seen from to
        (slice_index ways.old.items from) }
    ensures table { seat.new.table_id ≡ seat.old.table_id }
    ensures held { seat.new.me.1 ≡ seat.old.me.1 }
    ensures ways { ways.new.items ≡ slice_set ways.old.items to (slice_index ways.old.items from) }
    ensures step { Went seat.old.me.0
        (Double from to (slice_index ways.old.items from) ∷ seat.old.me.0.mine) seat.new.me.0 }
{
    let word = ways[from];
    table.double(seat, from, to, word);
    ways[to] = word;
}

/// Puts a word in a way, and notes it.
pub(crate) fn put_word(
    table: &MapTable,
    seat: &mut Seat<u8, View>,
    ways: &mut Vec<u64>,
    way: usize,
    word: u64,
)
    requires table { (seat.old.table_id ≡ table.now.id) × (seat.old.me.0.shape ≡ table.now.shape) }
    requires writer { seat.old.me.0.me ≡ 0 }
    requires known { IsKnown seat.old.me.0 }
    requires way { way < ways_of table.now.shape }
    requires ways { length ways.old.items ≡ ways_of table.now.shape }
    requires may { (word ≡ 0) ⊎ MayLink (layout_of table.now.shape) seat.old.me.0.seen way word }
    requires settles { Settles table.now.shape.readers way word seat.old.me.0.mine }
    ensures table { seat.new.table_id ≡ seat.old.table_id }
    ensures held { seat.new.me.1 ≡ seat.old.me.1 }
    ensures ways { ways.new.items ≡ slice_set ways.old.items way word }
    ensures step { Went seat.old.me.0 (Put way word ∷ seat.old.me.0.mine) seat.new.me.0 }
{
    table.put(seat, way, word);
    ways[way] = word;
}
