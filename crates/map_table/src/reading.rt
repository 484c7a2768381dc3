//! How the writer reads the key and the values of an element.
ghost use Rattle.std.specs.Prelude.{◌≡◌, ◌+◌, ◌<◌, List, ◌++◌, length};
ghost use Rattle.table_words.specs.declared.moves.Move.{Move};
ghost use Rattle.table_words.specs.History.{key_of};
ghost use Rattle.table_words.specs.Lookups.{OnlySearches};
ghost use Rattle.map_table.specs.Counting.{AddsUp};
ghost use Rattle.map_table.specs.Hashes.{layout_of};
ghost use Rattle.map_table.specs.Held.{IsKnown, IsSized, Went};
ghost use Rattle.map_table.specs.Reading.{OnlyLoads, Reads};
ghost use Rattle.map_table.specs.Values.{copies_of, stored_of};

use crate::table::MapTable;
use atomic_table::Seat;
use table_words::View;

/// Loads the words of an element's key.
pub(crate) fn load_key(table: &MapTable, seat: &mut Seat<u8, View>, element: usize, key: &mut [u64])
    requires table { (seat.old.table_id ≡ table.now.id) × (seat.old.me.0.shape ≡ table.now.shape) }
    requires writer { seat.old.me.0.me ≡ 0 }
    requires known { IsKnown seat.old.me.0 }
    requires element { element < table.now.shape.elements }
    requires key { length key.old ≡ table.now.shape.key_words }
    ensures table { seat.new.table_id ≡ seat.old.table_id }
    ensures held { seat.new.me.1 ≡ seat.old.me.1 }
    ensures steps { (ms : List Move) × OnlySearches (layout_of table.now.shape) 0 ms
        × Went seat.old.me.0 (ms ++ seat.old.me.0.mine) seat.new.me.0 }
    ensures count { length key.new ≡ length key.old }
    ensures key { key_of (layout_of table.now.shape) element seat.new.me.0.seen ≡ key.new }
{
    for place in 0..key.len() {
        key[place] = table.peek(seat, element, place);
    }
}

/// Loads the words of all values of an element.
pub(crate) fn load_values(
    table: &MapTable,
    seat: &mut Seat<u8, View>,
    element: usize,
    words: &mut [u64],
)
    requires table { (seat.old.table_id ≡ table.now.id) × (seat.old.me.0.shape ≡ table.now.shape) }
    requires writer { seat.old.me.0.me ≡ 0 }
    requires known { IsKnown seat.old.me.0 }
    requires sized { IsSized table.now.shape }
    requires element { element < table.now.shape.elements }
    requires words { length words.old ≡ stored_of table.now.shape }
    ensures table { seat.new.table_id ≡ seat.old.table_id }
    ensures held { seat.new.me.1 ≡ seat.old.me.1 }
    ensures steps { (ms : List Move) × OnlyLoads ms
        × Reads element table.now.shape.key_words words.new (stored_of table.now.shape) ms
        × Went seat.old.me.0 (ms ++ seat.old.me.0.mine) seat.new.me.0 }
    ensures count { length words.new ≡ length words.old }
{
    let shape = table.shape();
    for place in 0..words.len() {
        words[place] = table.peek(seat, element, shape.key_words + place);
    }
}

/// The sum of the words at a place of all values of an element.
pub(crate) fn add_up(
    table: &MapTable,
    seat: &mut Seat<u8, View>,
    element: usize,
    place: usize,
) -> u64
    requires table { (seat.old.table_id ≡ table.now.id) × (seat.old.me.0.shape ≡ table.now.shape) }
    requires writer { seat.old.me.0.me ≡ 0 }
    requires known { IsKnown seat.old.me.0 }
    requires sized { IsSized table.now.shape }
    requires element { element < table.now.shape.elements }
    requires place { place < table.now.shape.value_words }
    ensures table { seat.new.table_id ≡ seat.old.table_id }
    ensures held { seat.new.me.1 ≡ seat.old.me.1 }
    ensures steps { (ms : List Move)
        × AddsUp element (table.now.shape.key_words + place) table.now.shape.value_words
        (copies_of table.now.shape) ms result
        × Went seat.old.me.0 (ms ++ seat.old.me.0.mine) seat.new.me.0 }
{
    let shape = table.shape();
    let first = shape.key_words + place;
    let mut total = 0u64;
    for copy in 0..shape.copies() {
        let word = table.peek(seat, element, first + copy * shape.value_words);
        total = total.wrapping_add(word);
    }
    total
}
