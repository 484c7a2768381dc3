//! The writer of a table.
ghost use Rattle.std.specs.Prelude.{◌≡◌, ◌≢◌, ◌⊎◌, ◌↔◌, ℕ, List, ◌+◌, ◌<◌, ◌≤◌, [], ◌∷◌, ◌++◌, length, vec_capacity, IsNone, IfNone, IfSome, IfOk, All, true, false};
ghost use Rattle.std.specs.List.{range_with_len};
ghost use Rattle.table_words.specs.declared.moves.Move.{Move};
ghost use Rattle.table_words.specs.declared.moves.Move.TheVariants.{Put};
ghost use Rattle.table_words.specs.Layout.{IsCandidate, Names};
ghost use Rattle.table_words.specs.History.{word_in, IsSettled, MayDouble};
ghost use Rattle.table_words.specs.Lookups.{OnlySearches};
ghost use Rattle.table_words.specs.Found.{IsLinkedUnder, IsLinkedAs};
ghost use Rattle.table_words.specs.Moved.{OnlyMoves};
ghost use Rattle.table_words.specs.Once.{AreLinkedOnce};
ghost use Rattle.map_table.specs.Hashes.{layout_of};
ghost use Rattle.map_table.specs.Law.{ways_of, writer_after};
ghost use Rattle.map_table.specs.Counting.{AddsUp};
ghost use Rattle.map_table.specs.Values.{copies_of, stored_of};
ghost use Rattle.map_table.specs.Held.{IsKnown, IsNew, IsReady, IsSized};
ghost use Rattle.map_table.specs.Moving.{HasGone, IsSomeInside, MakesOneWay, NoneCanMove, StandStill, StayLinked};
ghost use Rattle.map_table.specs.Reading.{OnlyLoads, Reads};
ghost use Rattle.map_table.specs.declared.moving.Room.TheVariants.{Made, Held, Full};
ghost use Rattle.map_table.specs.Sightings.{IsHeldUp};
ghost use Rattle.map_table.specs.Writing.{Puts, Works, Looks, Frees, MakesSeat, AreFull, StaysIn, IsFree, IsUnlinked, IsNoneLost, times_in};

use crate::by_key::find_way;
use crate::moving::{Room, find_move};
use crate::reading::{add_up, load_key, load_values};
use crate::setup::numbers;
use crate::sightings::{all_passed, look_at, look_round};
use crate::table::{MapTable, ReadSeat};
use crate::writing::{double_word, fill_element, put_word};
use atomic_table::Seat;
use std::alloc::{AllocError, Global};
use std::marker::Model;
use table_words::{
    BUCKET_WAYS, Sighting, TableShape, View, candidates_of, element_in, empty_of_both, least_of,
    lower_each, move_first, no_sightings, way_word, zeros,
};

/// Links elements under keys, replaces and unlinks them, and reclaims them. Contracts see at which table, what it did and
/// saw there, the elements that it may fill, and those that it has unlinked and not yet reclaimed.
#[derive(Drop)]
pub struct Writer {
    seat: Seat<u8, View>,
    // The word of each way.
    ways: Vec<u64>,
    free: Vec<usize>,
    unlinked: Vec<usize>,
    // What the looks at each reader found.
    seen: Vec<Sighting>,
    // How many readers have a seat.
    seated: usize,
}

impl Model for Writer {
    ghost use Rattle.std.specs.Prelude.{◌≡◌, ◌≤◌, [], vec_capacity};
    ghost use Rattle.table_words.specs.History.{IsSettled};
    ghost use Rattle.map_table.specs.Sightings.{AreSightings};
    ghost use Rattle.map_table.specs.Writing.{WriterView, HasSeated, IsWriter, IsNoneLost};

    ghost Value = { WriterView };

    ghost view = { λ w. record {
      table = record { id = w.seat.table_id; shape = w.seat.me.0.shape };
      view = w.seat.me.0;
      free = w.free.items;
      unlinked = w.unlinked.items;
    } };

    ghost invariant = { λ w. IsWriter w.seat.me.0 w.ways.items w.free.items w.unlinked.items
        × (w.seat.me.1 ≡ []) × (w.seat.me.0.shape.elements ≤ vec_capacity w.free)
        × (w.seat.me.0.shape.elements ≤ vec_capacity w.unlinked)
        × AreSightings w.seat.me.0 w.unlinked.items w.seen.items
        × IsNoneLost w.seat.me.0 w.free.items w.unlinked.items
        × IsSettled w.seat.me.0.mine × HasSeated w.seat.me.0 w.seated };
}

impl Writer {
    /// Fills a free element with a key and a value, or with one value for each reader, one behind another, that of the first
    /// reader first, and links it in an empty way of the key's two buckets.
    /// `None` where no element is free, or each way of both buckets names one. Keys are not compared: a key that is linked
    /// twice is found at either way.
    pub fn link(&mut self, table: &MapTable, key: &[u64], value: &[u64]) -> Option<usize>
        requires table { self.old.table ≡ table.now }
        requires key { length key.now ≡ table.now.shape.key_words }
        requires value { length value.now ≡ stored_of table.now.shape }
        ensures table { self.new.table ≡ self.old.table }
        ensures none { IsNone result ↔ ((self.old.free ≡ []) ⊎ AreFull self.old.view key.now) }
        ensures unchanged { IfNone result (self.new ≡ self.old) }
        ensures way { IfSome result (λ way. IsCandidate (layout_of table.now.shape) 0 key.now way) }
        ensures within { IfSome result (λ way. way < ways_of table.now.shape) }
        ensures empty { IfSome result (λ way. word_in way self.old.view.mine ≡ 0) }
        ensures unlinked { self.new.unlinked ≡ self.old.unlinked }
        ensures steps { IfSome result (λ way. (element word : ℕ) × (self.old.free ≡ self.new.free ++ element ∷ [])
            × Names word element × Puts way word element key.now value.now self.old self.new) }
        ensures under { IfSome result (λ way.
            IsLinkedUnder (layout_of table.now.shape) 0 key.now way self.new.view.seen) }
    {
        let shape = table.shape();
        let candidates = candidates_of(shape, key);
        let Some(way) = empty_of_both(self.ways.as_slice(), candidates) else {
            return None;
        };
        let Some(element) = self.free.pop() else {
            return None;
        };
        fill_element(table, &mut self.seat, element, key, value);
        let word = way_word(candidates.tag, element);
        put_word(table, &mut self.seat, &mut self.ways, way, word);
        Some(way)
    }

    /// Fills a free element with the key of a way and with a new value, and puts it in that way by one store: the key stays
    /// linked there all the time, with the old value or with the new one. False where no element is free.
    pub fn replace(&mut self, table: &MapTable, way: usize, key: &[u64], value: &[u64]) -> bool
        requires table { self.old.table ≡ table.now }
        requires key { length key.now ≡ table.now.shape.key_words }
        requires value { length value.now ≡ stored_of table.now.shape }
        requires way { way < ways_of table.now.shape }
        requires linked { IsLinkedUnder (layout_of table.now.shape) 0 key.now way self.old.view.seen }
        ensures table { self.new.table ≡ self.old.table }
        ensures none { (result ≡ false) ↔ (self.old.free ≡ []) }
        ensures unchanged { result ≡ false → self.new ≡ self.old }
        ensures steps { result ≡ true → (element word : ℕ) × (self.old.free ≡ self.new.free ++ element ∷ [])
            × Names word element × Puts way word element key.now value.now self.old self.new }
        ensures unlinked { result ≡ true → (gone : ℕ) × Names (word_in way self.old.view.mine) gone
            × (self.new.unlinked ≡ self.old.unlinked ++ gone ∷ []) }
        ensures under { result ≡ true →
            IsLinkedUnder (layout_of table.now.shape) 0 key.now way self.new.view.seen }

        // It's so after each step of whomever, from this call's beginning to its end.
        ensures stays { result ≡ true →
            StaysIn table.now.shape key.now way self.old.view.seen self.new.view.seen }
    {
        let shape = table.shape();
        let candidates = candidates_of(shape, key);
        let gone = element_in(self.ways[way]);
        let Some(element) = self.free.pop() else {
            return false;
        };
        fill_element(table, &mut self.seat, element, key, value);
        let word = way_word(candidates.tag, element);
        put_word(table, &mut self.seat, &mut self.ways, way, word);
        self.unlinked.push_reserved(gone);
        true
    }

    /// A way in which the key is linked, or `None`. It stores nothing.
    pub fn find(&mut self, table: &MapTable, key: &[u64]) -> Option<usize>
        requires table { self.old.table ≡ table.now }
        requires key { length key.now ≡ table.now.shape.key_words }
        ensures table { self.new.table ≡ self.old.table }
        ensures free { self.new.free ≡ self.old.free }
        ensures unlinked { self.new.unlinked ≡ self.old.unlinked }
        ensures steps { (ms : List Move) × OnlySearches (layout_of table.now.shape) 0 ms
            × Works self.old ms self.new }
        ensures within { IfSome result (λ way. way < ways_of table.now.shape) }
        ensures found { IfSome result (λ way.
            IsLinkedUnder (layout_of table.now.shape) 0 key.now way self.new.view.seen) }
        ensures bears { IfSome result (λ way. word_in way self.new.view.mine ≢ 0) }
        ensures none { IsNone result → (way : ℕ) →
            IsLinkedUnder (layout_of table.now.shape) 0 key.now way self.new.view.seen → ⊥ }
    {
        find_way(table, &mut self.seat, self.ways.as_slice(), key)
    }

    /// Loads the key that is linked in a way. False where the way is empty, and then nothing is written.
    pub fn key_at(&mut self, table: &MapTable, way: usize, key: &mut [u64]) -> bool
        requires table { self.old.table ≡ table.now }
        requires way { way < ways_of table.now.shape }
        requires key { length key.old ≡ table.now.shape.key_words }
        ensures table { self.new.table ≡ self.old.table }
        ensures free { self.new.free ≡ self.old.free }
        ensures unlinked { self.new.unlinked ≡ self.old.unlinked }
        ensures steps { (ms : List Move) × OnlySearches (layout_of table.now.shape) 0 ms
            × Works self.old ms self.new }
        ensures found { result ≡ true →
            IsLinkedUnder (layout_of table.now.shape) 0 key.new way self.new.view.seen }
        ensures none { (result ≡ false) ↔ (word_in way self.old.view.mine ≡ 0) }
        ensures unchanged { result ≡ false → self.new ≡ self.old }
        ensures unwritten { result ≡ false → key.new ≡ key.old }
        ensures count { length key.new ≡ length key.old }
    {
        let Some(element) = self.element_at(way) else {
            return false;
        };
        load_key(table, &mut self.seat, element, key);
        true
    }

    /// Loads the words of all values of the element that a way names, in the order of their places: `stored_words` of the
    /// shape. Each is loaded once, and is what was stored there last (law `loads_find_what_was_stored`). What readers
    /// store meanwhile is there or not. False where the way is empty, and then nothing is done or written.
    pub fn value_at(&mut self, table: &MapTable, way: usize, words: &mut [u64]) -> bool
        requires table { self.old.table ≡ table.now }
        requires way { way < ways_of table.now.shape }
        requires words { length words.old ≡ stored_of table.now.shape }
        ensures table { self.new.table ≡ self.old.table }
        ensures free { self.new.free ≡ self.old.free }
        ensures unlinked { self.new.unlinked ≡ self.old.unlinked }
        ensures steps { (ms : List Move) × OnlyLoads ms × Works self.old ms self.new }
        ensures loaded { result ≡ true → (element : ℕ) × (ms : List Move)
            × Names (word_in way self.old.view.mine) element
            × Reads element table.now.shape.key_words words.new (stored_of table.now.shape) ms
            × Works self.old ms self.new }
        ensures none { (result ≡ false) ↔ (word_in way self.old.view.mine ≡ 0) }
        ensures unchanged { result ≡ false → self.new ≡ self.old }
        ensures unwritten { result ≡ false → words.new ≡ words.old }
        ensures count { length words.new ≡ length words.old }
    {
        let _shape = table.shape();
        let Some(element) = self.element_at(way) else {
            return false;
        };
        load_values(table, &mut self.seat, element, words);
        true
    }

    /// The sum, modulo 2^64, of the words at this place of all values of an element; of counters it is what all readers
    /// have added to what `link` or `replace` filled in. Each word is loaded once: it is what its reader stored there last
    /// (law `own_words_stay`). What readers store meanwhile is in the sum or not.
    pub fn sum(&mut self, table: &MapTable, element: usize, place: usize) -> u64
        requires table { self.old.table ≡ table.now }
        requires element { element < table.now.shape.elements }
        requires place { place < table.now.shape.value_words }
        ensures table { self.new.table ≡ self.old.table }
        ensures free { self.new.free ≡ self.old.free }
        ensures unlinked { self.new.unlinked ≡ self.old.unlinked }
        ensures total { (ms : List Move) × Works self.old ms self.new
            × AddsUp element (table.now.shape.key_words + place) table.now.shape.value_words
            (copies_of table.now.shape) ms result }
    {
        let _shape = table.shape();
        add_up(table, &mut self.seat, element, place)
    }

    /// Moves the element of a way to another one of its key. It stands in both until each reader has left the section that it was
    /// in. If one stays there, the element stays where it stood, and the answer is false.
    fn move_to(&mut self, table: &MapTable, from: usize, to: usize) -> bool
        requires table { self.old.table ≡ table.now }
        requires from { from < ways_of table.now.shape }
        requires to { to < ways_of table.now.shape }
        requires may { MayDouble (layout_of table.now.shape) self.old.view.seen from to
            (word_in from self.old.view.mine) }
        ensures table { self.new.table ≡ self.old.table }
        ensures free { self.new.free ≡ self.old.free }
        ensures unlinked { self.new.unlinked ≡ self.old.unlinked }
        ensures steps { (ms : List Move) × OnlyMoves ms self.old.view.mine × Works self.old ms self.new
            × (result ≡ false → IsSomeInside table.now.shape.readers ms) }
        ensures still { result ≡ false → StandStill self.old.view self.new.view }
        ensures emptied { result ≡ true → word_in from self.new.view.mine ≡ 0 }
        ensures gone { result ≡ true → HasGone from to self.old.view self.new.view }
    {
        double_word(table, &mut self.seat, &mut self.ways, from, to);
        let unlinked = self.unlinked.as_slice();
        if !all_passed(table, &mut self.seat, &mut self.seen, unlinked) {
            put_word(table, &mut self.seat, &mut self.ways, to, 0);
            return false;
        }
        put_word(table, &mut self.seat, &mut self.ways, from, 0);
        true
    }

    /// Makes room for a key whose two buckets are full: it moves an element from there to the other bucket of that one's key, if
    /// it can. Each element keeps its key and its values, and stays linked at each moment, so no reader misses it (law
    /// `null_refutes_every_element`). It looks at one reader after another, at each 8,000,001 times at most (some 20 milliseconds), and
    /// gives up at the first that stays inside. Where each has a processor it looks a few times.
    pub fn make_room(&mut self, table: &MapTable, key: &[u64]) -> Room
        requires table { self.old.table ≡ table.now }
        requires key { length key.now ≡ table.now.shape.key_words }
        ensures table { self.new.table ≡ self.old.table }
        ensures free { self.new.free ≡ self.old.free }
        ensures unlinked { self.new.unlinked ≡ self.old.unlinked }
        ensures steps { (ms : List Move) × OnlyMoves ms self.old.view.mine × Works self.old ms self.new
            × (result ≡ Held → IsSomeInside table.now.shape.readers ms) }
        ensures made { result ≡ Made → AreFull self.new.view key.now → ⊥ }
        ensures moved { result ≡ Made → MakesOneWay key.now self.old.view self.new.view }
        ensures held { result ≡ Held → AreFull self.old.view key.now × (NoneCanMove self.old.view key.now → ⊥) }
        ensures still { result ≢ Made → StandStill self.old.view self.new.view }
        ensures full { result ≡ Full → AreFull self.new.view key.now × NoneCanMove self.new.view key.now }

        // Each element that was linked under a key is linked so after each step of whomever.
        ensures stay { StayLinked table.now.shape self.old.view.seen self.new.view.seen }

        // Nothing is linked by it that was not linked before, and no key twice.
        ensures none_new { (k : List ℕ) (element : ℕ) →
            IsLinkedAs (layout_of table.now.shape) 0 k element self.new.view.seen →
            IsLinkedAs (layout_of table.now.shape) 0 k element self.old.view.seen }
        ensures once { AreLinkedOnce (layout_of table.now.shape) 0 self.old.view.seen →
            AreLinkedOnce (layout_of table.now.shape) 0 self.new.view.seen }
    {
        self.is_writers();
        let room = self.find_room(table, key);
        self.is_writers();
        room
    }

    /// The same.
    fn find_room(&mut self, table: &MapTable, key: &[u64]) -> Room
        requires table { self.old.table ≡ table.now }
        requires key { length key.now ≡ table.now.shape.key_words }
        ensures table { self.new.table ≡ self.old.table }
        ensures free { self.new.free ≡ self.old.free }
        ensures unlinked { self.new.unlinked ≡ self.old.unlinked }
        ensures steps { (ms : List Move) × OnlyMoves ms self.old.view.mine × Works self.old ms self.new
            × (result ≡ Held → IsSomeInside table.now.shape.readers ms) }
        ensures made { result ≡ Made → AreFull self.new.view key.now → ⊥ }
        ensures moved { result ≡ Made → MakesOneWay key.now self.old.view self.new.view }
        ensures held { result ≡ Held → AreFull self.old.view key.now × (NoneCanMove self.old.view key.now → ⊥) }
        ensures still { result ≢ Made → StandStill self.old.view self.new.view }
        ensures full { result ≡ Full → AreFull self.new.view key.now × NoneCanMove self.new.view key.now }
    {
        let shape = table.shape();
        let candidates = candidates_of(shape, key);
        if let Some(_) = empty_of_both(self.ways.as_slice(), candidates) {
            return Room::Made;
        }
        let ways = self.ways.as_slice();
        let Some((from, to)) = find_move(table, &mut self.seat, ways, candidates) else {
            return Room::Full;
        };
        if self.move_to(table, from, to) {
            Room::Made
        } else {
            Room::Held
        }
    }

    /// Empties a way that names an element. Readers that found the element before may use it until they end their section.
    pub fn unlink(&mut self, table: &MapTable, way: usize)
        requires table { self.old.table ≡ table.now }
        requires way { way < ways_of table.now.shape }
        requires linked { word_in way self.old.view.mine ≢ 0 }
        ensures table { self.new.table ≡ self.old.table }
        ensures free { self.new.free ≡ self.old.free }
        ensures unlinked { (element : ℕ) × Names (word_in way self.old.view.mine) element
            × (self.new.unlinked ≡ self.old.unlinked ++ element ∷ []) }
        ensures step { Works self.old (Put way 0 ∷ []) self.new }
    {
        let element = element_in(self.ways[way]);
        put_word(table, &mut self.seat, &mut self.ways, way, 0);
        self.unlinked.push_reserved(element);
    }

    /// Looks at the section words of the readers that may be where they were at the last unlinking, at each once. An unlinked
    /// element is free once each reader has left its section since. A word proves it that is even, or other than at an
    /// earlier look since the unlinking. It tells how many became free. Those that were unlinked first come first.
    pub fn reclaim(&mut self, table: &MapTable) -> usize
        requires table { self.old.table ≡ table.now }
        ensures table { self.new.table ≡ self.old.table }
        ensures freed { (gone : List ℕ) × (length gone ≡ result) × Frees gone self.old self.new }

        // Each element that stays unlinked waits for a reader that was found inside now, and is not cleared. It is in one
        // section since the first look after the unlinking (law `uncleared_readers_stay_in_one_section`).
        ensures waits { (ms : List Move) × Looks self.old ms self.new
            × All (λ e. IsHeldUp table.now.shape.readers e ms self.new.view.mine) self.new.unlinked }
    {
        look_round(
            table,
            &mut self.seat,
            &mut self.seen,
            self.unlinked.as_slice(),
        );
        let count = least_of(self.seen.as_slice(), self.unlinked.len());
        lower_each(&mut self.seen, count);
        move_first(&mut self.unlinked, &mut self.free, count);
        count
    }

    /// The elements that may be filled. The one that is filled next stands last.
    pub fn free(&self) -> &[usize]
        ensures { result.now ≡ self.now.free }
    {
        self.free.as_slice()
    }

    /// How many elements are linked: those that are neither free nor unlinked.
    pub fn count_linked(&self, table: &MapTable) -> usize
        requires { self.now.table ≡ table.now }
        ensures { result + length self.now.free + length self.now.unlinked ≡ table.now.shape.elements }
    {
        table.shape().elements - self.free.len() - self.unlinked.len()
    }

    /// The element that a way names.
    pub fn element_at(&self, way: usize) -> Option<usize>
        requires { way < ways_of self.now.table.shape }
        ensures some { IfSome result (λ element. Names (word_in way self.now.view.mine) element) }
        ensures within { IfSome result (λ element. element < self.now.table.shape.elements) }
        ensures none { IsNone result → word_in way self.now.view.mine ≡ 0 }
    {
        let word = self.ways[way];
        if word == 0 {
            return None;
        }
        Some(element_in(word))
    }

    /// The elements that were unlinked and are not free yet. The one that was unlinked last stands last.
    pub fn unlinked(&self) -> &[usize]
        ensures { result.now ≡ self.now.unlinked }
    {
        self.unlinked.as_slice()
    }

    /// A law: each element is free, unlinked or linked, and but one of these.
    pub fn each_element_once(&self)
        ensures free { All (IsFree self.now.view) self.now.free }
        ensures unlinked { All (IsUnlinked self.now.view) self.now.unlinked }
        ensures once { (element : ℕ) → times_in element self.now.free + times_in element self.now.unlinked ≤ 1 }
        ensures linked { IsNoneLost self.now.view self.now.free self.now.unlinked }
    {
        let _ = &self.free;
    }

    /// A law: the writer is number 0 at its table, and what it saw there is lawful. So what is said of its view is said of the
    /// table.
    pub fn is_writers(&self)
        ensures me { self.now.view.me ≡ 0 }
        ensures shape { self.now.view.shape ≡ self.now.table.shape }
        ensures known { IsKnown self.now.view }

        // Between its calls nothing is moved, so each element stands in one way at most (law `elements_stand_in_one_way`).
        ensures settled { IsSettled self.now.view.mine }
    {
        let _ = &self.free;
    }

    /// The writer's share of the table: the view stands among those of whom the rule of the table speaks
    /// (`MapTable::ruled`).
    pub fn share(&self) -> &Seat<u8, View>
        ensures table { result.now.table_id ≡ self.now.table.id }
        ensures view { result.now.me ≡ (self.now.view, []) }
    {
        &self.seat
    }

    /// The seat of the next reader, or `None` where each reader has one. The reader begins with all that was done up to this call:
    /// so its lookups find each key that is linked now, for as long as the writer keeps that key (law `kept_keys_are_found`). The
    /// writer looks once at the reader's section word.
    pub fn seat(&mut self, table: &MapTable) -> Option<ReadSeat>
        requires table { self.old.table ≡ table.now }
        ensures none { IsNone result ↔ (table.now.shape.readers < self.old.view.next) }
        ensures unchanged { IfNone result (self.new ≡ self.old) }
        ensures makes { IfSome result (λ s. MakesSeat self.old self.new) }
        ensures ready { IfSome result (IsReady table.now) }
        ensures new { IfSome result IsNew }
        ensures me { IfSome result (λ s. s.view.me ≡ self.old.view.next) }
        ensures seen { IfSome result (λ s. s.view.seen ≡ self.new.view.seen) }
    {
        let reader = self.seated;
        if reader == table.shape().readers {
            return None;
        }
        let unlinked = self.unlinked.as_slice();
        look_at(table, &mut self.seat, &mut self.seen, unlinked, reader);
        self.seated += 1;
        Some(table.deal(&mut self.seat, reader))
    }

    /// How many readers have no seat yet.
    pub fn count_seats(&self, table: &MapTable) -> usize
        requires { self.now.table ≡ table.now }
        ensures { result + self.now.view.next ≡ table.now.shape.readers + 1 }
    {
        table.shape().readers - self.seated
    }

    /// The writer of a table on which nothing was done, where so many readers have a seat.
    pub(crate) fn begin(
        alloc: Global,
        seat: Seat<u8, View>,
        shape: TableShape,
        seated: usize,
    ) -> Result<Writer, AllocError>
        requires writer { seat.me ≡ (writer_after seated shape, []) }
        requires within { seated ≤ shape.readers }
        requires sized { IsSized shape }
        ensures table { IfOk result (λ w. w.table.id ≡ seat.table_id) }
        ensures view { IfOk result (λ w. w.view ≡ seat.me.0) }
        ensures shape { IfOk result (λ w. w.table.shape ≡ seat.me.0.shape) }
        ensures free { IfOk result (λ w. w.free ≡ range_with_len 0 shape.elements) }
        ensures unlinked { IfOk result (λ w. w.unlinked ≡ []) }
    {
        let ways = zeros(alloc, shape.buckets * BUCKET_WAYS)?;
        let free = numbers(alloc, shape.elements)?;
        let unlinked = Vec::with_capacity(alloc, shape.elements)?;
        let seen = no_sightings(alloc, shape.readers)?;
        Ok(Writer {
            seat,
            ways,
            free,
            unlinked,
            seen,
            seated,
        })
    }
}
