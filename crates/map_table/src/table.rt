//! The table, and a reader's seat at it.
ghost use Rattle.atomic_table.specs.Table.{State};
ghost use Rattle.std.specs.Prelude.{◌≡◌, ◌≢◌, ◌⊎◌, ℕ, ◌+◌, ◌-◌, ◌*◌, ◌%◌, ◌^◌, ◌<◌, ◌≤◌, [], ◌∷◌, length, slice_index, IfOk};
ghost use Rattle.table_words.specs.declared.moves.Move.TheVariants.{Open, Close, Learn, Load, Store, Put, Double, Scan};
ghost use Rattle.table_words.specs.Layout.{Names};
ghost use Rattle.table_words.specs.History.{inside, moves_of, most_sections, word_at, Holds, IsSpare, IsReader, Settles, MayDouble, MayLink};
ghost use Rattle.table_words.specs.declared.view.View.{View};
ghost use Rattle.map_table.specs.Hashes.{layout_of};
ghost use Rattle.map_table.specs.Law.{Kept, ways_from, ways_of, count_of, base_of, width_of, dealt, writer_after};
ghost use Rattle.map_table.specs.Values.{first_of};
ghost use Rattle.map_table.specs.Held.{IsSized, IsKnown, IsReady, IsNew, Does, DoesBoth, Went};

use atomic_table::{Seat, Shared, Table, TableRule};
use std::alloc::{AllocError, Global};
use std::marker::Model;
use table_words::{
    Adds, BUCKET_WAYS, Closes, Deals, Doubles, Law, Learns, Loads, Opens, Puts, SECTION_STRIDE,
    Scans, Stores, TableShape, View, even_after,
};

/// Words that readers and one writer share with no lock. Contracts see which table it is, and how many of each it has.
#[derive(Drop)]
pub struct MapTable {
    table: Table<u8, View, TableShape, Law, Global>,
    shape: TableShape,
    // Where the ways begin, and where the words of the elements, and how many an element has: kept so that each step is
    // short.
    ways: usize,
    base: usize,
    width: usize,
}

impl Model for MapTable {
    ghost use Rattle.std.specs.Prelude.{◌≡◌};
    ghost use Rattle.map_table.specs.Law.{count_of, ways_from, base_of, width_of};
    ghost use Rattle.map_table.specs.Held.{TableView, IsSized};

    ghost Value = { TableView };

    ghost view = { λ t. record { id = t.table.shared.table_id; shape = t.shape } };

    ghost invariant = { λ t. (t.table.shared.key ≡ t.shape)
        × (t.table.shared.table_id.words ≡ count_of t.shape) × IsSized t.shape
        × (t.base ≡ base_of t.shape) × (t.width ≡ width_of t.shape) × (t.ways ≡ ways_from t.shape) };
}

/// A reader's seat at a table. Contracts see at which, and what the reader did and saw there. A seat that is dropped
/// inside a section keeps elements from being filled anew, for ever: those that are unlinked later, and those that were unlinked
/// before, unless the writer has seen since that its reader left an earlier section.
#[derive(Drop)]
pub struct ReadSeat {
    seat: Seat<u8, View>,
    // Where the reader's section word lies, and the place of the first word of its value in an element.
    section: usize,
    first: usize,
    // Twice the sections that were begun, up to the last word: the section word of the reader outside.
    even: u64,
}

impl Model for ReadSeat {
    ghost use Rattle.std.specs.Prelude.{◌≡◌, ◌+◌, ◌*◌, min, []};
    ghost use Rattle.map_table.specs.Limits.{section_stride};
    ghost use Rattle.map_table.specs.Hashes.{layout_of};
    ghost use Rattle.table_words.specs.History.{IsReader, opened, most_sections};
    ghost use Rattle.map_table.specs.Held.{Holder};
    ghost use Rattle.map_table.specs.Values.{first_of};

    ghost Value = { Holder };

    ghost view = { λ s. record {
      table = record { id = s.seat.table_id; shape = s.seat.me.0.shape };
      view = s.seat.me.0;
    } };

    ghost invariant = { λ s. IsReader (layout_of s.seat.me.0.shape) s.seat.me.0.me
        × (s.section + section_stride ≡ s.seat.me.0.me * section_stride) × (s.seat.me.1 ≡ [])
        × (s.first ≡ first_of s.seat.me.0.shape s.seat.me.0.me)
        × (s.even ≡ 2 * min (opened s.seat.me.0.mine) most_sections) };
}

impl ReadSeat {
    /// A law: the seat is a reader's, at a table of the shape that its view has.
    #[inline]
    pub fn is_readers(&self)
        ensures reader { IsReader (layout_of self.now.view.shape) self.now.view.me }
        ensures shape { self.now.view.shape ≡ self.now.table.shape }
    {
        let _ = &self.seat;
    }

    /// The place of the first word of the reader's value in an element: that behind the key, where all readers share
    /// the value.
    #[inline]
    pub fn first_place(&self) -> usize
        ensures { result ≡ first_of self.now.view.shape self.now.view.me }
    {
        self.first
    }

    /// The seat's share of the table: the view stands among those of whom the rule of the table speaks
    /// (`MapTable::ruled`).
    pub fn share(&self) -> &Seat<u8, View>
        ensures table { result.now.table_id ≡ self.now.table.id }
        ensures view { result.now.me ≡ (self.now.view, []) }
    {
        &self.seat
    }
}

impl MapTable {
    /// The words that all share, under their rule, which holds between any two steps, of whichever threads: there is one
    /// lawful history of all that was done, the words are what it leaves, and the view of each share of this table
    /// (`ReadSeat::share`, `Writer::share`) has its holder's part of it.
    pub fn ruled(&self) -> &Shared<u8, View, TableShape, Law>
        ensures table { result.now.table_id ≡ self.now.id }
        ensures rule { (s : State ℕ View) →
            ⟦<Law as TableRule<u8, View, TableShape>>⟧.holds result.now.key s → Kept self.now.shape s }
    {
        &self.table.shared
    }

    /// How many of each the table has.
    #[inline]
    pub fn shape(&self) -> TableShape
        ensures shape { result ≡ self.now.shape }
        ensures sized { IsSized result }
    {
        self.shape
    }

    /// Where a word of an element lies.
    #[inline]
    fn index_of(&self, element: usize, place: usize) -> usize
        requires element { element < self.now.shape.elements }
        requires place { place < width_of self.now.shape }
        ensures index { result ≡ base_of self.now.shape + (element * width_of self.now.shape + place) }
        ensures within { result < self.now.id.words }
    {
        self.base + (element * self.width + place)
    }

    /// Begins a section. The reader's section word becomes one more, an odd number that it never had, so that the writer can
    /// tell this section from those before. After 2^62 sections it stops counting, and only tells inside from outside.
    #[inline]
    pub fn open(&self, seat: &mut ReadSeat)
        requires table { seat.old.table ≡ self.now }
        requires outside { inside seat.old.view.mine ≡ 0 }
        ensures { Does seat.old Open seat.new }
    {
        let even = even_after(seat.even);
        self.table
            .shared
            .store::<Opens>(&mut seat.seat, seat.section, even - 1);
        seat.even = even;
    }

    /// Ends the section. The reader's section word becomes one more, and so even.
    #[inline]
    pub fn close(&self, seat: &mut ReadSeat)
        requires table { seat.old.table ≡ self.now }
        requires inside { inside seat.old.view.mine ≡ 1 }
        ensures { Does seat.old Close seat.new }
    {
        self.table
            .shared
            .store::<Closes>(&mut seat.seat, seat.section, seat.even);
    }

    /// The word of a way. The words of the element that it names may be loaded and stored in the section that is open.
    #[inline]
    pub fn learn(&self, seat: &mut ReadSeat, way: usize) -> u64
        requires table { seat.old.table ≡ self.now }
        requires inside { inside seat.old.view.mine ≡ 1 }
        requires way { way < ways_of self.now.shape }
        ensures step { Does seat.old (Learn way result) seat.new }
        ensures named { result ≢ 0 → (element : ℕ) × Names result element }
        ensures within { (element : ℕ) → Names result element → element < self.now.shape.elements }
        ensures held { (element : ℕ) → Names result element → Holds element seat.new.view.mine }
    {
        self.learn_behind(seat, self.ways, way)
    }

    /// Where the ways begin.
    #[inline]
    pub(crate) fn first_way(&self) -> usize
        ensures { result ≡ ways_from self.now.shape }
    {
        self.ways
    }

    /// The word of a way, where it is known where the ways begin, so that a search does not read that for each way.
    #[inline]
    pub(crate) fn learn_behind(&self, seat: &mut ReadSeat, ways: usize, way: usize) -> u64
        requires table { seat.old.table ≡ self.now }
        requires inside { inside seat.old.view.mine ≡ 1 }
        requires ways { ways ≡ ways_from self.now.shape }
        requires way { way < ways_of self.now.shape }
        ensures step { Does seat.old (Learn way result) seat.new }
        ensures named { result ≢ 0 → (element : ℕ) × Names result element }
        ensures within { (element : ℕ) → Names result element → element < self.now.shape.elements }
        ensures held { (element : ℕ) → Names result element → Holds element seat.new.view.mine }
    {
        self.table.shared.load::<Learns>(&mut seat.seat, ways + way)
    }

    /// The word at a place of an element that was found in the section that is open. Places count words, those of the key
    /// first.
    #[inline]
    pub fn load(&self, seat: &mut ReadSeat, element: usize, place: usize) -> u64
        requires table { seat.old.table ≡ self.now }
        requires held { Holds element seat.old.view.mine }
        requires element { element < self.now.shape.elements }
        requires place { place < width_of self.now.shape }
        ensures step { Does seat.old (Load element place result) seat.new }

        // It's the word that was stored there last, by whomever, of all that had been done to the table.
        ensures found { result ≡ word_at element place seat.new.view.seen }
    {
        let index = self.index_of(element, place);
        self.table.shared.load::<Loads>(&mut seat.seat, index)
    }

    /// Writes the word at a place of an element that was found in the section that is open. Places count words, those of
    /// the key first, and these are the writer's alone. The place is one of the reader's value.
    #[inline]
    pub fn store(&self, seat: &mut ReadSeat, element: usize, place: usize, word: u64)
        requires table { seat.old.table ≡ self.now }
        requires held { Holds element seat.old.view.mine }
        requires element { element < self.now.shape.elements }
        requires value { first_of self.now.shape seat.old.view.me ≤ place }
        requires place { place < first_of self.now.shape seat.old.view.me + self.now.shape.value_words }
        ensures step { Does seat.old (Store element place word) seat.new }
        ensures stored { word_at element place seat.new.view.seen ≡ word }
    {
        let _first = seat.first;
        let index = self.index_of(element, place);
        self.table
            .shared
            .store::<Stores>(&mut seat.seat, index, word);
    }

    /// Adds an amount to the word at a place of an element that was found in the section that is open, modulo 2^64, and answers
    /// the word that was there. Nobody does anything between: where all that is stored at a place is added, no amount is lost (law
    /// `added_amounts_stay`). The place is one of the reader's value; it is dearer than `load` and `store`.
    #[inline]
    pub fn add(&self, seat: &mut ReadSeat, element: usize, place: usize, amount: u64) -> u64
        requires table { seat.old.table ≡ self.now }
        requires held { Holds element seat.old.view.mine }
        requires element { element < self.now.shape.elements }
        requires value { first_of self.now.shape seat.old.view.me ≤ place }
        requires place { place < first_of self.now.shape seat.old.view.me + self.now.shape.value_words }
        ensures step { DoesBoth seat.old (Load element place result)
            (Store element place ((result + amount) % 2 ^ 64)) seat.new }
        ensures stored { word_at element place seat.new.view.seen ≡ (result + amount) % 2 ^ 64 }
    {
        let _first = seat.first;
        let index = self.index_of(element, place);
        let shared = &self.table.shared;
        shared.fetch_add::<Adds>(&mut seat.seat, index, amount)
    }

    /// A table of these words, all zero, with the writer's seat.
    pub(crate) fn of_words(
        alloc: Global,
        words: &[u64],
        shape: TableShape,
    ) -> Result<(MapTable, Seat<u8, View>), AllocError>
        requires sized { IsSized shape }
        requires count { length words.now ≡ count_of shape }
        requires zeros { (j : ℕ) → slice_index words.now j ≡ 0 }
        ensures shape { IfOk result (λ t. t.0.shape ≡ shape) }
        ensures table { IfOk result (λ t. t.1.table_id ≡ t.0.id) }
        ensures writer { IfOk result (λ t. t.1.me ≡ (writer_after 0 shape, [])) }
    {
        let (table, seat) = Table::of_words(alloc, words, &shape)?;
        let ways = shape.readers * SECTION_STRIDE;
        let base = ways + shape.buckets * BUCKET_WAYS;
        let width = shape.width();
        let table = MapTable {
            table,
            shape,
            ways,
            base,
            width,
        };
        Ok((table, seat))
    }

    /// The seat of the next reader, which has done nothing yet. It begins with what the writer saw.
    pub(crate) fn deal(&self, writer: &mut Seat<u8, View>, reader: usize) -> ReadSeat
        requires table { (writer.old.table_id ≡ self.now.id) × (writer.old.me.0.shape ≡ self.now.shape) }
        requires writer { (writer.old.me.0.me ≡ 0) × (writer.old.me.1 ≡ []) }
        requires next { writer.old.me.0.next ≡ reader + 1 }
        requires known { IsKnown writer.old.me.0 }
        requires none { moves_of (reader + 1) writer.old.me.0.seen ≡ [] }
        requires within { reader < self.now.shape.readers }
        ensures table { writer.new.table_id ≡ writer.old.table_id }
        ensures writer { writer.new.me ≡ (dealt writer.old.me.0, []) }
        ensures ready { IsReady self.now result }
        ensures new { IsNew result }
        ensures me { result.view.me ≡ reader + 1 }
        ensures seen { result.view.seen ≡ writer.old.me.0.seen }
    {
        let seat = self.table.shared.split_seat::<Deals>(writer);
        let first = self.shape.first_place(reader);
        ReadSeat {
            seat,
            section: reader * SECTION_STRIDE,
            first,
            even: 0,
        }
    }
}

/// The steps of the writer.
impl MapTable {
    /// Writes the word at a place of a spare element.
    #[inline]
    pub(crate) fn write(&self, seat: &mut Seat<u8, View>, element: usize, place: usize, word: u64)
        requires table { (seat.old.table_id ≡ self.now.id) × (seat.old.me.0.shape ≡ self.now.shape) }
        requires writer { seat.old.me.0.me ≡ 0 }
        requires element { element < self.now.shape.elements }
        requires spare { IsSpare self.now.shape.readers element seat.old.me.0.mine }
        requires place { place < width_of self.now.shape }
        ensures table { seat.new.table_id ≡ seat.old.table_id }
        ensures held { seat.new.me.1 ≡ seat.old.me.1 }
        ensures step { Went seat.old.me.0 (Store element place word ∷ seat.old.me.0.mine) seat.new.me.0 }
    {
        let index = self.index_of(element, place);
        self.table.shared.store::<Stores>(seat, index, word);
    }

    /// The word at a place of any element.
    #[inline]
    pub(crate) fn peek(&self, seat: &mut Seat<u8, View>, element: usize, place: usize) -> u64
        requires table { (seat.old.table_id ≡ self.now.id) × (seat.old.me.0.shape ≡ self.now.shape) }
        requires writer { seat.old.me.0.me ≡ 0 }
        requires element { element < self.now.shape.elements }
        requires place { place < width_of self.now.shape }
        ensures table { seat.new.table_id ≡ seat.old.table_id }
        ensures held { seat.new.me.1 ≡ seat.old.me.1 }
        ensures step { Went seat.old.me.0 (Load element place result ∷ seat.old.me.0.mine) seat.new.me.0 }
        ensures found { result ≡ word_at element place seat.new.me.0.seen }
    {
        let index = self.index_of(element, place);
        self.table.shared.load::<Loads>(seat, index)
    }

    /// Puts a word in a way: 0, or one that names a spare element whose key may be linked there.
    #[inline]
    pub(crate) fn put(&self, seat: &mut Seat<u8, View>, way: usize, word: u64)
        requires table { (seat.old.table_id ≡ self.now.id) × (seat.old.me.0.shape ≡ self.now.shape) }
        requires writer { seat.old.me.0.me ≡ 0 }
        requires known { IsKnown seat.old.me.0 }
        requires way { way < ways_of self.now.shape }
        requires may { (word ≡ 0) ⊎ MayLink (layout_of self.now.shape) seat.old.me.0.seen way word }
        requires settles { Settles self.now.shape.readers way word seat.old.me.0.mine }
        ensures table { seat.new.table_id ≡ seat.old.table_id }
        ensures held { seat.new.me.1 ≡ seat.old.me.1 }
        ensures step { Went seat.old.me.0 (Put way word ∷ seat.old.me.0.mine) seat.new.me.0 }
    {
        let index = self.ways + way;
        self.table.shared.store::<Puts>(seat, index, word);
    }

    /// Puts the word of a way in a second one.
    #[inline]
    pub(crate) fn double(&self, seat: &mut Seat<u8, View>, from: usize, to: usize, word: u64)
        requires table { (seat.old.table_id ≡ self.now.id) × (seat.old.me.0.shape ≡ self.now.shape) }
        requires writer { seat.old.me.0.me ≡ 0 }
        requires known { IsKnown seat.old.me.0 }
        requires to { to < ways_of self.now.shape }
        requires may { MayDouble (layout_of self.now.shape) seat.old.me.0.seen from to word }
        ensures table { seat.new.table_id ≡ seat.old.table_id }
        ensures held { seat.new.me.1 ≡ seat.old.me.1 }
        ensures step { Went seat.old.me.0 (Double from to word ∷ seat.old.me.0.mine) seat.new.me.0 }
    {
        let _ = from;
        let index = self.ways + to;
        self.table.shared.store::<Doubles>(seat, index, word);
    }

    /// The section word of a reader: odd inside a section, and even outside.
    #[inline]
    pub(crate) fn scan(&self, seat: &mut Seat<u8, View>, reader: usize) -> u64
        requires table { (seat.old.table_id ≡ self.now.id) × (seat.old.me.0.shape ≡ self.now.shape) }
        requires writer { seat.old.me.0.me ≡ 0 }
        requires reader { reader < self.now.shape.readers }
        ensures table { seat.new.table_id ≡ seat.old.table_id }
        ensures held { seat.new.me.1 ≡ seat.old.me.1 }
        ensures step { Went seat.old.me.0 (Scan (reader + 1) result ∷ seat.old.me.0.mine) seat.new.me.0 }

        // A reader that has no seat yet has done nothing.
        ensures unseated { seat.old.me.0.next ≤ reader + 1 → moves_of (reader + 1) seat.new.me.0.seen ≡ [] }
    {
        let shared = &self.table.shared;
        shared.load::<Scans>(seat, reader * SECTION_STRIDE)
    }
}
