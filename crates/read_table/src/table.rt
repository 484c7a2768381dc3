//! The table, and a reader's seat at it.
ghost use Rattle.atomic_table.specs.Table.{State};
ghost use Rattle.std.specs.Prelude.{◌≡◌, ℕ, ◌+◌, ◌-◌, ◌*◌, ◌<◌, ◌≤◌, ◌%◌, ◌↔◌, [], ◌∷◌, length, slice_index, IsTrue, IfOk, true};
ghost use Rattle.read_table.specs.declared.view.Move.TheVariants.{Open, Close, Learn, Load, Store, Header, Scan};
ghost use Rattle.read_table.specs.History.{inside, IsLearnt, header_in, word_at_place, MayLink};
ghost use Rattle.read_table.specs.History.{IsReader};
ghost use Rattle.read_table.specs.Law.{Kept, count_of, base_of, width_of, writer_after};
ghost use Rattle.read_table.specs.declared.view.View.{View};
ghost use Rattle.read_table.specs.Held.{IsSized, IsReady, IsNew, Does, Went, IsUnchanged};
ghost use Rattle.read_table.specs.Slots.{IsFree};

use crate::{Changes, Closes, Deals, Law, Learns, Loads, Opens, Scans, Stores, TableShape, View};
use atomic_table::{Seat, Shared, Table, TableRule};
use std::alloc::{AllocError, Global};
use std::marker::Model;
use table_words::SECTION_STRIDE;

/// Words that readers and one writer share with no lock. Contracts see which table it is, and how many of each it has.
#[derive(Drop)]
pub struct ReadTable {
    table: Table<u8, View, TableShape, Law, Global>,
    shape: TableShape,
    // Where the headers of the slots begin, and where their words, and how many a slot has: kept so that each step is short.
    headers: usize,
    base: usize,
    width: usize,
}

impl Model for ReadTable {
    ghost use Rattle.std.specs.Prelude.{◌≡◌};
    ghost use Rattle.read_table.specs.Law.{count_of, base_of, headers_from, width_of};
    ghost use Rattle.read_table.specs.Held.{TableView, IsSized};

    ghost Value = { TableView };

    ghost view = { λ t. record { id = t.table.shared.table_id; shape = t.shape } };

    ghost invariant = { λ t. (t.table.shared.key ≡ t.shape)
        × (t.table.shared.table_id.words ≡ count_of t.shape) × IsSized t.shape
        × (t.base ≡ base_of t.shape) × (t.width ≡ width_of t.shape) × (t.headers ≡ headers_from t.shape) };
}

/// A reader's seat at a table. Contracts see at which, and what the reader did and saw there. A seat that is dropped
/// inside a section keeps slots from being reclaimed, for ever: those that are unlinked later, and those that were unlinked
/// before, unless its reader was seen outside since.
#[derive(Drop)]
pub struct ReadSeat {
    seat: Seat<u8, View>,
    // Where the reader's section word lies.
    section: usize,
}

impl Model for ReadSeat {
    ghost use Rattle.std.specs.Prelude.{◌≡◌, ◌+◌, ◌*◌, []};
    ghost use Rattle.table_words.specs.Limits.{section_stride};
    ghost use Rattle.read_table.specs.History.{IsReader};
    ghost use Rattle.read_table.specs.Held.{Holder};

    ghost Value = { Holder };

    ghost view = { λ s. record {
      table = record { id = s.seat.table_id; shape = s.seat.me.0.shape };
      view = s.seat.me.0;
    } };

    ghost invariant = { λ s. IsReader s.seat.me.0.shape s.seat.me.0.me
        × (s.section + section_stride ≡ s.seat.me.0.me * section_stride) × (s.seat.me.1 ≡ []) };
}

impl ReadSeat {
    /// A law: the seat is a reader's, at a table of the shape that its view has.
    #[inline]
    pub fn is_readers(&self)
        ensures reader { IsReader self.now.view.shape self.now.view.me }
        ensures shape { self.now.view.shape ≡ self.now.table.shape }
    {
        let _ = &self.seat;
    }

    /// The seat's share of the table: the view stands among those of whom the rule of the table speaks
    /// (`ReadTable::ruled`).
    pub fn share(&self) -> &Seat<u8, View>
        ensures table { result.now.table_id ≡ self.now.table.id }
        ensures view { result.now.me ≡ (self.now.view, []) }
    {
        &self.seat
    }
}

impl ReadTable {
    /// The words that all share, under their rule. It holds between any two steps, of whichever threads. One lawful history
    /// of all that was done leaves the words. The view of each share of this table (`ReadSeat::share`, `Writer::share`) has
    /// its holder's part of it.
    pub fn ruled(&self) -> &Shared<u8, View, TableShape, Law>
        ensures table { result.now.table_id ≡ self.now.id }
        ensures rule { (s : State ℕ View) →
            ⟦<Law as TableRule<u8, View, TableShape>>⟧.holds result.now.key s → Kept self.now.shape s }
    {
        &self.table.shared
    }

    /// How many of each the table has.
    #[inline]
    pub fn shape(&self) -> TableShape
        ensures shape { result ≡ self.now.shape }
        ensures sized { IsSized result }
    {
        self.shape
    }

    /// Where a word of a slot lies.
    #[inline]
    fn index_of(&self, slot: usize, place: usize) -> usize
        requires slot { slot < self.now.shape.slots }
        requires place { place < width_of self.now.shape }
        ensures index { result ≡ base_of self.now.shape + (slot * width_of self.now.shape + place) }
        ensures within { result < self.now.id.words }
    {
        self.base + (slot * self.width + place)
    }

    /// Begins a section.
    #[inline]
    pub fn open(&self, seat: &mut ReadSeat)
        requires table { seat.old.table ≡ self.now }
        requires outside { inside seat.old.view.mine ≡ 0 }
        ensures { Does seat.old Open seat.new }
    {
        self.table
            .shared
            .store::<Opens>(&mut seat.seat, seat.section, 1);
    }

    /// Ends the section.
    #[inline]
    pub fn close(&self, seat: &mut ReadSeat)
        requires table { seat.old.table ≡ self.now }
        requires inside { inside seat.old.view.mine ≡ 1 }
        ensures { Does seat.old Close seat.new }
    {
        self.table
            .shared
            .store::<Closes>(&mut seat.seat, seat.section, 0);
    }

    /// Whether the slot is linked. In the section that is open its words may be loaded and stored then.
    #[inline]
    pub fn learn(&self, seat: &mut ReadSeat, slot: usize) -> bool
        requires table { seat.old.table ≡ self.now }
        requires inside { inside seat.old.view.mine ≡ 1 }
        requires slot { slot < self.now.shape.slots }
        ensures step { (h : ℕ) × Does seat.old (Learn slot h) seat.new
            × (IsTrue result ↔ (h % 2 ≡ 1)) }
        ensures learnt { result ≡ true → IsLearnt slot seat.new.view.mine }
    {
        let index = self.headers + slot;
        let header = self.table.shared.load::<Learns>(&mut seat.seat, index);
        header % 2 == 1
    }

    /// The word at a place of a slot that was learnt in the section that is open. Places count words, those of the key
    /// first.
    #[inline]
    pub fn load(&self, seat: &mut ReadSeat, slot: usize, place: usize) -> u64
        requires table { seat.old.table ≡ self.now }
        requires learnt { IsLearnt slot seat.old.view.mine }
        requires slot { slot < self.now.shape.slots }
        requires place { place < self.now.shape.key_words + self.now.shape.value_words }
        ensures step { Does seat.old (Load slot place result) seat.new }

        // It's the word that was stored there last, by whomever, of all that had been done to the table.
        ensures found { result ≡ word_at_place slot place seat.new.view.seen }
        ensures unchanged { IsUnchanged slot seat.new }
    {
        let index = self.index_of(slot, place);
        self.table.shared.load::<Loads>(&mut seat.seat, index)
    }

    /// Writes the word at a place of a slot that was learnt in the section that is open. Places count words, those of
    /// the key first, and these are the writer's alone.
    #[inline]
    pub fn store(&self, seat: &mut ReadSeat, slot: usize, place: usize, word: u64)
        requires table { seat.old.table ≡ self.now }
        requires learnt { IsLearnt slot seat.old.view.mine }
        requires slot { slot < self.now.shape.slots }
        requires value { self.now.shape.key_words ≤ place }
        requires place { place < self.now.shape.key_words + self.now.shape.value_words }
        ensures step { Does seat.old (Store slot place word) seat.new }
        ensures stored { word_at_place slot place seat.new.view.seen ≡ word }
        ensures unchanged { IsUnchanged slot seat.new }
    {
        let index = self.index_of(slot, place);
        self.table
            .shared
            .store::<Stores>(&mut seat.seat, index, word);
    }

    /// A table of these words, all zero, with the writer's seat.
    pub(crate) fn of_words(
        alloc: Global,
        words: &[u64],
        shape: TableShape,
    ) -> Result<(ReadTable, Seat<u8, View>), AllocError>
        requires sized { IsSized shape }
        requires count { length words.now ≡ count_of shape }
        requires zeros { (j : ℕ) → slice_index words.now j ≡ 0 }
        ensures shape { IfOk result (λ t. t.0.shape ≡ shape) }
        ensures table { IfOk result (λ t. t.1.table_id ≡ t.0.id) }
        ensures writer { IfOk result (λ t. t.1.me ≡ (writer_after 0 shape, [])) }
    {
        let (table, seat) = Table::of_words(alloc, words, &shape)?;
        let headers = shape.readers * SECTION_STRIDE;
        let base = headers + shape.slots;
        let width = shape.key_words + shape.value_words;
        let table = ReadTable {
            table,
            shape,
            headers,
            base,
            width,
        };
        Ok((table, seat))
    }

    /// The seat of the next reader.
    pub(crate) fn deal(&self, writer: &mut Seat<u8, View>, reader: usize) -> ReadSeat
        requires table { writer.old.table_id ≡ self.now.id }
        requires writer { writer.old.me ≡ (writer_after reader self.now.shape, []) }
        requires within { reader < self.now.shape.readers }
        ensures table { writer.new.table_id ≡ writer.old.table_id }
        ensures writer { writer.new.me ≡ (writer_after (reader + 1) self.now.shape, []) }
        ensures ready { IsReady self.now result }
        ensures new { IsNew result }
        ensures me { result.view.me ≡ reader + 1 }
    {
        let seat = self.table.shared.split_seat::<Deals>(writer);
        ReadSeat {
            seat,
            section: reader * SECTION_STRIDE,
        }
    }
}

/// The steps of the writer.
impl ReadTable {
    /// Writes the word at a place of a slot that is not linked and that nobody can hold.
    #[inline]
    pub(crate) fn write(&self, seat: &mut Seat<u8, View>, slot: usize, place: usize, word: u64)
        requires table { (seat.old.table_id ≡ self.now.id) × (seat.old.me.0.shape ≡ self.now.shape) }
        requires writer { seat.old.me.0.me ≡ 0 }
        requires slot { slot < self.now.shape.slots }
        requires free { IsFree seat.old.me.0 slot }
        requires place { place < width_of self.now.shape }
        ensures table { seat.new.table_id ≡ seat.old.table_id }
        ensures held { seat.new.me.1 ≡ seat.old.me.1 }
        ensures step { Went seat.old.me.0 (Store slot place word ∷ seat.old.me.0.mine) seat.new.me.0 }
    {
        let index = self.index_of(slot, place);
        self.table.shared.store::<Stores>(seat, index, word);
    }

    /// The word at a place of any slot.
    #[inline]
    pub(crate) fn peek(&self, seat: &mut Seat<u8, View>, slot: usize, place: usize) -> u64
        requires table { (seat.old.table_id ≡ self.now.id) × (seat.old.me.0.shape ≡ self.now.shape) }
        requires writer { seat.old.me.0.me ≡ 0 }
        requires slot { slot < self.now.shape.slots }
        requires place { place < width_of self.now.shape }
        ensures table { seat.new.table_id ≡ seat.old.table_id }
        ensures held { seat.new.me.1 ≡ seat.old.me.1 }
        ensures step { Went seat.old.me.0 (Load slot place result ∷ seat.old.me.0.mine) seat.new.me.0 }
        ensures found { result ≡ word_at_place slot place seat.new.me.0.seen }
    {
        let index = self.index_of(slot, place);
        self.table.shared.load::<Loads>(seat, index)
    }

    /// Changes the header of a slot, by one. It becomes odd only where the slot may be linked.
    #[inline]
    pub(crate) fn set_header(&self, seat: &mut Seat<u8, View>, slot: usize, header: u64)
        requires table { (seat.old.table_id ≡ self.now.id) × (seat.old.me.0.shape ≡ self.now.shape) }
        requires writer { seat.old.me.0.me ≡ 0 }
        requires slot { slot < self.now.shape.slots }
        requires header { header ≡ header_in slot seat.old.me.0.mine + 1 }
        requires reuse { header % 2 ≡ 1 → MayLink self.now.shape.readers slot seat.old.me.0.mine }
        ensures table { seat.new.table_id ≡ seat.old.table_id }
        ensures held { seat.new.me.1 ≡ seat.old.me.1 }
        ensures step { Went seat.old.me.0 (Header slot header ∷ seat.old.me.0.mine) seat.new.me.0 }
    {
        let index = self.headers + slot;
        self.table.shared.store::<Changes>(seat, index, header);
    }

    /// Whether a reader is inside a section: 1 for inside, 0 for outside.
    #[inline]
    pub(crate) fn scan(&self, seat: &mut Seat<u8, View>, reader: usize) -> u64
        requires table { (seat.old.table_id ≡ self.now.id) × (seat.old.me.0.shape ≡ self.now.shape) }
        requires writer { seat.old.me.0.me ≡ 0 }
        requires reader { reader < self.now.shape.readers }
        ensures table { seat.new.table_id ≡ seat.old.table_id }
        ensures held { seat.new.me.1 ≡ seat.old.me.1 }
        ensures step { Went seat.old.me.0 (Scan (reader + 1) result ∷ seat.old.me.0.mine) seat.new.me.0 }
    {
        let shared = &self.table.shared;
        shared.load::<Scans>(seat, reader * SECTION_STRIDE)
    }
}
