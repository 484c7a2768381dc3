//! A table with its writer.
ghost use Rattle.std.specs.Prelude.{◌≡◌, ◌≢◌, ◌↔◌, ◌<◌, ◌+◌, ℕ, List, Decides, Err, None, IfSome, IfNone, IsNone, IfOk, IfErr, IsOk, OnOk, option_copied, length, true, false};
ghost use Rattle.map_table.specs.Hashes.{layout_of};
ghost use Rattle.map_table.specs.Held.{IsNew, IsReady, IsSized};
ghost use Rattle.map_table.specs.Writing.{MakesSeat};
ghost use Rattle.map_table.specs.Law.{ways_of};
ghost use Rattle.table_words.specs.Once.{AreLinkedOnce};
ghost use Rattle.host_tables.specs.Copies.{AreAlike, AreAllThere, Copies, IsThere, StayThere, StopsCopying};
ghost use Rattle.map_table.specs.Values.{stored_of};
ghost use Rattle.host_tables.specs.Reading.{CanServe};
ghost use Rattle.host_tables.specs.Tables.{IsNewTable, IsNotSet, Reads, Reclaims, Removes, Seeks, Sets};
ghost use Rattle.host_tables.specs.Walks.{Meets, MeetsNone};
ghost use Rattle.host_tables.specs.declared.fault.TableFault.TheVariants.{Shape};
ghost use Rattle.host_tables.specs.declared.fault.TableRunFault.TheVariants.{Length, Maps};
ghost use Rattle.shared_runs.specs.MapRuns.{ServesMaps};

use crate::copying::copy_all;
use crate::fault::{How, SetFault, TableFault, TableRunFault};
use crate::reader::{HostReader, serves};
use crate::walking::{load_first, start_behind};
use crate::writing::{read_sums, reclaim, seek, set_asked, unlink};
use host_programs::HostProgram;
use map_table::{MAX_BUCKETS, MAX_ELEMENTS, MAX_READERS, MAX_WORDS, MapTable, TableShape, Writer};
use std::alloc::Global;
use std::marker::Model;
use std::sync::Arc;

/// A table and its writer, who makes the readers' seats.
#[derive(Drop)]
pub struct HostTable {
    table: Arc<MapTable>,
    writer: Writer,
}

impl Model for HostTable {
    ghost use Rattle.std.specs.Prelude.{◌≡◌};
    ghost use Rattle.std.specs.Arc.{arc_value};
    ghost use Rattle.host_tables.specs.Tables.{IsTidy, OpenTable, seats_left};

    ghost Value = { OpenTable };

    ghost view = { λ t. record {
      table = arc_value t.table;
      writer = t.writer;
      seats = seats_left (arc_value t.table) t.writer;
    } };

    ghost invariant = { λ t. (t.writer.table ≡ arc_value t.table) × IsTidy t.writer };
}

/// Whether a table may have this shape.
pub fn is_sized(shape: &TableShape) -> bool
    ensures { Decides result (IsSized shape.now) }
{
    shape.readers <= MAX_READERS
        && 0 < shape.buckets
        && shape.buckets <= MAX_BUCKETS
        && shape.elements <= MAX_ELEMENTS
        && shape.key_words <= MAX_WORDS
        && shape.value_words <= MAX_WORDS
}

impl HostTable {
    /// A table of this shape, in which nothing is linked. All memory is taken here. It takes one key fewer than it has elements
    /// (`set`), and one of a single element takes none.
    ///
    /// Errors: `Shape` where no table may have it (`is_sized`); else `Memory`.
    pub fn new(alloc: Global, shape: TableShape) -> Result<HostTable, TableFault>
        ensures opened { IfOk result (IsNewTable shape) }
        ensures sized { IfOk result (λ t. IsSized shape) }
        ensures fault { (result ≡ Err Shape) ↔ (IsSized shape → ⊥) }
    {
        if !is_sized(&shape) {
            return Err(TableFault::Shape);
        }
        let (table, writer) = MapTable::unseated(alloc, shape)?;
        writer.is_writers();
        let Ok(table) = Arc::new(alloc, table) else {
            return Err(TableFault::Memory);
        };
        Ok(HostTable { table, writer })
    }

    /// How many of each the table has.
    pub fn shape(&self) -> TableShape
        ensures shape { result ≡ self.now.table.shape }
        ensures sized { IsSized result }
    {
        self.table.shape()
    }

    /// Whether readers of the table may run a program, and if not, why.
    ///
    /// Errors: `Maps`, `SubWord`.
    pub fn serves(&self, program: &HostProgram) -> Result<(), TableRunFault>
        ensures serves { OnOk result (CanServe self.now.table.shape program.now.checked) }
        ensures maps { (result ≡ Err Maps) ↔ (ServesMaps self.now.table.shape program.now.checked.shapes → ⊥) }
        ensures length { result ≢ Err Length }
        ensures served { CanServe self.now.table.shape program.now.checked → IsOk result }
    {
        serves(&self.table, program)
    }

    /// The table itself, whose laws and rule speak of all that is done to it (`MapTable::ruled`).
    pub fn table(&self) -> &MapTable
        ensures { result.now ≡ self.now.table }
    {
        &self.table
    }

    /// The table's writer, to look at. Its laws speak of what it did and saw (`is_writers`, `each_element_once`, `share`).
    pub fn writer(&self) -> &Writer
        ensures { result.now ≡ self.now.writer }
    {
        &self.writer
    }

    /// A reader, of which each thread needs its own. Its history begins with all that the writer saw. `None` where each seat has been
    /// given, or no more owners of the table can be counted. A seat is not given back: it goes with its reader.
    pub fn reader(&mut self) -> Option<HostReader>
        ensures table { self.new.table ≡ self.old.table }
        ensures writer { IfSome result (λ r. MakesSeat self.old.writer self.new.writer) }
        ensures seat { IfSome result (λ r. self.old.seats ≡ self.new.seats + 1) }
        ensures ready { IfSome result (IsReady self.old.table) }
        ensures new { IfSome result IsNew }
        ensures shape { IfSome result (λ r. r.view.shape ≡ self.old.table.shape) }
        ensures me { IfSome result (λ r. r.view.me ≡ self.old.writer.view.next) }

        // Its history goes on from the writer's. So it finds each key that is linked now, while the writer keeps it (laws
        // `kept_keys_are_found`, `copied_keys_are_found`).
        ensures begins { IfSome result (λ r. r.view.seen ≡ self.new.writer.view.seen) }
        ensures stay { StayThere self.old.table.shape self.old.writer self.new.writer }
        ensures given { self.old.seats ≡ 0 → IsNone result }
        ensures kept { IfNone result (self.new ≡ self.old) }
    {
        let Ok(table) = Arc::try_clone(&self.table) else {
            return None;
        };
        self.writer.is_writers();
        let seat = self.writer.seat(&self.table)?;
        seat.is_readers();
        Some(HostReader::of(table, seat))
    }

    /// Links a value under a key, or puts it in the place of the one that is there, in one store: at no moment does a
    /// reader miss a key that is linked before. Of a table with a value for each reader it is those of all, that of the first
    /// reader first.
    ///
    /// It fills one free element, and where the key is new, another stays free. So one element fewer can be linked than there
    /// are, and a linked key can be given another value even then. Where too few are free, those are reclaimed first that no
    /// reader holds.
    ///
    /// Where both buckets of a new key are full, an element of them goes to the other bucket of its own key, if that has an empty way.
    /// It stands in both until each reader has left the section that it was in, so no reader misses it. It waits for one reader
    /// after another. If one stays inside for 8,000,001 looks, some 20 milliseconds, the element stays where it stood.
    ///
    /// Errors: `Exists` and `Missing` where `how` asks otherwise; else `NoElement`, `NoWay`, `Held`. Then what is linked stays, and
    /// after `Held` the same call may succeed.
    pub fn set(&mut self, key: &[u64], value: &[u64], how: How) -> Result<(), SetFault>
        requires key { length key.now ≡ self.old.table.shape.key_words }
        requires value { length value.now ≡ stored_of self.old.table.shape }
        ensures table { self.new.table ≡ self.old.table }
        ensures seats { self.new.seats ≡ self.old.seats }
        ensures set { OnOk result (Sets key.now value.now how self.old.writer self.new.writer) }
        ensures fault { IfErr result (IsNotSet key.now how self.old.writer self.new.writer) }

        // A key that is set is linked, and what was linked still is, also where none is set.
        ensures linked { OnOk result (IsThere self.old.table.shape key.now self.new.writer) }
        ensures stay { StayThere self.old.table.shape self.old.writer self.new.writer }
    {
        let _shape = self.table.shape();
        self.writer.is_writers();
        set_asked(&self.table, &mut self.writer, key, value, how)
    }

    /// Whether keys can be copied into another table: they have as many words there, and so have values, of which each element
    /// has as many.
    pub fn is_alike(&self, other: &HostTable) -> bool
        ensures { Decides result (AreAlike self.now.table.shape other.now.table.shape) }
    {
        let here = self.table.shape();
        let there = other.table.shape();
        here.key_words == there.key_words
            && here.value_words == there.value_words
            && here.copies() == there.copies()
    }

    /// Links each key of this table in another one, with the words of all its values. Of a key that is linked there it puts the
    /// values in the place of those. So a host goes over to a larger table: it copies the keys, and from then on sets and removes
    /// keys in both. After the copy it opens readers of the larger table, and each thread changes over to one between two runs. Such a
    /// reader finds each key that was copied, while the writer keeps it (law `copied_keys_are_found`). The smaller table lives as long
    /// as its last reader.
    ///
    /// What readers store in a value after it was loaded is not copied.
    ///
    /// Errors: as `set` into the other table, by `How::Any`. The keys of the first ways are set there then, and that of the next
    /// one is not. What was linked in either table stays, and it may be called again.
    pub fn copy_to(&mut self, other: &mut HostTable) -> Result<(), SetFault>
        requires alike { AreAlike self.old.table.shape other.old.table.shape }
        ensures table { self.new.table ≡ self.old.table }
        ensures other { other.new.table ≡ other.old.table }
        ensures seats { self.new.seats ≡ self.old.seats }
        ensures other_seats { other.new.seats ≡ other.old.seats }
        ensures copies { OnOk result (Copies (ways_of self.old.table.shape) self.old.writer other.old.writer
            self.new.writer other.new.writer) }
        ensures fault { IfErr result (StopsCopying self.old.table.shape self.old.writer other.old.writer
            self.new.writer other.new.writer) }

        // Each key that is linked here is linked there.
        ensures linked { OnOk result (AreAllThere self.old.table.shape other.old.table.shape self.new.writer other.new.writer) }

        // What was linked in either table still is, also where it fails.
        ensures stay { StayThere self.old.table.shape self.old.writer self.new.writer }
        ensures kept { StayThere other.old.table.shape other.old.writer other.new.writer }
    {
        self.writer.is_writers();
        other.writer.is_writers();
        copy_all(
            &self.table,
            &mut self.writer,
            &other.table,
            &mut other.writer,
        )
    }

    /// Removes a key. Readers that found its element before may use it until they end their section. False where the key is
    /// not linked.
    pub fn remove(&mut self, key: &[u64]) -> bool
        requires key { length key.now ≡ self.old.table.shape.key_words }
        ensures table { self.new.table ≡ self.old.table }
        ensures seats { self.new.seats ≡ self.old.seats }
        ensures removed { result ≡ true → Removes key.now self.old.writer self.new.writer }
        ensures missing { result ≡ false → Seeks key.now None self.old.writer self.new.writer }
    {
        let _shape = self.table.shape();
        let Some(way) = seek(&self.table, &mut self.writer, key) else {
            return false;
        };
        unlink(&self.table, &mut self.writer, way);
        true
    }

    /// Reads the value of a key; of a table with a value for each reader it is the sum of all, place by place, modulo 2^64.
    /// Each word is loaded by itself, so what readers store meanwhile is in it or not. False where the key is not linked, and
    /// then nothing is written.
    pub fn read(&mut self, key: &[u64], value: &mut [u64]) -> bool
        requires key { length key.now ≡ self.old.table.shape.key_words }
        requires value { length value.old ≡ self.old.table.shape.value_words }
        ensures table { self.new.table ≡ self.old.table }
        ensures seats { self.new.seats ≡ self.old.seats }
        ensures read { result ≡ true → Reads key.now value.new self.old.writer self.new.writer }
        ensures missing { result ≡ false → Seeks key.now None self.old.writer self.new.writer }
        ensures unwritten { result ≡ false → value.new ≡ value.old }
        ensures count { length value.new ≡ length value.old }
    {
        let _shape = self.table.shape();
        let Some(way) = seek(&self.table, &mut self.writer, key) else {
            return false;
        };
        let Some(element) = self.writer.element_at(way) else {
            return false;
        };
        read_sums(&self.table, &mut self.writer, element, value);
        true
    }

    /// Writes the key that comes next behind a given one, in the order of ways: the first of all, where none is given or it is not
    /// linked. False where none comes behind, and then nothing is written.
    ///
    /// A walk gives each time the key that it met last. It meets a key that stays linked once, if those that it gives stay linked, too
    /// (laws `walks_meet_each_once`, `walks_meet_each_key_once`). A key that `set` moves to its other bucket meanwhile, to make room,
    /// is met or not, or twice.
    pub fn next_key(&mut self, key: Option<&[u64]>, next: &mut [u64]) -> bool
        requires key { IfSome (option_copied key) (λ k. length k ≡ self.old.table.shape.key_words) }
        requires next { length next.old ≡ self.old.table.shape.key_words }
        ensures table { self.new.table ≡ self.old.table }
        ensures seats { self.new.seats ≡ self.old.seats }
        ensures meets { result ≡ true → Meets (option_copied key.entry) next.new self.old.writer self.new.writer }
        ensures none { result ≡ false → MeetsNone (option_copied key.entry) self.old.writer self.new.writer }
        ensures unwritten { result ≡ false → next.new ≡ next.old }
        ensures count { length next.new ≡ length next.old }
    {
        let from = start_behind(&self.table, &mut self.writer, key);
        load_first(&self.table, &mut self.writer, from, next)
    }

    /// Frees the elements that were unlinked and that no reader can hold any more: how many. It looks at each reader once
    /// and waits for none, so an element may be freed by a later call only.
    pub fn reclaim(&mut self) -> usize
        ensures table { self.new.table ≡ self.old.table }
        ensures seats { self.new.seats ≡ self.old.seats }
        ensures reclaimed { (gone : List ℕ) × (length gone ≡ result) × Reclaims gone self.old.writer self.new.writer }
    {
        reclaim(&self.table, &mut self.writer)
    }

    /// A law: no key is linked in two ways, however it was set.
    pub fn keys_are_linked_once(&self)
        ensures { AreLinkedOnce (layout_of self.now.table.shape) 0 self.now.writer.view.seen }
    {
        let _ = &self.writer;
    }

    /// A law: one element at least is not linked, if the table has any. So where none is free, some wait for readers.
    pub fn one_is_in_reserve(&self)
        ensures { 0 < self.now.table.shape.elements → 0 < length self.now.writer.free + length self.now.writer.unlinked }
    {
        let _ = &self.writer;
    }

    /// How many elements may be filled.
    pub fn count_free(&self) -> usize
        ensures { result ≡ length self.now.writer.free }
    {
        self.writer.free().len()
    }

    /// How many elements were unlinked, and wait for readers.
    pub fn count_waiting(&self) -> usize
        ensures { result ≡ length self.now.writer.unlinked }
    {
        self.writer.unlinked().len()
    }

    /// How many seats are left. Readers are numbered from 1, in the order in which they are opened.
    pub fn count_seats(&self) -> usize
        ensures count { result ≡ self.now.seats }
        ensures next { result + self.now.writer.view.next ≡ self.now.table.shape.readers + 1 }
    {
        self.writer.count_seats(&self.table)
    }
}
