//! What the lock guards: the books, with the one pass that writes the counters.
ghost use Rattle.std.specs.Prelude.{◌≡◌, ◌+◌, ◌<◌, ◌≤◌, ◌↔◌, ◌⊎◌, length, IfOk, IsOk, OnErr, OnOk, Ok, Err};
ghost use Rattle.bpf_model.specs.declared.event.Event.{Event};
ghost use Rattle.bpf_model.specs.declared.event.Answer.{Answer};
ghost use Rattle.std.specs.Arc.{arc_value};
ghost use Rattle.crossbeam_utils.specs.Seq.{cell_view};
ghost use Rattle.shared_books.specs.Noted.{IsEntered, receipt_of};
ghost use Rattle.bpf_model.specs.View.{shapes_of};
ghost use Rattle.shared_books.specs.Books.{IsJournalFull, TotalsRise, CutsTo, LoadsTo};
ghost use Rattle.world.specs.BoundTo.{IsBound};
ghost use Rattle.world.specs.Programs.{program_of};
ghost use Rattle.world.specs.declared.fault.WorldFault.TheVariants.{Binding, TooManyPrograms, Memory};
ghost use Rattle.shared_books.specs.declared.fault.LoadFault.TheVariants as load_fault;
ghost use Rattle.shared_books.specs.Receipts.{IsMachineAnswer};
ghost use Rattle.shared_books.specs.Stretches.{EntersMoves, HasMade};
ghost use Rattle.world.specs.Stretches.{WouldBeRefused, WouldExit};
ghost use Rattle.shared.specs.Meter.{MayWrite, writer_at};
ghost use Rattle.shared_books.specs.Tally.{IsTallyOf, shown_totals};
ghost use Rattle.bpf_model.specs.declared.limits.TheConstants.{MAX_JOURNAL, MAX_PROGRAMS};
ghost use Rattle.shared_books.specs.Replay.{Replays, HasNoRuns};
ghost use Rattle.shared_books.specs.Totals.{steps_of};
ghost use Rattle.shared_books.specs.declared.fault.CutFault.TheVariants as cut_fault;

mod counters;
mod note;
mod receipt;
mod stretch;

use crate::meter::{Meter, MeterPass, Writes};
use crate::state::counters::begin;
use bpf_model::{Answer, Event, ProgId, RunId};
pub use counters::Counters;
pub use note::ExitNote;
pub use receipt::Receipt;
use shared_books::{Books, CutFault, Finished, LoadFault, SharedFault, Totals, Worker};
use std::alloc::{AllocError, Global};
use std::marker::Model;
use std::sync::ledger::{Ledger, Share};
use std::sync::{Arc, Wait};
pub use stretch::Stretch;
use world::{Loaded, Stop, Walk};

/// The books, and the pass that writes the counters' cell. Whenever the lock is free the books balance, and
/// the pass knows the words of the cell: they are the totals of the books.
#[derive(Drop)]
pub struct State<L: Ledger> {
    books: Books<L>,
    cell: Arc<Meter>,
    pass: MeterPass,
}

impl<L: Ledger> Model for State<L> {
    ghost use Rattle.shared.specs.State.{StateView};
    ghost use Rattle.shared.specs.Codes.{state_code};

    ghost Value = { StateView };

    ghost coded = { state_code };

    ghost use Rattle.std.specs.Prelude.{◌≡◌};
    ghost use Rattle.std.specs.Arc.{arc_value};
    ghost use Rattle.crossbeam_utils.specs.Seq.{cell_view};
    ghost use Rattle.shared.specs.Meter.{writer_at};

    ghost view = { λ s. record { books = s.books; meter = s.pass.table_id } };

    ghost invariant = { λ s. (s.pass.table_id ≡ (arc_value s.cell).table.shared.table_id)
        × (cell_view s.pass ≡ writer_at s.books.tally.totals) };
}

/// Writes totals that are no less than those of the cell. It is a function of its own, so that what writes them stands
/// in one place of the program.
#[inline(never)]
fn write_totals<R: Wait>(rt: &R, cell: &Meter, pass: &mut MeterPass, totals: Totals)
    requires cell { pass.old.table_id ≡ cell.now.table.shared.table_id }
    requires rise { MayWrite (cell_view pass.old) totals }
    ensures cell { pass.new.table_id ≡ pass.old.table_id }
    ensures view { cell_view pass.new ≡ writer_at totals }
{
    let words = [totals.steps, totals.unlinked, totals.reclaimed];
    cell.swap_as::<Writes, R>(rt, pass, words);
}

/// Writes the totals where they have changed.
#[inline(always)]
fn publish<R: Wait>(rt: &R, cell: &Meter, pass: &mut MeterPass, before: Totals, after: Totals)
    requires cell { pass.old.table_id ≡ cell.now.table.shared.table_id }
    requires view { cell_view pass.old ≡ writer_at before }
    requires rise { TotalsRise before after }
    ensures cell { pass.new.table_id ≡ pass.old.table_id }
    ensures view { cell_view pass.new ≡ writer_at after }
{
    if before != after {
        write_totals(rt, cell, pass, after);
    }
}

impl<L: Ledger> State<L> {
    /// The books, with a cell in which nothing is counted yet and the one pass that writes it, and counters that
    /// read this cell. The error is that there is no memory left.
    pub(crate) fn new(alloc: Global, books: Books<L>) -> Result<(State<L>, Counters), AllocError>
        requires { books.tally.totals ≡ record { steps = 0; unlinked = 0; reclaimed = 0 } }
        ensures books { IfOk result (λ t. t.0.books ≡ books) }
        ensures cell { IfOk result (λ t. t.1.meter ≡ t.0.meter) }
        ensures shown { IfOk result (λ t. t.1.shown ≡ shown_totals books.tally.origin 0 0 0) }
    {
        let (cell, pass, counters) = begin(alloc, books.origin())?;
        Ok((State { books, cell, pass }, counters))
    }

    /// Applies the event, enters it and writes the counters, and puts the answer in the place of another one; or
    /// changes nothing. The clauses are those of the books, which do not wait.
    ///
    /// Errors: `JournalFull` exactly when the journal has as many entries as it may have, or when as many as 64 bits
    /// count were made since the world was shared; `Memory` when the journal could not grow.
    pub fn act_into<R: Wait>(
        &mut self,
        rt: &R,
        worker: &mut Worker<L>,
        event: &Event,
        answer: &mut Answer,
    ) -> Result<(), SharedFault>
        ensures noted { IsEntered self.old.books worker.old event.now
            (receipt_of worker.new event.now result answer.new) self.new.books worker.new }
        ensures cell { self.new.meter ≡ self.old.meter }
        ensures err { OnErr result (answer.new ≡ answer.old) }
    {
        let before = self.books.totals();
        let outcome = self.books.act_into(worker, event, answer);
        let after = self.books.totals();
        publish(rt, &self.cell, &mut self.pass, before, after);
        outcome
    }

    /// Steps a run as long as its step is answered with a move, at most so many times, and enters the moves and
    /// writes the counters: what as many acts of its step come to. It stops where the journal has no room for
    /// another entry, before a step that would be the run's exit, and before one that would be refused.
    pub fn run_for<R: Wait>(
        &mut self,
        rt: &R,
        worker: &mut Worker<L>,
        run: RunId,
        most: usize,
    ) -> Walk<Result<Stop, SharedFault>>
        ensures moves { EntersMoves worker.old.number run self.old.books result.moved
            self.new.books }
        ensures made { HasMade worker.old result.moved worker.new }
        ensures answered { 0 < result.moved → IsMachineAnswer (Event.Step run) Answer.Moved }
        ensures cell { self.new.meter ≡ self.old.meter }
        ensures most { result.moved ≤ most }
        ensures exhausted { result.end ≡ Ok Stop.Enough → result.moved ≡ most }
        ensures exits { result.end ≡ Ok Stop.Exits → WouldExit self.new.books.world run }
        ensures refused { result.end ≡ Ok Stop.Refused →
            WouldBeRefused self.new.books.world run }
        ensures full { result.end ≡ Err SharedFault.JournalFull → IsJournalFull self.new.books }
        ensures no_room { IsJournalFull self.old.books → result.end ≡ Err SharedFault.JournalFull }
        ensures memory { result.end ≡ Err SharedFault.Memory → result.moved ≡ 0 }
    {
        let before = self.books.totals();
        let steps = self.books.run_for(worker, run, most);
        let after = self.books.totals();
        publish(rt, &self.cell, &mut self.pass, before, after);
        steps
    }

    /// Makes the world its own new base and empties the journal, whose entries are counted as those before the
    /// base. The world stays as it was.
    ///
    /// Errors, and then nothing has changed: `NotQuiet` where a run slot is occupied; else `Memory` where there
    /// is none for the copy.
    pub fn cut(&mut self, alloc: Global) -> Result<(), CutFault>
        ensures quiet { (result ≡ Err cut_fault.NotQuiet)
            ↔ (HasNoRuns self.old.books.world → ⊥) }
        ensures ok { OnOk result (CutsTo self.old.books self.new.books) }
        ensures cell { self.new.meter ≡ self.old.meter }
        ensures err { OnErr result (self.new ≡ self.old) }
    {
        self.books.cut(alloc)
    }

    /// Adds a program to the world, as `World::load`, and makes that its own new base, as `cut`. The program gets the next
    /// number; maps, counts and totals stay as they were.
    ///
    /// Errors, and then nothing has changed: `NotQuiet` where a run slot is occupied; else `World`, as `World::load` says, or where
    /// there is no memory for copies of the world.
    pub fn load(&mut self, alloc: Global, loaded: Loaded) -> Result<ProgId, LoadFault>
        ensures quiet { (result ≡ Err load_fault.NotQuiet)
            ↔ (HasNoRuns self.old.books.world → ⊥) }
        ensures too_many { HasNoRuns self.old.books.world → MAX_PROGRAMS ≤ length self.old.books.world.programs →
            (result ≡ Err (load_fault.World TooManyPrograms)) ⊎ (result ≡ Err (load_fault.World Memory)) }
        ensures binding { HasNoRuns self.old.books.world → length self.old.books.world.programs < MAX_PROGRAMS →
            (IsBound (shapes_of self.old.books.world) loaded → ⊥) →
            (result ≡ Err (load_fault.World (Binding (length self.old.books.world.programs)))) ⊎ (result ≡ Err (load_fault.World Memory)) }
        ensures made { HasNoRuns self.old.books.world → length self.old.books.world.programs < MAX_PROGRAMS →
            IsBound (shapes_of self.old.books.world) loaded → IsOk result ⊎ (result ≡ Err (load_fault.World Memory)) }
        ensures number { IfOk result (λ p. p ≡ length self.old.books.world.programs) }
        ensures ok { OnOk result (LoadsTo (program_of loaded) self.old.books self.new.books) }
        ensures cell { self.new.meter ≡ self.old.meter }
        ensures err { OnErr result (self.new ≡ self.old) }
    {
        self.books.load(alloc, loaded)
    }

    /// A law: the journal replays from the base to the world; the ledger counts its entries and those before the
    /// base; the totals are the world's, since its origin, the steps those of all entries; and there are no more
    /// entries than there may be, which are at most `MAX_JOURNAL`. It is so of each value that a lock of this type
    /// has, whoever made it.
    pub fn are_balanced(&self)
        ensures replays { Replays self.now.books.base self.now.books.world self.now.books.journal }
        ensures total { self.now.books.before + length self.now.books.journal
            ≡ self.now.books.total }
        ensures steps { self.now.books.steps_before + steps_of self.now.books.journal
            ≡ self.now.books.tally.totals.steps }
        ensures tally { IsTallyOf self.now.books.tally self.now.books.world }
        ensures limit { self.now.books.limit ≤ MAX_JOURNAL }
        ensures short { length self.now.books.journal ≤ self.now.books.limit }
    {
        self.books.are_balanced();
    }

    /// The base, the world, the journal, and how many entries were made before the base. The shares of all workers
    /// add up to these and those in the journal.
    pub(crate) fn finish(self, all: &mut Share<L>) -> Finished
        requires { all.old.parts ≡ L.parts }
        ensures base { result.base ≡ self.books.base }
        ensures world { result.world ≡ self.books.world }
        ensures journal { result.journal.entries ≡ self.books.journal }
        ensures limit { result.journal.limit ≡ self.books.limit }
        ensures before { result.before ≡ self.books.before }
        ensures replays { Replays result.base result.world result.journal.entries }
        ensures few { self.books.limit ≤ MAX_JOURNAL }
        ensures short { length result.journal.entries ≤ self.books.limit }
        ensures total { result.before + length result.journal.entries ≡ all.old.amount }
    {
        let State {
            books,
            cell: _,
            pass: _,
        } = self;
        books.finish(all)
    }
}
