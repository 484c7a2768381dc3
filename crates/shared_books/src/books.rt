//! The world with its journal, and the ledger that counts its entries. No method waits.
ghost use Rattle.std.specs.Prelude.{◌≡◌, ℕ, ◌+◌, ◌-◌, ◌^◌, ◌<◌, ◌≤◌, ◌↔◌, [], length, ◌⊎◌, IsTrue, true, IfNone, IfOk, IfSome, IsOk, OnErr, OnOk, Err, Ok, option_copied};
ghost use Rattle.bpf_model.specs.declared.limits.TheConstants.{MAX_JOURNAL, MAX_PROGRAMS};
ghost use Rattle.bpf_model.specs.View.{shapes_of};
ghost use Rattle.shared_books.specs.Replay.{Replays, HasNoRuns};
ghost use Rattle.shared_books.specs.Totals.{steps_of};
ghost use Rattle.shared_books.specs.Noted.{IsEntered, receipt_of};
ghost use Rattle.shared_books.specs.Receipts.{IsExitOf};
ghost use Rattle.world_laws.specs.Invariant.{IsWorld};
ghost use Rattle.shared_books.specs.Tally.{IsTallyOf, origin_of};
ghost use Rattle.shared_books.specs.Books.{HasNoRoom, TotalsRise, CutsTo, LoadsTo};
ghost use Rattle.world.specs.BoundTo.{IsBound};
ghost use Rattle.world.specs.Programs.{program_of};
ghost use Rattle.world.specs.declared.fault.WorldFault.TheVariants.{Binding, TooManyPrograms, Memory};
ghost use Rattle.shared_books.specs.declared.fault.LoadFault.TheVariants as load_fault;
ghost use Rattle.shared_books.specs.declared.fault.SharedFault.TheVariants as fault;
ghost use Rattle.shared_books.specs.declared.fault.CutFault.TheVariants as cut_fault;

mod stretch;

use crate::fault::{CutFault, LoadFault, SharedFault};
use crate::tally::{Origin, Tally, Totals, unreclaimed};
use crate::worker::Worker;
use bpf_model::{Answer, CtxBytes, Event, ProgId, RunId};
use journal::{Journal, JournalFault};
use std::alloc::Global;
use std::marker::Model;
use std::sync::ledger::{Book, Ledger, Share};
use verifier::Verified;
use world::{Loaded, World, WorldFault};

/// A base, what happened since, and the world now.
#[derive(Drop)]
pub struct Books<L: Ledger> {
    base: World,
    world: World,
    journal: Journal,
    before: u64,
    steps_before: u64,
    tally: Tally,
    book: Book<L>,
}

impl<L: Ledger> Model for Books<L> {
    ghost use Rattle.shared_books.specs.Books.{BooksView};
    ghost use Rattle.shared_books.specs.Codes.{books_code};

    ghost Value = { BooksView };

    ghost coded = { books_code };

    ghost use Rattle.shared_books.specs.Books.{books_view, AreBalanced};

    ghost view = { λ b. books_view b.base b.world b.journal b.before b.steps_before b.book.total
        b.tally };

    ghost invariant = { λ b. AreBalanced
        (books_view b.base b.world b.journal b.before b.steps_before b.book.total b.tally) };
}

/// What a shared world leaves: the base, the world now, the journal from the one to the other, and how many
/// entries were made before the base.
#[derive(Drop)]
pub struct Finished {
    pub base: World,
    pub world: World,
    pub journal: Journal,
    pub before: u64,
}

/// Whether no run slot of a world is occupied.
pub fn is_quiet(world: &World) -> bool
    ensures { IsTrue result ↔ HasNoRuns world.now }
{
    world.stat().runs == 0
}

/// Room for one more entry, where the journal and the count of all entries allow it.
fn make_room(journal: &mut Journal, before: u64) -> Result<(), SharedFault>
    requires { before + length journal.old.entries < 2 ^ 64 }
    ensures full { (result ≡ Err fault.JournalFull)
        ↔ HasNoRoom journal.old.entries journal.old.limit before }
    ensures room { OnOk result (journal.new.has_room ≡ true) }
    ensures count { OnOk result (before + length journal.old.entries + 1 < 2 ^ 64) }
    ensures few { OnOk result (length journal.old.entries < journal.old.limit) }
    ensures entries { journal.new.entries ≡ journal.old.entries }
    ensures limit { journal.new.limit ≡ journal.old.limit }
{
    journal.is_short();
    if before == u64::MAX - journal.len() as u64 {
        return Err(SharedFault::JournalFull);
    }
    match journal.reserve_one() {
        Ok(()) => Ok(()),
        Err(JournalFault::Full) => Err(SharedFault::JournalFull),
        Err(JournalFault::Memory) => Err(SharedFault::Memory),
    }
}

impl<L: Ledger> Books<L> {
    /// The books of a world in which no run slot is occupied, with an empty journal.
    pub fn new(base: World, world: World, journal: Journal, book: Book<L>) -> Books<L>
        requires same { world ≡ base }
        requires quiet { HasNoRuns base }
        requires journal { journal.entries ≡ [] }
        requires book { book.total ≡ 0 }
        ensures base { result.base ≡ base }
        ensures world { result.world ≡ base }
        ensures journal { result.journal ≡ [] }
        ensures limit { result.limit ≡ journal.limit }
        ensures total { result.total ≡ 0 }
        ensures before { (result.before ≡ 0) × (result.steps_before ≡ 0) }
        ensures origin { result.tally.origin ≡ origin_of base }
        ensures totals { result.tally.totals ≡ record { steps = 0; unlinked = 0; reclaimed = 0 } }
    {
        base.is_world();
        let tally = Tally::new(&world);
        Books {
            base,
            world,
            journal,
            before: 0,
            steps_before: 0,
            tally,
            book,
        }
    }

    /// Applies the event and enters it, and puts the answer in the place of another one; or changes nothing.
    ///
    /// The error is `JournalFull` exactly when the journal has as many entries as it may have, or when as many
    /// as 64 bits count were made since the world was shared; `Memory` when the journal could not grow.
    pub fn act_into(
        &mut self,
        worker: &mut Worker<L>,
        event: &Event,
        answer: &mut Answer,
    ) -> Result<(), SharedFault>
        ensures noted { IsEntered self.old worker.old event.now
            (receipt_of worker.new event.now result answer.new) self.new worker.new }
        ensures rise { TotalsRise self.old.tally.totals self.new.tally.totals }
        ensures err { OnErr result (answer.new ≡ answer.old) }
    {
        make_room(&mut self.journal, self.before)?;
        event.is_real();
        self.world.is_world();
        self.world.apply_into(event, answer);
        self.tally.count(answer, unreclaimed(&self.world));
        self.book.audit(&mut worker.share);
        self.book.add(&mut worker.share, 1);
        worker.made += 1;
        self.journal.push_answer(worker.number, event, answer);
        Ok(())
    }

    /// The exit value of a run that has ended and was started with this program on this context, if it is so.
    pub fn exit_of(&self, run: RunId, program: Option<&Verified>, ctx: &CtxBytes) -> Option<u64>
        ensures world { IsWorld self.now.world }
        ensures some { IfSome result (λ n. IsExitOf self.now.world run (option_copied program.entry)
            ctx.now.items n) }
        ensures none { IfNone result ((n : ℕ) → IsExitOf self.now.world run
            (option_copied program.entry) ctx.now.items n → ⊥) }
    {
        self.world.is_world();
        match program {
            Some(program) => self.world.exit_of(run, program, ctx),
            None => None,
        }
    }

    /// Makes the world its own new base and empties the journal, whose entries are counted as those before the
    /// base. The world stays as it was.
    ///
    /// Errors, and then nothing has changed: `NotQuiet` where a run slot is occupied; else `Memory` where there
    /// is none for the copy.
    pub fn cut(&mut self, alloc: Global) -> Result<(), CutFault>
        ensures quiet { (result ≡ Err cut_fault.NotQuiet) ↔ (HasNoRuns self.old.world → ⊥) }
        ensures ok { OnOk result (CutsTo self.old self.new) }
        ensures err { OnErr result (self.new ≡ self.old) }
    {
        if !is_quiet(&self.world) {
            return Err(CutFault::NotQuiet);
        }
        match self.world.copy(alloc) {
            Err(_) => Err(CutFault::Memory),
            Ok(base) => {
                self.base = base;
                self.before += self.journal.len() as u64;
                self.steps_before = self.tally.totals.steps;
                self.journal.cut();
                Ok(())
            }
        }
    }

    /// Adds a program to the world, as `World::load`, and makes that its own new base, as `cut`. The program gets the next
    /// number; maps, counts and totals stay as they were.
    ///
    /// Errors, and then nothing has changed: `NotQuiet` where a run slot is occupied; else `World`, as `World::load` says, or where
    /// there is no memory for copies of the world.
    pub fn load(&mut self, alloc: Global, loaded: Loaded) -> Result<ProgId, LoadFault>
        ensures quiet { (result ≡ Err load_fault.NotQuiet) ↔ (HasNoRuns self.old.world → ⊥) }
        ensures too_many { HasNoRuns self.old.world → MAX_PROGRAMS ≤ length self.old.world.programs →
            (result ≡ Err (load_fault.World TooManyPrograms)) ⊎ (result ≡ Err (load_fault.World Memory)) }
        ensures binding { HasNoRuns self.old.world → length self.old.world.programs < MAX_PROGRAMS →
            (IsBound (shapes_of self.old.world) loaded → ⊥) →
            (result ≡ Err (load_fault.World (Binding (length self.old.world.programs)))) ⊎ (result ≡ Err (load_fault.World Memory)) }
        ensures made { HasNoRuns self.old.world → length self.old.world.programs < MAX_PROGRAMS →
            IsBound (shapes_of self.old.world) loaded → IsOk result ⊎ (result ≡ Err (load_fault.World Memory)) }
        ensures number { IfOk result (λ p. p ≡ length self.old.world.programs) }
        ensures ok { OnOk result (LoadsTo (program_of loaded) self.old self.new) }
        ensures err { OnErr result (self.new ≡ self.old) }
    {
        if !is_quiet(&self.world) {
            return Err(LoadFault::NotQuiet);
        }
        let Ok(mut world) = self.world.copy(alloc) else {
            return Err(LoadFault::World(WorldFault::Memory));
        };
        let program = match world.load(loaded) {
            Ok(program) => program,
            Err(fault) => return Err(LoadFault::World(fault)),
        };
        let Ok(base) = world.copy(alloc) else {
            return Err(LoadFault::World(WorldFault::Memory));
        };
        base.is_world();
        self.base = base;
        self.world = world;
        self.before += self.journal.len() as u64;
        self.steps_before = self.tally.totals.steps;
        self.journal.cut();
        Ok(program)
    }

    /// A law: the journal replays from the base to the world. The ledger counts its entries and those before the base. The
    /// totals are the world's since its origin, and the steps those of all entries. There are no more entries than there
    /// may be, which are at most `MAX_JOURNAL`.
    pub fn are_balanced(&self)
        ensures replays { Replays self.now.base self.now.world self.now.journal }
        ensures total { self.now.before + length self.now.journal ≡ self.now.total }
        ensures steps { self.now.steps_before + steps_of self.now.journal
            ≡ self.now.tally.totals.steps }
        ensures tally { IsTallyOf self.now.tally self.now.world }
        ensures limit { self.now.limit ≤ MAX_JOURNAL }
        ensures short { length self.now.journal ≤ self.now.limit }
    {
        let _base = &self.base;
    }

    /// The base, the world and the journal. The shares of all workers add up to the entries before the base
    /// and those in the journal.
    pub fn finish(mut self, all: &mut Share<L>) -> Finished
        requires { all.old.parts ≡ L.parts }
        ensures base { result.base ≡ self.base }
        ensures world { result.world ≡ self.world }
        ensures journal { result.journal.entries ≡ self.journal }
        ensures replays { Replays result.base result.world result.journal.entries }
        ensures limit { result.journal.limit ≡ self.limit }
        ensures before { result.before ≡ self.before }
        ensures few { self.limit ≤ MAX_JOURNAL }
        ensures short { length result.journal.entries ≤ self.limit }
        ensures total { result.before + length result.journal.entries ≡ all.old.amount }
    {
        self.book.audit(all);
        let Books {
            base,
            world,
            journal,
            before,
            steps_before: _,
            tally: _,
            book: _,
        } = self;
        Finished {
            base,
            world,
            journal,
            before,
        }
    }

    /// What the counts of the world were when it was shared.
    pub fn origin(&self) -> Origin
        ensures { result ≡ self.now.tally.origin }
    {
        self.tally.origin
    }

    /// The three totals since the world was shared.
    pub fn totals(&self) -> Totals
        ensures { result ≡ self.now.tally.totals }
    {
        self.tally.totals
    }
}
