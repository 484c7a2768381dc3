//! Moves of one run. The fields of a stretch are private to this module, so only a state makes one.
ghost use Rattle.std.specs.Prelude.{◌≡◌, ◌+◌, ◌<◌, ◌≤◌, Ok, Err};
ghost use Rattle.bpf_model.specs.declared.event.Event.{Event};
ghost use Rattle.bpf_model.specs.declared.event.Answer.{Answer};
ghost use Rattle.shared_books.specs.Books.{IsJournalFull};
ghost use Rattle.shared_books.specs.Receipts.{IsMachineAnswer};
ghost use Rattle.shared_books.specs.Stretches.{EntersMoves, HasMade};
ghost use Rattle.world.specs.Stretches.{WouldBeRefused, WouldExit};

use crate::state::{Receipt, State};
use bpf_model::RunId;
use shared_books::{SharedFault, Worker};
use std::marker::{Model, PhantomData};
use std::sync::Wait;
use std::sync::ledger::Ledger;
use world::Stop;

/// Entries of one worker, one behind another, each a step of one run that was answered with a move. It says which worker,
/// which run, how many entries were made before, and how many moves these are. `run_noted` makes it, and receipts of steps
/// right behind make it longer. None is ever copied. It is of the shared world of its ledger, which is the only one of this
/// ledger.
#[derive(Drop)]
pub struct Stretch<L: Ledger> {
    worker: u8,
    run: RunId,
    since: u64,
    moved: u64,
    ledger: PhantomData<L>,
}

impl<L: Ledger> Model for Stretch<L> {
    ghost use Rattle.shared.specs.Stretches.{StretchView};

    ghost Value = { StretchView };

    ghost view = { λ s. record {
      worker = s.worker;
      run = s.run;
      since = s.since;
      moved = s.moved;
    } };
}

impl<L: Ledger> State<L> {
    /// Steps a run as `run_for` does, and tells why it stopped as that does. The stretch has the moves, also where there
    /// are none.
    pub fn run_noted<R: Wait>(
        &mut self,
        rt: &R,
        worker: &mut Worker<L>,
        run: RunId,
        most: usize,
    ) -> (Stretch<L>, Result<Stop, SharedFault>)
        ensures moves { EntersMoves worker.old.number run self.old.books result.0.moved
            self.new.books }
        ensures made { HasMade worker.old result.0.moved worker.new }
        ensures worker { result.0.worker ≡ worker.old.number }
        ensures run { result.0.run ≡ run }
        ensures since { result.0.since ≡ worker.old.made }
        ensures answered { 0 < result.0.moved → IsMachineAnswer (Event.Step run) Answer.Moved }
        ensures cell { self.new.meter ≡ self.old.meter }
        ensures most { result.0.moved ≤ most }
        ensures exhausted { result.1 ≡ Ok Stop.Enough → result.0.moved ≡ most }
        ensures exits { result.1 ≡ Ok Stop.Exits → WouldExit self.new.books.world run }
        ensures refused { result.1 ≡ Ok Stop.Refused →
            WouldBeRefused self.new.books.world run }
        ensures full { result.1 ≡ Err SharedFault.JournalFull → IsJournalFull self.new.books }
        ensures no_room { IsJournalFull self.old.books → result.1 ≡ Err SharedFault.JournalFull }
        ensures memory { result.1 ≡ Err SharedFault.Memory → result.0.moved ≡ 0 }
    {
        let number = worker.number();
        let since = worker.made();
        let steps = self.run_for(rt, worker, run, most);
        let stretch = Stretch {
            worker: number,
            run,
            since,
            moved: steps.moved as u64,
            ledger: PhantomData,
        };
        (stretch, steps.end)
    }
}

impl<L: Ledger> Stretch<L> {
    /// Takes in the step that the worker made right behind these, and which was a move too.
    pub fn add_step(&mut self, step: &Receipt<L>)
        requires asked { step.now.event ≡ Event.Step self.old.run }
        requires moved { step.now.reply ≡ Ok Answer.Moved }
        requires worker { step.now.worker ≡ self.old.worker }
        requires next { step.now.made ≡ self.old.since + self.old.moved + 1 }
        ensures { self.new ≡ record self.old { moved = self.old.moved + 1 } }
    {
        self.moved = step.made() - self.since;
    }

    /// The number of the worker that made them.
    pub fn worker(&self) -> u8
        ensures { result ≡ self.now.worker }
    {
        self.worker
    }

    /// The run that was stepped.
    pub fn run(&self) -> RunId
        ensures { result ≡ self.now.run }
    {
        self.run
    }

    /// How many entries the worker had made before.
    pub fn since(&self) -> u64
        ensures { result ≡ self.now.since }
    {
        self.since
    }

    /// How many moves they are.
    pub fn moved(&self) -> u64
        ensures { result ≡ self.now.moved }
    {
        self.moved
    }
}
