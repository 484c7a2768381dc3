//! A world behind a lock: how its sharing begins and ends, and what workers ask of it.
ghost use Rattle.std.specs.Prelude.{◌≡◌, ◌+◌, ◌<◌, ◌≤◌, ◌++◌, ◌∷◌, [], length, sum_by, All, IfOk, IfSome, OnErr, OnOk, Ok, Err, option_copied, slice_get};
ghost use Rattle.bpf_model.specs.declared.limits.TheConstants.{MAX_JOURNAL};
ghost use Rattle.bpf_model.specs.View.{shapes_of};
ghost use Rattle.shared_books.specs.Books.{AreNumbered, most_workers};
ghost use Rattle.shared_books.specs.Noted.{IsNoted, TellsExit};
ghost use Rattle.shared_books.specs.Receipts.{HasExitedOnce, IsMachineAnswer, IsOwnExit, IsPossibleExit};
ghost use Rattle.shared_books.specs.Stretches.{HasWalked};
ghost use Rattle.bpf_model.specs.declared.event.Event.{Event};
ghost use Rattle.bpf_model.specs.declared.event.Answer.{Answer};
ghost use Rattle.shared_books.specs.Tally.{origin_of, shown_totals};
ghost use Rattle.shared_books.specs.Replay.{Replays, HasNoRuns};
ghost use Rattle.shared.specs.Kept.{AreKept};

use crate::held::Held;
use crate::state::{Counters, ExitNote, Receipt, State};
use bpf_model::{Answer, CtxBytes, Event, MAX_JOURNAL, MAX_PROGRAMS, ProgId, RunId};
use journal::Journal;
use shared_books::{
    Books, CutFault, Finished, LoadFault, SharedFault, Worker, Workers, merged, new_workers,
};
use std::alloc::{AllocError, Global};
use std::marker::Model;
use std::sync::ledger::{Blank, Ledger};
use std::sync::{Mutex, Wait};
use verifier::Verified;
use world::{Loaded, Stop, Walk, World, WorldFault};

/// A world that workers share. Contracts see its programs.
#[derive(Drop)]
pub struct Shared<L: Ledger> {
    state: Mutex<State<L>>,
    programs: Vec<Verified>,
}

impl<L: Ledger> Model for Shared<L> {
    ghost use Rattle.std.specs.Prelude.{List};
    ghost use Rattle.verifier.specs.Checked.{Checked};

    ghost Value = { List Checked };

    ghost view = { λ s. s.programs.items };
}

/// The programs of a world, by number.
fn programs_of(alloc: Global, world: &World) -> Result<Vec<Verified>, AllocError>
    ensures { IfOk result (λ v. AreKept (shapes_of world.now) v.items world.now.programs) }
{
    world.is_world();
    let mut programs = Vec::new(alloc);
    for number in 0..MAX_PROGRAMS {
        match world.program(ProgId::new(number)) {
            None => return Ok(programs),
            Some(loaded) => programs.push(loaded.verified.copy(alloc)?)?,
        }
    }
    Ok(programs)
}

impl<L: Ledger> Shared<L> {
    /// Shares a world in which no run slot is occupied among 1 to `MAX_WORKERS` workers, with the counters and with
    /// an empty journal, which may have `MAX_JOURNAL` entries. The programs that it keeps are the world's, by number.
    /// The ledger has one part for each worker. The error is that there is no memory left.
    pub fn new(
        alloc: Global,
        world: World,
        workers: u8,
        blank: Blank,
    ) -> Result<(Shared<L>, Workers<L>, Counters), AllocError>
        requires quiet { HasNoRuns world }
        requires workers { (0 < workers) × (workers ≤ most_workers) }
        requires name { blank.name ≡ L.name }
        requires parts { (blank.parts ≡ L.parts) × (blank.parts ≡ workers) }
        ensures count { IfOk result (λ t. length t.1 ≡ workers) }
        ensures made { IfOk result (λ t. All (λ w. w.made ≡ 0) t.1) }
        ensures numbers { IfOk result (λ t. AreNumbered t.1) }
        ensures counters { IfOk result (λ t. t.2.shown ≡ shown_totals (origin_of world) 0 0 0) }
        ensures programs { IfOk result (λ t. AreKept (shapes_of world) t.0 world.programs) }
    {
        Shared::with_limit(alloc, world, workers, MAX_JOURNAL, blank)
    }

    /// Shares a world as `new` does, with a journal that may have so many entries, 1 to `MAX_JOURNAL`. No clause of a
    /// shared world names this limit, since a contract does not see what is under the lock: it is the journal's that
    /// `finish` hands out, and `State::are_balanced` holds for it.
    pub fn with_limit(
        alloc: Global,
        world: World,
        workers: u8,
        limit: usize,
        blank: Blank,
    ) -> Result<(Shared<L>, Workers<L>, Counters), AllocError>
        requires quiet { HasNoRuns world }
        requires workers { (0 < workers) × (workers ≤ most_workers) }
        requires limit { (0 < limit) × (limit ≤ MAX_JOURNAL) }
        requires name { blank.name ≡ L.name }
        requires parts { (blank.parts ≡ L.parts) × (blank.parts ≡ workers) }
        ensures count { IfOk result (λ t. length t.1 ≡ workers) }
        ensures made { IfOk result (λ t. All (λ w. w.made ≡ 0) t.1) }
        ensures numbers { IfOk result (λ t. AreNumbered t.1) }
        ensures counters { IfOk result (λ t. t.2.shown ≡ shown_totals (origin_of world) 0 0 0) }
        ensures programs { IfOk result (λ t. AreKept (shapes_of world) t.0 world.programs) }
    {
        let programs = programs_of(alloc, &world)?;
        let base = world.copy(alloc)?;
        let (book, all) = blank.open::<L>();
        let workers = new_workers(alloc, all, workers)?;
        let books = Books::new(base, world, Journal::with_limit(alloc, limit), book);
        let (state, counters) = State::new(alloc, books)?;
        let shared = Shared {
            state: Mutex::new(state),
            programs,
        };
        Ok((shared, workers, counters))
    }

    /// Waits for the lock, and holds it: what is asked of `Held` comes one after another, with nothing of others between.
    /// It takes no memory.
    pub fn hold<R: Wait>(&self, rt: &R) -> Held<'_, L>
        ensures { result ≡ self.now }
    {
        Held {
            state: self.state.lock(rt),
            programs: self.programs.as_slice(),
        }
    }

    /// Applies one event, and hands out a receipt, as `Held::act_noted` does. It waits for the lock.
    pub fn act_noted<R: Wait>(&self, rt: &R, worker: &mut Worker<L>, event: Event) -> Receipt<L>
        ensures noted { IsNoted worker.old event result worker.new }
    {
        self.hold(rt).act_noted(rt, worker, event)
    }

    /// Steps a run as long as its step is answered with a move, at most so many times, under one lock: what as many
    /// calls of `act` come to, as `State::run_for` says. It stops where the journal has no room for another entry,
    /// before a step that would be the run's exit, and before one that would be refused. Of these no clause says
    /// more, since a contract does not see what is under the lock. It takes no memory but the journal's.
    pub fn run_for<R: Wait>(
        &self,
        rt: &R,
        worker: &mut Worker<L>,
        run: RunId,
        most: usize,
    ) -> Walk<Result<Stop, SharedFault>>
        ensures walked { HasWalked worker.old run most result.moved result.end worker.new }
    {
        self.state.lock(rt).run_for(rt, worker, run, most)
    }

    /// Applies one event, and puts its answer in the place of another one. It waits for the lock, and takes no
    /// memory but the journal's.
    ///
    /// It is an error, and then nothing has changed, where the journal has no room (`JournalFull`)
    /// or memory was refused (`Memory`). The contract says what an answer is, and not when there is
    /// none: it does not see the journal under the lock.
    pub fn act_into<R: Wait>(
        &self,
        rt: &R,
        worker: &mut Worker<L>,
        event: &Event,
        answer: &mut Answer,
    ) -> Result<(), SharedFault>
        ensures answered { OnOk result (IsMachineAnswer event.now answer.new) }
        ensures made { OnOk result (worker.new.made ≡ worker.old.made + 1) }
        ensures same_worker { (worker.new.number ≡ worker.old.number)
            × (worker.new.parts ≡ worker.old.parts) }
        ensures err { OnErr result ((worker.new ≡ worker.old) × (answer.new ≡ answer.old)) }
    {
        let mut state = self.state.lock(rt);
        state.act_into(rt, worker, event, answer)
    }

    /// Applies one event, and gives its answer. It waits for the lock, and takes no memory but the
    /// journal's.
    ///
    /// It is an error, and then nothing has changed, where the journal has no room (`JournalFull`)
    /// or memory was refused (`Memory`). The contract says what an answer is, and not when there is
    /// none: it does not see the journal under the lock.
    pub fn act<R: Wait>(
        &self,
        rt: &R,
        worker: &mut Worker<L>,
        event: Event,
    ) -> Result<Answer, SharedFault>
        ensures answered { IfOk result (IsMachineAnswer event) }
        ensures made { OnOk result (worker.new.made ≡ worker.old.made + 1) }
        ensures same_worker { (worker.new.number ≡ worker.old.number)
            × (worker.new.parts ≡ worker.old.parts) }
        ensures err { OnErr result (worker.new ≡ worker.old) }
    {
        let mut answer = Answer::Moved;
        self.act_into(rt, worker, &event, &mut answer)?;
        Ok(answer)
    }

    /// The program of this number, as the world had it when it was shared, or as it was added. It needs no lock.
    pub fn program(&self, prog: ProgId) -> Option<&Verified>
        ensures { option_copied result ≡ slice_get self.now prog }
    {
        self.programs.get(prog.index())
    }

    /// Asks for the exit value of a run, as `Held::exit_noted` does. It waits for the lock.
    pub fn exit_noted<R: Wait>(
        &self,
        rt: &R,
        worker: &Worker<L>,
        run: RunId,
        prog: ProgId,
        ctx: &CtxBytes,
    ) -> ExitNote<L>
        ensures noted { TellsExit self.now worker.now run prog ctx.now.items result }
    {
        self.hold(rt).exit_noted(worker, run, prog, ctx)
    }

    /// The exit value of a run, where it has ended and was started with this program on this
    /// context. It makes no entry and takes no memory, and waits for the lock. The contract says
    /// what a value is, and not when there is none.
    pub fn exit_of<R: Wait>(
        &self,
        rt: &R,
        worker: &Worker<L>,
        run: RunId,
        prog: ProgId,
        ctx: &CtxBytes,
    ) -> Option<u64>
        ensures exit { IfSome result (λ n. HasExitedOnce self.now run prog ctx.now.items n) }
        ensures may { IfSome result (λ n.
            IsPossibleExit (slice_get self.now prog) ctx.now.items n) }
        ensures alone { IfSome result (λ n. IsOwnExit (slice_get self.now prog) ctx.now.items n) }
    {
        self.exit_noted(rt, worker, run, prog, ctx).exit()
    }

    /// Makes the world its own new base and empties the journal, as `State::cut` says; of a shared world
    /// no clause says so, since a contract does not see what is under the lock. It waits for the lock.
    ///
    /// Errors, and then nothing has changed: `NotQuiet` where a run slot is occupied; else `Memory` where there
    /// is none for a copy of the world.
    pub fn cut<R: Wait>(&self, rt: &R, alloc: Global) -> Result<(), CutFault> {
        let mut state = self.state.lock(rt);
        state.cut(alloc)
    }

    /// Adds a program to the world, as `State::load` says, and keeps it behind the others. No worker can act meanwhile, since the
    /// sharing is borrowed.
    ///
    /// Errors, and then nothing has changed: `World` with `Memory` where there is none to keep the program; else `NotQuiet`
    /// where a run slot is occupied; else `World` as `State::load` says.
    pub fn load<R: Wait>(
        &mut self,
        rt: &R,
        alloc: Global,
        loaded: Loaded,
    ) -> Result<ProgId, LoadFault>
        ensures programs { OnOk result (self.new ≡ self.old ++ loaded.verified ∷ []) }
        ensures kept { OnErr result (self.new ≡ self.old) }
    {
        let Ok(verified) = loaded.verified.copy(alloc) else {
            return Err(LoadFault::World(WorldFault::Memory));
        };
        let Ok(()) = self.programs.push(verified) else {
            return Err(LoadFault::World(WorldFault::Memory));
        };
        let made = {
            let mut state = self.state.lock(rt);
            state.load(alloc, loaded)
        };
        if made.is_err() {
            let _ = self.programs.pop();
        }
        made
    }

    /// Ends the sharing, for which all workers come back, and hands out the base, the world, the journal and the
    /// number of entries before the base, also where the journal is full or a run slot is occupied. The shares of
    /// all workers add up to the entries before the base and those in the journal.
    pub fn finish(self, workers: Workers<L>) -> Finished
        ensures replays { Replays result.base result.world result.journal.entries }
        ensures limit { result.journal.limit ≤ MAX_JOURNAL }
        ensures short { length result.journal.entries ≤ result.journal.limit }
        ensures total { result.before + length result.journal.entries
            ≡ sum_by (λ w. w.made) workers }
    {
        let Shared { state, programs: _ } = self;
        let Workers { list } = workers;
        let mut all = merged(list);
        state.into_inner().finish(&mut all)
    }
}
