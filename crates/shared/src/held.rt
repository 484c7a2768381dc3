//! A shared world whose lock is held.
ghost use Rattle.std.specs.Prelude.{◌≡◌, ◌<◌, option_copied, slice_get};
ghost use Rattle.bpf_model.specs.declared.event.Event.{Event};
ghost use Rattle.shared_books.specs.Noted.{IsNoted, TellsExit};
ghost use Rattle.shared_books.specs.Stretches.{HasWalked};

use crate::state::{ExitNote, Receipt, State, Stretch};
use bpf_model::{CtxBytes, Event, ProgId, RunId};
use shared_books::{SharedFault, Worker};
use std::marker::Model;
use std::sync::ledger::Ledger;
use std::sync::{MutexGuard, Wait};
use verifier::Verified;
use world::{Stop, Walk};

/// A shared world whose lock is held until this is dropped: nothing of others comes between what is asked of it. Contracts
/// see its programs.
///
/// It hands out receipts, stretches and notes. Who holds it and asks the same `Shared` for anything but a program, waits for
/// ever.
#[derive(Drop)]
pub struct Held<'a, L: Ledger> {
    pub(crate) state: MutexGuard<'a, State<L>>,
    pub(crate) programs: &'a [Verified],
}

impl<'a, L: Ledger> Model for Held<'a, L> {
    ghost use Rattle.std.specs.Prelude.{List};
    ghost use Rattle.verifier.specs.Checked.{Checked};

    ghost Value = { List Checked };

    ghost view = { λ h. h.programs.now };
}

impl<'a, L: Ledger> Held<'a, L> {
    /// The program of this number, as the world had it when it was shared, or as it was added.
    pub fn program(&self, prog: ProgId) -> Option<&Verified>
        ensures { option_copied result ≡ slice_get self.now prog }
    {
        self.programs.get(prog.index())
    }

    /// Applies one event. The receipt bears the worker, the event, the answer and how many entries the worker
    /// has made. It takes no memory but the journal's.
    ///
    /// The reply is an error, and then nothing has changed, where the journal has no room (`JournalFull`) or
    /// memory was refused (`Memory`). The contract says what an answer is, and not when there is none: it does
    /// not see the journal under the lock.
    pub fn act_noted<R: Wait>(&mut self, rt: &R, worker: &mut Worker<L>, event: Event) -> Receipt<L>
        ensures programs { self.new ≡ self.old }
        ensures noted { IsNoted worker.old event result worker.new }
    {
        self.state.act_noted(rt, worker, event)
    }

    /// Applies the event of a receipt once more. The receipt is then that of this call.
    pub fn act_again<R: Wait>(&mut self, rt: &R, worker: &mut Worker<L>, receipt: &mut Receipt<L>)
        ensures programs { self.new ≡ self.old }
        ensures noted { IsNoted worker.old receipt.old.event receipt.new worker.new }
    {
        self.state.act_again(rt, worker, receipt);
    }

    /// Steps a run as `Shared::run_for` does. The stretch has the moves, also where there are none.
    pub fn run_noted<R: Wait>(
        &mut self,
        rt: &R,
        worker: &mut Worker<L>,
        run: RunId,
        most: usize,
    ) -> (Stretch<L>, Result<Stop, SharedFault>)
        ensures programs { self.new ≡ self.old }
        ensures worker { result.0.worker ≡ worker.old.number }
        ensures run { result.0.run ≡ run }
        ensures since { result.0.since ≡ worker.old.made }
        ensures walked { HasWalked worker.old run most result.0.moved result.1 worker.new }
    {
        self.state.run_noted(rt, worker, run, most)
    }

    /// Asks for the exit value of a run that has ended and was started with this program on this
    /// context. It makes no entry and takes no memory. The contract says what a value is, and not when there is
    /// none: it does not see the world under the lock.
    pub fn exit_noted(
        &self,
        worker: &Worker<L>,
        run: RunId,
        prog: ProgId,
        ctx: &CtxBytes,
    ) -> ExitNote<L>
        ensures noted { TellsExit self.now worker.now run prog ctx.now.items result }
    {
        let program = self.program(prog);
        self.state.exit_noted(worker, run, prog, program, ctx)
    }
}
