//! The note of one question: its fields are private to this module, so only a state makes one.
ghost use Rattle.std.specs.Prelude.{◌≡◌, option_copied};
ghost use Rattle.shared_books.specs.Noted.{IsExitNote};

use crate::state::State;
use bpf_model::{CtxBytes, ProgId, RunId, array_of};
use shared_books::Worker;
use std::marker::{Model, PhantomData};
use std::sync::ledger::Ledger;
use verifier::Verified;

/// What one call of `exit_noted` answered: who asked, how many entries this worker has made, the run, the
/// program and the context that were asked for, and the exit value. None is ever copied. It is of the shared world of
/// its ledger, which is the only one of this ledger.
#[derive(Drop)]
pub struct ExitNote<L: Ledger> {
    worker: u8,
    made: u64,
    run: RunId,
    prog: ProgId,
    context: CtxBytes,
    exit: Option<u64>,
    ledger: PhantomData<L>,
}

impl<L: Ledger> Model for ExitNote<L> {
    ghost use Rattle.shared_books.specs.Receipts.{NoteView};

    ghost Value = { NoteView };

    ghost view = { λ n. record {
      worker = n.worker;
      made = n.made;
      run = n.run;
      prog = n.prog;
      context = n.context.items;
      exit = n.exit;
    } };
}

impl<L: Ledger> State<L> {
    /// Asks the world for the exit value of a run, for a program and a context. Nothing changes.
    pub fn exit_noted(
        &self,
        worker: &Worker<L>,
        run: RunId,
        prog: ProgId,
        program: Option<&Verified>,
        ctx: &CtxBytes,
    ) -> ExitNote<L>
        ensures noted { IsExitNote self.now.books.world worker.now run prog
            (option_copied program.entry) ctx.now.items result }
    {
        let exit = self.books.exit_of(run, program, ctx);
        ExitNote {
            worker: worker.number(),
            made: worker.made(),
            run,
            prog,
            context: array_of(ctx.as_slice()),
            exit,
            ledger: PhantomData,
        }
    }
}

impl<L: Ledger> ExitNote<L> {
    /// The number of the worker that asked.
    pub fn worker(&self) -> u8
        ensures { result ≡ self.now.worker }
    {
        self.worker
    }

    /// How many entries the worker has made.
    pub fn made(&self) -> u64
        ensures { result ≡ self.now.made }
    {
        self.made
    }

    /// The run that was asked for.
    pub fn run(&self) -> RunId
        ensures { result ≡ self.now.run }
    {
        self.run
    }

    /// The number of the program that was asked for.
    pub fn prog(&self) -> ProgId
        ensures { result ≡ self.now.prog }
    {
        self.prog
    }

    /// The context that was asked for.
    pub fn context(&self) -> &CtxBytes
        ensures { result.now.items ≡ self.now.context }
    {
        &self.context
    }

    /// The exit value, where the run has ended and was started with this program on this context.
    pub fn exit(&self) -> Option<u64>
        ensures { result ≡ self.now.exit }
    {
        self.exit
    }
}
