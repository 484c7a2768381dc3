//! The receipt of one call: its fields are private to this module, so only the acts of a state write one.
ghost use Rattle.std.specs.Prelude.{◌≡◌, IsOk};
ghost use Rattle.shared_books.specs.Noted.{IsEntered};

use crate::state::State;
use bpf_model::{Answer, Event};
use shared_books::{SharedFault, Worker};
use std::marker::{Model, PhantomData};
use std::sync::Wait;
use std::sync::ledger::Ledger;

/// What one call of `act_noted` did, or the last of `act_again` that was given it: who called, the event, the
/// answer, and how many entries the worker has made. None is ever copied. It is of the shared world of its ledger, which
/// is the only one of this ledger.
#[derive(Drop)]
pub struct Receipt<L: Ledger> {
    worker: u8,
    made: u64,
    event: Event,
    reply: Result<Answer, SharedFault>,
    ledger: PhantomData<L>,
}

impl<L: Ledger> Model for Receipt<L> {
    ghost use Rattle.shared_books.specs.Receipts.{ReceiptView};

    ghost Value = { ReceiptView };

    ghost view = { λ r. record {
      worker = r.worker;
      made = r.made;
      event = r.event;
      reply = r.reply;
    } };
}

impl<L: Ledger> State<L> {
    /// Applies the event, enters it and writes the counters, or changes nothing. The receipt says which.
    pub fn act_noted<R: Wait>(&mut self, rt: &R, worker: &mut Worker<L>, event: Event) -> Receipt<L>
        ensures noted { IsEntered self.old.books worker.old event result self.new.books worker.new }
        ensures cell { self.new.meter ≡ self.old.meter }
    {
        let mut receipt = Receipt {
            worker: worker.number(),
            made: worker.made(),
            event,
            reply: Ok(Answer::Moved),
            ledger: PhantomData,
        };
        self.act_again(rt, worker, &mut receipt);
        receipt
    }

    /// Applies the event of a receipt, enters it and writes the counters, or changes nothing. The receipt is then
    /// that of this call.
    pub fn act_again<R: Wait>(&mut self, rt: &R, worker: &mut Worker<L>, receipt: &mut Receipt<L>)
        ensures noted { IsEntered self.old.books worker.old receipt.old.event receipt.new
            self.new.books worker.new }
        ensures cell { self.new.meter ≡ self.old.meter }
    {
        receipt.forget_fault();
        receipt.worker = worker.number();
        let outcome = match &mut receipt.reply {
            Ok(answer) => self.act_into(rt, worker, &receipt.event, answer),
            Err(_) => unreachable!(),
        };
        receipt.made = worker.made();
        if let Err(fault) = outcome {
            receipt.reply = Err(fault);
        }
    }
}

impl<L: Ledger> Receipt<L> {
    /// Has an answer for a reply, whatever it is, where the reply was a fault.
    fn forget_fault(&mut self)
        ensures answer { IsOk self.new.reply }
        ensures event { self.new.event ≡ self.old.event }
        ensures worker { self.new.worker ≡ self.old.worker }
        ensures made { self.new.made ≡ self.old.made }
    {
        if self.reply.is_err() {
            self.reply = Ok(Answer::Moved);
        }
    }

    /// The number of the worker that called.
    pub fn worker(&self) -> u8
        ensures { result ≡ self.now.worker }
    {
        self.worker
    }

    /// How many entries the worker has made, after the call.
    pub fn made(&self) -> u64
        ensures { result ≡ self.now.made }
    {
        self.made
    }

    /// The event that the call asked for.
    pub fn event(&self) -> &Event
        ensures { result.now ≡ self.now.event }
    {
        &self.event
    }

    /// The answer, or why the event was not applied.
    pub fn reply(&self) -> &Result<Answer, SharedFault>
        ensures { result.now ≡ self.now.reply }
    {
        &self.reply
    }
}
