//! Many steps of one run at once.
ghost use Rattle.std.specs.Prelude.{◌≡◌, ◌≢◌, ◌⊎◌, ◌+◌, ◌^◌, ◌<◌, ◌≤◌, ◌++◌, length, replicate, true, Ok, Err, IfOk, IfErr, OnErr};
ghost use Rattle.bpf_model.specs.declared.event.Event.{Event};
ghost use Rattle.bpf_model.specs.declared.event.Answer.{Answer};
ghost use Rattle.journal.specs.Rows.{entry_from};
ghost use Rattle.shared_books.specs.Books.{IsJournalFull, TotalsRise};
ghost use Rattle.shared_books.specs.Receipts.{IsMachineAnswer};
ghost use Rattle.shared_books.specs.Stretches.{EntersMoves, HasMade};
ghost use Rattle.shared_books.specs.Tally.{greatest_count};
ghost use Rattle.world.specs.Stretches.{WouldBeRefused, WouldExit};

use crate::books::{Books, make_room};
use crate::fault::SharedFault;
use crate::tally::unreclaimed;
use crate::worker::Worker;
use bpf_model::{Event, RunId};
use journal::Journal;
use std::sync::ledger::Ledger;
use world::{Stop, Walk};

/// For how many entries more the journal and the count of all entries have room.
fn room_in(journal: &Journal, before: u64) -> usize
    requires { before + length journal.now.entries < 2 ^ 64 }
    ensures short { length journal.now.entries + result ≤ journal.now.limit }
    ensures count { before + length journal.now.entries + result < 2 ^ 64 }
    ensures all { (length journal.now.entries + result ≡ journal.now.limit)
        ⊎ (before + length journal.now.entries + result ≡ greatest_count) }
{
    journal.is_short();
    let entries = journal.len();
    let left = journal.limit() - entries;
    let countable = u64::MAX - before - entries as u64;
    if (left as u64) < countable {
        left
    } else {
        countable as usize
    }
}

/// Enters so many moves of a run, where there is room for them.
fn enter_moves(journal: &mut Journal, worker: u8, run: RunId, count: usize)
    requires room { journal.old.has_room ≡ true }
    requires fits { length journal.old.entries + count ≤ journal.old.limit }
    ensures entries { journal.new.entries ≡ journal.old.entries
        ++ replicate count (entry_from worker (Event.Step run) Answer.Moved) }
    ensures limit { journal.new.limit ≡ journal.old.limit }
{
    if count > 0 {
        journal.push_moves(worker, run, count);
    }
}

/// Why a stretch of at most `most` steps ended, for which there may have been room for less.
fn end_after(stretch: Walk<Stop>, most: usize) -> Result<Stop, SharedFault>
    ensures stop { IfOk result (λ stop. stop ≡ stretch.end) }
    ensures exhausted { result ≡ Ok Stop.Enough → stretch.moved ≡ most }
    ensures full { OnErr result ((stretch.end ≡ Stop.Enough) × (stretch.moved ≢ most)) }
    ensures journal { IfErr result (λ fault. fault ≡ SharedFault.JournalFull) }
{
    match stretch.end {
        Stop::Enough if stretch.moved != most => Err(SharedFault::JournalFull),
        stop => Ok(stop),
    }
}

impl<L: Ledger> Books<L> {
    /// Steps a run as long as its step is answered with a move, at most so many times, and enters the moves; or
    /// changes nothing. It stops where the journal has no room for another entry, before a step that would be the
    /// run's exit, and before one that would be refused.
    pub fn run_for(
        &mut self,
        worker: &mut Worker<L>,
        run: RunId,
        most: usize,
    ) -> Walk<Result<Stop, SharedFault>>
        ensures moves { EntersMoves worker.old.number run self.old result.moved self.new }
        ensures made { HasMade worker.old result.moved worker.new }
        ensures answered { 0 < result.moved → IsMachineAnswer (Event.Step run) Answer.Moved }
        ensures rise { TotalsRise self.old.tally.totals self.new.tally.totals }
        ensures most { result.moved ≤ most }
        ensures exhausted { result.end ≡ Ok Stop.Enough → result.moved ≡ most }
        ensures exits { result.end ≡ Ok Stop.Exits → WouldExit self.new.world run }
        ensures refused { result.end ≡ Ok Stop.Refused → WouldBeRefused self.new.world run }
        ensures full { result.end ≡ Err SharedFault.JournalFull → IsJournalFull self.new }
        ensures no_room { IsJournalFull self.old → result.end ≡ Err SharedFault.JournalFull }
        ensures memory { result.end ≡ Err SharedFault.Memory → result.moved ≡ 0 }
    {
        if let Err(fault) = make_room(&mut self.journal, self.before) {
            let end = Err(fault);
            return Walk { moved: 0, end };
        }
        let event = Event::Step { run };
        event.is_real();
        let room = room_in(&self.journal, self.before);
        let bound = most.min(room);
        let stretch = self.world.run_for(run, bound);
        let moved = stretch.moved;
        self.tally
            .count_moves(moved as u64, unreclaimed(&self.world));
        self.book.audit(&mut worker.share);
        self.book.add(&mut worker.share, moved as u64);
        worker.made += moved as u64;
        enter_moves(&mut self.journal, worker.number, run, moved);
        let end = end_after(stretch, most);
        Walk { moved, end }
    }
}
