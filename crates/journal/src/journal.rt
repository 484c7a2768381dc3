//! The list of entries.
ghost use Rattle.std.specs.Prelude.{◌≡◌, ◌≤◌, ◌↔◌, ◌==◌, ◌++◌, ◌∷◌, [], true, false};
ghost use Rattle.std.specs.Prelude.{◌+◌, ◌<◌, length, replicate, slice_get, Err, OnOk, OnErr};
ghost use Rattle.bpf_model.specs.declared.event.Event.TheVariants.{Step};
ghost use Rattle.bpf_model.specs.declared.event.Answer.TheVariants.{Moved};
ghost use Rattle.bpf_model.specs.declared.limits.TheConstants.{MAX_JOURNAL};
ghost use Rattle.journal.specs.Entries.{IsAnswerTo, with_room};
ghost use Rattle.journal.specs.Rows.{entry_from};

use crate::bytes::append;
use crate::fault::JournalFault;
use crate::finding::entry_at;
use crate::making::row_of;
use crate::row::Row;
use bpf_model::{Answer, Entry, Event, KEY_BYTES, MAX_JOURNAL, RunId, VALUE_BYTES};
use std::alloc::Global;
use std::marker::Model;

/// The most bytes of keys, values and contexts that one entry has: a key and a value.
const ENTRY_BYTES: usize = KEY_BYTES + VALUE_BYTES;

/// What workers asked and were answered, in order: at most `limit` entries. Contracts see the
/// entries, the limit, and whether one more can be added without memory.
///
/// An entry takes 32 bytes, and further those of the keys, values and contexts that it has. Moves
/// that are added together take 32 bytes in all.
#[derive(Drop)]
pub struct Journal {
    rows: Vec<Row>,
    bytes: Vec<u8>,
    total: usize,
    limit: usize,
}

impl Model for Journal {
    ghost use Rattle.std.specs.Prelude.{vec_len, vec_capacity};
    ghost use Rattle.journal.specs.Entries.{JournalView};
    ghost use Rattle.journal.specs.Rows.{all_entries, is_reserved, AreCounted};

    ghost Value = { JournalView };

    ghost view = { λ j. record {
      entries = all_entries j.bytes.items j.rows.items;
      limit = j.limit;
      has_room = is_reserved j.total j.limit (vec_len j.rows) (vec_capacity j.rows)
          (vec_len j.bytes) (vec_capacity j.bytes);
    } };

    ghost invariant = { λ j. AreCounted j.rows.items j.bytes.items j.total j.limit };
}

impl Journal {
    /// A journal of at most `MAX_JOURNAL` entries, with none yet. It takes no memory.
    pub fn new(alloc: Global) -> Journal
        ensures { result ≡ record { entries = []; limit = MAX_JOURNAL; has_room = false } }
    {
        Journal::with_limit(alloc, MAX_JOURNAL)
    }

    /// A journal of at most `limit` entries, with none yet. It takes no memory.
    pub fn with_limit(alloc: Global, limit: usize) -> Journal
        requires { limit ≤ MAX_JOURNAL }
        ensures { result ≡ record { entries = []; limit = limit; has_room = false } }
    {
        Journal {
            rows: Vec::new(alloc),
            bytes: Vec::new(alloc),
            total: 0,
            limit,
        }
    }

    /// How many entries it has.
    pub fn len(&self) -> usize
        ensures { result ≡ length self.now.entries }
    {
        self.total
    }

    /// Whether it has no entry.
    pub fn is_empty(&self) -> bool
        ensures { result ≡ (length self.now.entries == 0) }
    {
        self.total == 0
    }

    /// How many entries it may have.
    pub fn limit(&self) -> usize
        ensures { result ≡ self.now.limit }
    {
        self.limit
    }

    /// The entry of this index, counted from 0; `None` past the last. Where moves were added together
    /// it takes as many steps as there are rows before it.
    pub fn entry(&self, index: usize) -> Option<Entry>
        ensures { result ≡ slice_get self.now.entries index }
    {
        entry_at(&self.rows, &self.bytes, self.total, index)
    }

    /// Sees to it that one more entry can be added without memory, whatever it is.
    ///
    /// Errors: `Full` where there are `limit` entries; else `Memory` where room was missing and was
    /// refused. Then nothing has changed.
    pub fn reserve_one(&mut self) -> Result<(), JournalFault>
        ensures ok { OnOk result (self.new ≡ with_room self.old) }
        ensures err { OnErr result (self.new ≡ self.old) }
        ensures full { (result ≡ Err JournalFault.Full) ↔
            (length self.old.entries ≡ self.old.limit) }
        ensures memory { result ≡ Err JournalFault.Memory → self.old.has_room ≡ false }
    {
        if self.total == self.limit {
            return Err(JournalFault::Full);
        }
        self.rows.reserve(1)?;
        self.bytes.reserve(ENTRY_BYTES)?;
        Ok(())
    }

    /// Adds an entry, for which there is room, and whose answer is of a kind that its event may
    /// have. It takes no memory.
    pub fn push(&mut self, entry: &Entry)
        requires room { self.old.has_room ≡ true }
        requires answer { IsAnswerTo entry.now.event entry.now.answer }
        ensures entries { self.new.entries ≡ self.old.entries ++ entry.now ∷ [] }
        ensures limit { self.new.limit ≡ self.old.limit }
    {
        self.push_answer(entry.worker, &entry.event, &entry.answer);
    }

    /// Adds the entry of this worker, event and answer, for which there is room; the answer is of a
    /// kind that the event may have. It takes no memory, and copies the event's and the answer's
    /// bytes: both stay where they are.
    pub fn push_answer(&mut self, worker: u8, event: &Event, answer: &Answer)
        requires room { self.old.has_room ≡ true }
        requires answer { IsAnswerTo event.now answer.now }
        ensures entries { self.new.entries
            ≡ self.old.entries ++ entry_from worker event.now answer.now ∷ [] }
        ensures limit { self.new.limit ≡ self.old.limit }
    {
        let row = row_of(worker, event, answer, self.bytes.len());
        append(&mut self.bytes, event, answer);
        self.rows.push_reserved(row);
        self.total += 1;
    }

    /// Adds so many equal entries of this worker, for which there is room: steps of this run that were
    /// answered with a move. It takes no memory, and one row.
    pub fn push_moves(&mut self, worker: u8, run: RunId, count: usize)
        requires room { self.old.has_room ≡ true }
        requires some { 0 < count }
        requires fits { length self.old.entries + count ≤ self.old.limit }
        ensures entries { self.new.entries
            ≡ self.old.entries ++ replicate count (entry_from worker (Step run) Moved) }
        ensures limit { self.new.limit ≡ self.old.limit }
    {
        self.rows.push_reserved(Row::Moved { worker, run, count });
        self.total += count;
    }

    /// Takes all entries out, and keeps their memory for later ones.
    pub fn cut(&mut self)
        ensures entries { self.new.entries ≡ [] }
        ensures limit { self.new.limit ≡ self.old.limit }
    {
        self.rows.clear();
        self.bytes.clear();
        self.total = 0;
    }

    /// A law: it has no more entries than it may have.
    pub fn is_short(&self)
        ensures entries { length self.now.entries ≤ self.now.limit }
        ensures limit { self.now.limit ≤ MAX_JOURNAL }
    {
        let _limit = self.limit;
    }
}
