//! The fixed part of an entry.
ghost use Rattle.std.specs.Prelude.{◌≡◌, ℕ, List, length};
ghost use Rattle.journal.specs.Rows.{IsReadRow, IsStored, answer_of, entry_of, span_of};

use crate::bytes::string_at;
use bpf_model::{
    Answer, Entry, Errno, Event, EventRefusal, Given, MapId, ProgId, ReapedElement, RunId,
};
use std::mem::size_of;

const _: () = prove!(size_of::<Row>() == 32);

/// What an update or a delete was answered.
#[derive(Clone, Copy, Debug)]
pub(crate) enum Outcome {
    Done,
    Failed(Errno),
    Refused(EventRefusal),
}

impl Outcome {
    fn answer(self) -> Answer
        ensures { result ≡ answer_of self }
    {
        match self {
            Outcome::Done => Answer::Ret(Ok(())),
            Outcome::Failed(error) => Answer::Ret(Err(error)),
            Outcome::Refused(refusal) => Answer::Refused(refusal),
        }
    }
}

/// An entry without its bytes: those begin at `start`, first the key or the context, then the
/// value, each of the event or of the answer. A row of moves stands for as many equal entries as
/// it counts. Shorter fields come before longer ones, so that a row takes 32 bytes.
#[derive(Clone, Copy, Debug)]
pub(crate) enum Row {
    Started {
        worker: u8,
        ctx_len: u16,
        prog: ProgId,
        run: RunId,
        start: usize,
    },
    NotStarted {
        worker: u8,
        refusal: EventRefusal,
        ctx_len: u16,
        prog: ProgId,
        start: usize,
    },
    Moved {
        worker: u8,
        run: RunId,
        count: usize,
    },
    Exited {
        worker: u8,
        run: RunId,
        value: u64,
    },
    NotStepped {
        worker: u8,
        refusal: EventRefusal,
        run: RunId,
    },
    Updated {
        worker: u8,
        outcome: Outcome,
        key_len: u8,
        value_len: u16,
        map: MapId,
        flags: u64,
        start: usize,
    },
    Deleted {
        worker: u8,
        outcome: Outcome,
        key_len: u8,
        map: MapId,
        start: usize,
    },
    Found {
        worker: u8,
        key_len: u8,
        value_len: u16,
        map: MapId,
        start: usize,
    },
    NotFound {
        worker: u8,
        key_len: u8,
        map: MapId,
        start: usize,
    },
    NotRead {
        worker: u8,
        refusal: EventRefusal,
        key_len: u8,
        map: MapId,
        start: usize,
    },
    Advanced {
        worker: u8,
    },
    Reclaimed {
        worker: u8,
        given: Given,
        key_len: u8,
        map: MapId,
        start: usize,
    },
    NothingReady {
        worker: u8,
    },
    Dropped {
        worker: u8,
        run: RunId,
    },
    NotDropped {
        worker: u8,
        refusal: EventRefusal,
        run: RunId,
    },
}

impl Row {
    /// How many entries it stands for, which are equal.
    pub(crate) fn span(&self) -> usize
        ensures { result ≡ span_of self.now }
    {
        match self {
            Row::Moved { count, .. } => *count,
            _ => 1,
        }
    }

    /// The entry that it stands for.
    pub(crate) fn entry(&self, bytes: &[u8]) -> Entry
        requires { IsStored (length bytes.now) self.now }
        ensures { result ≡ entry_of bytes.now self.now }
    {
        Entry {
            worker: self.worker(),
            event: self.event(bytes),
            answer: self.answer(bytes),
        }
    }

    fn worker(&self) -> u8
        ensures { (bytes : List ℕ) → result ≡ (entry_of bytes self.now).worker }
    {
        match self {
            Row::Started { worker, .. }
            | Row::NotStarted { worker, .. }
            | Row::Moved { worker, .. }
            | Row::Exited { worker, .. }
            | Row::NotStepped { worker, .. }
            | Row::Updated { worker, .. }
            | Row::Deleted { worker, .. }
            | Row::Found { worker, .. }
            | Row::NotFound { worker, .. }
            | Row::NotRead { worker, .. }
            | Row::Advanced { worker }
            | Row::Reclaimed { worker, .. }
            | Row::NothingReady { worker }
            | Row::Dropped { worker, .. }
            | Row::NotDropped { worker, .. } => *worker,
        }
    }

    fn event(&self, bytes: &[u8]) -> Event
        requires { IsStored (length bytes.now) self.now }
        ensures { result ≡ (entry_of bytes.now self.now).event }
    {
        match *self {
            Row::Started {
                ctx_len,
                prog,
                start,
                ..
            }
            | Row::NotStarted {
                ctx_len,
                prog,
                start,
                ..
            } => Event::Start {
                prog,
                ctx: string_at(bytes, start, ctx_len as usize),
            },
            Row::Moved { run, .. } | Row::Exited { run, .. } | Row::NotStepped { run, .. } => {
                Event::Step { run }
            }
            Row::Updated {
                key_len,
                value_len,
                map,
                flags,
                start,
                ..
            } => Event::Update {
                map,
                key: string_at(bytes, start, key_len as usize),
                value: string_at(bytes, start + key_len as usize, value_len as usize),
                flags,
            },
            Row::Deleted {
                key_len,
                map,
                start,
                ..
            } => Event::Delete {
                map,
                key: string_at(bytes, start, key_len as usize),
            },
            Row::Found { .. } | Row::NotFound { .. } | Row::NotRead { .. } => self.read_event(
                bytes,
            ),
            Row::Advanced { .. } => Event::Advance,
            Row::Reclaimed { .. } | Row::NothingReady { .. } => Event::Reap,
            Row::Dropped { run, .. } | Row::NotDropped { run, .. } => Event::Drop { run },
        }
    }

    /// The event of a row that is of a read.
    fn read_event(&self, bytes: &[u8]) -> Event
        requires stored { IsStored (length bytes.now) self.now }
        requires read { IsReadRow self.now }
        ensures { result ≡ (entry_of bytes.now self.now).event }
    {
        match *self {
            Row::Found {
                key_len,
                map,
                start,
                ..
            }
            | Row::NotFound {
                key_len,
                map,
                start,
                ..
            }
            | Row::NotRead {
                key_len,
                map,
                start,
                ..
            } => Event::Read {
                map,
                key: string_at(bytes, start, key_len as usize),
            },
            _ => unreachable!(),
        }
    }

    fn answer(&self, bytes: &[u8]) -> Answer
        requires { IsStored (length bytes.now) self.now }
        ensures { result ≡ (entry_of bytes.now self.now).answer }
    {
        match *self {
            Row::Started { run, .. } => Answer::Started(run),
            Row::Moved { .. } => Answer::Moved,
            Row::Exited { value, .. } => Answer::Exited(value),
            Row::Updated { outcome, .. } | Row::Deleted { outcome, .. } => outcome.answer(),
            Row::Found {
                key_len,
                value_len,
                start,
                ..
            } => Answer::Found(Some(string_at(
                bytes,
                start + key_len as usize,
                value_len as usize,
            ))),
            Row::NotFound { .. } => Answer::Found(None),
            Row::Advanced { .. } | Row::Dropped { .. } => Answer::Done,
            Row::Reclaimed {
                given,
                key_len,
                map,
                start,
                ..
            } => Answer::Reaped(Some(ReapedElement {
                map,
                key: string_at(bytes, start, key_len as usize),
                given,
            })),
            Row::NothingReady { .. } => Answer::Reaped(None),
            Row::NotStarted { refusal, .. }
            | Row::NotStepped { refusal, .. }
            | Row::NotRead { refusal, .. }
            | Row::NotDropped { refusal, .. } => Answer::Refused(refusal),
        }
    }
}
