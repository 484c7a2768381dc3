//! What may happen to the machine, and what it answers.

ghost use Rattle.bpf_model.specs.Real.{AreBytes, AreReal};

use crate::call::Errno;
use crate::id::{MapId, ProgId, RunId};
use crate::limits::{CtxBytes, KeyBytes, ValueBytes};

/// What may happen, each one atomic action of one actor.
#[derive(Debug, Drop)]
pub enum Event {
    /// A program is started on a context.
    Start {
        prog: ProgId,
        ctx: CtxBytes,
    },
    /// A run takes one step.
    Step {
        run: RunId,
    },
    /// The control plane stores a value under a key. Flags: any (0), only a new key (1), only a present
    /// one (2).
    Update {
        map: MapId,
        key: KeyBytes,
        value: ValueBytes,
        flags: u64,
    },
    /// The control plane removes a key; of an array none is removed.
    Delete {
        map: MapId,
        key: KeyBytes,
    },
    /// The control plane reads the value of a key.
    Read {
        map: MapId,
        key: KeyBytes,
    },
    /// A grace period may end, and the next begin.
    Advance,
    /// One element whose grace period has ended may be reclaimed.
    Reap,
    /// A run that has ended leaves its run slot.
    Drop {
        run: RunId,
    },
}

/// Whether a reclaimed element's map slot may be used again (`Free`), or has been used as often as the
/// map allows (`Worn`).
#[derive(Clone, Copy, Debug, PartialEq, Eq)]
pub enum Given {
    Free,
    Worn,
}

/// An element that was reclaimed: its map, its key, and whether its map slot may be used again.
#[derive(Debug, Drop)]
pub struct ReapedElement {
    pub map: MapId,
    pub key: KeyBytes,
    pub given: Given,
}

/// Why an event is refused. A refused event changes nothing.
#[derive(Clone, Copy, Debug, PartialEq, Eq)]
pub enum EventRefusal {
    /// No run has the run slot.
    NoRun,
    /// The run has ended.
    Ended,
    /// No program has the number.
    NoProgram,
    /// The context has another length than the program was verified for.
    BadContext,
    /// Every run slot is occupied.
    RunsFull,
    /// No map has the number.
    NoMap,
    /// The key or the value has another length than the map's.
    BadLength,
    /// The run has not ended.
    StillRunning,
}

/// What the machine answers to an event.
#[derive(Debug, Drop)]
pub enum Answer {
    /// A start: the run slot of the new run.
    Started(RunId),
    /// A step that did not end the run.
    Moved,
    /// A step that ended the run, with its exit value.
    Exited(u64),
    /// An update or a delete: done, or its error.
    Ret(Result<(), Errno>),
    /// A read: the value of the key, where it has one.
    Found(Option<ValueBytes>),
    /// An advance or a drop.
    Done,
    /// A reap: the element that was reclaimed, where one was.
    Reaped(Option<ReapedElement>),
    /// Any event but an advance or a reap, by the first test that failed.
    Refused(EventRefusal),
}

/// A law: the elements of a slice of bytes are bytes.
pub fn are_bytes(bytes: &[u8])
    ensures { AreBytes bytes.now }
{}

impl Event {
    ghost use Rattle.bpf_model.specs.Real.{IsReal};

    /// A law: each event is within its types, so that no caller is asked for it.
    pub fn is_real(&self)
        ensures { IsReal self.now }
    {
        match self {
            Event::Start { prog, ctx } => {
                let _prog = prog.index();
                are_bytes(ctx);
            }
            Event::Step { run } => {
                let _run = run.index();
            }
            Event::Update {
                map,
                key,
                value,
                flags,
            } => {
                let _map = map.index();
                let _flags = *flags;
                are_bytes(key);
                are_bytes(value);
            }
            Event::Delete { map, key } => {
                let _map = map.index();
                are_bytes(key);
            }
            Event::Read { map, key } => {
                let _map = map.index();
                are_bytes(key);
            }
            Event::Advance => {}
            Event::Reap => {}
            Event::Drop { run } => {
                let _run = run.index();
            }
        }
    }
}

/// A law: each event of a list is within its types.
pub fn are_real(events: &[Event])
    ensures { AreReal events.now }
{
    for event in events {
        event.is_real();
    }
}

impl EventRefusal {
    ghost use Rattle.std.specs.Prelude.{◌≡◌};
    ghost use Rattle.bpf_model.specs.EventNumbers.{event_refusal_number};

    /// Its number, 60 to 67.
    pub fn code(self) -> u8
        ensures { result ≡ event_refusal_number self }
    {
        match self {
            EventRefusal::NoRun => 60,
            EventRefusal::Ended => 61,
            EventRefusal::NoProgram => 62,
            EventRefusal::BadContext => 63,
            EventRefusal::RunsFull => 64,
            EventRefusal::NoMap => 65,
            EventRefusal::BadLength => 66,
            EventRefusal::StillRunning => 67,
        }
    }
}
