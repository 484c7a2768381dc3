//! Answers in few bytes, and how they are written.
ghost use Rattle.std.specs.Prelude.{◌≡◌};
ghost use Rattle.world.specs.Brief.{brief_answer};

use bpf_model::{Answer, Errno, EventRefusal, RunId};

/// An answer to an event that hands out no key and no value. It has few bytes, where an `Answer` has room for
/// a value, so that it is put in its place only at the end.
#[derive(Clone, Copy, Debug, PartialEq, Eq)]
pub(crate) enum Brief {
    Started(RunId),
    Moved,
    Exited(u64),
    Ret(Result<(), Errno>),
    /// The key that was read has no value.
    Absent,
    Done,
    /// No element was ready.
    NothingReady,
    Refused(EventRefusal),
}

impl Brief {
    /// Puts the answer that the brief one stands for in the place of another one. Where that is of the same kind,
    /// only what this kind has is written; else, and for a start, the place is cleared with its room for a value.
    #[inline(always)]
    pub(crate) fn put(self, answer: &mut Answer)
        ensures { answer.new ≡ brief_answer self }
    {
        match self {
            Brief::Started(run) => *answer = Answer::Started(run),
            Brief::Moved => match answer {
                Answer::Moved => (),
                _ => *answer = Answer::Moved,
            },
            Brief::Exited(value) => match answer {
                Answer::Exited(place) => *place = value,
                _ => *answer = Answer::Exited(value),
            },
            Brief::Ret(outcome) => match answer {
                Answer::Ret(place) => *place = outcome,
                _ => *answer = Answer::Ret(outcome),
            },
            Brief::Absent => match answer {
                Answer::Found(None) => (),
                _ => *answer = Answer::Found(None),
            },
            Brief::Done => match answer {
                Answer::Done => (),
                _ => *answer = Answer::Done,
            },
            Brief::NothingReady => match answer {
                Answer::Reaped(None) => (),
                _ => *answer = Answer::Reaped(None),
            },
            Brief::Refused(refusal) => match answer {
                Answer::Refused(place) => *place = refusal,
                _ => *answer = Answer::Refused(refusal),
            },
        }
    }
}
