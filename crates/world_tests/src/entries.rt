//! Sample entries, one of each kind at least, with the greatest numbers and the longest strings among them.
ghost use Rattle.journal.specs.Entries.{IsAnswerTo};

use arrayvec::ArrayVec;
use bpf_model::{Answer, Errno, Event, EventRefusal, Given, MapId, ProgId, ReapedElement, RunId};
use journal::Entry;

/// How many sample entries there are: those of runs, and then those of maps.
pub const SAMPLES: usize = RUN_SAMPLES + 12;

const RUN_SAMPLES: usize = 8;

/// So many bytes, counted up from the first, as far as there is room.
fn string<const N: usize>(first: u8, count: u16) -> ArrayVec<u8, N> {
    let mut bytes = ArrayVec::new();
    for i in 0..count {
        if bytes.len() < N {
            bytes.push(first.wrapping_add((i % 251) as u8));
        }
    }
    bytes
}

fn entry(worker: u8, event: Event, answer: Answer) -> Entry
    requires { IsAnswerTo event answer }
    ensures { IsAnswerTo result.event result.answer }
{
    Entry {
        worker,
        event,
        answer,
    }
}

/// What runs ask and are answered, and an advance: the first samples.
fn of_runs(number: usize) -> Entry
    ensures { IsAnswerTo result.event result.answer }
{
    let run = RunId::new(usize::MAX);
    let prog = ProgId::new(usize::MAX);
    let step = Event::Step { run };
    let leave = Event::Drop { run };
    match number {
        0 => entry(
            1,
            Event::Start {
                prog,
                ctx: string(7, 256),
            },
            Answer::Started(run),
        ),
        1 => entry(
            2,
            Event::Start {
                prog,
                ctx: string(0, 0),
            },
            Answer::Refused(EventRefusal::NoProgram),
        ),
        2 => entry(3, step, Answer::Moved),
        3 => entry(4, step, Answer::Exited(u64::MAX)),
        4 => entry(255, step, Answer::Refused(EventRefusal::Ended)),
        5 => entry(6, leave, Answer::Done),
        6 => entry(7, leave, Answer::Refused(EventRefusal::StillRunning)),
        _ => entry(0, Event::Advance, Answer::Done),
    }
}

/// What is asked of maps: the other samples.
fn of_maps(number: usize) -> Entry
    ensures { IsAnswerTo result.event result.answer }
{
    let map = MapId::new(usize::MAX);
    let update = Event::Update {
        map,
        key: string(1, 64),
        value: string(100, 256),
        flags: u64::MAX,
    };
    let delete = Event::Delete {
        map,
        key: string(2, 63),
    };
    let read = Event::Read {
        map,
        key: string(3, 5),
    };
    let refused = Answer::Refused(EventRefusal::BadLength);
    let free = ReapedElement {
        map,
        key: string(9, 64),
        given: Given::Free,
    };
    let worn = ReapedElement {
        map,
        key: string(9, 0),
        given: Given::Worn,
    };
    match number {
        0 => entry(0, update, Answer::Ret(Ok(()))),
        1 => entry(1, update, Answer::Ret(Err(Errno::NoMemory))),
        2 => entry(2, update, refused),
        3 => entry(3, delete, Answer::Ret(Ok(()))),
        4 => entry(4, delete, Answer::Ret(Err(Errno::NoEntry))),
        5 => entry(5, delete, refused),
        6 => entry(6, read, Answer::Found(Some(string(50, 256)))),
        7 => entry(7, read, Answer::Found(None)),
        8 => entry(8, read, refused),
        9 => entry(9, Event::Reap, Answer::Reaped(Some(free))),
        10 => entry(10, Event::Reap, Answer::Reaped(Some(worn))),
        _ => entry(11, Event::Reap, Answer::Reaped(None)),
    }
}

/// The sample entry of this number.
pub fn sample(number: usize) -> Entry
    ensures { IsAnswerTo result.event result.answer }
{
    if number < RUN_SAMPLES {
        of_runs(number)
    } else {
        of_maps(number - RUN_SAMPLES)
    }
}
