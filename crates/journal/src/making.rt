//! Which row an entry has.
ghost use Rattle.std.specs.Prelude.{◌≡◌};
ghost use Rattle.bpf_model.specs.declared.event.Event.TheVariants as events;
ghost use Rattle.journal.specs.Entries.{IsAnswerTo};
ghost use Rattle.journal.specs.Rows.{IsOutcome, IsRowOf, answer_of, entry_from};

use crate::row::{Outcome, Row};
use bpf_model::{Answer, CtxBytes, Event, KeyBytes, MapId, ProgId, RunId};

fn start_row(worker: u8, start: usize, prog: ProgId, ctx: &CtxBytes, answer: &Answer) -> Row
    requires { IsAnswerTo (events.Start prog ctx.now) answer.now }
    ensures { IsRowOf start (entry_from worker (events.Start prog ctx.now) answer.now) result }
{
    let ctx_len = ctx.len() as u16;
    match answer {
        Answer::Started(run) => Row::Started {
            worker,
            ctx_len,
            prog,
            run: *run,
            start,
        },
        Answer::Refused(refusal) => Row::NotStarted {
            worker,
            refusal: *refusal,
            ctx_len,
            prog,
            start,
        },
        _ => unreachable!(),
    }
}

fn step_row(worker: u8, start: usize, run: RunId, answer: &Answer) -> Row
    requires { IsAnswerTo (events.Step run) answer.now }
    ensures { IsRowOf start (entry_from worker (events.Step run) answer.now) result }
{
    match answer {
        Answer::Moved => Row::Moved {
            worker,
            run,
            count: 1,
        },
        Answer::Exited(value) => Row::Exited {
            worker,
            run,
            value: *value,
        },
        Answer::Refused(refusal) => Row::NotStepped {
            worker,
            refusal: *refusal,
            run,
        },
        _ => unreachable!(),
    }
}

/// What an update or a delete was answered.
fn outcome_of(answer: &Answer) -> Outcome
    requires { IsOutcome answer.now }
    ensures { answer_of result ≡ answer.now }
{
    match answer {
        Answer::Ret(Ok(())) => Outcome::Done,
        Answer::Ret(Err(error)) => Outcome::Failed(*error),
        Answer::Refused(refusal) => Outcome::Refused(*refusal),
        _ => unreachable!(),
    }
}

fn read_row(worker: u8, start: usize, map: MapId, key: &KeyBytes, answer: &Answer) -> Row
    requires { IsAnswerTo (events.Read map key.now) answer.now }
    ensures { IsRowOf start (entry_from worker (events.Read map key.now) answer.now) result }
{
    let key_len = key.len() as u8;
    match answer {
        Answer::Found(Some(value)) => Row::Found {
            worker,
            key_len,
            value_len: value.len() as u16,
            map,
            start,
        },
        Answer::Found(None) => Row::NotFound {
            worker,
            key_len,
            map,
            start,
        },
        Answer::Refused(refusal) => Row::NotRead {
            worker,
            refusal: *refusal,
            key_len,
            map,
            start,
        },
        _ => unreachable!(),
    }
}

fn reap_row(worker: u8, start: usize, answer: &Answer) -> Row
    requires { IsAnswerTo events.Reap answer.now }
    ensures { IsRowOf start (entry_from worker events.Reap answer.now) result }
{
    match answer {
        Answer::Reaped(Some(element)) => Row::Reclaimed {
            worker,
            given: element.given,
            key_len: element.key.len() as u8,
            map: element.map,
            start,
        },
        Answer::Reaped(None) => Row::NothingReady { worker },
        _ => unreachable!(),
    }
}

fn drop_row(worker: u8, start: usize, run: RunId, answer: &Answer) -> Row
    requires { IsAnswerTo (events.Drop run) answer.now }
    ensures { IsRowOf start (entry_from worker (events.Drop run) answer.now) result }
{
    match answer {
        Answer::Done => Row::Dropped { worker, run },
        Answer::Refused(refusal) => Row::NotDropped {
            worker,
            refusal: *refusal,
            run,
        },
        _ => unreachable!(),
    }
}

/// The row of an entry whose strings begin at `start`.
pub(crate) fn row_of(worker: u8, event: &Event, answer: &Answer, start: usize) -> Row
    requires { IsAnswerTo event.now answer.now }
    ensures { IsRowOf start (entry_from worker event.now answer.now) result }
{
    match event {
        Event::Start { prog, ctx } => start_row(worker, start, *prog, ctx, answer),
        Event::Step { run } => step_row(worker, start, *run, answer),
        Event::Update {
            map,
            key,
            value,
            flags,
        } => Row::Updated {
            worker,
            outcome: outcome_of(answer),
            key_len: key.len() as u8,
            value_len: value.len() as u16,
            map: *map,
            flags: *flags,
            start,
        },
        Event::Delete { map, key } => Row::Deleted {
            worker,
            outcome: outcome_of(answer),
            key_len: key.len() as u8,
            map: *map,
            start,
        },
        Event::Read { map, key } => read_row(worker, start, *map, key, answer),
        Event::Advance => Row::Advanced { worker },
        Event::Reap => reap_row(worker, start, answer),
        Event::Drop { run } => drop_row(worker, start, *run, answer),
    }
}
