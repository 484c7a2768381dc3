//! Eight workers in threads.
ghost use Rattle.std.specs.Prelude.{◌≡◌};

use crate::mixing::line_of;
use crate::pools::made_by;
use crate::sharing::{event, scenery, shared_of};
use bpf_model::{Answer, Event};
use journal::Journal;
use shared::{Counters, Finished, Shared, Worker};
use std::alloc::{AllocError, Global};
use std::marker::Brand;
use std::process::Abort;
use std::sync::ledger::{Blank, Ledger};
use std::sync::{Mutex, Wait};
use std::test::Fail;
use std::thread::{Threads, for_each_mut, join};

/// How many calls each worker makes.
const CALLS: u16 = 1000;

/// What a worker was answered, in order.
#[derive(Drop)]
struct Log {
    worker: u8,
    answers: Vec<Answer>,
}

/// A worker's calls. What it was answered goes to the logs.
fn work<L: Ledger, R: Wait + Abort>(
    rt: &R,
    alloc: Global,
    shared: &Shared<L>,
    worker: &mut Worker<L>,
    logs: &Mutex<Vec<Log>>,
) -> Result<(), AllocError> {
    let number = worker.number();
    let mut answers = Vec::new(alloc);
    for turn in 0..CALLS {
        let event = event(rt, alloc, line_of(number, turn))?;
        if let Ok(answer) = shared.act(rt, worker, event) {
            answers.push(answer)?;
        }
    }
    let mut all = logs.lock(rt);
    all.push(Log {
        worker: number,
        answers,
    })?;
    Ok(())
}

/// Whether readings never go back, and never show more elements reclaimed than unlinked.
fn watch<R: Wait>(rt: &R, counters: &mut Counters) -> bool {
    let mut last = counters.read(rt);
    let mut rises = true;
    for _ in 0..20_000u64 {
        let next = counters.read(rt);
        rises = rises
            && last.steps <= next.steps
            && last.unlinked <= next.unlinked
            && last.reclaimed <= next.reclaimed
            && next.reclaimed <= next.unlinked;
        last = next;
    }
    rises
}

/// Whether two answers have one text.
fn same_text(alloc: Global, one: &Answer, other: &Answer) -> Result<bool, AllocError> {
    let text = format!(in alloc; "{one:?}")?;
    Ok(text == format!(in alloc; "{other:?}")?)
}

/// Whether the entries of a log's worker have the answers of the log, in order.
fn agrees(alloc: Global, journal: &Journal, log: &Log) -> Result<bool, AllocError> {
    let mut at = 0;
    for index in 0..journal.len() {
        if let Some(entry) = journal.entry(index) {
            if entry.worker == log.worker {
                let Some(answer) = log.answers.get(at) else {
                    return Ok(false);
                };
                if !same_text(alloc, answer, &entry.answer)? {
                    return Ok(false);
                }
                at += 1;
            }
        }
    }
    Ok(at == log.answers.len())
}

/// The journal's events, in order.
fn events_in(alloc: Global, journal: &Journal) -> Result<Vec<Event>, AllocError> {
    let mut events = Vec::new(alloc);
    for index in 0..journal.len() {
        if let Some(entry) = journal.entry(index) {
            events.push(entry.event)?;
        }
    }
    Ok(events)
}

/// Whether these are the answers in the journal, in order.
fn are_answers(alloc: Global, journal: &Journal, answers: &[Answer]) -> Result<bool, AllocError> {
    for (index, answer) in answers.iter().enumerate() {
        let Some(entry) = journal.entry(index) else {
            return Ok(false);
        };
        if !same_text(alloc, answer, &entry.answer)? {
            return Ok(false);
        }
    }
    Ok(answers.len() == journal.len())
}

/// Whether the base answers the journal's events as the journal says, and has then the world's counts.
fn replays(alloc: Global, finished: &mut Finished) -> Result<bool, AllocError> {
    let events = events_in(alloc, &finished.journal)?;
    let answers = finished.base.run_all(alloc, &events)?;
    let alike = are_answers(alloc, &finished.journal, &answers)?;
    Ok(alike && finished.base.stat() == finished.world.stat())
}

#[test]
fn eight_workers(rt: HostRuntime) -> Result<(), Fail> {
    eight::<Brand, _>(&rt, rt.alloc(), Blank::new(8))
}

/// Eight workers make a thousand calls each while the counters are read: the journal has each call once, as
/// its worker was answered, and replays from the world that was shared.
fn eight<L: Ledger + Send + Sync, R: Threads + Wait + Abort + Sync>(
    rt: &R,
    alloc: Global,
    blank: Blank,
) -> Result<(), Fail>
    requires name { blank.name ≡ L.name }
    requires parts { (blank.parts ≡ L.parts) × (blank.parts ≡ 8) }
{
    let mut world = scenery(alloc)?;
    world.apply(&event(rt, alloc, "put 0 03000000 0900000000000000 0")?);
    let first = world.stat();
    let (shared, mut workers, mut counters) = shared_of::<L, R>(rt, alloc, world, blank, 8, None)?;
    let logs = Mutex::new(Vec::new(alloc));
    let (lock, out) = (&shared, &logs);
    let lent = &mut workers;
    let (_, rises) = join(
        rt,
        || {
            for_each_mut(
                rt,
                lent.as_mut_slice(),
                8,
                &|_, worker: &mut Worker<L>| {
                    let _ = work(rt, alloc, lock, worker, out);
                },
            )
        },
        || watch(rt, &mut counters),
    );
    assert!(rt; rises);
    assert_eq!(rt; made_by(&workers), 8000);
    let mut finished = shared.finish(workers);
    assert_eq!(rt; finished.journal.len(), 8000);
    assert_eq!(rt; finished.base.stat(), first);
    let all = logs.into_inner();
    assert_eq!(rt; all.len(), 8);
    for log in &all {
        assert!(rt; agrees(alloc, &finished.journal, log)?);
    }
    assert!(rt; replays(alloc, &mut finished)?);
    Ok(())
}
