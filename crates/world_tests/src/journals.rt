//! Adding, reading back, a full journal, and cutting.
ghost use Rattle.journal.specs.Entries.{IsAnswerTo};

use crate::entries::{SAMPLES, sample};
use journal::{Entry, Journal, JournalFault};
use std::alloc::{AllocError, Global};
use std::process::Abort;
use std::test::Fail;

/// The text of the entry of this index, with all that it has.
fn entry_at(alloc: Global, journal: &Journal, index: usize) -> Result<String, AllocError> {
    format!(in alloc; "{:?}", journal.entry(index))
}

/// The first entries of a journal have these texts.
pub fn are_entries<R: Abort>(
    rt: &R,
    alloc: Global,
    journal: &Journal,
    texts: &[&str],
) -> Result<(), AllocError> {
    for (index, wanted) in texts.iter().enumerate() {
        let found = entry_at(alloc, journal, index)?;
        assert_eq!(rt; found.as_str(), *wanted);
    }
    Ok(())
}

/// Adds an entry. Where memory was refused once, nothing has changed, and the same call succeeds later.
fn add<R: Abort>(rt: &R, journal: &mut Journal, entry: &Entry) -> Result<(), JournalFault>
    requires { IsAnswerTo entry.now.event entry.now.answer }
{
    let before = journal.len();
    if let Err(fault) = journal.reserve_one() {
        assert_eq!(rt; fault, JournalFault::Memory);
        assert_eq!(rt; journal.len(), before);
        journal.reserve_one()?;
    }
    journal.push(entry);
    assert_eq!(rt; journal.len(), before + 1);
    Ok(())
}

/// Adds each sample entry, in their order.
fn add_each_sample<R: Abort>(rt: &R, journal: &mut Journal) -> Result<(), JournalFault> {
    for number in 0..SAMPLES {
        add(rt, journal, &sample(number))?;
    }
    Ok(())
}

/// Reads the entries of three rounds of samples, behind which there is none.
fn read_three_rounds<R: Abort>(rt: &R, alloc: Global, journal: &Journal) -> Result<(), AllocError> {
    for index in 0..3 * SAMPLES {
        let found = entry_at(alloc, journal, index)?;
        let wanted = format!(in alloc; "{:?}", Some(sample(index % SAMPLES)))?;
        assert_eq!(rt; found.as_str(), wanted.as_str());
    }
    assert!(rt; journal.entry(3 * SAMPLES).is_none());
    Ok(())
}

#[test]
fn every_sample_is_read_back(rt: HostRuntime) -> Result<(), Fail> {
    let mut journal = Journal::new(rt.alloc());
    assert!(rt; journal.is_empty());
    assert_eq!(rt; journal.limit(), 16_777_216);
    for round in 0..3 {
        add_each_sample(&rt, &mut journal)?;
        assert_eq!(rt; journal.len(), (round + 1) * SAMPLES);
    }
    read_three_rounds(&rt, rt.alloc(), &journal)?;
    Ok(())
}

#[test]
fn a_full_journal_is_cut(rt: HostRuntime) -> Result<(), Fail> {
    let mut journal = Journal::with_limit(rt.alloc(), 2);
    assert_eq!(rt; journal.limit(), 2);
    for _ in 0..2 {
        assert!(rt; journal.is_empty());
        add(&rt, &mut journal, &sample(3))?;
        add(&rt, &mut journal, &sample(8))?;
        assert_eq!(rt; journal.reserve_one(), Err(JournalFault::Full));
        assert_eq!(rt; journal.len(), 2);
        journal.cut();
        assert!(rt; journal.entry(0).is_none());
    }
    assert_eq!(rt; JournalFault::Full.code(), 70);
    assert_eq!(rt; JournalFault::Memory.code(), 13);
    Ok(())
}
