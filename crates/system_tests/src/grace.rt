//! Grace periods: how deep runs are inside sections, which are awaited, and when an advance turns.

use bpf_model::{MAX_DEPTH, MAX_RUNS, RunId};
use element_store::Grace;
use std::alloc::{AllocError, Global};

/// What happens from the start on, one history a line. `+7` is a lock of run 7, `-7` an unlock, each with a question mark behind it
/// where it may not be; `x7` drops that run. `turns` is an advance that turns, `stays` one that does not. `5*2` says that
/// run 5 is inside two locks, and no other run in any; `none` that no run is.
const HISTORIES: &str = "\
+7 turns +8 -7 +7 turns stays -7 stays -8 turns
+5 turns +5 5*2 stays -5 5*1 stays -5 none turns
+200 200*1 +200 200*2 +200 200*3 +200 200*4 +200 200*5 +200 200*6 +200 200*7 +200 200*8 +200? turns \
stays -200 200*7 stays -200 200*6 stays -200 200*5 stays -200 200*4 \
stays -200 200*3 stays -200 200*2 stays -200 200*1 stays -200 none -200? turns
+0 0*1 turns stays -0 none turns
+63 63*1 turns stays -63 none turns
+64 64*1 turns stays -64 none turns
+255 255*1 turns stays -255 none turns
+256? none turns
+0 +63 +64 +255 turns stays -0 stays -63 stays -64 stays -255 turns
+64 +64 +64 turns stays x64 none turns
";

/// A lock or an unlock of a run, where it may be.
fn step(grace: &mut Grace, slot: usize, is_lock: bool) -> bool {
    let run = RunId::new(slot);
    if slot >= MAX_RUNS {
        return false;
    }
    let depth = grace.depth(run);
    if is_lock && depth < MAX_DEPTH {
        grace.open(run);
        return true;
    }
    if !is_lock && depth > 0 {
        grace.close(run);
        return true;
    }
    false
}

/// The runs that are inside a section, each with its depth.
fn open_runs(alloc: Global, grace: &Grace) -> Result<String, AllocError> {
    let mut text = String::new(alloc);
    for slot in 0..MAX_RUNS {
        let run = RunId::new(slot);
        let depth = grace.depth(run);
        if grace.is_open(run) {
            text.push_str(&format!(in alloc; "{slot}*{depth}")?)?;
        } else if depth > 0 {
            text.push('?')?;
        }
    }
    if text.is_empty() {
        text.push_str("none")?;
    }
    Ok(text)
}

/// The number behind the sign of a word, or 0 where there is none.
fn number_in(word: &str) -> usize {
    let digits = word.trim_end_matches('?').get(1..).unwrap_or("");
    digits.parse::<usize>().unwrap_or(0)
}

/// Does what a word says, and tells the word that is right of it.
fn told(alloc: Global, grace: &mut Grace, word: &str) -> Result<String, AllocError> {
    let slot = number_in(word);
    let (sign, done) = match word.as_bytes().first() {
        Some(b'+') => ("+", step(grace, slot, true)),
        Some(b'-') => ("-", step(grace, slot, false)),
        Some(b'x') if slot < MAX_RUNS => {
            grace.close_all(RunId::new(slot));
            ("x", true)
        }
        Some(b't' | b's') if grace.advance() => return String::from_str(alloc, "turns"),
        Some(b't' | b's') => return String::from_str(alloc, "stays"),
        _ => return open_runs(alloc, grace),
    };
    let mark = if done { "" } else { "?" };
    format!(in alloc; "{sign}{slot}{mark}")
}

/// The words of a history as they are right.
fn replayed(alloc: Global, grace: &mut Grace, history: &str) -> Result<String, AllocError> {
    let mut text = String::new(alloc);
    for word in history.split(' ') {
        if !text.is_empty() {
            text.push(' ')?;
        }
        text.push_str(&told(alloc, grace, word)?)?;
    }
    Ok(text)
}

/// A history as it is right, from the start on.
fn replayed_anew(alloc: Global, history: &str) -> Result<String, AllocError> {
    replayed(alloc, &mut Grace::new(), history)
}

#[test]
fn histories(rt: HostRuntime) -> Result<(), AllocError> {
    assert!(rt; MAX_RUNS == 256);
    for history in HISTORIES.lines() {
        let text = replayed_anew(rt.alloc(), history)?;
        assert_eq!(rt; text.as_str(), history);
    }
    Ok(())
}

/// A copy goes its own way.
#[test]
fn copies_go_their_own_way(rt: HostRuntime) -> Result<(), AllocError> {
    let alloc = rt.alloc();
    let mut grace = Grace::new();
    let before = replayed(alloc, &mut grace, "+255 +255 turns")?;
    let mut other = grace.copy();
    let one = replayed(alloc, &mut grace, "x255 turns")?;
    let two = replayed(alloc, &mut other, "255*2 stays -255 -255 turns")?;
    assert!(rt; before.as_str() == "+255 +255 turns");
    assert!(rt; one.as_str() == "x255 turns");
    assert!(rt; two.as_str() == "255*2 stays -255 -255 turns");
    Ok(())
}
