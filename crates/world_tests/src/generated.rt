//! The world beside the reference model on events of a fixed sequence of numbers, event for event: three hash maps and an
//! array, thirteen programs.
use crate::making::Setup;
use crate::pair::Pair;
use std::process::Abort;
use std::test::Fail;

/// The first map wears out, the second is mostly full, the third has longer keys and values, and the fourth is an array. A
/// program's context is a key's byte, an offset or a value's byte, and flags or a byte to store.
const SETUP: &str = "\
map 4 8 4 3 12
map 4 8 2 2 4294967295
map 8 16 4 2 50
map array 8 3
prog 3 0: LOAD
prog 3 1: ADD_ONE
prog 3 2: PUT
prog 3 2 0: REMOVE
prog 3 0: SPILL_REMOVE
prog 3 2: BYTE_OF_16
prog 3 2: STORE_BYTE
prog 3 1 0: TWO_MAPS
prog 3 1: REPLACE
prog 3 0: NESTED_LOAD
prog 3 3: ADD_IN_ARRAY
prog 3 3: HELD_IN_ARRAY
prog 3 3: LOAD";

/// The events of which each is one: what comes more often stands here more often. The runs in low slots are stepped most. There are
/// maps and programs that are not there, and keys, values and contexts of other lengths.
const EVENTS: &str = "\
step 0 1; step 0 2; step 0 4; step 0 1; step 0 2; step 0 4; step 0 1; step 0 2; step 0 4; step 0 1; step 0 2; \
step 0 4; step 0 1; step 0 2; step 0 4; step 0 1; step 0 2; step 1 1; step 1 2; step 1 4; step 1 1; step 1 2; \
step 1 4; step 1 1; step 1 2; step 1 4; step 1 1; step 1 2; step 1 4; step 1 1; step 1 2; step 1 4; step 2 1; \
step 2 2; step 2 4; step 2 1; step 2 2; step 2 4; step 2 1; step 2 2; step 2 4; step 2 1; step 2 2; step 2 4; \
step 2 1; step 3 1; step 3 2; step 3 4; step 3 1; step 3 2; step 3 4; step 3 1; step 3 2; step 3 4; step 3 1; \
step 3 2; step 4 1; step 4 2; step 4 4; step 4 1; step 4 2; step 4 4; step 4 1; step 4 2; step 4 4; step 5 1; \
step 5 2; step 5 4; step 5 1; step 5 2; step 5 4; step 5 1; step 6 1; step 6 2; step 6 4; step 6 1; step 6 2; \
step 7 1; step 7 2; step 7 4; step 8 1; start 0 03eee7; start 0 04615e; start 1 04f35f; start 1 00e49b; \
start 2 004801; start 2 012e00; start 2 021501; start 2 03ca02; start 2 04e701; start 2 055003; start 3 040720; \
start 3 001261; start 4 010fed; start 4 02e164; start 5 047796; start 5 03022b; start 6 038ed0; start 6 042a82; \
start 7 027593; start 7 002337; start 8 033794; start 8 032208; start 9 05006d; start 9 011af0; start 10 03cbd6; \
start 10 00658a; start 11 022c9f; start 11 0207d1; start 12 00447e; start 12 053305; start 13 010203; start 0 0102; \
drop 0; drop 1; drop 2; drop 3; drop 4; drop 5; drop 6; drop 7; drop 8; put 0 03000000 f95a60e56143d6c4 0; \
put 1 03000000 d76c008a9b0a6b5f 0; put 2 0400000000000000 33154a6de28404a897c525262e6a7c07 2; \
put 3 02000000 e841f745c55d4e9f 1; put 0 04000000 7f615164c6f728d7 0; put 1 00000000 3713827ac883d7fb 0; \
put 2 0400000000000000 59234074f5258f6c68082389d2e47f1e 0; put 3 01000000 90bc432fb946e6a9 0; \
put 0 04000000 1109f3b79f110a26 0; put 1 00000000 9fa3452526e7bc16 3; \
put 2 0200000000000000 b42bf227d50fff07c3c20624292e3b83 0; put 3 05000000 a9c6eae1ec2a0f9e 2; \
put 0 03000000 0b7539fef88205bc 0; put 1 01000000 6756afe2ff7ba7cf 0; \
put 2 0100000000000000 dc666dc470a26b4544feb314208d5639 0; put 3 03000000 8c6dd3c3fca1e7a4 3; \
put 0 00000000 8e158fb59e0945cf 0; put 1 01000000 0c887948183be437 3; \
put 2 0000000000000000 6566f3835b05f1125b738bb151c9722c 1; put 3 05000000 c642e6e86403c0af 2; \
put 0 02000000 68323f6d7cc72c9e 3; put 1 02000000 08b22a13e1afd78c 1; \
put 2 0000000000000000 6f20db1158ab47f04ce1fc2c71e09454 3; put 3 02000000 c36a9b488bfe66d2 0; \
put 0 04000000 02c10e16cd3efb2f 0; put 1 00000000 ead3ce897ef2fc41 0; \
put 2 0300000000000000 f3a23762d60f85420b12634f740691a4 1; put 3 01000000 ff35ff3e8065df0b 1; \
put 4 00000000 0000000000000000 0; put 0 0000000000 0000000000000000 0; put 2 0000000000000000 00 0; del 0 03000000; \
del 1 05000000; del 2 0300000000000000; del 3 04000000; del 0 04000000; del 1 01000000; del 2 0400000000000000; \
del 3 01000000; del 0 05000000; del 1 04000000; del 2 0500000000000000; del 3 01000000; del 0 04000000; \
del 1 01000000; del 2 0400000000000000; del 4 00000000; del 1 000000; get 0 04000000; get 1 04000000; \
get 2 0100000000000000; get 3 01000000; get 0 05000000; get 1 05000000; get 2 0200000000000000; get 4 00000000; \
advance; advance; advance; advance; advance; advance; advance; advance; advance; advance; advance; advance; advance; \
advance; reap; reap; reap; reap; reap; reap; reap; reap; reap; reap; reap; reap; reap; reap; reap; reap; reap; reap";

/// What was seen of answers, each at least once: words that are sought in their texts.
const SEEN: [&str; 25] = [
    "moved",
    "exit 0",
    "exit 18446744073709551604",
    "exit 18446744073709551599",
    "exit 18446744073709551614",
    "ret 0",
    "ret -2",
    "ret -7",
    "ret -12",
    "ret -17",
    "ret -22",
    "none",
    "value ",
    "free",
    "worn",
    "reaped 0 ",
    "reaped 1 ",
    "reaped 2 ",
    "refused 60",
    "refused 61",
    "refused 62",
    "refused 63",
    "refused 65",
    "refused 66",
    "refused 67",
];

/// The answers' texts have all that is sought in them.
fn has_all(rt: &impl Abort, seen: &str) {
    for text in SEEN {
        assert!(rt; seen.contains(text), "never seen: {text}");
    }
}

/// The number behind this one of a fixed sequence (xorshift of 64 bits, with shifts 13, 7 and 17).
fn behind(number: u64) -> u64 {
    let mut x = number;
    x ^= x << 13;
    x ^= x >> 7;
    x ^ x << 17
}

/// The line of this number, but no start where eight runs are there.
fn line_at<'a>(events: &[&'a str], number: u64, runs: usize) -> &'a str {
    match events.get((number >> 11) as usize % events.len().max(1)) {
        Some(event) if runs < 8 || !event.starts_with("start") => event,
        _ => "stat",
    }
}

/// The texts of the answers to so many events, on each of which both agree.
fn answers_to(pair: &mut Pair, events: &[&str], count: usize) -> Result<String, Fail> {
    let mut seen = String::new(pair.alloc);
    let mut number = 0x9e37_79b9_7f4a_7c15;
    for _ in 0..count {
        number = behind(number);
        let line = line_at(events, number, pair.model.stat().runs);
        let text = pair.say(line)?;
        if text.contains("world") || text.contains("differ") {
            return Err(Fail::from(text));
        }
        seen.push_str(&text)?;
        seen.push('\n')?;
    }
    Ok(seen)
}

#[test]
fn generated_events(rt: HostRuntime) -> Result<(), Fail> {
    let mut pair = Setup::read(rt.alloc(), SETUP)?.pair()?;
    let events: Vec<&str> = EVENTS.split("; ").collect(rt.alloc())?;
    let seen = answers_to(&mut pair, &events, 8000)?;
    has_all(&rt, &seen);
    Ok(())
}
