//! Maps of both forms over lines of commands, with the answers that they must have, worked out by hand. Bytes are hexadecimal
//! digits. `slot` asks for the slot of a key, `above` for the element with the least key above another, or of all, `list` for
//! the map slots of all elements in the order of their keys.
use bpf_model::{Errno, MapKind, MapShape};
use hash_index::{Buckets, Index, Sorted};
use maps::{HashMap, MapTable};
use std::alloc::Global;
use std::test::Fail;

/// One-byte keys, two-byte values, at most two elements, and one further map slot.
pub(crate) const SMALL: MapShape = MapShape {
    kind: MapKind::Hash,
    key_len: 1,
    value_len: 2,
    entries: 2,
    spare: 1,
    reuse_limit: 2,
};

/// The tests of an update in their order; the slots that elements take; the order of reclamation; wear;
/// order of keys.
const SMALL_LINES: &str = "\
slot 07 = None
list = []
put 07 0102 3 = -22
put 07 0102 2 = -2
put 07 0102 0 = 0
slot 07 = Some(0)
put 07 0102 1 = -17
put 08 0304 1 = 0
slot 08 = Some(1)
put 09 0506 0 = -7
above = 07 0102
above 07 = 08 0304
above 08 = none
put 07 0708 2 = 0
slot 07 = Some(2)
list = [2, 1]
above = 07 0708
put 07 0909 2 = -12
del 09 = -2
del 08 = 0
slot 08 = None
put 09 0506 0 = -12
reap = none
advance = ok
reap = none
advance = ok
reap = 07 Free
reap = 08 Free
reap = none
put 09 0506 0 = 0
slot 09 = Some(0)
del 07 = 0
put 0a 0101 0 = 0
slot 0a = Some(1)
advance = ok
del 0a = 0
advance = ok
reap = 07 Free
reap = none
advance = ok
reap = 0a Worn
put 07 0102 0 = 0
slot 07 = Some(2)
del 09 = 0
del 07 = 0
advance = ok
advance = ok
reap = 09 Worn
reap = 07 Worn
put 07 0102 0 = -12
";

/// One element is linked, one waits for the end of the grace period, one was unlinked since it began.
const BEFORE: &str = "\
put 07 0102 0 = 0
put 08 0304 0 = 0
put 07 0506 2 = 0
advance = ok
del 08 = 0
";

/// The slots are given back in the order of unlinking; the second use of the first wears it.
const AFTER: &str = "\
put 09 0708 0 = -12
slot 07 = Some(2)
above = 07 0506
advance = ok
reap = 07 Free
advance = ok
reap = 08 Free
put 09 0708 0 = 0
slot 09 = Some(0)
above 07 = 09 0708
del 09 = 0
advance = ok
advance = ok
reap = 09 Worn
reap = none
";

/// Slots are taken again in the order in which they were given back, behind those that were never used.
const GIVEN_BACK: &str = "\
put 07 0102 0 = 0
put 08 0304 0 = 0
slot 08 = Some(1)
del 08 = 0
del 07 = 0
advance = ok
advance = ok
reap = 08 Free
reap = 07 Free
put 09 0506 0 = 0
slot 09 = Some(2)
put 0a 0708 0 = 0
slot 0a = Some(1)
del 0a = 0
put 0b 090a 0 = 0
slot 0b = Some(0)
";

/// Puts a value under a key, where both have the lengths of the map.
pub(crate) fn put<I: Index>(
    map: &mut HashMap<I>,
    key: &[u8],
    value: &[u8],
    flags: u64,
) -> Result<Result<(), Errno>, Fail> {
    let shape = map.shape();
    if key.len() != shape.key_len || value.len() != shape.value_len {
        return Err(Fail::from("a wrong length"));
    }
    Ok(map.update(key, value, flags))
}

fn tell_result(alloc: Global, told: Result<(), Errno>) -> Result<String, Fail> {
    match told {
        Ok(()) => Ok(String::from_str(alloc, "0")?),
        Err(errno) => Ok(format!(in alloc; "-{}", errno.number())?),
    }
}

/// Reclaims an element, and tells its key and what becomes of its slot.
fn reap<I: Index>(alloc: Global, map: &mut HashMap<I>) -> Result<String, Fail> {
    match map.reap() {
        Some((key, given)) => {
            let key = hex::encode(alloc, key.as_slice())?;
            Ok(format!(in alloc; "{key} {given:?}")?)
        }
        None => Ok(String::from_str(alloc, "none")?),
    }
}

/// The element with the least key above this one, or above none where it is empty.
fn above<I: Index>(alloc: Global, map: &HashMap<I>, key: &[u8]) -> Result<String, Fail> {
    let bound = if key.is_empty() { None } else { Some(key) };
    match map.next_above(bound) {
        Some((key, value)) => {
            let key = hex::encode(alloc, key.as_slice())?;
            let value = hex::encode(alloc, value.as_slice())?;
            Ok(format!(in alloc; "{key} {value}")?)
        }
        None => Ok(String::from_str(alloc, "none")?),
    }
}

/// Does the command of a line, and tells its answer.
fn answer<I: Index>(alloc: Global, map: &mut HashMap<I>, line: &str) -> Result<String, Fail> {
    let mut words = line.split(' ');
    let verb = words.next().unwrap_or("");
    let key = hex::decode(alloc, words.next().unwrap_or(""))?;
    match verb {
        "put" => {
            let value = hex::decode(alloc, words.next().unwrap_or(""))?;
            let flags = words.next().unwrap_or("").parse::<u64>().unwrap_or(0);
            tell_result(alloc, put(map, &key, &value, flags)?)
        }
        "del" => tell_result(alloc, map.delete(&key)),
        "slot" => Ok(format!(in alloc; "{:?}", map.lookup(&key))?),
        "list" => Ok(format!(in alloc; "{:?}", map.in_order(alloc)?.as_slice())?),
        "above" => above(alloc, map, &key),
        "reap" => reap(alloc, map),
        _ => {
            map.advance();
            Ok(String::from_str(alloc, "ok")?)
        }
    }
}

/// The lines with the answers that a map gives.
fn replay<I: Index>(alloc: Global, map: &mut HashMap<I>, lines: &str) -> Result<String, Fail> {
    let mut text = String::new(alloc);
    for line in lines.lines() {
        let (command, _) = line.split_once(" = ").unwrap_or((line, ""));
        let answer = answer(alloc, map, command)?;
        write!(&mut text, "{command} = {}\n", answer.as_str())?;
    }
    Ok(text)
}

/// A map and its copy, which is made behind these lines.
fn map_and_copy<I: Index + Drop>(
    alloc: Global,
    before: &str,
) -> Result<(HashMap<I>, HashMap<I>), Fail> {
    let mut map: HashMap<I> = HashMap::new(alloc, SMALL)?;
    let _before = replay(alloc, &mut map, before)?;
    let copy = map.copy(alloc)?;
    Ok((map, copy))
}

/// The lines with the answers that a map gives before it is gone.
fn last_answers<I: Index + Drop>(
    alloc: Global,
    mut map: HashMap<I>,
    lines: &str,
) -> Result<String, Fail> {
    replay(alloc, &mut map, lines)
}

/// The answers of a copy of a map, which is made between these lines, where they are those of the original, which goes on first.
fn copy_answers<I: Index + Drop>(alloc: Global, before: &str, after: &str) -> Result<String, Fail> {
    let (map, copy) = map_and_copy::<I>(alloc, before)?;
    let original = last_answers(alloc, map, after)?;
    let copied = last_answers(alloc, copy, after)?;
    if copied.as_str() != original.as_str() {
        return Err(Fail::from("the copy answers otherwise"));
    }
    Ok(copied)
}

#[test]
fn maps_of_both_forms(rt: HostRuntime) -> Result<(), Fail> {
    for (before, after) in [("", SMALL_LINES), (BEFORE, AFTER), ("", GIVEN_BACK)] {
        let buckets = copy_answers::<Buckets>(rt.alloc(), before, after)?;
        assert_eq!(rt; buckets.as_str(), after);
        let sorted = copy_answers::<Sorted>(rt.alloc(), before, after)?;
        assert!(rt;
            sorted.as_str() == buckets.as_str(),
            "the second form answers otherwise"
        );
    }
    Ok(())
}
