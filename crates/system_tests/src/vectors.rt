//! The unlinked elements of a map, kept in a vector beside the map: what the slots that the map threads are compared with.
use crate::map_tables::put;
use bpf_model::{MapKind, MapShape};
use hash_index::{Buckets, Index, Sorted};
use maps::{HashMap, MapTable};
use std::alloc::Global;
use std::test::Fail;

/// The keys of unlinked elements in the order of their unlinking, and how many of them are reclaimed, how many may be, and how
/// many were unlinked when the grace period began.
#[derive(Drop)]
struct Unlinked {
    keys: Vec<u8>,
    reaped: usize,
    ready: usize,
    awaited: usize,
}

impl Unlinked {
    fn advance(&mut self) {
        self.ready = self.awaited;
        self.awaited = self.keys.len();
    }

    fn reap(&mut self) -> Option<u8> {
        if self.reaped >= self.ready {
            return None;
        }
        let key = self.keys.get(self.reaped).copied();
        self.reaped += 1;
        key
    }
}

/// One-byte keys and values, eight elements, and 24 map slots for those that are unlinked.
const WIDE: MapShape = MapShape {
    kind: MapKind::Hash,
    key_len: 1,
    value_len: 1,
    entries: 8,
    spare: 24,
    reuse_limit: 200,
};

/// The key of the element that a map reclaims.
fn reaped<I: Index>(map: &mut HashMap<I>) -> Option<u8> {
    match map.reap() {
        Some((key, _)) => key.as_slice().first().copied(),
        None => None,
    }
}

/// Puts an element, or deletes it; where another was under its key it is unlinked then.
fn change<I: Index>(
    map: &mut HashMap<I>,
    unlinked: &mut Unlinked,
    key: u8,
    is_put: bool,
) -> Result<(), Fail> {
    let was_linked = map.lookup(&[key]).is_some();
    let told = if is_put {
        put(map, &[key], &[key], 0)?
    } else {
        map.delete(&[key])
    };
    if was_linked && told.is_ok() {
        unlinked.keys.push(key)?;
    }
    Ok(())
}

/// How many elements were reaped in so many pseudo-random commands: each is the one that the vector has.
fn walk<I: Index + Drop>(alloc: Global, steps: usize) -> Result<usize, Fail> {
    let mut map: HashMap<I> = HashMap::new(alloc, WIDE)?;
    let mut unlinked = Unlinked {
        keys: Vec::new(alloc),
        reaped: 0,
        ready: 0,
        awaited: 0,
    };
    let mut number: u32 = 1;
    for _ in 0..steps {
        number = number.wrapping_mul(1_103_515_245).wrapping_add(12_345);
        let key = ((number >> 20) % 12) as u8;
        match (number >> 16) % 16 {
            0..=10 => change(&mut map, &mut unlinked, key, (number >> 16) % 16 < 8)?,
            11 => {
                map.advance();
                unlinked.advance();
            }
            _ if reaped(&mut map) == unlinked.reap() => {}
            _ => return Err(Fail::from("another element than in the vector")),
        }
    }
    Ok(unlinked.reaped)
}

/// In 2000 commands some hundreds of elements are reaped, in the order of the vector.
#[test]
fn elements_are_reaped_as_from_a_vector(rt: HostRuntime) -> Result<(), Fail> {
    let buckets = walk::<Buckets>(rt.alloc(), 2000)?;
    let sorted = walk::<Sorted>(rt.alloc(), 2000)?;
    assert!(rt; buckets > 300);
    assert_eq!(rt; buckets, sorted);
    Ok(())
}
