//! What is answered and timed.

use bpf_model::{KEY_BYTES, MAX_ENTRIES, MAX_REUSE, MapKind, MapShape, VALUE_BYTES};

/// A program whose steps are timed.
#[derive(Clone, Copy)]
pub enum Stepped {
    Arithmetic,
    Lookup,
}

/// What is done to a world.
#[derive(Clone, Copy)]
pub enum Deed {
    /// Reads of keys, of which about half are there.
    Reads,
    /// A new key is stored and removed, two grace periods end, and it is reclaimed.
    Cycles,
    /// Steps of runs.
    Steps(Stepped),
}

/// An activity over one map, of whose keys every other one has an element.
#[derive(Clone, Copy)]
pub struct Activity {
    pub name: &'static str,
    pub deed: Deed,
    pub shape: MapShape,
}

/// A shape for so many elements, of which half are stored, and as many map slots more; lengths in bytes.
pub const fn shape(key_len: usize, value_len: usize, entries: usize) -> MapShape {
    MapShape {
        kind: MapKind::Hash,
        key_len,
        value_len,
        entries,
        spare: entries,
        reuse_limit: MAX_REUSE,
    }
}

/// How many elements a small map has; the names of the activities tell it.
pub const SMALL_ENTRIES: usize = 1024;

/// The shape of a map of `SMALL_ENTRIES` elements with keys and values of 8 bytes.
pub const fn small() -> MapShape {
    shape(8, 8, SMALL_ENTRIES)
}

/// The shape of a map of `SMALL_ENTRIES` elements with keys of 4 bytes and values of 8.
const fn short_keys() -> MapShape {
    shape(4, 8, SMALL_ENTRIES)
}

/// The shape of a map of `MAX_ENTRIES` elements with keys of `KEY_BYTES` and values of `VALUE_BYTES`.
const fn large() -> MapShape {
    shape(KEY_BYTES, VALUE_BYTES, MAX_ENTRIES)
}

/// The activities, in the order in which they are printed.
pub fn activities() -> [Activity; 7] {
    [
        Activity {
            name: "read_key8_value8_of_1024",
            deed: Deed::Reads,
            shape: small(),
        },
        Activity {
            name: "read_key64_value256_of_4096",
            deed: Deed::Reads,
            shape: large(),
        },
        Activity {
            name: "cycle_key8_value8_of_1024",
            deed: Deed::Cycles,
            shape: small(),
        },
        Activity {
            name: "cycle_key64_value256_of_4096",
            deed: Deed::Cycles,
            shape: large(),
        },
        Activity {
            name: "step_arithmetic",
            deed: Deed::Steps(Stepped::Arithmetic),
            shape: small(),
        },
        Activity {
            name: "step_lookup_key8_value8_of_1024",
            deed: Deed::Steps(Stepped::Lookup),
            shape: small(),
        },
        Activity {
            name: "step_lookup_key64_value256_of_4096",
            deed: Deed::Steps(Stepped::Lookup),
            shape: large(),
        },
    ]
}

/// Activities that are repeated and not printed.
pub fn further_activities() -> [Activity; 2] {
    [
        Activity {
            name: "read_key4_value8_of_1024",
            deed: Deed::Reads,
            shape: short_keys(),
        },
        Activity {
            name: "cycle_key4_value8_of_1024",
            deed: Deed::Cycles,
            shape: short_keys(),
        },
    ]
}
