//! The limits of the runtime, and the byte strings that they bound.

use arrayvec::ArrayVec;

/// The most slots of a program.
pub const MAX_SLOTS: usize = 4096;

/// How many registers there are, r0 to r10.
pub const REGISTERS: usize = 11;

/// The bytes of a stack frame.
pub const FRAME_BYTES: usize = 512;

/// The most bytes of a context.
pub const CTX_BYTES: usize = 256;

/// The most bytes of a key.
pub const KEY_BYTES: usize = 64;

/// The most bytes of a value.
pub const VALUE_BYTES: usize = 256;

/// How many bytes from the start of its region a reference may point, either way.
pub const NEAR_LIMIT: u64 = 1 << 29;

/// The most maps of a program's list, and of a registry.
pub const MAX_MAPS: usize = 16;

/// The most programs of a world.
pub const MAX_PROGRAMS: usize = 64;

/// How many run slots there are.
pub const MAX_RUNS: usize = 256;

/// How many read-side locks of a run may be open at once: sections nest so deep.
pub const MAX_DEPTH: usize = 8;

/// The most linked elements that a map's shape may allow.
pub const MAX_ENTRIES: usize = 4096;

/// The most further map slots that a map's shape may ask for.
pub const MAX_SPARE: usize = 4096;

/// How often a map slot may be used at most.
pub const MAX_REUSE: u32 = 4_294_967_295;

/// The most entries of a journal.
pub const MAX_JOURNAL: usize = 16_777_216;

/// The bytes of a context, at most `CTX_BYTES`.
pub type CtxBytes = ArrayVec<u8, CTX_BYTES>;

/// The bytes of a key, at most `KEY_BYTES`.
pub type KeyBytes = ArrayVec<u8, KEY_BYTES>;

/// The bytes of a value, at most `VALUE_BYTES`.
pub type ValueBytes = ArrayVec<u8, VALUE_BYTES>;

/// What a map is: a hash map, or an array, whose keys are the indices below `entries` and whose elements are
/// there from the start and for good.
#[derive(Clone, Copy, Debug, PartialEq, Eq)]
pub enum MapKind {
    Hash,
    Array,
}

/// The bytes of an array's key: its index, the lowest byte first.
pub const INDEX_BYTES: usize = 4;

/// The shape of a map: its kind, key and value lengths in bytes (1 to `KEY_BYTES`, 1 to `VALUE_BYTES`), the most
/// linked elements (1 to `MAX_ENTRIES`), the further map slots for elements that wait for reclamation (0 to
/// `MAX_SPARE`), and how often a map slot may be used (1 to `MAX_REUSE`). An array has keys of `INDEX_BYTES`, no
/// further map slots, and uses each once.
#[derive(Clone, Copy, Debug, PartialEq, Eq)]
pub struct MapShape {
    pub kind: MapKind,
    pub key_len: usize,
    pub value_len: usize,
    pub entries: usize,
    pub spare: usize,
    pub reuse_limit: u32,
}
