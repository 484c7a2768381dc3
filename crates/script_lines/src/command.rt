//! What a line may ask for.

use crate::bytes::Bytes;
use crate::code::Code;
use crate::name::Name;
use crate::names::Names;
use bpf_model::{CtxBytes, KeyBytes, MapKind, ValueBytes};
use thiserror::Error;

/// The kind of a map and the numbers of its shape, as a line gives them: any numbers of 64 bits. They are the
/// lengths of keys and values in bytes, the most linked elements, the further map slots for elements that wait for
/// reclamation, and how often a map slot may be used; which of them a map can have is told when it is created.
#[derive(Clone, Copy, Debug, PartialEq, Eq)]
pub struct ShapeNumbers {
    pub kind: MapKind,
    pub key_len: u64,
    pub value_len: u64,
    pub entries: u64,
    pub spare: u64,
    pub reuse_limit: u64,
}

/// What a line asks for. Names and a program's bytes are lent from the line; numbers are any below 2^64.
#[derive(Drop)]
pub enum ScriptCommand<'a> {
    /// `map NAME KEY VALUE ENTRIES SPARE REUSE`: a hash map is created; `map NAME array VALUE ENTRIES`: an array.
    Map {
        name: Name<'a>,
        shape: ShapeNumbers,
    },
    /// `load CTXLEN BYTES [NAME ..]`: a program is decoded, verified for contexts of that length, and bound
    /// to the maps of these names.
    Load {
        ctx_len: u64,
        code: Code<'a>,
        maps: Names<'a>,
    },
    /// `put NAME KEY VALUE FLAGS`: a value is stored under a key.
    Put {
        map: Name<'a>,
        key: Bytes<KeyBytes>,
        value: Bytes<ValueBytes>,
        flags: u64,
    },
    /// `get NAME KEY`: a key's value is read.
    Get {
        map: Name<'a>,
        key: Bytes<KeyBytes>,
    },
    /// `del NAME KEY`: a key is removed.
    Del {
        map: Name<'a>,
        key: Bytes<KeyBytes>,
    },
    /// `start PROG CTX`: a program is started on a context.
    Start {
        prog: u64,
        ctx: Bytes<CtxBytes>,
    },
    /// `step RUN [COUNT]`: a run takes at most `count` steps, 1 to `MAX_COUNT`; 1 where the line has none.
    Step {
        run: u64,
        count: u64,
    },
    /// `advance`: a grace period may end.
    Advance,
    /// `reap`: an element whose grace period has ended may be reclaimed.
    Reap,
    /// `drop RUN`: a run that has ended leaves its run slot.
    Drop {
        run: u64,
    },
    /// `stat`: what the world has is counted.
    Stat,
    /// `dump NAME`: the elements of a map are listed.
    Dump {
        map: Name<'a>,
    },
}

/// A line that is no command, no comment and not empty.
#[derive(Clone, Copy, Debug, PartialEq, Eq, Drop, Error)]
#[error("no command, no comment and not empty")]
pub struct BadLine;
