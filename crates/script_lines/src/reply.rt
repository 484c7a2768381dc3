//! What a command may be answered.

use crate::name::Name;
use bpf_model::{Errno, Given, KeyBytes, MapId, ProgId, RunId, Stat, ValueBytes};

/// What a command is answered, each one line.
#[derive(Drop)]
pub enum Reply<'a> {
    /// `map N`: the number of a new map.
    Map(MapId),
    /// `prog N`: the number of a loaded program.
    Prog(ProgId),
    /// `ret R`: 0, or the error of an update or a delete as a negative number.
    Ret(Result<(), Errno>),
    /// `value BYTES`: what was read.
    Value(ValueBytes),
    /// `none`: a key without a value, or no element to reclaim.
    Nothing,
    /// `run N`: the run slot of a run that was started.
    Run(RunId),
    /// `moved`: a step that did not end the run.
    Moved,
    /// `exit V`: the value that a run ended with, unsigned.
    Exit(u64),
    /// `ok`: an advance or a drop was done.
    Done,
    /// `reaped NAME KEY free` or `reaped NAME KEY worn`: an element that was reclaimed.
    Reaped {
        map: Name<'a>,
        key: KeyBytes,
        given: Given,
    },
    /// `stat linked A unlinked B given C worn D runs E open F`.
    Stat(Stat),
    /// `KEY VALUE`: a line of a `dump`.
    Element {
        key: KeyBytes,
        value: ValueBytes,
    },
    /// `end`: the last line of a `dump`.
    End,
    /// `refused C`, or `refused C at S` where the refusal has a slot.
    Refused {
        code: u8,
        slot: Option<usize>,
    },
}
