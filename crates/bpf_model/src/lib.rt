//! The plain types of the eBPF machine, and the definitions that every contract cites.
//!
//! The types are those of RFC 9669 (registers, instructions and what their opcode bytes say), and this
//! runtime's own: limits, values, events and their answers, entries of a journal. What they mean stands in
//! `specs/`, a module for each subject; docs/DEFINITIONS.md reads them in order.
#![tactic(auto)]

mod array;
mod call;
mod entry;
mod event;
mod id;
mod insn;
mod limits;
mod memory;
mod opcode;
mod reg;
mod slot;
mod stat;
mod value;

pub use array::array_of;
pub use call::{ArgumentKind, Errno, Helper, KernelFunction, ResultKind, ret_word};
pub use entry::Entry;
pub use event::{Answer, Event, EventRefusal, Given, ReapedElement, are_bytes, are_real};
pub use id::{MapId, ProgId, RunId};
pub use insn::{AluOp, CallKind, Insn, Operand, SignExtension, UnaryOp};
pub use limits::{
    CTX_BYTES, CtxBytes, FRAME_BYTES, INDEX_BYTES, KEY_BYTES, KeyBytes, MAX_DEPTH, MAX_ENTRIES,
    MAX_JOURNAL, MAX_MAPS, MAX_PROGRAMS, MAX_REUSE, MAX_RUNS, MAX_SLOTS, MAX_SPARE, MapKind,
    MapShape, NEAR_LIMIT, REGISTERS, VALUE_BYTES, ValueBytes,
};
pub use memory::{number_of, write_number};
pub use opcode::{
    AluCode, ByteOrder, Condition, Excluded, Opcode, SignedWidth, Size, Source, SwapWidth, Width,
};
pub use reg::Reg;
pub use slot::Slot;
pub use stat::Stat;
pub use value::{Cell, Reference, Value};
