//! Programs as bytes: the instruction encoding of RFC 9669, little-endian.
//!
//! `decode` and `encode` are inverse to each other: the bytes that a program was decoded from are its
//! encoding (`encode_undoes_decode`), and the encoding of a program decodes to that program
//! (`decode_undoes_encode`). Where the bytes are no program, `DecodeFault` tells the first thing that is
//! wrong, and its slot.
#![tactic(auto)]

mod decoding;
mod encoding;
mod fault;
mod flaw;
mod law;
mod opcode;
mod operation;
mod program;
mod reading;
mod slots;

pub use bpf_model::{
    AluOp, ByteOrder, CallKind, Condition, Insn, Operand, Reg, SignExtension, SignedWidth, Size,
    SwapWidth, UnaryOp, Width,
};
pub use decoding::decode;
pub use encoding::{encode, extension_parts};
pub use fault::DecodeFault;
pub use flaw::InsnFlaw;
pub use law::{decode_undoes_encode, encode_undoes_decode, no_fault, one_fault, one_program};
pub use program::Program;
pub use reading::extension_of;
