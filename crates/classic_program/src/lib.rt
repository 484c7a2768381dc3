//! Classic BPF programs (McCanne and Jacobson, *The BSD Packet Filter*, USENIX Winter 1993; Linux,
//! *networking/filter.rst*): read, decoded and checked.
#![tactic(auto)]

mod checking;
mod data;
mod decoding;
mod fault;
mod insn;
mod opcode;
mod paths;
mod program;
mod reading;
mod sock_filter;

pub use checking::check;
pub use data::{Data, PACKET_BYTES, PACKET_CONTEXT, SECCOMP_CONTEXT};
pub use fault::{ClassicFault, ReadFault};
pub use insn::{
    ClassicInsn, ClassicOp, ClassicOperand, ClassicReg, ClassicTest, Datum, LoadSize, MemoryWord,
};
pub use program::ClassicProgram;
pub use reading::{read_filter_array, read_listing};
pub use sock_filter::SockFilter;
