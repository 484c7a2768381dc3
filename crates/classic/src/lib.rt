//! Classic BPF (McCanne and Jacobson, *The BSD Packet Filter*, USENIX Winter 1993; Linux,
//! *networking/filter.rst*): tcpdump's filters and seccomp's policies, translated.
#![tactic(auto)]

mod blocks;
mod emitting;
mod fault;
mod knowing;
mod layout;
mod notes;
mod slots;
mod sound;
mod translating;

pub use classic_program::{
    ClassicFault, ClassicInsn, ClassicProgram, ClassicReg, Data, Datum, LoadSize, PACKET_BYTES,
    PACKET_CONTEXT, ReadFault, SockFilter, check, read_filter_array, read_listing,
};
pub use fault::TranslateFault;
pub use translating::translate;
