//! The journal: who asked what of the world, and what was answered, in order.
//!
//! Contracts see its entries as a plain list, how many it may have, and whether one more can be
//! added without memory.
#![tactic(auto)]

mod bytes;
mod fault;
mod finding;
mod journal;
mod making;
mod row;

pub use bpf_model::Entry;
pub use fault::JournalFault;
pub use journal::Journal;
