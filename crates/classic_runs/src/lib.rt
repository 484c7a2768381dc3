//! Classic filters of packets, run as they stand (McCanne and Jacobson, *The BSD Packet Filter*, USENIX Winter 1993,
//! section 3), without a translation and without a copy of the packet.
//!
//! A filter is made ready once: what an instruction does is told by one tag. A run takes a load and the tests behind it in one turn.
//! It returns what the classic machine returns, takes no memory and cannot fail.
//!
//! Behind a test that fails a run looks for another. So a test's two ways are two pieces of code, and a processor guesses the way.
//! Where the next place is chosen without a branch, it waits for the packet's bytes, and many filters take twice as long.
#![tactic(auto)]

mod action;
mod filter;
mod loads;
mod making;
mod operating;
mod performing;
mod turn;

pub use filter::PacketFilter;
