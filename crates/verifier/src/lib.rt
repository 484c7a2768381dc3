//! The verifier: it accepts a program only when no run of it can ever be stuck.
//!
//! The first pass judges the jump graph: where jumps lead, whether the last instruction is EXIT, and whether each
//! instruction is reached. The second goes through the instructions in order with an abstract state for each, joined
//! over all edges that lead to it.
#![tactic(auto)]

mod graph;
mod graph_flaw;
mod pass;
mod pending;
mod refusal;
mod verified;
mod waiting;

pub use graph::{falls, judge};
pub use graph_flaw::{GraphFlaw, GraphRefusal};
pub use refusal::ProgramRefusal;
pub use register_kinds::AbsState;
pub use verified::{Refused, Verified, verify, verify_or_return};
