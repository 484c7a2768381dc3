//! What the verifier knows before each instruction, in words.
#![tactic(auto)]

mod frame;
mod known;
mod log;
mod numbered;
mod states;
mod watched;

pub use frame::write_group;
pub use known::write_kind;
pub use log::write_log;
pub use watched::{Passing, Watched, passings_of};
