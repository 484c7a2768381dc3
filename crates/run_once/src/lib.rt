//! One run of a verified program, in a world of its own, and its steps in words for people. No clause says that what stands below
//! the line of a step is right.
#![tactic(auto)]

mod calls;
mod changes;
mod once;
mod tracing;
mod words;

pub use machine::Ended;
pub use once::{Ran, RunEnd, run_once};
