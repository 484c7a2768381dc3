//! Runs of verified programs on untyped 64-bit words, in a world of maps.
//!
//! A `Run` keeps words and bytes, and no kinds. Each step takes constant time and no memory, and cannot
//! fail. What a step does to the run is an equation on the world's view of it. Where an instruction needs
//! more than the run itself, the step answers with a request, and `resume` goes on with the reply. A `Course` is
//! the same for a caller that steps a run in a loop of its own, with a `Workspace` beside it.
#![tactic(auto)]

mod act;
mod argument;
mod compute;
mod control;
mod course;
mod law;
mod memory;
mod outcome;
mod regions;
mod registers;
mod request;
mod resume;
mod run;
mod step;
mod transfer;
mod walk;
mod workspace;

pub use course::Course;
pub use law::{
    delete_may_find_nothing, own_step_is_the_worlds, reacts_by_insn, running_can_step,
    running_stands, served_as_asked, update_may_succeed,
};
pub use outcome::{Ended, Halt, Walk};
pub use regions::{CTX_BASE, FRAME_BASE, MAP_BASE, SLOT_BASE, SPAN};
pub use request::{Local, Next, Request};
pub use run::Run;
pub use walk::WalkEnd;
pub use workspace::Workspace;
