//! An executable reference model of the whole machine: slow, and as near to the definitions as a program can be.
//!
//! It replays lists of events over many maps and runs, with the runtime's own choices: the rules of grace
//! periods, the order of reaping, and the map slot that a new element takes. Elements stand in one list that
//! only grows, and registers and frames hold values of a known kind.
//!
//! [`Machine::apply`] is proved to answer each event as the definitions say (`DoesScheduled`): its answer and
//! the new state are a step of the definitions' machine with the runtime's own choices, and it is stuck only
//! where that machine has no step. It tests at run time what a runtime would have proved beforehand: the
//! kinds of values, and that the grace period of an element has ended. Where a count or an offset would
//! leave 64 bits it gives up and says so.
//!
//! Elements, maps and lists are those of `reference_store`. [`step_slot`] is the step of one run: what it does by
//! itself, its accesses to elements, and its calls. It is proved to be a step of the definitions' machine of that
//! run (`RunStep`), and to be stuck only where it has none.
#![tactic(auto)]

mod access;
mod call;
mod grace;
mod machine;
mod run;
mod run_slots;
mod step;

pub use machine::Machine;
pub use run::{Loaded, Run};
pub use run_slots::{is_inside, lowest_free, open_flags, open_sections};
pub use step::step_slot;
