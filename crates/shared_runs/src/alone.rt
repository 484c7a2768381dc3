//! Runs of programs that name no map, by themselves, whatever maps they were verified for.
//!
//! Such a run asks no world: it enters and leaves sections, and there is nothing else for it to share. No
//! step fails or takes memory, and what the run comes to does not depend on other actors.

mod driver;
mod step;

pub use driver::{run_in, run_over, run_to_exit};
pub use machine::Ended;
pub use step::{has_no_maps, start_alone, step_alone};
