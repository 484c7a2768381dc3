//! Scripts: commands that make maps and programs, and then drive a world, line by line.
//!
//! Maps and programs are made first. The first command that is neither `map` nor `load` makes the world, and
//! later ones of these two are refused.
#![tactic(auto)]

mod asked;
mod dump;
mod faults;
mod live;
mod map_names;
mod refusal;
mod replies;
mod script;
mod session;
mod setup;
mod setup_commands;
mod shape;
mod steps;

pub use dump::write_elements;
pub use live::Live;
pub use refusal::LineRefusal;
pub use script::{run_script, watch_script};
pub use script_stream::ScriptFault;
pub use session::Session;
pub use setup::Setup;
