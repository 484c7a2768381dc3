//! Tables as a host opens them: one writer, and a reader for each thread, which runs open programs with no lock beside it.
//!
//! A program is lent for one run, so a host replaces it by lending another from the next run on. What the table holds stays.
//! Opening a table takes all memory that it ever has; no other call takes any.
#![tactic(auto)]

mod copying;
mod fault;
mod reader;
mod table;
mod walking;
mod writing;

pub use copying::copied_keys_are_found;
pub use fault::{How, SetFault, TableFault, TableRunFault};
pub use map_table::{
    MAX_BUCKETS, MAX_ELEMENTS, MAX_READERS, MAX_WORDS, Secret, TableShape, Values,
};
pub use reader::HostReader;
pub use shared_runs::maps::MAX_RUN_ELEMENTS;
pub use table::{HostTable, is_sized};
pub use walking::{walks_meet_each_key_once, walks_meet_each_once};
