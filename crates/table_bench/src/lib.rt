//! How long calls on a table without a lock take, in threads and beside its writer.
#![tactic(auto)]

mod apart;
mod crew;
mod jobs;
mod key_tables;
mod map_stage;
mod measure;
mod measured;
mod reader;
mod runner;
mod stage;
mod task;
mod work;

pub use jobs::{JOBS, time_of_job_batch};
pub use measure::{ALONE, Company, Crew, FOUR, FOUR_APART, count_task, repeat};
pub use task::{Kind, Task, tasks};
