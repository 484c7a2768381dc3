//! What a world answers to lists of events, and how long its answers take.
#![tactic(auto)]

mod activity;
mod batch_time;
mod crew;
mod dumps;
mod jobs;
mod measure;
mod programs;
mod repeats;
mod scripts;
mod sequence;
mod setup;
mod subjects;
mod tally;

pub use activity::{Activity, activities};
pub use batch_time::{BATCHES, BatchTime, LEAST_MILLIS, LONG_TASK_BATCHES};
pub use programs::program_of;
pub use repeats::{Outcome, answers_of, repeat};
pub use subjects::{Subject, times_of};
pub use tally::Tally;
