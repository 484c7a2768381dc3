//! Runs that are served from a table which many share, with no lock.
//!
//! What such a run is, and how far it comes by what its seat does, is said and proved here of any table (`specs/Tables`):
//! of one where readers look keys up in sections of their own, and use the elements that they hold there. `run_over` makes
//! such a run over whatever serves runs. Runs that ask no table stand in `alone`, those over a `MapTable` in `maps`.
#![tactic(auto)]

pub mod alone;
mod lengths;
pub mod maps;
mod naming;
mod parts;
mod running;
mod runs_programs;
mod serves_runs;
mod sub_words;

pub use lengths::has_lengths;
pub use machine::Workspace;
pub use running::{run_in, run_over};
pub use runs_programs::RunsPrograms;
pub use serves_runs::ServesRuns;
pub use sub_words::{SubWord, stores_sub_words, uses_sub_words};
