//! A reference interpreter of the abstract machine: values of known kinds, tested at each step.
//!
//! It follows the definitions of `bpf_model` case by case, and is neither fast nor small. Its contract is
//! the definition itself: a run is stuck exactly where the definition has no step. It serves to compare
//! other machines with. The single steps and the reading of bytes are public for the model of the whole
//! machine, which adds elements and calls.
#![tactic(auto)]

mod memory;
mod plain_run;
mod step;
mod value;
mod whole;

pub use memory::{number_in, region_offset};
pub use plain_run::{MAX_PLACE, PlainRun, Progress};
pub use step::insn_at;
pub use value::number;
pub use whole::Ending;
