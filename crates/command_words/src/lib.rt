//! Which command of the program `bpfrt` its words ask for, or why none; and its help.
#![tactic(auto)]

mod faults;
mod grammar;
mod help;
mod request;
mod table;
mod values;
mod words;

pub use faults::shown;
pub use request::{
    AsmForm, BpfrtCommand, Checking, ContextForm, ContextsFile, InputFile, MapElement, SingleRun,
    VERSION, WordsFault,
};
pub use words::parse_words;
