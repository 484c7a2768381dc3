//! The commands of the program `bpfrt`: which one words ask for, and what each reads, writes and answers.
#![tactic(auto)]

mod asm_text;
mod check;
mod contexts;
mod dispatch;
mod dump;
mod filter;
mod json;
mod meanings;
mod pool;
mod prefixes;
mod puts;
mod refusal;
mod report;
mod run_words;
mod script;
mod single;
mod source_text;
mod streams;

pub use command_words::{BpfrtCommand, InputFile, WordsFault, parse_words};
pub use dispatch::run;
pub use program_files::{HEADING, TEXT_BYTES, read_text};
pub use report::no_command;
pub use streams::read_failed;
