//! Programs as text, one instruction a line.
//!
//! A line is a [`Statement`]: a mnemonic with its arguments. `specs/Text.antt` says how each instruction
//! is written; docs/ASSEMBLY.md describes the language.
#![tactic(auto)]

mod mnemonic;
mod names;
mod statement;
mod writing;

pub use mnemonic::{MNEMONICS, Mnemonic};
pub use names::mnemonic_named;
pub use statement::{Argument, Arguments, Sign, Statement};
pub use writing::{disassemble, line_of};
