//! Programs out of text, one instruction a line.
//!
//! [`assemble`] reads what `disasm::disassemble` writes, and besides it empty lines and lines that begin
//! with `;`. `specs/Grammar.antt` has the forms of lines, `specs/Faults.antt` says which texts are
//! refused and how; docs/ASSEMBLY.md describes the language.
#![tactic(auto)]

mod argument;
mod assembling;
mod fault;
mod form;
mod insn;
mod law;
mod line;
mod numeral;
mod operand;
mod pieces;
mod statement;

pub use assembling::assemble;
pub use fault::AsmFault;
pub use law::one_fault;
