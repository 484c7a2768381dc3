//! Arithmetic on 64-bit words (RFC 9669, sections 4.1 to 4.3 and 5.2): total functions, without
//! memory.
//!
//! The contract of each function is a definition of `bpf_model`'s `specs/Arithmetic.antt`.
#![tactic(auto)]

mod comparison;
mod one_word;
mod operate;

pub use comparison::{compare, compare32, compare64};
pub use one_word::{byte_swap, immediate, load_signed, move_signed, negate, unary};
pub use operate::{alu, alu32, alu64};
