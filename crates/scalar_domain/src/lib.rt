//! Sets of 64-bit numbers, for the verifier: bounds and known bits, with every operation of the
//! machine.
//!
//! `specs/Scalar.antt` says when a scalar holds a number. Each operation is sound: what it returns
//! holds every result of the operation of numbers that its arguments hold.
#![tactic(auto)]

mod apply;
mod bitwise;
mod inhabited;
mod known;
mod moves;
mod refine;
mod relation;
mod scalar;
mod sums;

pub use refine::JumpEdges;
pub use scalar::Scalar;
