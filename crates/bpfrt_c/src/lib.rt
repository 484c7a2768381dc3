//! The runtime for a host in C, or in what calls C, in the host's own process: `bpfrt.h` declares each function here.
//!
//! A handle is a struct of two words which the host owns, all zeros where it is closed. Each call tests what it is given, and
//! answers with 0 or more, or with a negative number of errno's; none has a `requires`. What the host owes, and nothing checks,
//! stands in `bpfrt.h` and in docs/EMBEDDING.md.
#![tactic(auto)]

mod asked;
mod copying;
mod keys;
mod making;
mod number;
mod opening;
mod reading;
mod refusal;
mod running;
mod shape;
mod tables;
mod through;
mod worlds;
