//! Indexes of the taken slots of an arena by their keys.
//!
//! `Index` says what an index is: a finite map from keys to slots, read over the state of the arena in which
//! it stands. `Buckets` keeps the slots in chains that are threaded through the arena's links, by a hash of
//! the key; `Sorted` keeps them in a vector in the order of their keys.
#![tactic(auto)]

mod buckets;
mod chain;
mod commands;
mod hash;
mod index;
mod key_form;
mod keys;
mod place;
mod position;
mod sorted;

pub use buckets::Buckets;
pub use commands::{Command, run};
pub use index::Index;
pub use place::Place;
pub use sorted::Sorted;
