//! The elements and the maps of the whole machine, kept slowly: elements in one list that only grows, those of
//! arrays at its start, lists searched from the front.
//!
//! Each call on a [`Store`] is proved to be the definitions' own: what a lookup finds, an update, a deletion, a
//! load, a store, a reclamation, the map slot that a new element takes. The births of unlinked elements wait in
//! each map's [`Queues`]. Grace periods are not known here: a reclamation is told the sections that are open.
#![tactic(auto)]

mod array_elements;
mod element;
mod fault;
mod map_state;
mod queues;
mod store;

pub use element::{Element, Life, Section};
pub use fault::{ModelFault, one_more};
pub use map_state::MapState;
pub use queues::{Queues, first_ready, retire_all, take_first, turn_all};
pub use store::Store;
