//! The slots of a map, the lists of its unlinked ones, and the sections that a grace period waits for.
//!
//! Each slot has a key, a value, a count of uses, a link and a generation. Everything is allocated when an
//! arena is made. Keys and values lie in two arrays of bytes, each slot's at its own multiple of their
//! length, so they are compared, read and written where they lie. The free slots are threaded through the
//! links. The link of a taken slot is its user's: an index threads its chains through it, and `DeferredSlots` its
//! lists.
//!
//! `block` and the functions beside it serve any array of byte strings of one length.
#![tactic(auto)]

mod arena;
mod blocks;
mod cell;
mod deferred;
mod grace;
mod make;
mod run_set;

pub use arena::{Arena, Stale, Tag};
pub use blocks::{block, write_block, write_inside, zero_blocks};
pub use cell::last_after;
pub use deferred::DeferredSlots;
pub use grace::Grace;
