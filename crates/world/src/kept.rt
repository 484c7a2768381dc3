//! A world's maps, runs, grace period and programs, with every event.
//!
//! Each event is one method, which takes no memory and does not fail: what it answers and what it makes of
//! the world are one equation on the world's view.

mod asking;
mod brief;
mod by_number;
mod control;
mod copying;
mod flags;
mod loaded;
mod loading;
mod parts;
mod reclaim;
mod starting;
mod step;
mod walk;

pub(crate) use brief::Brief;
pub use loaded::Loaded;
pub use parts::Parts;
