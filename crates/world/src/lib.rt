//! The runtime: maps, programs and runs, as one value that answers events one after another.
//!
//! Its answers are those of the abstract machine whose elements are never used again. No run of it is ever
//! stuck, each has exited after at most as many of its own steps as its program has instructions, and an element
//! is reclaimed only when each section that was open at its unlinking has ended.
#![tactic(auto)]

mod address;
mod apply;
mod asking;
mod binding;
mod calling;
mod element;
mod fault;
mod kept;
mod loading;
mod run_all;
mod section;
mod serving;
pub mod serving_laws;
mod stretch;
mod through;
mod world;

pub use fault::WorldFault;
pub use kept::Loaded;
pub use machine::Walk;
pub use stretch::Stop;
pub use world::World;
