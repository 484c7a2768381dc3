//! The maps of a world: their registry, with a name for each, and what a new one is refused for.
#![tactic(auto)]

mod copying;
mod fault;
mod name;
mod registry;
mod shape;

pub use fault::MapFault;
pub use map_kinds::{ArrayMap, Counts, HashMap, Map, MapTable};
pub use name::{NAME_BYTES, is_name};
pub use registry::Registry;
pub use shape::is_shape;
