//! The maps of a world, hash maps and arrays: elements by key, each in a map slot.
//!
//! The elements that a hash map unlinks are reclaimed after a grace period; those of an array stay.
//! `MapTable` is what both kinds answer and do. `HashMap` stands on any index. `Map` is the one that the runtime
//! takes, of either kind.
#![tactic(auto)]

mod admission;
mod array_map;
mod counts;
mod hash_map;
mod index_key;
mod map;
mod map_table;
mod parts;

pub use array_map::ArrayMap;
pub use counts::Counts;
pub use hash_map::HashMap;
pub use map::Map;
pub use map_table::MapTable;
