//! Runs of verified programs over a `MapTable`, with no lock, beside its writer.
//!
//! Each map of the program is the table (`run_shared`), or is kept in it under a name (`run_named`). The outermost lock of a
//! run opens the section of its seat. A lookup looks at the ways of two buckets. A load or a store of a word of a value is
//! one step on one word of an element that was found.

mod key_words;
mod law;
mod named_map;
mod named_running;
mod running;

pub use crate::{SubWord, Workspace, stores_sub_words};
pub use law::names_keep_keys_apart;
pub use named_map::{NamedMap, key_in};
pub use named_running::{NamedRuns, fits_named, run_named, run_named_to_exit};
pub use running::{MAX_RUN_ELEMENTS, MapRuns, fits, run_in, run_shared, run_to_exit};
