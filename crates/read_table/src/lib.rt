//! A table of words that readers look things up in with no lock, beside one writer.
//!
//! Each reader has a seat. In a section of its own it learns which slots are linked, and reads and writes the words of
//! those. The writer links slots under keys, unlinks them, and takes a slot again only once it has seen each reader
//! outside a section since.
#![tactic(auto)]

mod by_key;
mod limits;
mod lookup;
mod rule;
mod run_laws;
mod running;
mod seats;
mod setup;
mod sightings;
mod table;
mod view;
mod words;
mod writer;
mod writing;

pub use limits::{MAX_READERS, MAX_TABLE_BYTES, MAX_TABLE_SLOTS, WORD_BYTES};
pub use rule::{
    Changes, Closes, Deals, Law, Learns, Loads, Opens, Scans, Stores, held_slots_stay,
    linked_keys_are_found, linked_slots_keep_their_keys, loads_find_what_was_stored,
    spare_slots_are_unlearnt,
};
pub use run_laws::{
    moves_below_length, shared_lookups_find_keys, shared_run_asks, shared_run_exits,
    shared_run_goes_on, shared_run_moves, shared_run_stands, shared_run_starts,
};
pub use seats::Seats;
pub use shared_runs::{SubWord, uses_sub_words};
pub use table::{ReadSeat, ReadTable};
pub use view::{Move, TableShape, View};
pub use writer::Writer;
