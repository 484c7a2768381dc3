//! A table of words, as large as people need, that readers look keys up in with no lock, beside one writer.
//!
//! Each reader has a seat. In a section of its own it learns which elements the ways of a key's two buckets name, and reads
//! and writes the words of those. The writer links elements, replaces and unlinks them, and fills one anew only once each
//! reader has left its section since.
#![tactic(auto)]

mod by_key;
mod lookup;
mod meeting;
mod moving;
mod reading;
mod seats;
mod setup;
mod sightings;
mod table;
mod writer;
mod writing;

pub use moving::Room;
pub use seats::Seats;
pub use table::{MapTable, ReadSeat};
pub use table_words::{
    BUCKET_WAYS, Law, MAX_BUCKETS, MAX_ELEMENTS, MAX_READERS, MAX_WORDS, Secret, TableShape,
    Values, View,
};
pub use writer::Writer;
