//! Program files: read in bounded memory, decoded, verified with their maps and their context, and disassembled; the
//! verdict on each that is refused; and written. What bytes or a line look like that are none, in words: no clause says that these
//! are right.
#![tactic(auto)]

mod contexts;
mod file_check;
mod head;
mod likeness;
mod loader;
mod program_file;
mod refused;
mod verdict;
mod verified_file;
mod writer;
mod wrong_line;

pub use crate::loader::{HEADING, LoadFault, ProgramFile, load};
pub use contexts::{ContextsFault, contexts_in_lines, packed_contexts};
pub use file_check::{Accepted, check, check_source, text_of};
pub use head::{Head, read_head};
pub use likeness::{
    Likeness, are_hexadecimal, has_slots, is_slot, likeness_of, write_likeness, write_looks,
};
pub use program_file::{FileBytes, Source, TEXT_BYTES, read_file, read_text};
pub use refused::{RefusedFile, RefusedProgram};
pub use verdict::Verdict;
pub use verified_file::{VerifiedSource, shapes_of, verify_for_maps, verify_source};
pub use writer::{load_undoes_write, write_file};
pub use wrong_line::{write_line, write_quoted, write_wrong_line};
