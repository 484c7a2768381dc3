//! Program files: a text with a program's context length, its maps and its slots, or the raw bytes of a
//! program.

mod fault;
mod line;
mod lines_read;
mod program_file;
mod words;

pub use fault::LoadFault;
pub use lines_read::Stage;
pub(crate) use program_file::first_line;
pub use program_file::{HEADING, ProgramFile, load, read_lines};
