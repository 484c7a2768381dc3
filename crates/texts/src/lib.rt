//! Texts that people write. Assembly below the head of a file, and classic programs: what becomes a program file, or why it becomes
//! none, also in words. Scripts: why a line is refused or no command, in words. No clause says of words for people that they are
//! right.
#![tactic(auto)]

mod assembly;
mod explain;
mod explaining;
mod heads;
mod naming;
mod other_names;
mod refused_line;
mod translation;
mod window;
mod wrong_command;
mod wrong_filter;
mod wrong_text;

pub use assembly::{Assembled, TextFault, assemble_text};
pub use explaining::Explaining;
pub use heads::{Split, has_head, parts_of};
pub use refused_line::{write_length, write_names};
pub use translation::{FilterFault, FilterFile, make_file};
pub use wrong_command::has_prefix;
pub use wrong_filter::explain_filter;
pub use wrong_text::{explain_text, write_source_line};
