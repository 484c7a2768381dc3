//! People's assembly, rewritten line for line to the fixed language that `asm::assemble` reads.
//!
//! [`plain_of`] resolves labels, names of numbers and of maps, and hexadecimal numbers, and leaves out comments and what
//! blanks are too many. `specs/Plain.antt` says what the plain text of a source is; docs/ASSEMBLY.md describes the language.
#![tactic(auto)]

mod bindings;
mod fault;
mod head;
mod law;
mod line_ends;
mod lines;
mod maps;
mod names;
mod numbers;
mod places;
mod plain;
mod site;
mod source_names;
mod tokens;
mod words;

pub use fault::SourceFault;
pub use head::head_text;
pub use law::{fixed_stays, label_leads, line_has_place, lines_are_kept};
pub use line_ends::fed_text;
pub use maps::maps_of;
pub use names::{is_name, is_register};
pub use numbers::number_in;
pub use places::line_at;
pub use plain::plain_of;
pub use tokens::Tokens;
