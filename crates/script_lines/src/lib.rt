//! Scripts line by line: what a line says, and how an answer is written.
//!
//! [`parse_line`] reads a line as a [`ScriptCommand`], and [`write_reply`] writes a [`Reply`]. `specs/Lines.antt` and
//! `specs/Grammar.antt` have the forms of lines, `specs/ReplyText.antt` the texts of answers.
#![tactic(auto)]

mod bytes;
mod code;
mod command;
mod grammar;
mod law;
mod name;
mod names;
mod number;
mod reply;
mod reply_text;
mod verb;
mod words;

pub use bytes::Bytes;
pub use code::Code;
pub use command::{BadLine, ScriptCommand, ShapeNumbers};
pub use grammar::{MAX_COUNT, parse_line};
pub use law::{bytes_are_read_again, number_has_one_text, number_is_read_again};
pub use name::Name;
pub use names::Names;
pub use number::number_of;
pub use reply::Reply;
pub use reply_text::write_reply;
