//! Scripts as streams: the lines of a reader are answered one after another, and the answers written. An observer looks on.
//!
//! Memory is bounded: a line is at most `LINE_BYTES` bytes without its line feed, and what is answered is
//! written out before more is read. So a host that waits for an answer before it writes its next line has it,
//! and lines that come in one read cost one write, or more where their answers are long.
#![tactic(auto)]

mod fault;
mod input;
mod lines;
mod observer;
mod output;
mod progress;
mod respond;
mod stream;

pub use fault::{ScriptFault, stream_fault};
pub use input::read_some;
pub use observer::{Nobody, Observer};
pub use progress::LINE_BYTES;
pub use respond::{LineFault, Respond};
pub use stream::serve;
