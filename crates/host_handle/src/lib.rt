//! What a host in C holds: a value behind a pointer, or nothing.
//!
//! The raw pointers under the library for C stand in `raw_box` alone.
#![tactic(auto)]

mod held;
mod host;
mod raw_box;

pub use held::Held;
pub use host::Host;
pub use raw_box::{Handle, RawBox};
