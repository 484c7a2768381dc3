//! What is known, before an instruction, of each register and of each byte of the frame: the kinds
//! of the verifier, with maps, elements, sections and spilled references; and the joining of two
//! such states. And the tests of an instruction: what of registers and of the frame may be read, and
//! why it may not.
//!
//! `specs/States` says which abstract state of `plan_laws` a value of this crate is;
//! `specs/Joined` what the kind of a joined register or byte is.
#![tactic(auto)]

mod arrays;
mod boxes;
mod change;
mod fault;
mod frame;
mod identities;
mod join;
mod kind;
mod learn;
mod reads;
mod registers;
mod state;

pub use arrays::is_array;
pub use boxes::Boxes;
pub use fault::InsnFault;
pub use frame::FrameCells;
pub use identities::{Identities, MAX_PAIRS};
pub use kind::{CellKind, RegKind};
pub use learn::Lesson;
pub use reads::{Content, check_bytes, read_frame};
pub use registers::{check_writable, frame_argument, held, map_argument, number_argument};
pub use state::{AbsState, ORIGIN};
