//! Why a program file is refused, and what each refusal means, in words. No clause says that they are right.
#![tactic(auto)]

mod access;
mod alignment;
mod arithmetic;
mod bounds;
mod causes;
mod depths;
mod explanation;
mod lost;
mod meaning;
mod missing;
mod place;
mod reads;
mod slot_lines;
mod ways;

pub use causes::FUNCTIONS;
pub use explanation::{explain, explain_program, slot_shown, write_meaning};
pub use meaning::{Meaning, meaning_of, meaning_of_event};
