//! The step of an instruction over what is known before it, and instructions as runs read them: one record each, with what
//! the instruction does as one name, its own fields, and where it jumps.
#![tactic(auto)]

mod access;
mod action;
mod compute;
mod control;
mod flow;
mod naming;
mod record;
mod step;

pub use action::Action;
pub use effects::{EnvironmentShape, Region, Taken};
pub use flow::Flow;
pub use record::{ResolvedInsn, resolve_all};
pub use step::transfer;
