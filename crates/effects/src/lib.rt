//! What each instruction makes of what is known before it, or the first test that it fails.
//!
//! - Numbers, and references that are moved by numbers of which bounds are known.
//! - Loads and stores: of the context, of the values of elements, and of the frame, where references
//!   are spilled and filled.
//! - Calls, and tests for null of what they answer.
//! - Jumps, with a condition or without, and the exit.
//!
//! Each function of this crate that does not refuse leads from each described run to a described
//! one, in the words of `plan_laws` (`Transfers`), whatever other runs do.
#![tactic(auto)]

mod arguments;
mod arithmetic;
mod calls;
mod environment;
mod exits;
mod forks;
mod kinds;
mod loads;
mod moving;
mod nulls;
mod offset;
mod reads;
mod region;
mod stores;

pub use arithmetic::{alu, load_map, load_number, unary};
pub use calls::call;
pub use environment::EnvironmentShape;
pub use exits::{exit, jump_long_transfers, jump_transfers};
pub use forks::{Taken, fork, value_forks};
pub use loads::{load, load_signed};
pub use nulls::fork_null;
pub use region::{Address, Region};
pub use stores::store;
