//! A world that many workers act on, behind one lock.
//!
//! Each call of `act` is one event, with one entry in a journal that replays from a stored base; a call of
//! `run_for` is as many steps of one run, each with its entry. Each worker
//! has a share of a ledger that counts its entries, so the shares add up to all entries. Receipts say what a
//! call answered, stretches which moves were made, and counters are read without the lock. Who holds the lock may do several
//! things under it (`Held`).
#![tactic(auto)]

mod bound;
mod held;
mod lock;
mod meter;
mod state;

pub use bound::ProgramWithMaps;
pub use held::Held;
pub use lock::Shared;
pub use shared_books::{
    Books, CutFault, Finished, LoadFault, MAX_WORKERS, SharedFault, Totals, Worker, Workers,
    is_quiet,
};
pub use state::{Counters, ExitNote, Receipt, State, Stretch};
pub use world::{Stop, Walk};
