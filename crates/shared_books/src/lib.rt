//! The books of a world that many workers act on: a base, the journal since, the world now, and what is counted.
//!
//! Each entry is one event, made by a worker with a share of a ledger that counts entries, so the shares add up to all
//! entries. The journal replays from the base. No method waits: the lock is another crate's (`shared`).
#![tactic(auto)]

mod books;
mod fault;
mod law;
mod tally;
mod worker;

pub use books::{Books, Finished, is_quiet};
pub use fault::{CutFault, LoadFault, SharedFault};
pub use law::{
    counts_push, empty_replays, reaction_fits, reclaimed_at_most_unlinked, replays_as_machine,
    replays_on_machine, replays_push, replays_to_world, run_all_replays, shares_add_up,
    stat_is_machines, totals_are_machines, totals_grow,
};
pub use tally::{Origin, Tally, Totals};
pub use worker::{MAX_WORKERS, Worker, Workers, merged, new_workers};
