//! An entry of a journal.

use crate::event::{Answer, Event};

/// An event, the worker that asked it, and what it was answered.
#[derive(Debug, Drop)]
pub struct Entry {
    /// The number of the worker.
    pub worker: u8,
    pub event: Event,
    pub answer: Answer,
}
