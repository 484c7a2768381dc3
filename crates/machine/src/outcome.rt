//! How far a run has come, and why no further.

/// How many moves a run has made, and why no further one.
#[derive(Clone, Copy, Debug, PartialEq, Eq)]
pub struct Walk<End> {
    pub moved: usize,
    pub end: End,
}

/// The same, with the index of the instruction to which the moves led.
#[derive(Clone, Copy, Debug, PartialEq, Eq)]
pub struct Halt<End> {
    pub moved: usize,
    pub index: usize,
    pub end: End,
}

/// How a run has ended: its exit value, and how many steps it made, the exit among them.
#[derive(Clone, Copy, Debug, PartialEq, Eq)]
pub struct Ended {
    pub value: u64,
    pub steps: usize,
}
