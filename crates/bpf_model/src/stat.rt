//! The counts that a world tells of itself.

/// How many elements are linked and how many are unlinked and not yet reclaimed, over all maps; how many
/// were reclaimed since the world began (`given`); how many map slots are worn out; how many run slots are
/// occupied (`runs`); and how many runs are inside a section (`open`).
#[derive(Clone, Copy, Debug, PartialEq, Eq)]
pub struct Stat {
    pub linked: usize,
    pub unlinked: usize,
    pub given: usize,
    pub worn: usize,
    pub runs: usize,
    pub open: usize,
}
