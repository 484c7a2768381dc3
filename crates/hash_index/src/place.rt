//! Where a key stands in an index.

/// Where the slot of a key stands in an index, or would. It is the place of that key for as long as the
/// index's own slots stay as they are.
#[derive(Clone, Copy)]
pub struct Place {
    /// The slot of the key, if there is one.
    pub slot: Option<usize>,
    /// The number of the key's chain, or the key's position among the slots.
    pub(crate) home: usize,
    /// The slot that is linked to that of the key; `None` where the key's is the first of its chain, or
    /// there is none.
    pub(crate) last: Option<usize>,
}
