//! Where a token stands.

/// What the last word of an instruction may name.
#[derive(Clone, Copy, Debug, PartialEq, Eq, Drop)]
pub(crate) enum Role {
    /// A label, in a jump.
    Jump,
    /// A map, in `ldmap`.
    LoadMap,
    /// A constant alone.
    Plain,
}

/// Where an instruction stands in its source.
#[derive(Clone, Copy, Debug, PartialEq, Eq, Drop)]
pub(crate) struct Site {
    /// What its last word may name.
    pub role: Role,
    /// Its line, counted from 1.
    pub line: usize,
    /// How many slots stand before it.
    pub slot: u128,
}
