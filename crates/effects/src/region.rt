//! Regions and addresses.

use bpf_model::Reg;

/// What an instruction reaches; `None` where it is no load and no store.
#[derive(Clone, Copy, Debug, PartialEq, Eq)]
pub enum Region {
    None,
    Ctx,
    Frame,
    /// The value of an element of the map of this index in the program's list.
    Value(u32),
}

/// An address as an instruction gives it: an offset in bytes from what a register holds.
#[derive(Clone, Copy, Debug, PartialEq, Eq)]
pub struct Address {
    pub base: Reg,
    pub offset: i16,
}
