//! The values of the abstract machine. The runtime itself keeps untyped words; these are what contracts
//! speak of, and what the reference model computes with.

/// A reference: to the context, the frame or an element, at an offset in bytes from the start of its
/// region, or to a map. An element is named by its birth number, a map by its index in the program's list.
#[derive(Clone, Copy, Debug, PartialEq, Eq)]
pub enum Reference {
    Ctx(i64),
    Frame(i64),
    MapRef(usize),
    Elem(usize, i64),
}

/// What a register holds: nothing, a number, or a reference.
#[derive(Clone, Copy, Debug, PartialEq, Eq)]
pub enum Value {
    Nothing,
    Number(u64),
    Pointer(Reference),
}

/// What a byte of the stack frame holds: nothing, a byte, or part 0 to 7 of a reference.
#[derive(Clone, Copy, Debug, PartialEq, Eq)]
pub enum Cell {
    Unwritten,
    Byte(u8),
    Part(u8, Reference),
}
