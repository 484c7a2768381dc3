//! The kinds of registers and of frame bytes.
ghost use Rattle.std.specs.Prelude.{◌≡◌, IsTrue};
ghost use Rattle.register_kinds.specs.States.{is_pointer};

use scalar_domain::Scalar;

/// What is known of a register. Offsets count from the start of the region; those of the context
/// and of a value are kept 2^29 higher, as numbers without sign.
#[derive(Clone, Copy, Debug, PartialEq, Eq)]
pub enum RegKind {
    /// On some path nothing was written.
    Unwritten,
    /// On some path a reference to an element, in a section that has ended.
    Ended,
    /// A value on every path, of kinds that have nothing in common.
    Mixed,
    /// One of these numbers.
    Num(Scalar),
    /// The context, at one of these offsets.
    Ctx(Scalar),
    /// The frame, at this offset.
    Frame(i32),
    /// The map of this index in the program's list.
    Map(u32),
    /// The value of an element of the map of this index, at one of these offsets.
    Value { map: u32, offset: Scalar },
    /// What a lookup in the map of this index gave: all that have one identity are null, or are one
    /// element.
    MaybeNull { map: u32, id: u32 },
}

/// What is known of a byte of the frame.
#[derive(Clone, Copy, Debug, PartialEq, Eq)]
pub enum CellKind {
    /// On some path nothing was written.
    Unwritten,
    /// On some path part of a reference to an element, in a section that has ended.
    Ended,
    /// Written on every path, but now a byte and now part of a reference, or parts of different
    /// kinds.
    Mixed,
    /// A byte of a number.
    Byte,
    /// Part of the reference that was stored at its eight bytes; which part, its offset tells.
    Part,
}

impl RegKind {
    /// Whether the other is the same. Two sets of numbers are compared first, since most registers hold numbers.
    #[inline(always)]
    pub(crate) fn is_same(&self, other: &RegKind) -> bool
        ensures same { IsTrue result → self.now ≡ other.now }
    {
        match self {
            RegKind::Num(numbers) => match other {
                RegKind::Num(others) => numbers == others,
                _ => false,
            },
            _ => self == other,
        }
    }

    /// Whether it is a reference, or null.
    pub fn is_pointer(&self) -> bool
        ensures { result ≡ is_pointer self.now }
    {
        match self {
            RegKind::Ctx(_)
            | RegKind::Frame(_)
            | RegKind::Map(_)
            | RegKind::Value { .. }
            | RegKind::MaybeNull { .. } => true,
            RegKind::Unwritten | RegKind::Ended | RegKind::Mixed | RegKind::Num(_) => false,
        }
    }
}
