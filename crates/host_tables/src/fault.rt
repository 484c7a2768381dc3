//! What is asked of a key that is set, and why a call does nothing.
ghost use Rattle.std.specs.Prelude.{◌≡◌};

use std::alloc::AllocError;
use thiserror::Error;

/// Which keys `HostTable::set` takes.
#[derive(Clone, Copy, Debug, PartialEq, Eq)]
pub enum How {
    /// Any key.
    Any,
    /// One that is not linked.
    New,
    /// One that is linked.
    Present,
}

/// Why no table is opened.
#[derive(Clone, Copy, Debug, PartialEq, Eq, Error)]
pub enum TableFault {
    /// The shape is beyond the limits of a table.
    #[error("no table may have this shape")]
    Shape,
    /// Memory ran out.
    #[error("out of memory")]
    Memory,
}

/// Why a key is not set.
#[derive(Clone, Copy, Debug, PartialEq, Eq, Error)]
pub enum SetFault {
    /// A new key was asked for, and it is linked.
    #[error("the key is linked")]
    Exists,
    /// A key that is linked was asked for, and it is not.
    #[error("the key is not linked")]
    Missing,
    /// No element is free, or only the last one for a new key: each other is linked, or waits for a reader.
    #[error("too few elements are free")]
    NoElement,
    /// Both buckets of the key are full, and no element of them can go to another.
    #[error("both buckets of the key are full")]
    NoWay,
    /// Both buckets of the key are full. An element of them could go to another, but a reader stayed in one section. A later
    /// call may succeed.
    #[error("a reader holds up the move that would make room")]
    Held,
}

/// Why a program is not run over a table.
#[derive(Clone, Copy, Debug, PartialEq, Eq, Error)]
pub enum TableRunFault {
    /// The context has another length than the program's.
    #[error("the context has another length than the program's")]
    Length,
    /// The program was verified for a map that is no hash map of the table's lengths, or the table has more elements than programs run
    /// over (`MAX_RUN_ELEMENTS`).
    #[error("the table is not the program's maps: their lengths differ, or it is too large")]
    Maps,
    /// The program stores to an element by another width than 8 bytes, or calls a helper that changes a map.
    #[error("the program stores less than a word, or changes a map")]
    SubWord,
}

impl From<AllocError> for TableFault {
    ghost use Rattle.host_tables.specs.declared.fault.TableFault.TheVariants.{Memory};

    ghost from_gives = { λ _ e. e ≡ Memory };

    fn from(_: AllocError) -> TableFault {
        TableFault::Memory
    }
}
