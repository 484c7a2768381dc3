//! Why a call of a shared world did nothing.
ghost use Rattle.std.specs.Prelude.{◌≡◌};

use thiserror::Error;
use world::WorldFault;

/// Why an event was not applied.
#[derive(Clone, Copy, Debug, PartialEq, Eq, Error)]
pub enum SharedFault {
    #[error("the journal has no room for another entry")]
    JournalFull,
    #[error("out of memory")]
    Memory,
}

/// Why the journal was not cut.
#[derive(Clone, Copy, Debug, PartialEq, Eq, Error)]
pub enum CutFault {
    #[error("a run slot is occupied")]
    NotQuiet,
    #[error("out of memory")]
    Memory,
}

/// Why no program was added to a shared world.
#[derive(Clone, Copy, Debug, PartialEq, Eq, Error)]
pub enum LoadFault {
    #[error("a run slot is occupied")]
    NotQuiet,
    #[error("{0}")]
    World(WorldFault),
}

impl SharedFault {
    ghost use Rattle.shared_books.specs.Numbers.{shared_fault_number};

    /// The number by which the fault is known: 70, or 13 for want of memory.
    pub fn code(self) -> u8
        ensures { result ≡ shared_fault_number self }
    {
        match self {
            SharedFault::JournalFull => 70,
            SharedFault::Memory => 13,
        }
    }
}

impl CutFault {
    ghost use Rattle.shared_books.specs.Numbers.{cut_fault_number};

    /// The number by which the fault is known: 71, or 13 for want of memory.
    pub fn code(self) -> u8
        ensures { result ≡ cut_fault_number self }
    {
        match self {
            CutFault::NotQuiet => 71,
            CutFault::Memory => 13,
        }
    }
}

impl LoadFault {
    ghost use Rattle.shared_books.specs.Numbers.{load_fault_number};

    /// The number by which the fault is known: 71, or that of the world's.
    pub fn code(self) -> u8
        ensures { result ≡ load_fault_number self }
    {
        match self {
            LoadFault::NotQuiet => 71,
            LoadFault::World(fault) => fault.code(),
        }
    }
}
