//! Why a world is not made, or a program not added to one.
ghost use Rattle.std.specs.Prelude.{◌≡◌};

use bpf_model::ProgId;
use thiserror::Error;

/// Why a world is not made, or a program not added to one.
#[derive(Clone, Copy, Debug, PartialEq, Eq, Error)]
pub enum WorldFault {
    /// There are more than `MAX_PROGRAMS` programs, or one more would be.
    #[error("more programs than a world may have")]
    TooManyPrograms,
    /// The first program whose maps are missing, have other shapes than it was verified for, or differ
    /// from those in number.
    #[error("program {} is not bound to maps of the shapes that it was verified for", .program.index())]
    Binding { program: ProgId },
    /// An allocation failed.
    #[error("out of memory")]
    Memory,
}

impl WorldFault {
    ghost use Rattle.world.specs.Numbers.{world_fault_number};

    /// The number by which the fault is known: 54, 55, or 13 for want of memory.
    pub fn code(self) -> u8
        ensures { result ≡ world_fault_number self }
    {
        match self {
            WorldFault::TooManyPrograms => 54,
            WorldFault::Binding { .. } => 55,
            WorldFault::Memory => 13,
        }
    }
}
