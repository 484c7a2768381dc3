//! Why a map is not created.
ghost use Rattle.std.specs.Prelude.{◌≡◌};

use std::alloc::{AllocError, AllocFailed};
use thiserror::Error;

/// Why a map is not created.
#[derive(Clone, Copy, Debug, PartialEq, Eq, Error)]
pub enum MapFault {
    /// The name is none that a map may have (`is_name`).
    #[error("not a name of a map")]
    BadName,
    /// A map of the registry has the name.
    #[error("a map has that name")]
    NameTaken,
    /// The shape is none that a map may have (`is_shape`).
    #[error("no map may have that shape")]
    BadShape,
    /// The registry has `MAX_MAPS` maps.
    #[error("there are as many maps as there may be")]
    TooMany,
    /// An allocation failed.
    #[error("out of memory")]
    Memory,
}

impl MapFault {
    ghost use Rattle.maps.specs.Registry.{map_fault_number};

    /// The number by which the fault is known: 50 to 53, or 13 for want of memory.
    pub fn code(self) -> u8
        ensures { result ≡ map_fault_number self }
    {
        match self {
            MapFault::BadName => 50,
            MapFault::NameTaken => 51,
            MapFault::BadShape => 52,
            MapFault::TooMany => 53,
            MapFault::Memory => 13,
        }
    }
}

impl From<AllocError> for MapFault {
    ghost use Rattle.maps.specs.declared.fault.MapFault.TheVariants.{Memory};

    ghost from_gives = { λ _ e. e ≡ Memory };

    fn from(_: AllocError) -> MapFault {
        MapFault::Memory
    }
}

impl<T: Drop> From<AllocFailed<T>> for MapFault {
    ghost use Rattle.maps.specs.declared.fault.MapFault.TheVariants.{Memory};

    ghost from_gives = { λ _ e. e ≡ Memory };

    fn from(_: AllocFailed<T>) -> MapFault {
        MapFault::Memory
    }
}
