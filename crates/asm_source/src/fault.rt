//! Why a source has no plain text.
ghost use Rattle.std.specs.Prelude.{◌≡◌};
ghost use Rattle.asm_source.specs.Faulty.{fault_line};
ghost use Rattle.asm_source.specs.declared.fault.SourceFault.TheVariants.{Memory};

use std::alloc::{AllocError, AllocFailed};
use thiserror::Error;

/// The first thing that is wrong with the names of a source, or that memory ran out. Lines are counted from 1.
#[derive(Clone, Copy, Debug, PartialEq, Eq, Drop, Error)]
pub enum SourceFault {
    /// The line gives a meaning to what is no name, as a register, a number, a mark, nothing, or a word like `@x`.
    #[error("line {0}: a name begins with a letter, `_` or `.`, and is no register")]
    BadName(usize),
    /// The line gives a meaning to a name that has one by a line above it.
    #[error("line {0}: this name has a meaning by a line above")]
    NameTwice(usize),
    /// The line begins with `.equ`, and no name and number below 2^64 follow.
    #[error("line {0}: behind .equ stand a name and a number")]
    BadConstant(usize),
    /// The line jumps to a name that is no label.
    #[error("line {0}: no line has this label")]
    UnknownLabel(usize),
    /// The line loads a map by a name that no map has.
    #[error("line {0}: no map has this name")]
    UnknownMap(usize),
    /// An allocation failed.
    #[error("out of memory")]
    Memory,
}

impl SourceFault {
    /// The line that is at fault, counted from 1; `None` where memory ran out.
    pub fn line(&self) -> Option<usize>
        ensures { result ≡ fault_line self.now }
    {
        match self {
            SourceFault::BadName(line)
            | SourceFault::NameTwice(line)
            | SourceFault::BadConstant(line)
            | SourceFault::UnknownLabel(line)
            | SourceFault::UnknownMap(line) => Some(*line),
            SourceFault::Memory => None,
        }
    }
}

impl From<AllocError> for SourceFault {
    ghost from_gives = { λ _ e. e ≡ Memory };

    fn from(_e: AllocError) -> SourceFault {
        SourceFault::Memory
    }
}

impl<T: Drop> From<AllocFailed<T>> for SourceFault {
    ghost from_gives = { λ _ e. e ≡ Memory };

    fn from(_e: AllocFailed<T>) -> SourceFault {
        SourceFault::Memory
    }
}
