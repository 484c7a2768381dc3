//! Why a script ends early.
ghost use Rattle.std.specs.Prelude.{◌≡◌, ◌⊎◌};

use std::alloc::{AllocError, AllocFailed};
use std::io;
use std::io::ErrorKind;
use thiserror::Error;

/// Why a script ends before its input does.
#[derive(Clone, Copy, Debug, PartialEq, Eq, Error)]
pub enum ScriptFault {
    /// A line is no command; lines are counted from 1.
    #[error("line {line} is no command")]
    BadCommand { line: u64 },
    /// The input can't be read.
    #[error("the input can't be read")]
    Read,
    /// The output can't be written.
    #[error("the output can't be written")]
    Write,
    /// An allocation failed.
    #[error("out of memory")]
    Memory,
}

impl ScriptFault {
    ghost use Rattle.script_stream.specs.Numbers.{script_fault_number};

    /// The number by which the fault is known: 95, 96, 97, or 13 for want of memory.
    pub fn code(self) -> u8
        ensures { result ≡ script_fault_number self }
    {
        match self {
            ScriptFault::BadCommand { .. } => 95,
            ScriptFault::Read => 96,
            ScriptFault::Write => 97,
            ScriptFault::Memory => 13,
        }
    }
}

/// The fault of a stream that failed: want of memory, or that of its side.
pub fn stream_fault(error: &io::Error, side: ScriptFault) -> ScriptFault
    ensures { (result ≡ side) ⊎ (result ≡ ScriptFault.Memory) }
{
    if error.kind() == ErrorKind::OutOfMemory {
        ScriptFault::Memory
    } else {
        side
    }
}

impl From<AllocError> for ScriptFault {
    ghost use Rattle.script_stream.specs.declared.fault.ScriptFault.TheVariants.{Memory};

    ghost from_gives = { λ _ e. e ≡ Memory };

    fn from(_: AllocError) -> ScriptFault {
        ScriptFault::Memory
    }
}

impl<T: Drop> From<AllocFailed<T>> for ScriptFault {
    ghost use Rattle.script_stream.specs.declared.fault.ScriptFault.TheVariants.{Memory};

    ghost from_gives = { λ _ e. e ≡ Memory };

    fn from(_: AllocFailed<T>) -> ScriptFault {
        ScriptFault::Memory
    }
}
