//! Why a file is not loaded.
ghost use Rattle.std.specs.Prelude.{◌≡◌};
ghost use Rattle.program_files.specs.ProgramFile.{load_fault_number, load_fault_line};
ghost use Rattle.program_files.specs.declared.loader.fault.LoadFault.TheVariants.{Memory};
ghost use Rattle.program_files.specs.declared.loader.fault.LineFault.TheVariants.{Memory as LineMemory};

use std::alloc::AllocError;
use thiserror::Error;

/// Why a file is not loaded.
#[derive(Clone, Copy, Debug, PartialEq, Eq, Error)]
pub enum LoadFault {
    /// The first line that is wrong, counted from 1; the one behind the last where the file ends too early.
    #[error("line {line} of the program file is wrong")]
    BadFile { line: usize },
    /// An allocation failed.
    #[error("out of memory")]
    Memory,
}

impl LoadFault {
    /// The number by which the fault is known: 94, or 13 for want of memory.
    pub fn code(self) -> u8
        ensures { result ≡ load_fault_number self }
    {
        match self {
            LoadFault::BadFile { .. } => 94,
            LoadFault::Memory => 13,
        }
    }

    /// The line, counted from 1, where the fault is of one.
    pub fn line(self) -> Option<usize>
        ensures { result ≡ load_fault_line self }
    {
        match self {
            LoadFault::BadFile { line } => Some(line),
            LoadFault::Memory => None,
        }
    }
}

impl From<AllocError> for LoadFault {
    ghost from_gives = { λ _ e. e ≡ Memory };

    fn from(_: AllocError) -> LoadFault {
        LoadFault::Memory
    }
}

/// Why a line is not taken.
#[derive(Clone, Copy, Debug, PartialEq, Eq)]
pub enum LineFault {
    /// No program file has this line there.
    Wrong,
    /// An allocation failed.
    Memory,
}

impl From<AllocError> for LineFault {
    ghost from_gives = { λ _ e. e ≡ LineMemory };

    fn from(_: AllocError) -> LineFault {
        LineFault::Memory
    }
}
