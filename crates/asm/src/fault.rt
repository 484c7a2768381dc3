//! Why a text is no program.
ghost use Rattle.std.specs.Prelude.{◌≡◌};
ghost use Rattle.asm.specs.Faults.{asm_fault_number, asm_fault_line};
ghost use Rattle.asm.specs.declared.fault.AsmFault.TheVariants.{Memory};

use std::alloc::{AllocError, AllocFailed};
use thiserror::Error;

/// What is wrong with a line.
#[derive(Clone, Copy, Debug, PartialEq, Eq)]
pub enum LineFlaw {
    /// The line has the form of no instruction.
    NoForm,
    /// The line has the form of an instruction, but something in it is out of its range.
    OutOfRange,
}

/// The first thing that is wrong with a text, or that memory ran out. Lines are counted from 1, those that
/// are left out too.
#[derive(Clone, Copy, Debug, PartialEq, Eq, Drop, Error)]
pub enum AsmFault {
    /// The line has the form of no instruction.
    #[error("line {0} is no instruction")]
    BadLine(usize),
    /// The line has the form of an instruction, but a register, a number, an offset or a width in it is
    /// out of its range.
    #[error("line {0} has a register or a number out of range")]
    BadOperand(usize),
    /// The instructions take more than `MAX_SLOTS` slots.
    #[error("there are more than 4096 slots")]
    TooLong,
    /// There is no instruction.
    #[error("there is no instruction")]
    Empty,
    /// An allocation failed.
    #[error("out of memory")]
    Memory,
}

impl AsmFault {
    /// The number by which the fault is known: 2, 3, or 13 to 15.
    pub fn code(&self) -> u8
        ensures { result ≡ asm_fault_number self.now }
    {
        match self {
            AsmFault::BadLine(_) => 14,
            AsmFault::BadOperand(_) => 15,
            AsmFault::TooLong => 3,
            AsmFault::Empty => 2,
            AsmFault::Memory => 13,
        }
    }

    /// The line that is at fault, counted from 1; `None` where the fault is of no one line.
    pub fn line(&self) -> Option<usize>
        ensures { result ≡ asm_fault_line self.now }
    {
        match self {
            AsmFault::BadLine(line) | AsmFault::BadOperand(line) => Some(*line),
            _ => None,
        }
    }
}

impl From<AllocError> for AsmFault {
    ghost from_gives = { λ _ e. e ≡ Memory };

    fn from(_e: AllocError) -> AsmFault {
        AsmFault::Memory
    }
}

impl<T: Drop> From<AllocFailed<T>> for AsmFault {
    ghost from_gives = { λ _ e. e ≡ Memory };

    fn from(_e: AllocFailed<T>) -> AsmFault {
        AsmFault::Memory
    }
}
