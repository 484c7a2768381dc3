//! Why a classic program is not read or not taken.
ghost use Rattle.std.specs.Prelude.{◌≡◌};
ghost use Rattle.classic_program.specs.Faults.{classic_fault_number, classic_fault_instruction};
ghost use Rattle.classic_program.specs.declared.fault.ClassicFault.TheVariants as check;
ghost use Rattle.classic_program.specs.declared.fault.ReadFault.TheVariants as read;
ghost use Rattle.classic_program.specs.ReadFaults.{read_fault_number, read_fault_line};

use std::alloc::AllocError;
use thiserror::Error;

/// Why a filter is not taken, or that memory ran out. Instructions are counted from 0, as `tcpdump -d` counts
/// them.
#[derive(Clone, Copy, Debug, PartialEq, Eq, Drop, Error)]
pub enum ClassicFault {
    /// There is no instruction.
    #[error("there is no instruction")]
    Empty,
    /// There are more than 4,096 instructions.
    #[error("there are more than 4096 instructions")]
    TooLong,
    /// The code stands for no instruction.
    #[error("instruction {0} has an unknown opcode")]
    UnknownOpcode(usize),
    /// Memory has the words 0 to 15.
    #[error("instruction {0} names a word of memory above 15")]
    BadWord(usize),
    /// A division or a modulo by the constant 0.
    #[error("instruction {0} divides by the constant 0")]
    DivisionByZero(usize),
    /// A shift by a constant above 31.
    #[error("instruction {0} shifts by a constant above 31")]
    BadShift(usize),
    /// A jump leads outside, or the last instruction is no return.
    #[error("instruction {0} leads outside the program")]
    BadJump(usize),
    /// Of a system call's data only aligned words below 64 are loaded.
    #[error("instruction {0} loads what seccomp has not")]
    NotOfSeccomp(usize),
    /// A word of memory may be read before it is written.
    #[error("instruction {0} may read a word of memory before it is written")]
    UnwrittenWord(usize),
    /// A policy has a remainder, which Linux refuses in one.
    #[error("instruction {0} is `mod`, which Linux refuses in a policy")]
    PolicyRemainder(usize),
    /// An allocation failed.
    #[error("out of memory")]
    Memory,
}

impl ClassicFault {
    /// The number by which the fault is known: 13, 103 to 111, or 114.
    pub fn code(&self) -> u8
        ensures { result ≡ classic_fault_number self.now }
    {
        match self {
            ClassicFault::Empty => 103,
            ClassicFault::TooLong => 104,
            ClassicFault::UnknownOpcode(_) => 105,
            ClassicFault::BadWord(_) => 106,
            ClassicFault::DivisionByZero(_) => 107,
            ClassicFault::BadShift(_) => 108,
            ClassicFault::BadJump(_) => 109,
            ClassicFault::NotOfSeccomp(_) => 110,
            ClassicFault::UnwrittenWord(_) => 111,
            ClassicFault::PolicyRemainder(_) => 114,
            ClassicFault::Memory => 13,
        }
    }

    /// The instruction that is at fault, counted from 0; `None` where the fault is of no one instruction.
    pub fn instruction(&self) -> Option<usize>
        ensures { result ≡ classic_fault_instruction self.now }
    {
        match self {
            ClassicFault::UnknownOpcode(index)
            | ClassicFault::BadWord(index)
            | ClassicFault::DivisionByZero(index)
            | ClassicFault::BadShift(index)
            | ClassicFault::BadJump(index)
            | ClassicFault::NotOfSeccomp(index)
            | ClassicFault::UnwrittenWord(index)
            | ClassicFault::PolicyRemainder(index) => Some(*index),
            _ => None,
        }
    }
}

impl From<AllocError> for ClassicFault {
    ghost from_gives = { λ _ e. e ≡ check.Memory };

    fn from(_e: AllocError) -> ClassicFault {
        ClassicFault::Memory
    }
}

/// Why a text or an array is no program, or that memory ran out.
#[derive(Clone, Copy, Debug, PartialEq, Eq, Drop, Error)]
pub enum ReadFault {
    /// The first line is not the number of the lines behind it.
    #[error("line 1 is not the number of the lines behind it")]
    BadCount,
    /// The line, counted from 1, is not `code jt jf k` in decimal, each in its range.
    #[error("line {0} is no instruction")]
    BadLine(usize),
    /// The bytes are no multiple of 8.
    #[error("the last instruction has fewer than 8 bytes")]
    CutRecord,
    /// An allocation failed.
    #[error("out of memory")]
    Memory,
}

impl ReadFault {
    /// The number by which the fault is known: 13, or 100 to 102.
    pub fn code(&self) -> u8
        ensures { result ≡ read_fault_number self.now }
    {
        match self {
            ReadFault::BadCount => 100,
            ReadFault::BadLine(_) => 101,
            ReadFault::CutRecord => 102,
            ReadFault::Memory => 13,
        }
    }

    /// The line that is at fault, counted from 1; `None` where the fault is of no line.
    pub fn line(&self) -> Option<usize>
        ensures { result ≡ read_fault_line self.now }
    {
        match self {
            ReadFault::BadCount => Some(1),
            ReadFault::BadLine(line) => Some(*line),
            _ => None,
        }
    }
}

impl From<AllocError> for ReadFault {
    ghost from_gives = { λ _ e. e ≡ read.Memory };

    fn from(_e: AllocError) -> ReadFault {
        ReadFault::Memory
    }
}
