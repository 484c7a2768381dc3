//! Why bytes are no program.

ghost use Rattle.std.specs.Prelude.{◌≡◌};
ghost use Rattle.insn_codec.specs.Faults.{decode_fault_number, decode_fault_slot};
ghost use Rattle.insn_codec.specs.declared.fault.DecodeFault.TheVariants.{Memory};

use crate::flaw::InsnFlaw;
use std::alloc::{AllocError, AllocFailed};
use thiserror::Error;

/// The first thing that is wrong with the bytes, or that memory ran out.
#[derive(Clone, Copy, Debug, PartialEq, Eq, Drop, Error)]
pub enum DecodeFault {
    /// The length is not a multiple of 8.
    #[error("the length is not a multiple of 8")]
    Length,
    /// There are no bytes.
    #[error("there is no instruction")]
    Empty,
    /// There are more than `MAX_SLOTS` slots of 8 bytes.
    #[error("there are more than 4096 slots")]
    TooLong,
    /// An instruction is flawed; the slot is the one where it begins.
    #[error("{flaw} at slot {slot}")]
    Insn { flaw: InsnFlaw, slot: usize },
    /// An allocation failed.
    #[error("out of memory")]
    Memory,
}

impl DecodeFault {
    /// The number by which the fault is known, 1 to 13.
    pub fn code(&self) -> u8
        ensures { result ≡ decode_fault_number self.now }
    {
        match self {
            DecodeFault::Length => 1,
            DecodeFault::Empty => 2,
            DecodeFault::TooLong => 3,
            DecodeFault::Insn { flaw, .. } => flaw.code(),
            DecodeFault::Memory => 13,
        }
    }

    /// The slot where the flawed instruction begins, counted from 0, where the fault is of one instruction.
    pub fn slot(&self) -> Option<usize>
        ensures { result ≡ decode_fault_slot self.now }
    {
        match self {
            DecodeFault::Insn { slot, .. } => Some(*slot),
            _ => None,
        }
    }
}

impl From<AllocError> for DecodeFault {
    ghost from_gives = { λ _ e. e ≡ Memory };

    fn from(_e: AllocError) -> DecodeFault {
        DecodeFault::Memory
    }
}

impl<T: Drop> From<AllocFailed<T>> for DecodeFault {
    ghost from_gives = { λ _ e. e ≡ Memory };

    fn from(_e: AllocFailed<T>) -> DecodeFault {
        DecodeFault::Memory
    }
}
