//! Why a classic program is not translated.
ghost use Rattle.std.specs.Prelude.{◌≡◌};
ghost use Rattle.classic.specs.Faults.{translate_fault_number, translate_fault_instruction};
ghost use Rattle.classic.specs.declared.fault.TranslateFault.TheVariants as translate;

use std::alloc::AllocError;
use thiserror::Error;

/// Why a program is not translated, or that memory ran out. Instructions are counted from 0, as `tcpdump -d`
/// counts them.
#[derive(Clone, Copy, Debug, PartialEq, Eq, Drop, Error)]
pub enum TranslateFault {
    /// The constant offset of a load, alone or added to X, leads past the 248 bytes that a packet's context holds.
    #[error("instruction {0} loads past the 248 bytes of a packet's window")]
    OutsideWindow(usize),
    /// The translation takes more than `MAX_SLOTS` slots.
    #[error("the translation takes more than 4096 slots")]
    TooManySlots,
    /// An allocation failed.
    #[error("out of memory")]
    Memory,
}

impl TranslateFault {
    /// The number by which the fault is known: 13, 112 or 113.
    pub fn code(&self) -> u8
        ensures { result ≡ translate_fault_number self.now }
    {
        match self {
            TranslateFault::OutsideWindow(_) => 112,
            TranslateFault::TooManySlots => 113,
            TranslateFault::Memory => 13,
        }
    }

    /// The instruction that is at fault, counted from 0; `None` where the fault is of no one instruction.
    pub fn instruction(&self) -> Option<usize>
        ensures { result ≡ translate_fault_instruction self.now }
    {
        match self {
            TranslateFault::OutsideWindow(index) => Some(*index),
            _ => None,
        }
    }
}

impl From<AllocError> for TranslateFault {
    ghost from_gives = { λ _ e. e ≡ translate.Memory };

    fn from(_e: AllocError) -> TranslateFault {
        TranslateFault::Memory
    }
}
