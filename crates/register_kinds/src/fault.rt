//! Why an instruction is refused.
ghost use Rattle.std.specs.Prelude.{◌≡◌};

use std::alloc::{AllocError, AllocFailed};
use thiserror::Error;

/// Why an instruction is refused in a state.
#[derive(Clone, Copy, Debug, PartialEq, Eq, Error)]
pub enum InsnFault {
    #[error("a register is read that is not written on every path")]
    UnwrittenRegister,
    #[error("the frame pointer is written")]
    FramePointerWritten,
    #[error("a pointer or a map as a number, or an offset that may be too far, or one in the frame that is not known as one number")]
    PointerArithmetic,
    #[error("a memory access through a number or a map")]
    NotAPointer,
    #[error("an access may lie outside its region")]
    OutOfBounds,
    #[error("an access may be misaligned")]
    Misaligned,
    #[error("a byte of the frame is read that is not written on every path")]
    UnwrittenFrame,
    #[error("a pointer or a map is stored to an element, stored or read in part, part of a call's key or value, or returned")]
    PointerLeak,
    #[error("a register or a byte of the frame is read that holds different kinds on different paths")]
    MixedRegions,
    #[error("what a lookup gave is used before it is compared with null")]
    MaybeNull,
    #[error("an element of a hash map is reached outside its section, or a lookup is made outside a section and r1 is no array")]
    OutsideSection,
    #[error("a lock where 8 are open, an unlock outside a section, an exit inside one, or paths that differ in depth")]
    UnpairedSection,
    #[error("a call of an unknown function")]
    UnknownCall,
    #[error("an argument of a call is of a wrong kind")]
    WrongArgument,
    #[error("a map that the program does not have")]
    NoSuchMap,
    #[error("a store to the context")]
    ContextWrite,
    #[error("out of memory")]
    Memory,
}

impl InsnFault {
    ghost use Rattle.register_kinds.specs.FaultNumbers.{insn_fault_number};

    /// The number by which the fault is known, 23 to 37 or 39, or 13 for want of memory.
    pub fn code(self) -> u8
        ensures { result ≡ insn_fault_number self }
    {
        match self {
            InsnFault::UnwrittenRegister => 23,
            InsnFault::FramePointerWritten => 24,
            InsnFault::PointerArithmetic => 25,
            InsnFault::NotAPointer => 26,
            InsnFault::OutOfBounds => 27,
            InsnFault::Misaligned => 28,
            InsnFault::UnwrittenFrame => 29,
            InsnFault::PointerLeak => 30,
            InsnFault::MixedRegions => 31,
            InsnFault::MaybeNull => 32,
            InsnFault::OutsideSection => 33,
            InsnFault::UnpairedSection => 34,
            InsnFault::UnknownCall => 35,
            InsnFault::WrongArgument => 36,
            InsnFault::NoSuchMap => 37,
            InsnFault::ContextWrite => 39,
            InsnFault::Memory => 13,
        }
    }
}

impl From<AllocError> for InsnFault {
    ghost use Rattle.register_kinds.specs.declared.fault.InsnFault.TheVariants.{Memory};

    ghost from_gives = { λ _ e. e ≡ Memory };

    fn from(_: AllocError) -> InsnFault {
        InsnFault::Memory
    }
}

impl<T: Drop> From<AllocFailed<T>> for InsnFault {
    ghost use Rattle.register_kinds.specs.declared.fault.InsnFault.TheVariants.{Memory};

    ghost from_gives = { λ _ e. e ≡ Memory };

    fn from(_: AllocFailed<T>) -> InsnFault {
        InsnFault::Memory
    }
}
