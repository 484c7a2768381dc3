//! Why a program file is refused.
ghost use Rattle.std.specs.Prelude.{◌≡◌};
ghost use Rattle.program_files.specs.declared.verdict.Verdict.TheVariants as verdicts;

use crate::loader::LoadFault;
use insn_codec::DecodeFault;
use std::alloc::AllocError;
use thiserror::Error;
use verifier::ProgramRefusal;

/// Why a program file is refused, by the layer that refuses it and that layer's own fault.
#[derive(Clone, Copy, Debug, PartialEq, Eq, Error)]
pub enum Verdict {
    /// The file says nothing.
    #[error("{0}")]
    File(LoadFault),
    /// The bytes that the file says are no program.
    #[error("{0}")]
    Code(DecodeFault),
    /// The verifier refuses the program that the file says.
    #[error("{0}")]
    Program(ProgramRefusal),
    /// An allocation failed.
    #[error("out of memory")]
    Memory,
}

impl Verdict {
    ghost use Rattle.program_files.specs.Verdicts.{verdict_number, verdict_slot, verdict_line};

    /// The number by which the verdict is known: 94, 1 to 12, 20 to 39, or 13 for want of memory.
    pub fn code(&self) -> u8
        ensures { result ≡ verdict_number self.now }
    {
        match self {
            Verdict::File(fault) => fault.code(),
            Verdict::Code(fault) => fault.code(),
            Verdict::Program(refusal) => refusal.code(),
            Verdict::Memory => 13,
        }
    }

    /// The slot where the instruction begins, counted from 0, where the verdict is of one.
    pub fn slot(&self) -> Option<usize>
        ensures { result ≡ verdict_slot self.now }
    {
        match self {
            Verdict::Code(fault) => fault.slot(),
            Verdict::Program(refusal) => refusal.slot(),
            Verdict::File(_) | Verdict::Memory => None,
        }
    }

    /// The line of the file, counted from 1, where the verdict is of one.
    pub fn line(&self) -> Option<usize>
        ensures { result ≡ verdict_line self.now }
    {
        match self {
            Verdict::File(fault) => fault.line(),
            Verdict::Code(_) | Verdict::Program(_) | Verdict::Memory => None,
        }
    }
}

impl From<LoadFault> for Verdict {
    ghost from_gives = { λ fault v. v ≡ verdicts.File fault };

    fn from(fault: LoadFault) -> Verdict {
        Verdict::File(fault)
    }
}

impl From<DecodeFault> for Verdict {
    ghost from_gives = { λ fault v. v ≡ verdicts.Code fault };

    fn from(fault: DecodeFault) -> Verdict {
        Verdict::Code(fault)
    }
}

impl From<ProgramRefusal> for Verdict {
    ghost from_gives = { λ refusal v. v ≡ verdicts.Program refusal };

    fn from(refusal: ProgramRefusal) -> Verdict {
        Verdict::Program(refusal)
    }
}

impl From<AllocError> for Verdict {
    ghost from_gives = { λ _ v. v ≡ verdicts.Memory };

    fn from(_: AllocError) -> Verdict {
        Verdict::Memory
    }
}
