//! Why a program is refused.
ghost use Rattle.std.specs.Prelude.{◌≡◌};

use crate::graph_flaw::GraphFlaw;
use register_kinds::InsnFault;
use std::alloc::AllocError;
use thiserror::Error;

/// Why a program is refused, and the slot of the instruction at which it is.
#[derive(Clone, Copy, Debug, PartialEq, Eq, Error)]
pub enum ProgramRefusal {
    #[error("{flaw} at slot {slot}")]
    Graph { flaw: GraphFlaw, slot: usize },
    #[error("{fault} at slot {slot}")]
    Instruction { fault: InsnFault, slot: usize },
    #[error("out of memory")]
    Memory,
}

impl ProgramRefusal {
    ghost use Rattle.std.specs.Prelude.{Option};
    ghost use Rattle.verifier.specs.Numbers.{refusal_number, refusal_slot};

    /// The number by which the refusal is known, 20 to 39, or 13 for want of memory.
    pub fn code(&self) -> u8
        ensures { result ≡ refusal_number self.now }
    {
        match self {
            ProgramRefusal::Graph { flaw, .. } => flaw.code(),
            ProgramRefusal::Instruction { fault, .. } => fault.code(),
            ProgramRefusal::Memory => 13,
        }
    }

    /// The slot where the instruction begins at which the program is refused, counted from 0; `None`
    /// where memory ran out.
    pub fn slot(&self) -> Option<usize>
        ensures { result ≡ refusal_slot self.now }
    {
        match self {
            ProgramRefusal::Graph { slot, .. } | ProgramRefusal::Instruction { slot, .. } => Some(
                *slot,
            ),
            ProgramRefusal::Memory => None,
        }
    }
}

impl From<AllocError> for ProgramRefusal {
    ghost use Rattle.verifier.specs.declared.refusal.ProgramRefusal.TheVariants.{Memory};

    ghost from_gives = { λ _ e. e ≡ Memory };

    fn from(_: AllocError) -> ProgramRefusal {
        ProgramRefusal::Memory
    }
}
