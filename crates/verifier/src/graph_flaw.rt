//! Why a program's jump graph is refused.
ghost use Rattle.std.specs.Prelude.{◌≡◌};

use std::alloc::AllocError;
use thiserror::Error;

/// What is wrong with a program's jump graph.
#[derive(Clone, Copy, Debug, PartialEq, Eq, Error)]
pub enum GraphFlaw {
    #[error("a jump leads to no instruction's start")]
    JumpTarget,
    #[error("a jump leads back")]
    BackJump,
    #[error("the last instruction is not an exit")]
    FallsOff,
    #[error("no path leads to the instruction")]
    Unreachable,
}

/// Why a program's jump graph is refused, and the slot of the instruction at which it is.
#[derive(Clone, Copy, Debug, PartialEq, Eq, Error)]
pub enum GraphRefusal {
    #[error("{flaw} at slot {slot}")]
    Flaw { flaw: GraphFlaw, slot: usize },
    #[error("out of memory")]
    Memory,
}

impl GraphFlaw {
    ghost use Rattle.verifier.specs.FlawNumbers.{graph_flaw_number};

    /// The number by which the flaw is known, 20 to 22 or 38.
    pub fn code(self) -> u8
        ensures { result ≡ graph_flaw_number self }
    {
        match self {
            GraphFlaw::JumpTarget => 20,
            GraphFlaw::BackJump => 21,
            GraphFlaw::FallsOff => 22,
            GraphFlaw::Unreachable => 38,
        }
    }
}

impl GraphRefusal {
    ghost use Rattle.verifier.specs.FlawNumbers.{graph_refusal_number};

    /// The number by which the refusal is known: its flaw's, or 13 for want of memory.
    pub fn code(self) -> u8
        ensures { result ≡ graph_refusal_number self }
    {
        match self {
            GraphRefusal::Flaw { flaw, .. } => flaw.code(),
            GraphRefusal::Memory => 13,
        }
    }
}

impl From<AllocError> for GraphRefusal {
    ghost use Rattle.verifier.specs.declared.graph_flaw.GraphRefusal.TheVariants.{Memory};

    ghost from_gives = { λ _ e. e ≡ Memory };

    fn from(_: AllocError) -> GraphRefusal {
        GraphRefusal::Memory
    }
}
