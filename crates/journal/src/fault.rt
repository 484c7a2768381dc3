//! Why a journal has no room for one more entry.
ghost use Rattle.std.specs.Prelude.{◌≡◌};

use std::alloc::AllocError;
use thiserror::Error;

/// Why a journal has no room for one more entry.
#[derive(Clone, Copy, Debug, PartialEq, Eq, Error)]
pub enum JournalFault {
    #[error("the journal has as many entries as it may have")]
    Full,
    #[error("out of memory")]
    Memory,
}

impl JournalFault {
    ghost use Rattle.journal.specs.Entries.{journal_fault_number};

    /// The number by which the fault is known: 70, or 13 for want of memory.
    pub fn code(self) -> u8
        ensures { result ≡ journal_fault_number self }
    {
        match self {
            JournalFault::Full => 70,
            JournalFault::Memory => 13,
        }
    }
}

impl From<AllocError> for JournalFault {
    ghost use Rattle.journal.specs.declared.fault.JournalFault.TheVariants.{Memory};

    ghost from_gives = { λ _ e. e ≡ Memory };

    fn from(_: AllocError) -> JournalFault {
        JournalFault::Memory
    }
}
