//! Why the model gives no answer.
ghost use Rattle.std.specs.Prelude.{◌≡◌, ◌+◌};
ghost use Rattle.reference_store.specs.Telling.{TellsResult};

use std::alloc::AllocError;

/// Why an event got no answer. After that the model is of no use.
#[derive(Clone, Copy, Debug, PartialEq, Eq)]
pub enum ModelFault {
    /// The machine has no step: the run is stuck.
    Stuck,
    /// Memory was refused.
    Memory,
    /// A count, an offset or a length is more than this model holds. Whether the machine has a step there is
    /// not said.
    OutOfRange,
    /// The element that is next to be reclaimed may not be: it is still within its grace period, or isn't
    /// unlinked at all. Then the lists are wrong.
    Early,
}

impl From<AllocError> for ModelFault {
    ghost use Rattle.std.specs.Prelude.{◌≡◌};
    ghost use Rattle.reference_store.specs.declared.fault.ModelFault.TheVariants.{Memory};

    ghost from_gives = { λ _ e. e ≡ Memory };

    fn from(_: AllocError) -> ModelFault {
        ModelFault::Memory
    }
}

/// One more, of a count of 64 bits; `OutOfRange` where there is none.
pub fn one_more(count: u64) -> Result<u64, ModelFault>
    ensures { TellsResult (λ n. n ≡ count + 1) ⊥ result }
{
    match count.checked_add(1) {
        Some(n) => Ok(n),
        None => Err(ModelFault::OutOfRange),
    }
}
