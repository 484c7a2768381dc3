//! Where copies of states are put.
ghost use Rattle.std.specs.Prelude.{◌≡◌, IfOk};

use crate::state::AbsState;
use std::alloc::{AllocError, Global};

/// Where copies of states are put: in the box of a state that is no longer of use, or in memory of
/// this allocator. At most one such box is kept.
#[derive(Drop)]
pub struct Boxes {
    alloc: Global,
    spare: Option<Box<AbsState>>,
}

impl Boxes {
    /// No box yet.
    pub fn new(alloc: Global) -> Boxes {
        Boxes { alloc, spare: None }
    }

    /// Keeps the box of a state that is no longer of use for the next copy.
    pub fn keep(&mut self, state: Box<AbsState>) {
        self.spare = Some(state);
    }

    /// A box with an equal state. Fails where memory runs out.
    pub(crate) fn filled(&mut self, state: &AbsState) -> Result<Box<AbsState>, AllocError>
        ensures { IfOk result (λ b. b.value ≡ state.now) }
    {
        match self.spare.take() {
            Some(mut kept) => {
                kept.copy_from(state);
                Ok(kept)
            }
            None => Ok(Box::new(self.alloc, *state)?),
        }
    }
}
