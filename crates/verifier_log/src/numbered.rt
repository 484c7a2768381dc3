//! What is known before an instruction, and the step from there.
ghost use Rattle.std.specs.Prelude.{◌≡◌, ◌+◌, ◌≤◌, ◌<◌, ◌^◌, IsTrue};
ghost use Rattle.register_kinds.specs.declared.identities.TheConstants.{MAX_PAIRS};

use bpf_model::Insn;
use register_kinds::{AbsState, Boxes, Identities, InsnFault};
use state_steps::{EnvironmentShape, Taken, transfer};
use std::alloc::{AllocError, Global};
use std::marker::Model;

/// What is known before an instruction, and a number that its identities are below.
#[derive(Drop)]
pub(crate) struct Numbered {
    state: Box<AbsState>,
    top: u32,
}

impl Model for Numbered {
    ghost use Rattle.register_kinds.specs.Pairs.{AreBelow};
    ghost use Rattle.verifier_log.specs.Numbered.{NumberedState};

    ghost Value = { NumberedState };

    ghost view = { λ n. record { state = n.state.value; top = n.top } };

    ghost invariant = { λ n. AreBelow n.top n.state.value };
}

/// What an instruction makes of a state: what is known where control falls through, or where an unconditional jump leads; and
/// where a conditional jump leads.
#[derive(Drop)]
pub(crate) struct Next {
    pub falling: Numbered,
    pub taken: Option<Numbered>,
}

/// While fewer identities than this are taken, enough are left for a step and a join. No program of `MAX_SLOTS` slots takes as
/// many.
const MOST_TAKEN: u32 = 1 << 31;

impl Numbered {
    /// What is known at a program's entry.
    pub(crate) fn entry(alloc: Global) -> Result<Numbered, AllocError> {
        Ok(Numbered {
            state: AbsState::entry(alloc)?,
            top: 0,
        })
    }

    /// What is known.
    pub(crate) fn state(&self) -> &AbsState
        ensures { result.now ≡ self.now.state }
    {
        &self.state
    }

    /// Whether its identities are taken, and enough are left.
    fn fits(&self, ids: &Identities) -> bool
        ensures taken { IsTrue result → self.now.top ≤ ids.now.next }
        ensures room { IsTrue result → ids.now.next + MAX_PAIRS < 2 ^ 32 }
    {
        self.top <= ids.next && ids.next < MOST_TAKEN
    }

    /// The same with a number that is not less.
    fn raised(self, top: u32) -> Numbered
        requires { self.top ≤ top }
        ensures state { result.state ≡ self.state }
        ensures top { result.top ≡ top }
    {
        Numbered {
            state: self.state,
            top,
        }
    }
}

/// What is known where control comes from either state; none where other numbers of locks are open, or too few identities are left.
pub(crate) fn joined(
    here: Numbered,
    there: Numbered,
    boxes: &mut Boxes,
    ids: &mut Identities,
) -> Option<Numbered> {
    if here.state.depth != there.state.depth || !here.fits(ids) || !there.fits(ids) {
        return None;
    }
    let mut state = here.raised(ids.next).state;
    let other = there.raised(ids.next).state;
    state.join(&other, ids);
    boxes.keep(other);
    Some(Numbered {
        state,
        top: ids.next,
    })
}

/// What an instruction makes of what is known before it; none where it is refused, or too few identities are left.
///
/// The error is that there is no memory left.
pub(crate) fn next_of(
    before: Numbered,
    boxes: &mut Boxes,
    insn: &Insn,
    shape: &EnvironmentShape,
    ids: &mut Identities,
) -> Result<Option<Next>, AllocError> {
    if !before.fits(ids) {
        return Ok(None);
    }
    let mut state = before.raised(ids.next).state;
    let flow = match transfer(&mut state, boxes, insn, shape, ids) {
        Ok(flow) => flow,
        Err(InsnFault::Memory) => return Err(AllocError),
        Err(_) => return Ok(None),
    };
    let top = ids.next;
    let taken = match flow.taken {
        Some(Taken::Same) => Some(Numbered {
            state: state.copy(boxes)?,
            top,
        }),
        Some(Taken::Apart(state)) => Some(Numbered { state, top }),
        None => None,
    };
    Ok(Some(Next {
        falling: Numbered { state, top },
        taken,
    }))
}
