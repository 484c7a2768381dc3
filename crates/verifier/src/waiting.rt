//! What waits for an instruction.
ghost use Rattle.std.specs.Prelude.{◌≡◌, ◌≢◌, ◌+◌, ◌^◌, ◌<◌, IfSome};
ghost use Rattle.register_kinds.specs.declared.identities.TheConstants.{MAX_PAIRS};
ghost use Rattle.register_kinds.specs.Pairs.{AreBelow, TakesFew};
ghost use Rattle.verifier.specs.declared.waiting.Waiting.TheVariants.{Nothing};
ghost use Rattle.verifier.specs.SecondPass.{occupied, state_in, Joined};

use register_kinds::{AbsState, Identities};

/// What waits for an instruction.
#[derive(Drop)]
pub(crate) enum Waiting {
    /// What is known on all edges that have led to the instruction.
    Known(Box<AbsState>),
    /// No edge has led to the instruction yet.
    Nothing,
    /// Edges have led to the instruction at different depths of locks.
    Differing,
}

/// Joins a state into what waits already. Answers how many states wait there no longer: one where two meet that differ
/// in their depths of locks, else none.
#[inline(always)]
pub(crate) fn join_into(waiting: &mut Waiting, state: &AbsState, ids: &mut Identities) -> usize
    requires waits { waiting.old ≢ Nothing }
    requires room { ids.old.next + MAX_PAIRS < 2 ^ 32 }
    requires state { AreBelow ids.old.next state.now }
    requires waiting { IfSome (state_in waiting.old) (AreBelow ids.old.next) }
    ensures joined { Joined waiting.old state.now waiting.new }
    ensures below { IfSome (state_in waiting.new) (AreBelow ids.new.next) }
    ensures few { TakesFew MAX_PAIRS ids.old.next ids.new.next }
    ensures gone { result + occupied waiting.new ≡ occupied waiting.old }
{
    match waiting {
        Waiting::Known(before) => {
            if before.depth == state.depth {
                before.join(state, ids);
                return 0;
            }
            *waiting = Waiting::Differing;
            1
        }
        Waiting::Differing => 0,
        Waiting::Nothing => unreachable!(),
    }
}
