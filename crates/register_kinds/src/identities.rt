//! Identities of what may be null.
ghost use Rattle.std.specs.Prelude.{◌≡◌, ◌≢◌, ℕ, ◌+◌, ◌^◌, ◌<◌, ◌≤◌, length, slice_get, Some};
ghost use Rattle.plan_laws.specs.Kinds as model;
ghost use Rattle.register_kinds.specs.JoinTable.{PairsGrow, IsTable, JoinsKind};

use crate::frame::GROUPS;
use arrayvec::ArrayVec;
use bpf_model::REGISTERS;

/// The most pairs of identities that can meet in the joining of two states: one for each register,
/// and one for each eight bytes of the frame.
pub const MAX_PAIRS: usize = REGISTERS + GROUPS;

/// The pairs of different identities that met in a joining.
pub(crate) type Pairs = ArrayVec<(u32, u32), MAX_PAIRS>;

/// The identities that are taken: those below a number.
#[derive(Drop)]
pub struct Identities {
    pub next: u32,
    /// The pairs of the last joining, whose place the next one uses again.
    pub(crate) pairs: Pairs,
}

impl Identities {
    /// None is taken.
    pub fn none() -> Identities
        ensures { result.next ≡ 0 }
    {
        Identities {
            next: 0,
            pairs: ArrayVec::new(),
        }
    }
}

/// The index of a pair, which is added where it is not there.
fn pair_index(pairs: &mut Pairs, x: u32, y: u32) -> usize
    requires few { length pairs.old.items < MAX_PAIRS }
    requires table { IsTable pairs.old.items }
    requires other { x ≢ y }
    ensures table { IsTable pairs.new.items }
    ensures found { slice_get pairs.new.items result ≡ Some (x, y) }
    ensures grows { PairsGrow pairs.old.items pairs.new.items }
    ensures few { length pairs.new.items ≤ length pairs.old.items + 1 }
{
    for i in 0..pairs.len() {
        let p = pairs.as_slice()[i];
        if p.0 == x && p.1 == y {
            return i;
        }
    }
    let at = pairs.len();
    pairs.push((x, y));
    at
}

/// The identity of what has the one or the other; `top` is the first that is not taken.
pub(crate) fn join_identities(pairs: &mut Pairs, top: u32, x: u32, y: u32) -> u32
    requires room { top + MAX_PAIRS < 2 ^ 32 }
    requires few { length pairs.old.items < MAX_PAIRS }
    requires table { IsTable pairs.old.items }
    requires below { (x < top) × (y < top) }
    ensures joins { (map : ℕ) → JoinsKind top pairs.new.items
        (model.MaybeNull map x) (model.MaybeNull map y) (model.MaybeNull map result) }
    ensures table { IsTable pairs.new.items }
    ensures grows { PairsGrow pairs.old.items pairs.new.items }
    ensures few { length pairs.new.items ≤ length pairs.old.items + 1 }
{
    if x == y {
        return x;
    }
    let i = pair_index(pairs, x, y);
    top + i as u32
}
