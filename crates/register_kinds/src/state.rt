//! Abstract states: at the entry, copied and joined.
ghost use Rattle.std.specs.Prelude.{◌≡◌, ℕ, ◌+◌, ◌^◌, ◌<◌, IfOk};
ghost use Rattle.plan_laws.specs.Planned.{AreAlike, Joins, Wider, entry_kind, entry_state};
ghost use Rattle.register_kinds.specs.declared.identities.TheConstants.{MAX_PAIRS};
ghost use Rattle.register_kinds.specs.States.{kind_at, state_of};
ghost use Rattle.register_kinds.specs.Joined.{AreJoined};
ghost use Rattle.register_kinds.specs.Pairs.{AreBelow, IsPairing, TakesFew};

use crate::boxes::Boxes;
use crate::frame::FrameCells;
use crate::identities::Identities;
use crate::join::join_kinds;
use crate::kind::RegKind;
use bpf_model::{FRAME_BYTES, NEAR_LIMIT, REGISTERS};
use scalar_domain::Scalar;
use std::alloc::{AllocError, Global};

/// The offset 0 of the context or of a value: a scalar keeps offsets so much higher.
pub const ORIGIN: u64 = NEAR_LIMIT;

/// What is known before an instruction.
#[derive(Clone, Copy)]
pub struct AbsState {
    pub regs: [RegKind; REGISTERS],
    pub frame: FrameCells,
    /// How many of the run's locks are open.
    pub depth: usize,
}

/// The registers at a program's entry.
fn entry_registers() -> [RegKind; REGISTERS]
    ensures { (r : ℕ) → kind_at result r ≡ entry_kind r }
{
    let mut regs = [RegKind::Unwritten; REGISTERS];
    regs[1] = RegKind::Ctx(Scalar::constant(ORIGIN));
    regs[10] = RegKind::Frame(FRAME_BYTES as i32);
    regs
}

/// What is known at a program's entry.
fn at_entry() -> AbsState
    ensures alike { AreAlike entry_state (state_of result) }
    ensures below { AreBelow 0 result }
{
    AbsState {
        regs: entry_registers(),
        frame: FrameCells::unwritten(),
        depth: 0,
    }
}

impl AbsState {
    /// The state at a program's entry: r1 the context, r10 the end of the frame, all else
    /// unwritten. Fails where memory runs out.
    pub fn entry(alloc: Global) -> Result<Box<AbsState>, AllocError>
        ensures alike { IfOk result (λ a. AreAlike entry_state (state_of a.value)) }
        ensures below { IfOk result (λ a. AreBelow 0 a.value) }
    {
        Ok(Box::new(alloc, at_entry())?)
    }

    /// Becomes equal to another state.
    pub(crate) fn copy_from(&mut self, other: &AbsState)
        ensures { self.new ≡ other.now }
    {
        self.regs = other.regs;
        self.frame.copy_from(&other.frame);
        self.depth = other.depth;
    }

    /// An equal state. Fails where memory runs out.
    pub fn copy(&self, boxes: &mut Boxes) -> Result<Box<AbsState>, AllocError>
        ensures { IfOk result (λ a. a.value ≡ self.now) }
    {
        boxes.filled(self)
    }

    /// What is known where control comes from either state, with as many locks open in both. Each
    /// pair of different identities that meets gets one new identity, so a join takes at most
    /// `MAX_PAIRS`.
    #[inline(never)]
    pub fn join(&mut self, other: &AbsState, ids: &mut Identities)
        requires section { self.old.depth ≡ other.now.depth }
        requires room { ids.old.next + MAX_PAIRS < 2 ^ 32 }
        requires below { AreBelow ids.old.next self.old × AreBelow ids.old.next other.now }
        ensures joins { (pair : ℕ → ℕ × ℕ) × IsPairing ids.old.next ids.new.next pair
            × Joins pair (state_of self.old) (state_of other.now) (state_of self.new) }
        ensures exact { AreJoined (state_of self.old) (state_of other.now) (state_of self.new) }
        ensures left { Wider (state_of self.old) (state_of self.new) }
        ensures right { Wider (state_of other.now) (state_of self.new) }
        ensures below { AreBelow ids.new.next self.new }
        ensures few { TakesFew MAX_PAIRS ids.old.next ids.new.next }
    {
        let Identities { next, pairs } = ids;
        pairs.clear();
        join_kinds(pairs, *next, &mut self.regs, &other.regs, 0);
        self.frame.join(pairs, *next, &other.frame);
        *next += pairs.len() as u32;
    }
}
