//! Registers and bytes that an instruction sets.
ghost use Rattle.std.specs.Prelude.{◌≡◌, ℕ, ◌+◌, ◌%◌, ◌<◌, ◌≤◌};
ghost use Rattle.bpf_model.specs.declared.limits.TheConstants.{FRAME_BYTES, MAX_DEPTH};
ghost use Rattle.plan_laws.specs.Kinds as model;
ghost use Rattle.plan_laws.specs.Effects.{with_kind, with_cells, after_call, after_lock, after_unlock, returned_kind};
ghost use Rattle.plan_laws.specs.Planned.{AreAlike};
ghost use Rattle.register_kinds.specs.States.{kind_of, kind_at, kind_in, state_of};
ghost use Rattle.register_kinds.specs.Pairs.{IsBelow, AreBelow};

use crate::kind::RegKind;
use crate::learn::Lesson;
use crate::state::AbsState;
use bpf_model::{MapShape, REGISTERS, Reg};

/// The registers after a call: its result in r0, and nothing in r1 to r5.
fn after_return(regs: &[RegKind; REGISTERS], returned: RegKind) -> [RegKind; REGISTERS]
    ensures { (r : ℕ) → kind_at result r ≡ returned_kind (kind_of returned) (kind_at regs.now) r }
{
    [
        returned,
        RegKind::Unwritten,
        RegKind::Unwritten,
        RegKind::Unwritten,
        RegKind::Unwritten,
        RegKind::Unwritten,
        regs[6],
        regs[7],
        regs[8],
        regs[9],
        regs[10],
    ]
}

impl AbsState {
    /// What is known of a register.
    pub fn kind(&self, r: Reg) -> RegKind
        ensures { result ≡ kind_in self.now.regs r }
    {
        self.regs[r.index()]
    }

    /// A register becomes of this kind.
    pub fn set(&mut self, r: Reg, kind: RegKind)
        ensures alike { AreAlike (with_kind r (kind_of kind) (state_of self.old))
            (state_of self.new) }
        ensures below { (top : ℕ) → AreBelow top self.old → IsBelow top (kind_of kind)
            → AreBelow top self.new }
    {
        self.regs[r.index()] = kind;
    }

    /// A call leaves this in r0, and nothing in r1 to r5.
    pub fn leave_call(&mut self, returned: RegKind)
        ensures alike { AreAlike (after_call (kind_of returned) (state_of self.old))
            (state_of self.new) }
        ensures below { (top : ℕ) → AreBelow top self.old → IsBelow top (kind_of returned)
            → AreBelow top self.new }
    {
        self.regs = after_return(&self.regs, returned);
    }

    /// A lock: one more is open.
    pub fn enter_section(&mut self)
        requires room { self.old.depth < MAX_DEPTH }
        ensures alike { AreAlike (after_lock (state_of self.old)) (state_of self.new) }
        ensures below { (top : ℕ) → AreBelow top self.old → AreBelow top self.new }
    {
        self.leave_call(RegKind::Unwritten);
        self.depth += 1;
    }

    /// An unlock: one less is open. With the outermost ends all that is known of elements of hash maps, in registers
    /// and in the frame. `shapes` are those of the maps of the program's list.
    pub fn leave_section(&mut self, shapes: &[MapShape])
        requires inside { 0 < self.old.depth }
        ensures alike { AreAlike (after_unlock shapes.now (state_of self.old)) (state_of self.new) }
        ensures below { (top : ℕ) → AreBelow top self.old → AreBelow top self.new }
    {
        if self.depth == 1 {
            self.learn(Lesson::SectionEnds(shapes));
        }
        self.leave_call(RegKind::Unwritten);
        self.depth -= 1;
    }

    /// The bytes of an access to the frame become bytes of a number.
    pub fn write(&mut self, at: usize, width: usize)
        requires { at + width ≤ FRAME_BYTES }
        ensures alike { AreAlike (with_cells at width model.ByteCell (state_of self.old))
            (state_of self.new) }
        ensures below { (top : ℕ) → AreBelow top self.old → AreBelow top self.new }
    {
        self.frame.write(at, width);
    }

    /// The eight bytes of an aligned group become the parts of a reference.
    pub fn spill(&mut self, at: usize, kind: RegKind)
        requires inside { at + 8 ≤ FRAME_BYTES }
        requires aligned { at % 8 ≡ 0 }
        ensures alike { AreAlike (with_cells at 8 (model.PartCell (kind_of kind))
            (state_of self.old))
            (state_of self.new) }
        ensures below { (top : ℕ) → AreBelow top self.old → IsBelow top (kind_of kind)
            → AreBelow top self.new }
    {
        self.frame.spill(at, kind);
    }
}
