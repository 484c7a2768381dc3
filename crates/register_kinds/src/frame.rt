//! The bytes of the frame, by what is known of each.
ghost use Rattle.std.specs.Prelude.{◌≡◌, ℕ, ◌+◌, ◌%◌, ◌^◌, ◌<◌, ◌≤◌, length, slice_get, if◌then◌else◌};
ghost use Rattle.bpf_model.specs.declared.limits.TheConstants.{FRAME_BYTES};
ghost use Rattle.bpf_model.specs.Frame.{is_within};
ghost use Rattle.plan_laws.specs.Kinds as model;
ghost use Rattle.register_kinds.specs.declared.identities.TheConstants.{MAX_PAIRS};
ghost use Rattle.register_kinds.specs.States.{kind_of, kind_in, class_in, kind_at, cell_at};
ghost use Rattle.register_kinds.specs.Pairs.{IsBelow};
ghost use Rattle.register_kinds.specs.JoinTable.{PairsGrow, IsTable, JoinsCell};
ghost use Rattle.register_kinds.specs.Changes.{learnt_cell};

use crate::identities::Pairs;
use crate::join::{join_cells, join_kinds};
use crate::kind::{CellKind, RegKind};
use crate::learn::{Lesson, learn_cells, learn_kinds};
use bpf_model::FRAME_BYTES;
use std::marker::Model;

/// How many aligned groups of eight bytes the frame has.
pub const GROUPS: usize = FRAME_BYTES / 8;

/// What is known of each byte of the frame. What parts are parts of stands once for each aligned
/// group of eight bytes; a group without parts may keep an old one. Groups before `first` were never
/// written, so that a join or a copy need not go through them.
#[derive(Clone, Copy)]
pub struct FrameCells {
    pub(crate) cells: [CellKind; FRAME_BYTES],
    pub(crate) spills: [RegKind; GROUPS],
    pub(crate) first: usize,
}

impl Model for FrameCells {
    ghost use Rattle.std.specs.Prelude.{◌≤◌};
    ghost use Rattle.register_kinds.specs.declared.frame.TheConstants.{GROUPS};
    ghost use Rattle.register_kinds.specs.Contents.{Contents, AreUntouched};

    ghost Value = { Contents };

    ghost view = { λ f. record { cells = f.cells; spills = f.spills; first = f.first } };

    ghost invariant = { λ f. (f.first ≤ GROUPS)
        × AreUntouched (record { cells = f.cells; spills = f.spills; first = f.first }) };

    ghost inverse = { λ v. record { cells = v.cells; spills = v.spills; first = v.first } };
}

/// Bytes of which none is written.
fn unwritten_cells() -> [CellKind; FRAME_BYTES]
    ensures { (k : ℕ) → class_in result k ≡ CellKind.Unwritten }
{
    [CellKind::Unwritten; FRAME_BYTES]
}

/// Groups of bytes where no reference was stored.
fn no_spills() -> [RegKind; GROUPS]
    ensures { (g : ℕ) → kind_in result g ≡ RegKind.Unwritten }
{
    [RegKind::Unwritten; GROUPS]
}

/// The bytes of an access become of this class.
fn fill(cells: &mut [CellKind], at: usize, width: usize, cell: CellKind)
    requires { at + width ≤ length cells.old }
    ensures { (k : ℕ)
        → class_in cells.new k ≡ (if is_within at width k then cell else class_in cells.old k) }
{
    for i in at..at + width {
        cells[i] = cell;
    }
}

/// The items from an index on become those of another list.
fn copy_rest<T: Copy>(items: &mut [T], others: &[T], from: usize)
    requires long { length items.old ≡ length others.now }
    requires same { (k : ℕ) → k < from → slice_get items.old k ≡ slice_get others.now k }
    ensures { items.new ≡ others.now }
{
    for i in from..others.len() {
        items[i] = others[i];
    }
}

impl FrameCells {
    /// A frame of which nothing is written.
    pub(crate) fn unwritten() -> FrameCells
        ensures cells { (k : ℕ) → class_in result.cells k ≡ CellKind.Unwritten }
        ensures spills { (g : ℕ) → kind_in result.spills g ≡ RegKind.Unwritten }
    {
        FrameCells {
            cells: unwritten_cells(),
            spills: no_spills(),
            first: GROUPS,
        }
    }

    /// Each byte becomes what is known of it where it comes from either frame.
    pub(crate) fn join(&mut self, pairs: &mut Pairs, top: u32, other: &FrameCells)
        requires room { top + MAX_PAIRS < 2 ^ 32 }
        requires few { length pairs.old.items + GROUPS ≤ MAX_PAIRS }
        requires table { IsTable pairs.old.items }
        requires below { (g : ℕ) → IsBelow top (kind_at self.old.spills g)
            × IsBelow top (kind_at other.now.spills g) }
        ensures joins { (k : ℕ) → JoinsCell top pairs.new.items
            (cell_at self.old k) (cell_at other.now k) (cell_at self.new k) }
        ensures spills { (g : ℕ)
            → IsBelow (top + length pairs.new.items) (kind_at self.new.spills g) }
        ensures table { IsTable pairs.new.items }
        ensures grows { PairsGrow pairs.old.items pairs.new.items }
        ensures few { length pairs.new.items ≤ length pairs.old.items + GROUPS }
    {
        let first = self.first.min(other.first);
        if first == GROUPS {
            return;
        }
        join_kinds(pairs, top, &mut self.spills, &other.spills, first);
        join_cells(&mut self.cells, &other.cells, &self.spills, first);
        self.first = first;
    }

    /// The bytes of an access become bytes of a number.
    pub(crate) fn write(&mut self, at: usize, width: usize)
        requires { at + width ≤ FRAME_BYTES }
        ensures cells { (k : ℕ) → cell_at self.new k
            ≡ (if is_within at width k then model.ByteCell else cell_at self.old k) }
        ensures spills { self.new.spills ≡ self.old.spills }
    {
        self.first = self.first.min(at / 8);
        // Eight bytes are one store, where their number is known.
        if width == 8 {
            fill(&mut self.cells, at, 8, CellKind::Byte);
        } else {
            fill(&mut self.cells, at, width, CellKind::Byte);
        }
    }

    /// The eight bytes of an aligned group become the parts of a reference.
    pub(crate) fn spill(&mut self, at: usize, kind: RegKind)
        requires inside { at + 8 ≤ FRAME_BYTES }
        requires aligned { at % 8 ≡ 0 }
        ensures cells { (k : ℕ) → cell_at self.new k
            ≡ (if is_within at 8 k then model.PartCell (kind_of kind) else cell_at self.old k) }
        ensures below { (top g : ℕ) → IsBelow top (kind_at self.old.spills g)
            → IsBelow top (kind_of kind) → IsBelow top (kind_at self.new.spills g) }
    {
        self.first = self.first.min(at / 8);
        fill(&mut self.cells, at, 8, CellKind::Part);
        self.spills[at / 8] = kind;
    }

    /// Each byte becomes what it is after this was learnt.
    pub(crate) fn learn(&mut self, lesson: Lesson<'_>)
        ensures cells { (k : ℕ) → cell_at self.new k ≡ learnt_cell lesson.entry (cell_at self.old k) }
        ensures below { (top g : ℕ) → IsBelow top (kind_at self.old.spills g)
            → IsBelow top (kind_at self.new.spills g) }
    {
        learn_cells(lesson, &mut self.cells, &self.spills, 8 * self.first);
        learn_kinds(lesson, &mut self.spills, self.first);
    }

    /// Becomes equal to another frame.
    pub(crate) fn copy_from(&mut self, other: &FrameCells)
        ensures { self.new ≡ other.now }
    {
        let first = self.first.min(other.first);
        copy_rest(&mut self.cells, &other.cells, 8 * first);
        copy_rest(&mut self.spills, &other.spills, first);
        self.first = other.first;
    }
}
