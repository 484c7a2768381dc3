//! What is learnt at once of all that may be an element, in registers and in the frame.
ghost use Rattle.std.specs.Prelude.{◌≡◌, ℕ, ◌*◌, ◌/◌, ◌<◌, ◌≤◌, length};
ghost use Rattle.plan_laws.specs.Planned.{AreAlike};
ghost use Rattle.register_kinds.specs.States.{kind_of, kind_at, kind_in, class_in, state_of};
ghost use Rattle.register_kinds.specs.Pairs.{IsBelow, AreBelow};
ghost use Rattle.register_kinds.specs.Changes.{learnt_kind, learnt_part, learnt_class, learnt};

use crate::arrays::is_array;
use crate::kind::{CellKind, RegKind};
use crate::state::{AbsState, ORIGIN};
use bpf_model::MapShape;
use scalar_domain::Scalar;

/// What is learnt at once of all that may be an element: by an unlock, or by a test for null.
#[derive(Clone, Copy, Debug, PartialEq, Eq)]
pub enum Lesson<'a> {
    /// The section ends: nothing is known to be an element any longer, but of the arrays among the maps of these
    /// shapes, the program's list.
    SectionEnds(&'a [MapShape]),
    /// What has this identity is null.
    IsNull(u32),
    /// What has this identity is an element.
    IsThere(u32),
}

/// What becomes of a kind.
fn learn_kind(lesson: Lesson<'_>, kind: RegKind) -> RegKind
    ensures kind { kind_of result ≡ learnt_kind lesson.entry (kind_of kind) }
    ensures below { (top : ℕ) → IsBelow top (kind_of kind) → IsBelow top (kind_of result) }
{
    match (lesson, kind) {
        (Lesson::SectionEnds(shapes), RegKind::Value { map, .. } | RegKind::MaybeNull { map, .. })
            if !is_array(shapes, map) => RegKind::Ended,
        (Lesson::IsNull(id), RegKind::MaybeNull { id: i, .. }) if i == id => {
            RegKind::Num(Scalar::constant(0))
        }
        (Lesson::IsThere(id), RegKind::MaybeNull { map, id: i }) if i == id => RegKind::Value {
            map,
            offset: Scalar::constant(ORIGIN),
        },
        _ => kind,
    }
}

/// What becomes of a part of this.
fn learn_part(lesson: Lesson<'_>, spill: &RegKind) -> CellKind
    ensures { result ≡ learnt_part lesson.entry spill.now }
{
    match (lesson, spill) {
        (Lesson::SectionEnds(shapes), RegKind::Value { map, .. } | RegKind::MaybeNull { map, .. })
            if !is_array(shapes, *map) => CellKind::Ended,
        (Lesson::IsNull(id), RegKind::MaybeNull { id: i, .. }) if *i == id => CellKind::Byte,
        _ => CellKind::Part,
    }
}

/// What becomes of a byte of the frame, in a group where this was stored.
fn learn_cell(lesson: Lesson<'_>, spill: &RegKind, cell: CellKind) -> CellKind
    ensures { result ≡ learnt_class lesson.entry spill.now cell }
{
    match cell {
        CellKind::Part => learn_part(lesson, spill),
        _ => cell,
    }
}

/// What becomes of each kind; those before index `from` are unwritten.
pub(crate) fn learn_kinds(lesson: Lesson<'_>, kinds: &mut [RegKind], from: usize)
    requires { (r : ℕ) → r < from → kind_in kinds.old r ≡ RegKind.Unwritten }
    ensures kinds { (r : ℕ) → kind_at kinds.new r ≡ learnt_kind lesson.entry (kind_at kinds.old r) }
    ensures below { (top r : ℕ) → IsBelow top (kind_at kinds.old r)
        → IsBelow top (kind_at kinds.new r) }
    ensures blank { (r : ℕ) → r < from → kind_in kinds.new r ≡ RegKind.Unwritten }
{
    for i in from..kinds.len() {
        kinds[i] = learn_kind(lesson, kinds[i]);
    }
}

/// What becomes of each byte of the frame; those before index `from` are unwritten.
pub(crate) fn learn_cells(
    lesson: Lesson<'_>,
    cells: &mut [CellKind],
    spills: &[RegKind],
    from: usize,
)
    requires long { length cells.old ≤ 8 * length spills.now }
    requires blank { (k : ℕ) → k < from → class_in cells.old k ≡ CellKind.Unwritten }
    ensures { (k : ℕ) → class_in cells.new k
        ≡ learnt_class lesson.entry (kind_in spills.now (k / 8)) (class_in cells.old k) }
{
    for i in from..cells.len() {
        cells[i] = learn_cell(lesson, &spills[i / 8], cells[i]);
    }
}

impl AbsState {
    /// Each register and each byte of the frame becomes what it is after this was learnt.
    pub fn learn(&mut self, lesson: Lesson<'_>)
        ensures alike { AreAlike (learnt lesson.entry (state_of self.old)) (state_of self.new) }
        ensures below { (top : ℕ) → AreBelow top self.old → AreBelow top self.new }
    {
        learn_kinds(lesson, &mut self.regs, 0);
        self.frame.learn(lesson);
    }
}
