//! The joining of registers, of spilled references and of bytes.
ghost use Rattle.std.specs.Prelude.{◌≡◌, ℕ, ◌+◌, ◌*◌, ◌/◌, ◌^◌, ◌<◌, ◌≤◌, length, IsTrue};
ghost use Rattle.register_kinds.specs.declared.identities.TheConstants.{MAX_PAIRS};
ghost use Rattle.register_kinds.specs.States.{kind_of, kind_at, kind_in, class_in, is_pointer};
ghost use Rattle.register_kinds.specs.Joined.{joined_class};
ghost use Rattle.register_kinds.specs.Pairs.{IsBelow};
ghost use Rattle.register_kinds.specs.JoinTable.{PairsGrow, IsTable, JoinsKind};

use crate::identities::{Pairs, join_identities};
use crate::kind::{CellKind, RegKind};

/// A kind becomes that of what is of either kind.
#[inline(never)]
fn join_kind(pairs: &mut Pairs, top: u32, kind: &mut RegKind, other: &RegKind)
    requires room { top + MAX_PAIRS < 2 ^ 32 }
    requires few { length pairs.old.items < MAX_PAIRS }
    requires table { IsTable pairs.old.items }
    requires below { IsBelow top (kind_of kind.old) × IsBelow top (kind_of other.now) }
    ensures joins { JoinsKind top pairs.new.items (kind_of kind.old) (kind_of other.now)
        (kind_of kind.new) }
    ensures table { IsTable pairs.new.items }
    ensures grows { PairsGrow pairs.old.items pairs.new.items }
    ensures few { length pairs.new.items ≤ length pairs.old.items + 1 }
{
    *kind = joined_kind(pairs, top, *kind, *other);
}

/// The kind of what is of either kind.
fn joined_kind(pairs: &mut Pairs, top: u32, a: RegKind, b: RegKind) -> RegKind
    requires room { top + MAX_PAIRS < 2 ^ 32 }
    requires few { length pairs.old.items < MAX_PAIRS }
    requires table { IsTable pairs.old.items }
    requires below { IsBelow top (kind_of a) × IsBelow top (kind_of b) }
    ensures joins { JoinsKind top pairs.new.items (kind_of a) (kind_of b) (kind_of result) }
    ensures table { IsTable pairs.new.items }
    ensures grows { PairsGrow pairs.old.items pairs.new.items }
    ensures few { length pairs.new.items ≤ length pairs.old.items + 1 }
{
    match (a, b) {
        (RegKind::Unwritten, _) => RegKind::Unwritten,
        (_, RegKind::Unwritten) => RegKind::Unwritten,
        (RegKind::Ended, _) => RegKind::Ended,
        (_, RegKind::Ended) => RegKind::Ended,
        (RegKind::Num(s), RegKind::Num(t)) => RegKind::Num(s.join(t)),
        (RegKind::Ctx(s), RegKind::Ctx(t)) => RegKind::Ctx(s.join(t)),
        (RegKind::Frame(o), RegKind::Frame(p)) if o == p => a,
        (RegKind::Map(m), RegKind::Map(n)) if m == n => a,
        (RegKind::Value { map: m, offset: s }, RegKind::Value { map: n, offset: t }) if m == n => {
            RegKind::Value {
                map: m,
                offset: s.join(t),
            }
        }
        (RegKind::MaybeNull { map: m, id: x }, RegKind::MaybeNull { map: n, id: y }) if m == n => {
            RegKind::MaybeNull {
                map: m,
                id: join_identities(pairs, top, x, y),
            }
        }
        _ => RegKind::Mixed,
    }
}

/// A kind becomes that of what is of either kind, with no call where both are the same, or numbers.
#[inline(always)]
fn join_into(pairs: &mut Pairs, top: u32, kind: &mut RegKind, other: &RegKind)
    requires room { top + MAX_PAIRS < 2 ^ 32 }
    requires few { length pairs.old.items < MAX_PAIRS }
    requires table { IsTable pairs.old.items }
    requires below { IsBelow top (kind_of kind.old) × IsBelow top (kind_of other.now) }
    ensures joins { JoinsKind top pairs.new.items (kind_of kind.old) (kind_of other.now)
        (kind_of kind.new) }
    ensures table { IsTable pairs.new.items }
    ensures grows { PairsGrow pairs.old.items pairs.new.items }
    ensures few { length pairs.new.items ≤ length pairs.old.items + 1 }
{
    if kind.is_same(other) {
        return;
    }
    match (&*kind, other) {
        (RegKind::Num(s), RegKind::Num(t)) => *kind = RegKind::Num(s.join(*t)),
        _ => join_kind(pairs, top, kind, other),
    }
}

/// Each kind becomes that of what is of either kind; those before index `from` are unwritten.
#[inline(always)]
pub(crate) fn join_kinds(
    pairs: &mut Pairs,
    top: u32,
    kinds: &mut [RegKind],
    others: &[RegKind],
    from: usize,
)
    requires room { top + MAX_PAIRS < 2 ^ 32 }
    requires long { length kinds.old ≡ length others.now }
    requires inside { from ≤ length others.now }
    requires few { length pairs.old.items + length others.now ≤ MAX_PAIRS }
    requires table { IsTable pairs.old.items }
    requires blank { (r : ℕ) → r < from → kind_in kinds.old r ≡ RegKind.Unwritten }
    requires below { (r : ℕ)
        → IsBelow top (kind_at kinds.old r) × IsBelow top (kind_at others.now r) }
    ensures joins { (r : ℕ) → JoinsKind top pairs.new.items
        (kind_at kinds.old r) (kind_at others.now r) (kind_at kinds.new r) }
    ensures blank { (r : ℕ) → r < from → kind_in kinds.new r ≡ RegKind.Unwritten }
    ensures table { IsTable pairs.new.items }
    ensures grows { PairsGrow pairs.old.items pairs.new.items }
    ensures few { length pairs.new.items ≤ length pairs.old.items + length others.now }
{
    for i in from..others.len() {
        join_into(pairs, top, &mut kinds[i], &others[i]);
    }
}

/// What is known of a byte of either class; `spill` is what it is part of, where it is part on both
/// sides.
fn join_cell(a: CellKind, b: CellKind, spill: &RegKind) -> CellKind
    ensures { result ≡ joined_class a b (is_pointer spill.now) }
{
    match (a, b) {
        (CellKind::Byte, CellKind::Byte) => CellKind::Byte,
        (CellKind::Part, CellKind::Part) => {
            if spill.is_pointer() {
                CellKind::Part
            } else {
                CellKind::Mixed
            }
        }
        (CellKind::Unwritten, _) | (_, CellKind::Unwritten) => CellKind::Unwritten,
        (CellKind::Ended, _) | (_, CellKind::Ended) => CellKind::Ended,
        _ => CellKind::Mixed,
    }
}

/// Whether what is known of a byte of the first class stays where it may be of the second; `kept` says
/// whether the references that were stored join to one.
fn is_kept(a: CellKind, b: CellKind, kept: bool) -> bool
    ensures { IsTrue result → joined_class a b kept ≡ a }
{
    (a == CellKind::Unwritten) | ((a == b) & (kept | (a != CellKind::Part)))
}

/// Whether what is known of each byte of a group stays.
fn are_kept(cells: &[CellKind], others: &[CellKind], at: usize, kept: bool) -> bool
    requires long { length cells.now ≡ length others.now }
    requires inside { at + 8 ≤ length cells.now }
    ensures { IsTrue result → (k : ℕ) → at ≤ k → k < at + 8
        → joined_class (class_in cells.now k) (class_in others.now k) kept ≡ class_in cells.now k }
{
    let mut all = true;
    for i in at..at + 8 {
        all &= is_kept(cells[i], others[i], kept);
    }
    all
}

/// Each byte of a group becomes what is known of it on either side; `spill` is what it is part of, where
/// it is part on both.
fn join_group(cells: &mut [CellKind], others: &[CellKind], at: usize, spill: &RegKind)
    requires long { length cells.old ≡ length others.now }
    requires inside { at + 8 ≤ length cells.old }
    ensures group { (k : ℕ) → at ≤ k → k < at + 8 → class_in cells.new k
        ≡ joined_class (class_in cells.old k) (class_in others.now k) (is_pointer spill.now) }
    ensures before { (k : ℕ) → k < at → class_in cells.new k ≡ class_in cells.old k }
    ensures behind { (k : ℕ) → at + 8 ≤ k → class_in cells.new k ≡ class_in cells.old k }
{
    if are_kept(cells, others, at, spill.is_pointer()) {
        return;
    }
    for i in at..at + 8 {
        cells[i] = join_cell(cells[i], others[i], spill);
    }
}

/// Each byte becomes what is known of it on either side; `spills` are the joined ones. Those before
/// group `from` are unwritten.
pub(crate) fn join_cells(
    cells: &mut [CellKind],
    others: &[CellKind],
    spills: &[RegKind],
    from: usize,
)
    requires long { length cells.old ≡ length others.now }
    requires spills { length cells.old ≡ 8 * length spills.now }
    requires blank { (k : ℕ) → k < 8 * from → class_in cells.old k ≡ CellKind.Unwritten }
    ensures { (k : ℕ) → class_in cells.new k
        ≡ joined_class (class_in cells.old k) (class_in others.now k) (is_pointer
        (kind_in spills.now (k / 8))) }
{
    for g in from..spills.len() {
        join_group(cells, others, 8 * g, &spills[g]);
    }
}
