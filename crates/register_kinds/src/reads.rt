//! Tests of bytes of the frame.
ghost use Rattle.std.specs.Prelude.{◌≡◌, ◌+◌, ◌/◌, ◌≤◌, length, IsTrue, IsFalse, OnOk, IfOk, IfErr, IsOk, true, Ok};
ghost use Rattle.bpf_model.specs.declared.limits.TheConstants.{FRAME_BYTES};
ghost use Rattle.register_kinds.specs.States.{kind_in, is_pointer};
ghost use Rattle.register_kinds.specs.Tests.{HasCell, HasNoCell, AreAll, AreWritten, IsCellFault, IsBytesFault};

use crate::fault::InsnFault;
use crate::frame::FrameCells;
use crate::kind::{CellKind, RegKind};
use bpf_model::FRAME_BYTES;

/// What a load from the frame gives.
#[derive(Clone, Copy, Debug, PartialEq, Eq)]
pub enum Content {
    /// Bytes of a number.
    Number,
    /// The reference, or null, that was stored there.
    Pointer(RegKind),
}

/// Whether one of the bytes of an access is of this class.
fn has(cells: &[CellKind], at: usize, width: usize, class: CellKind) -> bool
    requires { at + width ≤ length cells.now }
    ensures found { IsTrue result → HasCell cells.now at width class }
    ensures none { IsFalse result → HasNoCell cells.now at width class }
{
    for i in at..at + width {
        if cells[i] == class {
            return true;
        }
    }
    false
}

/// Whether all bytes of an access are of this class.
#[inline(always)]
fn are_all(cells: &[CellKind], at: usize, width: usize, class: CellKind) -> bool
    requires { at + width ≤ length cells.now }
    ensures all { IsTrue result → AreAll cells.now at width class }
    ensures other { IsFalse result → AreAll cells.now at width class → ⊥ }
{
    let mut all = true;
    for i in at..at + width {
        all &= cells[i] == class;
    }
    all
}

/// Whether all bytes of an access are bytes of a number.
#[inline(always)]
fn are_numbers(cells: &[CellKind], at: usize, width: usize) -> bool
    requires { at + width ≤ length cells.now }
    ensures all { IsTrue result → AreAll cells.now at width CellKind.Byte }
    ensures other { IsFalse result → AreAll cells.now at width CellKind.Byte → ⊥ }
{
    // Eight bytes are one comparison, where their number is known.
    if width == 8 {
        are_all(cells, at, 8, CellKind::Byte)
    } else {
        are_all(cells, at, width, CellKind::Byte)
    }
}

/// Each byte of an access is a byte of a number or part of a reference.
fn check_written(cells: &[CellKind], at: usize, width: usize) -> Result<(), InsnFault>
    requires { at + width ≤ length cells.now }
    ensures written { OnOk result (AreWritten cells.now at width) }
    ensures accepts { AreAll cells.now at width CellKind.Byte → IsOk result }
    ensures refuses { IfErr result (IsCellFault cells.now at width) }
{
    if has(cells, at, width, CellKind::Unwritten) {
        return Err(InsnFault::UnwrittenFrame);
    }
    if has(cells, at, width, CellKind::Ended) {
        return Err(InsnFault::OutsideSection);
    }
    if has(cells, at, width, CellKind::Mixed) {
        return Err(InsnFault::MixedRegions);
    }
    Ok(())
}

/// Each byte of an access is a byte of a number. Errors, in this order: `UnwrittenFrame`,
/// `OutsideSection`, `MixedRegions` where some byte is so, `PointerLeak` where one is part of a
/// reference.
pub fn check_bytes(frame: &FrameCells, at: usize, width: usize) -> Result<(), InsnFault>
    requires { at + width ≤ FRAME_BYTES }
    ensures bytes { OnOk result (AreAll frame.now.cells at width CellKind.Byte) }
    ensures accepts { AreAll frame.now.cells at width CellKind.Byte → IsOk result }
    ensures refuses { IfErr result (IsBytesFault frame.now.cells at width) }
{
    check_written(&frame.cells, at, width)?;
    if has(&frame.cells, at, width, CellKind::Part) {
        return Err(InsnFault::PointerLeak);
    }
    Ok(())
}

/// What a load of so many bytes gives: a number, or the reference whose eight parts are read.
/// Errors, in this order: `UnwrittenFrame`, `OutsideSection`, `MixedRegions` where some byte is so,
/// `PointerLeak` where one is part of a reference that is not read whole.
pub fn read_frame(frame: &FrameCells, at: usize, width: usize) -> Result<Content, InsnFault>
    requires { at + width ≤ FRAME_BYTES }
    ensures number { IfOk result (λ c. c ≡ Content.Number
        → AreAll frame.now.cells at width CellKind.Byte) }
    ensures pointer { IfOk result (λ c. (kind : RegKind) → c ≡ Content.Pointer kind
        → (width ≡ 8) × (kind_in frame.now.spills (at / 8) ≡ kind) × (is_pointer kind ≡ true)
        × AreAll frame.now.cells at width CellKind.Part) }
    ensures accepts { AreAll frame.now.cells at width CellKind.Byte → result ≡ Ok Content.Number }
{
    if are_numbers(&frame.cells, at, width) {
        return Ok(Content::Number);
    }
    check_written(&frame.cells, at, width)?;
    if width != 8 || has(&frame.cells, at, width, CellKind::Byte) {
        return Err(InsnFault::PointerLeak);
    }
    let kind = frame.spills[at / 8];
    if !kind.is_pointer() {
        return Err(InsnFault::PointerLeak);
    }
    Ok(Content::Pointer(kind))
}
