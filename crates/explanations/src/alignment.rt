//! How an access begins at no multiple of its width, in words.

ghost use Rattle.std.specs.Prelude.{◌≤◌};

use crate::access::{Access, accessed};
use crate::place::Place;
use bpf_model::{FRAME_BYTES, Insn, Operand};
use register_kinds::{ORIGIN, RegKind};
use scalar_domain::Scalar;
use std::io;
use std::io::Write;

/// Writes at which byte of its region an access begins or may begin, by a reference at these offsets and so far behind it.
fn write_region<W: Write>(
    out: &mut W,
    offsets: &Scalar,
    behind: i64,
    width: usize,
) -> io::Result<()> {
    if offsets.least != offsets.greatest {
        return write!(
            out,
            "  it may begin at a byte that is no multiple of {width}"
        );
    }
    let first = offsets.least.wrapping_sub(ORIGIN).cast_signed();
    let place = first.saturating_add(behind);
    write!(
        out,
        "  it begins at byte {place}, which is no multiple of {width}"
    )
}

/// A number that 2 and 4 divide only where they divide each place at which an access may begin; of one offset alone that place.
fn bits_of(offsets: &Scalar, behind: i64) -> u64 {
    let more = behind.cast_unsigned();
    if offsets.least == offsets.greatest {
        offsets.least.wrapping_add(more)
    } else {
        offsets.may | more
    }
}

/// How many bytes may be accessed at once where a number with these bits is the place: the most, and fewer than `width`.
fn piece_of(bits: u64, width: usize) -> usize
    ensures { 1 ≤ result }
{
    if width > 4 && bits % 4 == 0 {
        4
    } else if width > 2 && bits % 2 == 0 {
        2
    } else {
        1
    }
}

/// Writes in which pieces an access may be made instead, where a number with these bits is the place.
fn write_pieces<W: Write>(out: &mut W, insn: &Insn, bits: u64, width: usize) -> io::Result<()> {
    let piece = piece_of(bits, width);
    let count = width / piece;
    let unit = if piece == 1 { "byte" } else { "bytes" };
    match insn {
        Insn::Store { .. } => writeln!(out, ": write {count} stores of {piece} {unit}"),
        Insn::LoadSigned { .. } => writeln!(
            out,
            ": write {count} loads of {piece} {unit}, the highest with its sign, and put them together by `lsh64` and `or64`"
        ),
        _ => writeln!(
            out,
            ": write {count} loads of {piece} {unit}, and put them together by `lsh64` and `or64`"
        ),
    }
}

/// Writes where an access begins by a reference at these offsets, and in which pieces it may be made.
fn write_at_offsets<W: Write>(
    out: &mut W,
    insn: &Insn,
    access: Access,
    offsets: &Scalar,
) -> io::Result<()> {
    let behind = i64::from(access.offset);
    write_region(out, offsets, behind, access.length)?;
    write_pieces(out, insn, bits_of(offsets, behind), access.length)
}

/// Whether an instruction stores a pointer or a map, which is stored whole.
fn stores_pointer(place: Place<'_>) -> bool {
    match place.insn {
        Insn::Store {
            src: Operand::Register(src),
            ..
        } => place.kind(*src).is_some_and(|kind| kind.is_pointer()),
        _ => false,
    }
}

/// Writes where a load or a store begins that begins at no multiple of its width, and what to write instead.
pub fn write_alignment<W: Write>(out: &mut W, place: Place<'_>) -> io::Result<()> {
    let insn = place.insn;
    let Some(access) = accessed(insn) else {
        return Ok(());
    };
    match place.kind(access.base) {
        Some(RegKind::Frame(at)) => {
            let first = i64::from(*at) - FRAME_BYTES as i64 + i64::from(access.offset);
            let width = access.length;
            write!(
                out,
                "  it begins at r10{first:+}, which is no multiple of {width}"
            )?;
            if stores_pointer(place) {
                return writeln!(
                    out,
                    ": a pointer stands in the frame whole, at such a multiple"
                );
            }
            write_pieces(out, insn, first.cast_unsigned(), width)
        }
        Some(RegKind::Ctx(offsets)) => write_at_offsets(out, insn, access, offsets),
        Some(RegKind::Value { offset, .. }) => write_at_offsets(out, insn, access, offset),
        _ => Ok(()),
    }
}
