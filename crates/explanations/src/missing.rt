//! Which bytes of the frame an instruction reads, and what is known of them.

use crate::access::loaded;
use crate::causes::{is_outside, led_to};
use crate::lost::write_lost_byte;
use crate::place::{Place, helper_of};
use bpf_model::{ArgumentKind, FRAME_BYTES, Helper, Reg};
use register_kinds::{InsnFault, RegKind, check_bytes};
use std::alloc::Global;
use std::io;
use std::io::Write;
use verifier_log::write_group;

/// Bytes of the frame that an instruction reads: for what, which one is the first, and how many.
#[derive(Clone, Copy)]
struct FramePart {
    what: &'static str,
    first: usize,
    length: usize,
}

/// The bytes at a reference and an offset from it, where that leads to the frame.
fn part_at(
    place: Place<'_>,
    base: Reg,
    offset: i16,
    what: &'static str,
    length: usize,
) -> Option<FramePart> {
    let Some(RegKind::Frame(at)) = place.kind(base) else {
        return None;
    };
    let first = usize::try_from(i64::from(*at) + i64::from(offset)).ok()?;
    Some(FramePart {
        what,
        first,
        length,
    })
}

/// The bytes that an argument of a helper leads to, by the kind of the argument.
fn part_of_argument(place: Place<'_>, register: Reg, kind: ArgumentKind) -> Option<FramePart> {
    let (what, length) = led_to(kind, place.shape_of_call()?)?;
    part_at(place, register, 0, what, length)
}

/// What is said of a byte of the frame for which an instruction has this fault.
fn byte_words(fault: InsnFault) -> Option<&'static str> {
    match fault {
        InsnFault::UnwrittenFrame => Some("not written on every path"),
        InsnFault::PointerLeak => Some("part of a pointer or map"),
        InsnFault::MixedRegions => Some("of different kinds on different paths"),
        InsnFault::OutsideSection => Some(
            "on some path part of a reference to an element, whose section has ended",
        ),
        _ => None,
    }
}

/// The first of these bytes for which the instruction has its fault.
fn first_refused(place: Place<'_>, part: FramePart) -> Option<usize> {
    let end = part.first.saturating_add(part.length).min(FRAME_BYTES);
    for at in part.first..end {
        if check_bytes(&place.state.frame, at, 1) == Err(place.fault) {
            return Some(at);
        }
    }
    None
}

/// Writes how a byte of the frame came to be unreadable for which the instruction has its fault.
fn write_lost<W: Write>(alloc: Global, out: &mut W, place: Place<'_>, at: usize) -> io::Result<()> {
    let bad = match place.fault {
        InsnFault::UnwrittenFrame => RegKind::Unwritten,
        InsnFault::OutsideSection => RegKind::Ended,
        InsnFault::MixedRegions => RegKind::Mixed,
        _ => return Ok(()),
    };
    write_lost_byte(alloc, place.told, place.index, at, bad, out)
}

/// Writes the first of these bytes for which the instruction has its fault, counted from r10, and below it the pointer or map of
/// which the byte is part, or how it came to be unreadable. Whether there is such a byte.
fn write_first_of_part<W: Write>(
    alloc: Global,
    out: &mut W,
    place: Place<'_>,
    part: FramePart,
) -> io::Result<bool> {
    let (Some(words), Some(at)) = (byte_words(place.fault), first_refused(place, part)) else {
        return Ok(false);
    };
    let FramePart {
        what,
        first,
        length,
    } = part;
    let (below, start) = (
        FRAME_BYTES.saturating_sub(at),
        FRAME_BYTES.saturating_sub(first),
    );
    writeln!(
        out,
        "  {words}: r10-{below} ({what} at r10-{start}, length {length})"
    )?;
    let group = at / 8;
    if place.fault == InsnFault::PointerLeak && group < 64 {
        write_group(out, place.told.source, &place.state.frame, group)?;
    }
    write_lost(alloc, out, place, at)?;
    Ok(true)
}

/// Writes the first byte to which the arguments of a helper lead and for which its call has its fault.
fn write_first_of_call<W: Write>(
    alloc: Global,
    out: &mut W,
    place: Place<'_>,
    helper: Helper,
) -> io::Result<()> {
    for (index, kind) in helper.arguments().iter().enumerate() {
        let Some(register) = Reg::new(index as u8 + 1) else {
            return Ok(());
        };
        match part_of_argument(place, register, *kind) {
            Some(part) => {
                if write_first_of_part(alloc, out, place, part)? {
                    return Ok(());
                }
            }
            None if matches!(kind, ArgumentKind::KeyOfMap | ArgumentKind::ValueOfMap) => {
                return Ok(());
            }
            None => {}
        }
    }
    Ok(())
}

/// The bytes of the frame that a load reads.
fn part_of_load(place: Place<'_>) -> Option<FramePart> {
    let access = loaded(place.insn)?;
    part_at(place, access.base, access.offset, "read", access.length)
}

/// Writes a line for the eight bytes of the frame of which a load reads some, as a log has it.
fn write_loaded<W: Write>(out: &mut W, place: Place<'_>, part: FramePart) -> io::Result<()> {
    let group = part.first / 8;
    if group >= 64 || write_group(out, place.told.source, &place.state.frame, group)? {
        return Ok(());
    }
    let below = FRAME_BYTES.saturating_sub(group.saturating_mul(8));
    let words = byte_words(place.fault).unwrap_or("");
    writeln!(out, "  r10-{below}: {words}")
}

/// Writes which bytes of the frame that an instruction reads are the cause of its fault, if some are.
pub fn write_bytes_read<W: Write>(alloc: Global, out: &mut W, place: Place<'_>) -> io::Result<()> {
    if let Some(part) = part_of_load(place) {
        if matches!(
            place.fault,
            InsnFault::PointerLeak | InsnFault::MixedRegions
        ) {
            write_loaded(out, place, part)?;
            return match first_refused(place, part) {
                Some(at) => write_lost(alloc, out, place, at),
                None => Ok(()),
            };
        }
        write_first_of_part(alloc, out, place, part)?;
        return Ok(());
    }
    match helper_of(place.insn) {
        Some(helper) if !is_outside(place, helper) => {
            write_first_of_call(alloc, out, place, helper)
        }
        _ => Ok(()),
    }
}
