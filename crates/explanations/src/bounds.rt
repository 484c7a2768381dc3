//! How an access leaves its region, in words.

use crate::access::{Access, accessed};
use crate::place::Place;
use bpf_model::FRAME_BYTES;
use register_kinds::{ORIGIN, RegKind};
use scalar_domain::Scalar;
use std::io;
use std::io::Write;

/// The first and the last byte that an access may reach, and whether there is but one offset. Bytes are counted from the
/// start of the region, those of the frame from r10.
#[derive(Clone, Copy)]
struct Reach {
    first: i64,
    last: i64,
    is_known: bool,
}

/// How an access leaves its region.
fn way_of(reach: Reach, begin: i64, end: i64) -> &'static str {
    let is_before = reach.first < begin;
    let is_past = reach.last >= end;
    match (reach.is_known, is_before, is_past) {
        (true, true, _) => "begins before",
        (true, false, _) => "ends past",
        (false, true, true) => "may begin before and end past",
        (false, true, false) => "may begin before",
        (false, false, _) => "may end past",
    }
}

/// What an access may reach where its reference leads from one place to another.
fn reach_of(access: Access, least: i64, greatest: i64) -> Reach {
    let by = i64::from(access.offset);
    let more = i64::try_from(access.length).unwrap_or(1).saturating_sub(1);
    Reach {
        first: least.saturating_add(by),
        last: greatest.saturating_add(by).saturating_add(more),
        is_known: least == greatest,
    }
}

/// Writes which bytes of the frame or beside it an access reaches.
fn write_frame<W: Write>(out: &mut W, access: Access, at: i32) -> io::Result<()> {
    let bytes = FRAME_BYTES as i64;
    let place = i64::from(at) - bytes;
    let reach = reach_of(access, place, place);
    let Reach { first, last, .. } = reach;
    write!(out, "  it reaches r10{first:+}")?;
    if last != first {
        write!(out, " to r10{last:+}")?;
    }
    let way = way_of(reach, -bytes, 0);
    writeln!(
        out,
        ", and {way} the frame, which is r10-{FRAME_BYTES} to r10-1"
    )
}

/// An offset from the start of a region, of a number that is kept higher.
fn lowered(offset: u64) -> i64 {
    i64::try_from(offset)
        .unwrap_or(i64::MAX)
        .saturating_sub(ORIGIN as i64)
}

/// Writes which bytes of a region an access reaches.
fn write_reach<W: Write>(out: &mut W, reach: Reach) -> io::Result<()> {
    let Reach { first, last, .. } = reach;
    let verb = if reach.is_known {
        "reaches"
    } else {
        "may reach"
    };
    if first == last {
        write!(out, "  it {verb} byte {first}")
    } else {
        write!(out, "  it {verb} bytes {first} to {last}")
    }
}

/// Writes which bytes of a region of this length or beside it an access reaches.
fn write_region<W: Write>(
    out: &mut W,
    access: Access,
    offsets: &Scalar,
    region: &str,
    length: usize,
) -> io::Result<()> {
    let reach = reach_of(access, lowered(offsets.least), lowered(offsets.greatest));
    write_reach(out, reach)?;
    let way = way_of(reach, 0, i64::try_from(length).unwrap_or(i64::MAX));
    write!(out, ", and {way} the {region}, which ")?;
    match length {
        0 => writeln!(out, "has no bytes"),
        1 => writeln!(out, "is byte 0"),
        _ => {
            let last = length.saturating_sub(1);
            writeln!(out, "is bytes 0 to {last}")
        }
    }
}

/// Writes how a load or a store leaves the region to which its register leads.
pub fn write_bounds<W: Write>(out: &mut W, place: Place<'_>) -> io::Result<()> {
    let Some(access) = accessed(place.insn) else {
        return Ok(());
    };
    match place.kind(access.base) {
        Some(RegKind::Frame(at)) => write_frame(out, access, *at),
        Some(RegKind::Ctx(offsets)) => {
            write_region(out, access, offsets, "context", place.told.source.ctx_len)
        }
        Some(RegKind::Value { map, offset }) => match place.shape(*map) {
            Some(shape) => write_region(out, access, offset, "value", shape.value_len),
            None => Ok(()),
        },
        _ => Ok(()),
    }
}
