//! What is known of a register, in words.

use bpf_model::{FRAME_BYTES, MapId};
use program_files::Source;
use register_kinds::{ORIGIN, RegKind};
use scalar_domain::Scalar;
use std::io;
use std::io::Write;

/// The greatest power of two, 1 to 2^63, of which each of these numbers is a multiple.
fn step_of(numbers: &Scalar) -> u64 {
    1u64 << numbers.may.trailing_zeros().min(63)
}

/// Writes that numbers are multiples of some power of two, where they are.
fn write_step<W: Write>(out: &mut W, numbers: &Scalar) -> io::Result<()> {
    let step = step_of(numbers);
    if step > 1 {
        write!(out, ", a multiple of {step}")?;
    }
    Ok(())
}

/// Writes which numbers a register may hold.
fn write_numbers<W: Write>(out: &mut W, numbers: &Scalar) -> io::Result<()> {
    if numbers.least == numbers.greatest {
        let number = numbers.least;
        return write!(out, "the number {number}");
    }
    if numbers.least == 0 && numbers.greatest == u64::MAX {
        write!(out, "any number")?;
    } else {
        let least = numbers.least;
        let greatest = numbers.greatest;
        write!(out, "a number from {least} to {greatest}")?;
    }
    write_step(out, numbers)
}

/// Writes the offset that a number stands for.
fn write_offset<W: Write>(out: &mut W, number: u64) -> io::Result<()> {
    let offset = number.wrapping_sub(ORIGIN).cast_signed();
    write!(out, "{offset}")
}

/// Writes at which offsets a reference may be.
fn write_offsets<W: Write>(out: &mut W, offsets: &Scalar) -> io::Result<()> {
    if offsets.least == offsets.greatest {
        write!(out, ", at offset ")?;
        return write_offset(out, offsets.least);
    }
    write!(out, ", at an offset from ")?;
    write_offset(out, offsets.least)?;
    write!(out, " to ")?;
    write_offset(out, offsets.greatest)?;
    write_step(out, offsets)
}

/// Writes where in the frame a reference is, from r10 on.
fn write_place<W: Write>(out: &mut W, offset: i32) -> io::Result<()> {
    let place = i64::from(offset) - FRAME_BYTES as i64;
    write!(out, "the frame, at r10{place:+}")
}

/// The name of so many bytes.
fn unit(count: usize) -> &'static str {
    if count == 1 { "byte" } else { "bytes" }
}

/// Writes where in the context of the program a reference is.
fn write_context<W: Write>(out: &mut W, source: &Source, offsets: &Scalar) -> io::Result<()> {
    let length = source.ctx_len;
    let unit = unit(length);
    write!(out, "the context, of {length} {unit}")?;
    write_offsets(out, offsets)
}

/// Writes a map by its place in the program's list, and its name.
fn write_map<W: Write>(out: &mut W, source: &Source, map: u32) -> io::Result<()> {
    match source.registry.name(MapId::new(map as usize)) {
        Some(name) => write!(out, "map {map} ({name})"),
        None => write!(out, "map {map}"),
    }
}

/// Writes a map, and the lengths of its keys and values.
fn write_lengths<W: Write>(out: &mut W, source: &Source, map: u32) -> io::Result<()> {
    write_map(out, source, map)?;
    let Some(shape) = source.registry.shape(MapId::new(map as usize)) else {
        return Ok(());
    };
    let (key_len, value_len) = (shape.key_len, shape.value_len);
    let unit = unit(key_len);
    write!(out, ", keys of {key_len} {unit}, values of {value_len}")
}

/// Writes where in the value of an element of the program's map of this number a reference is.
fn write_value<W: Write>(
    out: &mut W,
    source: &Source,
    map: u32,
    offsets: &Scalar,
) -> io::Result<()> {
    write!(out, "the value of an element of ")?;
    write_map(out, source, map)?;
    if let Some(shape) = source.registry.shape(MapId::new(map as usize)) {
        let length = shape.value_len;
        let unit = unit(length);
        write!(out, ", of {length} {unit}")?;
    }
    write_offsets(out, offsets)
}

/// Writes what is known of a register, in the program of a file.
pub fn write_kind<W: Write>(out: &mut W, source: &Source, kind: &RegKind) -> io::Result<()> {
    match kind {
        RegKind::Unwritten => write!(out, "not written on every path, or not since a call"),
        RegKind::Ended => write!(
            out,
            "on some path a reference to an element, whose section has ended"
        ),
        RegKind::Mixed => write!(out, "of different kinds on different paths"),
        RegKind::Num(numbers) => write_numbers(out, numbers),
        RegKind::Ctx(offsets) => write_context(out, source, offsets),
        RegKind::Frame(offset) => write_place(out, *offset),
        RegKind::Map(map) => write_lengths(out, source, *map),
        RegKind::Value { map, offset } => write_value(out, source, *map, offset),
        RegKind::MaybeNull { map, .. } => {
            write!(out, "what a lookup in ")?;
            write_map(out, source, *map)?;
            write!(out, " gave, which may be null")
        }
    }
}

/// Whether some bit of the numbers is known.
fn is_bit_known(numbers: &Scalar) -> bool {
    numbers.must != 0 || numbers.may != u64::MAX
}

/// Writes the known bits of a number that may be one of several: first those that are 1, then those that may be either.
pub fn write_bits<W: Write>(out: &mut W, kind: &RegKind) -> io::Result<()> {
    match kind {
        RegKind::Num(numbers) if numbers.least != numbers.greatest && is_bit_known(numbers) => {
            let ones = numbers.must;
            let either = numbers.may & !numbers.must;
            write!(out, ", var_off=(0x{ones:x}; 0x{either:x})")
        }
        _ => Ok(()),
    }
}
