//! The words of registers, as numbers or as places in memory.

use bpf_model::{FRAME_BYTES, MAX_ENTRIES, MAX_SPARE, MapId, NEAR_LIMIT};
use machine::{CTX_BASE, FRAME_BASE, MAP_BASE, SLOT_BASE, SPAN};
use maps::Registry;
use std::io;
use std::io::Write;

/// The numbers of the regions of the context, the frame, all maps and the first map slot.
const CONTEXT: u64 = CTX_BASE / SPAN;

const FRAME: u64 = FRAME_BASE / SPAN;

const MAPS: u64 = MAP_BASE / SPAN;

const SLOTS: u64 = SLOT_BASE / SPAN;

/// So many map slots are kept for each map, each a region of its own.
const MAP_SLOTS: u64 = (MAX_ENTRIES + MAX_SPARE) as u64;

/// The number of the region near whose first byte a word lies, and the word's offset from there.
fn region_of(word: u64) -> (u64, i64) {
    let region = word / SPAN + (word % SPAN + NEAR_LIMIT) / SPAN;
    (
        region,
        word.wrapping_sub(region.wrapping_mul(SPAN)).cast_signed(),
    )
}

/// The byte of the frame to which a word leads, if it leads there.
pub fn frame_place(word: u64) -> Option<usize> {
    let (region, offset) = region_of(word);
    if region == FRAME {
        usize::try_from(offset).ok()
    } else {
        None
    }
}

/// The map that a word is, if it is one: words of maps lie as far behind that of map 0 as their numbers say.
pub fn map_of(maps: &Registry, word: u64) -> Option<MapId> {
    let (region, offset) = region_of(word);
    let number = offset.unsigned_abs();
    if region == MAPS && offset >= 0 && number < maps.len() as u64 {
        Some(MapId::new(number as usize))
    } else {
        None
    }
}

/// Writes bytes as hexadecimal digits.
pub fn write_bytes<W: Write>(out: &mut W, bytes: &[u8]) -> io::Result<()> {
    for byte in bytes {
        write!(out, "{byte:02x}")?;
    }
    Ok(())
}

/// Writes a map by its number in the world, and its name.
pub fn write_map<W: Write>(out: &mut W, maps: &Registry, map: MapId) -> io::Result<()> {
    let number = map.index();
    match maps.name(map) {
        Some(name) => write!(out, "map {number} ({name})"),
        None => write!(out, "map {number}"),
    }
}

/// Writes an offset from the first byte of a region, with its sign; nothing where it is none.
fn write_offset<W: Write>(out: &mut W, offset: i64) -> io::Result<()> {
    if offset == 0 {
        return Ok(());
    }
    let sign = if offset < 0 { '-' } else { '+' };
    let distance = offset.unsigned_abs();
    write!(out, "{sign}{distance}")
}

/// Writes which negative number a word stands for, if it does.
fn write_signed<W: Write>(out: &mut W, number: i64) -> io::Result<()> {
    if number < 0 {
        return write!(out, " ({number})");
    }
    Ok(())
}

/// Writes which map a word is, if it is one, else which negative number it stands for.
fn write_map_word<W: Write>(out: &mut W, maps: &Registry, word: u64) -> io::Result<()> {
    let Some(map) = map_of(maps, word) else {
        return write_signed(out, word.cast_signed());
    };
    write!(out, " (")?;
    write_map(out, maps, map)?;
    write!(out, ")")
}

/// Writes which place in memory a word would be, if it is one: the context, the frame, counted from r10, a map slot, a map;
/// or which negative number it stands for.
pub fn write_place<W: Write>(out: &mut W, maps: &Registry, word: u64) -> io::Result<()> {
    let (region, offset) = region_of(word);
    if region == CONTEXT {
        write!(out, " (the context")?;
    } else if region == FRAME {
        write!(out, " (r10")?;
        write_offset(out, offset.saturating_sub(FRAME_BYTES as i64))?;
        return write!(out, ")");
    } else if region >= SLOTS && region < SLOTS + MAP_SLOTS * maps.len() as u64 {
        let number = region - SLOTS;
        let slot = number % MAP_SLOTS;
        write!(out, " (slot {slot} of ")?;
        write_map(out, maps, MapId::new((number / MAP_SLOTS) as usize))?;
    } else {
        return write_map_word(out, maps, word);
    }
    write_offset(out, offset)?;
    write!(out, ")")
}
