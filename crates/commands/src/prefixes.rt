//! Digits with `0x` before them, in a line of a program file, where they stand alone.

use std::io;
use std::io::Write;
use texts::has_prefix;

/// What is said of such digits in a line of slots, or in one above these.
fn words_of(is_slots: bool) -> &'static str {
    if is_slots {
        "  a slot's digits stand without `0x`"
    } else {
        "  numbers are decimal, without `0x`"
    }
}

/// Writes that digits stand alone, where the line of this number of a text, counted from 1, has some with `0x` before them.
/// Below a line `code` they are a slot's.
///
/// An error says that nothing more could be written.
pub fn explain_prefix<W: Write>(out: &mut W, text: &[u8], number: usize) -> io::Result<()> {
    let count = number.saturating_sub(1);
    let line = text.split(|byte| *byte == b'\n').nth(count).unwrap_or(&[]);
    if line.split(|byte| *byte == b' ').any(has_prefix) {
        let mut above = text.split(|byte| *byte == b'\n').take(count);
        let is_slots = above.any(|line| line == b"code".as_slice());
        writeln!(out, "{}", words_of(is_slots))?;
    }
    Ok(())
}
