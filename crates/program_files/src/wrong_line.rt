//! A line of a text that is wrong, and what a line of a program file may be.

use crate::likeness::{first_word, is_assembly, is_instruction, text_in};
use bpf_model::{CTX_BYTES, KEY_BYTES, MAX_ENTRIES, MAX_MAPS, MAX_REUSE, MAX_SPARE, VALUE_BYTES};
use maps::NAME_BYTES;
use std::io;
use std::io::Write;

/// Writes a text as it is.
fn write_text<W: Write>(out: &mut W, text: &str) -> io::Result<()> {
    out.write_all(text.as_bytes())
}

/// A text from the line of this number on, counted from 1.
fn from_line(text: &[u8], number: usize) -> &[u8] {
    let mut parts = text.splitn(number, |byte| *byte == b'\n');
    parts.nth(number.saturating_sub(1)).unwrap_or(&[])
}

/// The most columns of a line that are shown.
const SHOWN: usize = 120;

/// The bytes that stand in quotes as two.
const ESCAPED: [(u8, &[u8]); 4] = [
    (b'\t', b"\\t"),
    (b'\r', b"\\r"),
    (b'"', b"\\\""),
    (b'\\', b"\\\\"),
];

/// Writes a text in quotes, where bytes that are no printable ASCII are escaped: as much of it as these columns have room for,
/// and then `..` where that is not all.
///
/// An error says that nothing more could be written.
pub fn write_quoted<W: Write>(out: &mut W, text: &[u8], most: usize) -> io::Result<()> {
    write_text(out, "\"")?;
    let digits = b"0123456789abcdef";
    let mut columns: usize = 0;
    for byte in text {
        let (high, low) = (usize::from(*byte / 16), usize::from(*byte % 16));
        let (plain, number) = ([*byte], [b'\\', b'x', digits[high], digits[low]]);
        let shown: &[u8] = match ESCAPED.iter().find(|row| row.0 == *byte) {
            Some(row) => row.1,
            None if b' ' <= *byte && *byte <= b'~' => &plain,
            None => &number,
        };
        columns = columns.saturating_add(shown.len());
        if columns > most {
            return write_text(out, "..\"");
        }
        out.write_all(shown)?;
    }
    write_text(out, "\"")
}

/// How a line of a map is written, but for its name.
const MAP_FORMS: &str =
    "  a line here is `map NAME KEY VALUE ENTRIES SPARE REUSE`, `map NAME array VALUE ENTRIES` or `code`";

/// Writes how a line of a map is written.
fn write_map_forms<W: Write>(out: &mut W) -> io::Result<()> {
    writeln!(out, "{MAP_FORMS}")?;
    writeln!(
        out,
        "  NAME: 1 to {NAME_BYTES} of a to z, 0 to 9 and _, the first a letter, and no other map's; at most {MAX_MAPS} maps"
    )?;
    writeln!(
        out,
        "  KEY 1 to {KEY_BYTES}, VALUE 1 to {VALUE_BYTES}, ENTRIES 1 to {MAX_ENTRIES}, SPARE 0 to {MAX_SPARE}, REUSE 1 to {MAX_REUSE}"
    )
}

/// Writes the line of this number of a text, counted from 1, in quotes, and its number among all lines, so many of which
/// stand above the text.
///
/// An error says that nothing more could be written.
pub fn write_line<W: Write>(
    out: &mut W,
    text: &[u8],
    number: usize,
    above: usize,
) -> io::Result<()> {
    let rest = from_line(text, number);
    let shown = above.saturating_add(number);
    if rest.is_empty() {
        return writeln!(out, "at {shown}: the text ends here");
    }
    write!(out, "at {shown}: ")?;
    let line = rest.split(|byte| *byte == b'\n').next().unwrap_or(&[]);
    write_quoted(out, line, SHOWN)?;
    write_text(out, "\n")
}

/// What is said of assembly in a program file.
const ASSEMBLY: &str =
    "  assembly stands here: leave the line `bpfrt 1` out, then `bpfrt check --asm` checks it, and `bpfrt asm --file` makes a \
    program file of it\n";

/// What is said of blanks.
const BLANKS: &str =
    "  one space parts words, and none begins or ends a line; no line is empty or a comment\n";

/// Writes the line of this number of a text, counted from 1, which no program file has there, and what it may be. The
/// line of the context is the one below so many lines of a heading.
///
/// An error says that nothing more could be written.
pub fn write_wrong_line<W: Write>(
    out: &mut W,
    text: &[u8],
    number: usize,
    heading: usize,
) -> io::Result<()> {
    write_line(out, text, number, 0)?;
    let mut above = text
        .split(|byte| *byte == b'\n')
        .take(number.saturating_sub(1))
        .skip(1);
    let is_code = above.any(|line| line == b"code".as_slice());
    let (rest, _) = text_in(from_line(text, number));
    let line = rest.lines().next().unwrap_or("");
    let is_instruction = is_code || (is_instruction(line) && first_word(line) != "ctx");
    if heading > 0 && is_instruction && is_assembly(rest) {
        write_text(out, ASSEMBLY)?;
    } else if number == heading.saturating_add(1) {
        writeln!(
            out,
            "  a line here is `ctx N`: the length of the context in bytes, 0 to {CTX_BYTES}"
        )?;
    } else if is_code {
        writeln!(
            out,
            "  a line here has slots, each of 16 hexadecimal digits"
        )?;
    } else {
        write_map_forms(out)?;
    }
    write_text(out, BLANKS)
}
