//! What bytes look like that are not what was asked for.

use crate::loader::HEADING;
use disasm::mnemonic_named;
use std::io::Write;
use std::{io, str};

/// What bytes look like.
#[derive(Clone, Copy, Debug, PartialEq, Eq)]
pub enum Likeness {
    /// What a compiler writes.
    Object,
    /// A text of UTF-8 behind a byte-order mark.
    Marked,
    /// A text that begins as a program file does.
    ProgramFile,
    /// A program file with carriage returns.
    CarriageReturns,
    /// A program file but for its first line.
    Headless,
    /// What `tcpdump -ddd` writes.
    Listing,
    Assembly,
    /// Another text.
    Text,
}

impl Likeness {
    /// What it is, and what makes a program file of it.
    pub fn words(self) -> &'static str {
        match self {
            Likeness::Object =>
                "an object: examples/c/build makes a program file of what clang wrote",
            Likeness::Marked => "a text behind a byte-order mark, which is to go",
            Likeness::ProgramFile => "a program file, which `bpfrt check` reads",
            Likeness::CarriageReturns =>
                "a program file whose lines end in CR LF: `bpfrt check` reads it once the carriage returns are taken out",
            Likeness::Headless => "a program file without its first line, which is `bpfrt 1`",
            Likeness::Listing =>
                "what `tcpdump -ddd` writes: `bpfrt filter` makes a program file of it",
            Likeness::Assembly =>
                "assembly: `bpfrt check --asm` checks it, `bpfrt asm --file` makes a program file of it",
            Likeness::Text =>
                "text: `bpfrt asm --file` makes a program file of assembly, examples/c/build of C",
        }
    }
}

/// How many bytes of a text are looked at.
pub const SEEN: usize = 4096;

/// The text with which bytes begin, so far as they are looked at, and whether it ends only where they do.
pub(crate) fn text_in(bytes: &[u8]) -> (&str, bool) {
    let first = bytes.get(..bytes.len().min(SEEN)).unwrap_or(&[]);
    match str::from_utf8(first) {
        Ok(text) => (text, true),
        Err(error) => {
            let sound = first.get(..error.valid_up_to()).unwrap_or(&[]);
            (
                str::from_utf8(sound).unwrap_or(""),
                error.error_len().is_none(),
            )
        }
    }
}

/// Whether a line is so many decimal numbers.
fn has_numbers(line: Option<&str>, count: usize) -> bool {
    let line = line.unwrap_or("");
    let is_digit = |byte: &u8| byte.is_ascii_digit();
    line.split(' ').count() == count
        && line.split(' ').all(|word| !word.is_empty() && word.as_bytes().iter().all(is_digit))
}

/// The first word of a text; an empty one where there is none.
pub(crate) fn first_word(line: &str) -> &str {
    line.split_ascii_whitespace().next().unwrap_or("")
}

/// Whether a line is one of assembly, by its first word.
pub(crate) fn is_instruction(line: &str) -> bool {
    let word = first_word(line);
    word == "ctx" || word == ".equ" || line.trim().ends_with(':') || mnemonic_named(word).is_some()
}

/// Whether a text is assembly: of the lines that are not empty and no comments, the first is, or half.
pub(crate) fn is_assembly(text: &str) -> bool {
    let (mut lines, mut instructions): (usize, usize) = (0, 0);
    for line in text.lines() {
        let word = first_word(line);
        if !word.is_empty() && !word.starts_with(';') {
            if lines == 0 && is_instruction(line) {
                return true;
            }
            lines = lines.saturating_add(1);
            instructions = instructions.saturating_add(usize::from(is_instruction(line)));
        }
    }
    instructions > 0 && instructions.saturating_mul(2) >= lines
}

/// Whether bytes are hexadecimal digits, or none.
pub fn are_hexadecimal(bytes: &[u8]) -> bool {
    bytes.iter().all(|byte| byte.is_ascii_hexdigit())
}

/// Whether a word is a slot of a program file.
pub fn is_slot(word: &str) -> bool {
    word.len() == 16 && are_hexadecimal(word.as_bytes())
}

/// Whether a text has slots behind a line `code`, as a program file has.
pub fn has_slots(text: &str) -> bool {
    let parts = text.split_once("\ncode\n");
    parts.is_some_and(|(_, below)| is_slot(first_word(below)))
}

/// How bytes begin that this alone tells, and what they look like.
const BEGINNINGS: [(&[u8], Likeness); 4] = [
    (b"\x7fELF", Likeness::Object),
    (b"\xef\xbb\xbf", Likeness::Marked),
    (HEADING, Likeness::ProgramFile),
    (b"bpfrt 1\r\n", Likeness::CarriageReturns),
];

/// What a text looks like, by its first lines.
fn likeness_of_text(text: &str) -> Likeness {
    let mut lines = text.lines();
    if has_numbers(lines.next(), 1) && has_numbers(lines.next(), 4) {
        Likeness::Listing
    } else if has_slots(text) {
        Likeness::Headless
    } else if is_assembly(text) {
        Likeness::Assembly
    } else {
        Likeness::Text
    }
}

/// What bytes look like, so far as one sees from the first of them.
pub fn likeness_of(bytes: &[u8]) -> Option<Likeness> {
    if let Some(row) = BEGINNINGS.iter().find(|row| bytes.starts_with(row.0)) {
        return Some(row.1);
    }
    let (text, is_whole) = text_in(bytes);
    let is_of_text = |byte: &u8| byte.is_ascii_graphic()
        || byte.is_ascii_whitespace()
        || *byte >= 128;
    if bytes.is_empty() || !is_whole || !text.as_bytes().iter().all(is_of_text) {
        return None;
    }
    Some(likeness_of_text(text))
}

/// Writes what something looks like, where these words say it.
///
/// An error says that nothing more could be written.
pub fn write_looks<W: Write>(out: &mut W, words: Option<&str>) -> io::Result<()> {
    match words {
        Some(words) => writeln!(out, "  it looks like {words}"),
        None => Ok(()),
    }
}

/// Writes what bytes look like that were read as the slots of a program.
pub fn write_likeness<W: Write>(out: &mut W, bytes: &[u8]) -> io::Result<()> {
    write_looks(out, likeness_of(bytes).map(|likeness| likeness.words()))
}
