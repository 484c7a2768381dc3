//! Why a line of a script is no command, in words for people.

use Due::{Bytes, Count, Name, Number};
use program_files::{
    Likeness, are_hexadecimal, likeness_of, write_line, write_looks, write_quoted,
};
use script_lines::{MAX_COUNT, number_of};
use script_stream::LINE_BYTES;
use std::alloc::{AllocError, Global};
use std::io::Write;
use std::{io, str};

/// What a word behind a command is to be.
#[derive(Clone, Copy, Debug, PartialEq, Eq)]
enum Due {
    /// Any word.
    Name,
    Number,
    Bytes,
    /// How many steps are made.
    Count,
}

/// How a map is made.
const MAP_FORM: &str = "`map NAME KEY VALUE ENTRIES SPARE REUSE` or `map NAME array VALUE ENTRIES`";

/// The names of commands, and how they are written.
const FORMS: [(&str, &str); 12] = [
    ("map", MAP_FORM),
    (
        "load",
        "`load CTXLEN BYTES [NAME ..]`, with at most 16 names",
    ),
    ("put", "`put NAME KEY VALUE FLAGS`"),
    ("get", "`get NAME KEY`"),
    ("del", "`del NAME KEY`"),
    ("start", "`start PROG CTX`"),
    ("step", "`step RUN [COUNT]`"),
    ("drop", "`drop RUN`"),
    ("advance", "`advance`"),
    ("reap", "`reap`"),
    ("stat", "`stat`"),
    ("dump", "`dump NAME`"),
];

/// What the words behind the first of a command are to be; of `load` but for the names.
fn due_of(name: &str, words: &[&[u8]]) -> &'static [Due] {
    let is_array = words.get(2).copied() == Some(b"array".as_slice());
    match name {
        "map" if is_array => &[Name, Name, Number, Number],
        "map" => &[Name, Number, Number, Number, Number, Number],
        "put" => &[Name, Bytes, Bytes, Number],
        "get" | "del" => &[Name, Bytes],
        "load" | "start" => &[Number, Bytes],
        "step" if words.len() > 2 => &[Number, Count],
        "step" | "drop" => &[Number],
        "dump" => &[Name],
        _ => &[],
    }
}

/// The most words behind `load`: two, and the names of 16 maps.
const MOST_LOADED: usize = 18;

/// Whether `0x` begins a word.
pub fn has_prefix(word: &[u8]) -> bool {
    word.starts_with(b"0x") || word.starts_with(b"0X")
}

/// What a word is to be and is not, if it is not.
fn lack_of(due: Due, word: &[u8]) -> Option<&'static str> {
    let number = number_of(word);
    let are_bytes = word == b"-".as_slice() || (word.len() % 2 == 0 && are_hexadecimal(word));
    match due {
        Number if has_prefix(word) => Some("no number: these are decimal, without `0x`"),
        Bytes if has_prefix(word) => Some(
            "no bytes: these are hexadecimal digits without `0x`, two for each",
        ),
        Number if number.is_none() => Some(
            "no number: these are decimal, below 2^64, without a sign or leading zeros",
        ),
        Bytes if !are_bytes => Some(
            "no bytes: these are an even number of hexadecimal digits, or `-` for none",
        ),
        Count if !number.is_some_and(|count| 1 <= count && count <= MAX_COUNT) => {
            Some("no COUNT, which is 1 to 4096")
        }
        _ => None,
    }
}

/// The most columns of a word that are shown.
pub const SHOWN: usize = 40;

/// The words of a line.
pub fn words_of<'a>(alloc: Global, line: &'a [u8]) -> Result<Vec<&'a [u8]>, AllocError> {
    let mut words = Vec::new(alloc);
    for word in line.split(|byte| *byte == b' ') {
        if !word.is_empty() {
            words.push(word)?;
        }
    }
    Ok(words)
}

/// Writes what is wrong with the words of a command of this form.
fn write_lack<W: Write>(out: &mut W, name: &str, words: &[&[u8]], form: &str) -> io::Result<()> {
    let due = due_of(name, words);
    let given = words.len().saturating_sub(1);
    let most = if name == "load" {
        MOST_LOADED
    } else {
        due.len()
    };
    if given < due.len() || most < given {
        let which = if given < due.len() { "few" } else { "many" };
        return writeln!(
            out,
            "  too {which} words stand behind `{name}`: its form is {form}"
        );
    }
    for (due, word) in due.iter().zip(words.iter().skip(1)) {
        if let Some(lack) = lack_of(*due, word) {
            write!(out, "  ")?;
            write_quoted(out, word, SHOWN)?;
            return writeln!(out, " is {lack}; the form is {form}");
        }
    }
    Ok(())
}

/// Writes why a line is no command.
fn write_why<W: Write>(alloc: Global, out: &mut W, line: &[u8]) -> io::Result<()> {
    if line.len() > LINE_BYTES {
        return writeln!(out, "  a line has at most {LINE_BYTES} bytes");
    }
    if line.ends_with(b"\r") {
        return writeln!(
            out,
            "  a line ends by a line feed alone, without a carriage return"
        );
    }
    if line.starts_with(b" ") || line.ends_with(b" ") {
        return writeln!(out, "  no space begins or ends a line");
    }
    let words = words_of(alloc, line)?;
    let word = words.first().copied().unwrap_or(&[]);
    let Ok(name) = str::from_utf8(word) else {
        return writeln!(out, "  the line is not UTF-8 text");
    };
    if let Some(row) = FORMS.iter().find(|row| row.0 == name) {
        return write_lack(out, name, &words, row.1);
    }
    write!(out, "  no command begins with ")?;
    write_quoted(out, word, SHOWN)?;
    write_commands(out)
}

/// Writes the names of all commands.
fn write_commands<W: Write>(out: &mut W) -> io::Result<()> {
    let mut before = ": ";
    for (name, _) in FORMS.iter() {
        write!(out, "{before}{name}")?;
        before = ", ";
    }
    writeln!(out)
}

/// Writes what a text looks like that is no script.
pub fn write_likeness<W: Write>(out: &mut W, text: &[u8]) -> io::Result<()> {
    let likeness = likeness_of(text).filter(|likeness| *likeness != Likeness::Text);
    write_looks(out, likeness.map(|likeness| likeness.words()))
}

/// Writes a line that is no command, below so many others, and why it is none.
pub fn write_bad_line<W: Write>(
    alloc: Global,
    out: &mut W,
    above: usize,
    line: &[u8],
) -> io::Result<()> {
    write_line(out, line, 1, above)?;
    write_why(alloc, out, line)
}
