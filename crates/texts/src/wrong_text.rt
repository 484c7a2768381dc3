//! Lines of a text of instructions, and what is wrong with them, in words for people.

use crate::assembly::{TextFault, lines_above, plain_text};
use crate::explain::explain_line;
use crate::heads::parts_of;
use crate::naming::explain_name;
use crate::other_names::NO_HEADING;
use asm_source::{fed_text, line_at};
use command_words::shown;
use program_files::{Likeness, has_slots, likeness_of, write_looks, write_wrong_line};
use std::alloc::{AllocError, Global};
use std::io::Write;
use std::{io, str};

/// The line of this number of a text, counted from 1.
fn line_of(text: &str, number: usize) -> &str {
    text.split('\n').nth(number.saturating_sub(1)).unwrap_or("")
}

/// What is wrong with the plain text of the line of this number, of this text's instructions.
fn instruction_words(
    alloc: Global,
    text: &str,
    number: usize,
) -> Result<Option<String>, AllocError> {
    let parts = parts_of(text);
    let lines = plain_text(alloc, &parts).unwrap_or(Vec::new(alloc));
    let line = line_of(str::from_utf8(&lines).unwrap_or(""), number);
    explain_line(alloc, line, line_of(parts.body, number))
}

/// What bytes look like that are no text of instructions, by whether they have slots.
fn other_words(bytes: &[u8], has_slots: bool) -> Option<&'static str> {
    match likeness_of(bytes) {
        Some(Likeness::ProgramFile) if has_slots => Some(
            "a program file: `bpfrt check` checks it without `--asm`, and `bpfrt disasm` writes its instructions",
        ),
        Some(Likeness::CarriageReturns) if !has_slots => None,
        Some(Likeness::Assembly | Likeness::Text | Likeness::ProgramFile) => None,
        Some(likeness) => Some(likeness.words()),
        None if bytes.contains(&0) && bytes.len() % 8 == 0 => Some(
            "a program's bytes: `bpfrt check` checks them without `--asm`, and `bpfrt disasm` writes their instructions",
        ),
        None => None,
    }
}

/// Writes what is wrong with a line of a text's head.
fn explain_head<E: Write>(bytes: &[u8], line: usize, err: &mut E) -> io::Result<()> {
    if line == 1 && bytes.starts_with(b"bpfrt") {
        return writeln!(err, "  {NO_HEADING}");
    }
    writeln!(
        err,
        "  above `code` stand `ctx N` and a line for each map, and nothing else"
    )?;
    write_wrong_line(err, bytes, line, 0)
}

/// Writes in words what is wrong with bytes that are no text of a program, beside what the fault means, and what they look like
/// instead. They may end lines by a carriage return too.
pub fn explain_text<E: Write>(
    alloc: Global,
    bytes: &[u8],
    why: &TextFault,
    err: &mut E,
) -> io::Result<()> {
    let fed = fed_text(alloc, bytes)?;
    let text = str::from_utf8(&fed).unwrap_or("");
    let words = match why {
        TextFault::NotUtf8 { .. } => Some(String::from_str(alloc, "the line is not UTF-8 text")?),
        TextFault::Unnamed { fault, .. } => {
            let line = line_of(parts_of(text).body, fault.line().unwrap_or(1));
            Some(explain_name(alloc, fault, line)?)
        }
        TextFault::Flawed { flaw, .. } => match flaw.line() {
            Some(line) => instruction_words(alloc, text, line)?,
            None => None,
        },
        TextFault::BadHead { .. } | TextFault::Memory => None,
    };
    if let Some(words) = words {
        let words = shown(alloc, words.as_str())?;
        writeln!(err, "  {words}")?;
    }
    if let TextFault::BadHead { line } = why {
        explain_head(&fed, *line, err)?;
    }
    write_looks(err, other_words(bytes, has_slots(text)))
}

/// The line without blanks at its ends, and with a space for each control character.
fn in_spaces(alloc: Global, line: &str) -> Result<String, AllocError> {
    let mut shown = String::new(alloc);
    for character in line.trim().chars() {
        let is_control = character.is_control();
        shown.push(if is_control { ' ' } else { character })?;
    }
    Ok(shown)
}

/// Writes the line of a text whose instruction begins at this slot, by its number from 1 on.
pub fn write_source_line<E: Write>(
    alloc: Global,
    text: &[u8],
    slot: usize,
    err: &mut E,
) -> io::Result<()> {
    let parts = parts_of(str::from_utf8(text).unwrap_or(""));
    let Some(number) = line_at(parts.body.as_bytes(), slot) else {
        return Ok(());
    };
    let shown = in_spaces(alloc, line_of(parts.body, number))?;
    let number = number.saturating_add(lines_above(&parts));
    writeln!(err, "line {number}: {shown}")
}
