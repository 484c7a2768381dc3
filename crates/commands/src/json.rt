//! Answers as one JSON object.
ghost use Rattle.std.specs.Prelude.{◌≡◌, ◌++◌, true, IfOk, OnOk};
ghost use Rattle.std.specs.List.{flat_map};
ghost use Rattle.std.specs.Io.KnownBytes.{Appends};
ghost use Rattle.commands.specs.Json.{accepted_json, byte_json, ended_json, lines_json, number_json, refusal_json};
ghost use Rattle.commands.specs.Json.{string_json, traced_json, words_json};
ghost use Rattle.commands.specs.Outputs.{TellsVerdict};

use crate::meanings::words_of;
use crate::refusal::CommandRefusal;
use crate::streams::write_text;
use program_files::Accepted;
use run_once::Ended;
use std::alloc::{AllocError, Global};
use std::io;
use std::io::Write;

/// Adds a number, or `null`.
fn push_number(text: &mut Vec<u8>, number: Option<usize>) -> io::Result<()>
    ensures { OnOk result (text.new.items ≡ text.old.items ++ number_json number) }
{
    match number {
        Some(number) => write!(text, "{number}"),
        None => Ok(text.extend_from_slice(b"null")?),
    }
}

/// Adds a byte between the quotes of a string, where this stands for a line feed.
fn push_byte(text: &mut Vec<u8>, feed: &[u8], byte: u8) -> Result<(), AllocError>
    ensures { OnOk result (text.new.items ≡ text.old.items ++ byte_json feed.now byte) }
{
    if byte == b'\n' {
        return text.extend_from_slice(feed);
    }
    if byte == b'"' || byte == b'\\' {
        return text.extend_from_slice(&[b'\\', byte]);
    }
    if byte < 32 {
        text.extend_from_slice(b"\\u00")?;
        let digits = hex::encode(*text.allocator(), &[byte])?;
        return text.extend_from_slice(digits.as_bytes());
    }
    Ok(text.push(byte)?)
}

/// Adds the bytes between the quotes of a string, where this stands for a line feed.
fn push_bytes(text: &mut Vec<u8>, feed: &[u8], bytes: &[u8]) -> Result<(), AllocError>
    ensures { OnOk result (text.new.items ≡ text.old.items ++ flat_map (byte_json feed.now) bytes.now) }
{
    let mut rest = bytes;
    while let [first, more @ ..] = rest {
        push_byte(text, feed, *first)?;
        rest = more;
    }
    Ok(())
}

/// Adds the lines of a text as a list of strings.
fn push_lines(text: &mut Vec<u8>, lines: &[u8]) -> Result<(), AllocError>
    ensures { OnOk result (text.new.items ≡ text.old.items ++ lines_json lines.now) }
{
    if lines.is_empty() {
        return text.extend_from_slice(b"[]");
    }
    text.extend_from_slice(b"[\"")?;
    push_bytes(text, b"\",\"", &lines[..lines.len() - 1])?;
    text.extend_from_slice(b"\"]")
}

/// Adds a string.
fn push_string(text: &mut Vec<u8>, bytes: &[u8]) -> Result<(), AllocError>
    ensures { OnOk result (text.new.items ≡ text.old.items ++ string_json bytes.now) }
{
    text.extend_from_slice(b"\"")?;
    push_bytes(text, b"\\n", bytes)?;
    text.extend_from_slice(b"\"")
}

/// Adds the name and the meaning of a refusal.
fn push_words(text: &mut Vec<u8>, name: &[u8], meaning: &[u8]) -> Result<(), AllocError>
    ensures { OnOk result (text.new.items ≡ text.old.items ++ words_json name.now meaning.now) }
{
    text.extend_from_slice(b",\"name\":")?;
    push_string(text, name)?;
    text.extend_from_slice(b",\"text\":")?;
    push_string(text, meaning)
}

/// The object of a refusal with its name and its meaning.
fn refusal_of(
    alloc: Global,
    refusal: &CommandRefusal,
    name: &[u8],
    meaning: &[u8],
) -> io::Result<Vec<u8>>
    ensures { IfOk result (λ text. text.items ≡ refusal_json refusal.now name.now meaning.now) }
{
    let code = refusal.code();
    let mut text = Vec::new(alloc);
    write!(text, "{{\"accepted\":false,\"code\":{code},\"slot\":")?;
    push_number(&mut text, refusal.slot())?;
    text.extend_from_slice(b",\"line\":")?;
    push_number(&mut text, refusal.line())?;
    push_words(&mut text, name, meaning)?;
    text.extend_from_slice(b"}\n")?;
    Ok(text)
}

/// Writes the object of a refusal, with its name and its meaning.
pub fn write_refusal<W: Write>(
    alloc: Global,
    out: &mut W,
    refusal: &CommandRefusal,
) -> io::Result<()>
    ensures { OnOk result (TellsVerdict true refusal.now (W.contents out.old) (W.contents out.new)) }
{
    let words = words_of(alloc, refusal)?;
    let text = refusal_of(alloc, refusal, words.name.as_bytes(), words.text.as_bytes())?;
    write_text(out, &text)
}

/// Writes the object of a program that is accepted.
pub fn write_accepted<W: Write>(out: &mut W, accepted: &Accepted) -> io::Result<()>
    ensures { OnOk result (Appends (W.contents out.old) (W.contents out.new)
        (accepted_json accepted.now.instructions accepted.now.slots)) }
{
    writeln!(
        out,
        "{{\"accepted\":true,\"instructions\":{},\"slots\":{}}}",
        accepted.instructions, accepted.slots
    )?;
    out.flush()
}

/// The object of a run that has exited, with the lines of what is in its maps.
pub fn ended_of(alloc: Global, ended: Ended, dumped: &[u8]) -> io::Result<Vec<u8>>
    ensures { IfOk result (λ text. text.items ≡ ended_json ended.value ended.steps dumped.now) }
{
    let Ended { value, steps } = ended;
    let mut text = Vec::new(alloc);
    write!(
        text,
        "{{\"accepted\":true,\"exit\":{value},\"steps\":{steps},\"dump\":"
    )?;
    push_lines(&mut text, dumped)?;
    text.extend_from_slice(b"}\n")?;
    Ok(text)
}

/// The object of a run with the lines of its steps, by these and the object of the run alone.
pub fn traced_of(alloc: Global, steps: &[u8], ended: &[u8]) -> Result<Vec<u8>, AllocError>
    ensures { IfOk result (λ text. text.items ≡ traced_json steps.now ended.now) }
{
    let mut text = Vec::from_slice(alloc, b"{\"trace\":")?;
    push_lines(&mut text, steps)?;
    text.push(b',')?;
    if let [_, rest @ ..] = ended {
        text.extend_from_slice(rest)?;
    }
    Ok(text)
}
