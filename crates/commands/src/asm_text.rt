//! The command that assembles a text.
ghost use Rattle.std.specs.Prelude.{◌≡◌, ◌≢◌, ◌⊎◌, IfOk, IfSome};
ghost use Rattle.std.specs.Io.KnownBytes.{Appends};
ghost use Rattle.bpf_model.specs.Spelling.{text};
ghost use Rattle.program_files.specs.Heads.{file_text};
ghost use Rattle.commands.specs.Asm.{WritesCode, written_as};
ghost use Rattle.commands.specs.Sources.{IsRefusedText};

use crate::meanings::meaning_of_text;
use crate::prefixes::explain_prefix;
use crate::report::{out_of_memory, write_number};
use crate::source_text::{SourceText, source_of};
use crate::streams::{read_failed_in_words, write_status, write_text};
use asm::AsmFault;
use bpf_model::CTX_BYTES;
use command_words::AsmForm;
use explanations::write_meaning;
use program_files::{LoadFault, Verdict, read_text, write_line};
use std::alloc::{AllocError, Global};
use std::io;
use std::io::{Read, Write};
use texts::{Assembled, TextFault, assemble_text, explain_text, has_head};

/// What is asked for of what was made of a text. The error is that memory ran out.
fn text_in(alloc: Global, form: AsmForm, made: Assembled) -> Result<Vec<u8>, AllocError>
    ensures { IfOk result (λ t. t.items ≡ written_as form made.lines.items (text made.program)
        (file_text made.head.text made.program)) }
{
    match form {
        AsmForm::Bytes => made.code(alloc),
        AsmForm::File => made.file(alloc),
        AsmForm::Plain => Ok(made.lines),
    }
}

/// The number of a fault of a text, and its line among those that are read, if it is of one.
fn place_of(why: &TextFault) -> (u8, Option<usize>) {
    match why {
        TextFault::Memory => (Verdict::Memory.code(), None),
        TextFault::NotUtf8 { line } => (AsmFault::BadLine(*line).code(), Some(*line)),
        TextFault::Unnamed { lines, fault } => {
            let line = fault.line().unwrap_or(0).saturating_add(*lines);
            (AsmFault::BadLine(line).code(), Some(line))
        }
        TextFault::BadHead { line } => (LoadFault::BadFile { line: *line }.code(), Some(*line)),
        TextFault::Flawed { lines, flaw } => match flaw.line() {
            Some(line) => (flaw.code(), Some(line.saturating_add(*lines))),
            None => (flaw.code(), None),
        },
    }
}

/// Writes why a text is none of a program: `refused C at L` for an instruction's line, `fault C at L` for a line of the head,
/// else `refused C`. Where memory ran out it writes that fault, in words too where these are asked for. Answers the status.
fn report_fault_line<E: Write>(
    err: &mut E,
    source: &SourceText,
    why: &TextFault,
    in_words: bool,
) -> u8
    ensures status { (result ≡ 1) ⊎ (result ≡ 3) }
    ensures refused { result ≡ 1 → why.now ≢ TextFault.Memory }
{
    if matches!(why, TextFault::Memory) {
        return out_of_memory(err, in_words);
    }
    let what = match why {
        TextFault::BadHead { .. } => "fault",
        _ => "refused",
    };
    let (code, line) = place_of(why);
    write_number(err, what, code, line.map(|line| source.line_read(line)));
    1
}

/// Writes what is wrong with the line above `code` that is read as the line of this number.
fn explain_head<E: Write>(
    alloc: Global,
    bytes: &[u8],
    source: &SourceText,
    line: usize,
    err: &mut E,
) -> io::Result<()> {
    let number = source.line_read(line);
    if line == 1 && number > 1 {
        write_line(err, &source.fed, number, 0)?;
        writeln!(
            err,
            "  the first line that is no comment is `ctx N`: the length of the context in bytes, 0 to {CTX_BYTES}"
        )?;
        return explain_prefix(err, bytes, number);
    }
    explain_text(alloc, bytes, &TextFault::BadHead { line: number }, err)?;
    explain_prefix(err, bytes, number)?;
    if number == 1 && bytes.starts_with(b"bpfrt") {
        return Ok(());
    }
    writeln!(
        err,
        "  so is each line above `code` when comments, empty lines and further blanks are left out"
    )
}

/// Writes the name and the meaning of a fault of a text, and what is wrong.
fn write_words<E: Write>(
    alloc: Global,
    bytes: &[u8],
    source: &SourceText,
    why: &TextFault,
    err: &mut E,
) -> io::Result<()> {
    if let Some(meaning) = meaning_of_text(why) {
        write_meaning(err, meaning)?;
    }
    match why {
        TextFault::BadHead { line } => explain_head(alloc, bytes, source, *line, err),
        _ if source.read == source.fed => explain_text(alloc, bytes, why, err),
        _ => explain_text(alloc, &source.read, why, err),
    }
}

/// Tells why bytes, of which this is read, are no text of a program, in words too where it is asked for, and answers the status.
pub fn report_text_fault<E: Write>(
    alloc: Global,
    bytes: &[u8],
    source: &SourceText,
    why: &TextFault,
    in_words: bool,
    err: &mut E,
) -> u8
    ensures status { (result ≡ 1) ⊎ (result ≡ 3) }
    ensures refused { result ≡ 1 → why.now ≢ TextFault.Memory }
{
    let status = report_fault_line(err, source, why, in_words);
    if in_words && status == 1 {
        let _ = write_words(alloc, bytes, source, why, err);
    }
    status
}

/// The head of a text that has no maps and an empty context, as a raw file has.
const EMPTY_HEAD: &[u8] = b"ctx 0\ncode\n";

/// Warns that bytes alone leave out the context or the maps of the text that was read, if it has any.
fn warn_of_head<E: Write>(read: &[u8], form: AsmForm, err: &mut E) {
    if form == AsmForm::Bytes && has_head(read) && !read.starts_with(EMPTY_HEAD) {
        let _ = writeln!(
            err,
            "the bytes have neither the context nor the maps above `code`: --file writes a file with them"
        );
    }
}

/// Writes what is asked for of what was made of a text, of which this was read, and answers the status.
fn write_made<W: Write, E: Write>(
    alloc: Global,
    form: AsmForm,
    in_words: bool,
    read: &[u8],
    made: Assembled,
    out: &mut W,
    err: &mut E,
) -> u8
    ensures status { (result ≡ 0) ⊎ (result ≡ 3) }
    ensures written { result ≡ 0 → Appends (W.contents out.old) (W.contents out.new)
        (written_as form made.lines.items (text made.program) (file_text made.head.text made.program)) }
{
    let Ok(text) = text_in(alloc, form, made) else {
        return out_of_memory(err, in_words);
    };
    warn_of_head(read, form, err);
    write_status(err, write_text(out, &text))
}

/// Writes the bytes of the program whose text the input is, or what else is asked for.
pub fn run_asm<R: Read, W: Write, E: Write>(
    alloc: Global,
    form: AsmForm,
    in_words: bool,
    input: &mut R,
    out: &mut W,
    err: &mut E,
) -> u8
    ensures status { (result ≡ 0) ⊎ (result ≡ 1) ⊎ (result ≡ 3) }
    ensures code { result ≡ 0 → IfSome (R.remaining input.old)
        (WritesCode form (W.contents out.old) (W.contents out.new)) }
    ensures refused { result ≡ 1 → IfSome (R.remaining input.old) IsRefusedText }
    ensures silent { result ≡ 1 → out.new ≡ out.old }
{
    let bytes = match read_text(alloc, input) {
        Ok(bytes) => bytes,
        Err(error) => return read_failed_in_words(err, &error, in_words),
    };
    let Ok(source) = source_of(alloc, &bytes) else {
        return out_of_memory(err, in_words);
    };
    match assemble_text(alloc, &source.read) {
        Ok(made) => write_made(alloc, form, in_words, &source.read, made, out, err),
        Err(why) => report_text_fault(alloc, &bytes, &source, &why, in_words, err),
    }
}
