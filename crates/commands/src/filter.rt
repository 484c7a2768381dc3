//! Writes the program file of a classic program.
ghost use Rattle.std.specs.Prelude.{◌≡◌, ◌≢◌, ◌⊎◌, IfSome};
ghost use Rattle.texts.specs.Filters.{IsRefusedByFilter};
ghost use Rattle.commands.specs.Filters.{WritesFilter};

use crate::meanings::meaning_of_filter;
use crate::report::{out_of_memory, write_number};
use crate::streams::{read_failed_in_words, write_status, write_text};
use classic::{Data, ReadFault};
use explanations::write_meaning;
use program_files::{Verdict, read_text};
use std::alloc::Global;
use std::io;
use std::io::{Read, Write};
use texts::{FilterFault, explain_filter, make_file};

/// The number of a fault of a classic program, and its line or instruction, if it has one.
fn place_of(why: &FilterFault) -> (u8, Option<usize>) {
    match why {
        FilterFault::Memory => (Verdict::Memory.code(), None),
        FilterFault::NotUtf8 { line } => (ReadFault::BadLine(*line).code(), Some(*line)),
        FilterFault::Unread(fault) => (fault.code(), fault.line()),
        FilterFault::Flawed(fault) => (fault.code(), fault.instruction()),
        FilterFault::Untranslated(fault) => (fault.code(), fault.instruction()),
    }
}

/// Writes why bytes are no classic program, or have no program file, `refused C`, or `refused C at N` for a line or an
/// instruction, or the fault where memory ran out, in words too where it is asked for, and answers the status.
fn report_fault_line<E: Write>(err: &mut E, why: &FilterFault, in_words: bool) -> u8
    ensures status { (result ≡ 1) ⊎ (result ≡ 3) }
    ensures refused { result ≡ 1 → why.now ≢ FilterFault.Memory }
{
    if matches!(why, FilterFault::Memory) {
        return out_of_memory(err, in_words);
    }
    let (code, place) = place_of(why);
    write_number(err, "refused", code, place);
    1
}

/// Writes the name and the meaning of a fault of a classic program, and what is wrong.
fn write_words<E: Write>(
    alloc: Global,
    bytes: &[u8],
    kind: Data,
    why: &FilterFault,
    err: &mut E,
) -> io::Result<()> {
    if let Some(meaning) = meaning_of_filter(why) {
        write_meaning(err, meaning)?;
    }
    explain_filter(alloc, bytes, kind, why, err)
}

/// Tells why bytes are no classic program, or have no program file, in words too where it is asked for, and answers the
/// status.
fn report_filter_fault<E: Write>(
    alloc: Global,
    bytes: &[u8],
    kind: Data,
    why: &FilterFault,
    in_words: bool,
    err: &mut E,
) -> u8
    ensures status { (result ≡ 1) ⊎ (result ≡ 3) }
    ensures refused { result ≡ 1 → why.now ≢ FilterFault.Memory }
{
    let status = report_fault_line(err, why, in_words);
    if in_words && status == 1 {
        let _ = write_words(alloc, bytes, kind, why, err);
    }
    status
}

/// Notes, where a file was written, the first load that may lie past the bytes of a packet that a context has, if one may.
fn note_beyond<E: Write>(err: &mut E, status: u8, beyond: Option<usize>) {
    if let (0, Some(number)) = (status, beyond) {
        let _ = writeln!(
            err,
            "note: instruction {number} loads at a place that varies: of longer packets the file tells what `tcpdump -s 248` does"
        );
    }
}

/// Writes the program file of the classic program that the input is.
pub fn run_filter<R: Read, W: Write, E: Write>(
    alloc: Global,
    kind: Data,
    in_words: bool,
    input: &mut R,
    out: &mut W,
    err: &mut E,
) -> u8
    ensures status { (result ≡ 0) ⊎ (result ≡ 1) ⊎ (result ≡ 3) }
    ensures file { result ≡ 0 → IfSome (R.remaining input.old)
        (WritesFilter kind (W.contents out.old) (W.contents out.new)) }
    ensures refused { result ≡ 1 → IfSome (R.remaining input.old) (IsRefusedByFilter kind) }
    ensures silent { result ≡ 1 → out.new ≡ out.old }
{
    let bytes = match read_text(alloc, input) {
        Ok(bytes) => bytes,
        Err(error) => return read_failed_in_words(err, &error, in_words),
    };
    match make_file(alloc, kind, &bytes) {
        Ok(file) => {
            let status = write_status(err, write_text(out, &file.text));
            note_beyond(err, status, file.beyond);
            status
        }
        Err(why) => report_filter_fault(alloc, &bytes, kind, &why, in_words, err),
    }
}
