//! A file's program, checked.
ghost use Rattle.std.specs.Prelude.{◌≡◌, ◌⊎◌, List, ℕ, false, IfSome, OnOk};
ghost use Rattle.std.specs.Io.KnownBytes.{Appends};
ghost use Rattle.program_files.specs.Files.{HoldsBytes};
ghost use Rattle.program_files.specs.Heads.{file_text};
ghost use Rattle.program_files.specs.Verdicts.{memory_number, verdict_number};
ghost use Rattle.commands.specs.declared.refusal.CommandRefusal.TheVariants.{File as FileRefusal};
ghost use Rattle.commands.specs.Outputs.{RefusesFile, TellsVerdict, accepted_line, accepted_text, WritesAccepted};
ghost use Rattle.commands.specs.Checking.{RefusesText, WritesAcceptedText, RefusesChecked, WritesChecked};

use crate::asm_text::report_text_fault;
use crate::json::write_accepted as write_json;
use crate::refusal::Refused;
use crate::report::{Given, Telling, out_of_memory, report_in_form};
use crate::source_text::{SourceText, source_of};
use crate::streams::{read_failed_in_words, write_status};
use command_words::Checking;
use program_files::{Accepted, FileBytes, RefusedFile, check, check_source, read_file, read_text};
use std::alloc::Global;
use std::io;
use std::io::{Read, Write};
use texts::{Assembled, assemble_text};
use verifier_log::write_log;

fn write_line<W: Write>(out: &mut W, accepted: &Accepted) -> io::Result<()>
    ensures { OnOk result (Appends (W.contents out.old) (W.contents out.new)
        (accepted_line accepted.now.instructions accepted.now.slots)) }
{
    writeln!(
        out,
        "accepted {} instructions {} slots",
        accepted.instructions, accepted.slots
    )?;
    out.flush()
}

/// Says how long an accepted program is.
fn write_accepted<W: Write>(json: bool, out: &mut W, accepted: &Accepted) -> io::Result<()>
    ensures { OnOk result (Appends (W.contents out.old) (W.contents out.new)
        (accepted_text json accepted.now.instructions accepted.now.slots)) }
{
    if json {
        write_json(out, accepted)
    } else {
        write_line(out, accepted)
    }
}

/// How a refusal is told.
fn telling_of(how: &Checking) -> Telling
    ensures { result.json ≡ how.now.json }
{
    Telling {
        explain: how.explain,
        json: how.json,
    }
}

/// Checks the program that a file says.
fn check_file<W: Write, E: Write>(
    alloc: Global,
    how: &Checking,
    file: &FileBytes,
    out: &mut W,
    err: &mut E,
) -> u8
    ensures status { (result ≡ 0) ⊎ (result ≡ 1) ⊎ (result ≡ 3) }
    ensures accepted { (bytes : List ℕ) → HoldsBytes file.now bytes → result ≡ 0 →
        WritesAccepted how.now.json (W.contents out.old) (W.contents out.new) bytes }
    ensures refused { (bytes : List ℕ) → HoldsBytes file.now bytes → result ≡ 1 →
        RefusesFile how.now.json (W.contents out.old) (W.contents out.new) bytes }
    ensures silent { result ≡ 1 → how.now.json ≡ false → out.new ≡ out.old }
{
    if how.log {
        let _ = write_log(alloc, file, err);
    }
    match check(alloc, file) {
        Ok(accepted) => write_status(err, write_accepted(how.json, out, &accepted)),
        Err(refused) => {
            let refused = Refused::from(refused);
            report_in_form(
                alloc,
                Given::File(file),
                &refused,
                telling_of(how),
                out,
                err,
            )
        }
    }
}

/// Checks the program that the input, a program file, says.
fn check_program_file<R: Read, W: Write, E: Write>(
    alloc: Global,
    how: &Checking,
    input: &mut R,
    out: &mut W,
    err: &mut E,
) -> u8
    ensures status { (result ≡ 0) ⊎ (result ≡ 1) ⊎ (result ≡ 3) }
    ensures accepted { result ≡ 0 → IfSome (R.remaining input.old)
        (WritesAccepted how.now.json (W.contents out.old) (W.contents out.new)) }
    ensures refused { result ≡ 1 → IfSome (R.remaining input.old)
        (RefusesFile how.now.json (W.contents out.old) (W.contents out.new)) }
    ensures silent { result ≡ 1 → how.now.json ≡ false → out.new ≡ out.old }
{
    match read_file(alloc, input) {
        Ok(file) => check_file(alloc, how, &file, out, err),
        Err(error) => read_failed_in_words(err, &error, how.explain),
    }
}

/// Tells why the program of a text, whose plain lines these are, is refused.
fn report_made<W: Write, E: Write>(
    alloc: Global,
    how: &Checking,
    source: &SourceText,
    lines: &[u8],
    refused: RefusedFile,
    out: &mut W,
    err: &mut E,
) -> u8
    ensures status { (result ≡ 1) ⊎ (result ≡ 3) }
    ensures memory { verdict_number refused.verdict ≡ memory_number → result ≡ 3 }
    ensures told { result ≡ 1 → TellsVerdict how.now.json (FileRefusal refused.verdict) (W.contents out.old) (W.contents out.new) }
    ensures silent { result ≡ 1 → how.now.json ≡ false → out.new ≡ out.old }
{
    let Ok(lines) = source.lines_of(alloc, lines) else {
        return out_of_memory(err, how.explain);
    };
    let given = Given::Text {
        text: &source.fed,
        lines: &lines,
    };
    let refused = Refused::from(refused);
    report_in_form(alloc, given, &refused, telling_of(how), out, err)
}

/// Writes what the verifier knows of a text's program, where that is asked for.
fn log_made<E: Write>(alloc: Global, how: &Checking, made: &Assembled, err: &mut E) {
    if !how.log {
        return;
    }
    if let Ok(file) = made.file(alloc) {
        let _ = write_log(alloc, &FileBytes::Whole(file), err);
    }
}

/// Checks the program that was made of a text, with the maps and the context of its head.
fn check_made<W: Write, E: Write>(
    alloc: Global,
    how: &Checking,
    source: &SourceText,
    made: Assembled,
    out: &mut W,
    err: &mut E,
) -> u8
    ensures status { (result ≡ 0) ⊎ (result ≡ 1) ⊎ (result ≡ 3) }
    // As `check_file` answers the program file that the text makes.
    ensures accepted { result ≡ 0 → WritesAccepted how.now.json (W.contents out.old) (W.contents out.new)
        (file_text made.head.text made.program) }
    ensures refused { result ≡ 1 → RefusesFile how.now.json (W.contents out.old) (W.contents out.new)
        (file_text made.head.text made.program) }
    ensures silent { result ≡ 1 → how.now.json ≡ false → out.new ≡ out.old }
{
    log_made(alloc, how, &made, err);
    match check_source(alloc, made.head.source(made.program)) {
        Ok(accepted) => write_status(err, write_accepted(how.json, out, &accepted)),
        Err(refused) => report_made(alloc, how, source, &made.lines, refused, out, err),
    }
}

/// Checks the program whose text the input is.
fn check_text<R: Read, W: Write, E: Write>(
    alloc: Global,
    how: &Checking,
    input: &mut R,
    out: &mut W,
    err: &mut E,
) -> u8
    ensures status { (result ≡ 0) ⊎ (result ≡ 1) ⊎ (result ≡ 3) }
    ensures accepted { result ≡ 0 → IfSome (R.remaining input.old)
        (WritesAcceptedText how.now.json (W.contents out.old) (W.contents out.new)) }
    ensures refused { result ≡ 1 → IfSome (R.remaining input.old)
        (RefusesText how.now.json (W.contents out.old) (W.contents out.new)) }
    ensures silent { result ≡ 1 → how.now.json ≡ false → out.new ≡ out.old }
{
    let bytes = match read_text(alloc, input) {
        Ok(bytes) => bytes,
        Err(error) => return read_failed_in_words(err, &error, how.explain),
    };
    let Ok(source) = source_of(alloc, &bytes) else {
        return out_of_memory(err, how.explain);
    };
    match assemble_text(alloc, &source.read) {
        Ok(made) => check_made(alloc, how, &source, made, out, err),
        Err(why) => report_text_fault(alloc, &bytes, &source, &why, how.explain, err),
    }
}

/// Checks the program that the input, a program file or a text of instructions, says.
pub fn run_check<R: Read, W: Write, E: Write>(
    alloc: Global,
    how: &Checking,
    input: &mut R,
    out: &mut W,
    err: &mut E,
) -> u8
    ensures status { (result ≡ 0) ⊎ (result ≡ 1) ⊎ (result ≡ 3) }
    ensures accepted { result ≡ 0 → IfSome (R.remaining input.old)
        (WritesChecked how.now.asm how.now.json (W.contents out.old) (W.contents out.new)) }
    ensures refused { result ≡ 1 → IfSome (R.remaining input.old)
        (RefusesChecked how.now.asm how.now.json (W.contents out.old) (W.contents out.new)) }
    ensures silent { result ≡ 1 → how.now.json ≡ false → out.new ≡ out.old }
{
    if how.asm {
        check_text(alloc, how, input, out, err)
    } else {
        check_program_file(alloc, how, input, out, err)
    }
}
