//! The lines that refusals and faults make, and the statuses that go with them.
ghost use Rattle.std.specs.Prelude.{◌≡◌, ◌≢◌, ◌⊎◌, false};
ghost use Rattle.command_words.specs.declared.request.WordsFault.TheVariants.{Memory};
ghost use Rattle.program_files.specs.Verdicts.{memory_number};
ghost use Rattle.job_queue.specs.declared.fault.PoolFault.TheVariants.{Lost};
ghost use Rattle.job_queue.specs.Faults.{pool_fault_number};
ghost use Rattle.commands.specs.Outputs.{TellsVerdict};
ghost use Rattle.commands.specs.Refusals.{command_number};

use crate::json::write_refusal;
use crate::meanings::meaning_of_refusal;
use crate::prefixes::explain_prefix;
use crate::refusal::{CommandRefusal, Refused};
use crate::streams::write_failed;
use command_words::WordsFault;
use explanations::{explain, explain_program, write_meaning};
use job_queue::PoolFault;
use program_files::{FileBytes, RefusedProgram, Verdict};
use std::alloc::Global;
use std::io;
use std::io::Write;
use texts::write_source_line;

/// What a command was given.
#[derive(Clone, Copy)]
pub enum Given<'a> {
    /// A program file.
    File(&'a FileBytes),
    /// A text of instructions, and for each of them the number of its line there.
    Text { text: &'a [u8], lines: &'a [usize] },
}

/// How a refusal is told: in words too, and as a JSON object.
#[derive(Clone, Copy)]
pub struct Telling {
    pub explain: bool,
    pub json: bool,
}

/// Writes `fault C` on standard error, and answers its status.
pub fn report_fault<W: Write>(err: &mut W, code: u8) -> u8
    ensures { result ≡ 3 }
{
    write_number(err, "fault", code, None);
    3
}

/// Writes the fault of want of memory, in words too where that is asked for, and answers its status.
pub fn out_of_memory<W: Write>(err: &mut W, in_words: bool) -> u8
    ensures { result ≡ 3 }
{
    let status = report_fault(err, Verdict::Memory.code());
    if in_words {
        let _ = writeln!(err, "memory ran out");
    }
    status
}

/// Writes that what is `fault` or `refused` has this number, and at which line, slot or instruction, where it is told.
pub fn write_number<W: Write>(err: &mut W, what: &str, code: u8, place: Option<usize>) {
    let _ = match place {
        Some(place) => writeln!(err, "{what} {code} at {place}"),
        None => writeln!(err, "{what} {code}"),
    };
}

/// Writes `refused C`, `refused C at S` for a slot or `fault C at L` for a line on standard error, or
/// the fault where memory ran out or a result was lost, and answers the status.
pub fn report_line<W: Write>(err: &mut W, refusal: CommandRefusal) -> u8
    ensures status { (result ≡ 1) ⊎ (result ≡ 3) }
    ensures memory { command_number refusal ≡ memory_number → result ≡ 3 }
    ensures lost { command_number refusal ≡ pool_fault_number Lost → result ≡ 3 }
    ensures other { command_number refusal ≢ memory_number → command_number refusal ≢ pool_fault_number Lost → result ≡ 1 }
{
    let code = refusal.code();
    if refusal.is_memory() || code == PoolFault::Lost.code() {
        return report_fault(err, code);
    }
    match refusal.line() {
        Some(line) => write_number(err, "fault", code, Some(line)),
        None => write_number(err, "refused", code, refusal.slot()),
    }
    1
}

/// Writes what a verdict on a file means, and of a wrong line, too, where its digits are to stand alone.
fn write_words_of_file<E: Write>(
    alloc: Global,
    file: &FileBytes,
    verdict: &Verdict,
    err: &mut E,
) -> io::Result<()> {
    explain(alloc, file, verdict, err)?;
    match (verdict.line(), file) {
        (Some(line), FileBytes::Whole(bytes)) => explain_prefix(err, bytes, line),
        _ => Ok(()),
    }
}

/// Writes what a refusal means; of a file's also what of the file is the cause.
fn write_words<E: Write>(
    alloc: Global,
    given: Given<'_>,
    refused: &Refused,
    err: &mut E,
) -> io::Result<()> {
    if let Some(program) = &refused.program {
        let lines = match given {
            Given::File(_) => &[],
            Given::Text { lines, .. } => lines,
        };
        let RefusedProgram {
            source,
            refusal,
            known,
        } = program;
        return explain_program(alloc, source, lines, *refusal, known, err);
    }
    if let (Given::File(file), CommandRefusal::File(verdict)) = (given, &refused.refusal) {
        return write_words_of_file(alloc, file, verdict, err);
    }
    match meaning_of_refusal(&refused.refusal) {
        Some(meaning) => write_meaning(err, meaning),
        None => Ok(()),
    }
}

/// Tells why what was given is refused, with the line of a text, in words too where it is asked for, and answers the status.
pub fn report_refusal<E: Write>(
    alloc: Global,
    given: Given<'_>,
    refused: &Refused,
    in_words: bool,
    err: &mut E,
) -> u8
    ensures status { (result ≡ 1) ⊎ (result ≡ 3) }
    ensures memory { command_number refused.now.refusal ≡ memory_number → result ≡ 3 }
    ensures lost { command_number refused.now.refusal ≡ pool_fault_number Lost → result ≡ 3 }
{
    if refused.refusal.is_memory() {
        return out_of_memory(err, in_words);
    }
    let status = report_line(err, refused.refusal);
    if let (Given::Text { text, .. }, Some(slot)) = (given, refused.refusal.slot()) {
        let _ = write_source_line(alloc, text, slot, err);
    }
    if in_words && status == 1 {
        let _ = write_words(alloc, given, refused, err);
    }
    status
}

/// Tells a refusal as `report_refusal` does, and on the output as a JSON object where that is asked for.
pub fn report_in_form<W: Write, E: Write>(
    alloc: Global,
    given: Given<'_>,
    refused: &Refused,
    form: Telling,
    out: &mut W,
    err: &mut E,
) -> u8
    ensures status { (result ≡ 1) ⊎ (result ≡ 3) }
    ensures memory { command_number refused.now.refusal ≡ memory_number → result ≡ 3 }
    ensures told { result ≡ 1 →
        TellsVerdict form.json refused.now.refusal (W.contents out.old) (W.contents out.new) }
    ensures silent { result ≡ 1 → form.json ≡ false → out.new ≡ out.old }
{
    let status = report_refusal(alloc, given, refused, form.explain, err);
    if status != 1 || !form.json {
        return status;
    }
    match write_refusal(alloc, out, &refused.refusal) {
        Ok(()) => 1,
        Err(error) => write_failed(err, &error),
    }
}

/// Says on standard error why the words are no command, and answers the status.
pub fn no_command<W: Write>(err: &mut W, usage: &WordsFault) -> u8
    ensures memory { usage.now ≡ Memory → result ≡ 3 }
    ensures other { usage.now ≢ Memory → result ≡ 2 }
{
    if matches!(usage, WordsFault::Memory) {
        return out_of_memory(err, false);
    }
    let _ = writeln!(err, "{usage}");
    2
}
