//! Running a command.
ghost use Rattle.std.specs.Prelude.{◌≡◌, ◌⊎◌, IfSome, OnOk, codes};
ghost use Rattle.std.specs.Io.KnownBytes.{Appends};
ghost use Rattle.commands.specs.Outputs.{IsRefusedByDecode, WritesText};
ghost use Rattle.commands.specs.Commands.{ReadsFileForText, Refuses, Writes};

use crate::asm_text::run_asm;
use crate::check::run_check;
use crate::filter::run_filter;
use crate::pool::{PoolSize, run_pool};
use crate::refusal::CommandRefusal;
use crate::report::report_line;
use crate::script::run_lines;
use crate::single::run_single;
use crate::streams::{read_failed, write_status, write_text};
use command_words::{BpfrtCommand, VERSION};
use program_files::{read_file, text_of};
use std::alloc::Global;
use std::io;
use std::io::{Read, Write};
use std::sync::Wait;
use std::thread::Threads;

fn write_version<W: Write>(out: &mut W) -> io::Result<()>
    ensures { OnOk result (Appends (W.contents out.old) (W.contents out.new) (codes "bpfrt 0.1.0\n")) }
{
    writeln!(out, "bpfrt {VERSION}")?;
    out.flush()
}

/// Writes the text of the program that the input, a program file, says.
fn run_disasm<R: Read, W: Write, E: Write>(
    alloc: Global,
    input: &mut R,
    out: &mut W,
    err: &mut E,
) -> u8
    ensures status { (result ≡ 0) ⊎ (result ≡ 1) ⊎ (result ≡ 3) }
    ensures text { result ≡ 0 → IfSome (R.remaining input.old)
        (WritesText (W.contents out.old) (W.contents out.new)) }
    ensures refused { result ≡ 1 → IfSome (R.remaining input.old) IsRefusedByDecode }
    ensures silent { result ≡ 1 → out.new ≡ out.old }
{
    let file = match read_file(alloc, input) {
        Ok(file) => file,
        Err(error) => return read_failed(err, &error),
    };
    match text_of(alloc, &file) {
        Ok(text) => write_status(err, write_text(out, text.as_bytes())),
        Err(verdict) => report_line(err, CommandRefusal::File(verdict)),
    }
}

/// Runs a command on its input: the bytes of its file, or a script. `contexts` are the bytes of the file that the command names
/// beside its own (`BpfrtCommand::contexts_file`); a command that names none does not read them. Answers the exit status:
/// - 0: all is done.
/// - 1: the input is refused, or a line of it is wrong. Then a command on a file has written nothing on `out`, or the JSON object
///   that was asked for. A script has written the answers to the lines before the wrong one (95).
/// - 3: memory ran out (13), reading failed (96), or writing did (97). A reader that fails by `FileTooLarge` is 13, too. A part
///   of the output may have been written. No clause says which fault it was, or that there was one.
///
/// A refusal or a fault is one line on `err`. More stands there where words or a log are asked for, and behind the refusal of
/// a text. No clause says that a pool returns: it waits for a lock.
pub fn run<H: Threads + Wait + Sync, R: Read, W: Write, E: Write>(
    rt: &H,
    alloc: Global,
    command: &BpfrtCommand,
    contexts: &[u8],
    input: &mut R,
    out: &mut W,
    err: &mut E,
) -> u8
    ensures status { (result ≡ 0) ⊎ (result ≡ 1) ⊎ (result ≡ 3) }
    ensures fine { result ≡ 0 → IfSome (R.remaining input.old)
        (Writes command.now contexts.now (W.contents out.old) (W.contents out.new)) }
    ensures refused { result ≡ 1 → IfSome (R.remaining input.old)
        (Refuses command.now contexts.now (W.contents out.old) (W.contents out.new)) }
    ensures silent { result ≡ 1 → ReadsFileForText command.now → out.new ≡ out.old }
{
    match command {
        BpfrtCommand::Check { how, .. } => run_check(alloc, how, input, out, err),
        BpfrtCommand::Disasm { .. } => run_disasm(alloc, input, out, err),
        BpfrtCommand::Asm { form, explain, .. } => run_asm(alloc, *form, *explain, input, out, err),
        BpfrtCommand::Script { explain } => run_lines(alloc, *explain, input, out, err),
        BpfrtCommand::Version => write_status(err, write_version(out)),
        BpfrtCommand::Pool {
            workers,
            count,
            contexts: named,
            explain,
            ..
        } => {
            let size = PoolSize {
                workers: *workers,
                count: *count,
            };
            run_pool(rt, alloc, size, named, contexts, *explain, input, out, err)
        }
        BpfrtCommand::Run { single, .. } => run_single(alloc, false, single, input, out, err),
        BpfrtCommand::Trace { single, .. } => run_single(alloc, true, single, input, out, err),
        BpfrtCommand::Filter { kind, explain, .. } => {
            run_filter(alloc, *kind, *explain, input, out, err)
        }
    }
}
