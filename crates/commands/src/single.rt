//! A file's program, run once by itself, with each of its steps told where they are asked for.
ghost use Rattle.std.specs.Prelude.{◌≡◌, ◌⊎◌, ◌++◌, List, ℕ, true, false, IfOk, IfErr, IfSome};
ghost use Rattle.program_files.specs.Files.{HoldsBytes};
ghost use Rattle.program_files.specs.Verdicts.{memory_number};
ghost use Rattle.commands.specs.Outputs.{TellsVerdict};
ghost use Rattle.commands.specs.Refusals.{command_number};
ghost use Rattle.commands.specs.Runs.{ended_line, ended_text, told_text, IsDumped, IsRunRefusal, IsToldText, RefusesRun, WritesRun};

use crate::dump::write_maps;
use crate::json::{ended_of, traced_of};
use crate::puts::puts_of;
use crate::refusal::{CommandRefusal, Refused};
use crate::report::{Given, Telling, report_in_form};
use crate::run_words::explain_run;
use crate::streams::{read_failed_in_words, write_status, write_text};
use bpf_model::{EventRefusal, array_of};
use command_words::SingleRun;
use program_files::{FileBytes, Verdict, VerifiedSource, read_file, verify_source};
use run_once::{Ended, Ran, RunEnd, run_once};
use std::alloc::{AllocError, Global};
use std::io;
use std::io::{Read, Write};
use world::World;

/// The elements of a world's maps where they are asked for.
fn dumped_of(alloc: Global, world: &World, dump: bool) -> Result<Vec<u8>, AllocError>
    ensures { IfOk result (λ text. IsDumped dump world.now.maps text.items) }
{
    let mut text = Vec::new(alloc);
    if dump {
        write_maps(world, &mut text)?;
    }
    Ok(text)
}

/// The line of a run that has exited, with what is behind it.
fn lines_of(alloc: Global, ended: Ended, dumped: &[u8]) -> io::Result<Vec<u8>>
    ensures { IfOk result (λ text. text.items ≡ ended_line ended.value ended.steps ++ dumped.now) }
{
    let Ended { value, steps } = ended;
    let mut text = Vec::new(alloc);
    writeln!(text, "exit {value} steps {steps}")?;
    text.extend_from_slice(dumped)?;
    Ok(text)
}

/// A run that has exited, and the elements of its maps where they are asked for, as lines or as a JSON object.
fn end_of(alloc: Global, ended: Ended, json: bool, dumped: &[u8]) -> io::Result<Vec<u8>>
    ensures { IfOk result (λ text. text.items ≡ ended_text json ended.value ended.steps dumped.now) }
{
    if json {
        ended_of(alloc, ended, dumped)
    } else {
        lines_of(alloc, ended, dumped)
    }
}

/// The steps of a run, and its end below them, as lines or as a JSON object.
fn with_steps(
    alloc: Global,
    json: bool,
    mut steps: Vec<u8>,
    end: &[u8],
) -> Result<Vec<u8>, AllocError>
    ensures { IfOk result (λ text. text.items ≡ told_text true json steps.items end.now) }
{
    if json {
        return traced_of(alloc, &steps, end);
    }
    steps.extend_from_slice(end)?;
    Ok(steps)
}

/// What tells a run that has exited, with its steps where they are asked for.
fn text_of(
    alloc: Global,
    ended: Ended,
    ran: Ran,
    tells: bool,
    single: &SingleRun,
) -> io::Result<Vec<u8>>
    ensures { IfOk result (λ text. (dumped : List ℕ) × IsDumped single.now.dump ran.world.maps dumped
        × (text.items ≡ told_text tells single.now.json ran.trace.items
        (ended_text single.now.json ended.value ended.steps dumped))) }
{
    let dumped = dumped_of(alloc, &ran.world, single.dump)?;
    let end = end_of(alloc, ended, single.json, &dumped)?;
    if !tells {
        return Ok(end);
    }
    let text = with_steps(alloc, single.json, ran.trace, &end)?;
    Ok(text)
}

/// Decodes and verifies a file's program, puts elements into its maps, and runs it once on a context. What it gives is
/// the text that tells the run, with its steps where they are asked for.
///
/// Errors: the first of these, or 13 where memory runs out.
/// - What `check` says of the file.
/// - 63: the context has another length than the program's.
/// - 65 or 66, of the first element that fails a test: no map has its name, or its key or value has another length.
/// - 98: a map has no place for an element.
fn run_of(
    alloc: Global,
    file: &FileBytes,
    tells: bool,
    single: &SingleRun,
) -> Result<Vec<u8>, Refused>
    ensures ended { (bytes : List ℕ) → HoldsBytes file.now bytes →
        IfOk result (λ text. IsToldText tells single.now bytes text.items) }
    ensures refused { (bytes : List ℕ) → HoldsBytes file.now bytes →
        IfErr result (λ r. IsRunRefusal single.now bytes r.refusal) }
{
    let source = file.source(alloc)?;
    let opened = verify_source(alloc, source)?;
    if single.context.len() != opened.verified.ctx_len() {
        return Err(Refused {
            refusal: CommandRefusal::Event(EventRefusal::BadContext),
            program: None,
        });
    }
    let puts = puts_of(alloc, &opened.registry, &single.elements)?;
    let context = array_of(&single.context);
    let VerifiedSource { verified, registry } = opened;
    let Ok(ran) = run_once(alloc, verified, registry, &puts, context, tells) else {
        return Err(Refused::from(Verdict::Memory));
    };
    let ended = match ran.outcome {
        RunEnd::Exited(ended) => ended,
        RunEnd::NotDone(_) => {
            return Err(Refused {
                refusal: CommandRefusal::NoPlace,
                program: None,
            });
        }
    };
    match text_of(alloc, ended, ran, tells, single) {
        Ok(text) => Ok(text),
        Err(_) => Err(Refused::from(Verdict::Memory)),
    }
}

/// Tells why a file or its run is refused.
fn report_run<W: Write, E: Write>(
    alloc: Global,
    file: &FileBytes,
    refused: &Refused,
    single: &SingleRun,
    out: &mut W,
    err: &mut E,
) -> u8
    ensures status { (result ≡ 1) ⊎ (result ≡ 3) }
    ensures memory { command_number refused.now.refusal ≡ memory_number → result ≡ 3 }
    ensures told { result ≡ 1 →
        TellsVerdict single.now.json refused.now.refusal (W.contents out.old) (W.contents out.new) }
    ensures silent { result ≡ 1 → single.now.json ≡ false → out.new ≡ out.old }
{
    let form = Telling {
        explain: single.explain,
        json: single.json,
    };
    let status = report_in_form(alloc, Given::File(file), refused, form, out, err);
    if single.explain && status == 1 {
        let _ = explain_run(alloc, file, refused.refusal, single, err);
    }
    status
}

/// Runs the program that the input, a program file, says once by itself, writes how it has ended on `out`, and above it its
/// steps where they are asked for, and answers the exit status: 0, 1 where the file, the context or an element is refused, 3
/// for a fault.
pub fn run_single<R: Read, W: Write, E: Write>(
    alloc: Global,
    tells: bool,
    single: &SingleRun,
    input: &mut R,
    out: &mut W,
    err: &mut E,
) -> u8
    ensures status { (result ≡ 0) ⊎ (result ≡ 1) ⊎ (result ≡ 3) }
    ensures ended { result ≡ 0 → IfSome (R.remaining input.old)
        (WritesRun tells single.now (W.contents out.old) (W.contents out.new)) }
    ensures refused { result ≡ 1 → IfSome (R.remaining input.old)
        (RefusesRun single.now (W.contents out.old) (W.contents out.new)) }
    ensures silent { result ≡ 1 → single.now.json ≡ false → out.new ≡ out.old }
{
    let file = match read_file(alloc, input) {
        Ok(file) => file,
        Err(error) => return read_failed_in_words(err, &error, single.explain),
    };
    match run_of(alloc, &file, tells, single) {
        Ok(text) => write_status(err, write_text(out, &text)),
        Err(refused) => report_run(alloc, &file, &refused, single, out, err),
    }
}
