//! A file's program, run many times by a pool of workers.
ghost use Rattle.std.specs.Prelude.{◌≡◌, ◌≢◌, ◌⊎◌, List, ℕ, IfOk, IfErr, IfSome, OnOk};
ghost use Rattle.std.specs.Io.KnownBytes.{Appends};
ghost use Rattle.bpf_model.specs.View.{AreNewMaps, shapes_of_maps};
ghost use Rattle.program_files.specs.declared.contexts.ContextsFault.TheVariants.{Memory as ContextsMemory};
ghost use Rattle.program_files.specs.Checks.{IsCheckedRefusal};
ghost use Rattle.program_files.specs.Files.{HoldsBytes};
ghost use Rattle.program_files.specs.Verdicts.{memory_number};
ghost use Rattle.commands.specs.Refusals.{command_number};
ghost use Rattle.job_queue.specs.declared.fault.PoolFault.TheVariants.{Lost};
ghost use Rattle.job_queue.specs.Faults.{pool_fault_number};
ghost use Rattle.commands.specs.Pools.{entries_line, IsProgramOf, IsRefusedByPool, WritesPool};

use crate::contexts::{contexts_for, write_contexts_fault};
use crate::meanings::meaning_of_refusal;
use crate::refusal::{CommandRefusal, Refused};
use crate::report::{Given, out_of_memory, report_line, report_refusal, write_number};
use crate::streams::{read_failed_in_words, write_status};
use bpf_model::{EventRefusal, MAX_JOURNAL};
use command_words::ContextsFile;
use explanations::write_meaning;
use program_files::{
    ContextsFault, FileBytes, RefusedFile, VerifiedSource, read_file, verify_source,
};
use std::alloc::Global;
use std::io;
use std::io::{Read, Write};
use std::sync::Wait;
use std::thread::Threads;
use worker_pool::{MAX_JOBS, MAX_WORKERS, ProgramWithMaps, RunFault, run_program};

/// How many times a program is run, and by how many workers.
#[derive(Clone, Copy)]
pub struct PoolSize {
    pub workers: u64,
    pub count: u64,
}

/// Decodes and verifies a file's program.
fn program_of(alloc: Global, file: &FileBytes) -> Result<ProgramWithMaps, RefusedFile>
    ensures new_maps { IfOk result (λ p. AreNewMaps p.registry.maps) }
    ensures shapes { IfOk result (λ p. p.verified.shapes ≡ shapes_of_maps p.registry.maps) }
    ensures found { (bytes : List ℕ) → HoldsBytes file.now bytes →
        IfOk result (λ p. IsProgramOf bytes p.verified.program p.verified.shapes p.verified.ctx_len) }
    ensures refused { (bytes : List ℕ) → HoldsBytes file.now bytes →
        IfErr result (λ r. IsCheckedRefusal bytes r.verdict) }
{
    let source = file.source(alloc)?;
    let opened = verify_source(alloc, source)?;
    let VerifiedSource { verified, registry } = opened;
    Ok(ProgramWithMaps { verified, registry })
}

/// Writes how many entries the journal has.
fn write_entries<W: Write>(out: &mut W, entries: usize) -> io::Result<()>
    ensures { OnOk result (Appends (W.contents out.old) (W.contents out.new) (entries_line entries)) }
{
    writeln!(out, "entries {entries}")?;
    out.flush()
}

/// Writes how many workers and jobs are asked for, and how many a pool may have.
fn write_limits<W: Write>(out: &mut W, refusal: &CommandRefusal, size: PoolSize) -> io::Result<()> {
    if let Some(meaning) = meaning_of_refusal(refusal) {
        write_meaning(out, meaning)?;
    }
    let PoolSize { workers, count } = size;
    writeln!(
        out,
        "  WORKERS is {workers}, and may be 1 to {MAX_WORKERS}; COUNT is {count}, and may be 0 to {MAX_JOBS}"
    )?;
    writeln!(
        out,
        "  the journal has room for {MAX_JOURNAL} entries: one for each start, step and drop of a job"
    )
}

/// Tells that a pool of this size is refused, in words too where it is asked for, and answers the status.
fn report_size<E: Write>(err: &mut E, refusal: CommandRefusal, size: PoolSize, in_words: bool) -> u8
    ensures status { (result ≡ 1) ⊎ (result ≡ 3) }
    ensures memory { command_number refusal ≡ memory_number → result ≡ 3 }
    ensures lost { command_number refusal ≡ pool_fault_number Lost → result ≡ 3 }
{
    if refusal.is_memory() {
        return out_of_memory(err, in_words);
    }
    let status = report_line(err, refusal);
    if in_words && status == 1 {
        let _ = write_limits(err, &refusal, size);
    }
    status
}

/// Tells that a file has no contexts of so many bytes, `refused 63`, or `refused 63 at L` for a line, in words too where it
/// is asked for, and answers the status.
fn report_contexts<E: Write>(
    err: &mut E,
    bytes: &[u8],
    len: usize,
    fault: ContextsFault,
    in_words: bool,
) -> u8
    ensures status { (result ≡ 1) ⊎ (result ≡ 3) }
    ensures refused { result ≡ 1 → fault ≢ ContextsMemory }
{
    let line = match fault {
        ContextsFault::Memory => return out_of_memory(err, in_words),
        ContextsFault::BadLine { line } => Some(line),
        ContextsFault::Empty | ContextsFault::BadLength => None,
    };
    write_number(err, "refused", EventRefusal::BadContext.code(), line);
    if in_words {
        let _ = write_contexts_fault(err, bytes, len, fault);
    }
    1
}

/// Runs the program that the input, a program file, says, writes the lines of its jobs on `out`, those
/// of some jobs at a time as soon as they are done, and answers the exit status: 0, 1 where the file, its
/// contexts or the numbers are refused, 3 for a fault. Why they are is told in words too where it is asked for.
/// The jobs take the given contexts in turn, where a file of them is named, or one of zeros.
pub fn run_pool<H: Threads + Wait + Sync, R: Read, W: Write, E: Write>(
    rt: &H,
    alloc: Global,
    size: PoolSize,
    named: &Option<ContextsFile>,
    given: &[u8],
    in_words: bool,
    input: &mut R,
    out: &mut W,
    err: &mut E,
) -> u8
    ensures status { (result ≡ 0) ⊎ (result ≡ 1) ⊎ (result ≡ 3) }
    ensures pooled { result ≡ 0 → IfSome (R.remaining input.old)
        (WritesPool named.now given.now size.workers size.count (W.contents out.old) (W.contents out.new)) }
    ensures refused { result ≡ 1 → IfSome (R.remaining input.old)
        (IsRefusedByPool named.now given.now size.workers size.count) }
    ensures silent { result ≡ 1 → out.new ≡ out.old }
{
    let file = match read_file(alloc, input) {
        Ok(file) => file,
        Err(error) => return read_failed_in_words(err, &error, in_words),
    };
    let program = match program_of(alloc, &file) {
        Ok(program) => program,
        Err(refused) => {
            let refused = Refused {
                refusal: CommandRefusal::File(refused.verdict),
                program: refused.program,
            };
            return report_refusal(alloc, Given::File(&file), &refused, in_words, err);
        }
    };
    let len = program.verified.ctx_len();
    let contexts = match contexts_for(alloc, named, len, given) {
        Ok(contexts) => contexts,
        Err(fault) => return report_contexts(err, given, len, fault, in_words),
    };
    match run_program(rt, alloc, program, &contexts, size.workers, size.count, out) {
        Ok(entries) => write_status(err, write_entries(out, entries)),
        Err(RunFault::Pool(fault)) => {
            report_size(err, CommandRefusal::Pool(fault), size, in_words)
        }
        Err(RunFault::Write(error)) => write_status(err, Err(error)),
    }
}
