//! `bpfrt`: the command line over the runtime.
#![tactic(auto)]

mod input;
mod progress;

use crate::input::Input;
use crate::progress::Progress;
use commands::{
    BpfrtCommand, HEADING, InputFile, TEXT_BYTES, WordsFault, no_command, parse_words, read_failed,
    read_text, run,
};
use std::alloc::Global;
use std::fs::File;
use std::io::{Error, ErrorKind, IsTerminal, Read, Write};
use std::process::ExitCode;
use std::sync::Wait;
use std::thread::Threads;
use std::{env, io};

/// Why a file cannot be used, unless memory ran out.
fn reason(kind: ErrorKind) -> Option<&'static str> {
    match kind {
        ErrorKind::OutOfMemory => None,
        ErrorKind::NotFound => Some("there is no such file"),
        ErrorKind::PermissionDenied => Some("it may not be read"),
        ErrorKind::IsADirectory => Some("it is a folder"),
        ErrorKind::NotADirectory => Some("a part of its path is no folder"),
        ErrorKind::FileTooLarge => Some("it has more than 16 MiB"),
        _ => Some("it cannot be opened"),
    }
}

/// Writes the fault of a file that cannot be opened, and behind it a line with its name and the reason. Answers the status.
fn unopened<E: Write>(err: &mut E, command: &BpfrtCommand, path: &str, error: &Error) -> u8 {
    let status = read_failed(err, error);
    let Some(reason) = reason(error.kind()) else {
        return status;
    };
    let _ = match command.other_file() {
        Some(file) if error.kind() == ErrorKind::NotFound => {
            writeln!(err, "{path:?}: {reason}; {file}")
        }
        _ => writeln!(err, "{path:?}: {reason}"),
    };
    status
}

/// Why a file that was opened cannot be read to its end, unless memory ran out.
fn reason_of_reading(kind: ErrorKind) -> Option<&'static str> {
    match kind {
        ErrorKind::OutOfMemory | ErrorKind::FileTooLarge => reason(kind),
        _ => Some("it cannot be read"),
    }
}

/// Of a raw program that is too long, so many bytes tell that, and its length past a multiple of 8 tells the rest.
const TELLING_BYTES: u64 = 40_000;

/// Whether the file begins as the text of a program file does.
fn begins_as_text(rt: &HostRuntime, path: &str) -> io::Result<bool> {
    let mut first = [0; 8];
    let count = File::open(rt, path)?.read(&mut first)?;
    Ok(count == 8 && first.as_slice() == HEADING)
}

/// Whether the command reads a text, and no program file.
fn reads_text(command: &BpfrtCommand) -> bool {
    match command {
        BpfrtCommand::Check { how, .. } => how.asm,
        BpfrtCommand::Asm { .. } | BpfrtCommand::Filter { .. } => true,
        _ => false,
    }
}

/// How many bytes are read of a file of this length. Of a text that is too large nothing is.
fn bytes_read(rt: &HostRuntime, is_text: bool, path: &str, length: u64) -> io::Result<u64> {
    if length <= TEXT_BYTES as u64 {
        return Ok(u64::MAX);
    }
    if is_text || begins_as_text(rt, path)? {
        return Err(Error::from(ErrorKind::FileTooLarge));
    }
    Ok(TELLING_BYTES + length % 8)
}

/// Opens a file that can be read, a text or a program file: a folder can be opened, but not read.
fn opened(rt: &HostRuntime, is_text: bool, path: &str) -> io::Result<Input<File>> {
    let file = File::open(rt, path)?;
    let metadata = file.metadata()?;
    if metadata.is_dir() {
        return Err(Error::from(ErrorKind::IsADirectory));
    }
    let most = if metadata.is_file() {
        bytes_read(rt, is_text, path, metadata.len())?
    } else {
        u64::MAX
    };
    Ok(Input::new(file, most, is_text))
}

/// Reads a file of contexts to its end. Why it cannot be read is told, and the status is the error.
fn read_contexts<R: Read + Drop>(
    rt: &HostRuntime,
    name: &str,
    input: &mut Input<R>,
) -> Result<Vec<u8>, u8> {
    let error = match read_text(rt.alloc(), input) {
        Ok(contexts) => return Ok(contexts),
        Err(error) => error,
    };
    let mut err = rt.stderr();
    let status = read_failed(&mut err, &error);
    if let Some(reason) = input.fault().and_then(reason_of_reading) {
        let _ = writeln!(err, "{name:?}: {reason}");
    }
    Err(status)
}

/// The bytes of the file of contexts that the command names; none where it names none. Why they cannot be read is told, and the
/// status is the error.
fn contexts_of(rt: &HostRuntime, command: &BpfrtCommand) -> Result<Vec<u8>, u8> {
    match command.contexts_file() {
        None => Ok(Vec::new(rt.alloc())),
        Some(InputFile::StandardInput) => {
            let mut input = Input::new(rt.stdin(), u64::MAX, true);
            read_contexts(rt, "-", &mut input)
        }
        Some(InputFile::Path(path)) => match opened(rt, true, path.as_str()) {
            Ok(mut input) => read_contexts(rt, path.as_str(), &mut input),
            Err(error) => Err(unopened(&mut rt.stderr(), command, path.as_str(), &error)),
        },
    }
}

/// Runs the command on what is opened of the file of this name, and says why that cannot be read. The handle for threads and
/// for waiting is the runtime again.
fn run_on<H: Threads + Wait + Sync, R: Read + Drop, W: Write>(
    rt: &HostRuntime,
    threads: &H,
    command: &BpfrtCommand,
    contexts: &[u8],
    name: &str,
    input: &mut Input<R>,
    out: &mut W,
) -> u8 {
    let mut err = rt.stderr();
    let status = run(threads, rt.alloc(), command, contexts, input, out, &mut err);
    if let Some(reason) = input.fault().and_then(reason_of_reading) {
        let _ = writeln!(err, "{name:?}: {reason}");
    }
    status
}

/// Runs the command on the file that it names, or on standard input. The handle for threads and for
/// waiting is the runtime again.
fn run_into<H: Threads + Wait + Sync, W: Write>(
    rt: &HostRuntime,
    threads: &H,
    command: &BpfrtCommand,
    out: &mut W,
) -> u8 {
    let mut err = rt.stderr();
    let contexts = match contexts_of(rt, command) {
        Ok(contexts) => contexts,
        Err(status) => return status,
    };
    let is_text = reads_text(command);
    match command.file() {
        None => run(
            threads,
            rt.alloc(),
            command,
            &[],
            &mut rt.stdin(),
            out,
            &mut err,
        ),
        Some(InputFile::StandardInput) => {
            let mut input = Input::new(rt.stdin(), u64::MAX, is_text);
            run_on(rt, threads, command, &contexts, "-", &mut input, out)
        }
        Some(InputFile::Path(path)) => match opened(rt, is_text, path.as_str()) {
            Ok(mut input) => {
                let name = path.as_str();
                run_on(rt, threads, command, &contexts, name, &mut input, out)
            }
            Err(error) => unopened(&mut err, command, path.as_str(), &error),
        },
    }
}

/// How many jobs a pool has whose progress is told: standard error is a terminal, and the lines go elsewhere.
fn jobs_told(rt: &HostRuntime, command: &BpfrtCommand) -> Option<u64> {
    match command {
        BpfrtCommand::Pool { count, .. }
            if rt.stderr().is_terminal() && !rt.stdout().is_terminal() => { Some(*count) }
        _ => None,
    }
}

/// Runs the command into standard output.
fn run_told<H: Threads + Wait + Sync>(rt: &HostRuntime, threads: &H, command: &BpfrtCommand) -> u8 {
    match jobs_told(rt, command) {
        None => run_into(rt, threads, command, &mut rt.stdout()),
        Some(jobs) => {
            let mut progress = Progress::new(rt.stdout(), rt.stderr(), jobs);
            run_into(rt, threads, command, &mut progress)
        }
    }
}

/// The words of the command line, the program's own name first. A word that is not text is no usage
/// of it.
fn words_of(rt: &HostRuntime, alloc: Global) -> Result<Vec<String>, WordsFault> {
    let arguments = match env::args(rt) {
        Ok(arguments) => arguments,
        Err(error) if error.kind() == ErrorKind::OutOfMemory => return Err(WordsFault::Memory),
        Err(_) => return Err(WordsFault::NotText),
    };
    let mut words = Vec::new(alloc);
    for word in arguments {
        words.push(word)?;
    }
    Ok(words)
}

/// Runs the command that the words ask for, and answers the exit status.
fn status_of<H: Threads + Wait + Sync>(rt: &HostRuntime, threads: &H) -> Result<u8, WordsFault> {
    let alloc = rt.alloc();
    let words = words_of(rt, alloc)?;
    let command = parse_words(alloc, &words)?;
    Ok(run_told(rt, threads, &command))
}

fn main(rt: HostRuntime) -> ExitCode {
    let status = match status_of(&rt, &rt) {
        Ok(status) => status,
        Err(usage) => no_command(&mut rt.stderr(), &usage),
    };
    ExitCode::from(status)
}
