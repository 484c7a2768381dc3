//! Streams that fail, and what is written whole.
ghost use Rattle.std.specs.Prelude.{◌≡◌, OnOk, MatchResult};
ghost use Rattle.std.specs.Io.KnownBytes.{Appends};

use crate::report::{out_of_memory, report_fault};
use script_stream::{ScriptFault, stream_fault};
use std::io;
use std::io::{ErrorKind, Write};

/// The status where an input cannot be opened or read, which is told on `err`: where it is too large or memory ran out,
/// `fault 13`, or else `fault 96`.
pub fn read_failed<E: Write>(err: &mut E, error: &io::Error) -> u8
    ensures { result ≡ 3 }
{
    read_failed_in_words(err, error, false)
}

/// The status where an input cannot be read, which is told as `read_failed` does. That memory ran out is told in words, too,
/// where these are asked for.
pub fn read_failed_in_words<E: Write>(err: &mut E, error: &io::Error, in_words: bool) -> u8
    ensures { result ≡ 3 }
{
    match error.kind() {
        ErrorKind::OutOfMemory => out_of_memory(err, in_words),
        ErrorKind::FileTooLarge => out_of_memory(err, false),
        _ => report_fault(err, ScriptFault::Read.code()),
    }
}

/// Writes all of a text, and flushes the stream.
pub fn write_text<W: Write>(out: &mut W, text: &[u8]) -> io::Result<()>
    ensures { OnOk result (Appends (W.contents out.old) (W.contents out.new) text.now) }
{
    out.write_all(text)?;
    out.flush()
}

/// The status where an output's writing failed, which is told on `err`.
pub fn write_failed<E: Write>(err: &mut E, error: &io::Error) -> u8
    ensures { result ≡ 3 }
{
    report_fault(err, stream_fault(error, ScriptFault::Write).code())
}

/// The status of an output that was written, or whose writing failed, which is told on `err`.
pub fn write_status<E: Write>(err: &mut E, outcome: io::Result<()>) -> u8
    ensures { MatchResult outcome (λ _. result ≡ 0) (λ _. result ≡ 3) }
{
    match outcome {
        Ok(()) => 0,
        Err(error) => write_failed(err, &error),
    }
}
