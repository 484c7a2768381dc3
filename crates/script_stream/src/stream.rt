//! A script from a reader to a writer.
ghost use Rattle.std.specs.Prelude.{◌≡◌, ◌⊎◌, ℕ, ◌<◌, ◌++◌, List, MatchBool, length, take, IfOk, IfErr, OnOk, OnErr};
ghost use Rattle.std.specs.Io.{ReadsAtMost};
ghost use Rattle.std.specs.Io.KnownBytes.{Appends, Consumes, IsAtEnd, Keeps};
ghost use Rattle.script_stream.specs.Answered.{Answered, FailsWith, IsSoOfInput};
ghost use Rattle.script_stream.specs.Lines.{lines_of};
ghost use Rattle.script_stream.specs.Progress.{IsProgressAt};

use crate::fault::{ScriptFault, stream_fault};
use crate::input::read_some;
use crate::observer::Observer;
use crate::progress::Progress;
use crate::respond::Respond;
use std::alloc::Global;
use std::io::{Read, Write};

/// How many bytes are read at once.
const CHUNK: usize = 65_536;

/// One read for a script.
fn read_chunk<R: Read>(reader: &mut R, chunk: &mut [u8]) -> Result<usize, ScriptFault>
    ensures bound { ReadsAtMost result chunk.new }
    ensures ok { IfOk result (λ n.
        Consumes (R.remaining reader.old) (R.remaining reader.new) (take n chunk.new)) }
    ensures end { IfOk result (λ n. n ≡ 0 → 0 < length chunk.old
        → IsAtEnd (R.remaining reader.new)) }
    ensures err { OnErr result (Keeps (R.remaining reader.old) (R.remaining reader.new)) }
    ensures fault { IfErr result (λ e. (e ≡ ScriptFault.Read) ⊎ (e ≡ ScriptFault.Memory)) }
{
    match read_some(reader, chunk) {
        Ok(count) => Ok(count),
        Err(error) => Err(stream_fault(&error, ScriptFault::Read)),
    }
}

/// Reads once, and answers the lines that end there, or the last line at the end of the input. Answers
/// whether the input may go on.
fn serve_some<A: Respond, V: Observer<A>, R: Read, W: Write>(
    progress: &mut Progress,
    responder: &mut A,
    observer: &mut V,
    reader: &mut R,
    writer: &mut W,
    chunk: &mut [u8],
) -> Result<bool, ScriptFault>
    requires { 0 < length chunk.old }
    ensures ok { (first : A) (input written : List ℕ)
        → IsProgressAt A.answers first input written progress.old responder.old
        → IfOk result (λ goes_on. (read more : List ℕ)
        × Consumes (R.remaining reader.old) (R.remaining reader.new) read
        × Appends (W.contents writer.old) (W.contents writer.new) more
        × MatchBool goes_on
        (IsProgressAt A.answers first (input ++ read) (written ++ more) progress.new responder.new)
        (IsAtEnd (R.remaining reader.new)
        × Answered A.answers first (lines_of (input ++ read)) (written ++ more)
        responder.new)) }
    ensures err { (first : A) (input written : List ℕ)
        → IsProgressAt A.answers first input written progress.old responder.old
        → IfErr result (λ e. (read more : List ℕ)
        × Consumes (R.remaining reader.old) (R.remaining reader.new) read
        × Appends (W.contents writer.old) (W.contents writer.new) more
        × IsSoOfInput (R.remaining reader.new) (input ++ read)
        (λ all. FailsWith A.answers A.is_bad first all (written ++ more) e)) }
{
    let count = read_chunk(reader, chunk)?;
    if count == 0 {
        progress.finish(responder, observer, writer)?;
        observer.handed_on();
        return Ok(false);
    }
    observer.read(&chunk[..count]);
    progress.take(responder, observer, writer, &chunk[..count])?;
    progress.send(writer)?;
    observer.handed_on();
    Ok(true)
}

/// Reads lines to the end of the input, answers each, and writes the answers and nothing else. What is
/// answered is written and handed on before more is read. Between the two the observer is told so, also at the end
/// of a script that does not fail.
///
/// Errors: the first that is met.
/// - `BadCommand`: with the first line that is longer than `LINE_BYTES` bytes or no command. Written is
///   exactly what answers the lines before. A line that is too long is told without reading on.
/// - `Read`, `Write`, `Memory`: the reader or the writer failed (a write of no bytes is a failure too), or
///   an allocation did. Written is a beginning of the answers to the lines.
///
/// Lines are those of the whole input, also of what was not read: the end of a read ends no line.
pub fn serve<A: Respond, V: Observer<A>, R: Read, W: Write>(
    alloc: Global,
    responder: &mut A,
    observer: &mut V,
    reader: &mut R,
    writer: &mut W,
) -> Result<(), ScriptFault>
    ensures text { OnOk result ((input text : List ℕ)
        × Consumes (R.remaining reader.old) (R.remaining reader.new) input
        × IsAtEnd (R.remaining reader.new)
        × Appends (W.contents writer.old) (W.contents writer.new) text
        × Answered A.answers responder.old (lines_of input) text responder.new) }
    ensures failed { IfErr result (λ e. (read text : List ℕ)
        × Consumes (R.remaining reader.old) (R.remaining reader.new) read
        × Appends (W.contents writer.old) (W.contents writer.new) text
        × IsSoOfInput (R.remaining reader.new) read
        (λ input. FailsWith A.answers A.is_bad responder.old input text e)) }
{
    let mut progress = Progress::new(alloc);
    let mut chunk = vec![in alloc; 0u8; CHUNK]?;
    for _ in 0..u64::MAX {
        let goes_on = serve_some(
            &mut progress,
            responder,
            observer,
            reader,
            writer,
            &mut chunk,
        )?;
        if !goes_on {
            return Ok(());
        }
    }
    Err(ScriptFault::Read)
}
