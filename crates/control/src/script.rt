//! A script from a reader to a writer.
ghost use Rattle.std.specs.Prelude.{ℕ, List, OnOk, IfErr};
ghost use Rattle.std.specs.Io.KnownBytes.{Appends, Consumes, IsAtEnd};
ghost use Rattle.script_stream.specs.Answered.{Answered, FailsWith, IsSoOfInput};
ghost use Rattle.script_stream.specs.Lines.{lines_of};
ghost use Rattle.control.specs.Histories.{History, Continues, new_history};
ghost use Rattle.control.specs.Sessions.{IsNoCommand};

use crate::refusal::LineRefusal;
use crate::session::Session;
use script_lines::parse_line;
use script_stream::{LineFault, Nobody, Observer, Respond, ScriptFault, serve};
use std::alloc::Global;
use std::io::{Read, Write};

impl Respond for Session {
    ghost use Rattle.std.specs.Prelude.{List};
    ghost use Rattle.bpf_model.specs.declared.event.Event.{Event};
    ghost use Rattle.control.specs.Sessions.{LineAnswers, IsNoCommand};

    /// Why the line was refused, if it was.
    type Told = Option<LineRefusal>;

    ghost answers = { λ old line text new.
        (events : List Event) × LineAnswers old line events text new };

    ghost is_bad = { IsNoCommand };

    fn respond(
        &mut self,
        line: &[u8],
        out: &mut Vec<u8>,
    ) -> Result<Option<LineRefusal>, LineFault> {
        let command = match parse_line(line) {
            Ok(Some(command)) => command,
            Ok(None) => return Ok(None),
            Err(_) => return Err(LineFault::Bad),
        };
        let alloc = *out.allocator();
        match self.answer(alloc, command, out) {
            Ok(refusal) => Ok(refusal),
            Err(_) => Err(LineFault::Memory),
        }
    }
}

/// Runs a script, as `run_script` does, and tells an observer of it. With each line that was answered the observer sees why
/// it was refused, if it was, and what the line has left.
pub fn watch_script<V: Observer<Session>, R: Read, W: Write>(
    alloc: Global,
    observer: &mut V,
    reader: &mut R,
    writer: &mut W,
) -> Result<(), ScriptFault>
    ensures text { OnOk result ((input text : List ℕ) × (new : History)
        × Consumes (R.remaining reader.old) (R.remaining reader.new) input
        × IsAtEnd (R.remaining reader.new)
        × Appends (W.contents writer.old) (W.contents writer.new) text
        × Answered Continues new_history (lines_of input) text new) }
    ensures failed { IfErr result (λ e. (read text : List ℕ)
        × Consumes (R.remaining reader.old) (R.remaining reader.new) read
        × Appends (W.contents writer.old) (W.contents writer.new) text
        × IsSoOfInput (R.remaining reader.new) read
        (λ input. FailsWith Continues IsNoCommand new_history input text e)) }
{
    let mut session = Session::new(alloc);
    serve(alloc, &mut session, observer, reader, writer)
}

/// Runs a script: reads lines to the end of the input, answers each command, and writes the answers and
/// nothing else. What is answered is written and handed on before more is read, so that a host may wait for
/// an answer before it writes its next line. A line is at most `LINE_BYTES` bytes without its line feed.
///
/// Errors: the first that is met.
/// - `BadCommand` (95): with the first line that is longer than `LINE_BYTES` bytes or no command, counted
///   from 1. Written is exactly what answers the lines before.
/// - `Read` (96), `Write` (97), `Memory` (13): the reader or the writer failed (a write of no bytes is a
///   failure too), or an allocation did. Written is a beginning of the answers to the lines.
///
/// Lines are those of the whole input, also of what was not read: the end of a read ends no line.
pub fn run_script<R: Read, W: Write>(
    alloc: Global,
    reader: &mut R,
    writer: &mut W,
) -> Result<(), ScriptFault>
    ensures text { OnOk result ((input text : List ℕ) × (new : History)
        × Consumes (R.remaining reader.old) (R.remaining reader.new) input
        × IsAtEnd (R.remaining reader.new)
        × Appends (W.contents writer.old) (W.contents writer.new) text
        × Answered Continues new_history (lines_of input) text new) }
    ensures failed { IfErr result (λ e. (read text : List ℕ)
        × Consumes (R.remaining reader.old) (R.remaining reader.new) read
        × Appends (W.contents writer.old) (W.contents writer.new) text
        × IsSoOfInput (R.remaining reader.new) read
        (λ input. FailsWith Continues IsNoCommand new_history input text e)) }
{
    watch_script(alloc, &mut Nobody, reader, writer)
}
