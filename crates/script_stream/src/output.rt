//! Text to a writer.
ghost use Rattle.std.specs.Prelude.{◌≡◌, ℕ, List, ◌++◌, OnOk, OnErr, IfErr};
ghost use Rattle.std.specs.Io.KnownBytes.{Appends, Keeps};
ghost use Rattle.script_stream.specs.Progress.{IsOutputFault};

use crate::fault::{ScriptFault, stream_fault};
use std::io::{ErrorKind, Write};

/// Writes a text whole. After an error a beginning of it is written.
pub(crate) fn write_text<W: Write>(writer: &mut W, text: &[u8]) -> Result<(), ScriptFault>
    ensures ok { OnOk result (Appends (W.contents writer.old) (W.contents writer.new) text.now) }
    ensures err { OnErr result ((front more : List ℕ) × (text.now ≡ front ++ more)
        × Appends (W.contents writer.old) (W.contents writer.new) front) }
    ensures fault { IfErr result IsOutputFault }
{
    let mut rest = text;
    for _ in 0..u64::MAX {
        if rest.is_empty() {
            return Ok(());
        }
        match writer.write(rest) {
            Ok(0) => return Err(ScriptFault::Write),
            Ok(count) => rest = &rest[count..],
            Err(error) if error.kind() == ErrorKind::Interrupted => {}
            Err(error) => return Err(stream_fault(&error, ScriptFault::Write)),
        }
    }
    Err(ScriptFault::Write)
}

/// Hands on what the writer holds back.
pub(crate) fn flush<W: Write>(writer: &mut W) -> Result<(), ScriptFault>
    ensures bytes { Keeps (W.contents writer.old) (W.contents writer.new) }
    ensures fault { IfErr result IsOutputFault }
{
    for _ in 0..u64::MAX {
        match writer.flush() {
            Ok(()) => return Ok(()),
            Err(error) if error.kind() == ErrorKind::Interrupted => {}
            Err(error) => return Err(stream_fault(&error, ScriptFault::Write)),
        }
    }
    Err(ScriptFault::Write)
}
