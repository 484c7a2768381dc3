//! What is known of eight bytes of the frame, in words.
ghost use Rattle.std.specs.Prelude.{◌<◌, ◌+◌, ◌*◌};

use crate::known::write_kind;
use bpf_model::FRAME_BYTES;
use program_files::Source;
use register_kinds::{Content, FrameCells, check_bytes, read_frame};
use std::io;
use std::io::Write;

/// Writes for each of eight bytes of the frame, the lowest first, whether it is a byte of a number; nothing where none is.
/// Whether one is.
fn write_bytes<W: Write>(out: &mut W, frame: &FrameCells, group: usize) -> io::Result<bool>
    requires { group < 64 }
{
    let mut marks = [b'.'; 8];
    let mut are_some = false;
    for byte in 0..8 {
        if check_bytes(frame, 8 * group + byte, 1).is_ok() {
            marks[byte] = b'n';
            are_some = true;
        }
    }
    if !are_some {
        return Ok(false);
    }
    let below = FRAME_BYTES - 8 * group;
    write!(out, "  r10-{below}: ")?;
    out.write_all(&marks)?;
    writeln!(out)?;
    Ok(true)
}

/// Writes of eight bytes of the frame the reference that they are, or which of them are bytes of numbers. Whether they are
/// one, or one of them is one.
pub fn write_group<W: Write>(
    out: &mut W,
    source: &Source,
    frame: &FrameCells,
    group: usize,
) -> io::Result<bool>
    requires { group < 64 }
{
    match read_frame(frame, 8 * group, 8) {
        Ok(Content::Pointer(kind)) => {
            let below = FRAME_BYTES - 8 * group;
            write!(out, "  r10-{below}: ")?;
            write_kind(out, source, &kind)?;
            writeln!(out)?;
            Ok(true)
        }
        _ => write_bytes(out, frame, group),
    }
}
