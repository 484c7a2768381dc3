//! What the verifier knows before each instruction of a program.
ghost use Rattle.std.specs.Prelude.{◌<◌};

use crate::frame::write_group;
use crate::known::{write_bits, write_kind};
use crate::numbered::next_of;
use crate::states::{States, Waiting};
use disasm::line_of;
use program_files::{FileBytes, Source, shapes_of};
use register_kinds::{AbsState, FrameCells, RegKind};
use state_steps::EnvironmentShape;
use std::alloc::{AllocError, Global};
use std::io;
use std::io::Write;
use verifier::{GraphRefusal, judge};

/// Writes each of r0 to r9 that is written on every path.
fn write_registers<W: Write>(out: &mut W, source: &Source, state: &AbsState) -> io::Result<()> {
    for (number, kind) in state.regs.iter().enumerate().take(10) {
        if *kind != RegKind::Unwritten {
            write!(out, "  r{number}: ")?;
            write_kind(out, source, kind)?;
            write_bits(out, kind)?;
            writeln!(out)?;
        }
    }
    Ok(())
}

/// Writes what is known of the bytes of the frame, eight a line.
fn write_frame<W: Write>(out: &mut W, source: &Source, frame: &FrameCells) -> io::Result<()> {
    for group in 0..64 {
        write_group(out, source, frame, group)?;
    }
    Ok(())
}

/// Writes all that is known before an instruction.
fn write_state<W: Write>(out: &mut W, source: &Source, state: &AbsState) -> io::Result<()> {
    write_registers(out, source, state)?;
    write_frame(out, source, &state.frame)?;
    if state.depth > 0 {
        let depth = state.depth;
        writeln!(out, "  locks that are not given up: {depth}")?;
    }
    Ok(())
}

/// Writes an instruction and what is known before it, and does its step. Whether there was one.
fn write_step<W: Write>(
    alloc: Global,
    source: &Source,
    shape: &EnvironmentShape,
    states: &mut States,
    index: usize,
    target: Option<usize>,
    out: &mut W,
) -> io::Result<bool> {
    let (Some(insn), Some(slot)) = (
        source.program.instructions().get(index),
        source.program.starts().get(index),
    ) else {
        return Ok(false);
    };
    let text = line_of(alloc, insn)?;
    writeln!(out, "{slot}: {text}")?;
    let before = match states.take(index) {
        Waiting::Known(before) => before,
        Waiting::Nothing => return Ok(false),
        Waiting::Differing => {
            writeln!(
                out,
                "  different numbers of locks are open on different paths"
            )?;
            return Ok(false);
        }
    };
    write_state(out, source, before.state())?;
    match next_of(before, &mut states.boxes, insn, shape, &mut states.ids)? {
        Some(next) => {
            states.spread(insn, index, target, next);
            Ok(true)
        }
        None => Ok(false),
    }
}

/// Writes what is known before each instruction, where each jump leads to the instruction of this index.
fn write_steps<W: Write>(
    alloc: Global,
    source: &Source,
    targets: &[Option<usize>],
    out: &mut W,
) -> io::Result<()> {
    let shapes = shapes_of(alloc, &source.registry)?;
    let shape = EnvironmentShape {
        shapes: &shapes,
        ctx_len: source.ctx_len,
    };
    let mut states = States::at_entry(alloc, targets.len())?;
    for (index, target) in targets.iter().enumerate() {
        if !write_step(alloc, source, &shape, &mut states, index, *target, out)? {
            return Ok(());
        }
    }
    Ok(())
}

/// Writes what the verifier knows before each instruction of a file's program, in their order, up to the one that is refused:
/// the slot and the text of the instruction, and below them, indented, a line for each of r0 to r9 that is written on every
/// path, one for each eight bytes of the frame of which some may be read, and one for the open locks. It goes through the
/// program again, as the verifier does. Nothing is written of a file that says no program; of one whose jump graph has a flaw
/// one line.
///
/// An error says that nothing more could be written, or that memory ran out.
pub fn write_log<W: Write>(alloc: Global, file: &FileBytes, out: &mut W) -> io::Result<()> {
    let Ok(source) = file.source(alloc) else {
        return Ok(());
    };
    match judge(
        alloc,
        source.program.instructions(),
        source.program.starts(),
        source.program.slot_count(),
    ) {
        Ok(targets) => write_steps(alloc, &source, &targets, out),
        Err(GraphRefusal::Flaw { .. }) => writeln!(
            out,
            "the jumps are judged first, so nothing is known of an instruction"
        ),
        Err(GraphRefusal::Memory) => Err(io::Error::from(AllocError)),
    }
}
