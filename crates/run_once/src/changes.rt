//! What a step has changed of its run.

use crate::words::{write_bytes, write_place};
use bpf_model::{FRAME_BYTES, REGISTERS, Reg};
use machine::Run;
use maps::Registry;
use std::io;
use std::io::Write;

/// What is compared of a run before and behind a step.
#[derive(Clone, Copy)]
pub struct Before {
    registers: [u64; REGISTERS],
    frame: [u8; FRAME_BYTES],
    depth: usize,
}

impl Before {
    /// What a run is now.
    pub fn of(run: &Run) -> Before {
        let mut registers = [0; REGISTERS];
        for (number, word) in registers.iter_mut().enumerate() {
            if let Some(register) = Reg::new(number as u8) {
                *word = run.register(register);
            }
        }
        let mut frame = [0; FRAME_BYTES];
        for (byte, now) in frame.iter_mut().zip(run.frame()) {
            *byte = *now;
        }
        Before {
            registers,
            frame,
            depth: run.depth(),
        }
    }
}

/// Writes each register that has another word now.
fn write_registers<W: Write>(
    out: &mut W,
    maps: &Registry,
    before: &Before,
    run: &Run,
) -> io::Result<()> {
    for (number, word) in before.registers.iter().enumerate() {
        let Some(register) = Reg::new(number as u8) else {
            return Ok(());
        };
        let now = run.register(register);
        if now != *word {
            write!(out, "r{number} = {now}")?;
            write_place(out, maps, now)?;
            writeln!(out)?;
        }
    }
    Ok(())
}

/// The first byte of the frame that is another one now, and how many from there on up to the last one.
fn changed_bytes(before: &[u8], now: &[u8]) -> Option<(usize, usize)> {
    let mut found = None;
    for (at, (old, new)) in before.iter().zip(now).enumerate() {
        if old != new {
            let first = match found {
                None => at,
                Some((first, _)) => first,
            };
            found = Some((first, at));
        }
    }
    found.map(|(first, last)| (first, last.saturating_sub(first).saturating_add(1)))
}

/// Writes which bytes of the frame are others now.
fn write_frame<W: Write>(out: &mut W, before: &Before, run: &Run) -> io::Result<()> {
    let Some((first, count)) = changed_bytes(&before.frame, run.frame()) else {
        return Ok(());
    };
    let place = FRAME_BYTES.saturating_sub(first);
    write!(out, "r10-{place}: ")?;
    let changed = run.frame().get(first..first.saturating_add(count));
    write_bytes(out, changed.unwrap_or(&[]))?;
    writeln!(out)
}

/// Writes a line for each register, for the bytes of the frame and for the open locks that a step has changed.
pub fn write_changes<W: Write>(
    out: &mut W,
    maps: &Registry,
    before: &Before,
    run: &Run,
) -> io::Result<()> {
    write_registers(out, maps, before, run)?;
    write_frame(out, before, run)?;
    let depth = run.depth();
    if depth != before.depth {
        writeln!(out, "locks that are not given up: {depth}")?;
    }
    Ok(())
}
