//! How many locks are open where paths meet.

use crate::ways::targets_of;
use bpf_model::{CallKind, Insn, KernelFunction, MAX_DEPTH};
use program_files::Source;
use std::alloc::{AllocError, Global};
use std::io;
use std::io::Write;
use verifier::falls;

/// How many numbers of locks may be open: 0 to `MAX_DEPTH`.
const COUNTS: usize = MAX_DEPTH + 1;

/// For each number of locks whether so many are open on some path.
type Depths = [bool; COUNTS];

/// How many locks are open behind an instruction; none where it is refused.
fn behind(insn: &Insn, depth: usize) -> Option<usize> {
    let Insn::Call {
        kind: CallKind::Kernel,
        imm,
    } = insn
    else {
        return Some(depth);
    };
    match KernelFunction::from_number(*imm) {
        Some(KernelFunction::ReadLock) if depth < MAX_DEPTH => Some(depth.saturating_add(1)),
        Some(KernelFunction::ReadUnlock) => depth.checked_sub(1),
        _ => None,
    }
}

/// Adds the numbers behind an instruction, of those before it, to those of another one.
fn put(all: &mut [Depths], index: usize, insn: &Insn, before: &Depths) {
    let Some(depths) = all.get_mut(index) else {
        return;
    };
    for (depth, is_open) in before.iter().enumerate() {
        if *is_open {
            if let Some(place) = behind(insn, depth).and_then(|depth| depths.get_mut(depth)) {
                *place = true;
            }
        }
    }
}

/// The numbers of locks that are open before each instruction, by the paths that lead to it.
fn depths_of(
    alloc: Global,
    instructions: &[Insn],
    targets: &[Option<usize>],
) -> Result<Vec<Depths>, AllocError> {
    let mut all = vec![in alloc; [false; COUNTS]; instructions.len()]?;
    if let Some(entry) = all.get_mut(0) {
        entry[0] = true;
    }
    for (index, insn) in instructions.iter().enumerate() {
        let before = all.get(index).copied().unwrap_or([false; COUNTS]);
        if falls(insn) {
            put(&mut all, index.saturating_add(1), insn, &before);
        }
        if let Some(Some(target)) = targets.get(index) {
            put(&mut all, *target, insn, &before);
        }
    }
    Ok(all)
}

/// Writes the numbers that there are, where they are more than one.
fn write_numbers<W: Write>(out: &mut W, depths: &Depths) -> io::Result<()> {
    if depths.iter().filter(|is_open| **is_open).count() < 2 {
        return Ok(());
    }
    write!(out, "  locks that are not given up, by the path: ")?;
    let mut before = "";
    for (depth, is_open) in depths.iter().enumerate() {
        if *is_open {
            write!(out, "{before}{depth}")?;
            before = " or ";
        }
    }
    writeln!(out)
}

/// Writes how many locks are open before the instruction of this index, where paths with other numbers of them meet there.
///
/// An error says that nothing more could be written, or that memory ran out.
pub fn write_depths<W: Write>(
    alloc: Global,
    source: &Source,
    index: usize,
    out: &mut W,
) -> io::Result<()> {
    let Some(targets) = targets_of(alloc, source)? else {
        return Ok(());
    };
    let all = depths_of(alloc, source.program.instructions(), &targets)?;
    match all.get(index) {
        Some(depths) => write_numbers(out, depths),
        None => Ok(()),
    }
}
