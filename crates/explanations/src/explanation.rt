//! Lines that explain why a program file is refused.

use crate::causes::{write_cause, write_flaw_cause, write_known_cause};
use crate::depths::write_depths;
use crate::lost::write_unreadable;
use crate::meaning::{Meaning, meaning_of, unpaired};
use crate::missing::write_bytes_read;
use crate::place::{Place, Told};
use crate::reads::reads;
use crate::slot_lines::write_slot_line;
use bpf_model::Insn;
use disasm::line_of;
use insn_codec::{DecodeFault, InsnFlaw};
use program_files::{
    FileBytes, HEADING, LoadFault, Source, Verdict, likeness_of, load, write_likeness,
    write_wrong_line,
};
use register_kinds::{InsnFault, RegKind};
use std::alloc::Global;
use std::io;
use std::io::Write;
use verifier::{AbsState, ProgramRefusal};
use verifier_log::write_kind;

/// The instruction that begins at a slot, and its index, if one does.
fn insn_at(source: &Source, slot: usize) -> Option<(usize, &Insn)> {
    let program = &source.program;
    let index = program.starts().iter().position(|start| *start == slot)?;
    Some((index, program.instructions().get(index)?))
}

/// Writes what is known of a register. Whether a call has cleared it.
fn write_register<W: Write>(
    alloc: Global,
    place: Place<'_>,
    number: usize,
    kind: RegKind,
    out: &mut W,
) -> io::Result<bool> {
    write!(out, "  r{number}: ")?;
    if let RegKind::Unwritten | RegKind::Ended | RegKind::Mixed = kind {
        return write_unreadable(alloc, place.told, place.index, number, kind, out);
    }
    write_kind(out, place.told.source, &kind)?;
    writeln!(out)?;
    Ok(false)
}

/// Writes a line for each register that the instruction reads, and how many locks are open.
fn write_known<W: Write>(alloc: Global, place: Place<'_>, out: &mut W) -> io::Result<()> {
    let mut is_cleared = false;
    for (number, kind) in place.state.regs.iter().enumerate() {
        if reads(place.insn, number) {
            let by_call = write_register(alloc, place, number, *kind, out)?;
            is_cleared = is_cleared || by_call;
        }
    }
    let depth = place.state.depth;
    writeln!(out, "  locks that are not given up: {depth}")?;
    if place.fault == InsnFault::UnwrittenRegister && is_cleared {
        return writeln!(
            out,
            "  a call leaves nothing in r1 to r5, and `callbtf` nothing in r0: keep what is needed later in r6 to r9"
        );
    }
    Ok(())
}

/// What a refusal at an instruction means before which this is known: of sections the one cause that holds.
fn meaning_there(
    refusal: ProgramRefusal,
    insn: &Insn,
    known: &Option<Box<AbsState>>,
) -> Option<Meaning> {
    let ProgramRefusal::Instruction {
        fault: InsnFault::UnpairedSection,
        ..
    } = refusal
    else {
        return meaning_of(&Verdict::Program(refusal));
    };
    Some(unpaired(insn, known.as_ref().map(|state| state.depth)))
}

/// Writes why an instruction has a fault, before which this is known.
fn write_fault<W: Write>(
    alloc: Global,
    told: Told<'_>,
    index: usize,
    insn: &Insn,
    fault: InsnFault,
    known: &Option<Box<AbsState>>,
    out: &mut W,
) -> io::Result<()> {
    write_cause(out, told.source, fault)?;
    if fault == InsnFault::UnpairedSection {
        write_depths(alloc, told.source, index, out)?;
    }
    let Some(state) = known else {
        return Ok(());
    };
    let place = Place {
        told,
        index,
        insn,
        fault,
        state,
    };
    write_known(alloc, place, out)?;
    write_known_cause(out, place)?;
    write_bytes_read(alloc, out, place)
}

/// The slot that is shown of a fault of code: of a wide instruction's second half that one.
pub fn slot_shown(fault: &DecodeFault) -> Option<usize> {
    match fault {
        DecodeFault::Insn {
            flaw: InsnFlaw::WideTail,
            slot,
        } => Some(slot.saturating_add(1)),
        _ => fault.slot(),
    }
}

/// Writes the digits of a slot that is no instruction, of a file that looks like nothing else, and the line of a text.
fn write_slot<W: Write>(
    alloc: Global,
    file: &FileBytes,
    slot: usize,
    out: &mut W,
) -> io::Result<()> {
    let FileBytes::Whole(bytes) = file else {
        return Ok(());
    };
    if !bytes.starts_with(HEADING) && likeness_of(bytes).is_some() {
        return Ok(());
    }
    let Ok(said) = load(alloc, bytes) else {
        return Ok(());
    };
    let first = slot.saturating_mul(8);
    let code = said.code.get(first..first.saturating_add(8)).unwrap_or(&[]);
    let digits = hex::encode(alloc, code)?;
    writeln!(out, "at {slot}: {digits}")?;
    write_slot_line(bytes, slot, out)
}

/// How many lines stand above that of the context.
const HEADING_LINES: usize = 1;

/// What is kept of a file's bytes.
fn kept_of(file: &FileBytes) -> &[u8] {
    match file {
        FileBytes::Whole(bytes) => bytes,
        FileBytes::TooLong { beginning, .. } => beginning,
    }
}

/// Writes what bytes look like that are no program, and the digits of the slot that is no instruction.
fn write_code_fault<W: Write>(
    alloc: Global,
    file: &FileBytes,
    fault: &DecodeFault,
    out: &mut W,
) -> io::Result<()> {
    let bytes = kept_of(file);
    if !bytes.starts_with(HEADING) {
        write_likeness(out, bytes)?;
    }
    match slot_shown(fault) {
        Some(slot) => write_slot(alloc, file, slot, out),
        None => Ok(()),
    }
}

/// Writes the name of a refusal, and what it means.
pub fn write_meaning<W: Write>(out: &mut W, meaning: Meaning) -> io::Result<()> {
    let Meaning { name, text } = meaning;
    writeln!(out, "{name}: {text}")
}

/// Writes why the verifier refuses a program so, where this was known: a line with the name and the meaning of the refusal; the
/// text of the instruction at which it is; and of a fault what each register that the instruction reads may hold, how many locks
/// are open, by the path where that differs, and which byte of the frame is the cause. The frame is told from r10 on, maps by their
/// place in the program's list and their names. With the slot of another instruction stands the line of the text that the program
/// was made of, where those of all instructions are given.
///
/// An error says that nothing more could be written, or that memory ran out.
pub fn explain_program<W: Write>(
    alloc: Global,
    source: &Source,
    lines: &[usize],
    refusal: ProgramRefusal,
    known: &Option<Box<AbsState>>,
    out: &mut W,
) -> io::Result<()> {
    let Some(slot) = refusal.slot() else {
        return Ok(());
    };
    let Some((index, insn)) = insn_at(source, slot) else {
        return Ok(());
    };
    if let Some(meaning) = meaning_there(refusal, insn, known) {
        write_meaning(out, meaning)?;
    }
    let text = line_of(alloc, insn)?;
    writeln!(out, "at {slot}: {text}")?;
    match refusal {
        ProgramRefusal::Graph { flaw, .. } => write_flaw_cause(out, source, insn, flaw, slot),
        ProgramRefusal::Instruction { fault, .. } => {
            let told = Told { source, lines };
            write_fault(alloc, told, index, insn, fault, known, out)
        }
        ProgramRefusal::Memory => Ok(()),
    }
}

/// Writes what a verdict on a program file means: a line with its name and its meaning. Where a line of the file is wrong, it is
/// shown, with what it may be; bytes that are read as slots and are none may look like something else, and then that is said.
///
/// An error says that nothing more could be written, or that memory ran out.
pub fn explain<W: Write>(
    alloc: Global,
    file: &FileBytes,
    verdict: &Verdict,
    out: &mut W,
) -> io::Result<()> {
    if let Some(meaning) = meaning_of(verdict) {
        write_meaning(out, meaning)?;
    }
    match verdict {
        Verdict::File(LoadFault::BadFile { line }) => {
            write_wrong_line(out, kept_of(file), *line, HEADING_LINES)
        }
        Verdict::Code(fault) => write_code_fault(alloc, file, fault, out),
        _ => Ok(()),
    }
}
