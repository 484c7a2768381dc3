//! What of an instruction or of its program is the cause of a refusal, in words.

use crate::alignment::write_alignment;
use crate::arithmetic::{write_arithmetic, write_no_number};
use crate::bounds::write_bounds;
use crate::place::{Place, helper_of};
use bpf_model::{
    ArgumentKind, FRAME_BYTES, Helper, Insn, MapId, MapShape, Operand, Reg, ResultKind,
};
use program_files::Source;
use register_kinds::{InsnFault, RegKind, is_array};
use std::io;
use std::io::Write;
use verifier::GraphFlaw;

/// Which functions there are.
pub const FUNCTIONS: &str =
    "`call 1` looks up, `call 2` updates, `call 3` deletes, `callbtf 1` locks, `callbtf 2` unlocks";

/// How far a jump leads.
fn distance_of(insn: &Insn) -> Option<i64> {
    match insn {
        Insn::Jump { offset } | Insn::JumpIf { offset, .. } => Some(i64::from(*offset)),
        Insn::JumpLong { imm } => Some(i64::from(*imm)),
        _ => None,
    }
}

/// Writes where a jump leads that stands at a slot, forward to no instruction's start, and what is there.
fn write_target<W: Write>(
    out: &mut W,
    source: &Source,
    insn: &Insn,
    slot: usize,
) -> io::Result<()> {
    let Some(distance) = distance_of(insn) else {
        return Ok(());
    };
    let behind = i64::try_from(slot).unwrap_or(0).saturating_add(1);
    let target = behind.saturating_add(distance);
    let place = usize::try_from(target).unwrap_or(0);
    let last = source.program.slot_count().saturating_sub(1);
    if place > last {
        return writeln!(
            out,
            "  it leads to slot {place}, and the last one is {last}"
        );
    }
    let first = place.saturating_sub(1);
    writeln!(
        out,
        "  it leads to slot {place}, the second half of the instruction at {first}"
    )
}

/// Writes the maps of a program by their numbers.
fn write_maps<W: Write>(out: &mut W, source: &Source) -> io::Result<()> {
    if source.registry.len() == 0 {
        return writeln!(out, "  the program has no maps: raw bytes never have");
    }
    write!(out, "  the program's maps are")?;
    for number in 0..source.registry.len() {
        if let Some(name) = source.registry.name(MapId::new(number)) {
            write!(out, " {number} ({name})")?;
        }
    }
    writeln!(out)
}

/// Writes what is the cause of this flaw of the jump graph, which is at the instruction that stands at a slot.
pub fn write_flaw_cause<W: Write>(
    out: &mut W,
    source: &Source,
    insn: &Insn,
    flaw: GraphFlaw,
    slot: usize,
) -> io::Result<()> {
    match flaw {
        GraphFlaw::JumpTarget => write_target(out, source, insn, slot),
        GraphFlaw::BackJump => writeln!(
            out,
            "  jumps lead forward alone: write a loop out turn by turn, in C by `#pragma unroll` and a constant in its head"
        ),
        GraphFlaw::FallsOff | GraphFlaw::Unreachable => Ok(()),
    }
}

/// Writes what of a program is the cause of this fault of an instruction.
pub fn write_cause<W: Write>(out: &mut W, source: &Source, fault: InsnFault) -> io::Result<()> {
    match fault {
        InsnFault::UnknownCall => writeln!(out, "  {FUNCTIONS}"),
        InsnFault::NoSuchMap => write_maps(out, source),
        _ => Ok(()),
    }
}

/// What an argument of this kind is to be, where a register holds another.
fn due_of(kind: ArgumentKind, given: &RegKind) -> Option<&'static str> {
    match (kind, given) {
        (ArgumentKind::MapOfProgram, RegKind::Map(_))
        | (ArgumentKind::KeyOfMap, RegKind::Frame(_))
        | (ArgumentKind::ValueOfMap, RegKind::Frame(_))
        | (ArgumentKind::AnyNumber, RegKind::Num(_)) => None,
        (ArgumentKind::MapOfProgram, _) => Some("a map, which `ldmap` loads"),
        (ArgumentKind::KeyOfMap, _) => Some("a pointer into the frame, to a key"),
        (ArgumentKind::ValueOfMap, _) => Some("a pointer into the frame, to a value"),
        (ArgumentKind::AnyNumber, _) => Some("a number"),
    }
}

/// Writes which argument of a helper is of another kind.
fn write_argument<W: Write>(out: &mut W, place: Place<'_>, helper: Helper) -> io::Result<()> {
    let given = place.state.regs.iter().enumerate().skip(1);
    for (kind, (number, given)) in helper.arguments().iter().zip(given) {
        if let Some(due) = due_of(*kind, given) {
            return writeln!(out, "  r{number} is to be {due}");
        }
    }
    Ok(())
}

/// The name and the length of what an argument of this kind leads to.
pub fn led_to(kind: ArgumentKind, shape: MapShape) -> Option<(&'static str, usize)> {
    match kind {
        ArgumentKind::KeyOfMap => Some(("key", shape.key_len)),
        ArgumentKind::ValueOfMap => Some(("value", shape.value_len)),
        _ => None,
    }
}

/// Whether a call of a helper gives an element, and is made outside every section with what is no array.
pub fn is_outside(place: Place<'_>, helper: Helper) -> bool {
    let by_array = match place.shape_of_call() {
        Some(shape) => is_array(&[shape], 0),
        None => false,
    };
    helper.result() == ResultKind::ElementOrNull && place.state.depth == 0 && !by_array
}

/// Writes that a lookup is made outside a section, where it is.
fn write_lookup<W: Write>(out: &mut W, place: Place<'_>, helper: Helper) -> io::Result<()> {
    if !is_outside(place, helper) {
        return Ok(());
    }
    writeln!(
        out,
        "  the lookup is made outside a section, and r1 is no array"
    )
}

/// Writes which bytes that an argument leads to lie outside the frame.
fn write_outside<W: Write>(out: &mut W, place: Place<'_>, helper: Helper) -> io::Result<()> {
    let Some(shape) = place.shape_of_call() else {
        return Ok(());
    };
    let given = place.state.regs.iter().skip(1);
    for (kind, given) in helper.arguments().iter().zip(given) {
        if let (RegKind::Frame(at), Some((what, length))) = (given, led_to(*kind, shape)) {
            let first = i64::from(*at) - FRAME_BYTES as i64;
            let end = first.saturating_add(i64::try_from(length).unwrap_or(0));
            if *at < 0 || end > 0 {
                return writeln!(
                    out,
                    "  {what} at r10{first:+}, length {length}: the frame is r10-{FRAME_BYTES} to r10-1"
                );
            }
        }
    }
    Ok(())
}

/// What is said of a register that is no number and is stored through that one.
fn stored_words(place: Place<'_>, dst: Reg) -> &'static str {
    match place.kind(dst) {
        Some(RegKind::Frame(_)) => "stands in the frame whole: store it by `stxdw`",
        _ => "an element holds numbers alone",
    }
}

/// What is said of what is returned that is no number.
fn returned_words(place: Place<'_>) -> &'static str {
    match place.kind(Reg::R0) {
        Some(RegKind::MaybeNull { .. } | RegKind::Value { .. }) => {
            "a program returns one: load it from the element, or write r0 anew, as by `mov64 r0, 0`"
        }
        _ => "a program returns one",
    }
}

/// Writes what is stored or returned that is no number.
fn write_leak<W: Write>(out: &mut W, place: Place<'_>) -> io::Result<()> {
    let (words, register) = match place.insn {
        Insn::Exit => (returned_words(place), Reg::R0),
        Insn::Store {
            dst,
            src: Operand::Register(src),
            ..
        } => (stored_words(place, *dst), *src),
        _ => return Ok(()),
    };
    write_no_number(out, register, words)
}

/// Writes what is wrong where so many locks are open.
fn write_section<W: Write>(out: &mut W, place: Place<'_>) -> io::Result<()> {
    let words = match place.insn {
        Insn::Exit => "`callbtf 2` gives up each lock before the exit",
        Insn::Call { .. } if place.state.depth == 0 => "no lock is open that it could give up",
        Insn::Call { .. } => "as many locks are open as may be",
        _ => return Ok(()),
    };
    writeln!(out, "  {words}")
}

/// Writes what of the registers before an instruction is the cause of its fault.
pub fn write_known_cause<W: Write>(out: &mut W, place: Place<'_>) -> io::Result<()> {
    match (place.fault, helper_of(place.insn)) {
        (InsnFault::WrongArgument, Some(helper)) => write_argument(out, place, helper),
        (InsnFault::OutOfBounds, Some(helper)) => write_outside(out, place, helper),
        (InsnFault::OutOfBounds, None) => write_bounds(out, place),
        (InsnFault::OutsideSection, Some(helper)) => write_lookup(out, place, helper),
        (InsnFault::Misaligned, _) => write_alignment(out, place),
        (InsnFault::PointerArithmetic, _) => write_arithmetic(out, place),
        (InsnFault::PointerLeak, _) => write_leak(out, place),
        (InsnFault::UnpairedSection, _) => write_section(out, place),
        _ => Ok(()),
    }
}
