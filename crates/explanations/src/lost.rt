//! How a register or a byte of the frame came to be unreadable, in words.

use crate::place::Told;
use crate::ways::{Edge, Ways, ways_to};
use disasm::line_of;
use register_kinds::RegKind;
use std::alloc::Global;
use std::io;
use std::io::Write;
use verifier_log::{Watched, write_kind};

/// How many instructions are named at which something was lost.
const MOST_NAMED: usize = 3;

/// Whether what is known of one way and of another has nothing in common.
fn differ(one: &RegKind, other: &RegKind) -> bool {
    match (one, other) {
        (RegKind::Unwritten, RegKind::Unwritten)
        | (RegKind::Ended, RegKind::Ended)
        | (RegKind::Mixed, _)
        | (_, RegKind::Mixed)
        | (RegKind::Num(_), RegKind::Num(_))
        | (RegKind::Ctx(_), RegKind::Ctx(_)) => false,
        (RegKind::Frame(one), RegKind::Frame(other)) => one != other,
        (RegKind::Map(one), RegKind::Map(other))
        | (RegKind::Value { map: one, .. }, RegKind::Value { map: other, .. })
        | (RegKind::MaybeNull { map: one, .. }, RegKind::MaybeNull { map: other, .. }) => {
            one != other
        }
        _ => true,
    }
}

/// Two edges that lead to one instruction, of which different things are known. The edges stand by where they come from, the greatest
/// first, and of the two the lower comes first.
fn meeting(edges: &[Edge]) -> Option<(Edge, Edge)> {
    for edge in edges {
        let other = edges.iter().find(|other| other.to == edge.to
            && differ(&other.kind, &edge.kind));
        if let Some(other) = other {
            return Some((*other, *edge));
        }
    }
    None
}

/// Writes the slot at which the instruction of an index begins, and the line of the text where it stands.
fn write_slot<W: Write>(out: &mut W, told: Told<'_>, index: usize) -> io::Result<()> {
    let slot = told
        .source
        .program
        .starts()
        .get(index)
        .copied()
        .unwrap_or(0);
    write!(out, "{slot}")?;
    match told.lines.get(index) {
        Some(line) => write!(out, " (line {line})"),
        None => Ok(()),
    }
}

/// Writes what is known on an edge, and from where it leads.
fn write_edge<W: Write>(out: &mut W, told: Told<'_>, edge: Edge) -> io::Result<()> {
    write!(out, "    from ")?;
    write_slot(out, told, edge.from)?;
    write!(out, ": ")?;
    match edge.kind {
        RegKind::Unwritten => write!(out, "not written")?,
        RegKind::Ended => write!(out, "a reference to an element, whose section has ended")?,
        kind => write_kind(out, told.source, &kind)?,
    }
    writeln!(out)
}

/// Writes what is known on two ways that meet, where different things are.
fn write_meeting<W: Write>(out: &mut W, told: Told<'_>, ways: &Ways) -> io::Result<()> {
    match meeting(&ways.edges) {
        Some((first, second)) => {
            write_edge(out, told, first)?;
            write_edge(out, told, second)
        }
        None => Ok(()),
    }
}

/// Writes the texts of the instructions of these indexes and their slots, as one or the other.
fn write_places<W: Write>(
    alloc: Global,
    told: Told<'_>,
    indexes: &[usize],
    out: &mut W,
) -> io::Result<()> {
    for (number, index) in indexes.iter().enumerate().take(MOST_NAMED) {
        if number > 0 {
            write!(out, " or ")?;
        }
        if let Some(insn) = told.source.program.instructions().get(*index) {
            let text = line_of(alloc, insn)?;
            write!(out, "`{text}` at ")?;
            write_slot(out, told, *index)?;
        }
    }
    if indexes.len() > MOST_NAMED {
        write!(out, " or another one")?;
    }
    Ok(())
}

/// Whether something else is known on one of these edges than this, which cannot be read.
fn is_some_other(edges: &[Edge], bad: RegKind) -> bool {
    edges.iter().any(|edge| edge.kind != bad)
}

/// Writes what became of something, and at which instructions.
fn write_loss<W: Write>(
    alloc: Global,
    told: Told<'_>,
    ways: &Ways,
    bad: RegKind,
    how: &str,
    out: &mut W,
) -> io::Result<()> {
    let is_readable = is_some_other(&ways.edges, bad);
    if is_readable || ways.is_from_entry {
        write!(out, "on some path ")?;
    }
    write!(out, "{how}")?;
    write_places(alloc, told, &ways.lost, out)?;
    if ways.is_from_entry {
        return write!(out, ", on some not written");
    }
    if !is_readable && ways.lost.len() > 1 {
        return write!(out, ", by the path");
    }
    Ok(())
}

/// Writes why something of this kind cannot be read.
fn write_why<W: Write>(
    alloc: Global,
    told: Told<'_>,
    ways: &Ways,
    bad: RegKind,
    out: &mut W,
) -> io::Result<()> {
    let how = match bad {
        RegKind::Unwritten if !ways.lost.is_empty() => "cleared by ",
        RegKind::Unwritten if is_some_other(&ways.edges, bad) => {
            return write!(out, "not written on every path");
        }
        RegKind::Unwritten => return write!(out, "written on no path"),
        RegKind::Ended if !ways.lost.is_empty() => "a reference to an element, ended by ",
        kind => return write_kind(out, told.source, &kind),
    };
    write_loss(alloc, told, ways, bad, how, out)
}

/// Writes why a register, which is of this kind before the instruction of an index, cannot be read there: which call has cleared
/// it, which unlock has ended it, which ways meet. Whether a call has cleared it.
///
/// An error says that nothing more could be written, or that memory ran out.
pub fn write_unreadable<W: Write>(
    alloc: Global,
    told: Told<'_>,
    index: usize,
    register: usize,
    bad: RegKind,
    out: &mut W,
) -> io::Result<bool> {
    let Some(ways) = ways_to(alloc, told.source, index, Watched::Register(register), bad)? else {
        write_kind(out, told.source, &bad)?;
        writeln!(out)?;
        return Ok(false);
    };
    write_why(alloc, told, &ways, bad, out)?;
    writeln!(out)?;
    write_meeting(out, told, &ways)?;
    Ok(bad == RegKind::Unwritten && !ways.lost.is_empty())
}

/// Writes why a byte of the frame, which is of this kind before the instruction of an index, cannot be read there: which unlock has
/// ended the reference that it is part of, which ways meet.
///
/// An error says that nothing more could be written, or that memory ran out.
pub fn write_lost_byte<W: Write>(
    alloc: Global,
    told: Told<'_>,
    index: usize,
    at: usize,
    bad: RegKind,
    out: &mut W,
) -> io::Result<()> {
    let Some(ways) = ways_to(alloc, told.source, index, Watched::Byte(at), bad)? else {
        return Ok(());
    };
    if bad == RegKind::Ended && !ways.lost.is_empty() {
        write!(out, "  its section was ended by ")?;
        write_places(alloc, told, &ways.lost, out)?;
        writeln!(out)?;
    }
    write_meeting(out, told, &ways)
}
