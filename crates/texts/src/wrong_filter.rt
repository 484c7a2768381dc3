//! Why bytes are no classic program, or have no program file, in words for people.

use crate::heads::lines_in;
use crate::translation::FilterFault;
use classic::{Data, ReadFault, TranslateFault, read_listing};
use program_files::{Likeness, likeness_of, write_line, write_looks};
use std::alloc::Global;
use std::io::Write;
use std::{io, str};

/// The line of a listing that has its first instruction, counted from 1.
const FIRST_LINE: usize = 2;

/// Writes the line of this number of a listing, counted from 1, and what is wrong with it.
fn write_listed<E: Write>(bytes: &[u8], number: usize, err: &mut E) -> io::Result<()> {
    write_line(err, bytes, number, 0)?;
    let mut lines = bytes.split(|byte| *byte == b'\n');
    let line = lines.nth(number.saturating_sub(1)).unwrap_or(&[]);
    if line.ends_with(b"\r") {
        return writeln!(
            err,
            "  the line ends in a carriage return: take it out of every line"
        );
    }
    if number >= FIRST_LINE {
        return writeln!(
            err,
            "  a line here is `CODE JT JF K` in decimal: CODE up to 65535, JT and JF up to 255, K up to 4294967295"
        );
    }
    let below = lines_in(bytes.strip_suffix(b"\n").unwrap_or(bytes));
    writeln!(
        err,
        "  the first line is how many lines stand below it, in decimal without leading zeros; below it stand {below}"
    )
}

/// Writes what stands at the constant offset of a load of a packet, where only the kernel knows it.
fn write_window<E: Write>(
    alloc: Global,
    bytes: &[u8],
    number: usize,
    err: &mut E,
) -> io::Result<()> {
    let Ok(filter) = read_listing(alloc, str::from_utf8(bytes).unwrap_or("")) else {
        return Ok(());
    };
    match filter.get(number) {
        Some(insn) if insn.k >= 1 << 31 => {
            let at = insn.k;
            writeln!(
                err,
                "  at {at} stands a value that only the kernel knows, such as a packet's type"
            )
        }
        _ => Ok(()),
    }
}

/// What bytes look like that are not of this kind.
fn other_words(bytes: &[u8], kind: Data) -> Option<&'static str> {
    match (kind, likeness_of(bytes)?) {
        (_, Likeness::Text) | (Data::Packet, Likeness::Listing) => None,
        (Data::Seccomp, Likeness::Listing) => Some(
            "what `tcpdump -ddd` writes, which is read without `--seccomp`",
        ),
        (_, likeness) => Some(likeness.words()),
    }
}

/// The instruction that a fault is of, if it is of one.
fn instruction_of(why: &FilterFault) -> Option<usize> {
    match why {
        FilterFault::Flawed(fault) => fault.instruction(),
        FilterFault::Untranslated(fault) => fault.instruction(),
        _ => None,
    }
}

/// Writes in words what is wrong with bytes that are no classic program, or have no program file, beside what the fault means: the
/// line where it is, and below it what is known of that.
pub fn explain_filter<E: Write>(
    alloc: Global,
    bytes: &[u8],
    kind: Data,
    why: &FilterFault,
    err: &mut E,
) -> io::Result<()> {
    if let (Data::Packet, Some(number)) = (kind, instruction_of(why)) {
        write_line(err, bytes, number.saturating_add(FIRST_LINE), 0)?;
    }
    match why {
        FilterFault::NotUtf8 { line } => {
            write_line(err, bytes, *line, 0)?;
            writeln!(
                err,
                "  the line is not UTF-8 text; with `--seccomp` a policy of system calls is read, in bytes"
            )?;
        }
        FilterFault::Unread(ReadFault::BadCount) => write_listed(bytes, 1, err)?,
        FilterFault::Unread(ReadFault::BadLine(line)) => write_listed(bytes, *line, err)?,
        FilterFault::Untranslated(TranslateFault::OutsideWindow(number)) => {
            write_window(alloc, bytes, *number, err)?;
        }
        _ => {}
    }
    write_looks(err, other_words(bytes, kind))
}
