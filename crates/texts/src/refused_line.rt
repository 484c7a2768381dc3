//! Why lines of a script are refused, in words for people.

use crate::wrong_command::{SHOWN, words_of};
use bpf_model::{
    CTX_BYTES, EventRefusal, KEY_BYTES, MAX_ENTRIES, MAX_REUSE, MAX_SPARE, MapId, MapShape, ProgId,
    VALUE_BYTES,
};
use control::{LineRefusal, Session};
use explanations::{
    Meaning, explain_program, meaning_of, meaning_of_event, slot_shown, write_meaning,
};
use maps::{MapFault, Registry};
use program_files::{Source, Verdict, write_quoted};
use script_lines::number_of;
use std::alloc::Global;
use std::io::Write;
use std::{io, str};
use verifier::ProgramRefusal;

/// A word as text, if it is one.
fn text_of(word: &[u8]) -> &str {
    str::from_utf8(word).unwrap_or("")
}

/// The shape of the map of a name.
fn shape_named(session: &Session, name: &[u8]) -> Option<MapShape> {
    let maps = session.registry();
    maps.shape(maps.id(text_of(name))?)
}

/// The word in this place.
fn word_at<'a>(words: &[&'a [u8]], place: usize) -> &'a [u8] {
    words.get(place).copied().unwrap_or(&[])
}

/// How many bytes a word writes.
fn bytes_in(word: &[u8]) -> usize {
    if word == b"-".as_slice() {
        0
    } else {
        word.len() / 2
    }
}

/// Writes that bytes of an element have another length than those of its map, where they have.
pub fn write_length<W: Write>(
    out: &mut W,
    map: &str,
    what: &str,
    given: usize,
    due: usize,
) -> io::Result<()> {
    if given == due {
        return Ok(());
    }
    writeln!(
        out,
        "  {what} has length {given}, and is to have length {due} in the map `{map}`"
    )
}

/// Writes which of a line's bytes have another length than its map's.
fn write_misfit<W: Write>(out: &mut W, session: &Session, words: &[&[u8]]) -> io::Result<()> {
    let Some(shape) = shape_named(session, word_at(words, 1)) else {
        return Ok(());
    };
    let name = text_of(word_at(words, 1));
    let key = bytes_in(word_at(words, 2));
    write_length(out, name, "KEY", key, shape.key_len)?;
    if word_at(words, 0) != b"put".as_slice() {
        return Ok(());
    }
    let value = bytes_in(word_at(words, 3));
    write_length(out, name, "VALUE", value, shape.value_len)
}

/// Writes the names of these maps behind the one text, or the other text where there are none.
///
/// An error says that nothing more could be written.
pub fn write_names<W: Write>(
    out: &mut W,
    maps: &Registry,
    some: &str,
    none: &str,
) -> io::Result<()> {
    if maps.len() == 0 {
        return writeln!(out, "{none}");
    }
    write!(out, "{some}")?;
    for number in 0..maps.len() {
        if let Some(name) = maps.name(MapId::new(number)) {
            write!(out, " `{name}`")?;
        }
    }
    writeln!(out)
}

/// Writes which of a line's names is no map's: of `load` the first of several, of others the one.
fn write_no_map<W: Write>(out: &mut W, session: &Session, words: &[&[u8]]) -> io::Result<()> {
    let first = if word_at(words, 0) == b"load".as_slice() {
        3
    } else {
        1
    };
    for name in words.iter().skip(first) {
        if shape_named(session, name).is_none() {
            write!(out, "  no map is called ")?;
            write_quoted(out, name, SHOWN)?;
            write!(out, "; ")?;
            let (some, none) = ("the script's maps are", "the script has made no map");
            return write_names(out, session.registry(), some, none);
        }
    }
    Ok(())
}

/// The numbers of a map: their names, the least that they may be, and the most.
const NUMBERS: [(&str, u64, u64); 5] = [
    ("KEY", 1, KEY_BYTES as u64),
    ("VALUE", 1, VALUE_BYTES as u64),
    ("ENTRIES", 1, MAX_ENTRIES as u64),
    ("SPARE", 0, MAX_SPARE as u64),
    ("REUSE", 1, MAX_REUSE as u64),
];

/// Writes which numbers of the shape in a line of these words are outside their ranges. Of an array `array` stands in the place
/// of KEY, and the last two are left out.
fn write_shape<W: Write>(out: &mut W, words: &[&[u8]]) -> io::Result<()> {
    for ((name, least, most), word) in NUMBERS.iter().zip(words.iter().skip(2)) {
        let given = number_of(word).unwrap_or(*least);
        if given < *least || *most < given {
            writeln!(out, "  {name} is {given}, and may be {least} to {most}")?;
        }
    }
    Ok(())
}

/// Writes what is wrong with a context.
fn write_context<W: Write>(out: &mut W, session: &Session, words: &[&[u8]]) -> io::Result<()> {
    let number = number_of(word_at(words, 1)).unwrap_or(0);
    if word_at(words, 0) == b"load".as_slice() {
        return writeln!(out, "  CTXLEN is {number}, and may be 0 to {CTX_BYTES}");
    }
    let place = usize::try_from(number).unwrap_or(usize::MAX);
    let Some(due) = session.context_len(ProgId::new(place)) else {
        return Ok(());
    };
    let given = bytes_in(word_at(words, 2));
    writeln!(
        out,
        "  CTX has length {given}, and is to have length {due}, the CTXLEN of program {number}"
    )
}

/// The maps that a `load` of these words names, in their order; `None` where two names are one, a name is no map's, or memory
/// ran out.
fn maps_of(alloc: Global, session: &Session, words: &[&[u8]]) -> Option<Registry> {
    let mut maps = Registry::new(alloc);
    for name in words.iter().skip(3) {
        maps.create(text_of(name), shape_named(session, name)?)
            .ok()?;
    }
    Some(maps)
}

/// Writes the digits of the slot that is no instruction, if it is one slot.
fn write_slot<W: Write>(out: &mut W, words: &[&[u8]], slot: Option<usize>) -> io::Result<()> {
    let Some(slot) = slot else {
        return Ok(());
    };
    let first = slot.saturating_mul(16);
    match word_at(words, 2).get(first..first.saturating_add(16)) {
        Some(digits) => {
            let digits = text_of(digits);
            writeln!(out, "at {slot}: {digits}")
        }
        None => Ok(()),
    }
}

/// Writes what it means that the verifier refuses the program of a `load` of these words, and why it does.
fn write_unverified<W: Write>(
    alloc: Global,
    out: &mut W,
    session: &Session,
    words: &[&[u8]],
    refusal: ProgramRefusal,
) -> io::Result<()> {
    let (Some(refused), Some(registry)) = (session.refused(), maps_of(alloc, session, words)) else {
        return match meaning_of(&Verdict::Program(refusal)) {
            Some(meaning) => write_meaning(out, meaning),
            None => Ok(()),
        };
    };
    let source = Source {
        program: refused.program.copy(alloc)?,
        registry,
        ctx_len: usize::try_from(number_of(word_at(words, 1)).unwrap_or(0)).unwrap_or(0),
    };
    explain_program(alloc, &source, &[], refused.refusal, &refused.known, out)
}

/// Writes what in a line of these words is the cause of its refusal.
fn write_cause<W: Write>(
    alloc: Global,
    out: &mut W,
    session: &Session,
    words: &[&[u8]],
    refusal: &LineRefusal,
) -> io::Result<()> {
    match refusal {
        LineRefusal::Decode(fault) => write_slot(out, words, slot_shown(fault)),
        LineRefusal::Program(refusal) => write_unverified(alloc, out, session, words, *refusal),
        LineRefusal::Event(EventRefusal::NoMap) => write_no_map(out, session, words),
        LineRefusal::Event(EventRefusal::BadLength) => write_misfit(out, session, words),
        LineRefusal::Event(EventRefusal::BadContext) => write_context(out, session, words),
        LineRefusal::Map(MapFault::BadShape) => write_shape(out, words),
        LineRefusal::TooLate => writeln!(
            out,
            "  `map` and `load` stand above the first line that is another command"
        ),
        LineRefusal::Event(_) | LineRefusal::Map(_) | LineRefusal::TooManyPrograms => Ok(()),
    }
}

/// What the refusal of a line means; none where memory ran out, or where the verifier refuses a program, which `explain` tells.
fn meaning_of_refusal(refusal: &LineRefusal) -> Option<Meaning> {
    let (name, text) = match refusal {
        LineRefusal::Map(MapFault::BadName) => (
            "BadName",
            "a map's name is not 1 to 32 of a to z, 0 to 9 and _, the first a letter",
        ),
        LineRefusal::Map(MapFault::NameTaken) => ("NameTaken", "a map has that name"),
        LineRefusal::Map(MapFault::BadShape) => ("BadShape", "no map may have that shape"),
        LineRefusal::Map(MapFault::TooMany) => ("TooMany", "a seventeenth map"),
        LineRefusal::TooManyPrograms => ("TooManyPrograms", "a sixty-fifth program"),
        LineRefusal::TooLate => (
            "TooLate",
            "a script: a map or a program after the world was made",
        ),
        LineRefusal::Event(refusal) => return Some(meaning_of_event(*refusal)),
        LineRefusal::Decode(fault) => return meaning_of(&Verdict::Code(*fault)),
        LineRefusal::Map(MapFault::Memory) | LineRefusal::Program(_) => return None,
    };
    Some(Meaning::new(name, text))
}

/// The most columns of a line that are shown.
const SHOWN_OF_LINE: usize = 120;

/// Writes of the line of this number, which left the session so, why it was refused.
pub fn write_refused<W: Write>(
    alloc: Global,
    out: &mut W,
    number: u64,
    line: &[u8],
    refusal: &LineRefusal,
    session: &Session,
) -> io::Result<()> {
    let code = refusal.code();
    write!(out, "line {number} is refused ({code}): ")?;
    write_quoted(out, line, SHOWN_OF_LINE)?;
    writeln!(out)?;
    if let Some(meaning) = meaning_of_refusal(refusal) {
        write_meaning(out, meaning)?;
    }
    let words = words_of(alloc, line)?;
    write_cause(alloc, out, session, &words, refusal)
}
