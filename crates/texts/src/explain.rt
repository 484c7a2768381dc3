//! What is wrong with a line, in words for people.

use crate::naming::{comment_words, parts_words, quoted};
use crate::other_names::unknown_mnemonic;
use asm::{AsmFault, assemble};
use asm_source::{is_name, is_register, number_in};
use disasm::{Mnemonic, mnemonic_named};
use explanations::FUNCTIONS;
use std::alloc::{AllocError, Global};

/// What may stand in a place of an operand.
#[derive(Clone, Copy, PartialEq, Eq)]
enum Place {
    Register,
    /// A register that is stored.
    Stored,
    Source,
    Number,
    Unsigned,
    Map,
    Function,
    Offset,
    /// An offset of `ja32`.
    LongOffset,
    Memory,
}

impl Place {
    /// An instruction but for its last operand, which stands in this place; how many bits a number has there, 0 where none may
    /// stand; and what is said of a word that may not stand there.
    fn row(self) -> (&'static str, u8, &'static str) {
        match self {
            Place::Register => ("neg64 ", 0, "is no register, which are r0 to r10"),
            Place::Stored => (
                "stxb [r0+0], ",
                0,
                "is no register, which are r0 to r10; `stb`, `sth`, `stw` and `stdw` store a number",
            ),
            Place::Source => ("mov64 r0, ", 32, "is neither a register nor a number"),
            Place::Number => ("stb [r0+0], ", 32, "is no number"),
            Place::Unsigned => ("lddw r0, ", 64, "is no number without a sign"),
            Place::Map => (
                "ldmap r0, ",
                32,
                "is neither the name nor the number of a map",
            ),
            Place::Function => ("call ", 32, "is no number; "),
            Place::Offset => ("ja ", 16, NO_OFFSET),
            Place::LongOffset => ("ja32 ", 32, NO_OFFSET),
            Place::Memory => ("ldxb r0, ", 0, "is no place in memory, such as [r10-8]"),
        }
    }
}

/// What is said of a word that is no offset.
const NO_OFFSET: &str = "is neither a label nor an offset, which begins with + or -";

/// What is said of a word that may be a number's name, and is none.
const UNNAMED: &str = ", and no `.equ` names a number so";

/// The places of an instruction's operands.
fn places_of(mnemonic: Mnemonic) -> &'static [Place] {
    match mnemonic {
        Mnemonic::Exit => &[],
        Mnemonic::Negate(_) | Mnemonic::ByteSwap(_, _) => &[Place::Register],
        Mnemonic::Call(_) => &[Place::Function],
        Mnemonic::Jump => &[Place::Offset],
        Mnemonic::JumpLong => &[Place::LongOffset],
        Mnemonic::Alu(_, _) => &[Place::Register, Place::Source],
        Mnemonic::LoadNumber => &[Place::Register, Place::Unsigned],
        Mnemonic::LoadMap => &[Place::Register, Place::Map],
        Mnemonic::Load(_) | Mnemonic::LoadSigned(_) => &[Place::Register, Place::Memory],
        Mnemonic::Store(_) => &[Place::Memory, Place::Number],
        Mnemonic::StoreRegister(_) => &[Place::Memory, Place::Stored],
        Mnemonic::MoveSigned(_) => &[Place::Register, Place::Register, Place::Number],
        Mnemonic::JumpIf(_, _) => &[Place::Register, Place::Source, Place::Offset],
    }
}

/// Why no instruction has a word in this place, if none has.
fn flaw_of(alloc: Global, place: Place, word: &str) -> Result<Option<AsmFault>, AllocError> {
    let (front, _, _) = place.row();
    let line = format!(in alloc; "{front}{word}")?;
    match assemble(alloc, line.as_str()) {
        Ok(_) => Ok(None),
        Err(AsmFault::Memory) => Err(AllocError),
        Err(flaw) => Ok(Some(flaw)),
    }
}

/// A word in quotes, what is said of it, and what helps.
fn said_of(alloc: Global, word: &str, what: &str, hint: &str) -> Result<String, AllocError> {
    let shown = quoted(alloc, word)?;
    format!(in alloc; "{shown} {what}{hint}")
}

/// What helps where a number has 32 bits, or 64, of which the highest is to be its sign; else nothing.
fn sign_hint(alloc: Global, word: &str) -> Result<String, AllocError> {
    let number = number_in(word.as_bytes()).unwrap_or(0);
    let long = number.wrapping_neg();
    let short = (1u64 << 32).saturating_sub(number);
    if 0 < long && long <= 1 << 31 {
        format!(in alloc; "; write -{long}, which has the same 64 bits")
    } else if 0 < short && short <= 1 << 31 {
        format!(in alloc;
            "; {number:#x} is -{short} in 32 bits: write -{short} where only these count, else load it with `lddw`"
        )
    } else {
        Ok(String::new(alloc))
    }
}

/// What is said of a number that has more bits than its place, and of how it was written.
fn long_words(
    alloc: Global,
    place: Place,
    word: &str,
    written: &str,
) -> Result<String, AllocError> {
    let (_, bits, _) = place.row();
    let hint = match place {
        Place::Source | Place::Number => sign_hint(alloc, word)?,
        _ => String::new(alloc),
    };
    format!(in alloc; "`{written}` does not fit {bits} bits{hint}")
}

/// What is said of a word that is no place in memory, and of how it was written.
fn memory_words(alloc: Global, word: &str, written: &str) -> Result<String, AllocError> {
    let sign = word.find(|it| it == '+' || it == '-').unwrap_or(0);
    let offset = word.get(sign..).unwrap_or("").trim_end_matches(']');
    let name = offset.get(1..).unwrap_or("");
    let (_, _, what) = Place::Memory.row();
    match flaw_of(alloc, Place::Offset, offset)? {
        Some(AsmFault::BadOperand(_)) => long_words(alloc, Place::Offset, offset, offset),
        _ if is_name(name.as_bytes()) && !name.contains('+') => {
            said_of(alloc, name, "is no number", UNNAMED)
        }
        _ => said_of(alloc, written, what, ""),
    }
}

/// What helps where a word has not the form that its place asks for.
fn form_hint(place: Place, word: &str) -> &'static str {
    let is_named = is_name(word.as_bytes());
    match place {
        Place::Function => FUNCTIONS,
        Place::Unsigned if is_named => "; `.equ` names a number, and `ldmap` loads a map",
        Place::Number if is_register(word.as_bytes()) => {
            "; `stxb`, `stxh`, `stxw` and `stxdw` store a register"
        }
        Place::Source if word.starts_with('[') => {
            "; `ldxb`, `ldxh`, `ldxw` and `ldxdw` load from memory"
        }
        Place::Source | Place::Number if is_named => UNNAMED,
        _ => "",
    }
}

/// What is said of a word that is wrong in its place, if it is, and of how it was written.
fn word_words(
    alloc: Global,
    place: Place,
    word: &str,
    written: &str,
) -> Result<Option<String>, AllocError> {
    let is_register = place == Place::Source && is_register(word.as_bytes());
    let place = if is_register { Place::Register } else { place };
    let (_, bits, what) = place.row();
    let words = match flaw_of(alloc, place, word)? {
        None => return Ok(None),
        Some(_) if place == Place::Memory => memory_words(alloc, word, written)?,
        Some(AsmFault::BadOperand(_)) if bits > 0 => long_words(alloc, place, word, written)?,
        Some(_) => said_of(alloc, written, what, form_hint(place, word))?,
    };
    Ok(Some(words))
}

/// The operand of a line of the source in this place, where it has so many.
fn written_operand(source: &str, place: usize, wanted: usize) -> Option<&str> {
    let line = source.split(';').next()?.rsplit(':').next()?;
    let (_, operands) = line.trim().split_once([' ', '\t'])?;
    let operand = operands.split(',').nth(place)?.trim();
    (operands.split(',').count() == wanted).then_some(operand)
}

/// What is wrong with an instruction of this name, if something is, in a line that was written so.
fn instruction_words(
    alloc: Global,
    name: &str,
    places: &[Place],
    text: &str,
    source: &str,
) -> Result<Option<String>, AllocError> {
    let wanted = places.len();
    let given = text.split(", ").filter(|word| !word.is_empty()).count();
    if wanted != given {
        let words = match wanted {
            0 => format!(in alloc; "`{name}` has no operands: the result is what r0 holds"),
            1 => format!(in alloc; "`{name}` has 1 operand, not {given}; commas part them"),
            _ => format!(in alloc; "`{name}` has {wanted} operands, not {given}; commas part them"),
        };
        return Ok(Some(words?));
    }
    for (index, (place, word)) in places.iter().zip(text.split(", ")).enumerate() {
        let written = written_operand(source, index, wanted).unwrap_or(word);
        let words = word_words(alloc, *place, word, written)?;
        if words.is_some() {
            return Ok(words);
        }
    }
    Ok(None)
}

/// The first character of a line that is no ASCII, and is neither a letter nor a digit of a name among its operands.
fn other_character(line: &str) -> Option<char> {
    let words = line.split(|character: char| parts_words(character));
    for (place, word) in words.enumerate() {
        let is_operand = place > 0 && is_name(word.as_bytes());
        let found = word.chars().find(|it| !it.is_ascii() && !(is_operand && it.is_alphanumeric()));
        if found.is_some() {
            return found;
        }
    }
    None
}

/// What is wrong with a line of a plain text that `asm::assemble` refuses, in words for people, which quote the line of the
/// source; none where nothing is found. What the words say is no part of a contract.
pub fn explain_line(alloc: Global, line: &str, source: &str) -> Result<Option<String>, AllocError> {
    if let Some(words) = comment_words(line) {
        return Ok(Some(String::from_str(alloc, words)?));
    }
    if let Some(character) = other_character(line) {
        let number = character as u32;
        let words = format!(in alloc;
            "U+{number:04X} stands here, and only names and comments have characters that are no ASCII"
        )?;
        return Ok(Some(words));
    }
    let (name, text) = line.split_once(' ').unwrap_or((line, ""));
    match mnemonic_named(name) {
        Some(mnemonic) => instruction_words(alloc, name, places_of(mnemonic), text, source),
        None => Ok(Some(unknown_mnemonic(alloc, name, text)?)),
    }
}
