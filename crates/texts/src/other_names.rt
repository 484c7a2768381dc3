//! What helps where no instruction has a name.

use crate::naming::quoted;
use asm_source::is_register;
use disasm::{MNEMONICS, mnemonic_named};
use program_files::is_slot;
use std::alloc::{AllocError, Global};
use strsim::jaro_winkler;

/// In each line names of other assemblers, and behind `: ` the mnemonic.
const OTHER_NAMES: &str = "\
    jmp goto b br: ja\n\
    ret return: exit\n\
    jz je beq: jeq\n\
    jnz bne: jne\n\
    jae jnb bgeu: jge\n\
    jna jbe bleu: jle\n\
    jb jnae bltu: jlt\n\
    jnbe bgtu: jgt\n\
    shl lsl sll shl64: lsh64\n\
    shl32: lsh32\n\
    shr lsr srl shr64: rsh64\n\
    shr32: rsh32\n\
    sar asr sra sar64: arsh64\n\
    sar32: arsh32\n\
    ldb: ldxb\n\
    ldh: ldxh\n\
    ldw: ldxw\n\
    ldd ldq ldxd ldxq ldx64 ldxu64: ldxdw\n\
    std stq st64: stdw\n\
    stxd stxq stx64 stxu64 sd: stxdw\n\
    movabs: lddw";

/// In each line words that are no mnemonics, and behind `: ` what helps.
const HINTS: &str = "\
    ctx map: a context and maps end with a line `code`\n\
    code: above a line `code` stands `ctx N`\n\
    if: a condition is a jump, as in `jeq r0, 1, LABEL`\n\
    ld ldx load: `ldxb`, `ldxh`, `ldxw` and `ldxdw` load 1, 2, 4 and 8 bytes\n\
    st str sto store: `stb`, `sth`, `stw` and `stdw` store a number in 1, 2, 4 and 8 bytes\n\
    stx: `stxb`, `stxh`, `stxw` and `stxdw` store 1, 2, 4 and 8 bytes of a register\n\
    jl jnge jng blt ble jg jnle jnl bgt bge: `jslt`, `jsle`, `jsgt` and `jsge` compare numbers with a sign, the others without one\n\
    movz movzx: `and64` clears bits, as in `and64 r0, 255`";

/// What a table has for a word.
fn found_in(table: &'static str, word: &str) -> Option<&'static str> {
    for line in table.lines() {
        let (words, found) = line.split_once(": ")?;
        if words.split(' ').any(|other| other == word) {
            return Some(found);
        }
    }
    None
}

/// Endings of other assemblers' names that tell a width, and how it is told here.
const WIDTHS: [(&str, &str); 4] = [("64", ""), ("w", "32"), ("l", "32"), ("q", "64")];

/// How alike a word and a mnemonic are at least, where one is taken for the other.
const ALIKE: f64 = 0.87;

/// The name that is most like a word, if one is like it and begins with the same letter.
fn nearest(alloc: Global, word: &str) -> Result<Option<String>, AllocError> {
    let mut best = None;
    let mut most = ALIKE;
    for mnemonic in &MNEMONICS {
        let (stem, suffix) = (mnemonic.stem(), mnemonic.suffix());
        let name = format!(in alloc; "{stem}{suffix}")?;
        let likeness = jaro_winkler(alloc, word, name.as_str())?;
        if likeness > most && word.chars().next() == name.chars().next() {
            most = likeness;
            best = Some(name);
        }
    }
    Ok(best)
}

/// The mnemonic that is meant by a word of another assembler or by a misspelt one, if that is sure.
fn meant_by(alloc: Global, word: &str) -> Result<Option<String>, AllocError> {
    if let Some(name) = found_in(OTHER_NAMES, word) {
        return Ok(Some(String::from_str(alloc, name)?));
    }
    for (ending, width) in WIDTHS {
        let stem = word.strip_suffix(ending).unwrap_or("");
        let name = format!(in alloc; "{stem}{width}")?;
        if mnemonic_named(name.as_str()).is_some() {
            return Ok(Some(name));
        }
    }
    nearest(alloc, word)
}

/// What is said of the first line of a program file.
pub const NO_HEADING: &str = "a text of instructions has no line `bpfrt 1`";

/// What helps where a line begins with a word that is no mnemonic, and goes on with this text.
fn hint_of(word: &str, text: &str) -> Option<&'static str> {
    if word.contains(':') || text.starts_with(':') {
        Some("a line has one label, without a blank before its `:` and with one behind it")
    } else if word.starts_with('.') {
        Some("only the line of a constant begins so, `.equ NAME NUMBER`")
    } else if is_register(word.as_bytes()) {
        Some("a line begins with an instruction's name, as in `mov64 r0, 1`")
    } else if is_slot(word) {
        Some("this is a slot of a program file")
    } else if word == "bpfrt" {
        Some(NO_HEADING)
    } else {
        found_in(HINTS, word)
    }
}

/// What is said of a word that is no mnemonic, and behind which this text stands.
pub(crate) fn unknown_mnemonic(
    alloc: Global,
    word: &str,
    text: &str,
) -> Result<String, AllocError> {
    let shown = quoted(alloc, word)?;
    if let Some(hint) = hint_of(word, text) {
        return format!(in alloc; "no instruction is called {shown}; {hint}");
    }
    let name = word.to_ascii_lowercase(alloc)?;
    if name.as_str() != word && mnemonic_named(name.as_str()).is_some() {
        return format!(in alloc;
            "no instruction is called {shown}; write `{name}`: names and registers are in lower case"
        );
    }
    match meant_by(alloc, word)? {
        Some(name) => format!(in alloc; "no instruction is called {shown}; did you mean `{name}`?"),
        None => format!(in alloc; "no instruction is called {shown}"),
    }
}
