//! Words of a line, how they are shown, and what is wrong with its names.

use asm_source::{SourceFault, number_in};
use std::alloc::{AllocError, Global};

/// How much of a word is shown.
const SHOWN_CHARACTERS: usize = 40;

/// A word in quotes: of a long one its first characters, and `..`.
pub(crate) fn quoted(alloc: Global, word: &str) -> Result<String, AllocError> {
    match word.char_indices().nth(SHOWN_CHARACTERS) {
        Some((end, _)) => {
            let first = word.get(..end).unwrap_or("");
            format!(in alloc; "`{first}..`")
        }
        None => format!(in alloc; "`{word}`"),
    }
}

/// Whether a character parts the words of a line.
pub(crate) fn parts_words(character: char) -> bool {
    " \t\r,[]+-".contains(character)
}

/// What is said of a word with which other languages begin a comment, or mark a number.
fn mark_words(word: &str) -> Option<&'static str> {
    match word.strip_prefix('#') {
        Some(rest) if number_in(rest.as_bytes()).is_some() => Some("a number has no `#` before it"),
        Some(_) => Some("`#` begins no comment: a comment begins with `;`"),
        None if word.contains("//") || word.starts_with("/*") => {
            Some("`/` begins no comment: a comment begins with `;`")
        }
        None => None,
    }
}

/// What is said of a line that has a comment of another language.
pub(crate) fn comment_words(line: &str) -> Option<&'static str> {
    let (line, _) = line.split_once(';').unwrap_or((line, ""));
    line.split_ascii_whitespace()
        .find_map(|word| mark_words(word))
}

/// The word to which a line gives a meaning, and its last word.
fn names_in(line: &str) -> (&str, &str) {
    let (front, _) = line.split_once(';').unwrap_or((line, ""));
    let mut words = front
        .split(|character: char| parts_words(character))
        .filter(|word| !word.is_empty());
    let first = words.next().unwrap_or("");
    let given = if first == ".equ" {
        words.next().unwrap_or("")
    } else {
        first.strip_suffix(':').unwrap_or(first)
    };
    (given, words.last().unwrap_or(given))
}

/// What is wrong with the names of a line, which has this fault, in words for people. What they say is no part of a contract.
pub fn explain_name(alloc: Global, fault: &SourceFault, line: &str) -> Result<String, AllocError> {
    let (given, last) = names_in(line);
    let (given, last) = (quoted(alloc, given)?, quoted(alloc, last)?);
    match (fault, comment_words(line)) {
        (SourceFault::Memory, _) => String::from_str(alloc, "out of memory"),
        (SourceFault::BadName(_), _) => format!(in alloc;
            "{given} is no name, which begins with an ASCII letter, `_` or `.` and is no register"
        ),
        (SourceFault::NameTwice(_), _) => format!(in alloc;
            "the name {given} has a meaning by a line above"
        ),
        (_, Some(words)) => String::from_str(alloc, words),
        (SourceFault::UnknownLabel(_), None) => format!(in alloc;
            "no line begins with the label {last}"
        ),
        (SourceFault::UnknownMap(_), None) => format!(in alloc;
            "no map above `code` has the name {last}"
        ),
        (SourceFault::BadConstant(_), None) => String::from_str(
            alloc,
            "behind .equ stand a name and a number below 2^64, as in `.equ SIZE 16`",
        ),
    }
}
