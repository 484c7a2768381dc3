//! What is said of words that are no command.

use crate::grammar::grammar;
use crate::request::{WordsFault, classic_file};
use crate::table::{COMMANDS, POOL_USAGE, own_usage};
use clap::error::ErrorKind;
use classic::Data;
use std::alloc::{AllocError, Global};

/// The text without white space at its end, and with U+FFFD for each control character but line feeds. One could come from a
/// word, and change what a terminal shows.
pub fn shown(alloc: Global, text: &str) -> Result<String, AllocError> {
    let mut shown = String::new(alloc);
    for character in text.trim_end().chars() {
        let is_plain = character == '\n' || !character.is_control();
        shown.push(if is_plain { character } else { '\u{FFFD}' })?;
    }
    Ok(shown)
}

/// The fault of a word of `pool`, `run` or `trace` that is no value of an argument.
pub(crate) fn bad_value(
    alloc: Global,
    command: &str,
    word: &str,
    argument: &str,
    why: &str,
) -> Result<WordsFault, AllocError> {
    let usage = own_usage(command).unwrap_or(POOL_USAGE);
    let text = format!(in alloc;
        "\
error: invalid value '{word}' for '{argument}': {why}

Usage: {usage}

For more information, try 'bpfrt {command} --help'."
    )?;
    Ok(WordsFault::Usage(shown(alloc, text.as_str())?))
}

/// The word at a place; an empty one where there is none.
fn word_at(words: &[String], place: usize) -> &str {
    words.get(place).map_or("", |word| word.as_str())
}

/// Whether this word stands among the words.
fn has_word(words: &[String], wanted: &str) -> bool {
    words.iter().any(|word| word.as_str() == wanted)
}

/// The command that the word means, where `clap` finds none near it: some are called otherwise elsewhere, or it has letters of
/// another case.
fn command_meant(word: &str) -> Option<&'static str> {
    match word {
        "verify" | "validate" => Some("check"),
        "disassemble" => Some("disasm"),
        "assemble" => Some("asm"),
        "exec" | "execute" => Some("run"),
        _ => {
            let mut commands = COMMANDS.iter();
            let command = commands.find(|command| word.eq_ignore_ascii_case(command.name))?;
            Some(command.name)
        }
    }
}

/// The tip for a first word that means no command.
fn tip_of_first(word: &str) -> Option<&'static str> {
    match word {
        "version" => Some("`bpfrt --version` prints the version"),
        _ if word.contains('.') || word.contains('/') => {
            Some("a command stands before FILE, as in `bpfrt check FILE`")
        }
        _ => None,
    }
}

/// What `clap` says of `help help`, for words that it takes for a command of that name.
const HELP_OF_HELP: &str = "\
Print this message or the help of the given subcommand(s)

Usage: bpfrt help [COMMAND]...

Arguments:
  [COMMAND]...  Print help for the subcommand(s)";

/// What is said of a first word that is no command, with this tip.
fn no_command_named(alloc: Global, word: &str, tip: &str) -> Result<String, AllocError> {
    let why = format!(in alloc; "unrecognized subcommand '{word}'\n\n  tip: {tip}")?;
    let error = grammar(alloc)?.error(ErrorKind::InvalidSubcommand, why.as_str())?;
    format!(in alloc; "{error}")
}

/// What is said of a first word that is no command, by `clap` where there is no tip of ours.
fn text_of_unknown_command(
    alloc: Global,
    words: &[String],
    text: String,
) -> Result<String, AllocError> {
    let word = word_at(words, 1);
    if word == "help" && matches!(word_at(words, 2), "--help" | "-h") {
        return String::from_str(alloc, HELP_OF_HELP);
    }
    if let Some(name) = command_meant(word) {
        let tip = format!(in alloc; "a similar subcommand exists: '{name}'")?;
        return no_command_named(alloc, word, tip.as_str());
    }
    match tip_of_first(word) {
        Some(tip) => no_command_named(alloc, word, tip),
        None => Ok(text),
    }
}

/// What `clap` says, with a paragraph above the one that begins so, in place of its tip on words that begin with `-`.
fn with_above(
    alloc: Global,
    text: &str,
    start: &str,
    paragraph: &str,
) -> Result<String, AllocError> {
    let Some((why, more)) = text.split_once(start) else {
        return String::from_str(alloc, text);
    };
    let (why, _) = why.split_once("\n\n  tip: to pass '").unwrap_or((why, ""));
    format!(in alloc; "{why}{paragraph}{start}{more}")
}

/// What `clap` says, with a tip of ours in place of its tip on values.
fn with_tip(alloc: Global, text: &str, tip: Option<&str>) -> Result<String, AllocError> {
    let Some(tip) = tip else {
        return with_above(alloc, text, "\n\nUsage", "");
    };
    let tip = format!(in alloc; "\n\n  tip: {tip}")?;
    with_above(alloc, text, "\n\nUsage", tip.as_str())
}

/// Where what `asm` and `disasm` make goes to.
const OUTPUT_TIP: &str = "the result goes to standard output: `> FILE`";

/// What is used instead of an option that a command has not.
fn tip_of_option(word: &str) -> Option<&'static str> {
    match word {
        "--explain" => Some("`bpfrt check --explain` says why a program is refused"),
        "--asm" => Some("`bpfrt asm --file` makes a program file of assembly"),
        "-o" | "--out" | "--output" => Some(OUTPUT_TIP),
        _ => None,
    }
}

/// The tip for a word too many of a command.
fn tip_of_more(words: &[String]) -> Option<&'static str> {
    match word_at(words, 1) {
        "filter" if has_word(words, "--seccomp") => Some(classic_file(Data::Seccomp)),
        "filter" => Some(classic_file(Data::Packet)),
        "asm" | "disasm" => Some(OUTPUT_TIP),
        "check" => Some("one FILE is checked at a time"),
        "run" | "trace" => Some("CTX is one word: its bytes stand without blanks"),
        _ => None,
    }
}

/// The file that the words give to `script`, which takes none.
fn script_file(words: &[String]) -> Option<&str> {
    if word_at(words, 1) != "script" {
        return None;
    }
    let file = words
        .iter()
        .skip(2)
        .find(|word| !word.as_str().starts_with('-'))?;
    Some(file.as_str())
}

/// What is said of a word that no argument of the command takes: `clap` has it in quotes.
fn text_of_unknown_word(alloc: Global, words: &[String], text: &str) -> Result<String, AllocError> {
    if let Some(file) = script_file(words) {
        let tip = format!(in alloc; "a script comes on standard input: `bpfrt script < {file}`")?;
        return with_tip(alloc, text, Some(tip.as_str()));
    }
    let tip = match text.split('\'').nth(1) {
        Some(word) if word.starts_with('-') => tip_of_option(word),
        _ => tip_of_more(words),
    };
    with_tip(alloc, text, tip)
}

/// Where FILE stands among words that have `--map`.
const MAP_TIP: &str =
    "what follows --map NAME is taken for its elements: FILE stands before --map, or behind `--`";

/// What is said of an option with no words behind it, with a usage of ours, which `clap` leaves out.
fn with_usage(alloc: Global, command: &str, text: String) -> Result<String, AllocError> {
    let Some(usage) = own_usage(command) else {
        return Ok(text);
    };
    let usage = format!(in alloc; "\n\nUsage: {usage}")?;
    with_above(alloc, text.as_str(), "\n\nFor more", usage.as_str())
}

/// What is said of words with this error.
fn text_of_error(
    alloc: Global,
    error: &clap::Error,
    words: &[String],
) -> Result<String, AllocError> {
    let text = format!(in alloc; "{error}")?;
    match error.kind() {
        ErrorKind::InvalidSubcommand => text_of_unknown_command(alloc, words, text),
        ErrorKind::UnknownArgument => text_of_unknown_word(alloc, words, text.as_str()),
        ErrorKind::InvalidValue => with_usage(alloc, word_at(words, 1), text),
        ErrorKind::MissingRequiredArgument if has_word(words, "--map") => {
            with_tip(alloc, text.as_str(), Some(MAP_TIP))
        }
        _ => Ok(text),
    }
}

/// Why the words are no command.
pub(crate) fn words_fault(
    alloc: Global,
    error: &clap::Error,
    words: &[String],
) -> Result<WordsFault, AllocError> {
    if error.kind() == ErrorKind::OutOfMemory {
        return Err(AllocError);
    }
    let text = text_of_error(alloc, error, words)?;
    Ok(WordsFault::Usage(shown(alloc, text.as_str())?))
}
