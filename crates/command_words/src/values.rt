//! What the words of a command say.

use crate::faults::bad_value;
use crate::request::{ContextForm, ContextsFile, InputFile, MapElement, SingleRun, WordsFault};
use crate::table::MAP_OPTION;
use clap::ArgMatches;
use hex::{FromHexError, decode};
use script_lines::number_of;
use std::alloc::{AllocError, Global};

/// Why a word is no number.
const NO_NUMBER: &str = "it is no decimal number below 2^64 without sign and leading zeros";

/// The file that a word tells: `-` is standard input.
fn file_named(alloc: Global, word: &str) -> Result<InputFile, AllocError> {
    match word {
        "-" => Ok(InputFile::StandardInput),
        path => Ok(InputFile::Path(String::from_str(alloc, path)?)),
    }
}

/// The bytes that a word is, two hexadecimal digits each, in either case.
fn bytes_of(alloc: Global, word: &str) -> Result<Option<Vec<u8>>, AllocError> {
    match decode(alloc, word) {
        Ok(bytes) => Ok(Some(bytes)),
        Err(FromHexError::OutOfMemory) => Err(AllocError),
        Err(_) => Ok(None),
    }
}

/// Whether digits of a word have `0x` before them.
fn has_prefix(word: &str) -> bool {
    word.contains("0x") || word.contains("0X")
}

/// Why a word is no bytes.
fn why_no_bytes(word: &str) -> &'static str {
    if word.contains(' ') {
        "it is no even number of hexadecimal digits, which stand without blanks"
    } else if has_prefix(word) {
        "it is no even number of hexadecimal digits, which stand without `0x`"
    } else {
        "it is no even number of hexadecimal digits"
    }
}

/// Why a word is no element.
fn why_no_element(word: &str) -> &'static str {
    if has_prefix(word) {
        "it is no KEY=VALUE, each an even number of hexadecimal digits, which stand without `0x`"
    } else {
        "it is no KEY=VALUE, each an even number of hexadecimal digits; CTX stands before --map"
    }
}

/// The element of a map that a word `KEY=VALUE` is, if it is one.
fn element_of(alloc: Global, map: &str, word: &str) -> Result<Option<MapElement>, AllocError> {
    let Some((key, value)) = word.split_once('=') else {
        return Ok(None);
    };
    let (Some(key), Some(value)) = (bytes_of(alloc, key)?, bytes_of(alloc, value)?) else {
        return Ok(None);
    };
    let map = String::from_str(alloc, map)?;
    Ok(Some(MapElement { map, key, value }))
}

/// The words behind the name of a command.
#[derive(Clone, Copy)]
pub(crate) struct Values<'m, 'a> {
    pub alloc: Global,
    pub command: &'a str,
    pub matches: &'m ArgMatches<'a>,
}

impl<'m, 'a> Values<'m, 'a> {
    /// The word that an argument has; an empty one where there is none.
    fn word(&self, name: &str) -> &'a str {
        self.matches.get_str(name).unwrap_or("")
    }

    /// The fault of a word that is no value of the argument that is shown so.
    fn bad<T>(&self, word: &str, shown: &str, why: &str) -> Result<T, WordsFault> {
        Err(bad_value(self.alloc, self.command, word, shown, why)?)
    }

    /// The command's file.
    pub fn file(&self) -> Result<InputFile, AllocError> {
        file_named(self.alloc, self.word("FILE"))
    }

    /// The file of contexts, if there is one. Standard input is one file alone.
    pub fn contexts(&self) -> Result<Option<ContextsFile>, WordsFault> {
        let (lines, packed) = (
            self.matches.get_str("contexts"),
            self.matches.get_str("packed"),
        );
        let (word, form, shown) = match (lines, packed) {
            (Some(word), _) => (word, ContextForm::Lines, "--contexts <FILE>"),
            (None, Some(word)) => (word, ContextForm::Packed, "--packed <FILE>"),
            (None, None) => return Ok(None),
        };
        if word == "-" && self.word("FILE") == "-" {
            return self.bad(word, shown, "FILE is standard input already");
        }
        let file = file_named(self.alloc, word)?;
        Ok(Some(ContextsFile { file, form }))
    }

    /// The number that an argument is: its name, and how it is shown.
    pub fn number(&self, name: &str, shown: &str) -> Result<u64, WordsFault> {
        let word = self.word(name);
        match number_of(word.as_bytes()) {
            Some(number) => Ok(number),
            None => self.bad(word, shown, NO_NUMBER),
        }
    }

    /// The context of a run.
    fn context(&self) -> Result<Vec<u8>, WordsFault> {
        let word = self.word("CTX");
        match bytes_of(self.alloc, word)? {
            Some(bytes) => Ok(bytes),
            None => self.bad(word, "[CTX]", why_no_bytes(word)),
        }
    }

    /// Adds the elements that the words of one `--map` are.
    fn push_elements(
        &self,
        elements: &mut Vec<MapElement>,
        words: &[&str],
    ) -> Result<(), WordsFault> {
        let Some((map, words)) = words.split_first() else {
            return Ok(());
        };
        for word in words {
            match element_of(self.alloc, map, word)? {
                Some(element) => elements.push(element)?,
                None => return self.bad(word, MAP_OPTION, why_no_element(word)),
            }
        }
        Ok(())
    }

    /// The elements of a run's maps.
    fn elements(&self) -> Result<Vec<MapElement>, WordsFault> {
        let mut elements = Vec::new(self.alloc);
        let Some(uses) = self.matches.get_raw_occurrences("map") else {
            return Ok(elements);
        };
        for words in uses {
            self.push_elements(&mut elements, words)?;
        }
        Ok(elements)
    }

    /// What one run is made on. The words are judged before the file is read.
    pub fn single(&self) -> Result<SingleRun, WordsFault> {
        Ok(SingleRun {
            context: self.context()?,
            elements: self.elements()?,
            dump: self.matches.get_flag("dump"),
            explain: self.matches.get_flag("explain"),
            json: self.matches.get_flag("json"),
        })
    }
}
