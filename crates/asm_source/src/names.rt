//! Names, and what they stand for.
ghost use Rattle.std.specs.Prelude.{◌≡◌, option_copied, bytes_eq, codes};
ghost use Rattle.std.specs.Str.{all_ascii_digits};
ghost use Rattle.asm_source.specs.Names.{Binding, is_register as is_register_word, begins_name as begins_name_byte, is_name as is_name_word, label_in as label_of};

use std::marker::Model;

/// What a name stands for.
#[derive(Clone, Copy, Debug, PartialEq, Eq, Drop)]
pub(crate) enum Meaning {
    /// A label: the slots that stand before its line.
    Place(u128),
    /// A constant.
    Number { minus: bool, magnitude: u64 },
}

/// A name with its meaning. Contracts see the name as its bytes.
#[derive(Drop)]
pub(crate) struct Named<'a> {
    name: &'a [u8],
    meaning: Meaning,
}

impl<'a> Model for Named<'a> {
    ghost Value = { Binding };

    ghost view = { λ n. record { name = n.name.now; meaning = n.meaning } };
}

impl<'a> Named<'a> {
    pub(crate) fn new(name: &'a [u8], meaning: Meaning) -> Named<'a>
        ensures name { result.name ≡ name.now }
        ensures meaning { result.meaning ≡ meaning }
    {
        Named { name, meaning }
    }

    pub(crate) fn name(&self) -> &'a [u8]
        ensures { result.now ≡ self.now.name }
    {
        self.name
    }

    pub(crate) fn meaning(&self) -> Meaning
        ensures { result ≡ self.now.meaning }
    {
        self.meaning
    }
}

/// Whether the word is `r` and digits.
pub fn is_register(word: &[u8]) -> bool
    ensures { result ≡ is_register_word word.now }
{
    match word {
        [b'r', digits @ ..] => !digits.is_empty() && are_digits(digits),
        _ => false,
    }
}

/// Whether all bytes are decimal digits.
pub fn are_digits(digits: &[u8]) -> bool
    ensures { result ≡ all_ascii_digits digits.now }
{
    for digit in digits {
        if !digit.is_ascii_digit() {
            return false;
        }
    }
    true
}

fn begins_name(byte: u8) -> bool
    ensures { result ≡ begins_name_byte byte }
{
    matches!(byte, b'a'..=b'z' | b'A'..=b'Z' | b'_' | b'.')
}

/// Whether the word may be given a meaning.
pub fn is_name(word: &[u8]) -> bool
    ensures { result ≡ is_name_word word.now }
{
    match word {
        [] => false,
        [first, ..] => begins_name(*first) && !is_register(word),
    }
}

/// The label that a line begins with by this word: what stands before a `:` at its end.
pub fn label_in(word: &[u8]) -> Option<&[u8]>
    ensures { option_copied result ≡ label_of word.now }
{
    let count = word.len();
    if count > 0 && word[count - 1] == b':' {
        Some(&word[..count - 1])
    } else {
        None
    }
}

/// Whether the word begins the line of a constant.
pub fn is_constant(word: &[u8]) -> bool
    ensures { result ≡ bytes_eq word.now (codes ".equ") }
{
    word == b".equ".as_slice()
}
