//! The words of a line, one after another.
ghost use Rattle.std.specs.Prelude.{◌≡◌, ◌≢◌, ◌<◌, ◌≤◌, [], ◌∷◌, List, ℕ, length, slice_index, nat_le, IfSome, IfNone};
ghost use Rattle.script_lines.specs.Words.{words_of};

use std::marker::Model;

/// The words of a line that are not yet read. Contracts see the list of them.
#[derive(Drop)]
pub(crate) struct Words<'a> {
    rest: &'a [u8],
}

impl<'a> Model for Words<'a> {
    ghost Value = { List (List ℕ) };

    ghost view = { λ w. words_of w.rest.now };
}

/// The line from its first byte on that is no space.
fn without_spaces(line: &[u8]) -> &[u8]
    ensures words { words_of result.now ≡ words_of line.now }
    ensures first { slice_index result.now 0 ≢ 32 }
{
    let mut rest = line;
    while let [b' ', more @ ..] = rest {
        rest = more;
    }
    rest
}

/// Where the line's first space is, or its end.
fn word_end(line: &[u8]) -> usize
    ensures within { result ≤ length line.now }
    ensures before { (k : ℕ) → k < result → slice_index line.now k ≢ 32 }
    ensures space { result < length line.now → slice_index line.now result ≡ 32 }
{
    for (index, byte) in line.iter().enumerate() {
        if *byte == b' ' {
            return index;
        }
    }
    line.len()
}

/// The word that the line begins with, and what follows it.
fn split_word(line: &[u8]) -> (&[u8], &[u8])
    requires some { 0 < length line.now }
    requires first { slice_index line.now 0 ≢ 32 }
    ensures { words_of line.now ≡ result.0.now ∷ words_of result.1.now }
{
    line.split_at(word_end(line))
}

impl<'a> Words<'a> {
    /// The words of a line.
    pub(crate) fn new(line: &'a [u8]) -> Words<'a>
        ensures { result ≡ words_of line.now }
    {
        Words { rest: line }
    }

    /// The next word, if there is one.
    pub(crate) fn next(&mut self) -> Option<&'a [u8]>
        ensures some { IfSome result (λ word. self.old ≡ word.now ∷ self.new) }
        ensures none { IfNone result (self.old ≡ []) }
        ensures done { IfNone result (self.new ≡ []) }
    {
        let line = without_spaces(self.rest);
        if line.is_empty() {
            return None;
        }
        let (word, rest) = split_word(line);
        self.rest = rest;
        Some(word)
    }

    /// `Some` where no word is left, `None` where there is one.
    pub(crate) fn end(&self) -> Option<()>
        ensures some { IfSome result (λ _. self.now ≡ []) }
        ensures none { IfNone result ((word : List ℕ) × (words : List (List ℕ))
            × (self.now ≡ word ∷ words)) }
    {
        let mut words = Words { rest: self.rest };
        match words.next() {
            Some(_) => None,
            None => Some(()),
        }
    }

    /// Whether there are at most so many.
    pub(crate) fn are_at_most(&self, most: usize) -> bool
        ensures { result ≡ nat_le (length self.now) most }
    {
        let mut words = Words { rest: self.rest };
        for _ in 0..most {
            if words.next().is_none() {
                return true;
            }
        }
        words.next().is_none()
    }
}
