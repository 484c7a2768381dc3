//! The tokens of a line, one after another.
ghost use Rattle.std.specs.Prelude.{◌≡◌, ◌≢◌, ◌==◌, ◌<◌, ◌≤◌, [], ◌∷◌, List, ℕ, length, slice_index, false, IfSome, IfNone};
ghost use Rattle.std.specs.List.{prefix_len};
ghost use Rattle.asm_source.specs.Tokens.{is_blank as is_blank_byte, is_mark as is_mark_byte, is_letter as is_letter_byte, begins_word as begins_with_letter, tokens_of};
ghost use Rattle.asm_source.specs.Plain.{is_end};

use std::marker::Model;

fn is_blank(byte: u8) -> bool
    ensures { result ≡ is_blank_byte byte }
{
    byte == b' ' || byte == b'\t' || byte == b'\r'
}

fn is_mark(byte: u8) -> bool
    ensures { result ≡ is_mark_byte byte }
{
    byte == b'+' || byte == b',' || byte == b'-' || byte == b'[' || byte == b']'
}

fn is_letter(byte: u8) -> bool
    ensures { result ≡ is_letter_byte byte }
{
    !(is_blank(byte) || is_mark(byte) || byte == b';')
}

/// Whether the token is a word and no mark.
pub fn begins_word(token: &[u8]) -> bool
    ensures { result ≡ begins_with_letter token.now }
{
    match token {
        [] => false,
        [first, ..] => is_letter(*first),
    }
}

/// The line from its first byte on that is no blank.
#[tactic(auto, using(crate::proofs::TokenLaws::blank_skipped))]
fn without_blanks(line: &[u8]) -> &[u8]
    ensures tokens { tokens_of result.now ≡ tokens_of line.now }
    ensures first { 0 < length result.now → is_blank_byte (slice_index result.now 0) ≡ false }
{
    let mut rest = line;
    while let [first, more @ ..] = rest {
        if !is_blank(*first) {
            return rest;
        }
        rest = more;
    }
    rest
}

/// How many letters the line begins with.
fn letters_before(line: &[u8]) -> usize
    ensures count { result ≡ prefix_len is_letter_byte line.now }
    ensures within { result ≤ length line.now }
{
    for (index, byte) in line.iter().enumerate() {
        if !is_letter(*byte) {
            return index;
        }
    }
    line.len()
}

/// The token that the line begins with, and what follows it.
#[tactic(auto, using(crate::proofs::TokenLaws::word_first, crate::proofs::TokenLaws::mark_first))]
fn split_token(line: &[u8]) -> (&[u8], &[u8])
    requires some { 0 < length line.now }
    requires blank { is_blank_byte (slice_index line.now 0) ≡ false }
    requires comment { slice_index line.now 0 ≢ 59 }
    ensures { tokens_of line.now ≡ result.0.now ∷ tokens_of result.1.now }
{
    if begins_word(line) {
        line.split_at(letters_before(line))
    } else {
        line.split_at(1)
    }
}

/// The tokens of a line that are not yet read. Contracts see the list of them.
#[derive(Drop)]
pub struct Tokens<'a> {
    rest: &'a [u8],
}

impl<'a> Model for Tokens<'a> {
    ghost Value = { List (List ℕ) };

    ghost view = { λ t. tokens_of t.rest.now };
}

impl<'a> Tokens<'a> {
    /// The tokens of a line.
    pub fn new(line: &'a [u8]) -> Tokens<'a>
        ensures { result ≡ tokens_of line.now }
    {
        Tokens { rest: line }
    }

    /// The next token, if there is one.
    pub fn next(&mut self) -> Option<&'a [u8]>
        ensures some { IfSome result (λ token. self.old ≡ token.now ∷ self.new) }
        ensures none { IfNone result (self.old ≡ []) }
        ensures done { IfNone result (self.new ≡ []) }
    {
        let line = without_blanks(self.rest);
        match line {
            [] | [b';', ..] => {
                self.rest = &[];
                None
            }
            _ => {
                let (token, rest) = split_token(line);
                self.rest = rest;
                Some(token)
            }
        }
    }

    /// Whether no token is left.
    pub fn is_done(&self) -> bool
        ensures { result ≡ is_end self.now }
    {
        let mut tokens = Tokens { rest: self.rest };
        tokens.next().is_none()
    }
}
