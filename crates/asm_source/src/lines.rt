//! The lines of a text, one after another.
ghost use Rattle.std.specs.Prelude.{◌≡◌, ◌==◌, ◌<◌, ◌≤◌, [], ◌∷◌, List, ℕ, length, IfSome, IfNone, position};
ghost use Rattle.asm_source.specs.Tokens.{lines_of};

use std::marker::Model;

/// The lines of a text that are not yet read. Contracts see the list of them.
#[derive(Drop)]
pub(crate) struct Lines<'a> {
    rest: &'a [u8],
}

impl<'a> Model for Lines<'a> {
    ghost Value = { List (List ℕ) };

    ghost view = { λ l. lines_of l.rest.now };
}

/// Where the first line feed is.
fn line_end(text: &[u8]) -> Option<usize>
    ensures { result ≡ position (λ b. b == 10) text.now }
{
    text.iter().position(|b| *b == b'\n')
}

/// The first line without its line feed, and what follows that.
#[tactic(auto, using(crate::proofs::LineLaws::fed_inside, crate::proofs::LineLaws::fed_line, crate::proofs::LineLaws::last_line))]
fn split_line(text: &[u8]) -> (&[u8], &[u8])
    requires { 0 < length text.now }
    ensures { lines_of text.now ≡ result.0.now ∷ lines_of result.1.now }
{
    match line_end(text) {
        Some(end) => {
            let (line, _) = text.split_at(end);
            let (_, rest) = text.split_at(end + 1);
            (line, rest)
        }
        None => (text, &[]),
    }
}

impl<'a> Lines<'a> {
    /// The lines of a text, each with one byte at least, if its line feed counts.
    #[tactic(auto, using(crate::proofs::LineLaws::lines_le))]
    pub(crate) fn new(text: &'a [u8]) -> Lines<'a>
        ensures lines { result ≡ lines_of text.now }
        ensures count { length result ≤ length text.now }
    {
        Lines { rest: text }
    }

    /// The next line without its line feed, if there is one.
    pub(crate) fn next(&mut self) -> Option<&'a [u8]>
        ensures some { IfSome result (λ line. self.old ≡ line.now ∷ self.new) }
        ensures none { IfNone result (self.old ≡ []) }
    {
        let text = self.rest;
        if text.is_empty() {
            return None;
        }
        let (line, rest) = split_line(text);
        self.rest = rest;
        Some(line)
    }
}
