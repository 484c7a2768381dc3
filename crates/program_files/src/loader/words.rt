//! The words of a line.
ghost use Rattle.std.specs.Prelude.{◌≡◌, ◌≢◌, ℕ, true, false, ◌++◌, ◌∷◌, [], List, Some, IfSome, IfNone, MatchOption};
ghost use Rattle.program_files.specs.Lines.{file_words};
ghost use Rattle.script_lines.specs.Words.{number_in};
ghost use Rattle.program_files.specs.Stages.{HasNoByte, words_left};

use script_lines::number_of;

/// What stands before the first such byte, and what stands behind it, if there is one.
pub fn cut(bytes: &[u8], at: u8) -> (&[u8], Option<&[u8]>)
    ensures front { HasNoByte at result.0.now }
    ensures parts { MatchOption result.1 (bytes.now ≡ result.0.now)
        (λ rest. bytes.now ≡ result.0.now ++ at ∷ rest.now) }
{
    for (index, byte) in bytes.iter().enumerate() {
        if *byte == at {
            return (&bytes[..index], Some(&bytes[index + 1..]));
        }
    }
    (bytes, None)
}

/// The words of a line that are left.
#[derive(Clone, Copy)]
pub struct Words<'a> {
    rest: Option<&'a [u8]>,
}

impl<'a> Words<'a> {
    /// The words of a line.
    pub fn of(line: &'a [u8]) -> Words<'a>
        ensures { words_left result.rest ≡ file_words line.now }
    {
        Words { rest: Some(line) }
    }

    /// The next word.
    pub fn word(&mut self) -> Option<&'a [u8]>
        ensures some { IfSome result (λ w.
            words_left self.old.rest ≡ w.now ∷ words_left self.new.rest) }
        ensures none { IfNone result (words_left self.old.rest ≡ []) }
    {
        let rest = self.rest?;
        let (word, rest) = cut(rest, b' ');
        self.rest = rest;
        Some(word)
    }

    /// The number that the next word is.
    pub fn number(&mut self) -> Option<u64>
        ensures some { IfSome result (λ n. (w : List ℕ) ×
            (words_left self.old.rest ≡ w ∷ words_left self.new.rest) × (number_in w ≡ Some n)) }
        ensures none { IfNone result ((w : List ℕ) (ws : List (List ℕ)) (n : ℕ) →
            words_left self.old.rest ≡ w ∷ ws → ¬ (number_in w ≡ Some n)) }
    {
        number_of(self.word()?)
    }

    /// Whether no word is left.
    pub fn is_empty(&self) -> bool
        ensures ends { result ≡ true → words_left self.now.rest ≡ [] }
        ensures more { result ≡ false → words_left self.now.rest ≢ [] }
    {
        self.rest.is_none()
    }
}
