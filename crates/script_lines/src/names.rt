//! The names that a `load` binds.
ghost use Rattle.std.specs.Prelude.{◌≡◌, ◌≤◌, [], ◌∷◌, List, ℕ, length, nat_le, if◌then◌else◌, Some, None, IfSome, IfNone};
ghost use Rattle.bpf_model.specs.declared.limits.TheConstants.{MAX_MAPS};

use crate::name::Name;
use crate::words::Words;
use bpf_model::MAX_MAPS;
use std::marker::Model;

/// The names of maps that stand at the end of a line, at most `MAX_MAPS`, one after another. Contracts see
/// the list of those that are not yet taken.
#[derive(Drop)]
pub struct Names<'a> {
    words: Words<'a>,
}

impl<'a> Model for Names<'a> {
    ghost Value = { List (List ℕ) };

    ghost view = { λ n. n.words };

    ghost invariant = { λ n. length n.words ≤ MAX_MAPS };
}

impl<'a> Names<'a> {
    /// The names that the words are, where they are at most `MAX_MAPS`.
    pub(crate) fn new(words: Words<'a>) -> Option<Names<'a>>
        ensures { result
            ≡ (if nat_le (length words.entry) MAX_MAPS then Some words.entry else None) }
    {
        if words.are_at_most(MAX_MAPS) {
            Some(Names { words })
        } else {
            None
        }
    }

    /// The next name, if there is one.
    pub fn next(&mut self) -> Option<Name<'a>>
        ensures some { IfSome result (λ name. self.old ≡ name ∷ self.new) }
        ensures none { IfNone result (self.old ≡ []) }
        ensures done { IfNone result (self.new ≡ []) }
        ensures limit { length self.old ≤ MAX_MAPS }
    {
        match self.words.next() {
            Some(word) => Some(Name::new(word)),
            None => None,
        }
    }
}
