//! For which lengths of keys and values a program was verified.
ghost use Rattle.std.specs.Prelude.{◌^◌, ◌≤◌, Decides};
ghost use Rattle.shared_runs.specs.Words.{HaveLengths};

use bpf_model::MapKind;
use verifier::Verified;

/// How many bytes a word has.
pub(crate) const WORD_BYTES: usize = 8;

/// Whether each map that the program was verified for is a hash map, with keys and values of so many words.
pub fn has_lengths(verified: &Verified, key_words: usize, value_words: usize) -> bool
    requires short { (key_words ≤ 2 ^ 20) × (value_words ≤ 2 ^ 20) }
    ensures { Decides result (HaveLengths key_words value_words verified.now.shapes) }
{
    verified.shapes().iter().all(|map| {
        map.key_len == WORD_BYTES * key_words
            && map.value_len == WORD_BYTES * value_words
            && map.kind == MapKind::Hash
    })
}
