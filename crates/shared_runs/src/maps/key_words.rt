//! The words of a key.
ghost use Rattle.std.specs.Prelude.{◌≡◌, ℕ, ◌*◌, ◌<◌, ◌≤◌, Some, length, slice_get, slice_index};
ghost use Rattle.bpf_model.specs.Access.{number_at};
ghost use Rattle.map_table.specs.Limits.{most_words};

use crate::lengths::WORD_BYTES;
use bpf_model::{Width, number_of};
use map_table::MAX_WORDS;

/// The word of a key of one.
#[inline]
pub(crate) fn word_of(key: &[u8]) -> u64
    requires { length key.now ≡ 8 }
    ensures { number_at (slice_get key.now) 0 8 ≡ Some result }
{
    number_of(key, 0, Width::Eight)
}

/// The words of a key of so many, and zeros behind them.
#[inline]
pub(crate) fn words_of(key: &[u8], count: usize) -> [u64; MAX_WORDS]
    requires few { count ≤ most_words }
    requires key { length key.now ≡ 8 * count }
    ensures { (place : ℕ) → place < count →
        number_at (slice_get key.now) (8 * place) 8 ≡ Some (slice_index result place) }
{
    let mut words = [0; MAX_WORDS];
    for place in 0..count {
        words[place] = number_of(key, WORD_BYTES * place, Width::Eight);
    }
    words
}
