//! Bytes of a word.
ghost use Rattle.std.specs.Prelude.{◌≡◌, ◌+◌, ◌≤◌};
ghost use Rattle.bpf_model.specs.Access.{byte_count};
ghost use Rattle.shared_runs.specs.Words.{part_of};

use bpf_model::Width;

/// So many bytes of a word, from this one on.
#[inline]
pub(crate) fn part_of_word(word: u64, low: usize, width: Width) -> u64
    requires whole { low + byte_count width ≤ 8 }
    ensures { result ≡ part_of word low (byte_count width) }
{
    match width {
        Width::One => (word >> (8 * low)) % (1 << 8),
        Width::Two => (word >> (8 * low)) % (1 << 16),
        Width::Four => (word >> (8 * low)) % (1 << 32),
        Width::Eight => word,
    }
}
