//! The words of a key or of a value, and the slot where a search for a key begins.
ghost use Rattle.std.specs.Prelude.{◌≡◌, ◌+◌, ◌*◌, ◌<◌, ◌≤◌, length, Some};
ghost use Rattle.read_table.specs.Lookups.{key_word};
ghost use Rattle.read_table.specs.Limits.{word_bytes, most_table_slots};

use crate::limits::WORD_BYTES;
use bpf_model::{Width, number_of};

/// What a hash is multiplied by after each word: 2^64 over the golden ratio, which is odd.
const WORD_FACTOR: u64 = 11_400_714_819_323_198_485;

/// The little-endian number of the eight bytes at a place, where places count words.
#[inline]
pub(crate) fn word_of(bytes: &[u8], place: usize) -> u64
    requires { word_bytes * place + word_bytes ≤ length bytes.now }
    ensures { key_word bytes.now place ≡ Some result }
{
    number_of(bytes, WORD_BYTES * place, Width::Eight)
}

/// A hash of a key of so many words. Its high half depends on all bits of the key.
#[inline]
fn hash_of(key: &[u8], words: usize) -> u64
    requires { length key.now ≡ word_bytes * words }
{
    let mut hash: u64 = 0;
    for place in 0..words {
        let product = (hash ^ word_of(key, place)).wrapping_mul(WORD_FACTOR);
        hash = product ^ (product >> 32);
    }
    hash
}

/// The slot where a search for the key begins. Nothing is promised of how keys spread.
#[inline]
pub(crate) fn home_of(key: &[u8], words: usize, slots: usize) -> usize
    requires key { length key.now ≡ word_bytes * words }
    requires slots { (0 < slots) × (slots ≤ most_table_slots) }
    ensures { result < slots }
{
    let high = hash_of(key, words) >> 32;
    ((high * slots as u64) >> 32) as usize
}
