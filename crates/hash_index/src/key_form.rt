//! Keys by their length: of one word, of half a word, of any length. Keys of one word and of half a word are
//! compared as numbers, without a call.
ghost use Rattle.std.specs.Prelude.{◌≡◌, ◌<◌, ⊤, ℕ, List, length};
ghost use Rattle.std.specs.Ordering.{nat_cmp, eq_by_cmp};
ghost use Rattle.std.specs.Cmp.Lexicographic.{slice_cmp};
ghost use Rattle.element_store.specs.State.{key_at};
ghost use Rattle.hash_index.specs.Chains.{bucket_of};
ghost use Rattle.hash_index.specs.declared.hash.TheConstants.{WORD_BYTES, HALF_BYTES};

use crate::hash::{bucket_in, half_hash, hash_words, word_hash};
use crate::keys::{has_half, has_key, has_word};
use element_store::Arena;

/// How keys of some lengths are hashed and compared.
pub(crate) trait KeyForm {
    /// The keys that it serves.
    ghost serves: { List ℕ → Type 0 };

    /// The bucket of a key, of so many, which are a power of two.
    fn bucket(key: &[u8], count: usize) -> usize
        requires serves { serves key.now }
        requires count { 0 < count }
        ensures bucket { result ≡ bucket_of count key.now }
        ensures inside { result < count };

    /// Whether a slot has the key.
    fn is_at(arena: &Arena, slot: usize, key: &[u8]) -> bool
        requires serves { serves key.now }
        requires slot { slot < length arena.now.slots }
        ensures { result ≡ eq_by_cmp (slice_cmp nat_cmp) key.now (key_at arena.now.slots slot) };
}

/// Keys of one word.
pub(crate) struct OneWord;

impl KeyForm for OneWord {
    ghost serves = { λ key. length key ≡ WORD_BYTES };

    #[inline]
    fn bucket(key: &[u8], count: usize) -> usize {
        bucket_in(word_hash(key), count)
    }

    #[inline]
    fn is_at(arena: &Arena, slot: usize, key: &[u8]) -> bool {
        has_word(arena, slot, key)
    }
}

/// Keys of half a word.
pub(crate) struct HalfWord;

impl KeyForm for HalfWord {
    ghost serves = { λ key. length key ≡ HALF_BYTES };

    #[inline]
    fn bucket(key: &[u8], count: usize) -> usize {
        bucket_in(half_hash(key), count)
    }

    #[inline]
    fn is_at(arena: &Arena, slot: usize, key: &[u8]) -> bool {
        has_half(arena, slot, key)
    }
}

/// Keys of any length.
pub(crate) struct AnyLength;

impl KeyForm for AnyLength {
    ghost serves = { λ _. ⊤ };

    fn bucket(key: &[u8], count: usize) -> usize {
        bucket_in(hash_words(key), count)
    }

    fn is_at(arena: &Arena, slot: usize, key: &[u8]) -> bool {
        has_key(arena, slot, key)
    }
}
