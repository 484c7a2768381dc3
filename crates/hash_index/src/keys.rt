//! Keys as they stand in their slots.
ghost use Rattle.std.specs.Prelude.{bytes_eq, ◌≡◌, ◌<◌, ◌↔◌, length, IsTrue, option_copied};
ghost use Rattle.std.specs.Ordering.{nat_cmp, eq_by_cmp};
ghost use Rattle.std.specs.Cmp.Lexicographic.{slice_cmp};
ghost use Rattle.element_store.specs.State.{key_at};
ghost use Rattle.hash_index.specs.Order.{IsLess, IsAbove};
ghost use Rattle.hash_index.specs.declared.hash.TheConstants.{WORD_BYTES, HALF_BYTES};

use crate::hash::{HALF_BYTES, WORD_BYTES, half_word, word_at_start};
use element_store::Arena;

/// Whether a slot has the key.
pub(crate) fn has_key(arena: &Arena, slot: usize, key: &[u8]) -> bool
    requires { slot < length arena.now.slots }
    ensures { result ≡ eq_by_cmp (slice_cmp nat_cmp) key.now (key_at arena.now.slots slot) }
{
    key == arena.key(slot)
}

/// Whether two words are the same, which are compared as numbers.
#[inline]
fn same_words(left: &[u8], right: &[u8]) -> bool
    requires left { length left.now ≡ WORD_BYTES }
    requires right { length right.now ≡ WORD_BYTES }
    ensures { result ≡ bytes_eq left.now right.now }
{
    word_at_start(left) == word_at_start(right)
}

/// Whether two halves of words are the same, which are compared as numbers.
#[inline]
fn same_halves(left: &[u8], right: &[u8]) -> bool
    requires left { length left.now ≡ HALF_BYTES }
    requires right { length right.now ≡ HALF_BYTES }
    ensures { result ≡ bytes_eq left.now right.now }
{
    half_word(left) == half_word(right)
}

/// Whether a slot has the key, which is one word.
#[inline]
pub(crate) fn has_word(arena: &Arena, slot: usize, key: &[u8]) -> bool
    requires slot { slot < length arena.now.slots }
    requires word { length key.now ≡ WORD_BYTES }
    ensures { result ≡ eq_by_cmp (slice_cmp nat_cmp) key.now (key_at arena.now.slots slot) }
{
    let held = arena.key(slot);
    if held.len() == WORD_BYTES {
        same_words(key, held)
    } else {
        false
    }
}

/// Whether a slot has the key, which is half a word.
#[inline]
pub(crate) fn has_half(arena: &Arena, slot: usize, key: &[u8]) -> bool
    requires slot { slot < length arena.now.slots }
    requires half { length key.now ≡ HALF_BYTES }
    ensures { result ≡ eq_by_cmp (slice_cmp nat_cmp) key.now (key_at arena.now.slots slot) }
{
    let held = arena.key(slot);
    if held.len() == HALF_BYTES {
        same_halves(key, held)
    } else {
        false
    }
}

/// Whether a slot's key comes before this key.
pub(crate) fn is_less(arena: &Arena, slot: usize, key: &[u8]) -> bool
    requires { slot < length arena.now.slots }
    ensures { IsTrue result ↔ IsLess (key_at arena.now.slots slot) key.now }
{
    arena.key(slot).cmp(&key).is_lt()
}

/// Whether a slot's key is above a bound.
pub(crate) fn is_above(arena: &Arena, slot: usize, bound: Option<&[u8]>) -> bool
    requires { slot < length arena.now.slots }
    ensures { IsTrue result ↔ IsAbove (option_copied bound.entry) (key_at arena.now.slots slot) }
{
    match bound {
        None => true,
        Some(key) => key.cmp(&arena.key(slot)).is_lt(),
    }
}
