//! By which words a run names the elements of a table.
ghost use Rattle.std.specs.Prelude.{◌≡◌, ℕ, ◌*◌, ◌^◌, ◌<◌, pos, ◌+ℤ◌, ◌+◌, IfSome};
ghost use Rattle.bpf_model.specs.Word.{slot_base};
ghost use Rattle.world_laws.specs.Around.{regions};
ghost use Rattle.world_laws.specs.Calling.{found_word};

use machine::{SLOT_BASE, SPAN};

/// How many bytes a word has.
pub(crate) const WORD_BYTES: u64 = 8;

/// Bytes of a word of a value: its element, its place in the value, and the first of the bytes.
#[derive(Clone, Copy)]
pub(crate) struct ValueWord {
    pub element: usize,
    pub place: usize,
    pub low: usize,
}

/// The word of a value into which an offset from an address leads.
#[inline]
pub(crate) fn value_word(address: u64, offset: i16) -> ValueWord
    ensures { (element place low : ℕ) → element < regions → place < 2 ^ 20 → low < 8 →
        pos address +ℤ offset ≡ pos (slot_base 0 element + (8 * place + low)) →
        (result.element ≡ element) × (result.place ≡ place) × (result.low ≡ low) }
{
    let reached = address.wrapping_add(i64::from(offset).cast_unsigned());
    let from_slots = reached.wrapping_sub(SLOT_BASE);
    ValueWord {
        element: (from_slots / SPAN) as usize,
        place: (from_slots % SPAN / WORD_BYTES) as usize,
        low: (from_slots % SPAN % WORD_BYTES) as usize,
    }
}

/// The word for an element that a lookup found, or 0.
#[inline]
pub(crate) fn word_of_element(found: Option<usize>) -> u64
    requires { IfSome found (λ element. element < regions) }
    ensures { result ≡ found_word 0 found }
{
    match found {
        None => 0,
        Some(element) => SLOT_BASE + element as u64 * SPAN,
    }
}
