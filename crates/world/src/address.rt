//! The words of elements' values: which slot of which map a word lies in, and where there.
ghost use Rattle.std.specs.Prelude.{◌≡◌, ℕ, ◌+◌, ◌^◌, ◌<◌, pos, ◌+ℤ◌};
ghost use Rattle.bpf_model.specs.declared.limits.TheConstants.{MAX_MAPS, MAX_ENTRIES, MAX_SPARE};
ghost use Rattle.bpf_model.specs.Word.{slot_base};
ghost use Rattle.model_laws.specs.Locations.{InSlot};
ghost use Rattle.world_laws.specs.Locating.{location_of, word_offset, word_region};
ghost use Rattle.world.specs.Elements.{IsInSlot};

use bpf_model::{MAX_ENTRIES, MAX_SPARE, NEAR_LIMIT};
use machine::{SLOT_BASE, SPAN};

/// So many map slots are kept for each map, each a region of its own.
const MAP_SLOTS: usize = MAX_ENTRIES + MAX_SPARE;

/// A map slot, and the number of its map.
#[derive(Clone, Copy)]
pub(crate) struct MapSlot {
    pub(crate) map: usize,
    pub(crate) slot: usize,
}

/// The word of the first byte of a map slot.
#[inline]
pub(crate) fn slot_word(map: usize, slot: usize) -> u64
    requires map { map < MAX_MAPS }
    requires slot { slot < MAX_ENTRIES + MAX_SPARE }
    ensures { result ≡ slot_base map slot }
{
    SLOT_BASE + (MAP_SLOTS * map + slot) as u64 * SPAN
}

/// The number of the region near whose first byte a word lies.
#[inline]
fn region_of(word: u64) -> u64
    ensures { result ≡ word_region word }
{
    word / SPAN + (word % SPAN + NEAR_LIMIT) / SPAN
}

/// The map slot that a word lies in.
#[inline]
pub(crate) fn map_slot_of(word: u64) -> MapSlot
    requires { IsInSlot (location_of word) }
    ensures { location_of word ≡ InSlot result.map result.slot (word_offset word) }
{
    let number = (region_of(word) - SLOT_BASE / SPAN) as usize;
    MapSlot {
        map: number / MAP_SLOTS,
        slot: number % MAP_SLOTS,
    }
}

/// An offset from a word, counted from the first byte of its region.
#[inline]
pub(crate) fn offset_in(word: u64, offset: i16) -> usize
    ensures { (at : ℕ) → at < 2 ^ 31 → word_offset word +ℤ offset ≡ pos at → result ≡ at }
{
    let moved = word.wrapping_add(i64::from(offset).cast_unsigned());
    (moved % SPAN) as usize
}
