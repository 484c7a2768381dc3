//! Positions in a vector of slots whose keys ascend.
ghost use Rattle.std.specs.Prelude.{◌≡◌, ◌≢◌, ◌<◌, ℕ, Some, length, IfSome, IfNone, option_copied, slice_get};
ghost use Rattle.element_store.specs.State.{key_at, slot_of};
ghost use Rattle.hash_index.specs.Order.{IsAscending, IsLeastOf};
ghost use Rattle.hash_index.specs.Sorted.{AllWithin, IsPosition, IsPositionAbove};

use crate::keys::{has_key, is_less};
use crate::place::Place;
use element_store::Arena;

/// Where a key stands among the slots, or would: how many slots have a lesser key.
pub(crate) fn position(slots: &[usize], arena: &Arena, key: &[u8]) -> usize
    requires within { AllWithin slots.now (length arena.now.slots) }
    requires ascending { IsAscending (key_at arena.now.slots) slots.now }
    ensures { IsPosition (key_at arena.now.slots) slots.now key.now result }
{
    let mut low = 0;
    let mut high = slots.len();
    while low < high {
        let middle = low + (high - low) / 2;
        if is_less(arena, slots[middle], key) {
            low = middle + 1;
        } else {
            high = middle;
        }
    }
    low
}

/// The slot at a position, if it has the key.
fn standing(slots: &[usize], arena: &Arena, at: usize, key: &[u8]) -> Option<usize>
    requires within { AllWithin slots.now (length arena.now.slots) }
    ensures some { IfSome result (λ s. slice_get slots.now at ≡ Some s) }
    ensures same { IfSome result (λ s. key_at arena.now.slots s ≡ key.now) }
    ensures none { IfNone result ((s : ℕ) → slice_get slots.now at ≡ Some s →
        key_at arena.now.slots s ≢ key.now) }
{
    if at < slots.len() && has_key(arena, slots[at], key) {
        return Some(slots[at]);
    }
    None
}

/// The place of a key.
pub(crate) fn find_in(slots: &[usize], arena: &Arena, key: &[u8]) -> Place
    requires within { AllWithin slots.now (length arena.now.slots) }
    requires ascending { IsAscending (key_at arena.now.slots) slots.now }
    ensures slot { result.slot ≡ slot_of (key_at arena.now.slots) slots.now key.now }
    ensures place { IsPosition (key_at arena.now.slots) slots.now key.now result.home }
{
    let home = position(slots, arena, key);
    Place {
        slot: standing(slots, arena, home, key),
        home,
        last: None,
    }
}

/// Where the keys above a key begin.
fn position_above(slots: &[usize], arena: &Arena, key: &[u8]) -> usize
    requires within { AllWithin slots.now (length arena.now.slots) }
    requires ascending { IsAscending (key_at arena.now.slots) slots.now }
    ensures { IsPositionAbove (key_at arena.now.slots) slots.now (Some key.now) result }
{
    let at = position(slots, arena, key);
    match standing(slots, arena, at, key) {
        Some(_) => at + 1,
        None => at,
    }
}

/// Where the keys above a bound begin.
fn start_above(slots: &[usize], arena: &Arena, bound: Option<&[u8]>) -> usize
    requires within { AllWithin slots.now (length arena.now.slots) }
    requires ascending { IsAscending (key_at arena.now.slots) slots.now }
    ensures { IsPositionAbove (key_at arena.now.slots) slots.now (option_copied bound.entry)
        result }
{
    match bound {
        None => 0,
        Some(key) => position_above(slots, arena, key),
    }
}

/// The slot of the least key above a bound.
pub(crate) fn least_above(slots: &[usize], arena: &Arena, bound: Option<&[u8]>) -> Option<usize>
    requires within { AllWithin slots.now (length arena.now.slots) }
    requires ascending { IsAscending (key_at arena.now.slots) slots.now }
    ensures { IsLeastOf (key_at arena.now.slots) (option_copied bound.entry) slots.now result }
{
    let at = start_above(slots, arena, bound);
    if at < slots.len() {
        return Some(slots[at]);
    }
    None
}
