//! Notes of which readers the writer has seen outside a section, for each slot since its header changed last.
ghost use Rattle.std.specs.Prelude.{◌≡◌, ◌≢◌, ℕ, ◌+◌, ◌*◌, ◌<◌, ◌≤◌, length, vec_len, IfOk, true, false};
ghost use Rattle.read_table.specs.Limits.{most_readers, most_table_slots};
ghost use Rattle.read_table.specs.Sightings.{noted};

use crate::limits::{MAX_READERS, MAX_TABLE_SLOTS};
use std::alloc::{AllocError, Global};

/// The notes at first: no reader was seen yet. Those of one reader stand side by side.
pub(crate) fn no_sightings(alloc: Global) -> Result<Vec<bool>, AllocError>
    ensures room { IfOk result (λ v. vec_len v ≡ most_readers * most_table_slots) }
    ensures none { IfOk result (λ v. (slot reader : ℕ) → noted v.items slot reader ≡ false) }
{
    let count = MAX_READERS * MAX_TABLE_SLOTS;
    let mut seen = Vec::with_capacity(alloc, count)?;
    for _ in 0..count {
        seen.push_reserved(false);
    }
    Ok(seen)
}

/// Forgets the notes of a slot, whose header changes.
pub(crate) fn forget(seen: &mut Vec<bool>, slot: usize)
    requires { (slot < most_table_slots)
        × (length seen.old.items ≡ most_readers * most_table_slots) }
    ensures room { length seen.new.items ≡ length seen.old.items }
    ensures forgotten { (reader : ℕ) → reader < most_readers → noted seen.new.items slot reader ≡ false }
    ensures others { (s reader : ℕ) → s ≢ slot → s < most_table_slots → reader < most_readers →
        noted seen.new.items s reader ≡ noted seen.old.items s reader }
{
    for reader in 0..MAX_READERS {
        seen[reader * MAX_TABLE_SLOTS + slot] = false;
    }
}

/// Notes for each of the first slots that a reader was seen outside a section.
pub(crate) fn note(seen: &mut Vec<bool>, slots: usize, reader: usize)
    requires slots { (slots ≤ most_table_slots)
        × (length seen.old.items ≡ most_readers * most_table_slots) }
    requires reader { reader < most_readers }
    ensures room { length seen.new.items ≡ length seen.old.items }
    ensures noted { (slot : ℕ) → slot < slots → noted seen.new.items slot reader ≡ true }
    ensures others { (slot r : ℕ) → r ≢ reader → slot < most_table_slots → r < most_readers →
        noted seen.new.items slot r ≡ noted seen.old.items slot r }
{
    for slot in 0..slots {
        seen[reader * MAX_TABLE_SLOTS + slot] = true;
    }
}
