//! The writer's looks at the readers' section words.
ghost use Rattle.std.specs.Prelude.{◌≡◌, ◌≢◌, ◌⊎◌, ℕ, ◌+◌, ◌%◌, ◌<◌, ◌≤◌, List, [], ◌∷◌, ◌++◌, MatchBool, length};
ghost use Rattle.table_words.specs.declared.moves.Move.{Move};
ghost use Rattle.table_words.specs.declared.moves.Move.TheVariants.{Scan};
ghost use Rattle.table_words.specs.History.{moves_of};
ghost use Rattle.table_words.specs.Scanned.{OnlyScans, ScansInTurn, FoundInside, FoundGone};
ghost use Rattle.map_table.specs.Held.{IsKnown, Went};
ghost use Rattle.map_table.specs.Moving.{HaveGone, IsSomeInside};
ghost use Rattle.map_table.specs.Sightings.{AreSightings, sighting_at};

use crate::table::MapTable;
use atomic_table::Seat;
use table_words::{Sighting, View};

/// How often the writer looks again at a reader that stays in one section before it gives up: some 20 milliseconds. A reader
/// that waits for its processor inside a section gets it within that time, where the processors are shared by a few threads each.
const LOOKS: usize = 8_000_000;

/// Looks at a reader, and notes what it finds: its section word.
pub(crate) fn look_at(
    table: &MapTable,
    seat: &mut Seat<u8, View>,
    seen: &mut Vec<Sighting>,
    unlinked: &[usize],
    reader: usize,
) -> u64
    requires table { (seat.old.table_id ≡ table.now.id) × (seat.old.me.0.shape ≡ table.now.shape) }
    requires writer { seat.old.me.0.me ≡ 0 }
    requires seen { AreSightings seat.old.me.0 unlinked.now seen.old.items }
    requires reader { reader < table.now.shape.readers }
    ensures table { seat.new.table_id ≡ seat.old.table_id }
    ensures held { seat.new.me.1 ≡ seat.old.me.1 }
    ensures seen { AreSightings seat.new.me.0 unlinked.now seen.new.items }
    ensures others { (r : ℕ) → r ≢ reader → sighting_at seen.new.items r ≡ sighting_at seen.old.items r }
    ensures noted { result % 2 ≡ 0 → (sighting_at seen.new.items reader).cleared ≡ length unlinked.now }
    ensures step { Went seat.old.me.0 (Scan (reader + 1) result ∷ seat.old.me.0.mine) seat.new.me.0 }
    ensures unseated { seat.old.me.0.next ≤ reader + 1 → moves_of (reader + 1) seat.new.me.0.seen ≡ [] }
{
    let word = table.scan(seat, reader);
    seen[reader] = seen[reader].after_look(word, unlinked.len());
    word
}

/// Looks at a reader, if it is not cleared of the last of these elements, and notes what it finds.
fn look(
    table: &MapTable,
    seat: &mut Seat<u8, View>,
    seen: &mut Vec<Sighting>,
    unlinked: &[usize],
    reader: usize,
)
    requires table { (seat.old.table_id ≡ table.now.id) × (seat.old.me.0.shape ≡ table.now.shape) }
    requires writer { seat.old.me.0.me ≡ 0 }
    requires known { IsKnown seat.old.me.0 }
    requires seen { AreSightings seat.old.me.0 unlinked.now seen.old.items }
    requires reader { reader < table.now.shape.readers }
    ensures table { seat.new.table_id ≡ seat.old.table_id }
    ensures held { seat.new.me.1 ≡ seat.old.me.1 }
    ensures seen { AreSightings seat.new.me.0 unlinked.now seen.new.items }
    ensures others { (r : ℕ) → r ≢ reader → sighting_at seen.new.items r ≡ sighting_at seen.old.items r }
    ensures steps { (ms : List Move) × Went seat.old.me.0 (ms ++ seat.old.me.0.mine) seat.new.me.0
        × ScansInTurn reader (reader + 1) ms
        × (((sighting_at seen.new.items reader).cleared ≡ length unlinked.now) ⊎ FoundInside (reader + 1) ms) }
{
    if seen[reader].cleared == unlinked.len() {
        return;
    }
    look_at(table, seat, seen, unlinked, reader);
}

/// Looks at each reader that is not cleared of the last of these elements.
pub(crate) fn look_round(
    table: &MapTable,
    seat: &mut Seat<u8, View>,
    seen: &mut Vec<Sighting>,
    unlinked: &[usize],
)
    requires table { (seat.old.table_id ≡ table.now.id) × (seat.old.me.0.shape ≡ table.now.shape) }
    requires writer { seat.old.me.0.me ≡ 0 }
    requires known { IsKnown seat.old.me.0 }
    requires seen { AreSightings seat.old.me.0 unlinked.now seen.old.items }
    ensures table { seat.new.table_id ≡ seat.old.table_id }
    ensures held { seat.new.me.1 ≡ seat.old.me.1 }
    ensures seen { AreSightings seat.new.me.0 unlinked.now seen.new.items }
    ensures steps { (ms : List Move) × Went seat.old.me.0 (ms ++ seat.old.me.0.mine) seat.new.me.0
        × ScansInTurn 0 table.now.shape.readers ms
        × ((r : ℕ) → r < table.now.shape.readers →
        ((sighting_at seen.new.items r).cleared ≡ length unlinked.now) ⊎ FoundInside (r + 1) ms) }
{
    for reader in 0..table.shape().readers {
        look(table, seat, seen, unlinked, reader);
    }
}

/// Whether a reader has left the section that it was in: it is found outside, or with two numbers. It looks at it 8,000,001
/// times at most.
fn has_passed(
    table: &MapTable,
    seat: &mut Seat<u8, View>,
    seen: &mut Vec<Sighting>,
    unlinked: &[usize],
    reader: usize,
) -> bool
    requires table { (seat.old.table_id ≡ table.now.id) × (seat.old.me.0.shape ≡ table.now.shape) }
    requires writer { seat.old.me.0.me ≡ 0 }
    requires seen { AreSightings seat.old.me.0 unlinked.now seen.old.items }
    requires reader { reader < table.now.shape.readers }
    ensures table { seat.new.table_id ≡ seat.old.table_id }
    ensures held { seat.new.me.1 ≡ seat.old.me.1 }
    ensures seen { AreSightings seat.new.me.0 unlinked.now seen.new.items }
    ensures steps { (ms : List Move) × OnlyScans reader (reader + 1) ms
        × Went seat.old.me.0 (ms ++ seat.old.me.0.mine) seat.new.me.0
        × MatchBool result (FoundGone (reader + 1) ms) (FoundInside (reader + 1) ms) }
{
    let first = look_at(table, seat, seen, unlinked, reader);
    if first % 2 == 0 {
        return true;
    }
    for _ in 0..LOOKS {
        if look_at(table, seat, seen, unlinked, reader) != first {
            return true;
        }
    }
    false
}

/// Whether each reader has left the section that it was in. It ends at the first that has not.
pub(crate) fn all_passed(
    table: &MapTable,
    seat: &mut Seat<u8, View>,
    seen: &mut Vec<Sighting>,
    unlinked: &[usize],
) -> bool
    requires table { (seat.old.table_id ≡ table.now.id) × (seat.old.me.0.shape ≡ table.now.shape) }
    requires writer { seat.old.me.0.me ≡ 0 }
    requires known { IsKnown seat.old.me.0 }
    requires seen { AreSightings seat.old.me.0 unlinked.now seen.old.items }
    ensures table { seat.new.table_id ≡ seat.old.table_id }
    ensures held { seat.new.me.1 ≡ seat.old.me.1 }
    ensures seen { AreSightings seat.new.me.0 unlinked.now seen.new.items }
    ensures steps { (ms : List Move) × OnlyScans 0 table.now.shape.readers ms
        × Went seat.old.me.0 (ms ++ seat.old.me.0.mine) seat.new.me.0
        × MatchBool result (HaveGone table.now.shape.readers ms) (IsSomeInside table.now.shape.readers ms) }
{
    for reader in 0..table.shape().readers {
        if !has_passed(table, seat, seen, unlinked, reader) {
            return false;
        }
    }
    true
}
