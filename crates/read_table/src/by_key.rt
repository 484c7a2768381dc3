//! How the writer finds a slot by its key.
ghost use Rattle.std.specs.Prelude.{◌≡◌, ◌+◌, ◌*◌, ◌<◌, List, ◌++◌, All, Decides, IfSome, IsNone, length};
ghost use Rattle.std.specs.List.{Contains};
ghost use Rattle.read_table.specs.declared.view.Move.{Move};
ghost use Rattle.read_table.specs.Found.{IsLinkedUnder};
ghost use Rattle.read_table.specs.Limits.{word_bytes};
ghost use Rattle.read_table.specs.Lookups.{OnlySearches};
ghost use Rattle.read_table.specs.Held.{IsKnown, Went};
ghost use Rattle.read_table.specs.Slots.{IsLinked};

use crate::View;
use crate::table::ReadTable;
use crate::words::word_of;
use atomic_table::Seat;

/// Whether a linked slot has this key.
fn is_under(table: &ReadTable, seat: &mut Seat<u8, View>, slot: usize, key: &[u8]) -> bool
    requires table { (seat.old.table_id ≡ table.now.id) × (seat.old.me.0.shape ≡ table.now.shape) }
    requires writer { seat.old.me.0.me ≡ 0 }
    requires known { IsKnown seat.old.me.0 }
    requires linked { IsLinked seat.old.me.0 slot }
    requires key { length key.now ≡ word_bytes * table.now.shape.key_words }
    ensures table { seat.new.table_id ≡ seat.old.table_id }
    ensures held { seat.new.me.1 ≡ seat.old.me.1 }
    ensures steps { (ms : List Move) × OnlySearches table.now.shape ms
        × Went seat.old.me.0 (ms ++ seat.old.me.0.mine) seat.new.me.0 }
    ensures under { Decides result
        (IsLinkedUnder table.now.shape key.now slot seat.new.me.0.seen) }
{
    for place in 0..table.shape().key_words {
        if table.peek(seat, slot, place) != word_of(key, place) {
            return false;
        }
    }
    true
}

/// The first of these slots, all linked, that has the key.
pub(crate) fn find_in(
    table: &ReadTable,
    seat: &mut Seat<u8, View>,
    slots: &[usize],
    key: &[u8],
) -> Option<usize>
    requires table { (seat.old.table_id ≡ table.now.id) × (seat.old.me.0.shape ≡ table.now.shape) }
    requires writer { seat.old.me.0.me ≡ 0 }
    requires known { IsKnown seat.old.me.0 }
    requires linked { All (IsLinked seat.old.me.0) slots.now }
    requires key { length key.now ≡ word_bytes * table.now.shape.key_words }
    ensures table { seat.new.table_id ≡ seat.old.table_id }
    ensures held { seat.new.me.1 ≡ seat.old.me.1 }
    ensures steps { (ms : List Move) × OnlySearches table.now.shape ms
        × Went seat.old.me.0 (ms ++ seat.old.me.0.mine) seat.new.me.0 }
    ensures found { IfSome result (λ slot. Contains slots.now slot
        × IsLinkedUnder table.now.shape key.now slot seat.new.me.0.seen) }
    ensures none { IsNone result → All (λ slot.
        IsLinkedUnder table.now.shape key.now slot seat.new.me.0.seen → ⊥) slots.now }
{
    for at in 0..slots.len() {
        let slot = slots[at];
        if is_under(table, seat, slot, key) {
            return Some(slot);
        }
    }
    None
}
