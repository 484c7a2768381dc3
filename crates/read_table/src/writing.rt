//! What the calls of the writer are made of.
ghost use Rattle.std.specs.Prelude.{◌≡◌, ◌+◌, ◌*◌, ◌<◌, ◌≤◌, ◌%◌, ◌^◌, List, ◌∷◌, ◌++◌, All, length, slice_index, slice_set, vec_capacity, MatchBool};
ghost use Rattle.std.specs.List.{Contains};
ghost use Rattle.read_table.specs.declared.view.Move.{Move};
ghost use Rattle.read_table.specs.declared.view.Move.TheVariants.{Header};
ghost use Rattle.read_table.specs.History.{header_in, Cleared, MayLink};
ghost use Rattle.read_table.specs.Law.{width_of};
ghost use Rattle.read_table.specs.Limits.{word_bytes, most_table_slots};
ghost use Rattle.read_table.specs.Held.{IsSized, IsKnown, Went};
ghost use Rattle.read_table.specs.Sightings.{AreSightings, FoundInside, ScansInTurn, Tells};
ghost use Rattle.read_table.specs.Slots.{Fills, IsFree, Leaves};

use crate::View;
use crate::limits::MAX_TABLE_SLOTS;
use crate::sightings::note;
use crate::table::ReadTable;
use crate::words::word_of;
use atomic_table::Seat;

/// Writes the words of a key or of a value into a free slot, from a place on.
fn fill(
    table: &ReadTable,
    seat: &mut Seat<u8, View>,
    slot: usize,
    from: usize,
    bytes: &[u8],
    words: usize,
)
    requires table { (seat.old.table_id ≡ table.now.id) × (seat.old.me.0.shape ≡ table.now.shape) }
    requires writer { seat.old.me.0.me ≡ 0 }
    requires known { IsKnown seat.old.me.0 }
    requires slot { slot < table.now.shape.slots }
    requires free { IsFree seat.old.me.0 slot }
    requires bytes { length bytes.now ≡ word_bytes * words }
    requires places { from + words ≤ width_of table.now.shape }
    requires sized { IsSized table.now.shape }
    ensures table { seat.new.table_id ≡ seat.old.table_id }
    ensures held { seat.new.me.1 ≡ seat.old.me.1 }
    ensures steps { (ms : List Move) × Fills slot from bytes.now words ms
        × Went seat.old.me.0 (ms ++ seat.old.me.0.mine) seat.new.me.0 }
{
    for place in 0..words {
        table.write(seat, slot, from + place, word_of(bytes, place));
    }
}

/// Writes a key and a value into a free slot.
pub(crate) fn write_slot(
    table: &ReadTable,
    seat: &mut Seat<u8, View>,
    slot: usize,
    key: &[u8],
    value: &[u8],
)
    requires table { (seat.old.table_id ≡ table.now.id) × (seat.old.me.0.shape ≡ table.now.shape) }
    requires writer { seat.old.me.0.me ≡ 0 }
    requires known { IsKnown seat.old.me.0 }
    requires slot { slot < table.now.shape.slots }
    requires free { IsFree seat.old.me.0 slot }
    requires key { length key.now ≡ word_bytes * table.now.shape.key_words }
    requires value { length value.now ≡ word_bytes * table.now.shape.value_words }
    ensures table { seat.new.table_id ≡ seat.old.table_id }
    ensures held { seat.new.me.1 ≡ seat.old.me.1 }
    ensures steps { (ks vs : List Move) × Fills slot 0 key.now table.now.shape.key_words ks
        × Fills slot table.now.shape.key_words value.now table.now.shape.value_words vs
        × Went seat.old.me.0 ((vs ++ ks) ++ seat.old.me.0.mine) seat.new.me.0 }
{
    let shape = table.shape();
    fill(table, seat, slot, 0, key, shape.key_words);
    fill(table, seat, slot, shape.key_words, value, shape.value_words);
}

/// Changes the header of a slot by one, and notes it.
pub(crate) fn change(
    table: &ReadTable,
    seat: &mut Seat<u8, View>,
    headers: &mut Vec<u64>,
    slot: usize,
)
    requires table { (seat.old.table_id ≡ table.now.id) × (seat.old.me.0.shape ≡ table.now.shape) }
    requires writer { seat.old.me.0.me ≡ 0 }
    requires slot { slot < table.now.shape.slots }
    requires headers { length headers.old.items ≡ table.now.shape.slots }
    requires noted { slice_index headers.old.items slot ≡ header_in slot seat.old.me.0.mine }
    requires bounded { header_in slot seat.old.me.0.mine < 2 ^ 63 }
    requires reuse { header_in slot seat.old.me.0.mine % 2 ≡ 0 →
        MayLink table.now.shape.readers slot seat.old.me.0.mine }
    ensures table { seat.new.table_id ≡ seat.old.table_id }
    ensures held { seat.new.me.1 ≡ seat.old.me.1 }
    ensures headers { headers.new.items
        ≡ slice_set headers.old.items slot (header_in slot seat.old.me.0.mine + 1) }
    ensures step { Went seat.old.me.0
        (Header slot (header_in slot seat.old.me.0.mine + 1) ∷ seat.old.me.0.mine) seat.new.me.0 }
{
    let header = headers[slot] + 1;
    table.set_header(seat, slot, header);
    headers[slot] = header;
}

/// Whether a reader was seen outside a section since the slot's header changed last. If it wasn't, it is looked at now.
fn was_outside(
    table: &ReadTable,
    seat: &mut Seat<u8, View>,
    seen: &mut Vec<bool>,
    slot: usize,
    reader: usize,
) -> bool
    requires table { (seat.old.table_id ≡ table.now.id) × (seat.old.me.0.shape ≡ table.now.shape) }
    requires writer { seat.old.me.0.me ≡ 0 }
    requires known { IsKnown seat.old.me.0 }
    requires seen { AreSightings seat.old.me.0 seen.old.items }
    requires slot { slot < table.now.shape.slots }
    requires reader { reader < table.now.shape.readers }
    ensures table { seat.new.table_id ≡ seat.old.table_id }
    ensures held { seat.new.me.1 ≡ seat.old.me.1 }
    ensures seen { AreSightings seat.new.me.0 seen.new.items }
    ensures steps { (ms : List Move) × Went seat.old.me.0 (ms ++ seat.old.me.0.mine) seat.new.me.0
        × ScansInTurn reader (reader + 1) ms
        × MatchBool result (Cleared (reader + 1) slot (ms ++ seat.old.me.0.mine))
        (FoundInside (reader + 1) ms
        × (Cleared (reader + 1) slot (ms ++ seat.old.me.0.mine) → ⊥)) }
{
    let shape = table.shape();
    if seen[reader * MAX_TABLE_SLOTS + slot] {
        return true;
    }
    if table.scan(seat, reader) != 0 {
        return false;
    }
    note(seen, shape.slots, reader);
    true
}

/// Whether each reader was seen outside a section since the slot's header changed last. Those that were not are looked at
/// now.
pub(crate) fn each_was_outside(
    table: &ReadTable,
    seat: &mut Seat<u8, View>,
    seen: &mut Vec<bool>,
    slot: usize,
) -> bool
    requires table { (seat.old.table_id ≡ table.now.id) × (seat.old.me.0.shape ≡ table.now.shape) }
    requires writer { seat.old.me.0.me ≡ 0 }
    requires known { IsKnown seat.old.me.0 }
    requires seen { AreSightings seat.old.me.0 seen.old.items }
    requires slot { slot < table.now.shape.slots }
    ensures table { seat.new.table_id ≡ seat.old.table_id }
    ensures held { seat.new.me.1 ≡ seat.old.me.1 }
    ensures seen { AreSightings seat.new.me.0 seen.new.items }
    ensures steps { (ms : List Move) × Went seat.old.me.0 (ms ++ seat.old.me.0.mine) seat.new.me.0
        × ScansInTurn 0 table.now.shape.readers ms
        × Tells table.now.shape.readers slot ms (ms ++ seat.old.me.0.mine) result }
{
    let mut each = true;
    for reader in 0..table.shape().readers {
        let outside = was_outside(table, seat, seen, slot, reader);
        each = each && outside;
    }
    each
}

/// The place of a slot in a list.
fn position_of(list: &[usize], slot: usize) -> usize
    requires { Contains list.now slot }
    ensures within { result < length list.now }
    ensures found { slice_index list.now result ≡ slot }
{
    for at in 0..list.len() {
        if list[at] == slot {
            return at;
        }
    }
    unreachable!()
}

/// Takes a slot out of a list. The others keep their order.
pub(crate) fn take_out(list: &mut Vec<usize>, slot: usize)
    requires { Contains list.old.items slot }
    ensures leaves { Leaves slot list.old.items list.new.items }
    ensures capacity { vec_capacity list.new ≡ vec_capacity list.old }
{
    let at = position_of(list.as_slice(), slot);
    list.remove(at);
}

/// How far a slot lies behind a home, where the first slot comes behind the last.
fn distance(slot: usize, home: usize, slots: usize) -> usize
    requires { (slot < slots) × (home < slots) × (slots ≤ most_table_slots) }
    ensures { result < slots }
{
    if home <= slot {
        slot - home
    } else {
        slot + slots - home
    }
}

/// The place of the free slot that lies nearest at or behind the home.
fn nearest(free: &[usize], home: usize, slots: usize) -> usize
    requires some { 0 < length free.now }
    requires within { All (λ slot. slot < slots) free.now }
    requires home { (home < slots) × (slots ≤ most_table_slots) }
    ensures { result < length free.now }
{
    let mut best = 0;
    let mut least = slots;
    for at in 0..free.len() {
        let far = distance(free[at], home, slots);
        if far < least {
            best = at;
            least = far;
        }
    }
    best
}

/// Takes out the free slot that lies nearest at or behind the home. The others keep their order.
pub(crate) fn take_nearest(free: &mut Vec<usize>, home: usize, slots: usize) -> usize
    requires some { 0 < length free.old.items }
    requires within { All (λ slot. slot < slots) free.old.items }
    requires home { (home < slots) × (slots ≤ most_table_slots) }
    ensures leaves { Leaves result free.old.items free.new.items }
    ensures capacity { vec_capacity free.new ≡ vec_capacity free.old }
{
    let at = nearest(free.as_slice(), home, slots);
    free.remove(at)
}
