//! Lookups of keys that the writer links and replaces.
ghost use Rattle.std.specs.Prelude.{◌≡◌, All, IfSome, length};
ghost use Rattle.table_words.specs.History.{inside};
ghost use Rattle.map_table.specs.Held.{IsKnown, IsReady};
ghost use Rattle.map_table.specs.Values.{stored_of};

use map_table::{MapTable, ReadSeat, Secret, TableShape, Values, Writer};
use std::test::Fail;

/// A table for 1,024 keys of two words and values of one, with twice as many ways.
const SHAPE: TableShape = TableShape {
    readers: 2,
    buckets: 256,
    elements: 1024,
    key_words: 2,
    value_words: 1,
    values: Values::Shared,
    secret: Secret {
        first: 0x1234_5678_9abc_def0,
        second: 0x0fed_cba9_8765_4321,
    },
};

/// The word of the value that a lookup finds, in the section that is open.
fn find(table: &MapTable, seat: &mut ReadSeat, number: u64) -> Option<u64>
    requires table { seat.old.table ≡ table.now }
    requires inside { inside seat.old.view.mine ≡ 1 }
    requires known { IsKnown seat.old.view }
    requires key { table.now.shape.key_words ≡ 2 }
    requires value { stored_of table.now.shape ≡ 1 }
    ensures table { seat.new.table ≡ table.now }
    ensures inside { inside seat.new.view.mine ≡ 1 }
{
    let element = table.lookup(seat, &[number, 7])?;
    Some(table.load(seat, element, 2))
}

/// The same, in a section of its own.
fn look_up(table: &MapTable, seat: &mut ReadSeat, number: u64) -> Option<u64>
    requires ready { IsReady table.now seat.old }
    requires key { table.now.shape.key_words ≡ 2 }
    requires value { stored_of table.now.shape ≡ 1 }
    ensures ready { IsReady table.now seat.new }
{
    table.open(seat);
    let word = find(table, seat, number);
    table.close(seat);
    word
}

/// Links the keys from 0 up to 2,000 at most, as long as there is room, each with its number as its value, and tells how
/// many.
fn link_all(table: &MapTable, writer: &mut Writer) -> u64
    requires table { writer.old.table ≡ table.now }
    requires key { table.now.shape.key_words ≡ 2 }
    requires value { stored_of table.now.shape ≡ 1 }
    ensures table { writer.new.table ≡ table.now }
{
    for number in 0..2000 {
        if writer.link(table, &[number, 7], &[number]).is_none() {
            return number;
        }
    }
    2000
}

/// How many keys below 2,000 are found with their numbers.
fn count_found(table: &MapTable, seat: &mut ReadSeat) -> u64
    requires ready { IsReady table.now seat.old }
    requires key { table.now.shape.key_words ≡ 2 }
    requires value { stored_of table.now.shape ≡ 1 }
    ensures ready { IsReady table.now seat.new }
{
    let mut found = 0u64;
    for number in 0..2000 {
        if look_up(table, seat, number) == Some(number) {
            found = found.saturating_add(1);
        }
    }
    found
}

/// How many keys are found in a new table, how many there is room for, and how many are found then.
fn counts(table: &MapTable, seats: &mut [ReadSeat], writer: &mut Writer) -> Option<[u64; 3]>
    requires ready { All (IsReady table.now) seats.old }
    requires table { writer.old.table ≡ table.now }
    requires shape { table.now.shape ≡ SHAPE }
{
    let [seat, ..] = seats else {
        return None;
    };
    let before = count_found(table, seat);
    let linked = link_all(table, writer);
    Some([before, linked, count_found(table, seat)])
}

/// A table takes as many keys as it was made for, and each is found with its own value.
#[test]
fn each_key_is_found(rt: HostRuntime) -> Result<(), Fail> {
    let (table, mut seats, mut writer) = MapTable::new(rt.alloc(), SHAPE)?;
    assert!(rt; seats.count() == 2);
    let counts = counts(&table, &mut seats.list, &mut writer);
    assert!(rt; counts == Some([0, 1024, 1024]));
    Ok(())
}

/// Links a key and replaces its value: what a lookup finds after the one and after the other.
fn link_and_replace(
    table: &MapTable,
    seat: &mut ReadSeat,
    writer: &mut Writer,
) -> Option<[Option<u64>; 2]>
    requires ready { IsReady table.now seat.old }
    requires table { writer.old.table ≡ table.now }
    requires shape { table.now.shape ≡ SHAPE }
    ensures ready { IsReady table.now seat.new }
    ensures table { writer.new.table ≡ table.now }
{
    let way = writer.link(table, &[5, 7], &[50])?;
    let linked = look_up(table, seat, 5);
    if !writer.replace(table, way, &[5, 7], &[51]) {
        return None;
    }
    Some([linked, look_up(table, seat, 5)])
}

/// How many elements are reclaimed while the first reader alone is inside a section, and how many stay unlinked.
fn reclaim_beside(table: &MapTable, first: &mut ReadSeat, writer: &mut Writer) -> [usize; 2]
    requires ready { IsReady table.now first.old }
    requires table { writer.old.table ≡ table.now }
    ensures ready { IsReady table.now first.new }
{
    table.open(first);
    let late = writer.reclaim(table);
    table.close(first);
    [late, writer.unlinked().len()]
}

/// Replaces the value of a key that was just linked, while the second reader is inside a section, and has its first element
/// back after each reader was seen outside, though they take turns inside. What the lookups find: after the link, after
/// the replacement, and at the end; and how many elements are unlinked and reclaimed: first, then, and at the end.
fn replace_beside(
    table: &MapTable,
    seats: &mut [ReadSeat],
    writer: &mut Writer,
) -> Option<([Option<u64>; 3], [usize; 4])>
    requires ready { All (IsReady table.now) seats.old }
    requires table { writer.old.table ≡ table.now }
    requires shape { table.now.shape ≡ SHAPE }
{
    let (first, second) = two_seats(table, seats)?;
    table.open(second);
    let [linked, replaced] = link_and_replace(table, first, writer)?;
    let (waiting, early) = (writer.unlinked().len(), writer.reclaim(table));
    table.close(second);
    let [late, left] = reclaim_beside(table, first, writer);
    let last = look_up(table, first, 5);
    Some(([linked, replaced, last], [waiting, early, late, left]))
}

/// Replaces the value of a key beside a reader, and reclaims twice in its section and once in its next one: how many
/// elements each call frees.
fn reclaim_over_sections(
    table: &MapTable,
    reader: &mut ReadSeat,
    writer: &mut Writer,
) -> Option<[usize; 3]>
    requires table { writer.old.table ≡ table.now }
    requires shape { table.now.shape ≡ SHAPE }
    requires reader { IsReady table.now reader.old }
{
    table.open(reader);
    let way = writer.link(table, &[5, 7], &[50])?;
    if !writer.replace(table, way, &[5, 7], &[51]) {
        return None;
    }
    let (first, second) = (writer.reclaim(table), writer.reclaim(table));
    table.close(reader);
    table.open(reader);
    let third = writer.reclaim(table);
    table.close(reader);
    Some([first, second, third])
}

/// A reader that begins its next section between two looks holds up nothing, though each look finds it inside.
#[test]
fn next_section_frees(rt: HostRuntime) -> Result<(), Fail> {
    let (table, mut seats, mut writer) = MapTable::new(rt.alloc(), SHAPE)?;
    let Some(reader) = seats.list.first_mut() else {
        return Err(Fail::from("no seat"));
    };
    let freed = reclaim_over_sections(&table, reader, &mut writer);
    assert!(rt; freed == Some([0, 0, 1]));
    Ok(())
}

/// A replaced value is found, and its element is free once no reader is inside.
#[test]
fn replaced_value_is_found(rt: HostRuntime) -> Result<(), Fail> {
    let (table, mut seats, mut writer) = MapTable::new(rt.alloc(), SHAPE)?;
    let replaced = replace_beside(&table, &mut seats.list, &mut writer);
    assert!(rt; replaced == Some(([Some(50), Some(51), Some(51)], [1, 0, 1, 0])));
    Ok(())
}

/// Links a key that is not there. Whether it is then found where it was linked, and no other key is.
fn is_found_alone(table: &MapTable, writer: &mut Writer) -> bool
    requires table { writer.old.table ≡ table.now }
    requires shape { table.now.shape ≡ SHAPE }
    ensures table { writer.new.table ≡ table.now }
{
    let before = writer.find(table, &[5, 7]);
    let linked = writer.link(table, &[5, 7], &[50]);
    let found = writer.find(table, &[5, 7]);
    let other = writer.find(table, &[6, 7]);
    linked.is_some() && [before, found, other] == [None, linked, None]
}

/// Finds the way of a key by the key alone, and unlinks it: its element.
pub fn unlink_found(table: &MapTable, writer: &mut Writer, key: &[u64]) -> Option<usize>
    requires table { writer.old.table ≡ table.now }
    requires key { length key.now ≡ table.now.shape.key_words }
    ensures table { writer.new.table ≡ table.now }
{
    let way = writer.find(table, key)?;
    let element = writer.element_at(way);
    writer.unlink(table, way);
    element
}

/// Unlinks the one key that is linked. Whether its element is then unlinked, and all others are free.
fn is_unlinked(table: &MapTable, writer: &mut Writer) -> bool
    requires table { writer.old.table ≡ table.now }
    requires shape { table.now.shape ≡ SHAPE }
{
    let before = writer.count_linked(table);
    let element = unlink_found(table, writer, &[5, 7]);
    let after = writer.find(table, &[5, 7]);
    let counts = [before, writer.count_linked(table), writer.free().len()];
    [element, after] == [Some(1023), None]
        && counts == [1, 0, 1023]
        && writer.unlinked() == &[1023][..]
}

/// The writer finds a key that is linked, and no other.
#[test]
fn key_is_found_and_unlinked(rt: HostRuntime) -> Result<(), Fail> {
    let (table, _, mut writer) = MapTable::new(rt.alloc(), SHAPE)?;
    assert!(rt; is_found_alone(&table, &mut writer) && is_unlinked(&table, &mut writer));
    Ok(())
}

/// The first two seats.
pub fn two_seats<'a>(
    table: &MapTable,
    list: &'a mut [ReadSeat],
) -> Option<(&'a mut ReadSeat, &'a mut ReadSeat)>
    requires { All (IsReady table.now) list.old }
    ensures { IfSome result (λ p. IsReady table.now p.0.now × IsReady table.now p.1.now) }
{
    let _ = table;
    let [first, second, ..] = list else {
        return None;
    };
    Some((first, second))
}

/// Makes a seat, and tells whether its reader finds the one key that is linked, with its number, and no other.
fn finds_from_its_seat_on(table: &MapTable, writer: &mut Writer) -> bool
    requires table { writer.old.table ≡ table.now }
    requires shape { table.now.shape ≡ SHAPE }
    ensures table { writer.new.table ≡ table.now }
{
    let Some(mut seat) = writer.seat(table) else {
        return false;
    };
    let found = [look_up(table, &mut seat, 5), look_up(table, &mut seat, 6)];
    found == [Some(50), None]
}

/// How many seats there are to make.
fn seats_left(table: &MapTable, writer: &Writer) -> usize
    requires { writer.now.table ≡ table.now }
{
    writer.count_seats(table)
}

/// Of a table without seats each reader's is made once, finds what was linked before, and then there is none.
fn makes_each_seat(table: &MapTable, writer: &mut Writer) -> Option<[usize; 3]>
    requires table { writer.old.table ≡ table.now }
    requires shape { table.now.shape ≡ SHAPE }
{
    let before = seats_left(table, writer);
    writer.link(table, &[5, 7], &[50])?;
    if !finds_from_its_seat_on(table, writer) {
        return None;
    }
    let between = seats_left(table, writer);
    if !finds_from_its_seat_on(table, writer) || writer.seat(table).is_some() {
        return None;
    }
    Some([before, between, seats_left(table, writer)])
}

/// A table's seats are made later than the table and what is linked in it.
#[test]
fn seats_are_made_later(rt: HostRuntime) -> Result<(), Fail> {
    let (table, mut writer) = MapTable::unseated(rt.alloc(), SHAPE)?;
    let left = makes_each_seat(&table, &mut writer);
    assert!(rt; left == Some([2, 1, 0]));
    Ok(())
}
