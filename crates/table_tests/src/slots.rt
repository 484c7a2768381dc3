//! Lookups of keys that the writer links and unlinks.
ghost use Rattle.std.specs.Prelude.{◌≡◌, All, IfSome};
ghost use Rattle.std.specs.List.{Contains};
ghost use Rattle.read_table.specs.History.{inside};
ghost use Rattle.read_table.specs.Held.{IsKnown, IsReady};

use crate::making::two_seats;
use read_table::{MAX_READERS, MAX_TABLE_SLOTS, ReadSeat, ReadTable, Writer};
use std::test::Fail;

/// A key of two words, of which the first is the same in all keys.
fn key(number: u8) -> [u8; 16] {
    [1, 2, 3, 4, 5, 6, 7, 8, number, 0, 0, 0, 0, 0, 0, 0]
}

/// The value of a key: a word with its number.
fn value(number: u8) -> [u8; 8] {
    [number, 0, 0, 0, 0, 0, 0, 0]
}

/// The word of the value that a lookup finds, in the section that is open.
fn find(table: &ReadTable, seat: &mut ReadSeat, number: u8) -> Option<u64>
    requires table { seat.old.table ≡ table.now }
    requires inside { inside seat.old.view.mine ≡ 1 }
    requires known { IsKnown seat.old.view }
    requires key { table.now.shape.key_words ≡ 2 }
    requires value { table.now.shape.value_words ≡ 1 }
    ensures table { seat.new.table ≡ table.now }
    ensures inside { inside seat.new.view.mine ≡ 1 }
{
    let slot = table.lookup(seat, &key(number))?;
    Some(table.load(seat, slot, 2))
}

/// The same, in a section of its own.
fn look_up(table: &ReadTable, seat: &mut ReadSeat, number: u8) -> Option<u64>
    requires ready { IsReady table.now seat.old }
    requires key { table.now.shape.key_words ≡ 2 }
    requires value { table.now.shape.value_words ≡ 1 }
    ensures ready { IsReady table.now seat.new }
{
    table.open(seat);
    let word = find(table, seat, number);
    table.close(seat);
    word
}

/// Links the keys from 0 up to 254 at most, as long as there are free slots, and tells how many.
fn link_all(table: &ReadTable, writer: &mut Writer) -> u8
    requires table { writer.old.table ≡ table.now }
    requires key { table.now.shape.key_words ≡ 2 }
    requires value { table.now.shape.value_words ≡ 1 }
    ensures table { writer.new.table ≡ table.now }
{
    for number in 0..255 {
        if writer.link(table, &key(number), &value(number)).is_none() {
            return number;
        }
    }
    255
}

/// How many keys are found with their values.
fn count_found(table: &ReadTable, seat: &mut ReadSeat) -> u32
    requires ready { IsReady table.now seat.old }
    requires key { table.now.shape.key_words ≡ 2 }
    requires value { table.now.shape.value_words ≡ 1 }
    ensures ready { IsReady table.now seat.new }
{
    let mut found = 0u32;
    for number in 0..=255 {
        if look_up(table, seat, number) == Some(u64::from(number)) {
            found = found.saturating_add(1);
        }
    }
    found
}

/// How many keys are found in a new table, how many there is room for, and how many are found then.
fn counts(table: &ReadTable, seats: &mut [ReadSeat], writer: &mut Writer) -> Option<[u32; 3]>
    requires ready { All (IsReady table.now) seats.old }
    requires table { writer.old.table ≡ table.now }
    requires key { table.now.shape.key_words ≡ 2 }
    requires value { table.now.shape.value_words ≡ 1 }
{
    let [seat, ..] = seats else {
        return None;
    };
    let before = count_found(table, seat);
    let linked = link_all(table, writer);
    Some([before, u32::from(linked), count_found(table, seat)])
}

/// A table has as many slots as it was made with, and each of its keys is found with its own value.
#[test]
fn each_key_is_found(rt: HostRuntime) -> Result<(), Fail> {
    let (table, mut seats, mut writer) = ReadTable::new(rt.alloc(), 250, 16, 8, 8)?;
    assert!(rt; [MAX_TABLE_SLOTS, MAX_READERS, seats.count()] == [256, 8, 8]);
    let counts = counts(&table, &mut seats.list, &mut writer);
    assert!(rt; counts == Some([0, 250, 250]));
    Ok(())
}

/// Links the key 2, and then the key 1: where they are, if there is room.
fn link_two(table: &ReadTable, writer: &mut Writer) -> Option<(usize, usize)>
    requires table { writer.old.table ≡ table.now }
    requires key { table.now.shape.key_words ≡ 2 }
    requires value { table.now.shape.value_words ≡ 1 }
    ensures table { writer.new.table ≡ table.now }
    ensures linked { IfSome result (λ p. Contains writer.new.linked p.1) }
{
    let other = writer.link(table, &key(2), &value(2))?;
    let slot = writer.link(table, &key(1), &value(1))?;
    Some((other, slot))
}

/// Unlinks one of two keys while the second reader is inside a section, and links a third when it is outside. What
/// lookups find: of the one and the other key then, and of the third at the end; and where the third key was linked, while
/// no slot was free and then. None where the slot is reclaimed while the reader is inside, or not when it is outside.
fn unlink_beside(
    table: &ReadTable,
    first: &mut ReadSeat,
    second: &mut ReadSeat,
    writer: &mut Writer,
    slot: usize,
) -> Option<([Option<u64>; 3], [Option<usize>; 2])>
    requires table { writer.old.table ≡ table.now }
    requires key { table.now.shape.key_words ≡ 2 }
    requires value { table.now.shape.value_words ≡ 1 }
    requires linked { Contains writer.old.linked slot }
    requires first { IsReady table.now first.old }
    requires second { IsReady table.now second.old }
{
    table.open(second);
    writer.unlink(table, slot);
    let gone = look_up(table, first, 1);
    let other = look_up(table, first, 2);
    if writer.try_reclaim(table, slot) {
        return None;
    }
    let full = writer.link(table, &key(3), &value(3));
    table.close(second);
    if !writer.try_reclaim(table, slot) {
        return None;
    }
    let linked = writer.link(table, &key(3), &value(3));
    Some(([gone, other, look_up(table, first, 3)], [full, linked]))
}

/// A slot is taken again where each reader was seen outside once, though one or the other was inside at each look. Whether
/// it was so.
fn reclaim_in_turn(
    table: &ReadTable,
    first: &mut ReadSeat,
    second: &mut ReadSeat,
    writer: &mut Writer,
    slot: usize,
) -> bool
    requires table { writer.old.table ≡ table.now }
    requires linked { Contains writer.old.linked slot }
    requires first { IsReady table.now first.old }
    requires second { IsReady table.now second.old }
    ensures table { writer.new.table ≡ table.now }
{
    writer.unlink(table, slot);
    table.open(second);
    if writer.try_reclaim(table, slot) {
        return false;
    }
    table.close(second);
    table.open(first);
    let reclaimed = writer.try_reclaim(table, slot);
    table.close(first);
    reclaimed
}

/// Whether the writer finds the slots of its keys and no others, before and after one of two slots is taken again in turn.
fn are_seen_in_turn(table: &ReadTable, seats: &mut [ReadSeat], writer: &mut Writer) -> bool
    requires ready { All (IsReady table.now) seats.old }
    requires table { writer.old.table ≡ table.now }
    requires key { table.now.shape.key_words ≡ 2 }
    requires value { table.now.shape.value_words ≡ 1 }
{
    let Some((first, second)) = two_seats(table, seats) else {
        return false;
    };
    let Some((other, slot)) = link_two(table, writer) else {
        return false;
    };
    let before = (writer.find(table, &key(1)), writer.linked().len());
    let in_turn = reclaim_in_turn(table, first, second, writer, slot);
    let after = (writer.find(table, &key(1)), writer.linked().len());
    let stays = (writer.find(table, &key(2)), writer.unlinked().len());
    in_turn && [before, after, stays] == [(Some(slot), 2), (None, 1), (Some(other), 0)]
}

/// No reader has to be outside at the same time as another. The writer finds the slots of its keys, and no others.
#[test]
fn readers_are_seen_in_turn(rt: HostRuntime) -> Result<(), Fail> {
    let (table, mut seats, mut writer) = ReadTable::new(rt.alloc(), 3, 16, 8, 2)?;
    let in_turn = are_seen_in_turn(&table, &mut seats.list, &mut writer);
    assert!(rt; in_turn);
    Ok(())
}

/// Whether a slot that was unlinked is found no more, and is taken again once no reader is inside a section, and not before.
fn is_taken_again(table: &ReadTable, seats: &mut [ReadSeat], writer: &mut Writer) -> bool
    requires ready { All (IsReady table.now) seats.old }
    requires table { writer.old.table ≡ table.now }
    requires key { table.now.shape.key_words ≡ 2 }
    requires value { table.now.shape.value_words ≡ 1 }
{
    let Some((first, second)) = two_seats(table, seats) else {
        return false;
    };
    let Some((_, slot)) = link_two(table, writer) else {
        return false;
    };
    let end = unlink_beside(table, first, second, writer, slot);
    end == Some(([None, Some(2), Some(3)], [None, Some(slot)]))
}

#[test]
fn a_slot_is_taken_again(rt: HostRuntime) -> Result<(), Fail> {
    let (table, mut seats, mut writer) = ReadTable::new(rt.alloc(), 2, 16, 8, 2)?;
    let again = is_taken_again(&table, &mut seats.list, &mut writer);
    assert!(rt; again);
    Ok(())
}
