//! Tables so full that elements move to other buckets.
ghost use Rattle.std.specs.Prelude.{◌≡◌};
ghost use Rattle.map_table.specs.Held.{IsReady};
ghost use Rattle.map_table.specs.Values.{stored_of};

use map_table::{MapTable, ReadSeat, Room, Secret, TableShape, Values, Writer};
use std::test::Fail;

/// A table of 81,920 ways.
const FULL: TableShape = TableShape {
    readers: 2,
    buckets: 10_240,
    elements: 73_728,
    key_words: 1,
    value_words: 1,
    values: Values::Shared,
    secret: Secret {
        first: 0x1234_5678_9abc_def0,
        second: 0x0fed_cba9_8765_4321,
    },
};

/// How many keys are linked there: four fifths of its ways are full then.
const KEYS: u64 = 65_536;

/// A table of 512 ways.
const SMALL: TableShape = TableShape {
    buckets: 64,
    elements: 512,
    ..FULL
};

/// A table of two buckets, with an element more than ways.
const PAIR: TableShape = TableShape {
    buckets: 2,
    elements: 17,
    ..FULL
};

/// Links a key with its complement as its value, after it made room where there was none. How many calls made room.
fn link_in_room(table: &MapTable, writer: &mut Writer, number: u64) -> Option<u64>
    requires table { writer.old.table ≡ table.now }
    requires key { table.now.shape.key_words ≡ 1 }
    requires value { stored_of table.now.shape ≡ 1 }
    ensures table { writer.new.table ≡ table.now }
{
    if writer.link(table, &[number], &[!number]).is_some() {
        return Some(0);
    }
    if writer.make_room(table, &[number]) != Room::Made {
        return None;
    }
    writer.link(table, &[number], &[!number])?;
    Some(1)
}

/// Links all keys so.
fn link_all(table: &MapTable, writer: &mut Writer) -> Option<u64>
    requires table { writer.old.table ≡ table.now }
    requires key { table.now.shape.key_words ≡ 1 }
    requires value { stored_of table.now.shape ≡ 1 }
    ensures table { writer.new.table ≡ table.now }
{
    let mut moves = 0u64;
    for number in 0..KEYS {
        moves = moves.saturating_add(link_in_room(table, writer, number)?);
    }
    Some(moves)
}

/// The value that the writer finds under a key.
fn find(table: &MapTable, writer: &mut Writer, number: u64) -> Option<u64>
    requires table { writer.old.table ≡ table.now }
    requires key { table.now.shape.key_words ≡ 1 }
    requires value { stored_of table.now.shape ≡ 1 }
    ensures table { writer.new.table ≡ table.now }
{
    let way = writer.find(table, &[number])?;
    let mut words = [0];
    writer.value_at(table, way, &mut words);
    Some(words[0])
}

/// The value that a reader finds under a key, in a section of its own.
fn look_up(table: &MapTable, seat: &mut ReadSeat, number: u64) -> Option<u64>
    requires ready { IsReady table.now seat.old }
    requires key { table.now.shape.key_words ≡ 1 }
    requires value { stored_of table.now.shape ≡ 1 }
    ensures ready { IsReady table.now seat.new }
{
    table.open(seat);
    let mut found = None;
    if let Some(element) = table.lookup(seat, &[number]) {
        found = Some(table.load(seat, element, 1));
    }
    table.close(seat);
    found
}

/// How many keys the writer and a reader find with their own values.
fn count_found(table: &MapTable, seat: &mut ReadSeat, writer: &mut Writer) -> u64
    requires ready { IsReady table.now seat.old }
    requires table { writer.old.table ≡ table.now }
    requires key { table.now.shape.key_words ≡ 1 }
    requires value { stored_of table.now.shape ≡ 1 }
{
    let mut found = 0u64;
    for number in 0..KEYS {
        let both = [find(table, writer, number), look_up(table, seat, number)];
        if both == [Some(!number); 2] {
            found = found.saturating_add(1);
        }
    }
    found
}

/// A table whose ways are full by four fifths takes each key, since elements move, and each is found with its own value.
#[test]
fn full_table_takes_each_key(rt: HostRuntime) -> Result<(), Fail> {
    let (table, mut seats, mut writer) = MapTable::new(rt.alloc(), FULL)?;
    let Some(seat) = seats.list.first_mut() else {
        return Err(Fail::from("no seat"));
    };
    let moves = link_all(&table, &mut writer);
    assert!(rt; moves > Some(0));
    assert!(rt; count_found(&table, seat, &mut writer) == KEYS);
    Ok(())
}

/// Links the keys from 0 up, and tells the first for which there is no room.
fn fill(table: &MapTable, writer: &mut Writer) -> Option<u64>
    requires table { writer.old.table ≡ table.now }
    requires shape { table.now.shape ≡ SMALL }
    ensures table { writer.new.table ≡ table.now }
{
    for number in 0..512 {
        if writer.link(table, &[number], &[!number]).is_none() {
            return Some(number);
        }
    }
    None
}

/// The way in which each key is linked.
fn ways_of_all(table: &MapTable, writer: &mut Writer) -> [Option<usize>; 512]
    requires table { writer.old.table ≡ table.now }
    requires shape { table.now.shape ≡ SMALL }
    ensures table { writer.new.table ≡ table.now }
{
    let mut ways = [None; 512];
    for number in 0..512 {
        ways[number] = writer.find(table, &[number as u64]);
    }
    ways
}

/// How many keys are linked in another way than before.
fn count_moved(before: &[Option<usize>; 512], after: &[Option<usize>; 512]) -> usize {
    let mut moved = 0usize;
    for number in 0..512 {
        if before[number] != after[number] {
            moved = moved.saturating_add(1);
        }
    }
    moved
}

/// Fills a table, and makes room for one key more, beside a reader that stays in its section and after it left that: what the
/// calls answer, and how many keys stand elsewhere behind each.
fn make_room_beside(
    table: &MapTable,
    seat: &mut ReadSeat,
    writer: &mut Writer,
) -> Option<([Room; 2], [usize; 2])>
    requires ready { IsReady table.now seat.old }
    requires table { writer.old.table ≡ table.now }
    requires shape { table.now.shape ≡ SMALL }
{
    let key = fill(table, writer)?;
    let before = ways_of_all(table, writer);
    table.open(seat);
    let early = writer.make_room(table, &[key]);
    let beside = ways_of_all(table, writer);
    table.close(seat);
    let late = writer.make_room(table, &[key]);
    let after = ways_of_all(table, writer);
    let moved = [count_moved(&before, &beside), count_moved(&before, &after)];
    Some(([early, late], moved))
}

/// A reader that stays in its section holds an element where it stands. Once it left that, one element moves, and no more.
#[test]
fn reader_inside_holds_elements(rt: HostRuntime) -> Result<(), Fail> {
    let (table, mut seats, mut writer) = MapTable::new(rt.alloc(), SMALL)?;
    let Some(seat) = seats.list.first_mut() else {
        return Err(Fail::from("no seat"));
    };
    let rooms = make_room_beside(&table, seat, &mut writer);
    assert!(rt; rooms == Some(([Room::Held, Room::Made], [0, 1])));
    Ok(())
}

/// Makes room in an empty table, and after a hundred keys were linked as long as there was room: what the calls answer, and how
/// many elements are linked.
fn make_room_in_pair(table: &MapTable, writer: &mut Writer) -> ([Room; 2], usize)
    requires table { writer.old.table ≡ table.now }
    requires shape { table.now.shape ≡ PAIR }
{
    let empty = writer.make_room(table, &[100]);
    for number in 0..100 {
        writer.link(table, &[number], &[0]);
    }
    let full = writer.make_room(table, &[100]);
    ([empty, full], writer.count_linked(table))
}

/// Where all ways are full there is nowhere to go.
#[test]
fn full_buckets_have_no_room(rt: HostRuntime) -> Result<(), Fail> {
    let (table, _, mut writer) = MapTable::new(rt.alloc(), PAIR)?;
    let rooms = make_room_in_pair(&table, &mut writer);
    assert!(rt; rooms == ([Room::Made, Room::Full], 16));
    Ok(())
}
