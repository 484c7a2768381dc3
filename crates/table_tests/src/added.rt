//! Counters of one value, to which all readers add.
ghost use Rattle.std.specs.Prelude.{◌≡◌, All};
ghost use Rattle.map_table.specs.Held.{IsReady};

use map_table::{MAX_READERS, MapTable, ReadSeat, Secret, TableShape, Values, Writer};
use std::alloc::{AllocError, Global};
use std::test::Fail;
use std::thread::{Threads, for_each_mut};

/// A table for eight keys and eight readers, who share the value under a key.
const SHARED: TableShape = TableShape {
    readers: 8,
    buckets: 2,
    elements: 8,
    key_words: 1,
    value_words: 1,
    values: Values::Shared,
    secret: Secret {
        first: 0x1234_5678_9abc_def0,
        second: 0x0fed_cba9_8765_4321,
    },
};

/// How often each reader adds.
const TIMES: u32 = 100_000;

/// Adds 3 to the value under the key 7, in a section of its own.
fn add_once(table: &MapTable, seat: &mut ReadSeat)
    requires ready { IsReady table.now seat.old }
    requires shape { table.now.shape ≡ SHARED }
    ensures ready { IsReady table.now seat.new }
{
    table.open(seat);
    if let Some(element) = table.lookup(seat, &[7]) {
        table.add(seat, element, 1, 3);
    }
    table.close(seat);
}

/// Does it again and again.
fn add_often(table: &MapTable, seat: &mut ReadSeat)
    requires ready { IsReady table.now seat.old }
    requires shape { table.now.shape ≡ SHARED }
    ensures ready { IsReady table.now seat.new }
{
    for _ in 0..TIMES {
        add_once(table, seat);
    }
}

/// All readers do so at once, each in a thread of its own.
fn add_all<R: Threads + Sync>(rt: &R, table: &MapTable, seats: &mut [ReadSeat])
    requires ready { All (IsReady table.now) seats.old }
    requires shape { table.now.shape ≡ SHARED }
{
    for_each_mut(
        rt,
        seats,
        MAX_READERS,
        &|_, seat: &mut ReadSeat| add_often(table, seat),
    );
}

/// What they make of a value that was 5.
fn add_to_five<R: Threads + Sync>(
    rt: &R,
    table: &MapTable,
    seats: &mut [ReadSeat],
    writer: &mut Writer,
) -> Option<u64>
    requires ready { All (IsReady table.now) seats.old }
    requires table { writer.old.table ≡ table.now }
    requires shape { table.now.shape ≡ SHARED }
{
    let way = writer.link(table, &[7], &[5])?;
    add_all(rt, table, seats);
    let element = writer.element_at(way)?;
    Some(writer.sum(table, element, 0))
}

/// The same in a new table.
fn add_in_new<R: Threads + Sync>(rt: &R, alloc: Global) -> Result<Option<u64>, AllocError> {
    let (table, mut seats, mut writer) = MapTable::new(alloc, SHARED)?;
    Ok(add_to_five(rt, &table, &mut seats.list, &mut writer))
}

/// Eight readers add 3 to one word at once, a hundred thousand times each, and none of it is lost.
#[test]
fn no_added_amount_is_lost(rt: HostRuntime) -> Result<(), Fail> {
    let sum = add_in_new(&rt, rt.alloc())?;
    assert!(rt; sum == Some(2_400_005));
    Ok(())
}
