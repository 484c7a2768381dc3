//! Counters: values of which each reader has its own.
ghost use Rattle.std.specs.Prelude.{◌≡◌, All};
ghost use Rattle.map_table.specs.Held.{IsReady};

use crate::map_table_runs::{COUNT, exit, run, verified};
use map_table::{MAX_READERS, MapTable, ReadSeat, Secret, TableShape, Values, Writer};
use std::alloc::{AllocError, Global};
use std::test::Fail;
use std::thread::{Threads, for_each_mut};
use verifier::Verified;

/// A table for eight keys and eight readers, each of which has a counter of its own under a key.
const COUNTERS: TableShape = TableShape {
    readers: 8,
    buckets: 2,
    elements: 8,
    key_words: 1,
    value_words: 1,
    values: Values::PerReader,
    secret: Secret {
        first: 0x1234_5678_9abc_def0,
        second: 0x0fed_cba9_8765_4321,
    },
};

/// How often each reader counts.
const RUNS: u32 = 1_000_000;

/// Runs the program so often on the key 7.
fn count_often(table: &MapTable, seat: &mut ReadSeat, program: &Verified)
    requires ready { IsReady table.now seat.old }
    ensures ready { IsReady table.now seat.new }
{
    for _ in 0..RUNS {
        run(table, seat, program, 7);
    }
}

/// All readers do so at once, each in a thread of its own.
fn count_all<R: Threads + Sync>(
    rt: &R,
    table: &MapTable,
    seats: &mut [ReadSeat],
    program: &Verified,
)
    requires ready { All (IsReady table.now) seats.old }
    ensures ready { All (IsReady table.now) seats.new }
{
    for_each_mut(
        rt,
        seats,
        MAX_READERS,
        &|_, seat: &mut ReadSeat| count_often(table, seat, program),
    );
}

/// The sum of the counters under a way's key.
fn sum_at(table: &MapTable, writer: &mut Writer, way: usize) -> Option<u64>
    requires table { writer.old.table ≡ table.now }
    requires shape { table.now.shape ≡ COUNTERS }
    ensures table { writer.new.table ≡ table.now }
{
    if way >= 16 {
        return None;
    }
    let element = writer.element_at(way)?;
    Some(writer.sum(table, element, 0))
}

/// All readers count at once under a key, and then the first once more: what its run finds, and the sum of all.
fn count_and_look<R: Threads + Sync>(
    rt: &R,
    table: &MapTable,
    seats: &mut [ReadSeat],
    writer: &mut Writer,
    program: &Verified,
) -> Option<[u64; 2]>
    requires ready { All (IsReady table.now) seats.old }
    requires table { writer.old.table ≡ table.now }
    requires shape { table.now.shape ≡ COUNTERS }
{
    let way = writer.link(table, &[7], &[0; 8])?;
    count_all(rt, table, seats, program);
    let [first, ..] = seats else {
        return None;
    };
    let own = exit(table, first, program, 7)?;
    Some([own, sum_at(table, writer, way)?])
}

/// The same in a new table.
fn count_in_new<R: Threads + Sync>(
    rt: &R,
    alloc: Global,
    program: &Verified,
) -> Result<Option<[u64; 2]>, AllocError> {
    let (table, mut seats, mut writer) = MapTable::new(alloc, COUNTERS)?;
    Ok(count_and_look(rt, &table, &mut seats.list, &mut writer, program))
}

/// Eight readers count at once, a million times each, and none of it is lost. A reader's runs find its own count alone.
#[test]
fn no_count_is_lost(rt: HostRuntime) -> Result<(), Fail> {
    let program = verified(rt.alloc(), COUNT)?;
    let counted = count_in_new(&rt, rt.alloc(), &program)?;
    assert!(rt; counted == Some([1_000_000, 8_000_001]));
    Ok(())
}
