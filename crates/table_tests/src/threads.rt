//! Readers in threads, beside the writer.
ghost use Rattle.std.specs.Prelude.{◌≡◌, All};
ghost use Rattle.std.specs.List.{Contains};
ghost use Rattle.std.specs.Thread.{IsSync};
ghost use Rattle.read_table.specs.Held.{IsReady};

use crate::making::{LOOKUP_AND_LOAD, run, verified};
use read_table::{MAX_READERS, ReadSeat, ReadTable, Writer};
use std::alloc::{AllocError, Global};
use std::sync::atomic::{AtomicU64, Ordering};
use std::test::Fail;
use std::thread::{Threads, for_each_mut, join, yield_now};
use verifier::Verified;

/// How many runs each reader makes.
const RUNS: u32 = 10_000;

/// How often the writer links the key.
const ROUNDS: u32 = 20_000;

/// How often the writer tries to have a slot again, before it gives up.
const TRIES: u32 = 1_000_000;

/// Runs the program so often, and tells how many runs exited with the key's value or with 0.
fn count_right(table: &ReadTable, seat: &mut ReadSeat, program: &Verified) -> u64
    requires ready { IsReady table.now seat.old }
    ensures ready { IsReady table.now seat.new }
{
    let mut right = 0u64;
    for _ in 0..RUNS {
        let exit = run(table, seat, program);
        if exit == Some(Ok(5)) || exit == Some(Ok(0)) {
            right = right.saturating_add(1);
        }
    }
    right
}

/// All readers do so at once, each in a thread of its own, and add their counts up.
fn count_all<R: Threads + Sync>(
    rt: &R,
    table: &ReadTable,
    seats: &mut [ReadSeat],
    program: &Verified,
    right: &AtomicU64,
)
    requires ready { All (IsReady table.now) seats.old }
{
    for_each_mut(
        rt,
        seats,
        MAX_READERS,
        &|_, seat: &mut ReadSeat|
            requires { IsReady table.now seat.old }
        {
            right.fetch_add(count_right(table, seat, program), Ordering::SeqCst);
        },
    );
}

/// Tries to have an unlinked slot again. Whether it was got.
fn reclaim(table: &ReadTable, writer: &mut Writer, slot: usize) -> bool
    requires table { writer.old.table ≡ table.now }
    requires unlinked { Contains writer.old.unlinked slot }
    ensures table { writer.new.table ≡ table.now }
{
    for _ in 0..TRIES {
        if writer.try_reclaim(table, slot) {
            return true;
        }
        yield_now();
    }
    false
}

/// Links the key, unlinks it and has the slot again, so many times. How often it was linked.
fn churn(table: &ReadTable, writer: &mut Writer) -> u32
    requires table { writer.old.table ≡ table.now }
    requires key { table.now.shape.key_words ≡ 1 }
    requires value { table.now.shape.value_words ≡ 1 }
    ensures table { writer.new.table ≡ table.now }
{
    for round in 0..ROUNDS {
        let Some(slot) = writer.link(table, &[0; 8], &[5, 0, 0, 0, 0, 0, 0, 0]) else {
            return round;
        };
        writer.unlink(table, slot);
        if !reclaim(table, writer, slot) {
            return round;
        }
    }
    ROUNDS
}

/// The readers count in threads of their own, beside the writer. How often the writer linked the key.
fn read_beside<R: Threads + Sync>(
    rt: &R,
    table: &ReadTable,
    program: &Verified,
    seats: &mut [ReadSeat],
    writer: &mut Writer,
    right: &AtomicU64,
) -> u32
    requires ready { All (IsReady table.now) seats.old }
    requires writer { writer.old.table ≡ table.now }
    requires key { table.now.shape.key_words ≡ 1 }
    requires value { table.now.shape.value_words ≡ 1 }
{
    let (_, rounds) = join(
        rt,
        || -> ()
            requires { IsSync R.row × All (IsReady table.now) seats.now }
        { count_all(rt, table, seats, program, right) },
        || -> u32
            requires { (table.now.shape.key_words ≡ 1) × (table.now.shape.value_words ≡ 1)
                × (writer.now.table ≡ table.now) }
        { churn(table, writer) },
    );
    rounds
}

/// How often the writer of a new table linked the key, and how many of its readers' runs exited as they may.
fn read_in_new<R: Threads + Sync>(
    rt: &R,
    alloc: Global,
    program: &Verified,
) -> Result<(u32, u64), AllocError> {
    let (table, mut seats, mut writer) = ReadTable::new(alloc, 2, 8, 8, 8)?;
    let right = AtomicU64::new(0);
    let rounds = read_beside(rt, &table, program, &mut seats.list, &mut writer, &right);
    Ok((rounds, right.load(Ordering::SeqCst)))
}

/// Eight readers look a key up while it is linked and unlinked: each of their 10,000 runs exits with its value or with 0.
#[test]
fn readers_beside_the_writer(rt: HostRuntime) -> Result<(), Fail> {
    let program = verified(rt.alloc(), LOOKUP_AND_LOAD, 0)?;
    let counts = read_in_new(&rt, rt.alloc(), &program)?;
    assert!(rt; counts == (20_000, 80_000));
    Ok(())
}
