//! Readers in threads of their own, alone or beside the writer.
ghost use Rattle.std.specs.Prelude.{All};
ghost use Rattle.std.specs.Thread.{IsSync};

use crate::measured::Measured;
use crate::runner::{Runner, work_counted};
use crate::task::Deed;
use read_table::MAX_READERS;
use std::rt::Clock;
use std::sync::atomic::{AtomicBool, Ordering};
use std::thread::{Threads, for_each_mut, join};
use std::time::{CpuClock, Instant};

/// Each reader makes calls in a thread of its own until the round's time is over.
fn read_all<S: Measured, R: Threads + Clock + CpuClock + Sync>(
    rt: &R,
    start: Instant,
    table: &S,
    readers: &mut [Runner<S::Reader>],
    deed: Deed,
)
    requires set { S.IsSet table.now }
    requires readers { All (λ r. S.IsReader table.now r.reader) readers.old }
    ensures { All (λ r. S.IsReader table.now r.reader) readers.new }
{
    for_each_mut(
        rt,
        readers,
        MAX_READERS,
        &|_, runner: &mut Runner<S::Reader>| -> ()
            requires { S.IsSet table.now × S.IsReader table.now runner.old.reader }
            ensures { S.IsReader table.entry.now runner.new.reader }
        { work_counted(rt, start, table, runner, deed) },
    );
}

/// Changes the table again and again, until the readers are done. How often.
fn write_until<S: Measured>(table: &S, writer: &mut S::Writer, done: &AtomicBool) -> u64
    requires set { S.IsSet table.now }
    requires writer { S.IsWriter table.now writer.old }
    ensures { S.IsWriter table.now writer.new }
{
    for round in 0..u64::MAX {
        if !table.write(writer, done) || done.load(Ordering::SeqCst) {
            return round;
        }
    }
    u64::MAX
}

/// The readers make their calls, and say so when they are done.
fn read_and_say<S: Measured, R: Threads + Clock + CpuClock + Sync>(
    rt: &R,
    start: Instant,
    table: &S,
    readers: &mut [Runner<S::Reader>],
    deed: Deed,
    done: &AtomicBool,
)
    requires set { S.IsSet table.now }
    requires readers { All (λ r. S.IsReader table.now r.reader) readers.old }
    ensures { All (λ r. S.IsReader table.now r.reader) readers.new }
{
    read_all(rt, start, table, readers, deed);
    done.store(true, Ordering::SeqCst);
}

/// The readers make their calls beside the writer. How often the writer changed the table.
fn read_beside<S: Measured, R: Threads + Clock + CpuClock + Sync>(
    rt: &R,
    start: Instant,
    table: &S,
    readers: &mut [Runner<S::Reader>],
    writer: &mut S::Writer,
    deed: Deed,
) -> u64
    requires set { S.IsSet table.now }
    requires readers { All (λ r. S.IsReader table.now r.reader) readers.old }
    requires writer { S.IsWriter table.now writer.old }
{
    let done = AtomicBool::new(false);
    let (_, rounds) = join(
        rt,
        || -> ()
            requires { IsSync R.row × IsSync S.row × S.IsSet table.now × All (λ r. S.IsReader table.now r.reader) readers.now }
        { read_and_say(rt, start, table, readers, deed, &done) },
        || -> u64
            requires { IsSync S.row × S.IsSet table.now × S.IsWriter table.now writer.now }
        { write_until(table, writer, &done) },
    );
    rounds
}

/// Each reader makes calls in a thread of its own until the time of the round is over, which began at `start`, alone or beside the
/// writer. How often the writer changed the table.
pub fn go<S: Measured, R: Threads + Clock + CpuClock + Sync>(
    rt: &R,
    start: Instant,
    table: &S,
    readers: &mut [Runner<S::Reader>],
    writer: &mut S::Writer,
    deed: Deed,
    is_written: bool,
) -> u64
    requires set { S.IsSet table.now }
    requires readers { All (λ r. S.IsReader table.now r.reader) readers.old }
    requires writer { S.IsWriter table.now writer.old }
{
    if is_written {
        return read_beside(rt, start, table, readers, writer, deed);
    }
    read_all(rt, start, table, readers, deed);
    0
}
