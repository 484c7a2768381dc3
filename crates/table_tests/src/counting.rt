//! Jobs that count: each adds 1 to a value of which each reader has its own.
ghost use Rattle.std.specs.Prelude.{◌≡◌, ◌<◌, All, IfOk, length, vec_len};
ghost use Rattle.map_table.specs.Held.{IsReady};
ghost use Rattle.shared_runs.specs.Named.{ServesNamed};

use crate::jobs::{End, Kind, counts, jobs_of};
use crate::making::verified_with_two;
use crate::map_jobs::fitting;
use map_table::{MapTable, ReadSeat, Secret, TableShape, Values, Writer};
use shared_runs::maps::{MapRuns, NamedMap, NamedRuns, fits_named, key_in};
use std::alloc::Global;
use std::sync::Wait;
use std::test::Fail;
use std::thread::Threads;
use verifier::Verified;
use worker_pool::{Job, run_table_jobs};

/// A lookup of the key of eight zero bytes in the first map, which adds 1 to the value.
const COUNT: &str = "\
    b70600000000000085200000010000007a0af8ff00000000bfa200000000000007020000f8ffffff\
    18510000000000000000000000000000850000000100000015000300000000007901000000000000\
    07010000010000007b100000000000008520000002000000bf600000000000009500000000000000";

/// The same in the second map.
const COUNT_IN_SECOND: &str = "\
    b70600000000000085200000010000007a0af8ff00000000bfa200000000000007020000f8ffffff\
    18510000010000000000000000000000850000000100000015000300000000007901000000000000\
    07010000010000007b100000000000008520000002000000bf600000000000009500000000000000";

/// Jobs of one program, which exits with 0.
const ONE: &[Kind] = &[(0, 0, End::Exit(0))];

/// Of five jobs three of the first program, and two of the second.
const THREE_AND_TWO: &[Kind] = &[
    (0, 0, End::Exit(0)),
    (1, 0, End::Exit(0)),
    (0, 0, End::Exit(0)),
    (1, 0, End::Exit(0)),
    (0, 0, End::Exit(0)),
];

/// A table for four readers, each of which has a counter of its own under a key of two words.
const COUNTERS: TableShape = TableShape {
    readers: 4,
    buckets: 2,
    elements: 8,
    key_words: 2,
    value_words: 1,
    values: Values::PerReader,
    secret: Secret {
        first: 0x1234_5678_9abc_def0,
        second: 0x0fed_cba9_8765_4321,
    },
};

/// The same with keys of a word.
const OF_ONE: TableShape = TableShape {
    key_words: 1,
    ..COUNTERS
};

/// Two maps of the table.
const MAPS: [NamedMap; 2] = [
    NamedMap {
        name: 11,
        key_words: 1,
        value_words: 1,
    },
    NamedMap {
        name: 22,
        key_words: 1,
        value_words: 1,
    },
];

/// The sum of the counters under a key, if it is linked.
fn sum_under(table: &MapTable, writer: &mut Writer, key: &[u64]) -> Option<u64>
    requires table { writer.old.table ≡ table.now }
    requires key { length key.now ≡ table.now.shape.key_words }
    requires shape { 0 < table.now.shape.value_words }
    ensures table { writer.new.table ≡ table.now }
{
    let way = writer.find(table, key)?;
    let element = writer.element_at(way)?;
    Some(writer.sum(table, element, 0))
}

/// Whether the four seats of a table that is the map of their program serve a hundred jobs.
fn serve_one<R: Threads + Wait + Sync>(
    rt: &R,
    alloc: Global,
    table: &MapTable,
    seats: &mut Vec<ReadSeat>,
    jobs: &[Job],
) -> Result<bool, Fail>
    requires four { vec_len seats.old ≡ 4 }
    requires ready { All (IsReady table.now) seats.old.items }
{
    let programs = [fitting(alloc, table, COUNT, 0)?];
    let runs = MapRuns { table };
    let served = run_table_jobs(rt, alloc, &programs, jobs, &runs, seats);
    Ok(counts(served, ONE) == Ok([100, 0]))
}

/// The same of a new table, with the sum that was counted.
fn count_in_one<R: Threads + Wait + Sync>(
    rt: &R,
    alloc: Global,
    jobs: &[Job],
) -> Result<(bool, Option<u64>), Fail> {
    let (table, mut seats, mut writer) = MapTable::new(alloc, OF_ONE)?;
    let _ = writer.link(&table, &[0], &[0; 4]);
    let served = serve_one(rt, alloc, &table, &mut seats.list, jobs)?;
    Ok((served, sum_under(&table, &mut writer, &[0])))
}

/// Each job counts once, whichever seat serves it.
#[test]
fn each_job_counts_once(rt: HostRuntime) -> Result<(), Fail> {
    let jobs = jobs_of(rt.alloc(), ONE, 100)?;
    let counted = count_in_one(&rt, rt.alloc(), &jobs)?;
    assert!(rt; counted == (true, Some(100)));
    Ok(())
}

/// The program of this text against two maps that the table keeps so.
fn fitting_named(
    alloc: Global,
    table: &MapTable,
    maps: &[NamedMap],
    text: &str,
) -> Result<Verified, Fail>
    ensures { IfOk result (λ v. ServesNamed table.now.shape maps.now v.shapes) }
{
    let program = verified_with_two(alloc, text)?;
    if !fits_named(table, maps, &program) {
        return Err(Fail::from("the program is for other maps"));
    }
    Ok(program)
}

/// A program that counts in the first map, and one that counts in the second.
fn two_programs(alloc: Global, table: &MapTable, maps: &[NamedMap]) -> Result<[Verified; 2], Fail>
    ensures { IfOk result (λ programs. All (λ v. ServesNamed table.now.shape maps.now v.shapes) programs) }
{
    let first = fitting_named(alloc, table, maps, COUNT)?;
    let second = fitting_named(alloc, table, maps, COUNT_IN_SECOND)?;
    Ok([first, second])
}

/// The table's key for the word 0 of a map.
fn zero_in(map: &NamedMap) -> [u64; 2]
    requires { map.now.key_words ≡ 1 }
{
    let key = key_in(map, &[0]);
    [key[0], key[1]]
}

/// Whether the four seats of a table that keeps the two maps serve a hundred jobs.
fn serve_two<R: Threads + Wait + Sync>(
    rt: &R,
    alloc: Global,
    table: &MapTable,
    seats: &mut Vec<ReadSeat>,
    jobs: &[Job],
) -> Result<bool, Fail>
    requires four { vec_len seats.old ≡ 4 }
    requires ready { All (IsReady table.now) seats.old.items }
{
    let programs = two_programs(alloc, table, &MAPS)?;
    let runs = NamedRuns { table, maps: &MAPS };
    let served = run_table_jobs(rt, alloc, &programs, jobs, &runs, seats);
    Ok(counts(served, THREE_AND_TWO) == Ok([100, 0]))
}

/// The same of a new table, with the sums that were counted in the first map and in the second.
fn count_in_two<R: Threads + Wait + Sync>(
    rt: &R,
    alloc: Global,
    jobs: &[Job],
) -> Result<(bool, [Option<u64>; 2]), Fail> {
    let (table, mut seats, mut writer) = MapTable::new(alloc, COUNTERS)?;
    let (first, second) = (zero_in(&MAPS[0]), zero_in(&MAPS[1]));
    let _ = writer.link(&table, &first, &[0; 4]);
    let _ = writer.link(&table, &second, &[0; 4]);
    let served = serve_two(rt, alloc, &table, &mut seats.list, jobs)?;
    let sums = [
        sum_under(&table, &mut writer, &first),
        sum_under(&table, &mut writer, &second),
    ];
    Ok((served, sums))
}

/// Each job counts once, whichever seat serves it, in the map of its program.
#[test]
fn each_job_counts_in_its_map(rt: HostRuntime) -> Result<(), Fail> {
    let jobs = jobs_of(rt.alloc(), THREE_AND_TWO, 100)?;
    let counted = count_in_two(&rt, rt.alloc(), &jobs)?;
    assert!(rt; counted == (true, [Some(60), Some(40)]));
    Ok(())
}
