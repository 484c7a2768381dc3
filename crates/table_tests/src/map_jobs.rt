//! Jobs that the seats of a `MapTable` serve.
ghost use Rattle.std.specs.Prelude.{◌≡◌, ◌≤◌, All, IfOk, vec_len};
ghost use Rattle.map_table.specs.Held.{IsReady};
ghost use Rattle.shared_runs.specs.MapRuns.{ServesMaps};

use crate::jobs::{End, Kind, counts, jobs_of};
use crate::making::{LOAD_BYTE, LOOKUP_AND_LOAD, LOOKUP_AND_STORE_BYTE, verified};
use map_table::{MapTable, ReadSeat, Secret, TableShape, Values};
use shared_runs::maps::{MapRuns, fits};
use std::alloc::Global;
use std::sync::Wait;
use std::test::Fail;
use std::thread::Threads;
use verifier::Verified;
use worker_pool::{Job, PoolFault, Report, run_table_jobs};

/// A table of keys and values of a word, for as many readers as there may be.
const SHAPE: TableShape = TableShape {
    readers: 64,
    buckets: 2,
    elements: 8,
    key_words: 1,
    value_words: 1,
    values: Values::Shared,
    secret: Secret {
        first: 0x1234_5678_9abc_def0,
        second: 0x0fed_cba9_8765_4321,
    },
};

/// A lookup and a load of a byte find the value; a store of a byte, a context that is too long and a program that there is
/// not are stopped.
const KINDS: &[Kind] = &[
    (0, 0, End::Exit(5)),
    (1, 1, End::Exit(5)),
    (2, 0, End::SubWord),
    (0, 1, End::BadContext),
    (3, 0, End::NoProgram),
];

/// A program of the table's lengths, verified for a context of so many bytes.
pub fn fitting(
    alloc: Global,
    table: &MapTable,
    text: &str,
    ctx_len: usize,
) -> Result<Verified, Fail>
    requires { ctx_len ≤ 1 }
    ensures { IfOk result (λ v. ServesMaps table.now.shape v.shapes) }
{
    let program = verified(alloc, text, ctx_len)?;
    if !fits(table, &program) {
        return Err(Fail::from("the program is for other lengths"));
    }
    Ok(program)
}

/// A lookup for an empty context, a load of a byte for a context of one, and a store of a byte for an empty one.
fn three_programs(alloc: Global, table: &MapTable) -> Result<[Verified; 3], Fail>
    ensures { IfOk result (λ programs. All (λ v. ServesMaps table.now.shape v.shapes) programs) }
{
    let lookup = fitting(alloc, table, LOOKUP_AND_LOAD, 0)?;
    let load = fitting(alloc, table, LOAD_BYTE, 1)?;
    let store = fitting(alloc, table, LOOKUP_AND_STORE_BYTE, 0)?;
    Ok([lookup, load, store])
}

/// What comes of jobs that the seats of a table serve, each in a thread of its own.
fn serve<R: Threads + Wait + Sync>(
    rt: &R,
    alloc: Global,
    table: &MapTable,
    seats: &mut Vec<ReadSeat>,
    jobs: &[Job],
) -> Result<Result<Report<()>, PoolFault>, Fail>
    requires all { vec_len seats.old ≡ 64 }
    requires ready { All (IsReady table.now) seats.old.items }
{
    let programs = three_programs(alloc, table)?;
    let runs = MapRuns { table };
    Ok(run_table_jobs(rt, alloc, &programs, jobs, &runs, seats))
}

/// The same of a new table, in which the key of zeros has the value 5.
fn serve_from_new<R: Threads + Wait + Sync>(
    rt: &R,
    alloc: Global,
    jobs: &[Job],
) -> Result<Result<Report<()>, PoolFault>, Fail> {
    let (table, mut seats, mut writer) = MapTable::new(alloc, SHAPE)?;
    let _ = writer.link(&table, &[0], &[5]);
    serve(rt, alloc, &table, &mut seats.list, jobs)
}

#[test]
fn each_job_over_a_map_table_has_its_outcome(rt: HostRuntime) -> Result<(), Fail> {
    let jobs = jobs_of(rt.alloc(), KINDS, 1000)?;
    let served = serve_from_new(&rt, rt.alloc(), &jobs)?;
    assert!(rt; counts(served, KINDS) == Ok([1000, 0]));
    Ok(())
}
