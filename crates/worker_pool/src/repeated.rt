//! One program, run many times over maps of its own.
ghost use Rattle.std.specs.Prelude.{◌≡◌, ◌⊎◌, ◌≤◌, ◌<◌, ◌+◌, ℕ, List, Option, Err, length, IfErr, OnOk};
ghost use Rattle.std.specs.Option.{ForSome};
ghost use Rattle.bpf_model.specs.View.{AreNewMaps, shapes_of_maps};
ghost use Rattle.job_queue.specs.declared.fault.PoolFault.TheVariants as faults;
ghost use Rattle.job_queue.specs.Serving.{most_jobs};
ghost use Rattle.shared_books.specs.Books.{most_workers};
ghost use Rattle.worker_pool.specs.Batches.{HasWritten, HasWrittenPart, IsAlike};
ghost use Rattle.worker_pool.specs.Outcomes.{contexts_of};
ghost use Rattle.worker_pool.specs.Runs.{IsLate, IsRunFaultOf, WritesJobs, WritesPart};

use crate::apart::copy_to_part;
use crate::batch::Batch;
use crate::fault::RunFault;
use crate::job::{Job, jobs_on};
use crate::printing::Printing;
use bpf_model::CtxBytes;
use job_queue::{MAX_JOBS, PoolFault};
use shared::{MAX_WORKERS, ProgramWithMaps, Shared, Workers};
use std::alloc::Global;
use std::io::Write;
use std::marker::Brand;
use std::sync::Wait;
use std::sync::atomic::{AtomicU64, Ordering};
use std::sync::ledger::{Blank, Ledger};
use std::thread::Threads;

/// How many jobs are served before their lines are written.
const BLOCK: usize = 16_384;

/// How many jobs a worker serves under one lock of a world that all share.
const TOGETHER: usize = 64;

/// How many jobs a world has that one worker alone uses.
const APART: usize = 512;

/// Serves so many jobs, numbered from `first` on, by all workers, each in a thread of its own, and writes their lines.
fn serve_block<L: Ledger + Send + Sync, R: Threads + Wait + Sync, W: Write>(
    rt: &R,
    printing: &Printing<'_, L>,
    first: usize,
    count: usize,
    workers: &mut Workers<L>,
    out: &mut W,
) -> Result<(), RunFault>
    requires some { 0 < length printing.now.jobs.now }
    requires workers { (0 < length workers.old) × (length workers.old ≤ most_workers) }
    requires limit { first + count ≤ most_jobs }
    requires alike { ForSome printing.now.apart.now (IsAlike printing.now.shared.now) }
    ensures workers { length workers.new ≡ length workers.old }
    ensures fault { IfErr result IsLate }
    ensures written { (old : Option (List ℕ)) →
        HasWritten printing.now.shared.now printing.now.jobs.now first old (W.contents out.old) →
        OnOk result (HasWritten printing.now.shared.now printing.now.jobs.now (first + count) old
        (W.contents out.new)) }
    ensures part { (old : Option (List ℕ)) →
        HasWritten printing.now.shared.now printing.now.jobs.now first old (W.contents out.old) →
        IfErr result (HasWrittenPart printing.now.shared.now printing.now.jobs.now (first + count) old
        (W.contents out.new)) }
{
    let size = if printing.apart.is_some() {
        APART
    } else {
        TOGETHER
    };
    let Ok(batches) = Batch::all_of(printing.alloc, size, first, count) else {
        return Err(RunFault::Pool(PoolFault::Memory));
    };
    printing.print_all(rt, &batches, workers, out)
}

/// Serves so many jobs, taken from these in turn, by all workers, each in a thread of its own: one block after another. The
/// lines of a block are written as soon as it is served. How many entries worlds apart have had.
fn serve_blocks<L: Ledger + Send + Sync, R: Threads + Wait + Sync, W: Write>(
    rt: &R,
    alloc: Global,
    jobs: &[Job],
    count: usize,
    shared: &Shared<L>,
    apart: &Option<ProgramWithMaps>,
    workers: &mut Workers<L>,
    out: &mut W,
) -> Result<usize, RunFault>
    requires some { 0 < length jobs.now }
    requires workers { (0 < length workers.old) × (length workers.old ≤ most_workers) }
    requires limit { count ≤ most_jobs }
    requires alike { ForSome apart.now (IsAlike shared.now) }
    ensures fault { IfErr result IsLate }
    ensures written { OnOk result (HasWritten shared.now jobs.now count
        (W.contents out.old) (W.contents out.new)) }
    ensures part { IfErr result (HasWrittenPart shared.now jobs.now count
        (W.contents out.old) (W.contents out.new)) }
{
    let entries = AtomicU64::new(0);
    let printing = Printing {
        alloc,
        shared,
        jobs,
        apart,
        entries,
    };
    let mut first = 0;
    while first < count {
        let some = BLOCK.min(count - first);
        serve_block(rt, &printing, first, some, workers, out)?;
        first += some;
    }
    Ok(printing.entries.load(Ordering::SeqCst) as usize)
}

/// How many entries the workers have made.
fn made_by<L: Ledger>(workers: &Workers<L>) -> u64 {
    let mut sum = 0u64;
    for worker in &workers.list {
        sum = sum.saturating_add(worker.made());
    }
    sum
}

/// So many jobs by so many workers, beside copies for worlds apart. Answers how many entries the journals have.
fn run_beside<L: Ledger + Send + Sync, R: Threads + Wait + Sync, W: Write>(
    rt: &R,
    alloc: Global,
    blank: Blank,
    program: ProgramWithMaps,
    apart: &Option<ProgramWithMaps>,
    contexts: &[CtxBytes],
    workers: u8,
    count: usize,
    out: &mut W,
) -> Result<usize, RunFault>
    requires new_maps { AreNewMaps program.registry.maps }
    requires shapes { program.verified.shapes ≡ shapes_of_maps program.registry.maps }
    requires apart { ForSome apart.now (λ p. p ≡ program) }
    requires contexts { 0 < length contexts.now }
    requires workers { (0 < workers) × (workers ≤ most_workers) }
    requires count { count ≤ most_jobs }
    requires name { blank.name ≡ L.name }
    requires parts { (blank.parts ≡ L.parts) × (blank.parts ≡ workers) }
    ensures fault { IfErr result IsLate }
    ensures written { OnOk result (WritesJobs program.verified.program program.verified.shapes
        (contexts_of contexts.now) count (W.contents out.old) (W.contents out.new)) }
    ensures part { IfErr result (WritesPart program.verified.program program.verified.shapes
        (contexts_of contexts.now) count (W.contents out.old) (W.contents out.new)) }
{
    let Ok(jobs) = jobs_on(alloc, contexts) else {
        return Err(RunFault::Pool(PoolFault::Memory));
    };
    let shared = Shared::<L>::of_program(alloc, program, workers, blank);
    let Ok((shared, mut workers)) = shared else {
        return Err(RunFault::Pool(PoolFault::Memory));
    };
    let apart = serve_blocks(rt, alloc, &jobs, count, &shared, apart, &mut workers, out)?;
    Ok((made_by(&workers) as usize).saturating_add(apart))
}

/// So many jobs by so many workers. Answers how many entries the journal has.
fn run_shared<L: Ledger + Send + Sync, R: Threads + Wait + Sync, W: Write>(
    rt: &R,
    alloc: Global,
    blank: Blank,
    program: ProgramWithMaps,
    contexts: &[CtxBytes],
    workers: u8,
    count: usize,
    out: &mut W,
) -> Result<usize, RunFault>
    requires new_maps { AreNewMaps program.registry.maps }
    requires shapes { program.verified.shapes ≡ shapes_of_maps program.registry.maps }
    requires contexts { 0 < length contexts.now }
    requires workers { (0 < workers) × (workers ≤ most_workers) }
    requires count { count ≤ most_jobs }
    requires name { blank.name ≡ L.name }
    requires parts { (blank.parts ≡ L.parts) × (blank.parts ≡ workers) }
    ensures fault { IfErr result IsLate }
    ensures written { OnOk result (WritesJobs program.verified.program program.verified.shapes
        (contexts_of contexts.now) count (W.contents out.old) (W.contents out.new)) }
    ensures part { IfErr result (WritesPart program.verified.program program.verified.shapes
        (contexts_of contexts.now) count (W.contents out.old) (W.contents out.new)) }
{
    let Ok(apart) = copy_to_part(alloc, &program, count) else {
        return Err(RunFault::Pool(PoolFault::Memory));
    };
    run_beside::<L, R, W>(
        rt, alloc, blank, program, &apart, contexts, workers, count, out,
    )
}

/// Runs a program so many times by so many workers, over its maps, which all runs share: new ones, of the shapes that the
/// program was verified with. The runs take these contexts in turn, run 0 the first, and the first again behind the last; a
/// run on a context of another length than the program's is stopped (63).
/// Writes a line for each job, in their order, on `out`: those of some jobs at a time, as soon as they
/// are done, and flushes it. Answers how many entries the journal has.
///
/// Errors: the first of these that holds.
/// - `Pool(BadWorkers)`: `workers` is not 1 to `MAX_WORKERS`. Nothing was written.
/// - `Pool(TooManyJobs)`: `count` is above `MAX_JOBS`. Nothing was written.
/// - `Pool(Memory)`: there is none for the world, the jobs, the results or their lines.
/// - `Write`: `out` failed. A part of the lines may have been written, and no clause says which.
///
/// The lines of some first jobs are written where memory runs out.
///
/// Where no run changes a map, each 512 jobs have a world of their own, with maps as new and a journal, so that no worker waits
/// for another; the answer is the sum of these journals' entries. It is so only where the keys and values have at most 65,536
/// bytes, and one journal would have room for all entries, so that nobody can tell. Else a worker serves up to 64 jobs each
/// time that it has the lock of the one world, and makes their lines without it. That it returns is not claimed: workers wait
/// for the lock.
pub fn run_program<R: Threads + Wait + Sync, W: Write>(
    rt: &R,
    alloc: Global,
    program: ProgramWithMaps,
    contexts: &[CtxBytes],
    workers: u64,
    count: u64,
    out: &mut W,
) -> Result<usize, RunFault>
    requires new_maps { AreNewMaps program.registry.maps }
    requires shapes { program.verified.shapes ≡ shapes_of_maps program.registry.maps }
    requires contexts { 0 < length contexts.now }
    ensures bad_workers { (workers ≡ 0) ⊎ (most_workers < workers) →
        result ≡ Err (RunFault.Pool faults.BadWorkers) }
    ensures too_many_jobs { 0 < workers → workers ≤ most_workers → most_jobs < count →
        result ≡ Err (RunFault.Pool faults.TooManyJobs) }
    ensures refused { (workers ≡ 0) ⊎ (most_workers < workers) ⊎ (most_jobs < count) →
        out.new ≡ out.old }
    ensures fault { IfErr result (IsRunFaultOf workers count) }
    // A job that has exited has exited with a value of the program's definition on its context. Of one that was stopped it
    // is only known that the cause is not 80.
    ensures written { OnOk result (WritesJobs program.verified.program program.verified.shapes
        (contexts_of contexts.now) count (W.contents out.old) (W.contents out.new)) }
    ensures part { IfErr result (WritesPart program.verified.program program.verified.shapes
        (contexts_of contexts.now) count (W.contents out.old) (W.contents out.new)) }
{
    if workers == 0 || workers > MAX_WORKERS as u64 {
        return Err(RunFault::Pool(PoolFault::BadWorkers));
    }
    if count > MAX_JOBS as u64 {
        return Err(RunFault::Pool(PoolFault::TooManyJobs));
    }
    let blank = Blank::new(workers);
    run_shared::<Brand, R, W>(
        rt,
        alloc,
        blank,
        program,
        contexts,
        workers as u8,
        count as usize,
        out,
    )
}
