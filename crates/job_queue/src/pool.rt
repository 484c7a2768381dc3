//! All jobs, served by as many threads as the caller says.
ghost use Rattle.std.specs.Prelude.{◌≡◌, [], ◌⊎◌, ◌+◌, ◌<◌, ◌≤◌, ◌++◌, length, map, take, drop, slice_get, Some, Err, All, IsOk, IfErr, IfOk, OnOk, OnErr, vec_len, vec_capacity, IsSome, IsTrue};
ghost use Rattle.std.specs.List.{AllZip};
ghost use Rattle.crossbeam_queue.specs.Passes.{view, IsPassOf};
ghost use Rattle.job_queue.specs.Blocks.{InBlocks, ServesBlock};
ghost use Rattle.job_queue.specs.Numbers.{putter};
ghost use Rattle.job_queue.specs.Serving.{AreRightLines, AreServed, IsBadCount, most_jobs, most_threads};
ghost use Rattle.job_queue.specs.Sheet.{worker_of, IsBlank};
ghost use Rattle.job_queue.specs.Stations.{IsNewStation};
ghost use Rattle.job_queue.specs.Turns.{AreSharedOut, AreTurns};

use crate::blocks::{block_size, blocks_of, join};
use crate::fault::PoolFault;
use crate::numbers::{NumberPass, NumberQueue, Taker, Takes, fill};
use crate::serve::Serve;
use crate::sheet::{Sheet, gather};
use crate::station::{BlockResults, Station, work_all};
use std::alloc::{AllocError, Global};
use std::sync::Wait;
use std::thread::Threads;

/// The most threads of a pool.
pub const MAX_THREADS: usize = 64;

/// The most jobs of a pool.
pub const MAX_JOBS: usize = 65_536;

/// What a pool takes before it serves the first job.
#[derive(Drop)]
struct Prepared<T> {
    queue: NumberQueue,
    pass: NumberPass,
    sheet: Sheet<T>,
    results: Vec<T>,
}

/// A law: a worker that has served nothing is later than itself.
fn unchanged<S: Serve>(workers: &[S::Worker])
    ensures { AllZip S.later workers.now workers.now }
{}

/// A station for each of the last workers, from `first` on, in order.
fn stations_of<S: Serve>(
    alloc: Global,
    queue: &NumberQueue,
    pass: &mut NumberPass,
    serve: &S,
    workers: &mut Vec<S::Worker>,
    first: usize,
) -> Result<Vec<Station<S::Worker, BlockResults<S::Served>>>, AllocError>
    requires pass { IsPassOf queue.now pass.old }
    requires knows { view pass.old ≡ putter (view pass.old).next 0 [] }
    requires ready { All (S.ready serve.now) workers.old.items }
    requires first { first ≤ vec_len workers.old }
    ensures pass { IsPassOf queue.now pass.new }
    ensures knows { IfOk result (λ v. view pass.new ≡ putter (view pass.old).next (vec_len v) []) }
    ensures fresh { IfOk result (λ v.
        All (IsNewStation (IsPassOf queue.now) (S.ready serve.now)) v.items) }
    ensures stations { IfOk result (λ v. map worker_of v.items ≡ drop first workers.old.items) }
    ensures workers { OnOk result (workers.new.items ≡ take first workers.old.items) }
    ensures capacity { vec_capacity workers.new ≡ vec_capacity workers.old }
    ensures err { OnErr result (workers.new ≡ workers.old) }
{
    let mut stations = Vec::with_capacity(alloc, workers.len() - first)?;
    let theirs = workers.split_off(first)?;
    for worker in theirs {
        let pass = queue.another::<Taker>(pass);
        let station = Station {
            worker,
            pass,
            results: Vec::new(alloc),
        };
        stations.push_reserved(station);
    }
    Ok(stations)
}

/// Serves all blocks of jobs by the stations, adds their workers to the others, and brings the results onto the sheet.
/// Whether all blocks were served, as they are where no thread was short of memory.
fn serve_at<S: Serve + Sync, R: Threads + Wait + Sync>(
    rt: &R,
    alloc: Global,
    queue: &NumberQueue,
    pass: &mut NumberPass,
    serve: &S,
    blocks: &[&[S::Job]],
    mut stations: Vec<Station<S::Worker, BlockResults<S::Served>>>,
    workers: &mut Vec<S::Worker>,
    sheet: &mut Sheet<BlockResults<S::Served>>,
) -> bool
    requires pass { IsPassOf queue.now pass.old }
    requires knows { view pass.old ≡ putter (length blocks.now) (vec_len stations) [] }
    requires fresh { All (IsNewStation (IsPassOf queue.now) (S.ready serve.now)) stations.items }
    requires ready { All (S.ready serve.now) workers.old.items }
    requires room { vec_len workers.old + vec_len stations ≤ vec_capacity workers.old }
    requires blank { IsBlank sheet.old.lines.items }
    requires lines { vec_len sheet.old.lines ≡ length blocks.now }
    ensures ready { All (S.ready serve.now) workers.new.items }
    ensures later { AllZip S.later (workers.old.items ++ map worker_of stations.items)
        workers.new.items }
    ensures count { vec_len sheet.new.lines ≡ vec_len sheet.old.lines }
    ensures lines { AreRightLines (InBlocks (S.fits serve.now)) blocks.now
        (workers.old.items ++ map worker_of stations.items) workers.new.items
        sheet.new.lines.items }
    ensures each { IsTrue result → All IsSome sheet.new.lines.items }
    ensures turns { IsTrue result → AreTurns (ServesBlock (S.gains serve.now)) blocks.now
        (workers.old.items ++ map worker_of stations.items) workers.new.items
        (λ k served. slice_get sheet.new.lines.items k ≡ Some (Some served)) }
{
    unchanged::<S>(workers.as_slice());
    work_all(rt, alloc, queue, serve, blocks, stations.as_mut_slice());
    gather(queue, pass, stations, workers, sheet);
    queue.pop_as::<Takes, R>(rt, pass).is_none()
}

/// Takes what memory so many blocks want but that of the threads, and puts the blocks' numbers into a queue.
fn prepare<T: Drop, R: Wait>(rt: &R, alloc: Global, count: usize) -> Result<Prepared<T>, PoolFault>
    requires some { 0 < count }
    ensures pass { IfOk result (λ p. IsPassOf p.queue p.pass) }
    ensures sheet { IfOk result (λ p. vec_len p.sheet.lines ≡ count) }
    ensures blank { IfOk result (λ p. IsBlank p.sheet.lines.items) }
    ensures results { IfOk result (λ p.
        (vec_len p.results ≡ 0) × (count ≤ vec_capacity p.results)) }
    ensures filled { IfOk result (λ p. view p.pass ≡ putter count 0 []) }
    ensures err { IfErr result (λ e. e ≡ PoolFault.Memory) }
{
    let Ok(sheet) = Sheet::blank(alloc, count) else {
        return Err(PoolFault::Memory);
    };
    let Ok(results) = Vec::with_capacity(alloc, count) else {
        return Err(PoolFault::Memory);
    };
    let Ok((queue, mut pass)) = NumberQueue::ruled(alloc, count) else {
        return Err(PoolFault::Memory);
    };
    if !fill(rt, &queue, &mut pass, count) {
        unreachable!();
    }
    Ok(Prepared {
        queue,
        pass,
        sheet,
        results,
    })
}

/// Serves all blocks of jobs, of which there is one at least, by the workers from `first` on.
fn serve_each<S: Serve + Sync, R: Threads + Wait + Sync>(
    rt: &R,
    alloc: Global,
    serve: &S,
    blocks: &[&[S::Job]],
    first: usize,
    workers: &mut Vec<S::Worker>,
) -> Result<Vec<BlockResults<S::Served>>, PoolFault>
    requires some { 0 < length blocks.now }
    requires ready { All (S.ready serve.now) workers.old.items }
    requires first { first ≤ vec_len workers.old }
    ensures ready { All (S.ready serve.now) workers.new.items }
    ensures later { AllZip S.later workers.old.items workers.new.items }
    ensures count { IfOk result (λ v. vec_len v ≡ length blocks.now) }
    ensures each { IfOk result (λ v.
        AreServed (InBlocks (S.fits serve.now)) blocks.now workers.old.items workers.new.items v.items) }
    ensures turns { IfOk result (λ v. AreTurns (ServesBlock (S.gains serve.now)) blocks.now
        workers.old.items workers.new.items (λ k served. slice_get v.items k ≡ Some served)) }
    ensures err { IfErr result (λ e. e ≡ PoolFault.Memory) }
{
    unchanged::<S>(workers.as_slice());
    let Prepared {
        queue,
        mut pass,
        mut sheet,
        results,
    } = prepare(rt, alloc, blocks.len())?;
    let Ok(stations) = stations_of(alloc, &queue, &mut pass, serve, workers, first) else {
        return Err(PoolFault::Memory);
    };
    if serve_at(
        rt, alloc, &queue, &mut pass, serve, blocks, stations, workers, &mut sheet,
    ) {
        return Ok(sheet.read_out(results));
    }
    Err(PoolFault::Memory)
}

/// Serves all jobs, of which there is one at least, by the last workers, as many as `threads`.
fn serve_in_blocks<S: Serve + Sync, R: Threads + Wait + Sync>(
    rt: &R,
    alloc: Global,
    serve: &S,
    jobs: &[S::Job],
    threads: usize,
    workers: &mut Vec<S::Worker>,
) -> Result<Vec<S::Served>, PoolFault>
    requires some { 0 < length jobs.now }
    requires threads { (0 < threads) × (threads ≤ most_threads) × (threads ≤ vec_len workers.old) }
    requires ready { All (S.ready serve.now) workers.old.items }
    ensures ready { All (S.ready serve.now) workers.new.items }
    ensures later { AllZip S.later workers.old.items workers.new.items }
    ensures count { IfOk result (λ v. vec_len v ≡ length jobs.now) }
    ensures each { IfOk result (λ v.
        AreServed (S.fits serve.now) jobs.now workers.old.items workers.new.items v.items) }
    ensures shared_out { IfOk result (λ v.
        AreSharedOut (S.gains serve.now) jobs.now workers.old.items workers.new.items v.items) }
    ensures err { IfErr result (λ e. e ≡ PoolFault.Memory) }
{
    unchanged::<S>(workers.as_slice());
    let Ok(blocks) = blocks_of(alloc, jobs, block_size(jobs.len(), threads)) else {
        return Err(PoolFault::Memory);
    };
    let Ok(results) = Vec::with_capacity(alloc, jobs.len()) else {
        return Err(PoolFault::Memory);
    };
    let first = workers.len() - threads;
    let served = serve_each(rt, alloc, serve, blocks.as_slice(), first, workers)?;
    join(served, results)
}

/// Serves all jobs in so many threads, each with one of the last workers: one result a job, in job order.
/// All workers come back, whatever the answer, in their order.
///
/// Errors: the first of these that holds.
/// - `BadWorkers`: `threads` is 0, above `MAX_THREADS`, or more than there are workers.
/// - `TooManyJobs`: there are more than `MAX_JOBS`.
/// - `Memory`: there is none; some jobs may have been served.
///
/// No result is lost: each number that the queue handed out has its result, and it hands out each number once.
///
/// That it returns is not claimed: its threads wait for one another.
pub fn serve_all<S: Serve + Sync, R: Threads + Wait + Sync>(
    rt: &R,
    alloc: Global,
    serve: &S,
    jobs: &[S::Job],
    threads: usize,
    workers: &mut Vec<S::Worker>,
) -> Result<Vec<S::Served>, PoolFault>
    requires ready { All (S.ready serve.now) workers.old.items }
    ensures bad_workers { IsBadCount threads (vec_len workers.old) →
        result ≡ Err PoolFault.BadWorkers }
    ensures too_many_jobs { (IsBadCount threads (vec_len workers.old) → ⊥)
        → most_jobs < length jobs.now → result ≡ Err PoolFault.TooManyJobs }
    ensures served { (IsBadCount threads (vec_len workers.old) → ⊥)
        → length jobs.now ≤ most_jobs
        → IsOk result ⊎ (result ≡ Err PoolFault.Memory) }
    ensures refused { IsBadCount threads (vec_len workers.old) ⊎ (most_jobs < length jobs.now)
        → workers.new ≡ workers.old }
    ensures ready { All (S.ready serve.now) workers.new.items }
    ensures later { AllZip S.later workers.old.items workers.new.items }
    ensures count { IfOk result (λ v. vec_len v ≡ length jobs.now) }
    ensures each { IfOk result (λ v.
        AreServed (S.fits serve.now) jobs.now workers.old.items workers.new.items v.items) }

    // No job is served twice, and none by two workers: what each worker gained is what its jobs gave it, one behind another.
    ensures shared_out { IfOk result (λ v.
        AreSharedOut (S.gains serve.now) jobs.now workers.old.items workers.new.items v.items) }
{
    unchanged::<S>(workers.as_slice());
    if threads == 0 || threads > MAX_THREADS || threads > workers.len() {
        return Err(PoolFault::BadWorkers);
    }
    if jobs.len() > MAX_JOBS {
        return Err(PoolFault::TooManyJobs);
    }
    if jobs.is_empty() {
        return Ok(Vec::new(alloc));
    }
    serve_in_blocks(rt, alloc, serve, jobs, threads, workers)
}
