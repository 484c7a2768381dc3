//! Jobs that are served block by block, so that what a thread pays for its next number is paid by many jobs.
ghost use Rattle.std.specs.Prelude.{◌≡◌, ◌<◌, ◌≤◌, length, IfOk, IfErr, OnOk, IsSome, All, vec_len};
ghost use Rattle.std.specs.List.{flat_map};
ghost use Rattle.job_queue.specs.Blocks.{jobs_of, results_of, AreRightIn, ServesIn};
ghost use Rattle.job_queue.specs.Serving.{most_threads};

use crate::fault::PoolFault;
use crate::serve::Serve;
use std::alloc::{AllocError, Global};
use std::sync::Wait;

/// The most jobs of a block.
const MAX_BLOCK: usize = 64;

/// How many blocks there are for each thread, where there are as many jobs: a thread that has no block left waits for
/// the others no longer than one block takes.
const BLOCKS_PER_THREAD: usize = 8;

/// How many jobs a block has, where so many threads serve so many jobs.
pub fn block_size(jobs: usize, threads: usize) -> usize
    requires { (0 < threads) × (threads ≤ most_threads) }
    ensures { 0 < result }
{
    (jobs / (threads * BLOCKS_PER_THREAD)).clamp(1, MAX_BLOCK)
}

/// The jobs in blocks of this size, in their order; the last block may be smaller. Fails where memory runs out.
pub fn blocks_of<J>(alloc: Global, jobs: &[J], size: usize) -> Result<Vec<&[J]>, AllocError>
    requires size { 0 < size }
    ensures jobs { IfOk result (λ v. flat_map jobs_of v.items ≡ jobs.now) }
    ensures some { 0 < length jobs.now → IfOk result (λ v. 0 < vec_len v) }
{
    let mut blocks = Vec::new(alloc);
    let mut rest = jobs;
    while !rest.is_empty() {
        let (block, later) = rest.split_at(size.min(rest.len()));
        blocks.push(block)?;
        rest = later;
    }
    Ok(blocks)
}

/// Serves the jobs of a block one after another. Nothing where there is no memory for the results.
pub fn serve_block<S: Serve, R: Wait>(
    rt: &R,
    alloc: Global,
    serve: &S,
    worker: &mut S::Worker,
    jobs: &[S::Job],
) -> Option<Vec<S::Served>>
    requires ready { S.ready serve.now worker.old }
    ensures ready { S.ready serve.now worker.new }
    ensures later { S.later worker.old worker.new }
    ensures fits { AreRightIn (S.fits serve.now) worker.old worker.new jobs.now result }
    ensures gains { ServesIn (S.gains serve.now) worker.old worker.new jobs.now result }
{
    let Ok(mut results) = Vec::with_capacity(alloc, jobs.len()) else {
        return None;
    };
    for job in jobs {
        let served = serve.serve(rt, worker, job);
        results.push_reserved(served);
    }
    Some(results)
}

/// The results of all blocks, one block after another. Fails where those of a block are missing, for want of memory.
pub fn join<T: Drop>(served: Vec<Option<Vec<T>>>, mut results: Vec<T>) -> Result<Vec<T>, PoolFault>
    requires empty { vec_len results ≡ 0 }
    ensures joined { IfOk result (λ v. v.items ≡ flat_map results_of served.items) }
    ensures whole { OnOk result (All IsSome served.items) }
    ensures err { IfErr result (λ e. e ≡ PoolFault.Memory) }
{
    for block in served {
        let Some(mut block) = block else {
            return Err(PoolFault::Memory);
        };
        if results.append(&mut block).is_err() {
            return Err(PoolFault::Memory);
        }
    }
    Ok(results)
}
