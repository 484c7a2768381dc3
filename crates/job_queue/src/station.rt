//! What one thread of a pool does.
ghost use Rattle.std.specs.Prelude.{◌≡◌, ℕ, ◌<◌, length, slice_index_or, All, Option};
ghost use Rattle.std.specs.Global.{Vec};
ghost use Rattle.crossbeam_queue.specs.Passes.{IsPassOf};
ghost use Rattle.job_queue.specs.declared.station.Station.{Station};
ghost use Rattle.job_queue.specs.Stations.{IsNewStation, HasServed};
ghost use Rattle.job_queue.specs.Blocks.{InBlocks, ServesBlock};

use crate::blocks::serve_block;
use crate::numbers::{NumberPass, NumberQueue, Takes};
use crate::pool::MAX_THREADS;
use crate::serve::Serve;
use std::alloc::Global;
use std::sync::Wait;
use std::thread;
use std::thread::Threads;

/// What serving something gave, under its number.
#[derive(Drop)]
pub struct Numbered<T> {
    pub number: u64,
    pub served: T,
}

/// What one thread works with.
#[derive(Drop)]
pub struct Station<W, T> {
    pub worker: W,
    pub pass: NumberPass,
    pub results: Vec<Numbered<T>>,
}

/// What serving a block of jobs gave; nothing where there was no memory for it.
pub type BlockResults<T> = Option<Vec<T>>;

/// Serves blocks of jobs until none is left, or there is no memory for one more result.
fn work<S: Serve, R: Wait>(
    rt: &R,
    alloc: Global,
    queue: &NumberQueue,
    serve: &S,
    blocks: &[&[S::Job]],
    station: &mut Station<S::Worker, BlockResults<S::Served>>,
)
    requires fresh { IsNewStation (IsPassOf queue.now) (S.ready serve.now) station.old }
    ensures served { HasServed (InBlocks (S.fits serve.now)) (ServesBlock (S.gains serve.now)) S.later blocks.now (IsPassOf queue.now)
        (S.ready serve.now) station.old.worker station.new }
{
    for _ in 0..blocks.len() {
        if station.results.reserve(1).is_err() {
            return;
        }
        let Some(number) = queue.pop_as::<Takes, R>(rt, &mut station.pass) else {
            return;
        };
        let Some(block) = blocks.get(number as usize) else {
            return;
        };
        let served = serve_block(rt, alloc, serve, &mut station.worker, block);
        station.results.push_reserved(Numbered { number, served });
    }
}

/// Each station works in a thread of its own.
pub fn work_all<S: Serve + Sync, R: Threads + Wait + Sync>(
    rt: &R,
    alloc: Global,
    queue: &NumberQueue,
    serve: &S,
    blocks: &[&[S::Job]],
    stations: &mut [Station<S::Worker, BlockResults<S::Served>>],
)
    requires fresh { All (IsNewStation (IsPassOf queue.now) (S.ready serve.now)) stations.old }
    ensures count { length stations.new ≡ length stations.old }
    ensures each { (k : ℕ) (d : Station S.Worker (Option (Vec S.Served))) → k < length stations.old
        → HasServed (InBlocks (S.fits serve.now)) (ServesBlock (S.gains serve.now)) S.later blocks.now (IsPassOf queue.now) (S.ready serve.now)
        (slice_index_or stations.old k d).worker (slice_index_or stations.new k d) }
{
    thread::for_each_mut(
        rt,
        stations,
        MAX_THREADS,
        &|_, station: &mut Station<S::Worker, BlockResults<S::Served>>|
            requires { IsNewStation (IsPassOf queue.now) (S.ready serve.now) station.old }
            ensures { HasServed (InBlocks (S.fits serve.entry.now)) (ServesBlock (S.gains serve.entry.now)) S.later blocks.entry.now
                (IsPassOf queue.entry.now) (S.ready serve.entry.now)
                station.old.worker station.new }
        { work(rt, alloc, queue, serve, blocks, station) },
    );
}
