//! One worker serves a batch of jobs, in the world that all share or in one of its own, and makes their lines.
ghost use Rattle.std.specs.Prelude.{◌≡◌, ◌≤◌, ◌<◌, ℕ, List, Option, Some, length, slice_get, IfErr, IfOk, IfSome, OnOk};
ghost use Rattle.std.specs.Global.{Vec};
ghost use Rattle.std.specs.Option.{ForSome};
ghost use Rattle.std.specs.List.{AllZip};
ghost use Rattle.job_queue.specs.declared.fault.PoolFault.TheVariants as faults;
ghost use Rattle.job_queue.specs.Serving.{IsBadCount, most_jobs};
ghost use Rattle.shared_books.specs.Books.{most_workers};
ghost use Rattle.worker_pool.specs.declared.batch.Batch.{Batch};
ghost use Rattle.worker_pool.specs.Batches.{AreBatches, AreOutcomes, HasWritten, HasWrittenPart, IsAlike, IsPrinted};
ghost use Rattle.worker_pool.specs.Runs.{IsLate};
ghost use Rattle.worker_pool.specs.Trails.{IsLater};

use crate::apart::print_apart;
use crate::batch::Batch;
use crate::fault::RunFault;
use crate::job::{Job, JobReport, Outcome};
use crate::lines::make_lines;
use crate::pooled::serve_held;
use job_queue::{PoolFault, Serve, serve_all};
use shared::{ProgramWithMaps, Shared, Worker, Workers};
use std::alloc::{AllocError, Global};
use std::io::Write;
use std::marker::Brand;
use std::sync::Wait;
use std::sync::atomic::{AtomicU64, Ordering};
use std::sync::ledger::{Blank, Ledger};
use std::thread::Threads;

/// Serves batches of jobs, which are taken in turn from a list, and makes their lines.
#[derive(Drop)]
pub(crate) struct Printing<'a, L: Ledger> {
    pub alloc: Global,
    pub shared: &'a Shared<L>,
    /// The jobs that are taken in turn, and the first again behind the last.
    pub jobs: &'a [Job],
    /// The program and its maps, where each batch has a world of its own.
    pub apart: &'a Option<ProgramWithMaps>,
    /// How many entries the journals of such worlds had.
    pub entries: AtomicU64,
}

/// Serves the jobs of a batch under one lock, and keeps of each its outcome alone. Fails, before it takes the lock, where
/// memory runs out.
fn serve_turns<L: Ledger, R: Wait>(
    rt: &R,
    alloc: Global,
    shared: &Shared<L>,
    worker: &mut Worker<L>,
    jobs: &[Job],
    batch: &Batch,
) -> Result<Vec<Outcome>, AllocError>
    requires some { 0 < length jobs.now }
    ensures later { IsLater worker.old worker.new }
    ensures outcomes { IfOk result (λ v.
        AreOutcomes shared.now jobs.now batch.now.first batch.now.count v.items) }
{
    let mut outcomes = Vec::with_capacity(alloc, batch.count)?;
    let mut held = shared.hold(rt);
    for index in 0..batch.count {
        let job = &jobs[(batch.first + index) % jobs.len()];
        let JobReport { outcome, trail: _ } = serve_held(rt, &mut held, worker, job);
        outcomes.push_reserved(outcome);
    }
    Ok(outcomes)
}

/// Serves a batch under one lock of the shared world, and makes its lines behind it. Nothing where memory runs out.
pub(crate) fn print_together<L: Ledger, R: Wait>(
    rt: &R,
    alloc: Global,
    shared: &Shared<L>,
    worker: &mut Worker<L>,
    jobs: &[Job],
    batch: &Batch,
) -> Option<Vec<u8>>
    requires some { 0 < length jobs.now }
    ensures later { IsLater worker.old worker.new }
    ensures printed { IfSome result (λ v. IsPrinted shared.now jobs.now batch.now v.items) }
{
    let Ok(outcomes) = serve_turns(rt, alloc, shared, worker, jobs, batch) else {
        return None;
    };
    let mut text = Vec::new(alloc);
    match make_lines(&mut text, batch.first, &outcomes) {
        Ok(()) => Some(text),
        Err(_) => None,
    }
}

impl<L: Ledger> Printing<'_, L> {
    /// Serves a batch, and makes its lines. Nothing where memory runs out.
    fn print_batch<R: Wait>(&self, rt: &R, worker: &mut Worker<L>, batch: &Batch) -> Option<Vec<u8>>
        requires some { 0 < length self.now.jobs.now }
        requires alike { ForSome self.now.apart.now (IsAlike self.now.shared.now) }
        ensures later { IsLater worker.old worker.new }
        ensures printed { IfSome result (λ v.
            IsPrinted self.now.shared.now self.now.jobs.now batch.now v.items) }
    {
        let Some(program) = self.apart else {
            return print_together(rt, self.alloc, self.shared, worker, self.jobs, batch);
        };
        let blank = Blank::new(1);
        let apart = print_apart::<Brand, R>(rt, self.alloc, blank, program, self.jobs, batch)?;
        self.entries.fetch_add(apart.entries, Ordering::SeqCst);
        Some(apart.text)
    }

    /// Writes the lines of batches that it has served, where all are there.
    fn write_texts<W: Write>(
        &self,
        batches: &[Batch],
        texts: &[Option<Vec<u8>>],
        out: &mut W,
    ) -> Result<(), RunFault>
        requires long { length texts.now ≡ length batches.now }
        requires right { (k : ℕ) (batch : Batch) (text : Option (Vec ℕ)) → slice_get batches.now k ≡ Some batch →
            slice_get texts.now k ≡ Some text →
            IfSome text (λ t. IsPrinted self.now.shared.now self.now.jobs.now batch t.items) }
        ensures fault { IfErr result IsLate }
        ensures written { (first end : ℕ) (old : Option (List ℕ)) → AreBatches first batches.now end →
            HasWritten self.now.shared.now self.now.jobs.now first old (W.contents out.old) →
            OnOk result (HasWritten self.now.shared.now self.now.jobs.now end old (W.contents out.new)) }
        ensures part { (first end : ℕ) (old : Option (List ℕ)) → AreBatches first batches.now end →
            HasWritten self.now.shared.now self.now.jobs.now first old (W.contents out.old) →
            IfErr result (HasWrittenPart self.now.shared.now self.now.jobs.now end old (W.contents out.new)) }
    {
        let _batches = batches;
        for index in 0..texts.len() {
            match &texts[index] {
                Some(text) => out.write_all(text)?,
                None => return Err(RunFault::Pool(PoolFault::Memory)),
            }
        }
        Ok(())
    }
}

impl<L: Ledger + Send + Sync> Printing<'_, L> {
    /// Serves all batches by the last workers, each in a thread of its own: the lines of each batch, where there was memory
    /// for them. The fault is that there is no memory left.
    fn serve_batches<R: Threads + Wait + Sync>(
        &self,
        rt: &R,
        batches: &[Batch],
        threads: usize,
        workers: &mut Workers<L>,
    ) -> Result<Vec<Option<Vec<u8>>>, PoolFault>
        requires some { 0 < length self.now.jobs.now }
        requires threads { IsBadCount threads (length workers.old) → ⊥ }
        requires few { length batches.now ≤ most_jobs }
        requires alike { ForSome self.now.apart.now (IsAlike self.now.shared.now) }
        ensures later { AllZip IsLater workers.old workers.new }
        ensures workers { length workers.new ≡ length workers.old }
        ensures long { IfOk result (λ v. length v.items ≡ length batches.now) }
        ensures right { IfOk result (λ v. (k : ℕ) (batch : Batch) (text : Option (Vec ℕ)) →
            slice_get batches.now k ≡ Some batch → slice_get v.items k ≡ Some text →
            IfSome text (λ t. IsPrinted self.now.shared.now self.now.jobs.now batch t.items)) }
        ensures fault { IfErr result (λ fault. fault ≡ faults.Memory) }
    {
        serve_all(rt, self.alloc, self, batches, threads, &mut workers.list)
    }

    /// Serves all batches by all workers, each in a thread of its own, and writes their lines.
    pub(crate) fn print_all<R: Threads + Wait + Sync, W: Write>(
        &self,
        rt: &R,
        batches: &[Batch],
        workers: &mut Workers<L>,
        out: &mut W,
    ) -> Result<(), RunFault>
        requires some { 0 < length self.now.jobs.now }
        requires workers { (0 < length workers.old) × (length workers.old ≤ most_workers) }
        requires few { length batches.now ≤ most_jobs }
        requires alike { ForSome self.now.apart.now (IsAlike self.now.shared.now) }
        ensures workers { length workers.new ≡ length workers.old }
        ensures fault { IfErr result IsLate }
        ensures written { (first end : ℕ) (old : Option (List ℕ)) → AreBatches first batches.now end →
            HasWritten self.now.shared.now self.now.jobs.now first old (W.contents out.old) →
            OnOk result (HasWritten self.now.shared.now self.now.jobs.now end old (W.contents out.new)) }
        ensures part { (first end : ℕ) (old : Option (List ℕ)) → AreBatches first batches.now end →
            HasWritten self.now.shared.now self.now.jobs.now first old (W.contents out.old) →
            IfErr result (HasWrittenPart self.now.shared.now self.now.jobs.now end old (W.contents out.new)) }
    {
        let threads = workers.list.len();
        let texts = self.serve_batches(rt, batches, threads, workers)?;
        self.write_texts(batches, &texts, out)?;
        out.flush()?;
        Ok(())
    }
}

impl<L: Ledger + Send + Sync> Serve for Printing<'_, L> {
    ghost use Rattle.std.specs.Prelude.{◌<◌, length, IfSome};
    ghost use Rattle.std.specs.Option.{ForSome};
    ghost use Rattle.worker_pool.specs.Batches.{IsAlike, IsPrinted};
    ghost use Rattle.worker_pool.specs.Trails.{IsLater};
    ghost use Rattle.worker_pool.specs.TrailLemmas.{later_same, later_again};

    type Job = Batch;

    type Worker = Worker<L>;

    type Served = Option<Vec<u8>>;

    ghost ready = { λ s w. (0 < length s.jobs.now) × ForSome s.apart.now (IsAlike s.shared.now) };

    ghost later = { IsLater };

    ghost fits = { λ s u v batch text. IfSome text (λ t. IsPrinted s.shared.now s.jobs.now batch t.items) };

    ghost gains = { λ s u v batch text. IfSome text (λ t. IsPrinted s.shared.now s.jobs.now batch t.items) };

    /// Serves a batch, and makes its lines.
    fn serve<R: Wait>(&self, rt: &R, worker: &mut Worker<L>, batch: &Batch) -> Option<Vec<u8>> {
        self.print_batch(rt, worker, batch)
    }

    ghost later_same = { later_same };

    ghost later_again = { later_again };

    ghost fits_wider = { λ s t u v w batch text a b fits. fits };
}
