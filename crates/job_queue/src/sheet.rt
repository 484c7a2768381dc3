//! The results of all threads, brought into job order.
ghost use Rattle.std.specs.Prelude.{◌≡◌, ◌⊎◌, ℕ, ◌+◌, ◌<◌, ◌≤◌, ◌++◌, [], slice_get, Some, IfOk, true, vec_len, vec_capacity, map, All, IsSome};
ghost use Rattle.crossbeam_queue.specs.Passes.{view, IsPassOf};
ghost use Rattle.job_queue.specs.Numbers.{putter, times, WasTaken};
ghost use Rattle.job_queue.specs.Stations.{IsKept, times_taken};
ghost use Rattle.job_queue.specs.Sheet.{HasLine, HasResult, IsAmong, IsBlank, StandsIn, worker_of};

use crate::numbers::{ComesBack, NumberPass, NumberQueue};
use crate::station::{Numbered, Station};
use std::alloc::{AllocError, Global};

/// A line for the result of each job.
#[derive(Drop)]
pub struct Sheet<T> {
    pub lines: Vec<Option<T>>,
}

impl<T: Drop> Sheet<T> {
    /// So many empty lines. Fails where memory runs out.
    pub fn blank(alloc: Global, count: usize) -> Result<Sheet<T>, AllocError>
        ensures count { IfOk result (λ s. vec_len s.lines ≡ count) }
        ensures blank { IfOk result (λ s. IsBlank s.lines.items) }
    {
        let mut lines = Vec::with_capacity(alloc, count)?;
        for _ in 0..count {
            lines.push_reserved(None);
        }
        Ok(Sheet { lines })
    }

    /// Puts a result on its line.
    fn put(&mut self, one: Numbered<T>)
        ensures count { vec_len self.new.lines ≡ vec_len self.old.lines }
        ensures lines { (k : ℕ) (served : T)
            → slice_get self.new.lines.items k ≡ Some (Some served)
            → (slice_get self.old.lines.items k ≡ Some (Some served))
            ⊎ ((k ≡ one.number) × (served ≡ one.served)) }
        ensures stays { (k : ℕ) → HasLine self.old.lines.items k → HasLine self.new.lines.items k }
        ensures put { one.number < vec_len self.old.lines → HasLine self.new.lines.items one.number }
    {
        let Numbered { number, served } = one;
        if let Some(line) = self.lines.get_mut(number as usize) {
            *line = Some(served);
        }
    }

    /// Puts all results of a station on their lines.
    fn enter(&mut self, results: Vec<Numbered<T>>)
        ensures count { vec_len self.new.lines ≡ vec_len self.old.lines }
        ensures lines { (k : ℕ) (served : T)
            → slice_get self.new.lines.items k ≡ Some (Some served)
            → (slice_get self.old.lines.items k ≡ Some (Some served))
            ⊎ IsAmong results.items k served }
        ensures stays { (k : ℕ) → HasLine self.old.lines.items k → HasLine self.new.lines.items k }
        ensures entered { (k : ℕ) → k < vec_len self.old.lines → HasResult results.items k →
            HasLine self.new.lines.items k }
    {
        for one in results {
            self.put(one);
        }
    }

    /// All results, where each line has one.
    pub fn read_out(self, mut results: Vec<T>) -> Vec<T>
        requires empty { vec_len results ≡ 0 }
        requires room { vec_len self.lines ≤ vec_capacity results }
        requires each { All IsSome self.lines.items }
        ensures lines { map Some result.items ≡ self.lines.items }
    {
        let Sheet { lines } = self;
        for line in lines {
            match line {
                Some(served) => results.push_reserved(served),
                None => unreachable!(),
            }
        }
        results
    }
}

/// Takes the workers back in order, and their passes, and puts all results on the sheet.
pub fn gather<W: Drop, T: Drop>(
    queue: &NumberQueue,
    pass: &mut NumberPass,
    stations: Vec<Station<W, T>>,
    workers: &mut Vec<W>,
    sheet: &mut Sheet<T>,
)
    requires pass { IsPassOf queue.now pass.old }
    requires knows { view pass.old ≡ putter (vec_len sheet.old.lines) (vec_len stations) [] }
    requires kept { All (IsKept (IsPassOf queue.now) (vec_len sheet.old.lines)) stations.items }
    requires room { vec_len workers.old + vec_len stations ≤ vec_capacity workers.old }
    ensures pass { IsPassOf queue.now pass.new }
    ensures puts { (view pass.new).puts ≡ true }
    ensures takes { (view pass.new).takes ≡ true }
    ensures next { (view pass.new).next ≡ vec_len sheet.old.lines }
    ensures home { (view pass.new).out ≡ 0 }
    ensures workers { workers.new.items ≡ workers.old.items ++ map worker_of stations.items }
    ensures count { vec_len sheet.new.lines ≡ vec_len sheet.old.lines }
    ensures lines { (k : ℕ) (served : T)
        → slice_get sheet.new.lines.items k ≡ Some (Some served)
        → (slice_get sheet.old.lines.items k ≡ Some (Some served))
        ⊎ StandsIn stations.items k served }
    ensures taken { (k : ℕ) → k < vec_len sheet.old.lines → WasTaken k (view pass.new).taken →
        HasLine sheet.new.lines.items k }
    ensures counted { (k : ℕ) → times k (view pass.new).taken ≡ times_taken k stations.items }
{
    for station in stations {
        let Station {
            worker,
            pass: theirs,
            results,
        } = station;
        queue.absorb::<ComesBack>(pass, theirs);
        sheet.enter(results);
        workers.push_reserved(worker);
    }
}
