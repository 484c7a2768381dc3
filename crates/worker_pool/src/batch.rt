//! Some of many jobs that are all alike.
ghost use Rattle.std.specs.Prelude.{◌+◌, ◌<◌, ◌≤◌, ◌^◌, length, IfOk};

use std::alloc::{AllocError, Global};

/// So many jobs, which are numbered from `first` on.
#[derive(Clone, Copy, Debug)]
pub struct Batch {
    pub first: usize,
    pub count: usize,
    pub ghost small: { first + count < 2 ^ 64 },
}

impl Batch {
    ghost use Rattle.worker_pool.specs.Batches.{AreBatches};

    /// So many jobs, numbered from `first` on, in batches of `size` of which the last may be smaller. Fails where memory
    /// runs out.
    pub fn all_of(
        alloc: Global,
        size: usize,
        first: usize,
        count: usize,
    ) -> Result<Vec<Batch>, AllocError>
        requires some { 0 < size }
        requires small { first + count < 2 ^ 64 }
        ensures are { IfOk result (λ v. AreBatches first v.items (first + count)) }
        ensures few { IfOk result (λ v. length v.items ≤ count) }
    {
        let end = first + count;
        let mut batches = Vec::new(alloc);
        let mut next = first;
        while next < end {
            let count = size.min(end - next);
            batches.push(Batch { first: next, count })?;
            next += count;
        }
        Ok(batches)
    }
}
