//! Those who make entries.
ghost use Rattle.std.specs.Prelude.{◌≡◌, ◌<◌, length, vec_len, sum_by, All, IfOk};
ghost use Rattle.shared_books.specs.Books.{WorkerView, AreNumbered};
ghost use Rattle.std.specs.Slice.Iter.{iter_mut_rest};

use std::alloc::{AllocError, Global};
use std::marker::Model;
use std::slice::IterMut;
use std::sync::ledger::{Ledger, Share};

/// The most workers of a shared world.
pub const MAX_WORKERS: u8 = 8;

/// One who makes entries, with a share of the ledger that counts them.
#[derive(Drop)]
pub struct Worker<L: Ledger> {
    pub(crate) number: u8,
    pub(crate) made: u64,
    pub(crate) share: Share<L>,
}

impl<L: Ledger> Model for Worker<L> {
    ghost use Rattle.std.specs.Prelude.{◌≡◌};
    ghost use Rattle.shared_books.specs.Books.{WorkerView};

    ghost Value = { WorkerView };

    ghost view = { λ w. record { number = w.number; made = w.made; parts = w.share.parts } };

    ghost invariant = { λ w. (w.share.amount ≡ w.made) × (w.share.parts ≡ 1) };
}

impl<L: Ledger> Worker<L> {
    fn new(number: u8, share: Share<L>) -> Worker<L>
        requires { (share.parts ≡ 1) × (share.amount ≡ 0) }
        ensures { result ≡ record { number = number; made = 0; parts = 1 } }
    {
        Worker {
            number,
            made: 0,
            share,
        }
    }

    fn into_share(self) -> Share<L>
        ensures { (result.parts ≡ 1) × (result.amount ≡ self.made) }
    {
        let Worker {
            number: _,
            made: _,
            share,
        } = self;
        share
    }

    /// The worker's number, from 0 on, which its entries bear.
    pub fn number(&self) -> u8
        ensures { result ≡ self.now.number }
    {
        self.number
    }

    /// How many entries the worker has made; its share bears the same number.
    pub fn made(&self) -> u64
        ensures { result ≡ self.now.made }
    {
        self.made
    }
}

/// The workers of a shared world: one for each part of the ledger. Contracts see them in order.
#[derive(Drop)]
pub struct Workers<L: Ledger> {
    pub list: Vec<Worker<L>>,
}

impl<L: Ledger> Model for Workers<L> {
    ghost use Rattle.std.specs.Prelude.{◌≡◌, ◌<◌, List, vec_len};
    ghost use Rattle.shared_books.specs.Books.{WorkerView};

    ghost Value = { List WorkerView };

    ghost view = { λ w. w.list.items };

    ghost invariant = { λ w. (0 < vec_len w.list) × (vec_len w.list ≡ L.parts) };
}

impl<L: Ledger> Workers<L> {
    /// How many they are: as many as the ledger has parts.
    pub fn count(&self) -> usize
        ensures count { result ≡ length self.now }
        ensures parts { result ≡ L.parts }
        ensures some { 0 < result }
    {
        self.list.len()
    }

    /// Lends the workers, one after another.
    pub fn iter_mut(&mut self) -> IterMut<'_, Worker<L>>
        ensures lent { iter_mut_rest result ≡ self.old }
    {
        self.list.iter_mut()
    }

    /// Lends the workers, all at once.
    pub fn as_mut_slice(&mut self) -> &mut [Worker<L>]
        ensures lent { result.now ≡ self.old }
    {
        self.list.as_mut_slice()
    }
}

/// So many workers, each with one part of the ledger.
pub fn new_workers<L: Ledger>(
    alloc: Global,
    mut all: Share<L>,
    workers: u8,
) -> Result<Workers<L>, AllocError>
    requires all { (all.parts ≡ workers) × (all.amount ≡ 0) }
    requires parts { (0 < workers) × (workers ≡ L.parts) }
    ensures count { IfOk result (λ v. length v ≡ workers) }
    ensures made { IfOk result (λ v. All (λ w. w.made ≡ 0) v) }
    ensures numbers { IfOk result AreNumbered }
{
    let mut list = Vec::new(alloc);
    for number in 0..workers {
        let share = all.split_off(1, 0);
        list.push(Worker::new(number, share))?;
    }
    Ok(Workers { list })
}

/// The shares of all workers in one.
pub fn merged<L: Ledger>(mut workers: Vec<Worker<L>>) -> Share<L>
    requires some { 0 < vec_len workers }
    ensures parts { result.parts ≡ vec_len workers }
    ensures amount { result.amount ≡ sum_by (λ w. w.made) workers.items }
{
    let Some(last) = workers.pop() else {
        unreachable!()
    };
    let mut all = last.into_share();
    while let Some(worker) = workers.pop() {
        all.merge(worker.into_share());
    }
    all
}
