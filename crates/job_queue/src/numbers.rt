//! The queue of the numbers of blocks of jobs, which hands out each of them once.
ghost use Rattle.std.specs.Prelude.{◌≡◌, ◌≤◌, [], IsTrue};
ghost use Rattle.crossbeam_queue.specs.Passes.{view, IsPassOf, ruled_capacity};
ghost use Rattle.job_queue.specs.Numbers.{putter};

use crossbeam_queue::protocol::{Join, Lesson, Outcome, Protocol, Split};
use crossbeam_queue::{Pass, RuledArrayQueue};
use std::collections::LinkedList;
use std::sync::Wait;

/// What a pass knows: whether it puts numbers in and which comes next, whether it may take numbers, how many
/// passes that were made of it are out, and the numbers that it took, the newest first. No value of it is made.
pub struct PassView {
    pub puts: bool,
    pub takes: bool,
    pub next: u64,
    pub out: u64,
    pub taken: LinkedList<u64>,
}

/// The queue's rule.
pub struct Once;

impl Protocol<u64, PassView> for Once {
    ghost use Rattle.std.specs.Prelude.{[]};
    ghost use Rattle.job_queue.specs.Numbers.{putter, HandsOutOnce};

    ghost holds = { HandsOutOnce };

    ghost first = { putter 0 0 [] };
}

/// A further pass, which only takes numbers.
pub struct Taker;

impl Split<PassView> for Taker {
    ghost use Rattle.std.specs.Prelude.{[]};
    ghost use Rattle.job_queue.specs.Numbers.{taker, with_another};

    ghost left = { with_another };

    ghost right = { λ v. taker [] };
}

/// A pass comes back to the one that it was made of, with the numbers that it took.
pub struct ComesBack;

impl Join<PassView> for ComesBack {
    ghost use Rattle.job_queue.specs.Numbers.{spent, with_taken_of};

    ghost both = { with_taken_of };

    ghost spent = { spent };
}

/// The next number goes in.
pub struct Puts;

impl Outcome<u64, PassView> for Puts {
    ghost use Rattle.std.specs.Prelude.{◌≡◌};
    ghost use Rattle.job_queue.specs.Numbers.{with_number};

    ghost then = { λ v x w. w ≡ with_number v };
}

impl Lesson<u64, PassView> for Puts {
    ghost use Rattle.std.specs.Prelude.{◌≡◌, ◌≤◌, true, length};

    ghost fact = { λ v numbers. v.puts ≡ true → length numbers ≤ v.next };
}

/// A number comes out.
pub struct Takes;

impl Outcome<u64, PassView> for Takes {
    ghost use Rattle.std.specs.Prelude.{◌≡◌};
    ghost use Rattle.job_queue.specs.Numbers.{without_number};

    ghost then = { λ v x w. w ≡ without_number x v };
}

impl Lesson<u64, PassView> for Takes {
    ghost use Rattle.job_queue.specs.Numbers.{HasTakenAll};

    ghost fact = { HasTakenAll };
}

/// The queue of the numbers of blocks, under the rule that each is handed out once.
pub type NumberQueue = RuledArrayQueue<u64, PassView, Once>;

/// What one user of the queue has put in and taken.
pub type NumberPass = Pass<u64, PassView>;

/// Puts in the numbers below `count`. Whether all went in, as they do where there is room.
pub fn fill<R: Wait>(rt: &R, queue: &NumberQueue, pass: &mut NumberPass, count: usize) -> bool
    requires pass { IsPassOf queue.now pass.old × (view pass.old ≡ putter 0 0 []) }
    ensures pass { IsPassOf queue.now pass.new }
    ensures filled { IsTrue result → view pass.new ≡ putter count 0 [] }
    ensures room { count ≤ ruled_capacity queue.now → IsTrue result }
{
    for number in 0..count {
        if queue.push_as::<Puts, R>(rt, pass, number as u64).is_err() {
            return false;
        }
    }
    true
}
