//! What is counted of a shared world.
ghost use Rattle.std.specs.Prelude.{◌≡◌, ◌+◌, ◌-◌, ◌<◌, ◌≤◌, ◌^◌};
ghost use Rattle.shared_books.specs.Totals.{unreclaimed_in};
ghost use Rattle.shared_books.specs.Tally.{CountsOn, steps_by, reclaimed_by, origin_of, shown_totals, IsTallyOf};

use bpf_model::Answer;
use world::World;

/// Three totals: the entries answered with a move or an exit since the world was shared, and the elements of
/// the world that were unlinked, and of these those that were reclaimed.
#[derive(Clone, Copy, Debug, PartialEq, Eq)]
pub struct Totals {
    pub steps: u64,
    pub unlinked: u64,
    pub reclaimed: u64,
}

/// How many elements a world had reclaimed, and how many were unlinked and not yet reclaimed, when it
/// was shared.
#[derive(Clone, Copy)]
pub struct Origin {
    pub reclaimed: u64,
    pub unreclaimed: u64,
}

/// The totals since an origin, and how many elements are unlinked and not yet reclaimed now.
#[derive(Clone, Copy)]
pub struct Tally {
    pub(crate) origin: Origin,
    pub(crate) unreclaimed: u64,
    pub(crate) totals: Totals,
}

/// How many elements are unlinked and not yet reclaimed.
pub(crate) fn unreclaimed(world: &World) -> u64
    ensures { result ≡ unreclaimed_in world.now }
{
    world.registry().counts().unlinked as u64
}

/// What an answer adds to the steps.
fn steps(answer: &Answer) -> u64
    ensures { result ≡ steps_by answer.now }
{
    match answer {
        Answer::Moved | Answer::Exited(_) => 1,
        _ => 0,
    }
}

/// What an answer adds to the elements that were reclaimed.
fn reclaimed(answer: &Answer) -> u64
    ensures { result ≡ reclaimed_by answer.now }
{
    match answer {
        Answer::Reaped(Some(_)) => 1,
        _ => 0,
    }
}

impl Origin {
    /// The counts of a world now.
    pub(crate) fn of(world: &World) -> Origin
        ensures { result ≡ origin_of world.now }
    {
        Origin {
            reclaimed: world.stat().given as u64,
            unreclaimed: unreclaimed(world),
        }
    }

    /// What the counters show, after so many since the world was shared: these steps, and of its elements, from
    /// its making on, how many were unlinked and how many of these reclaimed. The sums stop at the greatest
    /// number, which no world reaches.
    pub fn shown(self, steps: u64, unlinked: u64, reclaimed: u64) -> Totals
        ensures { result ≡ shown_totals self steps unlinked reclaimed }
    {
        let unlinked = self
            .reclaimed
            .saturating_add(self.unreclaimed)
            .saturating_add(unlinked);
        Totals {
            steps,
            unlinked,
            reclaimed: self.reclaimed.saturating_add(reclaimed).min(unlinked),
        }
    }
}

impl Tally {
    /// Nothing was counted yet.
    pub(crate) fn new(world: &World) -> Tally
        ensures tally { IsTallyOf result world.now }
        ensures origin { result.origin ≡ origin_of world.now }
        ensures totals { result.totals ≡ record { steps = 0; unlinked = 0; reclaimed = 0 } }
    {
        let origin = Origin::of(world);
        Tally {
            origin,
            unreclaimed: origin.unreclaimed,
            totals: Totals {
                steps: 0,
                unlinked: 0,
                reclaimed: 0,
            },
        }
    }

    /// Counts one answer, after which so many elements are unlinked and not yet reclaimed.
    pub(crate) fn count(&mut self, answer: &Answer, unreclaimed: u64)
        requires counts { CountsOn answer.now self.old.unreclaimed unreclaimed }
        requires steps { self.old.totals.steps + 1 < 2 ^ 64 }
        requires unlinked { self.old.totals.unlinked + 1 < 2 ^ 64 }
        requires reclaimed { self.old.totals.reclaimed + 1 < 2 ^ 64 }
        ensures origin { self.new.origin ≡ self.old.origin }
        ensures unreclaimed { self.new.unreclaimed ≡ unreclaimed }
        ensures steps { self.new.totals.steps ≡ self.old.totals.steps + steps_by answer.now }
        ensures reclaimed { self.new.totals.reclaimed
            ≡ self.old.totals.reclaimed + reclaimed_by answer.now }
        ensures unlinked { self.new.totals.unlinked + self.old.unreclaimed
            ≡ self.old.totals.unlinked + unreclaimed + reclaimed_by answer.now }
    {
        let gone = reclaimed(answer);
        self.totals.steps += steps(answer);
        self.totals.reclaimed += gone;
        self.totals.unlinked += unreclaimed - (self.unreclaimed - gone);
        self.unreclaimed = unreclaimed;
    }

    /// Counts so many moves, after which so many elements are unlinked and not yet reclaimed.
    pub(crate) fn count_moves(&mut self, moves: u64, unreclaimed: u64)
        requires unreclaimed { self.old.unreclaimed ≤ unreclaimed }
        requires steps { self.old.totals.steps + moves < 2 ^ 64 }
        requires unlinked { self.old.totals.unlinked + (unreclaimed - self.old.unreclaimed) < 2 ^ 64 }
        ensures origin { self.new.origin ≡ self.old.origin }
        ensures unreclaimed { self.new.unreclaimed ≡ unreclaimed }
        ensures steps { self.new.totals.steps ≡ self.old.totals.steps + moves }
        ensures reclaimed { self.new.totals.reclaimed ≡ self.old.totals.reclaimed }
        ensures unlinked { self.new.totals.unlinked + self.old.unreclaimed
            ≡ self.old.totals.unlinked + unreclaimed }
    {
        self.totals.steps += moves;
        self.totals.unlinked += unreclaimed - self.unreclaimed;
        self.unreclaimed = unreclaimed;
    }
}
