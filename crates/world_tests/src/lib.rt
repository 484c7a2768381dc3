//! Tests of the world, and of the reference model beside it: lists of events and the answers that they must have, worked
//! out by hand, and generated lists on which both must agree. Since the reference model's answers are proved to be the
//! definitions' own, its answers are tests of the definitions.
//! Tests of a shared world, with the counters that its workers write, cuts and exits; and of a pool of workers that serves
//! jobs from it. Of the journal: every kind of entry is read back as it was added, and what a full one takes.
#![tactic(auto)]

#[cfg(test)]
mod cases;
#[cfg(test)]
mod entries;
#[cfg(test)]
mod generated;
#[cfg(test)]
mod journals;
#[cfg(test)]
mod making;
#[cfg(test)]
mod mixing;
#[cfg(test)]
mod pair;
#[cfg(test)]
mod pools;
#[cfg(test)]
mod programs;
#[cfg(test)]
mod refusals;
#[cfg(test)]
mod runs;
#[cfg(test)]
mod scenes;
#[cfg(test)]
mod sharing;
#[cfg(test)]
mod text;
#[cfg(test)]
mod threads;
