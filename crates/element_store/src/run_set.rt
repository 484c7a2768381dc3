//! A set of runs: one bit for each run slot, in a few words.

ghost use Rattle.std.specs.Prelude.{◌≡◌, ◌<◌, true, false, replicate, slice_set};
ghost use Rattle.bpf_model.specs.declared.limits.TheConstants.{MAX_RUNS};
ghost use Rattle.bpf_model.specs.Schedule.{is_any};
ghost use Rattle.element_store.specs.Sections.{flags_of};

use bpf_model::MAX_RUNS;
use std::marker::Model;

/// How many run slots have their bits in one word.
pub(crate) const WORD_BITS: usize = 64;

/// How many words have a bit for each run slot.
const WORDS: usize = MAX_RUNS / WORD_BITS;

/// A set of runs. Contracts see a list of flags, one flag a run slot.
#[derive(Drop)]
pub(crate) struct RunSet {
    /// The bit of run slot r is bit r % 64 of word r / 64.
    words: [u64; WORDS],
}

impl Model for RunSet {
    ghost use Rattle.std.specs.Prelude.{Bool, List};
    ghost use Rattle.element_store.specs.Sections.{flags_of};

    ghost Value = { List Bool };

    ghost view = { λ s. flags_of s.words };
}

/// Whether any bit of the words is set.
fn is_any_bit(words: &[u64; WORDS]) -> bool
    ensures { result ≡ is_any (flags_of words.now) }
{
    *words != [0; WORDS]
}

impl RunSet {
    /// The set without runs.
    pub(crate) fn empty() -> RunSet
        ensures { result ≡ replicate MAX_RUNS false }
    {
        RunSet { words: [0; WORDS] }
    }

    /// Puts a run into the set.
    pub(crate) fn insert(&mut self, run: usize)
        requires { run < MAX_RUNS }
        ensures { self.new ≡ slice_set self.old run true }
    {
        self.words[run / WORD_BITS] |= 1 << (run % WORD_BITS);
    }

    /// Takes a run out of the set.
    pub(crate) fn remove(&mut self, run: usize)
        requires { run < MAX_RUNS }
        ensures { self.new ≡ slice_set self.old run false }
    {
        self.words[run / WORD_BITS] &= !(1 << (run % WORD_BITS));
    }

    /// Whether any run is in the set.
    pub(crate) fn is_any(&self) -> bool
        ensures { result ≡ is_any self.now }
    {
        is_any_bit(&self.words)
    }

    /// An equal set.
    pub(crate) fn copy(&self) -> RunSet
        ensures { result ≡ self.now }
    {
        RunSet { words: self.words }
    }
}
