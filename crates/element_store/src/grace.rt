//! Which runs are inside a read-side critical section, and for which of them the grace period waits.
//!
//! A grace period ends once each section that was open at its beginning has ended. A section that is
//! opened later is not waited for, also if its run had one that was. A section begins with a run's
//! outermost lock and ends with the unlock of that lock: the locks between only nest.

ghost use Rattle.std.specs.Prelude.{◌≡◌, ◌<◌, ◌+◌, ◌-◌, ◌==◌, false, nat_lt, replicate, slice_set};
ghost use Rattle.std.specs.Prelude.{not, if◌then◌else◌};
ghost use Rattle.bpf_model.specs.declared.limits.TheConstants.{MAX_DEPTH, MAX_RUNS};
ghost use Rattle.bpf_model.specs.Schedule.{is_any};
ghost use Rattle.element_store.specs.Sections.{IsGrace, depth_at, opened_in};

use crate::run_set::RunSet;
use bpf_model::{MAX_RUNS, RunId};
use std::marker::Model;

/// For each of the `MAX_RUNS` run slots how many locks of its run are open, and whether the present
/// grace period waits for the section that they are in. Contracts see a list of depths and a list of
/// flags, one of each a run slot.
#[derive(Drop)]
pub struct Grace {
    /// How many locks of each run are open.
    depths: [u8; MAX_RUNS],
    /// The runs inside a section: those of which a lock is open.
    opened: RunSet,
    /// The runs whose section is awaited.
    awaited: RunSet,
}

impl Model for Grace {
    ghost use Rattle.std.specs.Prelude.{◌≡◌};
    ghost use Rattle.element_store.specs.Sections.{GraceState, IsGrace, grace_state_of, opened_in};

    ghost Value = { GraceState };

    ghost view = { λ g. grace_state_of g.depths g.awaited };

    ghost invariant = { λ g.
        IsGrace (grace_state_of g.depths g.awaited)
        × (g.opened ≡ opened_in (grace_state_of g.depths g.awaited)) };
}

impl Grace {
    /// No run is inside a section, and none is awaited.
    pub fn new() -> Grace
        ensures depths { result.depths ≡ replicate MAX_RUNS 0 }
        ensures awaited { result.awaited ≡ replicate MAX_RUNS false }
    {
        Grace {
            depths: [0; MAX_RUNS],
            opened: RunSet::empty(),
            awaited: RunSet::empty(),
        }
    }

    /// A law: each run slot has a depth, which is at most `MAX_DEPTH`, and a flag, and an awaited run
    /// is inside a section.
    pub fn keeps_awaited_open(&self)
        ensures { IsGrace self.now }
    {
        let _opened = &self.opened;
    }

    /// The run takes a lock. The outermost one opens a section, which the present grace period does
    /// not wait for.
    pub fn open(&mut self, run: RunId)
        requires run { run < MAX_RUNS }
        requires depth { depth_at self.old run < MAX_DEPTH }
        ensures depths { self.new.depths ≡ slice_set self.old.depths run (depth_at self.old run + 1) }
        ensures awaited { self.new.awaited ≡ self.old.awaited }
    {
        let slot = run.index();
        let depth = self.depths[slot];
        self.depths[slot] = depth + 1;
        if depth == 0 {
            self.opened.insert(slot);
        }
    }

    /// The run gives up its innermost lock. With the outermost one its section ends, and so does the
    /// waiting for it.
    pub fn close(&mut self, run: RunId)
        requires run { run < MAX_RUNS }
        requires depth { 0 < depth_at self.old run }
        ensures depths { self.new.depths ≡ slice_set self.old.depths run (depth_at self.old run - 1) }
        ensures awaited { self.new.awaited ≡ (if depth_at self.old run == 1
            then slice_set self.old.awaited run false
            else self.old.awaited) }
    {
        let slot = run.index();
        let depth = self.depths[slot];
        self.depths[slot] = depth - 1;
        if depth == 1 {
            self.opened.remove(slot);
            self.awaited.remove(slot);
        }
    }

    /// The run gives up all of its locks, as when it is dropped: it is inside no section, and is not
    /// awaited.
    pub fn close_all(&mut self, run: RunId)
        requires { run < MAX_RUNS }
        ensures depths { self.new.depths ≡ slice_set self.old.depths run 0 }
        ensures awaited { self.new.awaited ≡ slice_set self.old.awaited run false }
    {
        let slot = run.index();
        self.depths[slot] = 0;
        self.opened.remove(slot);
        self.awaited.remove(slot);
    }

    /// How many locks of the run are open.
    pub fn depth(&self, run: RunId) -> usize
        requires { run < MAX_RUNS }
        ensures { result ≡ depth_at self.now run }
    {
        self.depths[run.index()] as usize
    }

    /// Whether the run is inside a section.
    pub fn is_open(&self, run: RunId) -> bool
        requires { run < MAX_RUNS }
        ensures { result ≡ nat_lt 0 (depth_at self.now run) }
    {
        self.depth(run) > 0
    }

    /// Ends the grace period when it awaits no run, and answers whether it did; the next one awaits the
    /// runs that are inside a section now. Else nothing changes.
    pub fn advance(&mut self) -> bool
        ensures turns { result ≡ not (is_any self.old.awaited) }
        ensures new { self.new ≡ (if result
            then record { depths = self.old.depths; awaited = opened_in self.old }
            else self.old) }
    {
        if self.awaited.is_any() {
            return false;
        }
        self.awaited = self.opened.copy();
        true
    }

    /// An equal `Grace`: the same runs are as deep inside sections, and the same are awaited. No memory
    /// is taken.
    pub fn copy(&self) -> Grace
        ensures { result ≡ self.now }
    {
        Grace {
            depths: self.depths,
            opened: self.opened.copy(),
            awaited: self.awaited.copy(),
        }
    }
}
