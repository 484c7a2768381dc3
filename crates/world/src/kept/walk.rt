//! A run's own moves, many at once.
ghost use Rattle.std.specs.Prelude.{◌≡◌, ◌≢◌, ◌<◌, ◌≤◌, IfNone, IfSome};
ghost use Rattle.world_laws.specs.Invariant.{IsWorld};
ghost use Rattle.world.specs.Stretches.{HasWalked, IsAhead, IsStanding, MakesMoves, WouldBeRefused};

use crate::kept::by_number::run_at;
use crate::kept::loaded::Loaded;
use crate::kept::parts::Parts;
use bpf_model::RunId;
use machine::{Run, Walk, WalkEnd};

/// The own moves of the run that stands in a run slot, at most so many.
fn walk_slot(
    runs: &mut Vec<Option<Run>>,
    programs: &Vec<Loaded>,
    run_slot: RunId,
    most: usize,
) -> Walk<WalkEnd>
    requires { IsStanding runs.old.items programs.now.items run_slot }
    ensures walked { HasWalked runs.old.items runs.new.items programs.now.items run_slot result }
    ensures most { result.moved ≤ most }
    ensures enough { result.end ≡ WalkEnd.Enough → result.moved ≡ most }
    ensures fewer { result.end ≢ WalkEnd.Enough → result.moved < most }
{
    match &mut runs[run_slot.index()] {
        Some(run) => {
            let loaded = &programs[run.program()];
            let _justified = loaded.verified.program();
            run.walk(&loaded.verified, most)
        }
        None => unreachable!(),
    }
}

impl Parts {
    /// The own moves of the run in a run slot, at most so many; `None` where its step is refused.
    pub fn walk(&mut self, run: RunId, most: usize) -> Option<Walk<WalkEnd>>
        requires { IsWorld self.old }
        ensures refused { IfNone result (WouldBeRefused self.old run) }
        ensures kept { IfNone result (self.new ≡ self.old) }
        ensures moves { IfSome result (λ walk. MakesMoves run self.old walk.moved self.new) }
        ensures ahead { IfSome result (λ walk. IsAhead walk.end self.new run) }
        ensures most { IfSome result (λ walk. walk.moved ≤ most) }
        ensures enough { IfSome result (λ walk. walk.end ≡ WalkEnd.Enough → walk.moved ≡ most) }
        ensures fewer { IfSome result (λ walk. walk.end ≢ WalkEnd.Enough → walk.moved < most) }
    {
        let _number = run.index();
        let Some(found) = run_at(&self.runs, run) else {
            return None;
        };
        if found.exit().is_some() {
            return None;
        }
        Some(walk_slot(&mut self.runs, &self.programs, run, most))
    }
}
