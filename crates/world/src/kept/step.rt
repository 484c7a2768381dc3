//! The step of a run.
ghost use Rattle.std.specs.Prelude.{◌≡◌, None};
ghost use Rattle.bpf_model.specs.declared.event.Event.{Event};
ghost use Rattle.bpf_model.specs.Machine.{run_at};
ghost use Rattle.model_laws.specs.Reactions.{step_refused};
ghost use Rattle.world_laws.specs.Reacting.{full_reaction, word_step};
ghost use Rattle.world_laws.specs.Typed.{IsMatched};
ghost use Rattle.world.specs.Brief.{brief_answer};
ghost use Rattle.world.specs.Stepping.{HasGone, HasTaken, IsGoing, MayTake};

use crate::kept::brief::Brief;
use crate::kept::loaded::Loaded;
use crate::kept::parts::Parts;
use crate::serving::serve;
use bpf_model::{Answer, EventRefusal, RunId};
use element_store::Grace;
use machine::{Local, Run};
use maps::Registry;

/// One step of the run in a run slot, with the world's maps and flags. What the run asks is served,
/// and the run goes on with the reply.
fn step_run(
    run: &mut Run,
    run_slot: RunId,
    loaded: &Loaded,
    maps: &mut Registry,
    grace: &mut Grace,
) -> Brief
    requires { MayTake loaded.now maps.old.maps grace.old run_slot run.old }
    ensures taken { HasTaken loaded.now run_slot run.old run.new maps.old.maps maps.new.maps grace.old
        grace.new (brief_answer result) }
    ensures names { maps.new.names ≡ maps.old.names }
{
    let _justified = loaded.verified.program();
    match run.local_step(&loaded.verified) {
        Local::Moved => Brief::Moved,
        Local::Exit(value) => Brief::Exited(value),
        Local::Shared(request) => {
            let word = serve(request, run, run_slot, loaded.maps.as_slice(), maps, grace);
            run.resume(&loaded.verified, word);
            Brief::Moved
        }
    }
}

/// One step of the run that stands in a run slot.
fn step_slot(
    runs: &mut Vec<Option<Run>>,
    programs: &Vec<Loaded>,
    run_slot: RunId,
    maps: &mut Registry,
    grace: &mut Grace,
) -> Brief
    requires { IsGoing runs.old.items programs.now.items maps.old.maps grace.old run_slot }
    ensures gone { HasGone runs.old.items runs.new.items programs.now.items maps.old.maps maps.new.maps
        grace.old grace.new run_slot (brief_answer result) }
    ensures names { maps.new.names ≡ maps.old.names }
{
    match &mut runs[run_slot.index()] {
        Some(run) => {
            let loaded = &programs[run.program()];
            step_run(run, run_slot, loaded, maps, grace)
        }
        None => unreachable!(),
    }
}

impl Parts {
    /// Why the run of a run slot makes no step, if it makes none.
    fn step_refusal(&self, run: RunId) -> Option<EventRefusal>
        ensures { result ≡ step_refused (run_at self.now.runs run) }
    {
        match self.runs.get(run.index()) {
            Some(Some(run)) if run.exit().is_some() => Some(EventRefusal::Ended),
            Some(Some(_)) => None,
            _ => Some(EventRefusal::NoRun),
        }
    }

    /// The step of a run that has not ended.
    fn take_step(&mut self, run: RunId) -> Brief
        requires sound { IsMatched self.old }
        requires going { step_refused (run_at self.old.runs run) ≡ None }
        ensures answer { brief_answer result ≡ (word_step self.old run).0 }
        ensures new { self.new ≡ (word_step self.old run).1 }
    {
        step_slot(
            &mut self.runs,
            &self.programs,
            run,
            &mut self.registry,
            &mut self.grace,
        )
    }

    /// One step of a run, or why there is none.
    #[inline(always)]
    pub(crate) fn stepped(&mut self, run: RunId) -> Brief
        requires sound { IsMatched self.old }
        ensures answer { brief_answer result ≡ (full_reaction self.old (Event.Step run)).0 }
        ensures new { self.new ≡ (full_reaction self.old (Event.Step run)).1 }
    {
        match self.step_refusal(run) {
            Some(refusal) => Brief::Refused(refusal),
            None => self.take_step(run),
        }
    }

    /// One step of a run, whose answer is put in the place of another one. Refused where no run has the run
    /// slot (`NoRun`), and where the run has ended (`Ended`).
    ///
    /// The answer is `Moved`, or `Exited` with the exit value. No step fails or takes memory.
    #[inline(never)]
    pub fn step_into(&mut self, run: RunId, answer: &mut Answer)
        requires sound { IsMatched self.old }
        ensures answer { answer.new ≡ (full_reaction self.old (Event.Step run)).0 }
        ensures new { self.new ≡ (full_reaction self.old (Event.Step run)).1 }
    {
        self.stepped(run).put(answer);
    }
}
