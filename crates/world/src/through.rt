//! Whole runs.
ghost use Rattle.std.specs.Prelude.{◌≡◌, Err, IfOk};
ghost use Rattle.bpf_model.specs.declared.event.Answer.TheVariants.{Refused as RefusedAnswer};
ghost use Rattle.bpf_model.specs.declared.event.Event.TheVariants.{Start, Step, Drop as DropEvent};
ghost use Rattle.bpf_model.specs.declared.event.EventRefusal.{EventRefusal as Refusal_};
ghost use Rattle.world.specs.Brief.{brief_answer};
ghost use Rattle.world.specs.Through.{RunsThrough};
ghost use Rattle.world_laws.specs.Reacting.{full_reaction};

use crate::kept::Brief;
use crate::world::World;
use bpf_model::{CtxBytes, EventRefusal, MAX_SLOTS, ProgId, RunId, are_bytes};

impl World {
    /// Starts a run.
    fn start_run(&mut self, prog: ProgId, ctx: &CtxBytes) -> Brief
        ensures answer { brief_answer result ≡ (full_reaction self.old (Start prog ctx.now)).0 }
        ensures new { self.new ≡ (full_reaction self.old (Start prog ctx.now)).1 }
    {
        let _number = prog.index();
        are_bytes(ctx);
        self.parts.started(prog, ctx)
    }

    /// One step of a run.
    fn step_run(&mut self, run: RunId) -> Brief
        ensures answer { brief_answer result ≡ (full_reaction self.old (Step run)).0 }
        ensures new { self.new ≡ (full_reaction self.old (Step run)).1 }
    {
        let _number = run.index();
        self.is_world();
        self.parts.stepped(run)
    }

    /// Takes a run out of its run slot.
    fn drop_run(&mut self, run: RunId)
        ensures new { self.new ≡ (full_reaction self.old (DropEvent run)).1 }
    {
        let _number = run.index();
        let _answer = self.parts.dropped(run);
    }

    /// Runs a program on a context from its start to its exit and its drop, with nothing between its steps: the exit value. It
    /// takes no memory.
    ///
    /// Errors: why the start is refused. The clauses also allow `StillRunning`, for a run that has not ended after
    /// `MAX_SLOTS` steps. No run does that: each exits in time (`exits` of `apply`).
    pub fn run_through(&mut self, prog: ProgId, ctx: &CtxBytes) -> Result<u64, EventRefusal>
        ensures through { IfOk result (λ value. RunsThrough self.old prog ctx.now.items value self.new) }
        ensures refused { (why : Refusal_) → (full_reaction self.old (Start prog ctx.now)).0 ≡ RefusedAnswer why →
            (result ≡ Err why) }
        ensures kept { (why : Refusal_) → (full_reaction self.old (Start prog ctx.now)).0 ≡ RefusedAnswer why →
            self.new ≡ self.old }
    {
        let run = match self.start_run(prog, ctx) {
            Brief::Started(run) => run,
            Brief::Refused(refusal) => return Err(refusal),
            _ => return Err(EventRefusal::StillRunning),
        };
        let _stretch = self.run_for(run, MAX_SLOTS);
        let Brief::Exited(value) = self.step_run(run) else {
            return Err(EventRefusal::StillRunning);
        };
        self.drop_run(run);
        Ok(value)
    }
}
