//! What is asked of a world outside of events.
ghost use Rattle.std.specs.Prelude.{◌≡◌, ℕ, Some, Decides, slice_get, option_map, option_copied, IfSome, IfNone, count_by, is_some};
ghost use Rattle.bpf_model.specs.View.{RunView};
ghost use Rattle.world.specs.Keeping.{is_run_inside as is_inside};
ghost use Rattle.world_laws.specs.Exited.{HasExited};
ghost use Rattle.world.specs.Asking.{stat_of, IsFound, IsSameProgram, HasNone};

use crate::kept::by_number::{program_at, run_at};
use crate::kept::loaded::Loaded;
use crate::kept::parts::Parts;
use bpf_model::{CtxBytes, Insn, KeyBytes, MapId, MapShape, ProgId, RunId, Stat, ValueBytes};
use machine::Run;
use verifier::Verified;

/// Whether two programs have the same instructions.
fn is_same_code(a: &[Insn], b: &[Insn]) -> bool
    ensures { Decides result (a.now ≡ b.now) }
{
    a.len() == b.len() && a == b
}

/// Whether two lists of shapes are the same.
fn are_same_shapes(a: &[MapShape], b: &[MapShape]) -> bool
    ensures { Decides result (a.now ≡ b.now) }
{
    a.len() == b.len() && a == b
}

/// Whether two verified programs are the same one: of the same instructions, verified for the same shapes of
/// maps and the same length of contexts.
fn is_same_program(a: &Verified, b: &Verified) -> bool
    ensures { Decides result (IsSameProgram a.now b.now) }
{
    is_same_code(a.program().instructions(), b.program().instructions())
        && are_same_shapes(a.shapes(), b.shapes())
        && a.ctx_len() == b.ctx_len()
}

/// Whether two contexts have the same bytes.
fn is_same_context(a: &CtxBytes, b: &CtxBytes) -> bool
    ensures { Decides result (a.now.items ≡ b.now.items) }
{
    a.as_slice() == b.as_slice()
}

/// Whether the run is of this program, on this context.
fn is_asked(found: &Run, loaded: &Loaded, program: &Verified, ctx: &CtxBytes) -> bool
    ensures { Decides result (IsSameProgram loaded.now.verified program.now
        × (found.now.view.context ≡ ctx.now.items)) }
{
    is_same_program(&loaded.verified, program) && is_same_context(found.context(), ctx)
}

/// How many run slots have a run.
fn occupied(runs: &[Option<Run>]) -> usize
    ensures { result ≡ count_by is_some runs.now }
{
    let mut count = 0;
    for run in runs {
        if run.is_some() {
            count += 1;
        }
    }
    count
}

/// Whether the run of a run slot is inside a section.
fn is_run_inside(run: &Option<Run>) -> bool
    ensures { result ≡ is_inside run.now }
{
    match run {
        None => false,
        Some(run) => run.depth() > 0,
    }
}

/// How many runs are inside a section.
fn inside(runs: &[Option<Run>]) -> usize
    ensures { result ≡ count_by is_inside runs.now }
{
    let mut count = 0;
    for run in runs {
        if is_run_inside(run) {
            count += 1;
        }
    }
    count
}

impl Parts {
    /// The run in a run slot, if there is one.
    pub fn run(&self, run: RunId) -> Option<&Run>
        ensures some { IfSome result (λ r. slice_get self.now.runs run ≡ Some (Some r.now.view)) }
        ensures none { IfNone result ((v : RunView) → slice_get self.now.runs run ≡ Some (Some v) → ⊥) }
    {
        run_at(&self.runs, run)
    }

    /// The exit value of the run in a run slot, where it has ended and was started with this program on this
    /// context. A program verified for maps of other shapes, or for contexts of another length, is another one.
    pub fn exit_of(&self, run: RunId, program: &Verified, ctx: &CtxBytes) -> Option<u64>
        ensures some { IfSome result (λ n. HasExited self.now run program.now.program
            program.now.shapes program.now.ctx_len ctx.now.items n) }
        ensures none { IfNone result ((n : ℕ) → HasExited self.now run program.now.program
            program.now.shapes program.now.ctx_len ctx.now.items n → ⊥) }
    {
        let found = run_at(&self.runs, run)?;
        let loaded = program_at(&self.programs, ProgId::new(found.program()))?;
        if is_asked(found, loaded, program, ctx) {
            found.exit()
        } else {
            None
        }
    }

    /// The counts of the world.
    pub fn stat(&self) -> Stat
        ensures { result ≡ stat_of self.now }
    {
        let counts = self.registry.counts();
        Stat {
            linked: counts.linked,
            unlinked: counts.unlinked,
            given: self.given,
            worn: counts.worn,
            runs: occupied(&self.runs),
            open: inside(&self.runs),
        }
    }

    /// The element of a map with the least key above a bound, in byte order; every key is above no bound.
    /// `None` where there is no such element, or no map of the number.
    pub fn next_above(&self, map: MapId, bound: Option<&KeyBytes>) -> Option<(KeyBytes, ValueBytes)>
        ensures some { IfSome result (λ r. IsFound (slice_get self.now.maps map)
            (option_map (λ k. k.items) (option_copied bound.entry)) r.0.items r.1.items) }
        ensures none { IfNone result (HasNone (slice_get self.now.maps map)
            (option_map (λ k. k.items) (option_copied bound.entry))) }
    {
        let chosen = self.registry.map(map)?;
        match bound {
            None => chosen.next_above(None),
            Some(key) => chosen.next_above(Some(key.as_slice())),
        }
    }
}
