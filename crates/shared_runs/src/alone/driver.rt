//! Whole runs.
ghost use Rattle.std.specs.Prelude.{◌≡◌, ℕ, ◌<◌, ◌≤◌, List, length};
ghost use Rattle.bpf_model.specs.declared.limits.TheConstants.{FRAME_BYTES, MAX_SLOTS};
ghost use Rattle.bpf_model.specs.declared.limits.MapShape.{MapShape};
ghost use Rattle.bpf_model.specs.Exit.{ExitsWith, HasNoMaps};
ghost use Rattle.plan_laws.specs.MayExit.{MayExitWith};
ghost use Rattle.machine.specs.Workspaces.{HasFreshRegisters};
ghost use Rattle.shared_runs.specs.Lone.{loaded_alone};

use bpf_model::{CtxBytes, are_bytes};
use machine::{Ended, Next, Workspace};
use verifier::Verified;

/// Runs a program that names no map, on a context of the length that it was verified for, to its exit,
/// whatever the maps are for which it was verified. It takes no memory and cannot fail.
///
/// The value and the steps are those of the program's definition, which has no others, whatever other
/// actors do; and the steps are at most as many as it has instructions.
pub fn run_to_exit(verified: &Verified, ctx: &CtxBytes) -> Ended
    requires maps { HasNoMaps verified.now.program }
    requires context { length ctx.now.items ≡ verified.now.ctx_len }
    ensures exits { ExitsWith (loaded_alone verified.now) ctx.now.items result.steps result.value }
    ensures only { (shapes : List MapShape) (steps value : ℕ) →
        MayExitWith shapes (loaded_alone verified.now) ctx.now.items steps value →
        (result.steps ≡ steps) × (result.value ≡ value) }
    ensures bounded { result.steps ≤ length verified.now.program }
    ensures some { 0 < result.steps }
    ensures limit { result.steps ≤ MAX_SLOTS }
{
    run_over(verified, ctx.as_slice())
}

/// Runs such a program over a context that the caller lends, of which no copy is made. The clauses are those of `run_to_exit`.
pub fn run_over(verified: &Verified, context: &[u8]) -> Ended
    requires maps { HasNoMaps verified.now.program }
    requires context { length context.now ≡ verified.now.ctx_len }
    ensures exits { ExitsWith (loaded_alone verified.now) context.now result.steps result.value }
    ensures only { (shapes : List MapShape) (steps value : ℕ) →
        MayExitWith shapes (loaded_alone verified.now) context.now steps value →
        (result.steps ≡ steps) × (result.value ≡ value) }
    ensures bounded { result.steps ≤ length verified.now.program }
    ensures some { 0 < result.steps }
    ensures limit { result.steps ≤ MAX_SLOTS }
{
    let mut workspace = Workspace::start();
    finish(&mut workspace, verified, context)
}

/// Runs such a program in a workspace where others have run, of which nothing is seen. The clauses are those of `run_to_exit`.
pub fn run_in(workspace: &mut Workspace, verified: &Verified, context: &[u8]) -> Ended
    requires maps { HasNoMaps verified.now.program }
    requires context { length context.now ≡ verified.now.ctx_len }
    ensures exits { ExitsWith (loaded_alone verified.now) context.now result.steps result.value }
    ensures only { (shapes : List MapShape) (steps value : ℕ) →
        MayExitWith shapes (loaded_alone verified.now) context.now steps value →
        (result.steps ≡ steps) × (result.value ≡ value) }
    ensures bounded { result.steps ≤ length verified.now.program }
    ensures some { 0 < result.steps }
    ensures limit { result.steps ≤ MAX_SLOTS }
{
    workspace.restart();
    finish(workspace, verified, context)
}

/// Runs a program to its exit, in a workspace whose registers are those of a start.
#[inline(always)]
fn finish(workspace: &mut Workspace, verified: &Verified, context: &[u8]) -> Ended
    requires maps { HasNoMaps verified.now.program }
    requires context { length context.now ≡ verified.now.ctx_len }
    requires fresh { HasFreshRegisters workspace.old }
    requires cells { length workspace.old.frame ≡ FRAME_BYTES }
    ensures exits { ExitsWith (loaded_alone verified.now) context.now result.steps result.value }
    ensures only { (shapes : List MapShape) (steps value : ℕ) →
        MayExitWith shapes (loaded_alone verified.now) context.now steps value →
        (result.steps ≡ steps) × (result.value ≡ value) }
    ensures bounded { result.steps ≤ length verified.now.program }
    ensures some { 0 < result.steps }
    ensures limit { result.steps ≤ MAX_SLOTS }
{
    let _program = verified.program();
    are_bytes(context);
    let mut index = 0;
    let mut moved = 0;
    'steps: loop {
        let halt = workspace.go_on(verified, context, index);
        match halt.end {
            Next::On | Next::At(_) => unreachable!(),
            // A lock or an unlock: a run alone asks nothing else.
            Next::Shared(_) => {
                index = halt.index + 1;
                moved += halt.moved + 1;
            }
            Next::Exit(value) => {
                return Ended {
                    value,
                    steps: moved + halt.moved + 1,
                };
            }
        }
    }
}
