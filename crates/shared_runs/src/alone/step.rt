//! The start of a run, and its steps.
ghost use Rattle.std.specs.Prelude.{◌≡◌, Decides, length};
ghost use Rattle.bpf_model.specs.Exit.{HasNoMaps, names_map};
ghost use Rattle.shared_runs.specs.Lone.{IsLone, IsStep};

use bpf_model::{CtxBytes, Insn, are_bytes};
use machine::{Local, Request, Run};
use verifier::Verified;

/// Whether the instruction loads a reference to a map.
fn names_a_map(insn: &Insn) -> bool
    ensures { result ≡ names_map insn.now }
{
    matches!(insn, Insn::LoadMap { .. })
}

/// Whether the program names no map, so that it runs alone. One that was verified for some maps need not name any of
/// them.
pub fn has_no_maps(verified: &Verified) -> bool
    ensures { Decides result (HasNoMaps verified.now.program) }
{
    let instructions = verified.program().instructions();
    instructions.iter().all(|insn| !names_a_map(insn))
}

/// A run that has made no step, of a program that names no map, on a context of the length that it was
/// verified for.
pub fn start_alone(verified: &Verified, ctx: &CtxBytes) -> Run
    requires maps { HasNoMaps verified.now.program }
    requires context { length ctx.now.items ≡ verified.now.ctx_len }
    ensures run { IsLone verified.now result }
    ensures context { result.view.context ≡ ctx.now.items }
    ensures moved { result.view.moved ≡ 0 }
{
    let _program = verified.program();
    are_bytes(ctx.as_slice());
    Run::start(verified, 0, ctx)
}

/// One step of such a run: it stays a run on its context, with one move more; or it exits, with the
/// value and after the moves with which the program exits on this context. The exit value, where it was the exit.
pub fn step_alone(run: &mut Run, verified: &Verified) -> Option<u64>
    requires { IsLone verified.now run.old }
    ensures { IsStep verified.now run.old result run.new }
{
    match run.local_step(verified) {
        Local::Moved => None,
        Local::Exit(value) => Some(value),
        Local::Shared(request) => match request {
            Request::Enter | Request::Leave => {
                run.resume(verified, 0);
                None
            }
            Request::Load { .. } | Request::Store { .. } | Request::Call { .. } => unreachable!(),
        },
    }
}
