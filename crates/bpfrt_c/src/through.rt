//! Whole runs in a world.
ghost use Rattle.std.specs.Prelude.{◌≡◌, ◌≢◌, ◌<◌, ◌≤◌, pos, neg_ℤ, Some, None, Err, IfOk, IfErr, length};
ghost use Rattle.bpf_model.specs.declared.event.Answer.TheVariants as answers;
ghost use Rattle.bpf_model.specs.declared.event.Event.TheVariants as events;
ghost use Rattle.bpf_model.specs.declared.event.EventRefusal.{EventRefusal as Refusal_};
ghost use Rattle.bpf_model.specs.declared.limits.TheConstants.{CTX_BYTES};
ghost use Rattle.host_handle.specs.Values.{world_in};
ghost use Rattle.world.specs.Through.{RunsThrough};
ghost use Rattle.world_laws.specs.Reacting.{full_reaction};
ghost use Rattle.bpfrt_c.specs.Worlds.{IsAnswer, RunsThroughIn, refusal_error};

use crate::number::{EBADF, EINVAL};
use crate::worlds::number_of_refusal;
use bpf_model::{CTX_BYTES, CtxBytes, ProgId, array_of};
use host_handle::{Held, Host};
use std::alloc::Global;
use world::World;

/// A run of a program from its start to its exit, and out of its run slot, with nothing between its steps.
fn run_through(world: &mut World, prog: ProgId, context: &CtxBytes) -> Result<u64, i32>
    ensures through { IfOk result (λ value. RunsThrough world.old prog context.now.items value world.new) }
    ensures fault { IfErr result (λ number. number ≢ pos 0) }
    ensures refused { (why : Refusal_) → (full_reaction world.old (events.Start prog context.now)).0 ≡ answers.Refused why →
        result ≡ Err (neg_ℤ (pos (refusal_error why))) }
    ensures kept { (why : Refusal_) → (full_reaction world.old (events.Start prog context.now)).0 ≡ answers.Refused why →
        world.new ≡ world.old }
{
    match world.run_through(prog, context) {
        Ok(value) => Ok(value),
        Err(refusal) => Err(number_of_refusal(refusal)),
    }
}

/// Runs a program of the world on a context, from its start to its exit and its drop, with nothing between its steps.
///
/// 0, or -EBADF where no world is held; -ENXIO where no program has the number; -EINVAL where the context has another length; -EAGAIN
/// where every run slot is occupied.
#[unsafe(no_mangle)]
pub extern "C" fn bpfrt0_world_run(
    alloc: Global,
    host: &mut Host,
    prog: u32,
    context: &[u8],
    value: &mut u64,
) -> i32
    ensures through { result ≡ pos 0 → RunsThroughIn (world_in host.old.handle.held) prog context.now value.new
        (world_in host.new.handle.held) }
    ensures refused { (why : Refusal_) → length context.now ≤ CTX_BYTES →
        IsAnswer (events.Start prog (record { items = context.now })) (world_in host.old.handle.held) (answers.Refused why) →
        (result ≡ neg_ℤ (pos (refusal_error why))) × (world_in host.new.handle.held ≡ world_in host.old.handle.held) }
    ensures long { CTX_BYTES < length context.now →
        (result ≡ neg_ℤ (pos 22)) × (host.new.handle.held ≡ host.old.handle.held) }
    ensures none { world_in host.old.handle.held ≡ None → host.new.handle.held ≡ host.old.handle.held }
    ensures unwritten { result ≢ pos 0 → value.new ≡ value.old }
{
    if context.len() > CTX_BYTES {
        return EINVAL;
    }
    let Some(mut held) = host.take(alloc) else {
        return EBADF;
    };
    let ran = match held.as_mut() {
        Held::World(world) => run_through(world, ProgId::new(prog as usize), &array_of(context)),
        _ => Err(EBADF),
    };
    host.put(held);
    match ran {
        Ok(number) => {
            *value = number;
            0
        }
        Err(number) => number,
    }
}
