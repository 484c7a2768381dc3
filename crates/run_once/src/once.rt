//! A program's run, from its start to its exit.
ghost use Rattle.std.specs.Prelude.{◌≡◌, ◌≢◌, ◌↔◌, IsTrue, ℕ, ◌≤◌, ◌<◌, List, [], ◌∷◌, ◌++◌, Some, length, slice_get, All, IfOk, IfSome, IfNone};
ghost use Rattle.bpf_model.specs.declared.event.Event.TheVariants.{Step};
ghost use Rattle.bpf_model.specs.declared.insn.Insn.{Insn};
ghost use Rattle.bpf_model.specs.Headline.{AnswersAsMachine, AllExitInTime, AreNeverStuck};
ghost use Rattle.bpf_model.specs.Machine.{Machine};
ghost use Rattle.bpf_model.specs.Refines.{Tracks};
ghost use Rattle.bpf_model.specs.View.{AreNewMaps, shapes_of_maps};
ghost use Rattle.run_once.specs.Going.{IsGoing, IsReady};
ghost use Rattle.run_once.specs.Once.{done, AreDone, IsUpdate, ComesTo, RunsToExit, StartsAndExits};
ghost use Rattle.run_once.specs.Told.{HasNext, IsStepTold};

use crate::tracing::tell_step;
use bpf_model::{Answer, CtxBytes, Event, ProgId, RunId};
use machine::Ended;
use maps::Registry;
use std::alloc::{AllocError, Global};
use std::io;
use verifier::Verified;
use world::{Loaded, World};

/// What one run has come to.
#[derive(Clone, Copy, Debug, PartialEq, Eq)]
pub enum RunEnd {
    /// It has exited.
    Exited(Ended),
    /// It was not started: this one of the updates before it, counted from 0, is the first that was not done.
    NotDone(usize),
}

/// What one run has come to, what tells its steps, and the world behind it.
#[derive(Drop)]
pub struct Ran {
    pub outcome: RunEnd,
    pub trace: Vec<u8>,
    pub world: World,
}

/// Whether an answer is that an update is done.
fn is_done(answer: &Answer) -> bool
    ensures { IsTrue result ↔ (answer.now ≡ done) }
{
    match answer {
        Answer::Ret(Ok(())) => true,
        Answer::Ret(Err(_)) => false,
        _ => false,
    }
}

/// The first of these answers that is not that an update is done.
fn first_not_done(answers: &[Answer]) -> Option<usize>
    ensures some { IfSome result (λ k. (k < length answers.now) × AreDone k answers.now
        × (slice_get answers.now k ≢ Some done)) }
    ensures none { IfNone result (AreDone (length answers.now) answers.now) }
{
    for number in 0..answers.len() {
        if !is_done(&answers[number]) {
            return Some(number);
        }
    }
    None
}

/// Makes the next step of run 0, and writes what tells it, where that is asked for.
fn next_step(
    alloc: Global,
    world: &mut World,
    tells: bool,
    text: &mut Vec<u8>,
) -> io::Result<Answer>
    requires next { (slot : ℕ) × (insn : Insn) × HasNext world.old slot insn }
    ensures machine { IfOk result (λ a. AnswersAsMachine Tracks world.old (Step 0) a world.new) }
    ensures never_stuck { IfOk result (λ a. AreNeverStuck Tracks world.old (Step 0 ∷ []) (a ∷ [])) }
    ensures exits { IfOk result (λ a. AllExitInTime Tracks world.old (Step 0 ∷ []) (a ∷ [])) }
    ensures told { IfOk result (λ a. (late : List ℕ) × (text.new.items ≡ text.old.items ++ late)
        × ((slot : ℕ) (insn : Insn) → HasNext world.old slot insn → IsStepTold tells slot insn late)) }
{
    if tells {
        return tell_step(alloc, world, text);
    }
    Ok(world.apply(&Event::Step { run: RunId::new(0) }))
}

/// Makes the steps of run 0, of a program of so many instructions, to its exit.
fn run_to_exit(
    alloc: Global,
    world: &mut World,
    count: usize,
    tells: bool,
    text: &mut Vec<u8>,
) -> io::Result<Ended>
    requires begins { (m : Machine) × Tracks world.old m × IsGoing m count 0 }
    requires empty { text.old.items ≡ [] }
    ensures runs { IfOk result (λ e. (m : Machine) → Tracks world.old m → IsGoing m count 0 →
        RunsToExit m e tells text.new.items world.new) }
    ensures in_time { IfOk result (λ e. e.steps ≤ count) }
{
    for at in 0..count {
        let answer = next_step(alloc, world, tells, text)?;
        if let Answer::Exited(value) = answer {
            let steps = at + 1;
            return Ok(Ended { value, steps });
        }
    }
    unreachable!()
}

/// Starts program 0, of so many instructions, in run slot 0, and makes the steps of its run to its exit.
fn run_from_start(
    alloc: Global,
    world: &mut World,
    context: CtxBytes,
    count: usize,
    tells: bool,
    text: &mut Vec<u8>,
) -> io::Result<Ended>
    requires ready { (m : Machine) × Tracks world.old m × IsReady m count (length context.items) }
    requires empty { text.old.items ≡ [] }
    ensures runs { IfOk result (λ e. (m : Machine) → Tracks world.old m → IsReady m count (length context.items) →
        StartsAndExits m context.items e tells text.new.items world.new) }
    ensures in_time { IfOk result (λ e. e.steps ≤ count) }
{
    let prog = ProgId::new(0);
    let _started = world.apply(&Event::Start { prog, ctx: context });
    run_to_exit(alloc, world, count, tells, text)
}

/// Runs a verified program once, on a context of its length, in a world of these new maps, to which it is bound in
/// their order. Before its start come these events, updates of the maps; nothing else happens there. Where one of
/// them is not done, those behind it are made, too, and the program is not started. Else its run exits, with as many
/// steps as the program has instructions at most.
///
/// Where that is asked for, a text tells each step: the slot and the text of its instruction, and below them, behind two
/// blanks, what a store writes, what a helper was called for and has given, and what has changed: registers, bytes of
/// the frame, the number of open locks. No clause says that what stands below is right.
///
/// The error is that there is no memory left.
pub fn run_once(
    alloc: Global,
    verified: Verified,
    registry: Registry,
    before: &[Event],
    context: CtxBytes,
    tells: bool,
) -> Result<Ran, AllocError>
    requires new_maps { AreNewMaps registry.maps }
    requires shapes { verified.shapes ≡ shapes_of_maps registry.maps }
    requires context { length context.items ≡ verified.ctx_len }
    requires updates { All IsUpdate before.now }
    ensures { IfOk result (λ r. ComesTo (shapes_of_maps registry.maps) verified.program
        before.now context.items r.outcome tells r.trace.items r.world) }
{
    let count = verified.program().len();
    let _maps = registry.len();
    let mut programs = Vec::new(alloc);
    programs.push(Loaded::in_order(verified))?;
    let Ok(mut world) = World::new(alloc, registry, programs) else {
        return Err(AllocError);
    };
    let mut trace = Vec::new(alloc);
    let answers = world.run_all(alloc, before)?;
    if let Some(number) = first_not_done(&answers) {
        let outcome = RunEnd::NotDone(number);
        return Ok(Ran {
            outcome,
            trace,
            world,
        });
    }
    let Ok(ended) = run_from_start(alloc, &mut world, context, count, tells, &mut trace) else {
        return Err(AllocError);
    };
    let outcome = RunEnd::Exited(ended);
    Ok(Ran {
        outcome,
        trace,
        world,
    })
}
