//! One step of a run in the whole machine.
ghost use Rattle.std.specs.Prelude.{◌≡◌, ◌<◌, OnOk};
ghost use Rattle.std.specs.Option.{option_map};
ghost use Rattle.bpf_model.specs.Schedule.{TakesOldest};
ghost use Rattle.reference_interpreter.specs.declared.plain_run.TheConstants.{MAX_PLACE};
ghost use Rattle.reference_interpreter.specs.Plain.{plain_state_of};
ghost use Rattle.reference_store.specs.State.{store_of, sections_of};
ghost use Rattle.reference_model.specs.RunState.{loaded_of, run_with, run_of};
ghost use Rattle.reference_model.specs.Acting.{call_in, AloneAs, InsnStepsAs, RunStepsAs, SlotStepsAs};

use crate::access::act;
use crate::call::{call_helper, call_kernel};
use crate::run::{Loaded, Run};
use bpf_model::{Answer, CallKind, Insn};
use reference_interpreter::{MAX_PLACE, Progress, insn_at};
use reference_store::{ModelFault, Section, Store, one_more};
use std::alloc::Global;

/// An instruction other than a call.
fn step_alone(
    run: &mut Run,
    program: &Loaded,
    store: &mut Store,
    insn: &Insn,
) -> Result<Answer, ModelFault>
    requires { (plain_state_of run.old.state).place < MAX_PLACE }
    ensures steps { AloneAs insn.now (store_of store.old) (run_with (loaded_of program.now) run.old)
        result (store_of store.new) (run_with (loaded_of program.now) run.new) }
    ensures program { run.new.program ≡ run.old.program }
    ensures oldest { OnOk result (TakesOldest (store_of store.old) (store_of store.new)) }
{
    match act(
        &mut run.state,
        store,
        run.context.as_slice(),
        program.maps.len(),
        insn,
    ) {
        Progress::Moved => {
            run.moved = one_more(run.moved)?;
            Ok(Answer::Moved)
        }
        Progress::Exited(n) => {
            if run.depth == 0 {
                run.exit = Some(n);
                Ok(Answer::Exited(n))
            } else {
                Err(ModelFault::Stuck)
            }
        }
        Progress::Stuck => Err(ModelFault::Stuck),
        Progress::OutOfRange => Err(ModelFault::OutOfRange),
    }
}

/// The call that an instruction is, by its kind and its number.
fn call_of(insn: &Insn) -> Option<(CallKind, i32)>
    ensures { result ≡ call_in insn.now }
{
    match insn {
        Insn::Call { kind, imm } => Some((*kind, *imm)),
        _ => None,
    }
}

/// What an instruction does.
fn step_insn(
    alloc: Global,
    run: &mut Run,
    program: &Loaded,
    store: &mut Store,
    opened: &[Section],
    insn: &Insn,
) -> Result<Answer, ModelFault>
    requires { (plain_state_of run.old.state).place < MAX_PLACE }
    ensures steps { InsnStepsAs insn.now (store_of store.old) (sections_of opened.now)
        (run_with (loaded_of program.now) run.old) result (store_of store.new)
        (run_with (loaded_of program.now) run.new) }
    ensures program { run.new.program ≡ run.old.program }
    ensures oldest { OnOk result (TakesOldest (store_of store.old) (store_of store.new)) }
{
    match call_of(insn) {
        Some((CallKind::Kernel, imm)) => call_kernel(run, imm),
        Some((CallKind::Helper, imm)) => call_helper(alloc, run, program, store, opened, imm),
        None => step_alone(run, program, store, insn),
    }
}

/// A step of a run: that of the instruction that begins at its place.
fn step_run(
    alloc: Global,
    run: &mut Run,
    program: &Loaded,
    store: &mut Store,
    opened: &[Section],
) -> Result<Answer, ModelFault>
    ensures steps { RunStepsAs (store_of store.old) (sections_of opened.now)
        (run_with (loaded_of program.now) run.old) result (store_of store.new)
        (run_with (loaded_of program.now) run.new) }
    ensures program { run.new.program ≡ run.old.program }
    ensures oldest { OnOk result (TakesOldest (store_of store.old) (store_of store.new)) }
{
    let place = run.state.place();
    if place >= MAX_PLACE {
        return Err(ModelFault::OutOfRange);
    }
    match insn_at(program.code.as_slice(), place) {
        Some(insn) => step_insn(alloc, run, program, store, opened, insn),
        None => Err(ModelFault::Stuck),
    }
}

/// A step of the run in a run slot. Errors: `Stuck` where the run has no step, or its program is not
/// there; `OutOfRange` where a count or an offset leaves 64 bits, where the run's place is
/// `MAX_PLACE` or above, and where no run is in the run slot; `Memory`.
pub fn step_slot(
    alloc: Global,
    slot: &mut Option<Run>,
    programs: &[Loaded],
    store: &mut Store,
    opened: &[Section],
) -> Result<Answer, ModelFault>
    ensures oldest { OnOk result (TakesOldest (store_of store.old) (store_of store.new)) }
    ensures steps { SlotStepsAs (store_of store.old) (sections_of opened.now)
        (option_map (run_of programs.now) slot.old) result (store_of store.new)
        (option_map (run_of programs.now) slot.new) }
{
    match slot {
        Some(run) => {
            if run.program >= programs.len() {
                return Err(ModelFault::Stuck);
            }
            step_run(alloc, run, &programs[run.program], store, opened)
        }
        None => Err(ModelFault::OutOfRange),
    }
}
