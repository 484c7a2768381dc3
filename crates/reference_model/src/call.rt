//! Calls: of the kernel's functions, which open and leave sections, and of helpers, which look at maps and
//! change them.
ghost use Rattle.std.specs.Prelude.{◌≡◌, ℕ, ◌+◌, ◌<◌, ◌≤◌, ◌==◌, if◌then◌else◌, Some, None, List, OnOk};
ghost use Rattle.bpf_model.specs.declared.limits.TheConstants.{FRAME_BYTES};
ghost use Rattle.bpf_model.specs.declared.value.Value.{Value};
ghost use Rattle.bpf_model.specs.declared.insn.Insn.TheVariants as insns;
ghost use Rattle.bpf_model.specs.declared.insn.CallKind.TheVariants as kinds;
ghost use Rattle.bpf_model.specs.declared.call.KernelFunction.TheVariants as functions;
ghost use Rattle.bpf_model.specs.declared.event.Answer.TheVariants as answers;
ghost use Rattle.bpf_model.specs.Call.{helper_of, kernel_function_of};
ghost use Rattle.bpf_model.specs.Frame.{byte_of};
ghost use Rattle.bpf_model.specs.Machine.{Loaded as ModelLoaded, moves};
ghost use Rattle.bpf_model.specs.MapState.{Store as ModelStore};
ghost use Rattle.model_laws.specs.ByKind.{LookupStep, UpdateStep, DeleteStep, HelperStep, map_argument as map_argument_of, key_argument};
ghost use Rattle.bpf_model.specs.Frame.{frame_bytes as frame_bytes_of, bytes_at as bytes_of};
ghost use Rattle.bpf_model.specs.Step.{returns as returns_of};
ghost use Rattle.bpf_model.specs.Schedule.{TakesOldest};
ghost use Rattle.reference_interpreter.specs.declared.plain_run.TheConstants.{MAX_PLACE};
ghost use Rattle.reference_interpreter.specs.Plain.{plain_state_of};
ghost use Rattle.reference_store.specs.State.{store_of, sections_of};
ghost use Rattle.reference_store.specs.Telling.{TellsResult};
ghost use Rattle.reference_model.specs.RunState.{loaded_of, run_with};
ghost use Rattle.reference_model.specs.Acting.{KernelsAs, KindStepsAs};
ghost use Rattle.reference_model.specs.MapKeys.{IsMapKey};

use crate::run::{Loaded, Run};
use arrayvec::ArrayVec;
use bpf_model::{
    Answer, Cell, FRAME_BYTES, Helper, KernelFunction, KeyBytes, MAX_DEPTH, MapShape, Reference,
    Reg, Value, ValueBytes, ret_word,
};
use reference_interpreter::{PlainRun, number};
use reference_store::{ModelFault, Section, Store, one_more};
use std::alloc::Global;

/// After a call r0 is its result and r1 to r5 hold nothing.
fn returns(run: &mut Run, value: Value) -> Result<Answer, ModelFault>
    requires { (plain_state_of run.old.state).place < MAX_PLACE }
    ensures moves { (program : ModelLoaded) →
        TellsResult (λ a. (a ≡ answers.Moved)
        × (run_with program run.new
        ≡ moves (run_with program run.old) (returns_of value (plain_state_of run.old.state)))) ⊥
        result }
    ensures program { run.new.program ≡ run.old.program }
{
    run.moved = one_more(run.moved)?;
    run.state.return_from_call(value);
    Ok(Answer::Moved)
}

/// How many sections the run has opened after a lock: the outermost one opens a section.
fn sections_after(run: &Run) -> Result<u64, ModelFault>
    ensures { TellsResult (λ n. n
        ≡ (if run.now.depth == 0 then run.now.sections + 1 else run.now.sections)) ⊥
        result }
{
    if run.depth == 0 {
        one_more(run.sections)
    } else {
        Ok(run.sections)
    }
}

fn read_lock(run: &mut Run) -> Result<Answer, ModelFault>
    requires { (plain_state_of run.old.state).place < MAX_PLACE }
    ensures step { (program : ModelLoaded) →
        KernelsAs (Some functions.ReadLock) (run_with program run.old) result
        (run_with program run.new) }
    ensures program { run.new.program ≡ run.old.program }
{
    if run.depth >= MAX_DEPTH {
        return Err(ModelFault::Stuck);
    }
    run.sections = sections_after(run)?;
    run.depth += 1;
    returns(run, Value::Nothing)
}

/// An unlock closes a lock that is open; the section ends with its last.
fn read_unlock(run: &mut Run) -> Result<Answer, ModelFault>
    requires { (plain_state_of run.old.state).place < MAX_PLACE }
    ensures unlocks { (program : ModelLoaded) →
        KernelsAs (Some functions.ReadUnlock) (run_with program run.old) result
        (run_with program run.new) }
    ensures program { run.new.program ≡ run.old.program }
{
    if run.depth == 0 {
        return Err(ModelFault::Stuck);
    }
    run.depth -= 1;
    returns(run, Value::Nothing)
}

/// A lock or an unlock.
pub(crate) fn call_kernel(run: &mut Run, imm: i32) -> Result<Answer, ModelFault>
    requires { (plain_state_of run.old.state).place < MAX_PLACE }
    ensures steps { (program : ModelLoaded) →
        KernelsAs (kernel_function_of imm) (run_with program run.old) result
        (run_with program run.new) }
    ensures program { run.new.program ≡ run.old.program }
{
    match KernelFunction::from_number(imm) {
        Some(KernelFunction::ReadLock) => read_lock(run),
        Some(KernelFunction::ReadUnlock) => read_unlock(run),
        None => Err(ModelFault::Stuck),
    }
}

/// The map that the reference in r1 names.
fn map_argument(run: &Run, program: &Loaded) -> Option<usize>
    ensures { result ≡ map_argument_of (run_with (loaded_of program.now) run.now) }
{
    match run.state.register(Reg::R1) {
        Value::Pointer(Reference::MapRef(i)) => match program.maps.get(i) {
            Some(map) => Some(*map),
            None => None,
        },
        _ => None,
    }
}

/// The byte in a cell of the frame, by its offset. `None` when it isn't written as a byte.
fn byte_in(run: &PlainRun, offset: usize) -> Option<u8>
    requires { offset < FRAME_BYTES }
    ensures { result ≡ byte_of ((plain_state_of run.now).frame offset) }
{
    match run.cell(offset) {
        Cell::Byte(byte) => Some(byte),
        _ => None,
    }
}

/// So many bytes of the frame, from an offset in bytes from its start on.
fn bytes_at<const N: usize>(
    run: &PlainRun,
    at: usize,
    len: usize,
) -> Result<ArrayVec<u8, N>, ModelFault>
    requires { at + len ≤ FRAME_BYTES }
    ensures { TellsResult (λ bytes. bytes_of (plain_state_of run.now).frame at len
        ≡ Some bytes.items)
        (bytes_of (plain_state_of run.now).frame at len ≡ None) result }
{
    let mut bytes = ArrayVec::new();
    for k in 0..len {
        let Some(byte) = byte_in(run, at + k) else {
            return Err(ModelFault::Stuck);
        };
        match bytes.try_push(byte) {
            Ok(()) => {}
            Err(_) => return Err(ModelFault::OutOfRange),
        }
    }
    Ok(bytes)
}

/// The bytes of a key or a value, by a reference to the frame.
fn frame_bytes<const N: usize>(
    run: &PlainRun,
    len: usize,
    value: Value,
) -> Result<ArrayVec<u8, N>, ModelFault>
    ensures { TellsResult (λ bytes. frame_bytes_of (plain_state_of run.now).frame len value
        ≡ Some bytes.items)
        (frame_bytes_of (plain_state_of run.now).frame len value ≡ None) result }
{
    let Value::Pointer(Reference::Frame(o)) = value else {
        return Err(ModelFault::Stuck);
    };
    if o < 0 || o > FRAME_BYTES as i64 || len > FRAME_BYTES || o as usize + len > FRAME_BYTES {
        return Err(ModelFault::Stuck);
    }
    bytes_at(run, o as usize, len)
}

/// The map and the key that a helper was called with, and the map's shape.
#[derive(Drop)]
struct MapKey {
    map: usize,
    shape: MapShape,
    key: KeyBytes,
}

fn map_key_argument(run: &Run, program: &Loaded, store: &Store) -> Result<MapKey, ModelFault>
    ensures { TellsResult (IsMapKey (store_of store.now) (run_with (loaded_of program.now) run.now))
        ((map : ℕ) (key : List ℕ) →
        map_argument_of (run_with (loaded_of program.now) run.now)
        ≡ Some map →
        key_argument (store_of store.now) (run_with (loaded_of program.now) run.now) map
        ≡ Some key → ⊥) result }
{
    let Some(map) = map_argument(run, program) else {
        return Err(ModelFault::Stuck);
    };
    let Some(shape) = store.shape(map) else {
        return Err(ModelFault::Stuck);
    };
    let key = frame_bytes(&run.state, shape.key_len, run.state.register(Reg::R2))?;
    Ok(MapKey { map, shape, key })
}

fn lookup(run: &Run, program: &Loaded, store: &Store) -> Result<Value, ModelFault>
    ensures { TellsResult (LookupStep (store_of store.now)
        (run_with (loaded_of program.now) run.now))
        ((ret : Value) →
        LookupStep (store_of store.now) (run_with (loaded_of program.now) run.now) ret → ⊥) result }
{
    let at = map_key_argument(run, program, store)?;
    match store.lookup(at.map, at.key.as_slice()) {
        Some(n) => Ok(Value::Pointer(Reference::Elem(n, 0))),
        None => Ok(Value::Number(0)),
    }
}

fn update(
    alloc: Global,
    run: &Run,
    program: &Loaded,
    store: &mut Store,
    opened: &[Section],
) -> Result<Value, ModelFault>
    ensures tells { TellsResult (λ ret.
        UpdateStep (store_of store.old) (sections_of opened.now)
        (run_with (loaded_of program.now) run.now) ret (store_of store.new))
        ((ret : Value) (t : ModelStore) →
        UpdateStep (store_of store.old) (sections_of opened.now)
        (run_with (loaded_of program.now) run.now) ret t → ⊥) result }
    ensures oldest { OnOk result (TakesOldest (store_of store.old) (store_of store.new)) }
{
    let at = map_key_argument(run, program, store)?;
    let value: ValueBytes = frame_bytes(
        &run.state,
        at.shape.value_len,
        run.state.register(Reg::R3),
    )?;
    let Some(flags) = number(run.state.register(Reg::R4)) else {
        return Err(ModelFault::Stuck);
    };
    let outcome = store.update(alloc, opened, at.map, at.key, value, flags)?;
    Ok(Value::Number(ret_word(outcome)))
}

fn delete(
    alloc: Global,
    run: &Run,
    program: &Loaded,
    store: &mut Store,
    opened: &[Section],
) -> Result<Value, ModelFault>
    ensures tells { TellsResult (λ ret.
        DeleteStep (store_of store.old) (sections_of opened.now)
        (run_with (loaded_of program.now) run.now) ret (store_of store.new))
        ((ret : Value) (t : ModelStore) →
        DeleteStep (store_of store.old) (sections_of opened.now)
        (run_with (loaded_of program.now) run.now) ret t → ⊥) result }
    ensures oldest { OnOk result (TakesOldest (store_of store.old) (store_of store.new)) }
{
    let at = map_key_argument(run, program, store)?;
    let outcome = store.delete(alloc, opened, at.map, at.key.as_slice())?;
    Ok(Value::Number(ret_word(outcome)))
}

/// What a helper answers, and does to the maps.
fn helper_value(
    alloc: Global,
    run: &Run,
    program: &Loaded,
    store: &mut Store,
    opened: &[Section],
    imm: i32,
) -> Result<Value, ModelFault>
    ensures tells { TellsResult (λ ret.
        HelperStep (helper_of imm) (store_of store.old) (sections_of opened.now)
        (run_with (loaded_of program.now) run.now) ret (store_of store.new))
        ((ret : Value) (t : ModelStore) →
        HelperStep (helper_of imm) (store_of store.old) (sections_of opened.now)
        (run_with (loaded_of program.now) run.now) ret t → ⊥) result }
    ensures oldest { OnOk result (TakesOldest (store_of store.old) (store_of store.new)) }
{
    match Helper::from_number(imm) {
        Some(Helper::Lookup) => lookup(run, program, store),
        Some(Helper::Update) => update(alloc, run, program, store, opened),
        Some(Helper::Delete) => delete(alloc, run, program, store, opened),
        None => Err(ModelFault::Stuck),
    }
}

/// A call of a helper: what it does, and its result in r0.
pub(crate) fn call_helper(
    alloc: Global,
    run: &mut Run,
    program: &Loaded,
    store: &mut Store,
    opened: &[Section],
    imm: i32,
) -> Result<Answer, ModelFault>
    requires { (plain_state_of run.old.state).place < MAX_PLACE }
    ensures steps { KindStepsAs (insns.Call kinds.Helper imm) (store_of store.old)
        (sections_of opened.now) (run_with (loaded_of program.now) run.old) result
        (store_of store.new) (run_with (loaded_of program.now) run.new) }
    ensures program { run.new.program ≡ run.old.program }
    ensures oldest { OnOk result (TakesOldest (store_of store.old) (store_of store.new)) }
{
    let value = helper_value(alloc, run, program, store, opened, imm)?;
    returns(run, value)
}
