//! What an instruction other than a call does: to its run alone, or to an element.
ghost use Rattle.std.specs.Prelude.{◌≡◌, ℕ, ◌<◌, ◌≤◌, Some, List, length};
ghost use Rattle.bpf_model.specs.declared.limits.TheConstants.{CTX_BYTES};
ghost use Rattle.bpf_model.specs.declared.value.Value.TheVariants.{Pointer};
ghost use Rattle.bpf_model.specs.declared.value.Reference.TheVariants.{Elem};
ghost use Rattle.bpf_model.specs.Access.{byte_count};
ghost use Rattle.model_laws.specs.ByKind.{element_store};
ghost use Rattle.reference_interpreter.specs.declared.plain_run.TheConstants.{MAX_PLACE};
ghost use Rattle.reference_interpreter.specs.Plain.{plain_state_of, Comes};
ghost use Rattle.bpf_model.specs.Step.{environment_of};
ghost use Rattle.reference_store.specs.State.{elements_of};
ghost use Rattle.reference_model.specs.Acting.{base_element, load_outcome, extended_outcome, StoresAs, ActsAs};

use alu::load_signed;
use bpf_model::{Insn, Reference, Reg, SignedWidth, Value, Width};
use reference_interpreter::{PlainRun, Progress, number};
use reference_store::Store;

/// The element that a load or a store goes to by its base register, and the offset there.
fn element_at(insn: &Insn, run: &PlainRun) -> Option<(usize, i64)>
    ensures { result ≡ base_element insn.now (plain_state_of run.now) }
{
    let base = match insn {
        Insn::Load { src, .. } => *src,
        Insn::LoadSigned { src, .. } => *src,
        Insn::Store { dst, .. } => *dst,
        _ => return None,
    };
    match run.register(base) {
        Value::Pointer(Reference::Elem(n, o)) => Some((n, o)),
        _ => None,
    }
}

/// A load from element n, o bytes and an offset from the start of its value.
fn load(
    run: &mut PlainRun,
    store: &Store,
    width: Width,
    dst: Reg,
    n: usize,
    o: i64,
    offset: i16,
) -> Progress
    requires { (plain_state_of run.old).place < MAX_PLACE }
    ensures { Comes (load_outcome (elements_of store.now.elements.items) (byte_count width) offset
        (Pointer (Elem n o)) dst (plain_state_of run.old)) result run.old run.new }
{
    match store.load(n, width, o, offset) {
        Some(k) => run.set(1, dst, Value::Number(k)),
        None => Progress::Stuck,
    }
}

/// A load that extends a sign.
fn load_extended(
    run: &mut PlainRun,
    store: &Store,
    width: SignedWidth,
    dst: Reg,
    n: usize,
    o: i64,
    offset: i16,
) -> Progress
    requires { (plain_state_of run.old).place < MAX_PLACE }
    ensures { Comes (extended_outcome (elements_of store.now.elements.items) width offset
        (Pointer (Elem n o)) dst (plain_state_of run.old)) result run.old run.new }
{
    match store.load(n, width.width(), o, offset) {
        Some(k) => run.set(1, dst, Value::Number(load_signed(width, k))),
        None => Progress::Stuck,
    }
}

/// A store of a number to element n, o bytes and an offset from the start of its value.
fn save(
    run: &mut PlainRun,
    store: &mut Store,
    width: Width,
    value: Value,
    n: usize,
    o: i64,
    offset: i16,
) -> Progress
    requires { (plain_state_of run.old).place < MAX_PLACE }
    ensures elements { StoresAs
        (element_store (elements_of store.old.elements.items) (byte_count width) offset value
        (Pointer (Elem n o))) run.old result (elements_of store.new.elements.items) run.new }
    ensures maps { store.new.maps ≡ store.old.maps }
    ensures births { length store.new.elements.items ≡ length store.old.elements.items }
{
    match number(value) {
        Some(k) if store.store(n, width, o, offset, k) => {
            run.forward();
            Progress::Moved
        }
        _ => Progress::Stuck,
    }
}

/// An access to element n, o bytes from the start of its value.
fn access_element(run: &mut PlainRun, store: &mut Store, insn: &Insn, n: usize, o: i64) -> Progress
    requires place { (plain_state_of run.old).place < MAX_PLACE }
    requires base { base_element insn.now (plain_state_of run.old) ≡ Some (n, o) }
    ensures acts { (context : List ℕ) (maps : ℕ) →
        ActsAs insn.now (environment_of context maps) (elements_of store.old.elements.items)
        run.old
        result (elements_of store.new.elements.items) run.new }
    ensures maps { store.new.maps ≡ store.old.maps }
    ensures births { length store.new.elements.items ≡ length store.old.elements.items }
{
    match insn {
        Insn::Load {
            width,
            dst,
            offset,
            ..
        } => load(run, store, *width, *dst, n, o, *offset),
        Insn::LoadSigned {
            width,
            dst,
            offset,
            ..
        } => load_extended(run, store, *width, *dst, n, o, *offset),
        Insn::Store {
            width,
            offset,
            src,
            ..
        } => {
            let value = run.operand(src);
            save(run, store, *width, value, n, o, *offset)
        }
        _ => Progress::Stuck,
    }
}

/// What an instruction other than a call does: what it does to the run by itself, or an access to an element.
/// Where that is stuck, the state is of no use any more.
pub(crate) fn act(
    run: &mut PlainRun,
    store: &mut Store,
    context: &[u8],
    maps: usize,
    insn: &Insn,
) -> Progress
    requires place { (plain_state_of run.old).place < MAX_PLACE }
    requires context { length context.now ≤ CTX_BYTES }
    ensures acts { ActsAs insn.now (environment_of context.now maps)
        (elements_of store.old.elements.items) run.old result (elements_of store.new.elements.items)
        run.new }
    ensures maps { store.new.maps ≡ store.old.maps }
    ensures births { length store.new.elements.items ≡ length store.old.elements.items }
{
    match element_at(insn, run) {
        Some((n, o)) => access_element(run, store, insn, n, o),
        None => run.perform(insn, context, maps),
    }
}
