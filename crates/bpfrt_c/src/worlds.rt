//! Worlds: what happens in them.
ghost use Rattle.std.specs.Prelude.{◌≡◌, ◌≢◌, ◌⊎◌, ◌<◌, ◌≤◌, ◌^◌, ℕ, pos, neg_ℤ, Some, None, IsSome, IfSome, length};
ghost use Rattle.bpf_model.specs.declared.event.Answer.{Answer as Answer_};
ghost use Rattle.bpf_model.specs.declared.event.Answer.TheVariants as answers;
ghost use Rattle.bpf_model.specs.declared.event.EventRefusal.{EventRefusal as Refusal_};
ghost use Rattle.bpf_model.specs.declared.event.Event.TheVariants as events;
ghost use Rattle.bpf_model.specs.declared.limits.TheConstants.{CTX_BYTES, KEY_BYTES, VALUE_BYTES};
ghost use Rattle.host_handle.specs.Values.{world_in};
ghost use Rattle.model_laws.specs.Reactions.{read_reaction};
ghost use Rattle.bpfrt_c.specs.Worlds.{FindsBytes, FindsLength, IsAnswer, IsNumberOf, Reacts, answer_number, refusal_error};

use crate::number::{EAGAIN, EBADF, EBUSY, EINVAL, ENOENT, ENXIO, ESRCH};
use bpf_model::{
    Answer, CTX_BYTES, Event, EventRefusal, KEY_BYTES, MapId, ProgId, RunId, VALUE_BYTES, array_of,
};
use host_handle::{Held, Host};
use std::alloc::Global;
use world::World;

/// The number of a refusal.
pub(crate) fn number_of_refusal(refusal: EventRefusal) -> i32
    ensures { result ≡ neg_ℤ (pos (refusal_error refusal)) }
{
    match refusal {
        EventRefusal::NoRun | EventRefusal::Ended => ESRCH,
        EventRefusal::NoProgram | EventRefusal::NoMap => ENXIO,
        EventRefusal::BadContext | EventRefusal::BadLength => EINVAL,
        EventRefusal::RunsFull => EAGAIN,
        EventRefusal::StillRunning => EBUSY,
    }
}

/// The number of an answer.
fn number_of(answer: &Answer) -> i32
    ensures { result ≡ answer_number answer.now }
{
    match answer {
        Answer::Started(_)
        | Answer::Moved
        | Answer::Done
        | Answer::Ret(Ok(()))
        | Answer::Found(Some(_))
        | Answer::Reaped(None) => 0,
        Answer::Exited(_) | Answer::Reaped(Some(_)) => 1,
        Answer::Ret(Err(errno)) => 0 - i32::from(errno.number()),
        Answer::Found(None) => ENOENT,
        Answer::Refused(refusal) => number_of_refusal(*refusal),
    }
}

/// Has one event happen in the world that is held. `None` where none is.
fn apply(alloc: Global, host: &mut Host, event: &Event) -> Option<Answer>
    ensures answer { IfSome result (IsAnswer event.now (world_in host.old.handle.held)) }
    ensures some { IsSome (world_in host.old.handle.held) → IsSome result }
    ensures reacts { Reacts event.now (world_in host.old.handle.held) (world_in host.new.handle.held) }
    ensures none { world_in host.old.handle.held ≡ None → (result ≡ None)
        × (host.new.handle.held ≡ host.old.handle.held) }
{
    let Some(mut held) = host.take(alloc) else {
        return None;
    };
    let answer = match held.as_mut() {
        Held::World(world) => Some(world.apply(event)),
        _ => None,
    };
    host.put(held);
    answer
}

/// Has one event happen, and answers with its number.
fn number_by(alloc: Global, host: &mut Host, event: &Event) -> i32
    ensures number { IsNumberOf event.now (world_in host.old.handle.held) result }
    ensures reacts { Reacts event.now (world_in host.old.handle.held) (world_in host.new.handle.held) }
    ensures none { world_in host.old.handle.held ≡ None →
        host.new.handle.held ≡ host.old.handle.held }
{
    match apply(alloc, host, event) {
        Some(answer) => number_of(&answer),
        None => EBADF,
    }
}

/// Stores a value under a key. Flags: 0, or 1 for a new key alone, or 2 for one that is there.
///
/// 0, or -EBADF where no world is held; -ENXIO where no map has the number; -EINVAL for a wrong length or flag; -EEXIST, -ENOENT;
/// -E2BIG where the map is full; -ENOMEM where no slot is free.
#[unsafe(no_mangle)]
pub extern "C" fn bpfrt0_map_update_elem(
    alloc: Global,
    host: &mut Host,
    map: u32,
    key: &[u8],
    value: &[u8],
    flags: u64,
) -> i32
    ensures number { length key.now ≤ KEY_BYTES → length value.now ≤ VALUE_BYTES →
        IsNumberOf (events.Update map (record { items = key.now }) (record { items = value.now }) flags)
        (world_in host.old.handle.held) result }
    ensures reacts { length key.now ≤ KEY_BYTES → length value.now ≤ VALUE_BYTES →
        Reacts (events.Update map (record { items = key.now }) (record { items = value.now }) flags)
        (world_in host.old.handle.held) (world_in host.new.handle.held) }
    ensures long { (KEY_BYTES < length key.now) ⊎ (VALUE_BYTES < length value.now) →
        (result ≡ neg_ℤ (pos 22)) × (host.new.handle.held ≡ host.old.handle.held) }
    ensures none { world_in host.old.handle.held ≡ None → host.new.handle.held ≡ host.old.handle.held }
{
    if key.len() > KEY_BYTES || value.len() > VALUE_BYTES {
        return EINVAL;
    }
    let event = Event::Update {
        map: MapId::new(map as usize),
        key: array_of(key),
        value: array_of(value),
        flags,
    };
    number_by(alloc, host, &event)
}

/// Removes a key of a hash map. 0, or -EBADF, -ENXIO, -EINVAL as `bpfrt0_map_update_elem`; -ENOENT.
#[unsafe(no_mangle)]
pub extern "C" fn bpfrt0_map_delete_elem(
    alloc: Global,
    host: &mut Host,
    map: u32,
    key: &[u8],
) -> i32
    ensures number { length key.now ≤ KEY_BYTES → IsNumberOf (events.Delete map (record { items = key.now }))
        (world_in host.old.handle.held) result }
    ensures reacts { length key.now ≤ KEY_BYTES → Reacts (events.Delete map (record { items = key.now }))
        (world_in host.old.handle.held) (world_in host.new.handle.held) }
    ensures long { KEY_BYTES < length key.now →
        (result ≡ neg_ℤ (pos 22)) × (host.new.handle.held ≡ host.old.handle.held) }
    ensures none { world_in host.old.handle.held ≡ None → host.new.handle.held ≡ host.old.handle.held }
{
    if key.len() > KEY_BYTES {
        return EINVAL;
    }
    let event = Event::Delete {
        map: MapId::new(map as usize),
        key: array_of(key),
    };
    number_by(alloc, host, &event)
}

/// Copies the value of a key in a world, where the room has its length; answers with the number of another answer. It does what the
/// event would do, which changes nothing, without an answer of its own.
fn read_value(world: &World, map: u32, key: &[u8], value: &mut [u8]) -> i32
    ensures copied { result ≡ pos 0 → FindsBytes (read_reaction world.now map key.now).0 value.new }
    ensures there { FindsLength (read_reaction world.now map key.now).0 (length value.old) → result ≡ pos 0 }
    ensures missing { (read_reaction world.now map key.now).0 ≡ answers.Found None → result ≡ neg_ℤ (pos 2) }
    ensures same { (read_reaction world.now map key.now).1 ≡ world.now }
    ensures unwritten { result ≢ pos 0 → value.new ≡ value.old }
{
    let Some(chosen) = world.registry().map(MapId::new(map as usize)) else {
        return ENXIO;
    };
    if key.len() != chosen.shape().key_len {
        return EINVAL;
    }
    let Some(bytes) = chosen.bytes_of(key) else {
        return ENOENT;
    };
    if bytes.len() != value.len() {
        return EINVAL;
    }
    value.copy_from_slice(bytes);
    0
}

/// Copies the value of a key. 0, or -EBADF, -ENXIO; -EINVAL where the key or the room has another length; -ENOENT.
#[unsafe(no_mangle)]
pub extern "C" fn bpfrt0_map_lookup_elem(
    alloc: Global,
    host: &mut Host,
    map: u32,
    key: &[u8],
    value: &mut [u8],
) -> i32
    ensures found { result ≡ pos 0 → (answer : Answer_)
        × IsAnswer (events.Read map (record { items = key.now })) (world_in host.old.handle.held) answer
        × FindsBytes answer value.new }
    ensures there { (answer : Answer_) → length key.now ≤ KEY_BYTES →
        IsAnswer (events.Read map (record { items = key.now })) (world_in host.old.handle.held) answer →
        FindsLength answer (length value.old) → result ≡ pos 0 }
    ensures missing { length key.now ≤ KEY_BYTES →
        IsAnswer (events.Read map (record { items = key.now })) (world_in host.old.handle.held) (answers.Found None) →
        result ≡ neg_ℤ (pos 2) }
    ensures unwritten { result ≢ pos 0 → value.new ≡ value.old }
    ensures reacts { length key.now ≤ KEY_BYTES → Reacts (events.Read map (record { items = key.now }))
        (world_in host.old.handle.held) (world_in host.new.handle.held) }
    ensures long { KEY_BYTES < length key.now →
        (result ≡ neg_ℤ (pos 22)) × (host.new.handle.held ≡ host.old.handle.held) }
    ensures none { length key.now ≤ KEY_BYTES → world_in host.old.handle.held ≡ None →
        (result ≡ neg_ℤ (pos 9)) × (host.new.handle.held ≡ host.old.handle.held) }
{
    if key.len() > KEY_BYTES {
        return EINVAL;
    }
    let Some(held) = host.take(alloc) else {
        return EBADF;
    };
    let number = match held.as_ref() {
        Held::World(world) => read_value(world, map, key, value),
        _ => EBADF,
    };
    host.put(held);
    number
}

/// The number of the run that an answer names, or that of another answer.
fn number_of_start(answer: &Answer) -> i32
    ensures started { (run : ℕ) → answer.now ≡ answers.Started run → run < 2 ^ 31 → result ≡ pos run }
    ensures refused { (why : Refusal_) → answer.now ≡ answers.Refused why →
        result ≡ neg_ℤ (pos (refusal_error why)) }
{
    match answer {
        Answer::Started(run) => match i32::try_from(run.index()) {
            Ok(number) => number,
            Err(_) => EAGAIN,
        },
        Answer::Refused(refusal) => number_of_refusal(*refusal),
        _ => EAGAIN,
    }
}

/// Starts a run that is stepped by hand, on a context: its number.
///
/// -EBADF where no world is held; -ENXIO where no program has the number; -EINVAL where the context has another length; -EAGAIN where
/// every run slot is occupied.
#[tactic(auto, using(crate::proofs::Answered::one_answer))]
#[unsafe(no_mangle)]
pub extern "C" fn bpfrt0_world_start(
    alloc: Global,
    host: &mut Host,
    prog: u32,
    context: &[u8],
) -> i32
    ensures started { (run : ℕ) → length context.now ≤ CTX_BYTES → run < 2 ^ 31 →
        IsAnswer (events.Start prog (record { items = context.now })) (world_in host.old.handle.held) (answers.Started run) →
        result ≡ pos run }
    ensures refused { (why : Refusal_) → length context.now ≤ CTX_BYTES →
        IsAnswer (events.Start prog (record { items = context.now })) (world_in host.old.handle.held) (answers.Refused why) →
        result ≡ neg_ℤ (pos (refusal_error why)) }
    ensures reacts { length context.now ≤ CTX_BYTES → Reacts (events.Start prog (record { items = context.now }))
        (world_in host.old.handle.held) (world_in host.new.handle.held) }
    ensures long { CTX_BYTES < length context.now →
        (result ≡ neg_ℤ (pos 22)) × (host.new.handle.held ≡ host.old.handle.held) }
    ensures none { length context.now ≤ CTX_BYTES → world_in host.old.handle.held ≡ None →
        (result ≡ neg_ℤ (pos 9)) × (host.new.handle.held ≡ host.old.handle.held) }
{
    if context.len() > CTX_BYTES {
        return EINVAL;
    }
    let event = Event::Start {
        prog: ProgId::new(prog as usize),
        ctx: array_of(context),
    };
    match apply(alloc, host, &event) {
        Some(answer) => number_of_start(&answer),
        None => EBADF,
    }
}

/// One step of a run: 0 where it goes on; 1 where it has exited, with its value. -EBADF; -ESRCH where there is no such run, or it has
/// ended.
#[unsafe(no_mangle)]
pub extern "C" fn bpfrt0_world_step(
    alloc: Global,
    host: &mut Host,
    run: u32,
    value: &mut u64,
) -> i32
    ensures number { IsNumberOf (events.Step run) (world_in host.old.handle.held) result }
    ensures reacts { Reacts (events.Step run) (world_in host.old.handle.held) (world_in host.new.handle.held) }
    ensures exited { result ≡ pos 1 → IsAnswer (events.Step run) (world_in host.old.handle.held) (answers.Exited value.new) }
    ensures unwritten { result ≢ pos 1 → value.new ≡ value.old }
    ensures none { world_in host.old.handle.held ≡ None → host.new.handle.held ≡ host.old.handle.held }
{
    let event = Event::Step {
        run: RunId::new(run as usize),
    };
    match apply(alloc, host, &event) {
        Some(Answer::Exited(number)) => {
            *value = number;
            1
        }
        Some(answer) => number_of(&answer),
        None => EBADF,
    }
}

/// Takes a run out that has exited. 0, or -EBADF, -ESRCH; -EBUSY where it has not exited.
#[unsafe(no_mangle)]
pub extern "C" fn bpfrt0_world_drop(alloc: Global, host: &mut Host, run: u32) -> i32
    ensures number { IsNumberOf (events.Drop run) (world_in host.old.handle.held) result }
    ensures reacts { Reacts (events.Drop run) (world_in host.old.handle.held) (world_in host.new.handle.held) }
    ensures none { world_in host.old.handle.held ≡ None → host.new.handle.held ≡ host.old.handle.held }
{
    let event = Event::Drop {
        run: RunId::new(run as usize),
    };
    number_by(alloc, host, &event)
}

/// A grace period may end, and the next begin. 0, or -EBADF.
#[unsafe(no_mangle)]
pub extern "C" fn bpfrt0_world_advance(alloc: Global, host: &mut Host) -> i32
    ensures number { IsNumberOf events.Advance (world_in host.old.handle.held) result }
    ensures reacts { Reacts events.Advance (world_in host.old.handle.held) (world_in host.new.handle.held) }
    ensures none { world_in host.old.handle.held ≡ None → host.new.handle.held ≡ host.old.handle.held }
{
    number_by(alloc, host, &Event::Advance)
}

/// Reclaims one element whose grace period has ended: 1, or 0 where there is none. -EBADF.
#[unsafe(no_mangle)]
pub extern "C" fn bpfrt0_world_reap(alloc: Global, host: &mut Host) -> i32
    ensures number { IsNumberOf events.Reap (world_in host.old.handle.held) result }
    ensures reacts { Reacts events.Reap (world_in host.old.handle.held) (world_in host.new.handle.held) }
    ensures none { world_in host.old.handle.held ≡ None → host.new.handle.held ≡ host.old.handle.held }
{
    number_by(alloc, host, &Event::Reap)
}
