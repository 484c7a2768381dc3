//! What a command asks of a world.
ghost use Rattle.std.specs.Prelude.{◌≡◌};
ghost use Rattle.bpf_model.specs.declared.event.Event.TheVariants as Events;
ghost use Rattle.control.specs.declared.asked.Asked.TheVariants as Wanted;
ghost use Rattle.control.specs.Questions.{of_map, of_length, start_on, IsAsked};

use crate::map_names::map_named;
use bpf_model::{CtxBytes, Event, EventRefusal, KeyBytes, MapId, ProgId, RunId, ValueBytes};
use maps::Registry;
use script_lines::{Bytes, ScriptCommand};

/// What a command asks of a world.
#[derive(Drop)]
pub enum Asked {
    /// The command makes a map or loads a program, which is too late.
    TooLate,
    /// The command is refused whatever the world is.
    Refused(EventRefusal),
    /// An event.
    Event(Event),
    /// The start of a program on a context that is longer than any.
    Overlong(ProgId),
    /// At most so many steps of a run.
    Steps { run: RunId, count: u64 },
    /// The counts of the world.
    Counts,
    /// The elements of a map.
    Elements(MapId),
}

fn ask_put(map: Option<MapId>, key: Bytes<KeyBytes>, value: Bytes<ValueBytes>, flags: u64) -> Asked
    ensures { result ≡ of_map map (λ m. of_length key (λ k. of_length value
        (λ v. Wanted.Event (Events.Update m k v flags)))) }
{
    let Some(map) = map else {
        return Asked::Refused(EventRefusal::NoMap);
    };
    match (key, value) {
        (Bytes::Fit(key), Bytes::Fit(value)) => Asked::Event(Event::Update {
            map,
            key,
            value,
            flags,
        }),
        _ => Asked::Refused(EventRefusal::BadLength),
    }
}

fn ask_get(map: Option<MapId>, key: Bytes<KeyBytes>) -> Asked
    ensures { result ≡ of_map map (λ m. of_length key (λ k. Wanted.Event (Events.Read m k))) }
{
    match (map, key) {
        (None, _) => Asked::Refused(EventRefusal::NoMap),
        (Some(map), Bytes::Fit(key)) => Asked::Event(Event::Read { map, key }),
        (Some(_), Bytes::TooLong) => Asked::Refused(EventRefusal::BadLength),
    }
}

fn ask_del(map: Option<MapId>, key: Bytes<KeyBytes>) -> Asked
    ensures { result ≡ of_map map (λ m. of_length key (λ k. Wanted.Event (Events.Delete m k))) }
{
    match (map, key) {
        (None, _) => Asked::Refused(EventRefusal::NoMap),
        (Some(map), Bytes::Fit(key)) => Asked::Event(Event::Delete { map, key }),
        (Some(_), Bytes::TooLong) => Asked::Refused(EventRefusal::BadLength),
    }
}

fn ask_start(prog: u64, ctx: Bytes<CtxBytes>) -> Asked
    ensures { result ≡ start_on prog ctx }
{
    let prog = ProgId::new(prog as usize);
    match ctx {
        Bytes::Fit(ctx) => Asked::Event(Event::Start { prog, ctx }),
        Bytes::TooLong => Asked::Overlong(prog),
    }
}

fn ask_dump(map: Option<MapId>) -> Asked
    ensures { result ≡ of_map map (λ m. Wanted.Elements m) }
{
    match map {
        None => Asked::Refused(EventRefusal::NoMap),
        Some(map) => Asked::Elements(map),
    }
}

/// What a command asks of a world of these maps.
pub fn ask(maps: &Registry, command: ScriptCommand<'_>) -> Asked
    ensures { IsAsked maps.now.names command.entry result }
{
    match command {
        ScriptCommand::Map { .. } | ScriptCommand::Load { .. } => Asked::TooLate,
        ScriptCommand::Put {
            map,
            key,
            value,
            flags,
        } => ask_put(map_named(maps, map.bytes()), key, value, flags),
        ScriptCommand::Get { map, key } => ask_get(map_named(maps, map.bytes()), key),
        ScriptCommand::Del { map, key } => ask_del(map_named(maps, map.bytes()), key),
        ScriptCommand::Start { prog, ctx } => ask_start(prog, ctx),
        ScriptCommand::Step { run, count } => Asked::Steps {
            run: RunId::new(run as usize),
            count,
        },
        ScriptCommand::Advance => Asked::Event(Event::Advance),
        ScriptCommand::Reap => Asked::Event(Event::Reap),
        ScriptCommand::Drop { run } => Asked::Event(Event::Drop {
            run: RunId::new(run as usize),
        }),
        ScriptCommand::Stat => Asked::Counts,
        ScriptCommand::Dump { map } => ask_dump(map_named(maps, map.bytes())),
    }
}
