//! What a helper is called for, and what it gives.

use crate::words::{frame_place, map_of, write_bytes, write_map};
use bpf_model::{
    CallKind, Errno, Helper, Insn, KEY_BYTES, KeyBytes, MapId, Reg, ResultKind, RunId, VALUE_BYTES,
    ValueBytes, array_of,
};
use machine::Run;
use maps::Registry;
use std::io;
use std::io::Write;
use world::World;

/// What is done in a map.
#[derive(Drop)]
enum Deed {
    LookUp,
    Update { value: ValueBytes, flags: u64 },
    Delete,
}

/// What a helper is called for: what it is to do, in which map, with which key.
#[derive(Drop)]
pub struct Asked {
    map: MapId,
    key: KeyBytes,
    deed: Deed,
}

/// The helper that an instruction calls.
fn helper_of(insn: &Insn) -> Option<Helper> {
    match insn {
        Insn::Call {
            kind: CallKind::Helper,
            imm,
        } => Helper::from_number(*imm),
        _ => None,
    }
}

/// So many bytes of a run's frame, from the place to which a register leads.
fn bytes_at(run: &Run, register: Reg, length: usize) -> Option<&[u8]> {
    let first = frame_place(run.register(register))?;
    run.frame().get(first..first.saturating_add(length))
}

/// The key in a run's frame to which r2 leads.
fn key_of(run: &Run, length: usize) -> Option<KeyBytes> {
    let bytes = bytes_at(run, Reg::R2, length)?;
    if bytes.len() > KEY_BYTES {
        return None;
    }
    Some(array_of(bytes))
}

/// The value in a run's frame to which r3 leads.
fn value_of(run: &Run, length: usize) -> Option<ValueBytes> {
    let bytes = bytes_at(run, Reg::R3, length)?;
    if bytes.len() > VALUE_BYTES {
        return None;
    }
    Some(array_of(bytes))
}

/// What a helper is to do in a map with values of this length: it looks up where it gives an element, and updates where it
/// takes more than a map and a key.
fn deed_of(helper: Helper, run: &Run, value_len: usize) -> Option<Deed> {
    if helper.result() == ResultKind::ElementOrNull {
        return Some(Deed::LookUp);
    }
    if helper.arguments().len() <= 2 {
        return Some(Deed::Delete);
    }
    let value = value_of(run, value_len)?;
    Some(Deed::Update {
        value,
        flags: run.register(Reg::R4),
    })
}

/// What the next step of a run calls a helper for, if it calls one.
pub fn asked_of(maps: &Registry, run: &Run, insn: &Insn) -> Option<Asked> {
    let helper = helper_of(insn)?;
    let map = map_of(maps, run.register(Reg::R1))?;
    let shape = maps.shape(map)?;
    let key = key_of(run, shape.key_len)?;
    let deed = deed_of(helper, run, shape.value_len)?;
    Some(Asked { map, key, deed })
}

/// Writes what is done, with which key, in which map.
fn write_deed<W: Write>(out: &mut W, maps: &Registry, asked: &Asked, what: &str) -> io::Result<()> {
    write!(out, "{what} key ")?;
    write_bytes(out, asked.key.as_slice())?;
    write!(out, " in ")?;
    write_map(out, maps, asked.map)
}

/// The value that a key has.
fn found<'a>(maps: &'a Registry, asked: &Asked) -> Option<&'a [u8]> {
    maps.map(asked.map)?.bytes_of(asked.key.as_slice())
}

/// The errors that a helper gives, and their names.
const ERRORS: [(Errno, &str); 5] = [
    (Errno::NoEntry, "ENOENT"),
    (Errno::TooBig, "E2BIG"),
    (Errno::NoMemory, "ENOMEM"),
    (Errno::Exists, "EEXIST"),
    (Errno::InvalidArgument, "EINVAL"),
];

/// The name of an error whose number, without its minus, this is.
fn error_named(number: u64) -> Option<&'static str> {
    let row = ERRORS
        .iter()
        .find(|row| u64::from(row.0.number()) == number)?;
    Some(row.1)
}

/// Writes what a helper has given run 0, as a number with its sign, and the name of an error.
fn write_given<W: Write>(out: &mut W, world: &World) -> io::Result<()> {
    let Some(run) = world.run(RunId::new(0)) else {
        return Ok(());
    };
    let given = run.register(Reg::R0);
    let number = given.cast_signed();
    write!(out, ", and gets {number}")?;
    match error_named(given.wrapping_neg()) {
        Some(name) => write!(out, " ({name})"),
        None => Ok(()),
    }
}

/// Writes what run 0 has called a helper for, and what it was given.
pub fn write_call<W: Write>(out: &mut W, world: &World, asked: &Asked) -> io::Result<()> {
    match &asked.deed {
        Deed::LookUp => {
            write_deed(out, world.registry(), asked, "looks up")?;
            match found(world.registry(), asked) {
                Some(value) => {
                    write!(out, ", and finds ")?;
                    write_bytes(out, value)?;
                }
                None => write!(out, ", and finds nothing")?,
            }
        }
        Deed::Update { value, flags } => {
            write_deed(out, world.registry(), asked, "updates")?;
            write!(out, " to ")?;
            write_bytes(out, value.as_slice())?;
            write!(out, " with flags {flags}")?;
            write_given(out, world)?;
        }
        Deed::Delete => {
            write_deed(out, world.registry(), asked, "deletes")?;
            write_given(out, world)?;
        }
    }
    writeln!(out)
}
