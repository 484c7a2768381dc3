//! Why one run is refused though its file is sound, in words for people.
ghost use Rattle.bpf_model.specs.View.{AreNewMaps};

use crate::puts::puts_of;
use crate::refusal::CommandRefusal;
use bpf_model::{Answer, Errno, EventRefusal, MapKind, MapShape};
use command_words::{MapElement, SingleRun};
use hex::encode;
use maps::Registry;
use program_files::{FileBytes, HEADING, Source};
use std::alloc::Global;
use std::io;
use std::io::Write;
use texts::{write_length, write_names};
use world::World;

/// Writes what is wrong with the first element that names no map of the file, or has another length than its map's.
fn write_misfit<W: Write>(out: &mut W, maps: &Registry, elements: &[MapElement]) -> io::Result<()> {
    for element in elements {
        let map = element.map.as_str();
        let Some(shape) = shape_named(maps, map) else {
            write!(out, "  --map names {map:?}; ")?;
            return write_names(out, maps, "the file's maps are", "the file has no maps");
        };
        let (key, value) = (element.key.len(), element.value.len());
        if key != shape.key_len || value != shape.value_len {
            write_length(out, map, "KEY", key, shape.key_len)?;
            return write_length(out, map, "VALUE", value, shape.value_len);
        }
    }
    Ok(())
}

/// The shape of the map of a name.
fn shape_named(maps: &Registry, name: &str) -> Option<MapShape> {
    maps.shape(maps.id(name)?)
}

/// The first of these elements for which the new maps of a file have no place, the shape of its map, and why.
fn without_place<'a>(
    alloc: Global,
    source: Source,
    elements: &'a [MapElement],
) -> Option<(&'a MapElement, MapShape, Errno)>
    requires { AreNewMaps source.registry.maps }
{
    let puts = puts_of(alloc, &source.registry, elements).ok()?;
    let mut world = World::new(alloc, source.registry, Vec::new(alloc)).ok()?;
    let answers = world.run_all(alloc, &puts).ok()?;
    for (element, answer) in elements.iter().zip(answers.iter()) {
        if let Answer::Ret(Err(why)) = answer {
            let shape = shape_named(world.registry(), element.map.as_str())?;
            return Some((element, shape, *why));
        }
    }
    None
}

/// Writes why a map of this shape has no place for an element.
fn write_why<W: Write>(out: &mut W, shape: &MapShape, why: Errno) -> io::Result<()> {
    let (entries, spare) = (shape.entries, shape.spare);
    match (shape.kind, why) {
        (MapKind::Hash, Errno::TooBig) => {
            writeln!(
                out,
                "it has as many elements as it may have, ENTRIES {entries}"
            )
        }
        (MapKind::Hash, _) => writeln!(
            out,
            "no map slot is free, of ENTRIES {entries} and SPARE {spare}; a key that is put again takes another one"
        ),
        _ => writeln!(out, "an array has the indices below its ENTRIES, {entries}"),
    }
}

/// Writes for which element there is no place, and why.
fn write_unplaced<W: Write>(
    alloc: Global,
    file: &FileBytes,
    elements: &[MapElement],
    out: &mut W,
) -> io::Result<()> {
    let Ok(source) = file.source(alloc) else {
        return Ok(());
    };
    let Some((element, shape, why)) = without_place(alloc, source, elements) else {
        return Ok(());
    };
    let (map, key) = (&element.map, encode(alloc, &element.key)?);
    write!(out, "  the map `{map}` has no place for the key {key}: ")?;
    write_why(out, &shape, why)
}

/// What tells how long a file's context is.
fn context_words(file: &FileBytes) -> &'static str {
    match file {
        FileBytes::Whole(bytes) if bytes.starts_with(HEADING) => "as the file tells",
        _ => "since a raw file tells of no context",
    }
}

/// Writes what is wrong with the context or with the first element that does not fit.
fn write_event<W: Write>(
    alloc: Global,
    file: &FileBytes,
    refusal: EventRefusal,
    single: &SingleRun,
    out: &mut W,
) -> io::Result<()> {
    let Ok(source) = file.source(alloc) else {
        return Ok(());
    };
    if refusal != EventRefusal::BadContext {
        return write_misfit(out, &source.registry, &single.elements);
    }
    let (given, due) = (single.context.len(), source.ctx_len);
    let why = context_words(file);
    writeln!(
        out,
        "  CTX has length {given}, and is to have length {due}, {why}"
    )
}

/// Writes what is wrong with the context or the elements of one run, whose file is sound.
pub fn explain_run<W: Write>(
    alloc: Global,
    file: &FileBytes,
    refusal: CommandRefusal,
    single: &SingleRun,
    out: &mut W,
) -> io::Result<()> {
    match refusal {
        CommandRefusal::NoPlace => write_unplaced(alloc, file, &single.elements, out),
        CommandRefusal::Event(refusal) => write_event(alloc, file, refusal, single, out),
        CommandRefusal::File(_) | CommandRefusal::Pool(_) => Ok(()),
    }
}
