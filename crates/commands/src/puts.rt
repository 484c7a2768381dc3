//! Elements that are put into a file's maps.
ghost use Rattle.std.specs.Prelude.{◌≡◌, ◌⊎◌, map, None, Some, IfOk, IfErr};
ghost use Rattle.bpf_model.specs.declared.event.EventRefusal.{EventRefusal as RefusalOf};
ghost use Rattle.program_files.specs.declared.verdict.Verdict.TheVariants.{Memory};
ghost use Rattle.commands.specs.declared.refusal.CommandRefusal.TheVariants.{File, Event as OfEvent};
ghost use Rattle.commands.specs.Runs.{element_refusal, put_event, AllFit, HasBadElement};

use crate::refusal::CommandRefusal;
use bpf_model::{Event, EventRefusal, array_of};
use command_words::MapElement;
use maps::Registry;
use program_files::Verdict;
use std::alloc::Global;

/// The event by which an element is put into its map, or the first test that it fails.
fn put_of(registry: &Registry, element: &MapElement) -> Result<Event, EventRefusal>
    ensures fits { IfOk result (λ _. element_refusal registry.now element.now ≡ None) }
    ensures put { IfOk result (λ e. e ≡ put_event registry.now element.now) }
    ensures refused { IfErr result (λ r. element_refusal registry.now element.now ≡ Some r) }
{
    let Some(map) = registry.id(element.map.as_str()) else {
        return Err(EventRefusal::NoMap);
    };
    let Some(shape) = registry.shape(map) else {
        return Err(EventRefusal::NoMap);
    };
    registry.have_shapes();
    if element.key.len() != shape.key_len {
        return Err(EventRefusal::BadLength);
    }
    if element.value.len() != shape.value_len {
        return Err(EventRefusal::BadLength);
    }
    Ok(Event::Update {
        map,
        key: array_of(&element.key),
        value: array_of(&element.value),
        flags: 0,
    })
}

/// The events by which elements are put into maps, one after another, or the first
/// test that is failed by the first element that fails one.
pub fn puts_of(
    alloc: Global,
    registry: &Registry,
    elements: &[MapElement],
) -> Result<Vec<Event>, CommandRefusal>
    ensures fit { IfOk result (λ _. AllFit registry.now elements.now) }
    ensures puts { IfOk result (λ es. es.items ≡ map (put_event registry.now) elements.now) }
    ensures refused { IfErr result (λ v. (v ≡ File Memory) ⊎
        ((r : RefusalOf) × HasBadElement registry.now elements.now r × (v ≡ OfEvent r))) }
{
    let mut puts = Vec::new(alloc);
    for number in 0..elements.len() {
        match put_of(registry, &elements[number]) {
            Ok(put) => {
                if puts.push(put).is_err() {
                    return Err(CommandRefusal::File(Verdict::Memory));
                }
            }
            Err(refusal) => return Err(CommandRefusal::Event(refusal)),
        }
    }
    Ok(puts)
}
