//! The lists of a map's unlinked elements, which wait to be reclaimed.
ghost use Rattle.std.specs.Prelude.{◌≡◌, ◌∷◌, [], ◌++◌, ◌&&◌, ◌==◌, if◌then◌else◌, slice_get, drop, OnOk, List, map};
ghost use Rattle.bpf_model.specs.Element.{Element as ModelElement, is_linked as is_linked_of};
ghost use Rattle.bpf_model.specs.Schedule.{is_unlinked as is_unlinked_of};
ghost use Rattle.bpf_model.specs.Schedule.{turned, retired, retired_in, first_ready as first_ready_of, without_first};
ghost use Rattle.reference_store.specs.Retiring.{linked_map};
ghost use Rattle.reference_store.specs.State.{element_of, elements_of, queues_of};

use crate::element::Element;
use std::alloc::AllocError;

/// The births of a map's unlinked elements: those unlinked since the present grace period began, those
/// that wait for its end, and those that may be reclaimed.
#[derive(Drop)]
pub struct Queues {
    pub next: Vec<usize>,
    pub waiting: Vec<usize>,
    pub ready: Vec<usize>,
}

/// The births that were linked and are unlinked now go to the ends of their maps' lists next.
/// Fails where memory runs out.
pub fn retire_all(
    queues: &mut [Queues],
    before: &[Option<usize>],
    elements: &[Element],
) -> Result<(), AllocError>
    ensures { (olds : List ModelElement) → before.now
        ≡ map linked_map olds →
        OnOk result
        (map queues_of queues.new
        ≡ retired 0 olds (elements_of elements.now) (map queues_of queues.old)) }
{
    for k in 0..queues.len() {
        retire(&mut queues[k], k, before, elements)?;
    }
    Ok(())
}

/// A grace period ends in each map: the births that waited are ready, and those unlinked meanwhile wait.
/// Fails where memory runs out.
pub fn turn_all(queues: &mut [Queues]) -> Result<(), AllocError>
    ensures { OnOk result (map queues_of queues.new ≡ map turned (map queues_of queues.old)) }
{
    for k in 0..queues.len() {
        turn(&mut queues[k])?;
    }
    Ok(())
}

/// The first ready birth of a map.
fn first_of(queues: &Queues) -> Option<usize>
    ensures { result ≡ slice_get (queues_of queues.now).ready 0 }
{
    match queues.ready.first() {
        Some(n) => Some(*n),
        None => None,
    }
}

/// The first ready birth of the lowest map that has one.
pub fn first_ready(queues: &[Queues]) -> Option<usize>
    ensures { result ≡ first_ready_of (map queues_of queues.now) }
{
    for k in 0..queues.len() {
        if let Some(n) = first_of(&queues[k]) {
            return Some(n);
        }
    }
    None
}

/// The first ready birth of a map is ready no more.
fn drop_first(queues: &mut Queues)
    ensures { queues_of queues.new
        ≡ record {
          next = (queues_of queues.old).next;
          waiting = (queues_of queues.old).waiting;
          ready
              = drop 1 (queues_of queues.old).ready;
        } }
{
    if !queues.ready.is_empty() {
        let _ = queues.ready.remove(0);
    }
}

/// The first ready birth of the lowest map that has one is ready no more.
pub fn take_first(queues: &mut [Queues])
    ensures { map queues_of queues.new ≡ without_first (map queues_of queues.old) }
{
    for k in 0..queues.len() {
        if first_of(&queues[k]).is_some() {
            drop_first(&mut queues[k]);
            return;
        }
    }
}

/// Whether an element that was linked in this map, or in none, is one of map k and is unlinked now.
fn is_retired(before: Option<usize>, k: usize, element: &Element) -> bool
    ensures { (old : ModelElement) → before ≡ linked_map old → result
        ≡ (is_linked_of old.life && is_unlinked_of (element_of element.now).life
        && (old.map == k)) }
{
    match before {
        Some(map) => element.life.is_unlinked() && map == k,
        None => false,
    }
}

/// Adds a number at the end of a list, where it is wanted.
fn push_if(list: &mut Vec<usize>, wanted: bool, n: usize) -> Result<(), AllocError>
    ensures { OnOk result (list.new.items ≡ list.old.items ++ (if wanted then n ∷ [] else [])) }
{
    if wanted {
        list.push(n)?;
    }
    Ok(())
}

/// The births of map k that were linked and are unlinked now go to the end of its list next.
fn retire(
    queues: &mut Queues,
    k: usize,
    before: &[Option<usize>],
    elements: &[Element],
) -> Result<(), AllocError>
    ensures { (olds : List ModelElement) → before.now
        ≡ map linked_map olds →
        OnOk result
        (queues_of queues.new
        ≡ retired_in k olds (elements_of elements.now) (queues_of queues.old)) }
{
    for n in 0..before.len().min(elements.len()) {
        push_if(&mut queues.next, is_retired(before[n], k, &elements[n]), n)?;
    }
    Ok(())
}

/// A grace period ends in a map: the births that waited are ready, and those unlinked meanwhile wait.
fn turn(queues: &mut Queues) -> Result<(), AllocError>
    ensures { OnOk result (queues_of queues.new ≡ turned (queues_of queues.old)) }
{
    queues.ready.append(&mut queues.waiting)?;
    queues.waiting.append(&mut queues.next)?;
    Ok(())
}
