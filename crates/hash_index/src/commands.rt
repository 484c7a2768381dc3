//! Commands to an index of any form, and its replies.
ghost use Rattle.std.specs.Prelude.{◌≡◌, ◌≤◌, IfOk, is_some, option_map, length, if◌then◌else◌};
ghost use Rattle.std.specs.FinMap as map;
ghost use Rattle.element_store.specs.State.{IsTaken, key_at};
ghost use Rattle.hash_index.specs.Replies.{IsKeyed, IsReadyCommand, AreReadyCommands, first_above, reply_of, after_command, replies};

use crate::index::Index;
use bpf_model::KeyBytes;
use element_store::Arena;
use std::alloc::{AllocError, Global};

/// A command to an index. The reply to each is the slot that the index had before it under the command's key,
/// or above the bound.
#[derive(Debug, PartialEq, Eq, Drop)]
pub enum Command {
    /// The taken slot joins, if no slot has its key.
    Link(usize),
    /// The slot of the key is asked for.
    Find(KeyBytes),
    /// The slot of the key leaves, if there is one.
    Unlink(KeyBytes),
    /// The slot of the least key above the bound is asked for.
    Above(Option<KeyBytes>),
}

/// Links a slot whose key is absent. The reply is the slot that has the key.
fn link_absent<I: Index>(index: &mut I, arena: &mut Arena, slot: usize) -> Option<usize>
    requires fits { I.fits index.old arena.old }
    requires taken { IsTaken arena.old slot }
    ensures reply { result
        ≡ map.get (I.contents index.old arena.old) (key_at arena.old.slots slot) }
    ensures contents { I.contents index.new arena.new
        ≡ (if is_some result then I.contents index.old arena.old
        else map.insert (I.contents index.old arena.old) (key_at arena.old.slots slot) slot) }
    ensures fits { I.fits index.new arena.new }
    ensures links { arena.new ≡ record arena.old { links = arena.new.links } }
{
    let place = index.find(arena, arena.key(slot));
    match place.slot {
        Some(other) => Some(other),
        None => {
            index.link(arena, place, slot);
            None
        }
    }
}

/// The slot of the least key above a bound.
fn find_above<I: Index>(index: &I, arena: &Arena, bound: &Option<KeyBytes>) -> Option<usize>
    requires { I.fits index.now arena.now }
    ensures { result ≡ first_above (option_map (λ k. k.items) bound.now)
        (map.entries (I.contents index.now arena.now)) }
{
    match bound {
        None => index.next_above(arena, None),
        Some(key) => index.next_above(arena, Some(key.as_slice())),
    }
}

/// Does one command.
fn step<I: Index>(index: &mut I, arena: &mut Arena, command: &Command) -> Option<usize>
    requires fits { I.fits index.old arena.old }
    requires ready { IsReadyCommand arena.old command.now }
    requires keyed { IsKeyed (key_at arena.old.slots) (I.contents index.old arena.old) }
    ensures reply { result
        ≡ reply_of (key_at arena.old.slots) command.now (I.contents index.old arena.old) }
    ensures contents { I.contents index.new arena.new
        ≡ after_command (key_at arena.old.slots) command.now (I.contents index.old arena.old) }
    ensures fits { I.fits index.new arena.new }
    ensures links { arena.new ≡ record arena.old { links = arena.new.links } }
{
    match command {
        Command::Link(slot) => link_absent(index, arena, *slot),
        Command::Find(key) => index.find(arena, key.as_slice()).slot,
        Command::Unlink(key) => index.unlink(arena, key.as_slice()),
        Command::Above(bound) => find_above(index, arena, bound),
    }
}

/// Runs commands on a new index over an arena of at most so many slots, and answers their replies in order:
/// those of a finite map, whatever the form of the index. The error is that there is no memory left.
pub fn run<I: Index + Drop>(
    alloc: Global,
    arena: &mut Arena,
    slots: usize,
    commands: &[Command],
) -> Result<Vec<Option<usize>>, AllocError>
    requires slots { length arena.old.slots ≤ slots }
    requires ready { AreReadyCommands arena.old commands.now }
    ensures { IfOk result (λ all. all.items
        ≡ replies (key_at arena.old.slots) commands.now map.empty) }
{
    let mut index = I::new(alloc, commands.len(), slots)?;
    let mut all = Vec::new(alloc);
    for command in commands {
        all.push(step(&mut index, arena, command))?;
    }
    Ok(all)
}
