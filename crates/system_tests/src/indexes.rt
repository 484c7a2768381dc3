//! Indexes of slots by commands: finding, linking, unlinking, the next key above. Each test is done with both forms.
//! The expected replies to a few commands were worked out by hand.
ghost use Rattle.std.specs.Prelude.{◌+◌, ◌<◌, IfOk, OnOk};
ghost use Rattle.system_tests.specs.declared.indexes.TheConstants.{MANY};
ghost use Rattle.system_tests.specs.Stock.{IsStocked, IsFilled, IsLinkable, AreLinkable};

use bpf_model::array_of;
use element_store::Arena;
use hash_index::{Buckets, Command, Index, Sorted, run};
use std::alloc::{AllocError, Global};

/// The slots of the arena.
const MANY: usize = 64;

/// The key of a slot in that arena: no two have one, and they rise with the slots.
fn key_of(slot: usize) -> [u8; 2] {
    let number = slot % MANY * 37;
    [(number / 256) as u8, (number % 256) as u8]
}

/// Takes the next slot for a key.
fn take_next(arena: &mut Arena, key: &[u8; 2], slots: usize, count: usize)
    requires filled { IsFilled slots count arena.old }
    requires room { count < slots }
    ensures { IsFilled slots (count + 1) arena.new }
{
    let _slot = arena.take(key, &[7]);
}

/// The arena, whose slots have their keys.
fn stocked(alloc: Global) -> Result<Arena, AllocError>
    ensures { IfOk result (λ a. IsStocked MANY MANY a) }
{
    let mut arena = Arena::new(alloc, MANY, 2, 1, 1)?;
    for count in 0..MANY {
        take_next(&mut arena, &key_of(count), MANY, count);
    }
    Ok(arena)
}

/// The command that a number stands for: the last three bits say which, the others of which slot.
fn command_of(number: u64) -> Command
    ensures { IsLinkable MANY result }
{
    let slot = (number / 8 % MANY as u64) as usize;
    match number % 8 {
        0..=2 => Command::Link(slot),
        3 => Command::Find(array_of(&key_of(slot))),
        4 | 5 => Command::Above(Some(array_of(&key_of(slot)))),
        6 => Command::Above(None),
        _ => Command::Unlink(array_of(&key_of(slot))),
    }
}

/// One more command.
#[tactic(auto, using(crate::proofs::Stocking::linkable_append))]
fn add(all: &mut Vec<Command>, command: Command) -> Result<(), AllocError>
    requires all { AreLinkable MANY all.old.items }
    requires command { IsLinkable MANY command }
    ensures { OnOk result (AreLinkable MANY all.new.items) }
{
    all.push(command)?;
    Ok(())
}

/// The commands that these numbers stand for.
fn commands_of(alloc: Global, numbers: &[u64]) -> Result<Vec<Command>, AllocError>
    ensures { IfOk result (λ all. AreLinkable MANY all.items) }
{
    let mut all = Vec::new(alloc);
    for number in numbers {
        add(&mut all, command_of(*number))?;
    }
    Ok(all)
}

/// What an index replies to these commands.
#[tactic(auto, using(crate::proofs::Stocking::all_ready))]
fn replies_of<I: Index + Drop>(
    alloc: Global,
    numbers: &[u64],
) -> Result<Vec<Option<usize>>, AllocError> {
    let mut arena = stocked(alloc)?;
    let commands = commands_of(alloc, numbers)?;
    run::<I>(alloc, &mut arena, MANY, &commands)
}

/// Commands by what they do in the last three bits, above the slot, and the replies. A slot whose key is there is not linked again; a
/// key that was unlinked is gone until it is linked anew.
const COMMANDS: [u64; 17] = [
    0o03, 0o00, 0o10, 0o20, 0o00, 0o13, 0o17, 0o17, 0o13, 0o03, 0o23, 0o04, 0o10, 0o13, 0o04, 0o24,
    0o06,
];

const REPLIES: &str =
    "[None, None, None, None, Some(0), Some(1), Some(1), None, None, Some(0), Some(2), Some(2), \
None, Some(1), Some(1), None, Some(0)]";

/// The replies of an index to those commands, as text.
fn told<I: Index + Drop>(alloc: Global) -> Result<String, AllocError> {
    let replies = replies_of::<I>(alloc, &COMMANDS)?;
    format!(in alloc; "{:?}", replies.as_slice())
}

#[test]
fn commands_get_their_replies(rt: HostRuntime) -> Result<(), AllocError> {
    let buckets = told::<Buckets>(rt.alloc())?;
    let sorted = told::<Sorted>(rt.alloc())?;
    assert!(rt; buckets.as_str() == REPLIES);
    assert!(rt; sorted.as_str() == REPLIES);
    Ok(())
}

/// The next state of a generator.
fn next_state(state: u64) -> u64 {
    state
        .wrapping_mul(6_364_136_223_846_793_005)
        .wrapping_add(1_442_695_040_888_963_407)
}

/// So many numbers of a generator.
fn generated(alloc: Global, count: usize) -> Result<Vec<u64>, AllocError> {
    let mut all = Vec::new(alloc);
    let mut state: u64 = 1;
    for _ in 0..count {
        state = next_state(state);
        all.push(state >> 33)?;
    }
    Ok(all)
}

/// Whether there are so many replies, among them none and those of the first and the last slot.
fn are_mixed(replies: &[Option<usize>], count: usize) -> bool {
    replies.len() == count
        && replies.contains(&None)
        && replies.contains(&Some(0))
        && replies.contains(&Some(MANY - 1))
}

#[test]
fn both_forms_reply_alike(rt: HostRuntime) -> Result<(), AllocError> {
    let numbers = generated(rt.alloc(), 2000)?;
    let replies = replies_of::<Buckets>(rt.alloc(), &numbers)?;
    let others = replies_of::<Sorted>(rt.alloc(), &numbers)?;
    assert!(rt; are_mixed(&replies, 2000));
    assert!(rt; replies.as_slice() == others.as_slice());
    Ok(())
}
