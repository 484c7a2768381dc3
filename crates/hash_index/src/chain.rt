//! Chains of slots, by the links that stand in them.
ghost use Rattle.std.specs.Prelude.{◌≡◌, ◌<◌, ◌≤◌, Some, OnOk, ◌++◌, ℕ, List, length, option_copied, IfSome, ◌∷◌, []};
ghost use Rattle.element_store.specs.State.{key_at, times_in, slot_of};
ghost use Rattle.hash_index.specs.Order.{IsLeastOf};
ghost use Rattle.element_store.specs.Threads.{chain_of};
ghost use Rattle.hash_index.specs.Chains.{IsChain, IsCut, StandsBehind};

use crate::key_form::KeyForm;
use crate::keys::{is_above, is_less};
use crate::place::Place;
use element_store::Arena;
use std::alloc::AllocError;

/// The place of a key whose chain is this one: the first slot of the chain that has the key, and the
/// slot before it.
#[inline]
pub(crate) fn search<K: KeyForm>(
    arena: &Arena,
    home: usize,
    first: Option<usize>,
    key: &[u8],
) -> Place
    requires chain { IsChain arena.now first }
    requires serves { K.serves key.now }
    ensures home { result.home ≡ home }
    ensures slot { result.slot ≡ slot_of (key_at arena.now.slots) (chain_of arena.now first) key.now }
    ensures behind { IfSome result.slot (StandsBehind (chain_of arena.now first) result.last) }
{
    let mut last = None;
    let mut at = first;
    while let Some(slot) = at {
        if K::is_at(arena, slot, key) {
            return Place {
                slot: Some(slot),
                home,
                last,
            };
        }
        last = Some(slot);
        at = arena.next_of(slot);
    }
    Place {
        slot: None,
        home,
        last: None,
    }
}

/// Takes a slot out of a chain, where `last` is linked to it or it is the first, and answers the first slot
/// that is left.
#[inline]
pub(crate) fn cut(
    arena: &mut Arena,
    first: Option<usize>,
    last: Option<usize>,
    slot: usize,
) -> Option<usize>
    requires chain { IsChain arena.old first }
    requires once { (j : ℕ) → times_in j (chain_of arena.old first) ≤ 1 }
    requires behind { StandsBehind (chain_of arena.old first) last slot }
    ensures { IsCut arena.old arena.new first slot result }
{
    let rest = arena.next_of(slot);
    match last {
        None => rest,
        Some(last) => {
            arena.set_next(last, rest);
            first
        }
    }
}

/// Of the least slot so far and a further one, the slot with the lesser key above a bound.
fn better(arena: &Arena, bound: Option<&[u8]>, least: Option<usize>, slot: usize) -> Option<usize>
    requires slot { slot < length arena.now.slots }
    requires least { IfSome least (λ i. i < length arena.now.slots) }
    ensures least { (xs : List ℕ) →
        IsLeastOf (key_at arena.now.slots) (option_copied bound.entry) xs least →
        IsLeastOf (key_at arena.now.slots) (option_copied bound.entry) (xs ++ slot ∷ []) result }
    ensures inside { IfSome result (λ i. i < length arena.now.slots) }
{
    if !is_above(arena, slot, bound) {
        return least;
    }
    match least {
        Some(other) if !is_less(arena, slot, arena.key(other)) => Some(other),
        _ => Some(slot),
    }
}

/// The slot of the least key above a bound, of a chain and of what came before it.
pub(crate) fn least_with(
    arena: &Arena,
    first: Option<usize>,
    bound: Option<&[u8]>,
    before: Option<usize>,
) -> Option<usize>
    requires chain { IsChain arena.now first }
    requires before { IfSome before (λ i. i < length arena.now.slots) }
    ensures least { (xs : List ℕ) →
        IsLeastOf (key_at arena.now.slots) (option_copied bound.entry) xs before →
        IsLeastOf (key_at arena.now.slots) (option_copied bound.entry)
        (xs ++ chain_of arena.now first) result }
    ensures inside { IfSome result (λ i. i < length arena.now.slots) }
{
    let mut least = before;
    let mut at = first;
    while let Some(slot) = at {
        least = better(arena, bound, least, slot);
        at = arena.next_of(slot);
    }
    least
}

/// Adds the slots of a chain to a list. The error is that there is no memory left.
pub(crate) fn add_chain(
    arena: &Arena,
    first: Option<usize>,
    slots: &mut Vec<usize>,
) -> Result<(), AllocError>
    requires { IsChain arena.now first }
    ensures { OnOk result (slots.new.items ≡ slots.old.items ++ chain_of arena.now first) }
{
    let mut at = first;
    while let Some(slot) = at {
        slots.push(slot)?;
        at = arena.next_of(slot);
    }
    Ok(())
}
