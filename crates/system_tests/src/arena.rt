//! Tags of a slot that may be used twice.
ghost use Rattle.std.specs.Prelude.{◌≡◌, [], ◌∷◌, IfOk};
ghost use Rattle.element_store.specs.State.{new_arena, taken};

use bpf_model::Given;
use element_store::{Arena, Tag};
use std::alloc::{AllocError, Global};
use std::test::Fail;

const KEY: [u8; 4] = [1, 2, 3, 4];

const VALUE: [u8; 8] = [0x11, 0x22, 0x33, 0x44, 0x55, 0x66, 0x77, 0x88];

/// One slot, which is taken.
fn only_slot_taken(alloc: Global) -> Result<Arena, AllocError>
    ensures { IfOk result (λ a. a ≡ taken (new_arena 1 4 8 2) 0 [] (1 ∷ 2 ∷ 3 ∷ 4 ∷ [])
        (17 ∷ 34 ∷ 51 ∷ 68 ∷ 85 ∷ 102 ∷ 119 ∷ 136 ∷ [])) }
{
    let mut arena = Arena::new(alloc, 1, 4, 8, 2)?;
    let _slot = arena.take(&KEY, &VALUE);
    Ok(arena)
}

/// The key and the value of a tag's element, unless the tag is stale.
fn is_found(arena: &Arena, tag: Tag) -> bool {
    match arena.peek(tag) {
        Ok((key, value)) => key.as_slice() == KEY.as_slice()
            && value.as_slice() == VALUE.as_slice(),
        Err(_) => false,
    }
}

/// A slot that was never used has no key.
#[test]
fn unused_slots_have_no_key(rt: HostRuntime) -> Result<(), Fail> {
    let arena = Arena::new(rt.alloc(), 2, 2, 8, 2)?;
    assert!(rt; arena.key(1).is_empty());
    Ok(())
}

/// The slot is free after its first use and worn after the second. A tag of its first element is stale from then on.
#[test]
fn a_slot_wears_out(rt: HostRuntime) -> Result<(), Fail> {
    let mut arena = only_slot_taken(rt.alloc())?;
    let tag = arena.tag(0);
    let fresh = is_found(&arena, tag);
    let first = arena.give(0);
    let stale = arena.peek(tag).is_err();
    let next = arena.tag(0);
    let again = arena.take(&KEY, &VALUE);
    let second = arena.give(0);
    let none = arena.take(&KEY, &VALUE);
    let still_stale = arena.peek(tag).is_err();
    let outside = Tag {
        slot: 2,
        generation: 0,
    };
    let is_outside = arena.peek(outside).is_err();
    assert!(rt; fresh && stale && still_stale && is_outside);
    assert!(rt; tag.slot == 0 && tag.generation == 0);
    assert!(rt; next.slot == 0 && next.generation == 1);
    assert!(rt; first == Given::Free && again == Some(0));
    assert!(rt; second == Given::Worn && none.is_none());
    Ok(())
}
