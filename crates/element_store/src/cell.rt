//! What is kept of each slot, and the free slots as a list through their links.
ghost use Rattle.std.specs.Prelude.{◌≡◌, ◌+◌, ◌^◌, ◌<◌, length, IfSome};
ghost use Rattle.element_store.specs.Kept.{first_with, given_cell, last_left, linked_behind};

/// Whether a slot is in use, or may be.
#[derive(Clone, Copy, Debug, PartialEq, Eq)]
pub(crate) enum Standing {
    Free,
    Taken,
    /// Used as often as the arena allows, and given back.
    Worn,
}

/// What is kept of a slot beside its bytes: how often it was used, and how often given back.
#[derive(Clone, Copy, Debug, PartialEq, Eq)]
pub(crate) struct SlotCell {
    pub(crate) uses: u32,
    pub(crate) generation: u32,
    pub(crate) standing: Standing,
    /// The next slot of whichever list has this one.
    pub(crate) link: Option<usize>,
}

/// The last slot that is left of a list when the first, which was linked to `rest`, leaves it.
pub fn last_after(rest: Option<usize>, last: Option<usize>) -> Option<usize>
    ensures { result ≡ last_left rest last }
{
    match rest {
        None => None,
        Some(_) => last,
    }
}

/// The cell of a slot that was given back once more.
pub(crate) fn given_cell(old: SlotCell, standing: Standing) -> SlotCell
    requires { old.generation + 1 < 2 ^ 32 }
    ensures { result ≡ given_cell old standing }
{
    SlotCell {
        generation: old.generation + 1,
        standing,
        link: None,
        ..old
    }
}

/// Links the last slot to this one, and answers the first slot.
pub(crate) fn append(
    cells: &mut Vec<SlotCell>,
    first: Option<usize>,
    last: Option<usize>,
    slot: usize,
) -> Option<usize>
    requires { IfSome last (λ l. l < length cells.old.items) }
    ensures cells { cells.new.items ≡ linked_behind cells.old.items last slot }
    ensures first { result ≡ first_with first last slot }
{
    match last {
        None => Some(slot),
        Some(last) => {
            let before = &mut cells[last];
            before.link = Some(slot);
            first
        }
    }
}
