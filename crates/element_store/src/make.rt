//! What a new arena is made of.
ghost use Rattle.std.specs.Prelude.{◌≡◌, IfOk};
ghost use Rattle.element_store.specs.Fresh.{below, fresh_cells};

use crate::cell::{SlotCell, Standing};
use std::alloc::{AllocError, Global};

/// The slot, where it is one of so many from 0 on; else `None`.
pub(crate) fn below(slot: usize, slots: usize) -> Option<usize>
    ensures { result ≡ below slot slots }
{
    if slot < slots { Some(slot) } else { None }
}

/// Cells that were never used, each linked to the next.
pub(crate) fn fresh_cells(alloc: Global, slots: usize) -> Result<Vec<SlotCell>, AllocError>
    ensures { IfOk result (λ cells. cells.items ≡ fresh_cells slots slots) }
{
    let mut cells = Vec::with_capacity(alloc, slots)?;
    for slot in 0..slots {
        cells.push(SlotCell {
            uses: 0,
            generation: 0,
            standing: Standing::Free,
            link: below(slot + 1, slots),
        })?;
    }
    Ok(cells)
}
