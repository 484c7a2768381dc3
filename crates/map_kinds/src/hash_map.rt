//! A hash map: any keys of one length, in a fixed number of map slots.
ghost use Rattle.std.specs.Prelude.{◌≡◌, length, IfOk};
ghost use Rattle.bpf_model.specs.declared.limits.MapKind.{MapKind};
ghost use Rattle.bpf_model.specs.Shapes.{IsShape};
ghost use Rattle.bpf_model.specs.View.{new_map_view};

use crate::admission::Admission;
use crate::counts::{Counts, counts_after_reap, counts_after_update};
use crate::map_table::MapTable;
use crate::parts::Parts;
use bpf_model::{Errno, Given, KeyBytes, MapShape, ValueBytes, Width, array_of};
use hash_index::Index;
use std::alloc::{AllocError, Global};
use std::marker::Model;

/// Elements by key, in map slots that were all allocated when the map was made. An element that is
/// unlinked keeps its map slot until a grace period has passed.
#[derive(Drop)]
pub struct HashMap<I: Index> {
    shape: MapShape,
    parts: Parts<I>,
    counts: Counts,
}

impl<I: Index> Model for HashMap<I> {
    ghost use Rattle.bpf_model.specs.View.{MapView};
    ghost use Rattle.model_laws.specs.Codes.{view_code};
    ghost use Rattle.map_kinds.specs.Counting.{IsCounted};
    ghost use Rattle.map_kinds.specs.Shown.{map_view};

    ghost Value = { MapView };

    ghost coded = { view_code };

    ghost view = { λ h. map_view h.shape h.parts };

    ghost invariant = { λ h. IsCounted h.shape h.parts h.counts };
}

impl<I: Index + Drop> HashMap<I> {
    /// A map that has nothing. All the memory that it ever takes is taken here.
    pub fn new(alloc: Global, shape: MapShape) -> Result<HashMap<I>, AllocError>
        requires shape { IsShape shape }
        requires hash { shape.kind ≡ MapKind.Hash }
        ensures { IfOk result (λ m. m ≡ new_map_view shape) }
    {
        let parts = Parts::new(alloc, shape)?;
        Ok(HashMap {
            shape,
            parts,
            counts: Counts {
                linked: 0,
                unlinked: 0,
                worn: 0,
            },
        })
    }

    /// Another map in the same state. Fails where memory runs out.
    pub fn copy(&self, alloc: Global) -> Result<HashMap<I>, AllocError>
        ensures { IfOk result (λ m. m ≡ self.now) }
    {
        let parts = self.parts.copy(alloc)?;
        Ok(HashMap {
            shape: self.shape,
            parts,
            counts: self.counts,
        })
    }
}

impl<I: Index> MapTable for HashMap<I> {
    ghost seen = { λ m. m };

    ghost takes = { λ m key. length key ≡ m.shape.key_len };

    fn shape(&self) -> MapShape {
        self.shape
    }

    fn has_shape(&self) {
        let _shape = &self.shape;
    }

    fn lookup(&self, key: &[u8]) -> Option<usize> {
        self.parts.find(key)
    }

    fn bytes_of(&self, key: &[u8]) -> Option<&[u8]> {
        match self.parts.find(key) {
            None => None,
            Some(slot) => Some(self.parts.value(slot)),
        }
    }

    fn counts(&self) -> Counts {
        self.parts.is_parted();
        self.counts
    }

    /// Links a new element under a key, in the map slot that has been free longest; key and value
    /// have the lengths of the map's shape. The element that the key had is unlinked. Flags: any
    /// (0), only a new key (1), only a present one (2). It takes no memory.
    ///
    /// Errors, in this order, and then nothing has changed: `InvalidArgument` for other flags;
    /// `Exists` and `NoEntry` by the flags; `TooBig` for a new key, where the map has as many
    /// linked elements as its shape allows; `NoMemory` where no map slot is free.
    fn update(&mut self, key: &[u8], value: &[u8], flags: u64) -> Result<(), Errno> {
        let admission = Admission {
            flags,
            linked: self.counts.linked,
            entries: self.shape.entries,
        };
        match self.parts.update(key, value, admission) {
            Err(errno) => Err(errno),
            Ok(found) => {
                self.counts = counts_after_update(found, self.counts);
                Ok(())
            }
        }
    }

    /// Unlinks the element of a key. `NoEntry`, and then nothing has changed, where the key has
    /// none (`lookup`). It takes no memory.
    fn delete(&mut self, key: &[u8]) -> Result<(), Errno> {
        match self.parts.remove(key) {
            None => Err(Errno::NoEntry),
            Some(_) => {
                self.counts.linked -= 1;
                self.counts.unlinked += 1;
                Ok(())
            }
        }
    }

    fn advance(&mut self) {
        self.parts.advance();
    }

    fn reap(&mut self) -> Option<(KeyBytes, Given)> {
        match self.parts.reap() {
            None => None,
            Some(slot) => {
                let key = array_of(self.parts.key(slot));
                let given = self.parts.give(slot);
                self.counts = counts_after_reap(given, self.counts);
                Some((key, given))
            }
        }
    }

    fn load(&self, slot: usize, offset: usize, width: Width) -> u64 {
        self.parts.load(slot, offset, width)
    }

    fn store(&mut self, slot: usize, offset: usize, width: Width, number: u64) {
        self.parts.store(slot, offset, width, number);
    }

    fn next_above(&self, bound: Option<&[u8]>) -> Option<(KeyBytes, ValueBytes)> {
        match self.parts.next_above(bound) {
            None => None,
            Some(slot) => Some(self.element(slot)),
        }
    }

    fn in_order(&self, alloc: Global) -> Result<Vec<usize>, AllocError> {
        self.parts.in_order(alloc)
    }

    fn element(&self, slot: usize) -> (KeyBytes, ValueBytes) {
        self.parts.is_parted();
        let key = array_of(self.parts.key(slot));
        let value = array_of(self.parts.value(slot));
        (key, value)
    }
}
