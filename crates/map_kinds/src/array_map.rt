//! An array: an element for each index, from its creation on and for good.
ghost use Rattle.std.specs.Prelude.{◌≡◌, IfOk};
ghost use Rattle.bpf_model.specs.declared.limits.MapKind.{MapKind};
ghost use Rattle.bpf_model.specs.Shapes.{IsShape};
ghost use Rattle.bpf_model.specs.View.{new_map_view};

use crate::admission::slot_to_write;
use crate::counts::Counts;
use crate::index_key::{index_key, index_of, indices_in_order, next_index};
use crate::map_table::MapTable;
use bpf_model::{Errno, Given, KeyBytes, MapShape, ValueBytes, Width, array_of, number_of};
use element_store::{block, write_block, write_inside, zero_blocks};
use std::alloc::{AllocError, Global};
use std::marker::Model;

/// The values of all indices, one behind the other. An index is the map slot of its element.
#[derive(Drop)]
pub struct ArrayMap {
    shape: MapShape,
    values: Vec<u8>,
}

impl Model for ArrayMap {
    ghost use Rattle.bpf_model.specs.View.{MapView};
    ghost use Rattle.model_laws.specs.Codes.{view_code};
    ghost use Rattle.map_kinds.specs.Arrays.{array_view, IsArrayMap};

    ghost Value = { MapView };

    ghost coded = { view_code };

    ghost view = { λ a. array_view a.shape a.values.items };

    ghost invariant = { λ a. IsArrayMap a.shape a.values.items };
}

impl ArrayMap {
    /// An array of zero bytes. All the memory that it ever takes is taken here.
    pub fn new(alloc: Global, shape: MapShape) -> Result<ArrayMap, AllocError>
        requires shape { IsShape shape }
        requires array { shape.kind ≡ MapKind.Array }
        ensures { IfOk result (λ m. m ≡ new_map_view shape) }
    {
        let values = zero_blocks(alloc, shape.entries, shape.value_len)?;
        Ok(ArrayMap { shape, values })
    }

    /// Another array in the same state. Fails where memory runs out.
    pub fn copy(&self) -> Result<ArrayMap, AllocError>
        ensures { IfOk result (λ m. m ≡ self.now) }
    {
        let values = self.values.clone()?;
        Ok(ArrayMap {
            shape: self.shape,
            values,
        })
    }
}

impl MapTable for ArrayMap {
    ghost seen = { λ m. m };

    ghost takes = { λ m key. Unit {0} };

    fn shape(&self) -> MapShape {
        self.shape
    }

    fn has_shape(&self) {
        let _shape = &self.shape;
    }

    /// The map slot of a key: its index. A key that is no index of the array has none.
    #[inline]
    fn lookup(&self, key: &[u8]) -> Option<usize> {
        index_of(key, self.shape.entries)
    }

    fn bytes_of(&self, key: &[u8]) -> Option<&[u8]> {
        match index_of(key, self.shape.entries) {
            None => None,
            Some(index) => Some(block(&self.values, self.shape.value_len, index)),
        }
    }

    /// Each element is linked, none is unlinked, and no map slot is worn out.
    fn counts(&self) -> Counts {
        Counts {
            linked: self.shape.entries,
            unlinked: 0,
            worn: 0,
        }
    }

    /// Writes a value of the shape's length over that of an index. Flags: any (0), or only a present
    /// one (2). It takes no memory.
    ///
    /// Errors, in this order, and then nothing has changed: `InvalidArgument` for flags above 2;
    /// `TooBig` for a key that is no index of the array; `Exists` for flag 1.
    fn update(&mut self, key: &[u8], value: &[u8], flags: u64) -> Result<(), Errno> {
        match slot_to_write(flags, index_of(key, self.shape.entries)) {
            Err(errno) => Err(errno),
            Ok(index) => {
                write_block(&mut self.values, index, value);
                Ok(())
            }
        }
    }

    /// Nothing is deleted from an array: `InvalidArgument` for every key.
    fn delete(&mut self, _key: &[u8]) -> Result<(), Errno> {
        let _shape = &self.shape;
        Err(Errno::InvalidArgument)
    }

    /// A grace period ends, for which no element waits.
    fn advance(&mut self) {
        let _shape = &self.shape;
    }

    /// No element is ever ready to be reclaimed: `None`.
    fn reap(&mut self) -> Option<(KeyBytes, Given)> {
        let _shape = &self.shape;
        None
    }

    fn load(&self, slot: usize, offset: usize, width: Width) -> u64 {
        let value = block(&self.values, self.shape.value_len, slot);
        number_of(value, offset, width)
    }

    fn store(&mut self, slot: usize, offset: usize, width: Width, number: u64) {
        let len = self.shape.value_len;
        write_inside(&mut self.values, len, slot, offset, width, number);
    }

    fn next_above(&self, bound: Option<&[u8]>) -> Option<(KeyBytes, ValueBytes)> {
        match next_index(bound, self.shape.entries) {
            None => None,
            Some(index) => Some(self.element(index)),
        }
    }

    fn in_order(&self, alloc: Global) -> Result<Vec<usize>, AllocError> {
        indices_in_order(alloc, self.shape.entries)
    }

    fn element(&self, slot: usize) -> (KeyBytes, ValueBytes) {
        let value = array_of(block(&self.values, self.shape.value_len, slot));
        let key = array_of(&index_key(slot));
        (key, value)
    }
}
