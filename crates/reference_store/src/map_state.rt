//! Maps: their shapes and their free map slots.
ghost use Rattle.std.specs.Prelude.{◌≡◌, ◌≢◌, ◌++◌, IfOk, OnOk, Err, replicate};
ghost use Rattle.bpf_model.specs.MapState.{given_of, returned, new_map, new_bag as new_bag_of};
ghost use Rattle.bpf_model.specs.Helper.{update_error as first_error, hash_error as first_hash_error, array_error as first_array_error};
ghost use Rattle.reference_store.specs.Telling.{TellsResult};
ghost use Rattle.reference_store.specs.declared.fault.ModelFault.TheVariants.{Early};
ghost use Rattle.reference_store.specs.State.{map_of};

use crate::fault::ModelFault;
use bpf_model::{Errno, Given, MapKind, MapShape};
use std::alloc::{AllocError, Global};

/// A map: its shape, the use counts of its free map slots, the one that has been free longest first, and
/// how many are worn out.
#[derive(Drop)]
pub struct MapState {
    pub shape: MapShape,
    pub bag: Vec<u32>,
    pub worn: u64,
}

/// So many map slots that were never used go to the end of the free ones.
fn put_unused(bag: &mut Vec<u32>, count: usize) -> Result<(), AllocError>
    ensures { OnOk result (bag.new.items ≡ bag.old.items ++ replicate count 0) }
{
    for _ in 0..count {
        bag.push(0)?;
    }
    Ok(())
}

/// The use counts of a new map's free map slots: an array has none.
fn new_bag(alloc: Global, shape: &MapShape) -> Result<Vec<u32>, AllocError>
    ensures { IfOk result (λ bag. bag.items ≡ new_bag_of shape.now.kind shape.now) }
{
    let mut bag = Vec::new(alloc);
    match shape.kind {
        MapKind::Hash => {
            put_unused(&mut bag, shape.entries)?;
            put_unused(&mut bag, shape.spare)?;
            Ok(bag)
        }
        MapKind::Array => Ok(bag),
    }
}

/// The first test of an update of an array that fails.
fn array_error(flags: u64, present: bool) -> Option<Errno>
    ensures { result ≡ first_array_error flags present }
{
    if 2 < flags {
        Some(Errno::InvalidArgument)
    } else if !present {
        Some(Errno::TooBig)
    } else if flags == 1 {
        Some(Errno::Exists)
    } else {
        None
    }
}

impl MapState {
    /// A new map: no map slot of a hash map was ever used, and those of an array are all taken. Fails where
    /// memory runs out.
    pub fn new(alloc: Global, shape: MapShape) -> Result<MapState, AllocError>
        ensures { IfOk result (λ m. map_of m ≡ new_map shape) }
    {
        Ok(MapState {
            shape,
            bag: new_bag(alloc, &shape)?,
            worn: 0,
        })
    }

    /// The first test of an update that fails, by the map's kind.
    pub fn update_error(&self, flags: u64, present: bool, linked: usize) -> Option<Errno>
        ensures { result ≡ first_error flags present linked (map_of self.now) }
    {
        match self.shape.kind {
            MapKind::Hash => self.hash_error(flags, present, linked),
            MapKind::Array => array_error(flags, present),
        }
    }

    /// The first test of an update of a hash map that fails.
    fn hash_error(&self, flags: u64, present: bool, linked: usize) -> Option<Errno>
        ensures { result ≡ first_hash_error flags present linked (map_of self.now) }
    {
        if 2 < flags {
            Some(Errno::InvalidArgument)
        } else if flags == 1 && present {
            Some(Errno::Exists)
        } else if flags == 2 && !present {
            Some(Errno::NoEntry)
        } else if !present && self.shape.entries <= linked {
            Some(Errno::TooBig)
        } else if self.bag.is_empty() {
            Some(Errno::NoMemory)
        } else {
            None
        }
    }

    /// A map slot that was used so often comes back: to the end of the free ones, or it is worn out. Errors:
    /// `OutOfRange` where the uses exceed 32 bits or the count of worn ones 64; `Memory`.
    pub fn give_back(&mut self, uses: u64) -> Result<Given, ModelFault>
        ensures tells { TellsResult (λ given. (given ≡ given_of uses (map_of self.old))
            × (map_of self.new ≡ returned uses (map_of self.old))) ⊥ result }
        ensures early { result ≢ Err Early }
    {
        let Ok(count) = u32::try_from(uses) else {
            return Err(ModelFault::OutOfRange);
        };
        if count == self.shape.reuse_limit {
            let Some(worn) = self.worn.checked_add(1) else {
                return Err(ModelFault::OutOfRange);
            };
            self.worn = worn;
            Ok(Given::Worn)
        } else {
            match self.bag.push(count) {
                Ok(()) => Ok(Given::Free),
                Err(_) => Err(ModelFault::Memory),
            }
        }
    }
}
