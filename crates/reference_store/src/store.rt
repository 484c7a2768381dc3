//! The elements of all maps, and the maps.
ghost use Rattle.std.specs.Prelude.{◌≡◌, [], ◌∷◌, ◌++◌, ◌<◌, IfOk, IfErr, OnErr, OnOk, Some, Err, length, map};
ghost use Rattle.std.specs.Option.{option_map};
ghost use Rattle.bpf_model.specs.Element.{linked_count as linked_count_of, unlinked, overwritten};
ghost use Rattle.bpf_model.specs.Shapes.{AreShapes, IsShape};
ghost use Rattle.bpf_model.specs.MapState.{shape_of, new_map, new_elements, all_new_elements};
ghost use Rattle.bpf_model.specs.Helper.{LooksUp, Updates, Deletes, Removes};
ghost use Rattle.bpf_model.specs.Access.{byte_count};
ghost use Rattle.model_laws.specs.ByKind.{element_load, element_store};
ghost use Rattle.bpf_model.specs.declared.value.Value.TheVariants.{Number, Pointer};
ghost use Rattle.bpf_model.specs.declared.value.Reference.TheVariants.{Elem};
ghost use Rattle.bpf_model.specs.Schedule.{TakesOldest};
ghost use Rattle.reference_store.specs.Telling.{TellsResult};
ghost use Rattle.reference_store.specs.declared.fault.ModelFault.TheVariants.{Early, Memory};
ghost use Rattle.reference_store.specs.Storing.{StoresTo};
ghost use Rattle.reference_store.specs.Births.{HasFree, ReplacesIn, NextUse, without_first_free, ReclaimsTo, CanReclaim, Finds};
ghost use Rattle.reference_store.specs.Retiring.{linked_map};
ghost use Rattle.reference_store.specs.State.{sections_of, elements_of, map_of, store_of};

use crate::array_elements::add_elements;
use crate::element::{Element, Life, Section, has_ended, save};
use crate::fault::ModelFault;
use crate::map_state::MapState;
use bpf_model::{Errno, KeyBytes, MapId, MapKind, MapShape, ReapedElement, ValueBytes, Width};
use reference_interpreter::{number_in, region_offset};
use std::alloc::{AllocError, Global};

/// The elements of all maps by birth number, and the maps.
#[derive(Drop)]
pub struct Store {
    pub elements: Vec<Element>,
    pub maps: Vec<MapState>,
}

impl Store {
    /// New maps of these shapes, with the elements of those that are arrays. Errors: `Memory`; `OutOfRange` where
    /// no map may have one of the shapes.
    pub fn new(alloc: Global, shapes: &[MapShape]) -> Result<Store, ModelFault>
        ensures store { IfOk result
            (λ s. store_of s
            ≡ record { elements = all_new_elements 0 shapes.now; maps = map new_map shapes.now }) }
        ensures fault { AreShapes shapes.now → IfErr result (λ fault. fault ≡ Memory) }
    {
        let mut store = Store {
            elements: Vec::new(alloc),
            maps: Vec::new(alloc),
        };
        for shape in shapes {
            store.add_map(alloc, shape)?;
        }
        Ok(store)
    }

    /// Adds a new map, with its elements if it is an array. Errors as of `new`.
    fn add_map(&mut self, alloc: Global, shape: &MapShape) -> Result<(), ModelFault>
        ensures elements { OnOk result
            (elements_of self.new.elements.items
            ≡ elements_of self.old.elements.items
            ++ new_elements shape.now.kind (length self.old.maps.items) shape.now) }
        ensures maps { OnOk result
            (map map_of self.new.maps.items
            ≡ map map_of self.old.maps.items ++ new_map shape.now ∷ []) }
        ensures fault { IsShape shape.now → IfErr result (λ fault. fault ≡ Memory) }
    {
        let map = self.maps.len();
        let state = MapState::new(alloc, *shape)?;
        match self.maps.push(state) {
            Ok(()) => {}
            Err(_) => return Err(ModelFault::Memory),
        }
        match shape.kind {
            MapKind::Hash => Ok(()),
            MapKind::Array => add_elements(&mut self.elements, map, shape),
        }
    }

    /// The shape of a map, where there is one.
    pub fn shape(&self, map: usize) -> Option<MapShape>
        ensures { result ≡ shape_of (store_of self.now) map }
    {
        match self.maps.get(map) {
            Some(state) => Some(state.shape),
            None => None,
        }
    }

    /// The birth of what the map has under the key.
    pub fn lookup(&self, map: usize, key: &[u8]) -> Option<usize>
        ensures { LooksUp (store_of self.now) map key.now result }
    {
        for n in 0..self.elements.len() {
            if self.elements[n].is_linked_at(map, key) {
                return Some(n);
            }
        }
        None
    }

    /// How many elements of the map are linked.
    pub fn linked_count(&self, map: usize) -> usize
        ensures { result ≡ linked_count_of map (elements_of self.now.elements.items) }
    {
        let elements = self.elements.as_slice();
        elements.iter().filter(|e| e.is_linked_in(map)).count()
    }

    /// Element n is unlinked, and keeps the sections that are open.
    pub fn unlink(&mut self, n: usize, opened: Vec<Section>)
        ensures elements { elements_of self.new.elements.items
            ≡ unlinked (sections_of opened.items) (elements_of self.old.elements.items) (Some n) }
        ensures maps { self.new.maps ≡ self.old.maps }
    {
        if n < self.elements.len() {
            self.elements[n].life = Life::Unlinked(opened);
        }
    }

    /// Stores a value under a key, as the helper and the event do: in a hash map as a new element, in an array
    /// in the element that the index has. Flags: any (0), only a new key (1), only a present one (2). The inner
    /// error is that of `MapState::update_error`; of a map that is not there nothing is claimed. Where memory is
    /// refused, nothing has changed.
    pub fn update(
        &mut self,
        alloc: Global,
        opened: &[Section],
        map: usize,
        key: KeyBytes,
        value: ValueBytes,
        flags: u64,
    ) -> Result<Result<(), Errno>, AllocError>
        ensures updates { IfOk result
            (λ ret. map < length self.old.maps.items →
            Updates (store_of self.old) (sections_of opened.now) map key.items value.items flags ret
            (store_of self.new)) }
        ensures oldest { OnOk result (TakesOldest (store_of self.old) (store_of self.new)) }
        ensures err { OnErr result (store_of self.new ≡ store_of self.old) }
    {
        let found = self.lookup(map, key.as_slice());
        let linked = self.linked_count(map);
        if map >= self.maps.len() {
            return Ok(Err(Errno::InvalidArgument));
        }
        if let Some(errno) = self.maps[map].update_error(flags, found.is_some(), linked) {
            return Ok(Err(errno));
        }
        match self.maps[map].shape.kind {
            MapKind::Hash => self.replace(alloc, opened, found, map, key, value)?,
            MapKind::Array => self.overwrite(found, value),
        }
        Ok(Ok(()))
    }

    /// The element that was found, if any, gets another value.
    fn overwrite(&mut self, found: Option<usize>, value: ValueBytes)
        ensures elements { elements_of self.new.elements.items
            ≡ overwritten value.items (elements_of self.old.elements.items) found }
        ensures maps { self.new.maps ≡ self.old.maps }
        ensures births { length self.new.elements.items ≡ length self.old.elements.items }
    {
        if let Some(n) = found {
            if n < self.elements.len() {
                self.elements[n].value = value;
            }
        }
    }

    /// An element is born in the map slot that has been free longest, and what was found is unlinked. Where
    /// memory is refused, nothing has changed.
    fn replace(
        &mut self,
        alloc: Global,
        opened: &[Section],
        found: Option<usize>,
        map: usize,
        key: KeyBytes,
        value: ValueBytes,
    ) -> Result<(), AllocError>
        requires there { map < length self.old.maps.items }
        requires found { LooksUp (store_of self.old) map key.items found }
        ensures replaces { OnOk result
            (HasFree (store_of self.old) map →
            ReplacesIn (store_of self.old) (sections_of opened.now) map key.items value.items found
            (store_of self.new)) }
        ensures oldest { OnOk result
            (HasFree (store_of self.old) map →
            TakesOldest (store_of self.old) (store_of self.new)) }
        ensures err { OnErr result (store_of self.new ≡ store_of self.old) }
    {
        let since = Vec::from_slice(alloc, opened)?;
        let uses = self.next_use(map);
        let element = Element {
            map,
            key,
            value,
            uses,
            life: Life::Linked,
        };
        self.elements.push(element)?;
        self.take_slot(map);
        if let Some(n) = found {
            self.unlink(n, since);
        }
        Ok(())
    }

    /// Which use of its map slot the next element will be, counted from 1: it takes the one that has been
    /// free longest.
    fn next_use(&self, map: usize) -> u64
        requires { map < length self.now.maps.items }
        ensures { NextUse (store_of self.now) map result }
    {
        match self.maps[map].bag.first() {
            Some(count) => u64::from(*count) + 1,
            None => 1,
        }
    }

    /// The map slot that has been free longest is taken.
    fn take_slot(&mut self, map: usize)
        requires { map < length self.old.maps.items }
        ensures elements { self.new.elements ≡ self.old.elements }
        ensures maps { (store_of self.new).maps ≡ without_first_free (store_of self.old).maps map }
    {
        if !self.maps[map].bag.is_empty() {
            let _ = self.maps[map].bag.remove(0);
        }
    }

    /// Removes a key, as the helper and the event do: `NoEntry` where a hash map has no such key,
    /// `InvalidArgument` for an array, whatever the key is. Of a map that is not there nothing is claimed. Where
    /// memory is refused, nothing has changed.
    pub fn delete(
        &mut self,
        alloc: Global,
        opened: &[Section],
        map: usize,
        key: &[u8],
    ) -> Result<Result<(), Errno>, AllocError>
        ensures deletes { IfOk result
            (λ ret. map < length self.old.maps.items →
            Deletes (store_of self.old) (sections_of opened.now) map key.now ret
            (store_of self.new)) }
        ensures oldest { OnOk result (TakesOldest (store_of self.old) (store_of self.new)) }
        ensures err { OnErr result (store_of self.new ≡ store_of self.old) }
    {
        let found = self.lookup(map, key);
        if map >= self.maps.len() {
            return Ok(Err(Errno::NoEntry));
        }
        match self.maps[map].shape.kind {
            MapKind::Hash => self.remove(alloc, opened, found),
            MapKind::Array => Ok(Err(Errno::InvalidArgument)),
        }
    }

    /// What was found in a hash map is unlinked; `NoEntry` where nothing was. Where memory is refused, nothing has
    /// changed.
    fn remove(
        &mut self,
        alloc: Global,
        opened: &[Section],
        found: Option<usize>,
    ) -> Result<Result<(), Errno>, AllocError>
        ensures removes { IfOk result
            (λ ret. Removes found (sections_of opened.now) ret (store_of self.old)
            (store_of self.new)) }
        ensures oldest { OnOk result (TakesOldest (store_of self.old) (store_of self.new)) }
        ensures err { OnErr result (store_of self.new ≡ store_of self.old) }
    {
        let Some(n) = found else {
            return Ok(Err(Errno::NoEntry));
        };
        let since = Vec::from_slice(alloc, opened)?;
        self.unlink(n, since);
        Ok(Ok(()))
    }

    /// The value of the element that the map has under the key. Fails where memory runs out.
    pub fn read(&self, map: usize, key: &[u8]) -> Result<Option<ValueBytes>, AllocError>
        ensures { IfOk result
            (λ found.
            Finds (elements_of self.now.elements.items) map key.now
            (option_map (λ v. v.items) found)) }
    {
        match self.lookup(map, key) {
            Some(n) => Ok(Some(self.elements[n].value.clone()?)),
            None => Ok(None),
        }
    }

    /// Reclaims element n, whose map slot comes back. `Early` only where it may not be reclaimed: it isn't
    /// unlinked, a section that it keeps is open, or its map is not there. Else `OutOfRange` or `Memory`.
    pub fn reclaim(&mut self, n: usize, opened: &[Section]) -> Result<ReapedElement, ModelFault>
        ensures tells { TellsResult (ReclaimsTo (store_of self.old) (sections_of opened.now) n
            (store_of self.new)) ⊥ result }
        ensures early { result ≡ Err Early
            → CanReclaim (store_of self.old) (sections_of opened.now) n → ⊥ }
        ensures births { length self.new.elements.items ≡ length self.old.elements.items }
    {
        if n >= self.elements.len() {
            return Err(ModelFault::Early);
        }
        let element = &self.elements[n];
        if !has_ended(&element.life, opened) {
            return Err(ModelFault::Early);
        }
        let map = element.map;
        let uses = element.uses;
        let key = element.key.clone()?;
        if map >= self.maps.len() {
            return Err(ModelFault::Early);
        }
        let given = self.maps[map].give_back(uses)?;
        self.elements[n].life = Life::Reclaimed;
        let map = MapId::new(map);
        Ok(ReapedElement { map, key, given })
    }

    /// The number that a load from element n finds, o bytes and an offset from the start of its value. `None`:
    /// the load is stuck.
    pub fn load(&self, n: usize, width: Width, o: i64, offset: i16) -> Option<u64>
        ensures { result ≡ element_load (elements_of self.now.elements.items) (byte_count width)
            offset (Pointer (Elem n o)) }
    {
        if n >= self.elements.len() {
            return None;
        }
        let element = &self.elements[n];
        if element.life.is_reclaimed() {
            return None;
        }
        match region_offset(element.value.len(), width, o, offset) {
            Some(at) => number_in(element.value.as_slice(), at, width.bytes()),
            None => None,
        }
    }

    /// Stores the low bytes of a number in element n. Whether it could: else the store is stuck.
    pub fn store(&mut self, n: usize, width: Width, o: i64, offset: i16, number: u64) -> bool
        ensures elements { StoresTo
            (element_store (elements_of self.old.elements.items) (byte_count width) offset
            (Number number) (Pointer (Elem n o))) result (elements_of self.new.elements.items) }
        ensures maps { self.new.maps ≡ self.old.maps }
        ensures births { length self.new.elements.items ≡ length self.old.elements.items }
    {
        if n >= self.elements.len() {
            return false;
        }
        save(&mut self.elements[n], width, o, offset, number)
    }

    /// For each element the map that it is linked in. Fails where memory runs out.
    pub fn linked_maps(&self, alloc: Global) -> Result<Vec<Option<usize>>, AllocError>
        ensures { IfOk result
            (λ maps. maps.items ≡ map linked_map (elements_of self.now.elements.items)) }
    {
        let mut maps = Vec::new(alloc);
        for n in 0..self.elements.len() {
            maps.push(self.elements[n].linked_map())?;
        }
        Ok(maps)
    }
}
