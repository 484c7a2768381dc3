//! The registry of a runtime's maps.
ghost use Rattle.std.specs.Prelude.{◌≡◌, ℕ, ◌⊎◌, ◌≤◌, ◌<◌, ◌∷◌, ◌++◌, [], length, map, slice_get, Some, None, IfOk, IfErr, IfSome, IfNone, OnOk, OnErr, string_bytes, option_map, option_copied, Ok, Err, bytes_eq, position, false, ◌+◌};
ghost use Rattle.std.specs.List.{list_any};
ghost use Rattle.bpf_model.specs.Shapes.{IsShape, AreShapes};
ghost use Rattle.bpf_model.specs.View.{MapView, new_map_view};
ghost use Rattle.std.specs.Borrow.{sem};
ghost use Rattle.bpf_model.specs.declared.limits.TheConstants.{MAX_MAPS};
ghost use Rattle.maps.specs.Registry.{RegistryView, creation_fault, has_name};
ghost use Rattle.maps.specs.Lending.{LendsMap};
ghost use Rattle.maps.specs.Picking.{IsPicked};
ghost use Rattle.map_kinds.specs.Counting.{counts_of_all};
ghost use Rattle.model_laws.specs.Views.{turned_view};
ghost use Rattle.model_laws.specs.Reactions.{first_pick};
ghost use Rattle.maps.specs.declared.fault.MapFault.TheVariants.{Memory};

use crate::copying::{copy_of_maps, copy_of_names};
use crate::fault::MapFault;
use crate::name::is_name;
use crate::shape::is_shape;
use bpf_model::{MAX_MAPS, MapId, MapShape, ReapedElement};
use indexmap::IndexSet;
use map_kinds::{Counts, Map};
use std::alloc::{AllocError, Global};
use std::marker::Model;

/// Maps by number, in order of creation, each with a name of its own.
#[derive(Drop)]
pub struct Registry {
    alloc: Global,
    names: IndexSet<String>,
    maps: Vec<Map>,
}

impl Model for Registry {
    ghost use Rattle.std.specs.Prelude.{◌≡◌, ◌≤◌, length, map, string_bytes};
    ghost use Rattle.bpf_model.specs.declared.limits.TheConstants.{MAX_MAPS};
    ghost use Rattle.maps.specs.Registry.{RegistryView, registry_code};

    ghost Value = { RegistryView };

    ghost coded = { registry_code };

    ghost view = { λ r. record { names = map string_bytes r.names.keys; maps = r.maps.items } };

    ghost invariant = { λ r. (length r.names.keys ≡ length r.maps.items)
        × (length r.maps.items ≤ MAX_MAPS) };
}

/// Adds a name that is new.
fn add_name(names: &mut IndexSet<String>, name: &str, text: String) -> Result<(), MapFault>
    requires text { string_bytes text ≡ name.now }
    requires new { list_any (bytes_eq name.now) (map string_bytes names.old.keys) ≡ false }
    ensures ok { OnOk result (map string_bytes names.new.keys
        ≡ map string_bytes names.old.keys ++ name.now ∷ []) }
    ensures long { OnOk result (length names.new.keys ≡ length names.old.keys + 1) }
    ensures err { OnErr result (names.new.keys ≡ names.old.keys) }
    ensures memory { IfErr result (λ f. f ≡ Memory) }
{
    names.insert(text)?;
    Ok(())
}

/// A grace period ends in each map.
fn advance_each(maps: &mut [Map])
    ensures { maps.new ≡ map turned_view maps.old }
{
    for chosen in maps.iter_mut() {
        chosen.advance();
    }
}

/// Reclaims the first ready element of the first map that has one.
fn reap_first(maps: &mut [Map]) -> Option<ReapedElement>
    ensures none { IfNone result (first_pick 0 maps.old ≡ None) }
    ensures unchanged { IfNone result (maps.new ≡ maps.old) }
    ensures some { IfSome result (λ r. IsPicked maps.old maps.new r) }
{
    for number in 0..maps.len() {
        let chosen = &mut maps[number];
        if let Some((key, given)) = chosen.reap() {
            let map = MapId::new(number);
            return Some(ReapedElement { map, key, given });
        }
    }
    None
}

/// A law: the shape of each map is one that a map may have.
fn each_has_shape(maps: &[Map])
    ensures { (k : ℕ) (v : MapView) → slice_get maps.now k ≡ Some v → IsShape v.shape }
{
    for map in maps {
        map.has_shape();
    }
}

/// The sums of the counts of maps.
fn sum_counts(maps: &[Map]) -> Counts
    requires { length maps.now ≤ MAX_MAPS }
    ensures { result ≡ counts_of_all maps.now }
{
    let mut sum = Counts {
        linked: 0,
        unlinked: 0,
        worn: 0,
    };
    for chosen in maps {
        let counts = chosen.counts();
        sum.linked += counts.linked;
        sum.unlinked += counts.unlinked;
        sum.worn += counts.worn;
    }
    sum
}

impl Registry {
    /// A registry without maps.
    pub fn new(alloc: Global) -> Registry
        ensures names { result.names ≡ [] }
        ensures maps { result.maps ≡ [] }
    {
        Registry {
            alloc,
            names: IndexSet::new(alloc),
            maps: Vec::new(alloc),
        }
    }

    /// Whether a map has this name.
    #[tactic(auto, using(crate::proofs::Names::any_named))]
    fn has_name(&self, name: &str) -> bool
        ensures { result ≡ has_name self.now name.now }
    {
        self.names.contains(name)
    }

    /// The fault of a new map, if there is one.
    fn fault(&self, name: &str, shape: &MapShape) -> Option<MapFault>
        ensures value { result ≡ creation_fault self.now name.now shape.now }
        ensures shape { IfNone result (IsShape shape.now) }
        ensures room { IfNone result (length self.now.maps < MAX_MAPS) }
    {
        if !is_name(name) {
            return Some(MapFault::BadName);
        }
        if self.has_name(name) {
            return Some(MapFault::NameTaken);
        }
        if !is_shape(shape) {
            return Some(MapFault::BadShape);
        }
        if self.maps.len() >= MAX_MAPS {
            return Some(MapFault::TooMany);
        }
        None
    }

    /// A new map, which nothing has used (`Map::new`). Its number is the next one.
    ///
    /// Errors: the first of these that holds, and then nothing has changed.
    /// - `BadName`: it is no name (`is_name`).
    /// - `NameTaken`: a map has it.
    /// - `BadShape`: no map may have the shape (`is_shape`).
    /// - `TooMany`: there are `MAX_MAPS` maps.
    /// - `Memory`: there is none for the map.
    pub fn create(&mut self, name: &str, shape: MapShape) -> Result<MapId, MapFault>
        ensures tested { IfSome (creation_fault self.old name.now shape) (λ f. result ≡ Err f) }
        ensures made { IfNone (creation_fault self.old name.now shape)
            ((result ≡ Ok (length self.old.maps)) ⊎ (result ≡ Err Memory)) }
        ensures names { OnOk result (self.new.names ≡ self.old.names ++ name.now ∷ []) }
        ensures maps { OnOk result (self.new.maps ≡ self.old.maps ++ new_map_view shape ∷ []) }
        ensures err { OnErr result (self.new ≡ self.old) }
    {
        if let Some(fault) = self.fault(name, &shape) {
            return Err(fault);
        }
        let map = Map::new(self.alloc, shape)?;
        let text = String::from_str(self.alloc, name)?;
        self.maps.reserve(1)?;
        let number = self.maps.len();
        add_name(&mut self.names, name, text)?;
        self.maps.push(map)?;
        Ok(MapId::new(number))
    }

    /// The number of the map of this name; `None` where no map has it.
    #[tactic(auto, using(crate::proofs::Names::position_named))]
    pub fn id(&self, name: &str) -> Option<MapId>
        ensures { result ≡ position (bytes_eq name.now) self.now.names }
    {
        match self.names.get_index_of(name) {
            Some(number) => Some(MapId::new(number)),
            None => None,
        }
    }

    /// The name of a map; `None` where there is no map of this number.
    pub fn name(&self, id: MapId) -> Option<&str>
        ensures { option_copied result ≡ slice_get self.now.names id }
    {
        match self.names.get_index(id.index()) {
            Some(name) => Some(name.as_str()),
            None => None,
        }
    }

    /// The shape of a map; `None` where there is no map of this number.
    pub fn shape(&self, id: MapId) -> Option<MapShape>
        ensures { result ≡ option_map (λ m. m.shape) (slice_get self.now.maps id) }
    {
        match self.maps.get(id.index()) {
            Some(map) => Some(map.shape()),
            None => None,
        }
    }

    /// A law: the shapes of its maps are shapes that maps may have.
    pub fn have_shapes(&self)
        ensures { AreShapes (map (λ v. v.shape) self.now.maps) }
    {
        each_has_shape(&self.maps);
    }

    /// The map of this number, if there is one.
    pub fn map(&self, id: MapId) -> Option<&Map>
        ensures value { option_copied result ≡ slice_get self.now.maps id }
        ensures limit { IfSome result (λ _. id < MAX_MAPS) }
    {
        self.maps.get(id.index())
    }

    /// How many maps there are: at most `MAX_MAPS`. Each has a name.
    pub fn len(&self) -> usize
        ensures value { result ≡ length self.now.maps }
        ensures names { result ≡ length self.now.names }
        ensures limit { result ≤ MAX_MAPS }
    {
        self.maps.len()
    }

    /// The map of this number, to change it.
    pub fn map_mut(&mut self, id: MapId) -> &mut Map
        requires { id < length self.old.maps }
        ensures value { slice_get self.old.maps id ≡ Some result.now }
        ensures* writes_back { sem 𝓛 (LendsMap self.entry id result) }
    {
        &mut self.maps[id.index()]
    }

    /// A grace period ends in each map, and the next begins: the elements that waited for its end may be
    /// reclaimed, and those unlinked meanwhile wait.
    pub fn advance(&mut self)
        ensures names { self.new.names ≡ self.old.names }
        ensures maps { self.new.maps ≡ map turned_view self.old.maps }
    {
        advance_each(self.maps.as_mut_slice());
    }

    /// Reclaims the element that has been ready longest in the first map that has one. `None` where no
    /// element is ready, and then nothing has changed.
    pub fn reap(&mut self) -> Option<ReapedElement>
        ensures none { IfNone result (first_pick 0 self.old.maps ≡ None) }
        ensures unchanged { IfNone result (self.new ≡ self.old) }
        ensures some { IfSome result (λ r. IsPicked self.old.maps self.new.maps r) }
        ensures names { self.new.names ≡ self.old.names }
    {
        reap_first(self.maps.as_mut_slice())
    }

    /// How many elements are linked and unlinked, and how many map slots are worn out, over
    /// all maps.
    pub fn counts(&self) -> Counts
        ensures { result ≡ counts_of_all self.now.maps }
    {
        sum_counts(self.maps.as_slice())
    }

    /// An equal registry: the same names, each with a map in the same state. The error is that there is no
    /// memory left.
    pub fn copy(&self) -> Result<Registry, AllocError>
        ensures same { IfOk result (λ r. r ≡ self.now) }
    {
        let names = copy_of_names(&self.names)?;
        let maps = copy_of_maps(self.alloc, &self.maps)?;
        Ok(Registry {
            alloc: self.alloc,
            names,
            maps,
        })
    }
}
