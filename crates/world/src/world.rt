//! The runtime's world.
ghost use Rattle.std.specs.Prelude.{◌≡◌, ◌⊎◌, ◌<◌, ◌≤◌, ℕ, length, Err, IfOk, IsOk};
ghost use Rattle.bpf_model.specs.declared.limits.TheConstants.{MAX_PROGRAMS};
ghost use Rattle.bpf_model.specs.Refines.{TracksSchedule, Tracks};
ghost use Rattle.bpf_model.specs.Machine.{start_machine};
ghost use Rattle.bpf_model.specs.Schedule.{start_schedule};
ghost use Rattle.bpf_model.specs.View.{AreNewMaps, start_view, shapes_of_maps};
ghost use Rattle.world_laws.specs.Invariant.{IsWorld};
ghost use Rattle.world.specs.BoundTo.{AreProgramsBound};
ghost use Rattle.world.specs.Programs.{programs_in};
ghost use Rattle.world.specs.Bound.{IsFirstUnbound};

use crate::binding::{certify_maps, certify_programs, first_unbound};
use crate::fault::WorldFault;
use crate::kept::{Loaded, Parts};
use bpf_model::MAX_PROGRAMS;
use maps::Registry;
use std::alloc::{AllocError, Global};
use std::marker::Model;

/// Maps, verified programs that are bound to them, and runs of these programs in `MAX_RUNS` run slots.
/// Contracts see the world's view; each world tracks a state of the abstract machine.
#[derive(Drop)]
pub struct World {
    pub(crate) parts: Parts,
}

impl Model for World {
    ghost use Rattle.bpf_model.specs.View.{WorldView};
    ghost use Rattle.model_laws.specs.Codes.{world_code};
    ghost use Rattle.world_laws.specs.Invariant.{IsWorld};

    ghost Value = { WorldView };

    ghost coded = { world_code };

    ghost view = { λ w. w.parts };

    ghost invariant = { λ w. IsWorld w.parts };
}

impl World {
    /// A world of these programs and of these maps, which are new, in which nothing has happened.
    /// All the memory that it ever takes is taken here, but for programs that `load` adds. What it takes by
    /// value is dropped when it refuses.
    ///
    /// Errors: the first of these that holds.
    /// - `TooManyPrograms`: there are more than `MAX_PROGRAMS`.
    /// - `Binding`, with the first program that is not bound to maps of the shapes that it was verified for: a map is missing,
    ///   has another shape, or the counts differ.
    /// - `Memory`: there is none for the runs.
    pub fn new(alloc: Global, registry: Registry, loaded: Vec<Loaded>) -> Result<World, WorldFault>
        requires new_maps { AreNewMaps registry.maps }
        ensures too_many { MAX_PROGRAMS < length loaded.items →
            result ≡ Err WorldFault.TooManyPrograms }
        ensures binding { (p : ℕ) → length loaded.items ≤ MAX_PROGRAMS
            → IsFirstUnbound (shapes_of_maps registry.maps) loaded.items p
            → result ≡ Err (WorldFault.Binding p) }
        ensures made { length loaded.items ≤ MAX_PROGRAMS
            → AreProgramsBound (shapes_of_maps registry.maps) loaded.items
            → IsOk result ⊎ (result ≡ Err WorldFault.Memory) }
        ensures view { IfOk result (λ w.
            w ≡ start_view registry.names (shapes_of_maps registry.maps)
            (programs_in loaded.items)) }
        ensures start { IfOk result (λ w. TracksSchedule w
            (start_schedule (shapes_of_maps registry.maps) (programs_in loaded.items))) }
        ensures machine { IfOk result (λ w. Tracks w
            (start_machine (shapes_of_maps registry.maps) (programs_in loaded.items))) }
    {
        if loaded.len() > MAX_PROGRAMS {
            return Err(WorldFault::TooManyPrograms);
        }
        if let Some(program) = first_unbound(&registry, &loaded) {
            return Err(WorldFault::Binding { program });
        }
        certify_maps(&registry);
        certify_programs(&loaded);
        match Parts::new(alloc, registry, loaded) {
            Ok(parts) => Ok(World { parts }),
            Err(_) => Err(WorldFault::Memory),
        }
    }

    /// An equal world: the same names, elements, runs, programs and counts, so that it answers every list of events
    /// as this one would. This one is unchanged. The error is that there is no memory left; the copy takes none
    /// later, but in `load`.
    pub fn copy(&self, alloc: Global) -> Result<World, AllocError>
        ensures same { IfOk result (λ w. w ≡ self.now) }
    {
        let parts = self.parts.copy(alloc)?;
        Ok(World { parts })
    }

    /// A law: the world tracks a state of the machine, its programs are verified for its maps, and its counts
    /// have room.
    pub fn is_world(&self)
        ensures { IsWorld self.now }
    {
        let _parts = &self.parts;
    }
}
