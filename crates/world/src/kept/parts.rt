//! What a world keeps.
ghost use Rattle.std.specs.Prelude.{◌≡◌, None, replicate, slice_get, option_map, option_copied, IfOk, IfSome};
ghost use Rattle.bpf_model.specs.declared.limits.TheConstants.{MAX_RUNS};
ghost use Rattle.bpf_model.specs.View.{shapes_of, shapes_of_maps, unused_world};
ghost use Rattle.world.specs.BoundTo.{AreProgramsBound, IsBound};
ghost use Rattle.world.specs.Programs.{program_of, programs_in};

use crate::kept::by_number::program_at;
use crate::kept::copying::{copy_of_programs, copy_of_runs};
use crate::kept::flags::free_flags;
use crate::kept::loaded::Loaded;
use bpf_model::{MAX_RUNS, ProgId};
use element_store::Grace;
use machine::Run;
use maps::Registry;
use std::alloc::{AllocError, Global};
use std::marker::Model;

/// The maps; the runs by run slot; how deep each of them is inside sections, and which are awaited; the
/// programs; and how many elements were reclaimed. Contracts see the world's view.
#[derive(Drop)]
pub struct Parts {
    pub(crate) registry: Registry,
    pub(crate) grace: Grace,
    /// `MAX_RUNS` run slots, made at the start.
    pub(crate) runs: Vec<Option<Run>>,
    /// For each run slot whether it is occupied.
    pub(crate) flags: Vec<u8>,
    pub(crate) programs: Vec<Loaded>,
    pub(crate) given: usize,
}

impl Model for Parts {
    ghost use Rattle.bpf_model.specs.View.{WorldView};
    ghost use Rattle.model_laws.specs.Codes.{world_code};

    ghost Value = { WorldView };

    ghost coded = { world_code };

    ghost use Rattle.world.specs.Keeping.{world_of, ArePartsKept};

    ghost view = { λ p. world_of p.registry.names p.registry.maps p.runs.items p.grace p.programs.items p.given };

    ghost invariant = { λ p. ArePartsKept p.registry.maps p.runs.items p.flags.items p.grace p.programs.items };
}

/// `MAX_RUNS` free run slots.
fn free_slots(alloc: Global) -> Result<Vec<Option<Run>>, AllocError>
    ensures { IfOk result (λ v. v.items ≡ replicate MAX_RUNS None) }
{
    let mut runs = Vec::with_capacity(alloc, MAX_RUNS)?;
    for _ in 0..MAX_RUNS {
        runs.push(None)?;
    }
    Ok(runs)
}

impl Parts {
    /// These maps and the programs that are bound to them, without runs. All the memory that it ever takes is
    /// taken here, but for programs that `load` adds.
    pub fn new(
        alloc: Global,
        registry: Registry,
        programs: Vec<Loaded>,
    ) -> Result<Parts, AllocError>
        requires bound { AreProgramsBound (shapes_of_maps registry.maps) programs.items }
        ensures { IfOk result (λ w.
            w ≡ unused_world registry.names registry.maps (programs_in programs.items)) }
    {
        let runs = free_slots(alloc)?;
        let flags = free_flags(alloc)?;
        Ok(Parts {
            registry,
            grace: Grace::new(),
            runs,
            flags,
            programs,
            given: 0,
        })
    }

    /// Equal parts: the same maps of the same names, the same runs in the same run slots, the same flags
    /// and programs. The error is that there is no memory left. Like the original it takes none later,
    /// but in `load`.
    pub fn copy(&self, alloc: Global) -> Result<Parts, AllocError>
        ensures same { IfOk result (λ w. w ≡ self.now) }
    {
        let registry = self.registry.copy()?;
        let runs = copy_of_runs(alloc, &self.runs)?;
        let flags = Vec::from_slice(alloc, &self.flags)?;
        let programs = copy_of_programs(alloc, &self.programs)?;
        Ok(Parts {
            registry,
            grace: self.grace.copy(),
            runs,
            flags,
            programs,
            given: self.given,
        })
    }

    /// The maps, with their names.
    pub fn registry(&self) -> &Registry
        ensures maps { result.now.maps ≡ self.now.maps }
        ensures names { result.now.names ≡ self.now.names }
    {
        &self.registry
    }

    /// The program of this number, if there is one. It is bound to maps of the shapes that it was verified for.
    pub fn program(&self, prog: ProgId) -> Option<&Loaded>
        ensures same { option_map program_of (option_copied result)
            ≡ slice_get self.now.programs prog }
        ensures bound { IfSome result (λ l. IsBound (shapes_of self.now) l.now) }
    {
        program_at(&self.programs, prog)
    }
}
