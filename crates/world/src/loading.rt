//! A program that is added to a world that lives.
ghost use Rattle.std.specs.Prelude.{◌≡◌, ◌⊎◌, ◌<◌, ◌≤◌, length, Err, IfOk, IsOk, OnOk, OnErr};
ghost use Rattle.bpf_model.specs.declared.limits.TheConstants.{MAX_PROGRAMS};
ghost use Rattle.bpf_model.specs.Machine.{Machine};
ghost use Rattle.bpf_model.specs.Refines.{TracksSchedule, Tracks};
ghost use Rattle.bpf_model.specs.Schedule.{Schedule};
ghost use Rattle.bpf_model.specs.View.{shapes_of};
ghost use Rattle.world_laws.specs.Loads.{loads, schedule_loads, with_program};
ghost use Rattle.world.specs.BoundTo.{IsBound};
ghost use Rattle.world.specs.Programs.{program_of};

use crate::binding::{certify, is_bound};
use crate::fault::WorldFault;
use crate::kept::Loaded;
use crate::world::World;
use bpf_model::{MAX_PROGRAMS, ProgId};

impl World {
    /// Adds a program, bound to maps of this world, behind its others, and answers its number, which is the next
    /// one. Runs, maps and counts stay as they were. Only here does a world grow.
    ///
    /// Errors: the first of these that holds. Then nothing has changed, and the program is dropped.
    /// - `TooManyPrograms`: there are `MAX_PROGRAMS`.
    /// - `Binding`, with the number that the program would have had: a map of its list is missing or has another
    ///   shape than it was verified for, or the counts differ.
    /// - `Memory`: there is none for one program more.
    pub fn load(&mut self, loaded: Loaded) -> Result<ProgId, WorldFault>
        ensures too_many { MAX_PROGRAMS ≤ length self.old.programs →
            result ≡ Err WorldFault.TooManyPrograms }
        ensures binding { length self.old.programs < MAX_PROGRAMS →
            (IsBound (shapes_of self.old) loaded → ⊥) →
            result ≡ Err (WorldFault.Binding (length self.old.programs)) }
        ensures made { length self.old.programs < MAX_PROGRAMS →
            IsBound (shapes_of self.old) loaded →
            IsOk result ⊎ (result ≡ Err WorldFault.Memory) }
        ensures number { IfOk result (λ p. p ≡ length self.old.programs) }
        ensures view { OnOk result (self.new ≡ with_program (program_of loaded) self.old) }
        ensures err { OnErr result (self.new ≡ self.old) }

        // Each state that was tracked is tracked with the program behind its others.
        ensures schedule { OnOk result ((s : Schedule) → TracksSchedule self.old s →
            TracksSchedule self.new (schedule_loads (program_of loaded) s)) }
        ensures machine { OnOk result ((m : Machine) → Tracks self.old m →
            Tracks self.new (loads (program_of loaded) m)) }
    {
        let count = self.parts.program_count();
        if count >= MAX_PROGRAMS {
            return Err(WorldFault::TooManyPrograms);
        }
        let program = ProgId::new(count);
        if !is_bound(self.parts.registry(), &loaded) {
            return Err(WorldFault::Binding { program });
        }
        certify(&loaded);
        match self.parts.load(loaded) {
            Ok(()) => Ok(program),
            Err(_) => Err(WorldFault::Memory),
        }
    }
}
