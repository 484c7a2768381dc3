//! A program more.
ghost use Rattle.std.specs.Prelude.{◌≡◌, length, OnOk, OnErr};
ghost use Rattle.bpf_model.specs.View.{shapes_of};
ghost use Rattle.world_laws.specs.Loads.{with_program};
ghost use Rattle.world.specs.BoundTo.{IsBound};
ghost use Rattle.world.specs.Programs.{program_of};

use crate::kept::loaded::Loaded;
use crate::kept::parts::Parts;
use std::alloc::AllocError;

impl Parts {
    /// How many programs there are.
    pub fn program_count(&self) -> usize
        ensures { result ≡ length self.now.programs }
    {
        self.programs.len()
    }

    /// Adds a program that is bound to the maps, behind the others. The error is that there is no memory left;
    /// then nothing has changed.
    pub fn load(&mut self, loaded: Loaded) -> Result<(), AllocError>
        requires bound { IsBound (shapes_of self.old) loaded }
        ensures ok { OnOk result (self.new ≡ with_program (program_of loaded) self.old) }
        ensures err { OnErr result (self.new ≡ self.old) }
    {
        self.programs.push(loaded)?;
        Ok(())
    }
}
