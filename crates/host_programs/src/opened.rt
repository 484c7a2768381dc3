//! An open program in the hands of one host.

use crate::program::HostProgram;
use crate::room::Room;
use std::alloc::AllocError;
use std::marker::Model;
use std::sync::Arc;

/// A program that other hosts may share, and room of its own for runs, one at a time. Contracts see the program alone.
#[derive(Drop)]
pub struct Opened {
    pub(crate) program: Arc<HostProgram>,
    pub(crate) room: Room,
}

impl Model for Opened {
    ghost use Rattle.std.specs.Arc.{arc_value};
    ghost use Rattle.host_programs.specs.Opened.{OpenProgram};

    ghost Value = { OpenProgram };

    ghost view = { λ o. arc_value o.program };
}

impl Opened {
    ghost use Rattle.std.specs.Prelude.{◌≡◌, IfOk};
    ghost use Rattle.std.specs.Arc.{arc_value};

    /// The program, with room.
    pub fn of(program: Arc<HostProgram>) -> Opened
        ensures { result ≡ arc_value program }
    {
        Opened {
            program,
            room: Room::new(),
        }
    }

    /// The program that was opened.
    pub fn program(&self) -> &HostProgram
        ensures { result.now ≡ self.now }
    {
        &self.program
    }

    /// The same program once more, with room of its own, for another host.
    ///
    /// # Errors
    ///
    /// `AllocError` where memory runs out, or the program has too many owners.
    pub fn share(&self) -> Result<Opened, AllocError>
        ensures { IfOk result (λ o. o ≡ self.now) }
    {
        match Arc::try_clone(&self.program) {
            Ok(program) => Ok(Opened::of(program)),
            Err(_) => Err(AllocError),
        }
    }
}
