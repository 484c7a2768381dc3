//! The arguments of a helper, as they stand in the run's registers and frame.
ghost use Rattle.std.specs.Prelude.{◌≡◌, ◌-◌, []};
ghost use Rattle.bpf_model.specs.Word.{map_base};
ghost use Rattle.world_laws.specs.Calling.{bytes_in};
ghost use Rattle.world_laws.specs.Moving.{word_in};
ghost use Rattle.world_laws.specs.Reaching.{IsInFrame};
ghost use Rattle.machine.specs.Workspaces.{own_view};

use crate::regions::{FRAME_BASE, MAP_BASE};
use crate::run::Run;
use crate::workspace::Workspace;
use bpf_model::Reg;

impl Workspace {
    /// The map that r1 names, by its index in the program's list. Where r1 names no map, the number means nothing.
    #[inline(always)]
    pub fn map_argument(&self) -> usize
        ensures { result ≡ word_in (own_view [] self.now) 1 - map_base }
    {
        self.word(Reg::R1).saturating_sub(MAP_BASE) as usize
    }

    /// `len` bytes of the frame from the address in a register on, all of which lie in it: a key or a value.
    #[inline(always)]
    pub fn bytes_argument(&self, r: Reg, len: usize) -> &[u8]
        requires { IsInFrame (word_in (own_view [] self.now) r) len }
        ensures { result.now ≡ bytes_in (own_view [] self.now) r len }
    {
        let at = (self.word(r) - FRAME_BASE) as usize;
        &self.frame[at..at + len]
    }
}

impl Run {
    /// The map that r1 names, by its index in the program's list. Where r1 names no map, the number means nothing.
    pub fn map_argument(&self) -> usize
        ensures { result ≡ word_in self.now.view 1 - map_base }
    {
        self.workspace.map_argument()
    }

    /// `len` bytes of the frame from the address in a register on, all of which lie in it: a key or a value.
    pub fn bytes_argument(&self, r: Reg, len: usize) -> &[u8]
        requires { IsInFrame (word_in self.now.view r) len }
        ensures { result.now ≡ bytes_in self.now.view r len }
    {
        self.workspace.bytes_argument(r, len)
    }
}
