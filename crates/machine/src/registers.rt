//! A run goes on by one instruction, and a register may be set.
ghost use Rattle.world_laws.specs.Moving.{with_word, advanced_view};
ghost use Rattle.machine.specs.RunWords.{HasRoom};
ghost use Rattle.machine.specs.Moves.{GoesOn};

use crate::run::Run;
use bpf_model::Reg;

impl Run {
    /// Goes on by one slot.
    #[inline]
    pub(crate) fn advance(&mut self)
        requires { HasRoom self.old }
        ensures { GoesOn (advanced_view 1 self.old.view) self.old self.new }
    {
        self.place += 1;
        self.moved += 1;
        self.index += 1;
    }

    /// Sets a register, and goes on by one slot.
    #[inline]
    pub(crate) fn set(&mut self, dst: Reg, word: u64)
        requires { HasRoom self.old }
        ensures { GoesOn (with_word 1 dst word self.old.view) self.old self.new }
    {
        self.workspace.put(dst, word);
        self.advance();
    }
}
