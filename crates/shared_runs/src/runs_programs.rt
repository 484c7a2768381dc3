//! What a table is to whoever runs programs over it.
ghost use Rattle.std.specs.Prelude.{◌≡◌, ◌↔◌, ℕ, List, IfOk, IsErr, OnErr, length};
ghost use Rattle.bpf_model.specs.declared.limits.MapShape.{MapShape};
ghost use Rattle.verifier.specs.Checked.{Checked};
ghost use Rattle.shared_runs.specs.Running.{HasRun};

use crate::SubWord;
use bpf_model::CtxBytes;
use verifier::Verified;

/// A table over which programs run, each by a reader's seat.
pub trait RunsPrograms {
    /// A reader's seat.
    type Seat: Send + Drop;

    // What a reader does to the table.
    ghost Move: { Type 0 };

    // All that a seat did, the newest first.
    ghost mine: { Self.Seat → List Move };

    // What tells seats apart: the table, and which reader's it is.
    ghost Name: { Type 0 };

    ghost name: { Self.Seat → Name };

    // The seat is at this table, and outside a section.
    ghost IsReady: { Self → Self.Seat → Type 0 };

    // The table has the lengths of these maps of a program.
    ghost Fits: { Self → List MapShape → Type 0 };

    // Words don't serve the program.
    ghost Refuses: { Checked → Type 0 };

    // The moves are those of a shared run of the program on the context, by the seat of this name. It exits with the value, which
    // comes last, after so many steps.
    ghost IsRun: { Self → Name → Checked → List ℕ → List Move → ℕ → ℕ → Type 0 };

    /// Runs the program on the context, to its exit, or not at all.
    ///
    /// Errors: `SubWord` where words don't serve the program.
    fn run(
        &self,
        seat: &mut Self::Seat,
        verified: &Verified,
        ctx: &CtxBytes,
    ) -> Result<u64, SubWord>
        requires ready { IsReady self.now seat.old }
        requires context { length ctx.now.items ≡ verified.now.ctx_len }
        requires maps { Fits self.now verified.now.shapes }
        ensures refused { IsErr result ↔ Refuses verified.now }
        ensures unchanged { OnErr result (seat.new ≡ seat.old) }
        ensures runs { IfOk result (HasRun mine (IsRun self.now (name seat.old) verified.now ctx.now.items)
            (length verified.now.program) seat.old seat.new) }
        ensures name { name seat.new ≡ name seat.old }
        ensures ready { IsReady self.now seat.new };
}
