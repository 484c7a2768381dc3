//! What is asked of a world outside of events.
ghost use Rattle.std.specs.Prelude.{◌≡◌, ℕ, Some, slice_get, option_map, option_copied, IfSome, IfNone};
ghost use Rattle.bpf_model.specs.Exit.{HasNoMaps};
ghost use Rattle.world_laws.specs.Exits.{MayExitAs, ExitsAs};
ghost use Rattle.world_laws.specs.Exited.{HasExited};
ghost use Rattle.world.specs.Asking.{stat_of, IsFound, HasNone};
ghost use Rattle.bpf_model.specs.View.{RunView, shapes_of};
ghost use Rattle.world.specs.BoundTo.{IsBound};
ghost use Rattle.world.specs.Programs.{program_of};

use crate::kept::Loaded;
use crate::world::World;
use bpf_model::{CtxBytes, KeyBytes, MapId, ProgId, RunId, Stat, ValueBytes};
use machine::Run;
use maps::Registry;
use verifier::Verified;

impl World {
    /// The exit value of the run in a run slot, where it has ended and was started with this program on this
    /// context. A program verified for maps of other shapes, or for contexts of another length, is another one.
    pub fn exit_of(&self, run: RunId, program: &Verified, ctx: &CtxBytes) -> Option<u64>
        ensures some { IfSome result (λ n. HasExited self.now run program.now.program
            program.now.shapes program.now.ctx_len ctx.now.items n) }
        ensures none { IfNone result ((n : ℕ) → HasExited self.now run program.now.program
            program.now.shapes program.now.ctx_len ctx.now.items n → ⊥) }

        // The value is one of the program's definition, and without map references the only one.
        ensures may { IfSome result (λ n. MayExitAs program.now.program
            program.now.shapes ctx.now.items n) }
        ensures alone { IfSome result (λ n. HasNoMaps program.now.program →
            ExitsAs program.now.program ctx.now.items n) }
    {
        self.parts.exit_of(run, program, ctx)
    }

    /// The run in a run slot, if there is one: its registers, its frame, and where it stands.
    pub fn run(&self, run: RunId) -> Option<&Run>
        ensures some { IfSome result (λ r. slice_get self.now.runs run ≡ Some (Some r.now.view)) }
        ensures none { IfNone result ((v : RunView) → slice_get self.now.runs run ≡ Some (Some v) → ⊥) }
    {
        self.parts.run(run)
    }

    /// The maps, with their names.
    pub fn registry(&self) -> &Registry
        ensures maps { result.now.maps ≡ self.now.maps }
        ensures names { result.now.names ≡ self.now.names }
    {
        self.parts.registry()
    }

    /// The program of this number, if there is one. It is bound to maps of the shapes that it was verified for.
    pub fn program(&self, prog: ProgId) -> Option<&Loaded>
        ensures same { option_map program_of (option_copied result)
            ≡ slice_get self.now.programs prog }
        ensures bound { IfSome result (λ l. IsBound (shapes_of self.now) l.now) }
    {
        self.parts.program(prog)
    }

    /// The counts of the world.
    pub fn stat(&self) -> Stat
        ensures { result ≡ stat_of self.now }
    {
        self.parts.stat()
    }

    /// The element of a map with the least key above a bound, in byte order; every key is above no bound.
    /// `None` where there is no such element, or no map of the number.
    pub fn next_above(&self, map: MapId, bound: Option<&KeyBytes>) -> Option<(KeyBytes, ValueBytes)>
        ensures some { IfSome result (λ r. IsFound (slice_get self.now.maps map)
            (option_map (λ k. k.items) (option_copied bound.entry)) r.0.items r.1.items) }
        ensures none { IfNone result (HasNone (slice_get self.now.maps map)
            (option_map (λ k. k.items) (option_copied bound.entry))) }
    {
        self.parts.next_above(map, bound)
    }
}
