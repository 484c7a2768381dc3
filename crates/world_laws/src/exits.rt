//! Laws of exit values: the value that a world keeps for a run that has ended is one of its program's
//! definition, whatever events came between.
//!
//! Each is a function with an empty body, whose contract is the law.

ghost use Rattle.std.specs.Prelude.{◌≡◌, ℕ, List};
ghost use Rattle.bpf_model.specs.declared.insn.Insn.{Insn};
ghost use Rattle.bpf_model.specs.declared.limits.MapShape.{MapShape};
ghost use Rattle.bpf_model.specs.Exit.{ExitsWith, HasNoMaps};
ghost use Rattle.bpf_model.specs.Machine.{Loaded};
ghost use Rattle.bpf_model.specs.View.{WorldView};
ghost use Rattle.world_laws.specs.Exited.{HasExited};
ghost use Rattle.world_laws.specs.Invariant.{IsWorld};
ghost use Rattle.world_laws.specs.Exits.{MayExitAs, ExitsAs};

/// A run that has ended in a world may exit so by its program's definition, among maps of the shapes that are asked for.
/// Without map references it exits so whatever other actors do.
pub fn exited_as_defined()
    ensures may { (w : WorldView) (r : ℕ) (code : List Insn) (shapes : List MapShape)
        (context_len : ℕ) (context : List ℕ) (n : ℕ) → IsWorld w →
        HasExited w r code shapes context_len context n →
        MayExitAs code shapes context n }
    ensures alone { (w : WorldView) (r : ℕ) (code : List Insn) (shapes : List MapShape)
        (context_len : ℕ) (context : List ℕ) (n : ℕ) → IsWorld w → HasNoMaps code →
        HasExited w r code shapes context_len context n → ExitsAs code context n }
{}

/// Without map references an exit is of the instructions alone: programs that have the same ones exit
/// alike, whatever else they were loaded with.
pub fn exit_alike()
    ensures { (a b : Loaded) (context : List ℕ) (steps n : ℕ) → HasNoMaps a.code → a.code ≡ b.code →
        ExitsWith a context steps n → ExitsWith b context steps n }
{}
