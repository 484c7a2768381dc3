//! Laws of the runtime's world as a whole: what holds of it at the start holds after any events.
//!
//! Each is a function with an empty body, whose contract is the law.

ghost use Rattle.std.specs.Prelude.{◌≤◌, ◌<◌, ◌+◌, ◌^◌, ℕ, List, length, map};
ghost use Rattle.bpf_model.specs.declared.event.Event.{Event};
ghost use Rattle.bpf_model.specs.declared.limits.MapShape.{MapShape};
ghost use Rattle.bpf_model.specs.declared.limits.TheConstants.{MAX_MAPS, MAX_PROGRAMS};
ghost use Rattle.bpf_model.specs.Real.{IsReal, AreReal};
ghost use Rattle.bpf_model.specs.Machine.{Loaded};
ghost use Rattle.bpf_model.specs.Shapes.{AreShapes};
ghost use Rattle.bpf_model.specs.MapState.{new_map};
ghost use Rattle.bpf_model.specs.View.{WorldView, start_view};
ghost use Rattle.plan_laws.specs.Verified.{IsVerified};
ghost use Rattle.plan_laws.specs.Well.{IsVerifiedFor, AreVerified};
ghost use Rattle.world_laws.specs.Reacting.{full_reaction, full_reactions};
ghost use Rattle.world_laws.specs.Typed.{AreRealPrograms, IsMatched};
ghost use Rattle.world_laws.specs.Binding.{IsBoundTo};
ghost use Rattle.world_laws.specs.Invariant.{IsWorld};

/// A program is verified for the maps to which it is bound.
pub fn bound_is_verified()
    ensures { (shapes asked : List MapShape) (program : Loaded)
        → IsBoundTo shapes asked program.maps →
        IsVerified program.code asked program.context_len
        → IsVerifiedFor (map new_map shapes) program }
{}

/// New maps and verified programs, as many as there may be, make a world.
pub fn start_is_world()
    ensures { (names : List (List ℕ)) (shapes : List MapShape) (programs : List Loaded) →
        AreShapes shapes → length shapes ≤ MAX_MAPS → length programs ≤ MAX_PROGRAMS →
        AreVerified shapes programs → AreRealPrograms programs
        → IsWorld (start_view names shapes programs) }
{}

/// A reaction makes a world of a world.
pub fn reaction_is_world()
    ensures { (w : WorldView) (event : Event) → IsWorld w → IsReal event →
        IsWorld (full_reaction w event).1 }
{}

/// The reactions to a list of events make a world of a world.
pub fn reactions_make_world()
    ensures { (w : WorldView) (events : List Event) → IsWorld w → AreReal events →
        IsWorld (full_reactions w events).1 }
{}

/// A world has what the step of a run may take for granted.
pub fn world_is_matched()
    ensures { (w : WorldView) → IsWorld w → IsMatched w }
{}

/// A world's count of reclaimed elements has room for one more.
pub fn count_has_room()
    ensures { (w : WorldView) → IsWorld w → w.given + 1 < 2 ^ 64 }
{}
