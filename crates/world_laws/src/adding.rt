//! Laws of a program that is added to a world: what a world tracks, and what is so of it, stays so with one program
//! more.
//!
//! Each is a function with an empty body, whose contract is the law.

ghost use Rattle.std.specs.Prelude.{List, [], ◌∷◌, ◌++◌, ◌<◌, length};
ghost use Rattle.bpf_model.specs.declared.limits.MapShape.{MapShape};
ghost use Rattle.bpf_model.specs.declared.limits.TheConstants.{MAX_PROGRAMS};
ghost use Rattle.bpf_model.specs.Machine.{Loaded, Machine};
ghost use Rattle.bpf_model.specs.Refines.{RefinesSchedule, IsReachedSchedule, TracksSchedule, Tracks};
ghost use Rattle.bpf_model.specs.Schedule.{Schedule};
ghost use Rattle.bpf_model.specs.View.{WorldView, shapes_of};
ghost use Rattle.plan_laws.specs.Verified.{IsVerified};
ghost use Rattle.world_laws.specs.Binding.{IsBoundTo};
ghost use Rattle.world_laws.specs.Invariant.{IsWorld};
ghost use Rattle.world_laws.specs.Typed.{IsRealProgram};
ghost use Rattle.world_laws.specs.Loads.{loads, schedule_loads, with_program};

/// A world that refines a schedule refines the schedule with one program more, when it has that program too.
pub fn refines_with_one_more()
    ensures { (program : Loaded) (w : WorldView) (s : Schedule) → RefinesSchedule w s →
        RefinesSchedule (with_program program w) (schedule_loads program s) }
{}

/// A schedule that is reached from the start with some programs is reached, with one program more, from the start
/// with that one too: a start that was refused, since its program was not there, is one of another number there.
pub fn reached_with_one_more()
    ensures { (program : Loaded) (shapes : List MapShape) (programs : List Loaded) (s : Schedule) →
        length programs < MAX_PROGRAMS → IsReachedSchedule shapes programs s →
        IsReachedSchedule shapes (programs ++ program ∷ []) (schedule_loads program s) }
{}

/// What a world tracks, it tracks with one program more.
pub fn tracked_with_one_more()
    ensures schedule { (program : Loaded) (w : WorldView) (s : Schedule) →
        length w.programs < MAX_PROGRAMS → TracksSchedule w s →
        TracksSchedule (with_program program w) (schedule_loads program s) }
    ensures machine { (program : Loaded) (w : WorldView) (m : Machine) →
        length w.programs < MAX_PROGRAMS → Tracks w m →
        Tracks (with_program program w) (loads program m) }
{}

/// A world with room for a program is one with it too, where the program is verified, a value of its type, and
/// bound to the world's maps.
pub fn loaded_is_world()
    ensures { (program : Loaded) (asked : List MapShape) (w : WorldView) → IsWorld w →
        length w.programs < MAX_PROGRAMS → IsBoundTo (shapes_of w) asked program.maps →
        IsVerified program.code asked program.context_len → IsRealProgram program →
        IsWorld (with_program program w) }
{}
