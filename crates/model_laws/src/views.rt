//! Laws of worlds: what a world makes of its view is a step of the machine with the runtime's choices.
//!
//! Each is a function with an empty body, whose contract is the law.

ghost use Rattle.std.specs.Prelude.{◌≡◌, ℕ, ◌<◌, ℤ, List, Some, None, length, slice_get, slice_index, slice_set};
ghost use Rattle.arrayvec.specs.ArrayVec.{ArrayVec};
ghost use Rattle.bpf_model.specs.declared.call.KernelFunction.{KernelFunction};
ghost use Rattle.bpf_model.specs.declared.event.Event.{Event};
ghost use Rattle.bpf_model.specs.declared.event.Answer.{Answer};
ghost use Rattle.bpf_model.specs.declared.insn.CallKind.{CallKind};
ghost use Rattle.bpf_model.specs.declared.insn.Insn.{Insn};
ghost use Rattle.bpf_model.specs.declared.limits.TheConstants.{MAX_DEPTH};
ghost use Rattle.bpf_model.specs.Access.{region_offset};
ghost use Rattle.bpf_model.specs.Call.{kernel_function_of};
ghost use Rattle.bpf_model.specs.Drain.{AnswersAsScheduled};
ghost use Rattle.bpf_model.specs.Element.{Element, accessible};
ghost use Rattle.bpf_model.specs.Real.{IsReal};
ghost use Rattle.bpf_model.specs.Machine.{Run, run_at, with_runs, with_store};
ghost use Rattle.bpf_model.specs.MachineStep.{StepsRun};
ghost use Rattle.bpf_model.specs.Access.{with_bytes};
ghost use Rattle.bpf_model.specs.MapState.{Store};
ghost use Rattle.bpf_model.specs.Refines.{RunRefines, RefinesSchedule, TracksSchedule};
ghost use Rattle.bpf_model.specs.Schedule.{Schedule, TakesOldest};
ghost use Rattle.bpf_model.specs.Step.{insn_at};
ghost use Rattle.bpf_model.specs.View.{MapView, RunView, WorldView, shapes_of, value_in};
ghost use Rattle.model_laws.specs.Views.{deleted, updated, written};
ghost use Rattle.model_laws.specs.Reactions.{with_map, with_run, delete_reaction, update_reaction, read_reaction, advance_reaction};
ghost use Rattle.model_laws.specs.Reactions.{reap_reaction, start_reaction, drop_reaction, locked_view, unlocked_view, reaction};
ghost use Rattle.model_laws.specs.Matching.{Matches, Simulates, half, DeletesHalf, UpdatesHalf, StoresHalf};

/// A world matches each schedule that it tracks.
pub fn tracked_matches()
    ensures { (w : WorldView) (s : Schedule) → TracksSchedule w s → Matches w s }
{}

/// What a world makes of a delete, refused or not, is a step of the schedule.
pub fn delete_simulates()
    ensures { (w : WorldView) (s : Schedule) → Matches w s → (k : ℕ) (key : ArrayVec ℕ) →
        Simulates s (Event.Delete k key) (delete_reaction w k key.items) }
{}

/// What a world makes of an update, refused or not, with each of its errors or none, is a step of the
/// schedule.
pub fn update_simulates()
    ensures { (w : WorldView) (s : Schedule) → Matches w s →
        (k : ℕ) (key value : ArrayVec ℕ) (flags : ℕ) →
        Simulates s (Event.Update k key value flags)
        (update_reaction w k key.items value.items flags) }
{}

/// What a world makes of a read, refused or not, is a step of the schedule: a lookup in the index.
pub fn read_simulates()
    ensures { (w : WorldView) (s : Schedule) → Matches w s → (k : ℕ) (key : ArrayVec ℕ) →
        Simulates s (Event.Read k key) (read_reaction w k key.items) }
{}

/// What a world makes of an advance is a step of the schedule: where no run is awaited, a grace period
/// ends in each map.
pub fn advance_simulates()
    ensures { (w : WorldView) (s : Schedule) → Matches w s →
        Simulates s Event.Advance (advance_reaction w) }
{}

/// What a world makes of a reap is a step of the schedule: the first ready map slot of the lowest map
/// that has one is given back, or there is none.
pub fn reap_simulates()
    ensures { (w : WorldView) (s : Schedule) → Matches w s
        → Simulates s Event.Reap (reap_reaction w) }
{}

/// What a world makes of a start, refused or not, is a step of the schedule.
pub fn start_simulates()
    ensures { (w : WorldView) (s : Schedule) → Matches w s → (prog : ℕ) (ctx : ArrayVec ℕ) →
        Simulates s (Event.Start prog ctx) (start_reaction w prog ctx.items) }
{}

/// What a world makes of a drop, refused or not, is a step of the schedule.
pub fn drop_simulates()
    ensures { (w : WorldView) (s : Schedule) → Matches w s → (r : ℕ) →
        Simulates s (Event.Drop r) (drop_reaction w r) }
{}

/// Each reaction is a step of the schedule: all events but the step of a run that goes on.
pub fn reaction_simulates()
    ensures { (w : WorldView) (s : Schedule) → Matches w s
        → (event : Event) (x : Answer × WorldView) →
        reaction w event ≡ Some x → Simulates s event x }
{}

/// No reaction changes a map's name or shape, or the programs.
pub fn reaction_keeps()
    ensures shapes { (w : WorldView) (event : Event) (x : Answer × WorldView)
        → reaction w event ≡ Some x →
        shapes_of x.1 ≡ shapes_of w }
    ensures programs { (w : WorldView) (event : Event) (x : Answer × WorldView)
        → reaction w event ≡ Some x →
        x.1.programs ≡ w.programs }
    ensures names { (w : WorldView) (event : Event) (x : Answer × WorldView)
        → reaction w event ≡ Some x → x.1.names ≡ w.names }
{}

/// A reaction to an event within its types is an answer with the runtime's choices, and the view after
/// it tracks what follows.
pub fn reaction_tracks()
    ensures { (w : WorldView) (event : Event) (x : Answer × WorldView) → IsReal event →
        reaction w event ≡ Some x → AnswersAsScheduled TracksSchedule w event x.0 x.1 }
{}

/// A step that simulates each schedule which the world tracks, to a view with the same shapes and
/// programs, is answered as scheduled.
pub fn simulates_tracks()
    ensures { (w new : WorldView) (event : Event) (answer : Answer) → IsReal event →
        shapes_of new ≡ shapes_of w → new.programs ≡ w.programs →
        ((s : Schedule) → TracksSchedule w s → Simulates s event (answer, new)) →
        AnswersAsScheduled TracksSchedule w event answer new }
{}

/// A step of a run that leaves the maps as they are is a step of the schedule, where the run's new view stands
/// for the run after it.
pub fn move_simulates()
    ensures { (w : WorldView) (s : Schedule) → (m : Matches w s) →
        (r : ℕ) (run later : Run) (old new : RunView) (answer : Answer) →
        run_at s.machine.runs r ≡ Some run → slice_get w.runs r ≡ Some (Some old) →
        RunRefines m.refines.slots s.machine.store.elements s.machine.programs new later →
        StepsRun s.machine r answer
        (with_runs s.machine (slice_set s.machine.runs r (Some later))) →
        Simulates s (Event.Step r) (answer, with_run r (Some new) w) }
{}

/// A run's lock, outermost or nested, is a step of the schedule.
pub fn lock_simulates()
    ensures { (w : WorldView) (s : Schedule) → Matches w s →
        (r : ℕ) (run : Run) (old : RunView) (imm : ℤ) → run_at s.machine.runs r ≡ Some run →
        slice_get w.runs r ≡ Some (Some old) → run.exit ≡ None →
        insn_at run.program.code run.state.place ≡ Some (Insn.Call CallKind.Kernel imm) →
        kernel_function_of imm ≡ Some KernelFunction.ReadLock → run.depth < MAX_DEPTH →
        Simulates s (Event.Step r) (Answer.Moved, with_run r (Some (locked_view old)) w) }
{}

/// A run's unlock, outermost or nested, is a step of the schedule.
pub fn unlock_simulates()
    ensures { (w : WorldView) (s : Schedule) → Matches w s →
        (r : ℕ) (run : Run) (old : RunView) (imm : ℤ) → run_at s.machine.runs r ≡ Some run →
        slice_get w.runs r ≡ Some (Some old) → run.exit ≡ None →
        insn_at run.program.code run.state.place ≡ Some (Insn.Call CallKind.Kernel imm) →
        kernel_function_of imm ≡ Some KernelFunction.ReadUnlock → 0 < run.depth →
        Simulates s (Event.Step r) (Answer.Moved, with_run r (Some (unlocked_view old)) w) }
{}

/// Deleting in a map's view is the first half of a run's step that deletes: the maps change, and the lists.
pub fn delete_half()
    ensures { (w : WorldView) (s : Schedule) → Matches w s → (k : ℕ) (v : MapView) (key : List ℕ) →
        slice_get w.maps k ≡ Some v →
        DeletesHalf (with_map k (deleted v key).1 w) s k key (deleted v key).0 }
{}

/// Updating a map's view is the first half of a run's step that updates.
pub fn update_half()
    ensures { (w : WorldView) (s : Schedule) → Matches w s →
        (k : ℕ) (v : MapView) (key value : List ℕ) (flags : ℕ) → slice_get w.maps k ≡ Some v →
        UpdatesHalf (with_map k (updated v key value flags).1 w) s k key value flags
        (updated v key value flags).0 }
{}

/// Writing to a map's view is the first half of a run's step that stores to an element: the low bytes of a
/// number replace others in its map slot.
pub fn store_half()
    ensures { (w : WorldView) (s : Schedule) → (m : Matches w s) →
        (n : ℕ) (e : Element) (v : MapView) (offset : ℤ) (width at x : ℕ) →
        accessible s.machine.store.elements n ≡ Some e → slice_get w.maps e.map ≡ Some v →
        region_offset (length e.value) width offset ≡ Some at →
        StoresHalf
        (with_map e.map
        (written v (slice_index m.refines.slots n)
        (with_bytes at width x
        (value_in (slice_get v.slots (slice_index m.refines.slots n))))) w)
        s n width offset x }
{}

/// A view that refines the first half of a run's step, with the run's own view after the step, is the world
/// after a step of the schedule.
pub fn halves_simulate()
    ensures { (w : WorldView) (s : Schedule) → Matches w s →
        (r : ℕ) (store : Store) (mid : WorldView) (refines : RefinesSchedule mid (half s store))
        (run later : Run) (old new : RunView) (answer : Answer) →
        run_at s.machine.runs r ≡ Some run → slice_get mid.runs r ≡ Some (Some old) →
        RunRefines refines.slots store.elements s.machine.programs new later →
        TakesOldest s.machine.store store →
        StepsRun s.machine r answer
        (with_runs (with_store s.machine store) (slice_set s.machine.runs r (Some later))) →
        Simulates s (Event.Step r) (answer, with_run r (Some new) mid) }
{}
