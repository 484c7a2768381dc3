//! Laws of whole worlds: the runtime's reaction to any event, a step of a running run too, is a step of the machine
//! with the runtime's choices.
//!
//! Each is a function whose contract is the law; only those of `typed` have a body.
#![tactic(auto)]

mod adding;
mod exits;
mod invariant;
mod standing;
pub mod typed;

ghost use Rattle.std.specs.Prelude.{◌≡◌, ℕ, ◌^◌, ◌<◌, ◌≤◌, ℤ, List, [], ◌∷◌, Some, length};
ghost use Rattle.bpf_model.specs.declared.call.Helper.{Helper};
ghost use Rattle.bpf_model.specs.declared.call.KernelFunction.{KernelFunction};
ghost use Rattle.bpf_model.specs.declared.event.Event.{Event};
ghost use Rattle.bpf_model.specs.declared.event.Answer.{Answer};
ghost use Rattle.bpf_model.specs.declared.insn.CallKind.{CallKind};
ghost use Rattle.bpf_model.specs.declared.insn.Insn.{Insn};
ghost use Rattle.bpf_model.specs.declared.insn.Operand.{Operand};
ghost use Rattle.bpf_model.specs.declared.opcode.SignedWidth.{SignedWidth};
ghost use Rattle.bpf_model.specs.declared.opcode.Width.{Width};
ghost use Rattle.bpf_model.specs.declared.limits.MapShape.{MapShape};
ghost use Rattle.bpf_model.specs.declared.limits.TheConstants.{MAX_MAPS};
ghost use Rattle.bpf_model.specs.declared.value.Reference.{Reference};
ghost use Rattle.bpf_model.specs.declared.value.Value.{Value};
ghost use Rattle.bpf_model.specs.Access.{byte_count, unsigned_width};
ghost use Rattle.bpf_model.specs.Call.{helper_of, kernel_function_of};
ghost use Rattle.bpf_model.specs.Drain.{AnswersAsScheduled, AreScheduledAnswers};
ghost use Rattle.bpf_model.specs.Element.{Element};
ghost use Rattle.bpf_model.specs.Event.{DoesEvent};
ghost use Rattle.bpf_model.specs.Real.{IsReal, AreReal};
ghost use Rattle.bpf_model.specs.Headline.{AnswersAsMachine, AreMachineAnswers, AreNeverStuck, AllExitInTime, AreReclaimedLate};
ghost use Rattle.bpf_model.specs.Machine.{Loaded, Run, Machine, environment, open_sections};
ghost use Rattle.model_laws.specs.ByKind.{AccessesElement, HelperStep, KernelStep};
ghost use Rattle.bpf_model.specs.MachineStep.{OutcomeStep, InsnStep};
ghost use Rattle.bpf_model.specs.MapState.{Store};
ghost use Rattle.model_laws.specs.Near.{IsNearReference};
ghost use Rattle.bpf_model.specs.Refines.{IsReachedSchedule, TracksSchedule, Tracks, IsBounded};
ghost use Rattle.bpf_model.specs.Schedule.{Schedule, DoesScheduled};
ghost use Rattle.bpf_model.specs.Step.{Outcome, after, insn_at};
ghost use Rattle.bpf_model.specs.View.{RunView, WorldView, start_view, shapes_of};
ghost use Rattle.bpf_model.specs.Word.{IsReferenceWord, element_bases};
ghost use Rattle.model_laws.specs.Locations.{named_location};
ghost use Rattle.scalar_domain.specs.Scalar.{Holds};
ghost use Rattle.scalar_domain.specs.declared.scalar.Scalar.{Scalar};
ghost use Rattle.plan_laws.specs.Limits.{IsWithinLimits};
ghost use Rattle.plan_laws.specs.Well.{AreVerified};
ghost use Rattle.model_laws.specs.Matching.{Matches, Simulates};
ghost use Rattle.model_laws.specs.Reactions.{with_run};
ghost use Rattle.world_laws.specs.WorldExample.{example_world, example_events, example_answers};
ghost use Rattle.world_laws.specs.Local.{Asks, local_of, Agrees, AsksNothing};
ghost use Rattle.world_laws.specs.Locating.{location_of};
ghost use Rattle.world_laws.specs.Moving.{word_in};
ghost use Rattle.world_laws.specs.Reaching.{Reaches, IsWritable, IsCall, IsAllowed, HasInsn};
ghost use Rattle.world_laws.specs.Reacting.{insn_step, word_step, full_reaction, full_reactions};
ghost use Rattle.world_laws.specs.Typed.{AreRealPrograms, AreListed, IsReadyWorld, IsSound, IsRunning};

pub use adding::{
    loaded_is_world, reached_with_one_more, refines_with_one_more, tracked_with_one_more,
};
pub use exits::{exit_alike, exited_as_defined};
pub use invariant::{
    bound_is_verified, count_has_room, reaction_is_world, reactions_make_world, start_is_world,
    world_is_matched,
};
pub use standing::{answer_stands, moves_described, stands_among_any, starts_described};

/// The word of a near reference within the limits tells the location that the reference names.
pub fn words_tell_locations()
    ensures { (slots : List ℕ) (es : List Element) (r : Reference) (word : ℕ) → IsNearReference r →
        IsWithinLimits slots es r → IsReferenceWord (element_bases slots es) r word →
        location_of word ≡ named_location slots es r }
{}

/// References to maps stay references to those of the program's list, whatever event comes.
pub fn stays_listed()
    ensures { (m new : Machine) (event : Event) (answer : Answer) → IsReal event →
        DoesEvent m event answer new → AreListed m → AreListed new }
{}

/// In each reached state references to maps are to those of the program's list.
pub fn reached_is_listed()
    ensures { (shapes : List MapShape) (programs : List Loaded) (s : Schedule) →
        IsReachedSchedule shapes programs s → AreListed s.machine }
{}

/// Arithmetic, jumps, exits, and loads and stores of the run's own context and frame: what they do to
/// words is a step of the machine.
pub fn own_step_simulates()
    ensures { (w : WorldView) (s : Schedule) → Matches w s → IsSound w s →
        (r : ℕ) (run later : Run) (v : RunView) → IsRunning w s r run v →
        (i : Insn) (out : Outcome) (answer : Answer) →
        insn_at run.program.code run.state.place ≡ Some i →
        after i (environment run) run.state ≡ Some out → OutcomeStep out run answer later →
        Simulates s (Event.Step r) (insn_step i run.program r v w) }
{}

/// Loads from elements and stores to them: what they do to words is a step of the machine.
pub fn access_simulates()
    ensures { (w : WorldView) (s : Schedule) → Matches w s → IsSound w s →
        (r : ℕ) (run later : Run) (v : RunView) → IsRunning w s r run v →
        (i : Insn) (out : Outcome) (es : List Element) (answer : Answer) →
        insn_at run.program.code run.state.place ≡ Some i →
        AccessesElement i s.machine.store.elements run.state out es →
        OutcomeStep out run answer later →
        Simulates s (Event.Step r) (insn_step i run.program r v w) }
{}

/// A lock and an unlock: what they do to words is a step of the machine.
pub fn kernel_call_simulates()
    ensures { (w : WorldView) (s : Schedule) → Matches w s → IsSound w s →
        (r : ℕ) (run later : Run) (v : RunView) → IsRunning w s r run v → (imm : ℤ) →
        insn_at run.program.code run.state.place ≡ Some (Insn.Call CallKind.Kernel imm) →
        KernelStep (kernel_function_of imm) run later →
        Simulates s (Event.Step r) (insn_step (Insn.Call CallKind.Kernel imm) run.program r v w) }
{}

/// A lookup, an update and a delete, with any result: what they do to words is a step of the machine.
pub fn helper_call_simulates()
    ensures { (w : WorldView) (s : Schedule) → Matches w s → IsSound w s →
        (r : ℕ) (run : Run) (v : RunView) → IsRunning w s r run v →
        (imm : ℤ) (ret : Value) (new : Store) →
        insn_at run.program.code run.state.place ≡ Some (Insn.Call CallKind.Helper imm) →
        HelperStep (helper_of imm) s.machine.store (open_sections s.machine.runs) run ret new →
        Simulates s (Event.Step r) (insn_step (Insn.Call CallKind.Helper imm) run.program r v w) }
{}

/// Where an instruction has a step in the machine, what it does to words is one.
pub fn insn_simulates()
    ensures { (w : WorldView) (s : Schedule) → Matches w s → IsSound w s →
        (r : ℕ) (run later : Run) (v : RunView) → IsRunning w s r run v →
        (i : Insn) (answer : Answer) (new : Store) →
        insn_at run.program.code run.state.place ≡ Some i →
        InsnStep i s.machine.store (open_sections s.machine.runs) run answer new later →
        Simulates s (Event.Step r) (insn_step i run.program r v w) }
{}

/// A run that has not ended has an instruction with a step in the machine, and what that does to words is
/// a step of the machine.
pub fn step_simulates()
    ensures { (w : WorldView) (s : Schedule) → Matches w s → IsSound w s →
        (r : ℕ) (run : Run) (v : RunView) → IsRunning w s r run v →
        Simulates s (Event.Step r) (word_step w r) }
{}

/// The reaction to any event is a step of each schedule that the view matches.
pub fn full_reaction_simulates()
    ensures { (w : WorldView) (s : Schedule) → Matches w s → IsSound w s → (event : Event) →
        Simulates s event (full_reaction w event) }
{}

/// What a world tracks is sound, where its programs are verified and values of their types.
pub fn tracked_is_sound()
    ensures { (w : WorldView) (s : Schedule) → TracksSchedule w s → IsReadyWorld w → IsSound w s }
{}

/// The main theorem above the code: the reaction to an event is a step with the runtime's choices, from
/// each schedule that the world tracks to one that it tracks afterwards.
pub fn simulates()
    ensures { (w : WorldView) (s : Schedule) (event : Event) → TracksSchedule w s → IsReadyWorld w →
        IsReal event →
        (next : Schedule) × DoesScheduled s event (full_reaction w event).0 next
        × TracksSchedule (full_reaction w event).1 next }
{}

/// No reaction changes a map's name or shape, or the programs.
pub fn full_reaction_keeps()
    ensures shapes { (w : WorldView) (event : Event) →
        shapes_of (full_reaction w event).1 ≡ shapes_of w }
    ensures programs { (w : WorldView) (event : Event) →
        (full_reaction w event).1.programs ≡ w.programs }
    ensures names { (w : WorldView) (event : Event) →
        (full_reaction w event).1.names ≡ w.names }
{}

/// At the start a world is ready, with verified programs of their types and not too many maps.
pub fn starts_ready()
    ensures { (names : List (List ℕ)) (shapes : List MapShape) (programs : List Loaded) →
        length shapes ≤ MAX_MAPS → AreVerified shapes programs → AreRealPrograms programs
        → IsReadyWorld (start_view names shapes programs) }
{}

/// A ready world stays ready, whatever event comes.
pub fn stays_ready()
    ensures { (w : WorldView) (event : Event) → IsReadyWorld w
        → IsReadyWorld (full_reaction w event).1 }
{}

/// The counts of a ready world stay bounded.
pub fn stays_bounded()
    ensures { (w : WorldView) (s : Schedule) (event : Event) → TracksSchedule w s → IsReadyWorld w →
        IsReal event → IsBounded w → IsBounded (full_reaction w event).1 }
{}

/// The reaction of a ready world to one event is a step with the runtime's choices and one of the machine;
/// no run is stuck, each exits in time, and elements are reclaimed late.
pub fn one_reaction()
    ensures schedule { (w : WorldView) (event : Event) → IsReadyWorld w → IsReal event →
        AnswersAsScheduled TracksSchedule w event (full_reaction w event).0
        (full_reaction w event).1 }
    ensures machine { (w : WorldView) (event : Event) → IsReadyWorld w → IsReal event →
        AnswersAsMachine Tracks w event (full_reaction w event).0 (full_reaction w event).1 }
    ensures never_stuck { (w : WorldView) (event : Event) → IsReadyWorld w → IsReal event →
        AreNeverStuck Tracks w (event ∷ []) ((full_reaction w event).0 ∷ []) }
    ensures exits { (w : WorldView) (event : Event) → IsReadyWorld w → IsReal event →
        AllExitInTime Tracks w (event ∷ []) ((full_reaction w event).0 ∷ []) }
    ensures reclaimed { (w : WorldView) (event : Event) →
        AreReclaimedLate Tracks w (event ∷ []) ((full_reaction w event).0 ∷ []) }
{}

/// The reactions of a ready world to a list of events are the answers of a history with the runtime's choices
/// and of one of the machine; no run is stuck, each exits in time, and elements are reclaimed late.
pub fn all_reactions()
    ensures schedule { (w : WorldView) (events : List Event) → IsReadyWorld w → AreReal events →
        AreScheduledAnswers TracksSchedule w events (full_reactions w events).0
        (full_reactions w events).1 }
    ensures machine { (w : WorldView) (events : List Event) → IsReadyWorld w → AreReal events →
        AreMachineAnswers Tracks w events (full_reactions w events).0 (full_reactions w events).1 }
    ensures never_stuck { (w : WorldView) (events : List Event) → IsReadyWorld w → AreReal events →
        AreNeverStuck Tracks w events (full_reactions w events).0 }
    ensures exits { (w : WorldView) (events : List Event) → IsReadyWorld w → AreReal events →
        AllExitInTime Tracks w events (full_reactions w events).0 }
    ensures reclaimed { (w : WorldView) (events : List Event) →
        AreReclaimedLate Tracks w events (full_reactions w events).0 }
{}

/// After a list of events the world is ready, and its counts are bounded.
pub fn all_reactions_keep()
    ensures ready { (w : WorldView) (events : List Event) → IsReadyWorld w →
        IsReadyWorld (full_reactions w events).1 }
    ensures bounded { (w : WorldView) (s : Schedule) (events : List Event) → TracksSchedule w s →
        IsReadyWorld w → AreReal events → IsBounded w → IsBounded (full_reactions w events).1 }
{}

/// What a run does without its world is what it does in any world, where it asks nothing of it.
pub fn local_agrees()
    ensures { (i : Insn) (program : Loaded) (r : ℕ) (v : RunView) (w : WorldView) →
        Agrees (local_of i v) r v w (insn_step i program r v w) }
{}

/// A run asks nothing of its world where the machine's run acts by itself, and it asks where the machine's
/// run accesses an element. (It asks at each call, by the definition.)
pub fn asks_exactly()
    ensures nothing { (w : WorldView) (s : Schedule) → Matches w s → IsSound w s →
        (r : ℕ) (run : Run) (v : RunView) → IsRunning w s r run v → (i : Insn) (out : Outcome) →
        insn_at run.program.code run.state.place ≡ Some i →
        after i (environment run) run.state ≡ Some out → AsksNothing (local_of i v) }
    ensures element { (w : WorldView) (s : Schedule) → Matches w s → IsSound w s →
        (r : ℕ) (run : Run) (v : RunView) → IsRunning w s r run v →
        (i : Insn) (out : Outcome) (es : List Element) →
        insn_at run.program.code run.state.place ≡ Some i →
        AccessesElement i s.machine.store.elements run.state out es → local_of i v ≡ Asks }
{}

/// A run that has not ended has its program, and an instruction at its place.
pub fn insn_is_there()
    ensures { (w : WorldView) (s : Schedule) → Matches w s → IsSound w s →
        (r : ℕ) (run : Run) (v : RunView) → IsRunning w s r run v → HasInsn w v }
{}

/// What a load or a store reaches is there: bytes of the context or of the frame, or of a map slot that
/// has an element; a store never reaches the context.
pub fn access_reaches()
    ensures load { (w : WorldView) (s : Schedule) → Matches w s → IsSound w s →
        (r : ℕ) (run : Run) (v : RunView) → IsRunning w s r run v →
        (width : Width) (dst src : ℕ) (offset : ℤ) →
        insn_at run.program.code run.state.place ≡ Some (Insn.Load width dst src offset) →
        Reaches w v (byte_count width) offset (location_of (word_in v src)) }
    ensures load_signed { (w : WorldView) (s : Schedule) → Matches w s → IsSound w s →
        (r : ℕ) (run : Run) (v : RunView) → IsRunning w s r run v →
        (width : SignedWidth) (dst src : ℕ) (offset : ℤ) →
        insn_at run.program.code run.state.place ≡ Some (Insn.LoadSigned width dst src offset) →
        Reaches w v (byte_count (unsigned_width width)) offset (location_of (word_in v src)) }
    ensures store { (w : WorldView) (s : Schedule) → Matches w s → IsSound w s →
        (r : ℕ) (run : Run) (v : RunView) → IsRunning w s r run v →
        (width : Width) (dst : ℕ) (offset : ℤ) (src : Operand) →
        insn_at run.program.code run.state.place ≡ Some (Insn.Store width dst offset src) →
        Reaches w v (byte_count width) offset (location_of (word_in v dst))
        × IsWritable (location_of (word_in v dst)) }
{}

/// A helper is called with a map of the program's list and with bytes of the frame, and a lock or an
/// unlock comes at a depth that allows it.
pub fn calls_are_allowed()
    ensures helper { (w : WorldView) (s : Schedule) → Matches w s → IsSound w s →
        (r : ℕ) (run : Run) (v : RunView) → IsRunning w s r run v → (imm : ℤ) →
        insn_at run.program.code run.state.place ≡ Some (Insn.Call CallKind.Helper imm) →
        (helper : Helper) × (helper_of imm ≡ Some helper)
        × IsCall helper run.program.maps w.maps v }
    ensures kernel { (w : WorldView) (s : Schedule) → Matches w s → IsSound w s →
        (r : ℕ) (run : Run) (v : RunView) → IsRunning w s r run v → (imm : ℤ) →
        insn_at run.program.code run.state.place ≡ Some (Insn.Call CallKind.Kernel imm) →
        (f : KernelFunction) × (kernel_function_of imm ≡ Some f) × IsAllowed f v.depth }
{}

/// A new view of a run with the same depth leaves the flags of sections as they are.
pub fn moves_keep_flags()
    ensures opened { (w : WorldView) (s : Schedule) → Matches w s → IsSound w s →
        (r : ℕ) (run : Run) (v new : RunView) → IsRunning w s r run v → new.depth ≡ v.depth →
        (with_run r (Some new) w).opened ≡ w.opened }
    ensures awaited { (w : WorldView) (s : Schedule) → Matches w s → IsSound w s →
        (r : ℕ) (run : Run) (v new : RunView) → IsRunning w s r run v → new.depth ≡ v.depth →
        (with_run r (Some new) w).awaited ≡ w.awaited }
{}

/// A world with a program that looks a key up in a section is ready, so that what is asked for can be had.
pub fn example_is_ready()
    ensures { (any : Scalar) → ((n : ℕ) → n < 2 ^ 64 → Holds any n) → IsReadyWorld example_world }
{}

/// In the example world a run reads an element that is deleted meanwhile, and reclaimed after the run's
/// section: the reactions answer what was worked out by hand.
pub fn example_reacts()
    ensures { (full_reactions example_world example_events).0 ≡ example_answers }
{}
