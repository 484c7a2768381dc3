//! Laws of the abstract machine: what its definitions say of every state, every run and every history. Those of what a
//! world keeps stand in `views`.
//!
//! Each is a function with an empty body, whose contract is the law.
#![tactic(auto)]

mod views;

ghost use Rattle.std.specs.Prelude.{◌≡◌, ℕ, ◌+◌, ◌<◌, ◌≤◌, ◌^◌, pos, false, List, [], ◌++◌, ◌∷◌, length, slice_get, Option, Some, None, ◌↔◌, ◌≢◌, Result, Ok, Err};
ghost use Rattle.std.specs.List.{sum_by};
ghost use Rattle.bpf_model.specs.declared.call.Errno.{Errno};
ghost use Rattle.bpf_model.specs.declared.call.Errno.TheVariants.{NoMemory};
ghost use Rattle.bpf_model.specs.declared.event.Event.{Event};
ghost use Rattle.bpf_model.specs.declared.event.Answer.{Answer};
ghost use Rattle.bpf_model.specs.declared.event.EventRefusal.{EventRefusal};
ghost use Rattle.bpf_model.specs.declared.event.ReapedElement.{ReapedElement};
ghost use Rattle.bpf_model.specs.MapState.{MapState, Store, slots_of_shape, given_of};
ghost use Rattle.bpf_model.specs.Shapes.{AreShapes, most_births};
ghost use Rattle.bpf_model.specs.Helper.{Updates};
ghost use Rattle.bpf_model.specs.Element.{Element, Reclaimed, HasLife};
ghost use Rattle.bpf_model.specs.declared.limits.MapKind.{MapKind};
ghost use Rattle.bpf_model.specs.declared.insn.Insn.{Insn};
ghost use Rattle.bpf_model.specs.declared.limits.MapShape.{MapShape};
ghost use Rattle.bpf_model.specs.Machine.{Machine, Loaded, open_sections, run_at, start_machine};
ghost use Rattle.bpf_model.specs.Schedule.{Queues, Schedule, is_any, first_ready, DoesScheduled, IsScheduledHistory, start_schedule};
ghost use Rattle.bpf_model.specs.Drain.{Drains, machines, AnswersAsScheduled, AreScheduledAnswers};
ghost use Rattle.model_laws.specs.PlainAlone.{IsPlain};
ghost use Rattle.model_laws.specs.PlainMaps.{IsPlainWithMaps};
ghost use Rattle.bpf_model.specs.Event.{refusal, DoesEvent};
ghost use Rattle.bpf_model.specs.Replay.{HasHistoryTo};
ghost use Rattle.bpf_model.specs.History.{IsHistory, last_of};
ghost use Rattle.bpf_model.specs.Section.{Section, Has};
ghost use Rattle.model_laws.specs.Consistent.{IsConsistent, HasBegun};
ghost use Rattle.bpf_model.specs.Headline.{ReclaimedLate, AnswersAsMachine, AreMachineAnswers, AreReclaimedLate};
ghost use Rattle.bpf_model.specs.declared.value.Reference.{Reference};
ghost use Rattle.bpf_model.specs.View.{WorldView, start_view, shapes_of};
ghost use Rattle.bpf_model.specs.Refines.{IsReachedSchedule, TracksSchedule, Tracks};
ghost use Rattle.bpf_model.specs.Word.{IsReferenceWord, element_bases};
ghost use Rattle.bpf_model.specs.Exit.{HasNoMaps};
ghost use Rattle.bpf_model.specs.Machine.{Run, fresh_run};
ghost use Rattle.model_laws.specs.ByKind.{StepsByKind};
ghost use Rattle.bpf_model.specs.MachineStep.{InsnStep, RunStep};
ghost use Rattle.bpf_model.specs.Step.{State, Environment, after};
ghost use Rattle.bpf_model.specs.declared.call.Helper.{Helper};
ghost use Rattle.bpf_model.specs.declared.value.Value.{Value};
ghost use Rattle.bpf_model.specs.Request.{Argument, Request, signature_of, asks, Calls};
ghost use Rattle.model_laws.specs.Replies.{IsOfKind};
ghost use Rattle.model_laws.specs.Alone.{SharesNothing};
ghost use Rattle.model_laws.specs.Growth.{ElementsGrow};
ghost use Rattle.model_laws.specs.Scheduled.{IsScheduled, IsReapable};
ghost use Rattle.model_laws.specs.Steps.{AreSteps};
ghost use Rattle.model_laws.specs.Accounted.{kept_count, born_count, IsFull};
ghost use Rattle.model_laws.specs.Example.{lookup_and_load, example_shape};
ghost use Rattle.model_laws.specs.Locations.{Location, IsNearLocation, named_location, location_word};

pub use views::{
    advance_simulates, delete_half, delete_simulates, drop_simulates, halves_simulate,
    lock_simulates, move_simulates, reaction_keeps, reaction_simulates, reaction_tracks,
    read_simulates, reap_simulates, simulates_tracks, start_simulates, store_half, tracked_matches,
    unlock_simulates, update_half, update_simulates,
};

/// An event is refused exactly when a test fails, by the first that does, and then nothing changes.
pub fn refused_exactly()
    ensures { (m new : Machine) (event : Event) (k : EventRefusal) →
        DoesEvent m event (Answer.Refused k) new ↔ ((refusal m event ≡ Some k) × (new ≡ m)) }
{}

/// A history of the machine can be cut anywhere, and two that meet are one.
pub fn cut_anywhere()
    ensures { (m new : Machine) (es fs : List Event) (xs ys : List Answer) → length es ≡ length xs →
        HasHistoryTo m (es ++ fs) (xs ++ ys) new ↔
        ((mid : Machine) × HasHistoryTo m es xs mid × HasHistoryTo mid fs ys new) }
{}

/// Elements only grow: none is taken out, its map, key and use count stay, and its life goes on by at most one
/// step, from linked to unlinked or from unlinked, with the same sections, to reclaimed.
pub fn elements_only_grow()
    ensures { (m new : Machine) (event : Event) (answer : Answer) → DoesEvent m event answer new →
        ElementsGrow m.store.elements new.store.elements }
{}

/// An element that is reclaimed stays reclaimed in every later state.
pub fn reclaimed_for_ever()
    ensures { (m later : Machine) (events : List Event) (answers : List Answer)
        (states : List Machine)
        (j n : ℕ) →
        IsHistory m events answers states → slice_get states j ≡ Some later →
        HasLife m.store.elements n Reclaimed → HasLife later.store.elements n Reclaimed }
{}

/// A program that is plain without maps is plain with them.
pub fn plain_with_maps()
    ensures { (program : List Insn) (shapes : List MapShape) → IsPlain program →
        IsPlainWithMaps program shapes }
{}

/// A program that looks up a key in a section, and loads from the value where there is one, is plain with maps.
pub fn lookup_is_plain()
    ensures { IsPlainWithMaps lookup_and_load (example_shape ∷ []) }
{}

/// The machine at its start, with no run and new maps of shapes within limits, is consistent.
pub fn starts_consistent()
    ensures { (shapes : List MapShape) (programs : List Loaded) → AreShapes shapes →
        IsConsistent (start_machine shapes programs) }
{}

/// A consistent machine stays consistent, whatever event comes and whatever it answers.
pub fn stays_consistent()
    ensures { (m new : Machine) (event : Event) (answer : Answer) → IsConsistent m →
        DoesEvent m event answer new → IsConsistent new }
{}

/// A section that has begun and is not open is open in no later state.
pub fn section_never_reopens()
    ensures { (m later : Machine) (events : List Event) (answers : List Answer)
        (states : List Machine)
        (j : ℕ) (s : Section) →
        IsHistory m events answers states → slice_get states j ≡ Some later → HasBegun m s →
        (Has (open_sections m.runs) s → ⊥) → Has (open_sections later.runs) s → ⊥ }
{}

/// The grace-period guarantee, of every history from a consistent state: an element that is unlinked
/// keeps the sections that are open then, is reclaimed only after that, and then each section that it
/// keeps has ended.
pub fn reclaimed_late()
    ensures { (m : Machine) (events : List Event) (answers : List Answer) (states : List Machine) →
        IsConsistent m → IsHistory m events answers states → ReclaimedLate (m ∷ states) }
{}

/// At the start the lists of the runtime's choices are right: nothing is unlinked, and nothing stands in them.
pub fn starts_scheduled()
    ensures { (shapes : List MapShape) (programs : List Loaded) → AreShapes shapes →
        IsScheduled (start_schedule shapes programs) }
{}

/// Each step with the runtime's choices keeps the lists right: exactly the unlinked elements stand in
/// them, each once, those that are ready wait for no open section, and those that wait only for awaited
/// ones.
pub fn stays_scheduled()
    ensures { (old new : Schedule) (event : Event) (answer : Answer) → IsScheduled old →
        DoesScheduled old event answer new → IsScheduled new }
{}

/// In each state that is reached from the start the lists are right, so that the laws of the runtime's choices
/// hold of it.
pub fn reached_is_scheduled()
    ensures { (shapes : List MapShape) (programs : List Loaded) (s : Schedule) →
        IsReachedSchedule shapes programs s → IsScheduled s }
{}

/// With the runtime's choices an event has one answer and leads to one state.
pub fn one_answer()
    ensures { (s t u : Schedule) (event : Event) (a b : Answer) → IsScheduled s →
        DoesScheduled s event a t → DoesScheduled s event b u → (a ≡ b) × (t ≡ u) }
{}

/// With the runtime's choices a list of events has one list of answers and leads through one list of states.
pub fn one_history()
    ensures { (s : Schedule) (events : List Event) (answers others : List Answer)
        (states rest : List Schedule) →
        IsScheduled s → IsScheduledHistory s events answers states →
        IsScheduledHistory s events others rest → (answers ≡ others) × (states ≡ rest) }
{}

/// Two advances, one right after the other, with no section open and nothing awaited before them, move what
/// waits, and what was unlinked last, to the end of the ready ones.
pub fn two_quiet_advances()
    ensures { (s t u : Schedule) (a b : Answer) → is_any s.awaited ≡ false →
        open_sections s.machine.runs ≡ [] → DoesScheduled s Event.Advance a t →
        DoesScheduled t Event.Advance b u → (k : ℕ) (q : Queues) → slice_get s.queues k ≡ Some q →
        slice_get u.queues k ≡ Some
        (record { next = []; waiting = []; ready = (q.ready ++ q.waiting) ++ q.next }) }
{}

/// From any schedule whose lists are right: after two advances that meet no open section, a reap finds nothing
/// only when each element that was unlinked before the first is reclaimed.
pub fn drains_from()
    ensures { (s : Schedule) (events : List Event) (answers : List Answer)
        (states : List Schedule) →
        IsScheduled s → IsScheduledHistory s events answers states →
        Drains (machines (s ∷ states)) events answers }
{}

/// The drain law holds of every history from the start.
pub fn drains()
    ensures { (shapes : List MapShape) (programs : List Loaded) → AreShapes shapes →
        (events : List Event) (answers : List Answer) (states : List Schedule) →
        IsScheduledHistory (start_schedule shapes programs) events answers states →
        Drains (machines (start_schedule shapes programs ∷ states)) events answers }
{}

/// The element that a reap takes may be reclaimed: it is unlinked, and each section that it keeps has
/// ended.
pub fn reapable_in()
    ensures { (s : Schedule) (n : ℕ) → IsScheduled s → first_ready s.queues ≡ Some n →
        IsReapable s.machine n }
{}

/// In each state of every history from the start, the element that a reap would take may be reclaimed.
pub fn reapable()
    ensures { (shapes : List MapShape) (programs : List Loaded) → AreShapes shapes →
        (events : List Event) (answers : List Answer) (states : List Schedule) (j n : ℕ)
        (s : Schedule) →
        IsScheduledHistory (start_schedule shapes programs) events answers states →
        slice_get (start_schedule shapes programs ∷ states) j ≡ Some s →
        first_ready s.queues ≡ Some n → IsReapable s.machine n }
{}

/// A reap that takes the first ready element, and answers with its map, its key and what becomes of its map
/// slot, is a step with the runtime's choices.
pub fn reap_steps()
    ensures { (s : Schedule) (n : ℕ) (e : Element) (state : MapState) (taken : ReapedElement) →
        IsScheduled s → first_ready s.queues ≡ Some n →
        slice_get s.machine.store.elements n ≡ Some e →
        slice_get s.machine.store.maps e.map ≡ Some state → taken.map ≡ e.map →
        taken.key.items ≡ e.key → taken.given ≡ given_of e.uses state →
        (new : Schedule) × DoesScheduled s Event.Reap (Answer.Reaped (Some taken)) new }
{}

/// In each state that is reached from the start, a map's free map slots, its elements that are not
/// reclaimed, and its worn-out map slots are together as many as all its map slots.
pub fn slots_accounted()
    ensures { (shapes : List MapShape) (programs : List Loaded) (s : Schedule) (k : ℕ)
        (m : MapState) →
        IsReachedSchedule shapes programs s → slice_get s.machine.store.maps k ≡ Some m →
        length m.bag + kept_count k s.machine.store.elements + m.worn ≡ slots_of_shape m.shape }
{}

/// In each state that is reached from the start a map has no free map slot exactly when its linked
/// elements, its unlinked ones and its worn-out map slots are as many as all its map slots.
pub fn enomem_exactly()
    ensures { (shapes : List MapShape) (programs : List Loaded) (s : Schedule) (k : ℕ)
        (m : MapState) →
        IsReachedSchedule shapes programs s → slice_get s.machine.store.maps k ≡ Some m →
        (m.bag ≡ []) ↔ IsFull k s.machine.store.elements m }
{}

/// In each state that is reached from the start an update answers that there is no memory only when the
/// map's linked and unlinked elements and its worn-out map slots are as many as all its map slots,
/// and in a hash map none succeeds while they are. (An array is always full.)
pub fn no_memory_when_full()
    ensures { (shapes : List MapShape) (programs : List Loaded) (s : Schedule) (k : ℕ)
        (m : MapState)
        (key value : List ℕ) (flags : ℕ) (ret : Result (Unit {0}) Errno) (new : Store) →
        IsReachedSchedule shapes programs s → slice_get s.machine.store.maps k ≡ Some m →
        Updates s.machine.store (open_sections s.machine.runs) k key value flags ret new →
        (ret ≡ Err NoMemory → IsFull k s.machine.store.elements m)
        × (m.shape.kind ≡ MapKind.Hash → IsFull k s.machine.store.elements m → ret ≢ Ok tt) }
{}

/// In each state that is reached from the start, where the reuse limit of a map is not 0, no more elements
/// were born in it than its map slots can bear: each is used at most as often as the map's shape says.
pub fn births_bounded()
    ensures { (shapes : List MapShape) (programs : List Loaded) (s : Schedule) (k : ℕ)
        (m : MapState) →
        IsReachedSchedule shapes programs s → slice_get s.machine.store.maps k ≡ Some m →
        1 ≤ m.shape.reuse_limit → born_count k s.machine.store.elements ≤ most_births m.shape }
{}

/// A world has reclaimed no more elements than its map slots can bear, so that their number has room.
pub fn given_bounded()
    ensures { (w : WorldView) (s : Schedule) → TracksSchedule w s →
        w.given ≤ sum_by most_births (shapes_of w) }
{}

/// The world at the start tracks the state at the start, so that the relation is not empty.
pub fn start_tracked()
    ensures { (names : List (List ℕ)) (shapes : List MapShape) (programs : List Loaded) →
        AreShapes shapes
        → TracksSchedule (start_view names shapes programs) (start_schedule shapes programs) }
{}

/// In each state that a world tracks the lists of the runtime's choices are right.
pub fn tracked_is_scheduled()
    ensures { (w : WorldView) (s : Schedule) → TracksSchedule w s → IsScheduled s }
{}

/// In every history of the machine from a state that a world tracks, elements are reclaimed late.
pub fn tracked_reclaimed_late()
    ensures { (w : WorldView) (events : List Event) (answers : List Answer) →
        AreReclaimedLate Tracks w events answers }
{}

/// Answers that are steps one after another make a history with the runtime's choices, in which the
/// drain law holds.
pub fn steps_make_scheduled()
    ensures { (old new : WorldView) (events : List Event) (answers : List Answer) →
        AreSteps TracksSchedule old events answers new →
        AreScheduledAnswers TracksSchedule old events answers new }
{}

/// A history with the runtime's choices and one more step with them are such a history.
pub fn scheduled_grow()
    ensures { (old mid new : WorldView) (events : List Event) (answers : List Answer)
        (event : Event)
        (answer : Answer) →
        AreScheduledAnswers TracksSchedule old events answers mid →
        AnswersAsScheduled TracksSchedule mid event answer new →
        AreScheduledAnswers TracksSchedule old (events ++ event ∷ []) (answers ++ answer ∷ []) new }
{}

/// Answers that are those of a history, and those of a history that goes on from it, are those of one
/// history: the drain law holds over both.
pub fn scheduled_join()
    ensures { (old mid new : WorldView) (es fs : List Event) (xs ys : List Answer) →
        AreScheduledAnswers TracksSchedule old es xs mid →
        AreScheduledAnswers TracksSchedule mid fs ys new →
        AreScheduledAnswers TracksSchedule old (es ++ fs) (xs ++ ys) new }
{}

/// From a world that tracks the start, the answers of a history are those of a history from the start.
pub fn scheduled_from_start()
    ensures { (shapes : List MapShape) (programs : List Loaded) (old new : WorldView)
        (events : List Event) (answers : List Answer) →
        TracksSchedule old (start_schedule shapes programs) →
        AreScheduledAnswers TracksSchedule old events answers new →
        (states : List Schedule)
        × IsScheduledHistory (start_schedule shapes programs) events answers states
        × TracksSchedule new (last_of (start_schedule shapes programs) states) }
{}

/// Answers of a history with the runtime's choices are answers of a history of the machine.
pub fn scheduled_is_machine()
    ensures { (old new : WorldView) (events : List Event) (answers : List Answer) →
        AreScheduledAnswers TracksSchedule old events answers new →
        AreMachineAnswers Tracks old events answers new }
{}

/// An answer with the runtime's choices is an answer of the machine.
pub fn scheduled_is_machine_once()
    ensures { (old new : WorldView) (event : Event) (answer : Answer) →
        AnswersAsScheduled TracksSchedule old event answer new →
        AnswersAsMachine Tracks old event answer new }
{}

/// The word that stands for a reference is the word of the location that the reference names, and no other is.
pub fn words_of_locations()
    ensures { (slots : List ℕ) (es : List Element) (r : Reference) (w : ℕ) →
        IsReferenceWord (element_bases slots es) r w
        ↔ (pos w ≡ location_word (named_location slots es r)) }
{}

/// Two near locations with one word are one location: of one region or map slot, at one offset.
pub fn near_words_differ()
    ensures { (p q : Location) → IsNearLocation p → IsNearLocation q
        → location_word p ≡ location_word q → p ≡ q }
{}

/// Each near location has a word of 64 bits, and it is not 0.
pub fn near_words_fit()
    ensures { (p : Location) → IsNearLocation p → (w : ℕ) × (location_word p ≡ pos w) × (0 < w)
        × (w < 2 ^ 64) }
{}

/// A fresh run of a program without map references shares nothing: it refers to its own context and
/// frame alone.
pub fn starts_sharing_nothing()
    ensures own { (name : ℕ) (program : Loaded) (context : List ℕ) → HasNoMaps program.code →
        SharesNothing (fresh_run name program context) }
{}

/// A run that shares nothing shares nothing after each of its steps.
pub fn stays_sharing_nothing()
    ensures own { (store new_store : Store) (opened : List Section) (run new : Run)
        (answer : Answer) →
        SharesNothing run → RunStep store opened run answer new_store new → SharesNothing new }
{}

/// Other actors change nothing of a run that shares nothing: a step of it leaves the maps as they are,
/// and it is a step with the same answer, to the same run, over any other maps and open sections.
pub fn others_change_nothing()
    ensures store { (store new_store : Store) (opened : List Section) (run new : Run)
        (answer : Answer) →
        SharesNothing run → RunStep store opened run answer new_store new → new_store ≡ store }
    ensures anywhere { (store new_store other : Store) (opened sections : List Section)
        (run new : Run)
        (answer : Answer) →
        SharesNothing run → RunStep store opened run answer new_store new →
        RunStep other sections run answer other new }
{}

/// Every event but a step or a drop of its own run slot leaves a run as it is.
pub fn others_leave_runs()
    ensures { (m new : Machine) (event : Event) (answer : Answer) (r : ℕ) (run : Run) →
        DoesEvent m event answer new → run_at m.runs r ≡ Some run →
        event ≢ Event.Step r → event ≢ Event.Drop r → run_at new.runs r ≡ Some run }
{}

/// A run that shares nothing has one step at most, whatever the maps and the open sections are.
pub fn one_step_alone()
    ensures answer { (store new_store other other_store : Store) (opened sections : List Section)
        (run new next : Run) (a b : Answer) →
        SharesNothing run → RunStep store opened run a new_store new →
        RunStep other sections run b other_store next → a ≡ b }
    ensures run { (store new_store other other_store : Store) (opened sections : List Section)
        (run new next : Run) (a b : Answer) →
        SharesNothing run → RunStep store opened run a new_store new →
        RunStep other sections run b other_store next → new ≡ next }
{}

/// A step of an instruction, told by the kind of the instruction: by itself, an access to an element, a call
/// of a helper or of a kernel function.
pub fn steps_by_kind()
    ensures { (i : Insn) (store new_store : Store) (opened : List Section) (run new : Run)
        (answer : Answer) →
        InsnStep i store opened run answer new_store new ↔
        StepsByKind i store opened run answer new_store new }
{}

/// An instruction that asks something does nothing by itself.
pub fn asks_or_acts()
    ensures { (i : Insn) (shapes : ℕ → Option MapShape) (env : Environment) (m : State)
        (request : Request) →
        asks i shapes m ≡ Some request → after i env m ≡ None }
{}

/// A helper's reply is of the kind of its signature.
pub fn replies_by_signature()
    ensures { (helper : Helper) (arguments : List Argument) (bound : List ℕ)
        (store new_store : Store)
        (opened : List Section) (reply : Value) →
        Calls helper arguments bound store opened reply new_store →
        IsOfKind (signature_of helper).result reply }
{}
