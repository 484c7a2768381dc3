//! Laws of journals: their entries replay, and what is counted along them never goes back.
//!
//! Each is a function with an empty body, whose contract is the law.

ghost use Rattle.std.specs.Prelude.{◌≡◌, ◌≢◌, ◌≤◌, ◌+◌, ◌++◌, ◌∷◌, [], ℕ, List};
ghost use Rattle.std.specs.Prelude.{if◌then◌else◌, length};
ghost use Rattle.bpf_model.specs.declared.event.Event.{Event};
ghost use Rattle.bpf_model.specs.Real.{IsReal, AreReal};
ghost use Rattle.bpf_model.specs.Machine.{Machine};
ghost use Rattle.bpf_model.specs.Drain.{AreScheduledAnswers};
ghost use Rattle.bpf_model.specs.Headline.{AreMachineAnswers, AreNeverStuck, AllExitInTime};
ghost use Rattle.bpf_model.specs.Headline.{AreReclaimedLate};
ghost use Rattle.bpf_model.specs.Refines.{Tracks, TracksSchedule};
ghost use Rattle.bpf_model.specs.Replay.{ReplaysOnMachine, answers_of, events_of};
ghost use Rattle.bpf_model.specs.View.{WorldView};
ghost use Rattle.world_laws.specs.Reacting.{full_reaction, full_reactions};
ghost use Rattle.world_laws.specs.Invariant.{IsWorld};
ghost use Rattle.journal.specs.Entries.{IsAnswerTo};
ghost use Rattle.bpf_model.specs.declared.entry.Entry.{Entry};
ghost use Rattle.shared_books.specs.Replay.{HasNoRuns, Replays};
ghost use Rattle.shared_books.specs.Totals.{AreOfWorkers, entries_by, ever_reclaimed, ever_unlinked};
ghost use Rattle.shared_books.specs.Totals.{is_step, machine_stat, reclaimed_total, shares, steps_of};
ghost use Rattle.shared_books.specs.Totals.{unlinked_total};
ghost use Rattle.world.specs.Asking.{stat_of};

/// An empty journal replays from any world without runs.
pub fn empty_replays()
    ensures { (w : WorldView) → IsWorld w → HasNoRuns w → Replays w w [] }
{}

/// A journal that replays does so with one entry more, whose answer is what the world gives to its event.
pub fn replays_push()
    ensures { (base world new : WorldView) (entries : List Entry) (entry : Entry) →
        Replays base world entries → IsReal entry.event →
        entry.answer ≡ (full_reaction world entry.event).0 →
        new ≡ (full_reaction world entry.event).1 → Replays base new (entries ++ entry ∷ []) }
{}

/// What `run_all` answers to events, entered one after another by whichever workers, replays from where it
/// began.
pub fn run_all_replays()
    ensures { (base : WorldView) (entries : List Entry) → IsWorld base → HasNoRuns base →
        AreReal (events_of entries) →
        answers_of entries ≡ (full_reactions base (events_of entries)).0 →
        Replays base (full_reactions base (events_of entries)).1 entries }
{}

/// The present world of a journal is one that the runtime can be in.
pub fn replays_to_world()
    ensures { (base world : WorldView) (entries : List Entry) → Replays base world entries →
        IsWorld world }
{}

/// The entries are a history of the abstract machine, from each state that the base tracks to one that the
/// present world tracks.
pub fn replays_on_machine()
    ensures { (limit : ℕ) (base world : WorldView) (entries : List Entry) →
        Replays base world entries → length entries ≤ limit → (m : Machine) → Tracks base m →
        (last : Machine) × ReplaysOnMachine limit m entries last
        × Tracks world last }
{}

/// Over a whole journal: its answers are those of a history of the machine with the runtime's choices,
/// in which the drain law holds; and in each history with these answers no run is stuck, each exits in
/// time, and elements are reclaimed late.
pub fn replays_as_machine()
    ensures schedule { (base world : WorldView) (entries : List Entry) →
        Replays base world entries →
        AreScheduledAnswers TracksSchedule base (events_of entries) (answers_of entries) world }
    ensures answers { (base world : WorldView) (entries : List Entry) → Replays base world entries →
        AreMachineAnswers Tracks base (events_of entries) (answers_of entries) world }
    ensures never_stuck { (base world : WorldView) (entries : List Entry) →
        Replays base world entries →
        AreNeverStuck Tracks base (events_of entries) (answers_of entries) }
    ensures exits { (base world : WorldView) (entries : List Entry) → Replays base world entries →
        AllExitInTime Tracks base (events_of entries) (answers_of entries) }
    ensures reclaimed { (base world : WorldView) (entries : List Entry) →
        Replays base world entries →
        AreReclaimedLate Tracks base (events_of entries) (answers_of entries) }
{}

/// The answer to an event is of a kind that the event can have.
pub fn reaction_fits()
    ensures { (w : WorldView) (event : Event) → IsWorld w → IsReal event →
        IsAnswerTo event (full_reaction w event).0 }
{}

/// What a world counts is what its machine's elements tell: how many were ever unlinked, and how many
/// reclaimed.
pub fn totals_are_machines()
    ensures unlinked { (w : WorldView) (m : Machine) → Tracks w m →
        unlinked_total w ≡ ever_unlinked m }
    ensures reclaimed { (w : WorldView) (m : Machine) → Tracks w m →
        reclaimed_total w ≡ ever_reclaimed m }
{}

/// What a world tells of itself is what its machine counts: elements by their lives, worn map slots, occupied
/// run slots and open sections.
pub fn stat_is_machines()
    ensures { (w : WorldView) (m : Machine) → Tracks w m → stat_of w ≡ machine_stat m }
{}

/// No event makes a total less.
pub fn totals_grow()
    ensures unlinked { (w : WorldView) (event : Event) → IsWorld w → IsReal event →
        unlinked_total w ≤ unlinked_total (full_reaction w event).1 }
    ensures reclaimed { (w : WorldView) (event : Event) → IsWorld w → IsReal event →
        reclaimed_total w ≤ reclaimed_total (full_reaction w event).1 }
{}

/// Every element that was reclaimed was unlinked.
pub fn reclaimed_at_most_unlinked()
    ensures { (w : WorldView) → reclaimed_total w ≤ unlinked_total w }
{}

/// One entry more counts as a step where it was answered as one, and as one more of its worker's alone.
pub fn counts_push()
    ensures steps { (entries : List Entry) (entry : Entry) → steps_of (entries ++ entry ∷ []) ≡
        steps_of entries + (if is_step entry.answer then 1 else 0) }
    ensures own { (entries : List Entry) (entry : Entry) →
        entries_by entry.worker (entries ++ entry ∷ [])
        ≡ entries_by entry.worker entries ++ entry ∷ [] }
    ensures others { (entries : List Entry) (entry : Entry) (worker : ℕ) → entry.worker ≢ worker →
        entries_by worker (entries ++ entry ∷ []) ≡ entries_by worker entries }
{}

/// The shares of all workers add up to the entries.
pub fn shares_add_up()
    ensures { (workers : ℕ) (entries : List Entry) → AreOfWorkers workers entries →
        shares workers entries ≡ length entries }
{}
