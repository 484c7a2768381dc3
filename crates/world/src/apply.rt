//! One event.
ghost use Rattle.std.specs.Prelude.{◌≡◌, ◌∷◌, [], ◌+◌, ◌<◌, ◌^◌};
ghost use Rattle.bpf_model.specs.Drain.{AnswersAsScheduled};
ghost use Rattle.bpf_model.specs.Headline.{AnswersAsMachine, AreNeverStuck, AllExitInTime, AreReclaimedLate};
ghost use Rattle.bpf_model.specs.declared.event.Event.{Event};
ghost use Rattle.bpf_model.specs.Refines.{TracksSchedule, Tracks};
ghost use Rattle.world_laws.specs.Reacting.{full_reaction};
ghost use Rattle.world_laws.specs.Invariant.{IsWorld};

use crate::kept::Parts;
use crate::world::World;
use bpf_model::{Answer, Event};

/// Puts the answer of a reclamation in the place of another one.
fn reap(parts: &mut Parts, answer: &mut Answer)
    requires { parts.old.given + 1 < 2 ^ 64 }
    ensures answer { answer.new ≡ (full_reaction parts.old Event.Reap).0 }
    ensures new { parts.new ≡ (full_reaction parts.old Event.Reap).1 }
{
    parts.reap_into(answer);
}

/// Puts the reaction to an event in the place of an answer.
fn react(parts: &mut Parts, event: &Event, answer: &mut Answer)
    requires { IsWorld parts.old }
    ensures answer { answer.new ≡ (full_reaction parts.old event.now).0 }
    ensures new { parts.new ≡ (full_reaction parts.old event.now).1 }
{
    match event {
        Event::Start { prog, ctx } => parts.start_into(*prog, ctx, answer),
        Event::Step { run } => parts.step_into(*run, answer),
        Event::Update {
            map,
            key,
            value,
            flags,
        } => parts.update_into(*map, key, value, *flags, answer),
        Event::Delete { map, key } => parts.delete_into(*map, key, answer),
        Event::Read { map, key } => parts.read_into(*map, key, answer),
        Event::Advance => parts.advance_into(answer),
        Event::Reap => reap(parts, answer),
        Event::Drop { run } => parts.drop_into(*run, answer),
    }
}

impl World {
    /// Answers one event as the machine does, and puts the answer in the place of another one. It takes no
    /// memory and cannot fail; an event that is refused changes nothing.
    ///
    /// An answer has room for a value, so that a new one costs more than most events. So lend the same place again
    /// and again. Where the answer before was of the same kind, an event writes only what its answer has. Else, and
    /// for a start, the whole place is written.
    pub fn apply_into(&mut self, event: &Event, answer: &mut Answer)
        ensures answer { answer.new ≡ (full_reaction self.old event.now).0 }
        ensures new { self.new ≡ (full_reaction self.old event.now).1 }

        // The answer is a step of the machine with the runtime's choices, from each state that was tracked.
        ensures schedule { AnswersAsScheduled TracksSchedule self.old event.now answer.new self.new }
        ensures machine { AnswersAsMachine Tracks self.old event.now answer.new self.new }

        // No run is stuck, each exits in time, and what is reclaimed was unlinked before and is held by no
        // section.
        ensures never_stuck { AreNeverStuck Tracks self.old (event.now ∷ []) (answer.new ∷ []) }
        ensures exits { AllExitInTime Tracks self.old (event.now ∷ []) (answer.new ∷ []) }
        ensures reclaimed { AreReclaimedLate Tracks self.old (event.now ∷ []) (answer.new ∷ []) }
    {
        event.is_real();
        react(&mut self.parts, event, answer);
    }

    /// Answers one event as the machine does. It takes no memory and cannot fail; an event that is refused
    /// changes nothing.
    pub fn apply(&mut self, event: &Event) -> Answer
        ensures answer { result ≡ (full_reaction self.old event.now).0 }
        ensures new { self.new ≡ (full_reaction self.old event.now).1 }

        // The answer is a step of the machine with the runtime's choices, from each state that was tracked.
        ensures schedule { AnswersAsScheduled TracksSchedule self.old event.now result self.new }
        ensures machine { AnswersAsMachine Tracks self.old event.now result self.new }

        // No run is stuck, each exits in time, and what is reclaimed was unlinked before and is held by no
        // section.
        ensures never_stuck { AreNeverStuck Tracks self.old (event.now ∷ []) (result ∷ []) }
        ensures exits { AllExitInTime Tracks self.old (event.now ∷ []) (result ∷ []) }
        ensures reclaimed { AreReclaimedLate Tracks self.old (event.now ∷ []) (result ∷ []) }
    {
        let mut answer = Answer::Moved;
        self.apply_into(event, &mut answer);
        answer
    }
}
