//! Many events.
ghost use Rattle.std.specs.Prelude.{◌≡◌, ◌<◌, ◌≤◌, ◌+◌, ◌++◌, ◌∷◌, [], IfOk, OnOk, OnErr, vec_len, vec_capacity};
ghost use Rattle.bpf_model.specs.Drain.{AreScheduledAnswers};
ghost use Rattle.bpf_model.specs.Headline.{AreMachineAnswers, AreNeverStuck, AllExitInTime, AreReclaimedLate};
ghost use Rattle.bpf_model.specs.Refines.{TracksSchedule, Tracks};
ghost use Rattle.world_laws.specs.Reacting.{full_reaction, full_reactions};

use crate::world::World;
use bpf_model::{Answer, Event, are_real};
use std::alloc::{AllocError, Global};

/// Adds an answer where there is room for it.
fn push_answer(answers: &mut Vec<Answer>, answer: Answer)
    requires { vec_len answers.old < vec_capacity answers.old }
    ensures items { answers.new.items ≡ answers.old.items ++ answer ∷ [] }
    ensures len { vec_len answers.new ≡ vec_len answers.old + 1 }
    ensures room { vec_capacity answers.old ≤ vec_capacity answers.new }
{
    match answers.push(answer) {
        Ok(()) => (),
        Err(_) => unreachable!(),
    }
}

impl World {
    /// Adds the answer to an event where there is room for it. It is written where it stands.
    fn answer_last(&mut self, event: &Event, answers: &mut Vec<Answer>)
        requires { vec_len answers.old < vec_capacity answers.old }
        ensures items { answers.new.items
            ≡ answers.old.items ++ (full_reaction self.old event.now).0 ∷ [] }
        ensures new { self.new ≡ (full_reaction self.old event.now).1 }
        ensures len { vec_len answers.new ≡ vec_len answers.old + 1 }
        ensures room { vec_capacity answers.old ≤ vec_capacity answers.new }
    {
        push_answer(answers, Answer::Moved);
        match answers.last_mut() {
            Some(last) => self.apply_into(event, last),
            None => unreachable!(),
        }
    }

    /// Answers a list of events, one after another. The answers' memory is taken before the first of them.
    ///
    /// An error says that this memory was refused, and then no event was applied.
    pub fn run_all(&mut self, alloc: Global, events: &[Event]) -> Result<Vec<Answer>, AllocError>
        ensures answer { IfOk result (λ answers.
            answers.items ≡ (full_reactions self.old events.now).0) }
        ensures new { OnOk result (self.new ≡ (full_reactions self.old events.now).1) }
        ensures err { OnErr result (self.new ≡ self.old) }

        // The answers are those of a history of the machine with the runtime's choices, in which the drain law
        // holds.
        ensures schedule { IfOk result (λ answers.
            AreScheduledAnswers TracksSchedule self.old events.now answers.items self.new) }
        ensures answers { IfOk result (λ answers.
            AreMachineAnswers Tracks self.old events.now answers.items self.new) }

        // In every history with these answers no run is stuck, each exits in time, and elements are reclaimed
        // late.
        ensures never_stuck { IfOk result (λ answers.
            AreNeverStuck Tracks self.old events.now answers.items) }
        ensures exits { IfOk result (λ answers.
            AllExitInTime Tracks self.old events.now answers.items) }
        ensures reclaimed { IfOk result (λ answers.
            AreReclaimedLate Tracks self.old events.now answers.items) }
    {
        self.is_world();
        are_real(events);
        let mut answers = Vec::with_capacity(alloc, events.len())?;
        for event in events {
            self.answer_last(event, &mut answers);
        }
        Ok(answers)
    }
}
