//! Many steps of one run.
ghost use Rattle.std.specs.Prelude.{◌≡◌, ◌≢◌, ◌<◌, ◌≤◌, IfNone, IfSome};
ghost use Rattle.world.specs.Stretches.{IsAhead, MakesMoves, WouldBeRefused, WouldExit};

use crate::world::World;
use bpf_model::{Answer, Event, RunId};
use machine::{Walk, WalkEnd};

/// Why a run made no further step.
#[derive(Clone, Copy, Debug, PartialEq, Eq)]
pub enum Stop {
    /// It has made as many as it was to make.
    Enough,
    /// The next step would be its exit.
    Exits,
    /// The next step would be refused.
    Refused,
}

impl World {
    /// The own moves of the run, at most so many; `None` where its step is refused.
    fn walk(&mut self, run: RunId, most: usize) -> Option<Walk<WalkEnd>>
        ensures refused { IfNone result (WouldBeRefused self.old run) }
        ensures kept { IfNone result (self.new ≡ self.old) }
        ensures moves { IfSome result (λ walk. MakesMoves run self.old walk.moved self.new) }
        ensures ahead { IfSome result (λ walk. IsAhead walk.end self.new run) }
        ensures most { IfSome result (λ walk. walk.moved ≤ most) }
        ensures enough { IfSome result (λ walk. walk.end ≡ WalkEnd.Enough → walk.moved ≡ most) }
        ensures fewer { IfSome result (λ walk. walk.end ≢ WalkEnd.Enough → walk.moved < most) }
    {
        let _number = run.index();
        self.is_world();
        self.parts.walk(run, most)
    }

    /// Steps a run as long as its step is answered with a move, at most so many times. It stops before a step that
    /// would be its exit, and before one that would be refused. It takes no memory and cannot fail.
    pub fn run_for(&mut self, run: RunId, most: usize) -> Walk<Stop>
        ensures moves { MakesMoves run self.old result.moved self.new }
        ensures most { result.moved ≤ most }
        ensures enough { result.end ≡ Stop.Enough → result.moved ≡ most }
        ensures exits { result.end ≡ Stop.Exits → WouldExit self.new run }
        ensures refused { result.end ≡ Stop.Refused → WouldBeRefused self.new run }
    {
        let event = Event::Step { run };
        let mut answer = Answer::Moved;
        let mut moved = 0;
        'stretch: while moved < most {
            let Some(walk) = self.walk(run, most - moved) else {
                let end = Stop::Refused;
                return Walk { moved, end };
            };
            moved += walk.moved;
            match walk.end {
                WalkEnd::Enough => (),
                WalkEnd::Exits => {
                    let end = Stop::Exits;
                    return Walk { moved, end };
                }
                WalkEnd::Asks => {
                    self.apply_into(&event, &mut answer);
                    moved += 1;
                }
            }
        }
        let end = Stop::Enough;
        Walk { moved, end }
    }
}
