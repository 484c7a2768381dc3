//! Steps of a run.
ghost use Rattle.bpf_model.specs.declared.event.Event.{Event};
ghost use Rattle.std.specs.Prelude.{List};
ghost use Rattle.control.specs.Replies.{MakesSteps};

use bpf_model::{Answer, Event, RunId};
use world::World;

/// Steps of a run: at most `count`, and at least one, up to the first that is not answered Moved. `answer` becomes
/// that of the last, whatever it was. All but the last are made as one stretch.
pub(crate) fn make_steps(world: &mut World, run: RunId, count: u64, answer: &mut Answer)
    ensures { (events : List Event)
        × MakesSteps world.old run count events answer.new world.new }
{
    let before_last = count.max(1) - 1;
    world.run_for(run, before_last as usize);
    let event = Event::Step { run };
    world.apply_into(&event, answer);
}
