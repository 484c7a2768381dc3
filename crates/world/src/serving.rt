//! What a run asks, served.
ghost use Rattle.std.specs.Prelude.{◌≡◌, Some, slice_get};
ghost use Rattle.world.specs.Serving.{CanServe, HasFlag, IsReply, grace_after, maps_after};

use crate::calling::call;
use crate::element::{load, store};
use crate::section::{enter, leave};
use bpf_model::RunId;
use element_store::Grace;
use machine::{Request, Run};
use maps::Registry;

/// Serves what the run in a run slot asks, and answers the word with which it goes on. `bound` has
/// the numbers of its program's maps.
///
/// A load answers the number that it finds, and a helper the word for r0. A store, a lock and
/// an unlock answer any word: the run makes nothing of it.
pub fn serve(
    request: Request,
    run: &Run,
    run_slot: RunId,
    bound: &[usize],
    maps: &mut Registry,
    grace: &mut Grace,
) -> u64
    requires flag { HasFlag grace.old run_slot }
    requires depth { slice_get grace.old.depths run_slot ≡ Some run.now.view.depth }
    requires serve { CanServe request bound.now maps.old.maps run.now.view }
    ensures word { IsReply request bound.now maps.old.maps run.now.view result }
    ensures maps { maps.new.maps ≡ maps_after request bound.now run.now.view maps.old.maps }
    ensures names { maps.new.names ≡ maps.old.names }
    ensures grace { grace.new ≡ grace_after request run_slot grace.old }
{
    match request {
        Request::Load {
            address,
            offset,
            width,
        } => load(maps, address, offset, width),
        Request::Store {
            address,
            offset,
            width,
            number,
        } => {
            store(maps, address, offset, width, number);
            0
        }
        Request::Call { helper } => call(helper, run, maps, bound),
        Request::Enter => {
            enter(grace, run_slot);
            0
        }
        Request::Leave => {
            leave(grace, run_slot);
            0
        }
    }
}
