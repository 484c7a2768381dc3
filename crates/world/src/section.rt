//! Read-side critical sections: a run goes one lock deeper, and comes back.
ghost use Rattle.std.specs.Prelude.{◌≡◌, ◌<◌};
ghost use Rattle.bpf_model.specs.declared.limits.TheConstants.{MAX_DEPTH, MAX_RUNS};
ghost use Rattle.bpf_model.specs.Schedule.{still_open};
ghost use Rattle.element_store.specs.Sections.{depth_at, opened_in};
ghost use Rattle.machine.specs.declared.request.Request.TheVariants.{Enter, Leave};
ghost use Rattle.world.specs.Serving.{grace_after};

use bpf_model::RunId;
use element_store::Grace;

/// The run goes one lock deeper. Where that opens a section, the present grace period does not wait for it.
#[inline]
pub(crate) fn enter(grace: &mut Grace, run: RunId)
    requires run { run < MAX_RUNS }
    requires depth { depth_at grace.old run < MAX_DEPTH }
    requires inside { still_open grace.old.awaited (opened_in grace.old) ≡ grace.old.awaited }
    ensures { grace.new ≡ grace_after Enter run grace.old }
{
    grace.open(run);
}

/// The run comes back from its innermost lock. Where that ends its section, it is awaited no more.
#[inline]
pub(crate) fn leave(grace: &mut Grace, run: RunId)
    requires run { run < MAX_RUNS }
    requires depth { 0 < depth_at grace.old run }
    requires inside { still_open grace.old.awaited (opened_in grace.old) ≡ grace.old.awaited }
    ensures { grace.new ≡ grace_after Leave run grace.old }
{
    grace.close(run);
}
