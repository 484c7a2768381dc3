//! What a reply tells of a job.
ghost use Rattle.std.specs.Prelude.{◌≡◌, ◌≢◌, ◌↔◌, IsTrue, Ok, Some, IfOk, IfErr, OnOk};
ghost use Rattle.bpf_model.specs.declared.event.Event.TheVariants.{Start, Step, Drop};
ghost use Rattle.bpf_model.specs.declared.event.Answer.TheVariants.{Started, Moved, Done};
ghost use Rattle.shared_books.specs.Receipts.{IsMachineAnswer};
ghost use Rattle.worker_pool.specs.Trails.{stop_of, HasExitReply};

use crate::job::{Job, StopCause};
use bpf_model::{Answer, RunId};
use shared::SharedFault;

/// The run that was started, or why there is none.
pub fn started(reply: &Result<Answer, SharedFault>, job: &Job) -> Result<RunId, StopCause>
    requires answered { IfOk reply.now (IsMachineAnswer (Start job.now.prog job.now.ctx)) }
    ensures ok { IfOk result (λ run. reply.now ≡ Ok (Started run)) }
    ensures err { IfErr result (λ cause. stop_of reply.now ≡ Some cause) }
{
    let _job = job;
    match reply {
        Ok(Answer::Started(run)) => Ok(*run),
        Ok(Answer::Refused(refusal)) => Err(StopCause::Refused(*refusal)),
        Err(fault) => Err(StopCause::Fault(*fault)),
        Ok(_) => unreachable!(),
    }
}

/// Whether the run goes on after the step.
pub fn has_moved(reply: &Result<Answer, SharedFault>) -> bool
    ensures { IsTrue result ↔ (reply.now ≡ Ok Moved) }
{
    matches!(reply, Ok(Answer::Moved))
}

/// Tells whether the run's last step was its exit, or else why it wasn't.
pub fn exited(reply: &Result<Answer, SharedFault>, run: RunId) -> Result<(), StopCause>
    requires answered { IfOk reply.now (IsMachineAnswer (Step run)) }
    requires last { reply.now ≢ Ok Moved }
    ensures ok { OnOk result (HasExitReply reply.now) }
    ensures err { IfErr result (λ cause. stop_of reply.now ≡ Some cause) }
{
    let _run = run;
    match reply {
        Ok(Answer::Exited(_)) => Ok(()),
        Ok(Answer::Refused(refusal)) => Err(StopCause::Refused(*refusal)),
        Err(fault) => Err(StopCause::Fault(*fault)),
        Ok(_) => unreachable!(),
    }
}

/// Tells whether the run was dropped, or else why it wasn't.
pub fn dropped(reply: &Result<Answer, SharedFault>, run: RunId) -> Result<(), StopCause>
    requires answered { IfOk reply.now (IsMachineAnswer (Drop run)) }
    ensures ok { OnOk result (reply.now ≡ Ok Done) }
    ensures err { IfErr result (λ cause. stop_of reply.now ≡ Some cause) }
{
    let _run = run;
    match reply {
        Ok(Answer::Done) => Ok(()),
        Ok(Answer::Refused(refusal)) => Err(StopCause::Refused(*refusal)),
        Err(fault) => Err(StopCause::Fault(*fault)),
        Ok(_) => unreachable!(),
    }
}
