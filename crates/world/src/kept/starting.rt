//! Where runs begin and end.
ghost use Rattle.std.specs.Prelude.{◌≡◌};
ghost use Rattle.model_laws.specs.Reactions.{start_reaction, drop_reaction, drop_refused};
ghost use Rattle.world.specs.Brief.{brief_answer};
ghost use Rattle.bpf_model.specs.Machine.{run_at};

use crate::kept::brief::Brief;
use crate::kept::by_number::program_at;
use crate::kept::flags::{FREE, OCCUPIED, lowest_free};
use crate::kept::parts::Parts;
use bpf_model::{Answer, CtxBytes, EventRefusal, ProgId, RunId};
use machine::Run;

impl Parts {
    /// Does a start as `start_into` says, and answers it in few bytes.
    pub(crate) fn started(&mut self, prog: ProgId, ctx: &CtxBytes) -> Brief
        ensures answer { brief_answer result ≡ (start_reaction self.old prog ctx.now.items).0 }
        ensures new { self.new ≡ (start_reaction self.old prog ctx.now.items).1 }
    {
        let verified = match program_at(&self.programs, prog) {
            None => return Brief::Refused(EventRefusal::NoProgram),
            Some(program) => &program.verified,
        };
        if ctx.len() != verified.ctx_len() {
            return Brief::Refused(EventRefusal::BadContext);
        }
        match lowest_free(&self.flags) {
            None => Brief::Refused(EventRefusal::RunsFull),
            Some(slot) => {
                self.grace.keeps_awaited_open();
                self.runs[slot] = Some(Run::start(verified, prog.index(), ctx));
                self.flags[slot] = OCCUPIED;
                Brief::Started(RunId::new(slot))
            }
        }
    }

    /// Starts a run of a program on a context, in the lowest free run slot, and puts the answer in the place of
    /// another one. Refused, in this order, where no program has the number, where the context has another
    /// length than the program was verified for, and where every run slot is occupied.
    #[inline(never)]
    pub fn start_into(&mut self, prog: ProgId, ctx: &CtxBytes, answer: &mut Answer)
        ensures answer { answer.new ≡ (start_reaction self.old prog ctx.now.items).0 }
        ensures new { self.new ≡ (start_reaction self.old prog ctx.now.items).1 }
    {
        self.started(prog, ctx).put(answer);
    }

    /// Why the run of a run slot is not dropped, if it is not.
    fn drop_refusal(&self, run: RunId) -> Option<EventRefusal>
        ensures { result ≡ drop_refused (run_at self.now.runs run) }
    {
        match self.runs.get(run.index()) {
            Some(Some(found)) if found.exit().is_some() => None,
            Some(Some(_)) => Some(EventRefusal::StillRunning),
            _ => Some(EventRefusal::NoRun),
        }
    }

    /// Does a drop as `drop_into` says, and answers it in few bytes.
    pub(crate) fn dropped(&mut self, run: RunId) -> Brief
        ensures answer { brief_answer result ≡ (drop_reaction self.old run).0 }
        ensures new { self.new ≡ (drop_reaction self.old run).1 }
    {
        match self.drop_refusal(run) {
            Some(refusal) => Brief::Refused(refusal),
            None => {
                self.runs[run.index()] = None;
                self.flags[run.index()] = FREE;
                self.grace.keeps_awaited_open();
                self.grace.close_all(run);
                Brief::Done
            }
        }
    }

    /// Drops a run that has ended, and frees its run slot, and puts the answer in the place of another one.
    /// Refused where no run has the run slot (`NoRun`), and where the run has not ended (`StillRunning`).
    #[inline(never)]
    pub fn drop_into(&mut self, run: RunId, answer: &mut Answer)
        ensures answer { answer.new ≡ (drop_reaction self.old run).0 }
        ensures new { self.new ≡ (drop_reaction self.old run).1 }
    {
        self.dropped(run).put(answer);
    }
}
