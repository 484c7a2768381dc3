//! A world that the commands of a script are for.
ghost use Rattle.std.specs.Prelude.{◌≡◌, slice_get};
ghost use Rattle.control.specs.Replies.{overlong_refusal};

use crate::asked::{Asked, ask};
use crate::dump::write_elements;
use crate::refusal::LineRefusal;
use crate::replies::{write_answer, write_other, write_refusal};
use crate::steps::make_steps;
use bpf_model::{Answer, Event, EventRefusal, ProgId};
use script_lines::{Reply, ScriptCommand};
use std::alloc::AllocError;
use world::World;

/// Why a start on a context that is longer than any is refused.
fn refusal_of_overlong(world: &World, prog: ProgId) -> EventRefusal
    ensures { result ≡ overlong_refusal (slice_get world.now.programs prog) }
{
    match world.program(prog) {
        None => EventRefusal::NoProgram,
        Some(_) => EventRefusal::BadContext,
    }
}

/// A world that the commands of a script are for.
#[derive(Drop)]
pub struct Live {
    pub world: World,
}

impl Live {
    ghost use Rattle.std.specs.Prelude.{◌≡◌, ◌++◌, List, IfOk, OnErr};
    ghost use Rattle.std.specs.List.{flat_map};
    ghost use Rattle.script_lines.specs.ReplyText.{reply_text, GoesOn};
    ghost use Rattle.script_lines.specs.declared.reply.Reply.{Reply};
    ghost use Rattle.control.specs.Lives.{IsReplied, LiveReplies};
    ghost use Rattle.control.specs.Refusals.{AreTold};

    /// Answers what is asked, and adds the text of the replies. The refusal that they tell is given.
    fn answer_asked(
        &mut self,
        asked: Asked,
        out: &mut Vec<u8>,
    ) -> Result<Option<LineRefusal>, AllocError>
        ensures ok { IfOk result (λ refusal.
            IsReplied self.old asked out.old.items refusal out.new.items self.new) }
        ensures err { OnErr result (GoesOn out.old.items out.new.items) }
    {
        self.world.is_world();
        match asked {
            Asked::TooLate => write_refusal(LineRefusal::TooLate, out),
            Asked::Refused(refusal) => write_refusal(LineRefusal::Event(refusal), out),
            Asked::Event(event) => {
                event.is_real();
                let mut answer = Answer::Moved;
                self.world.apply_into(&event, &mut answer);
                write_answer(self.world.registry(), &answer, out)
            }
            Asked::Overlong(prog) => {
                let refusal = refusal_of_overlong(&self.world, prog);
                write_refusal(LineRefusal::Event(refusal), out)
            }
            Asked::Steps { run, count } => {
                Event::Step { run }.is_real();
                let mut answer = Answer::Moved;
                make_steps(&mut self.world, run, count, &mut answer);
                write_answer(self.world.registry(), &answer, out)
            }
            Asked::Counts => write_other(&Reply::Stat(self.world.stat()), out),
            Asked::Elements(map) => {
                write_elements(&self.world, map, out)?;
                Ok(None)
            }
        }
    }

    /// Answers a command, and adds the text of the replies. The refusal that they tell is given, if they tell one.
    ///
    /// # Errors
    ///
    /// `AllocError` where memory runs out. Events may have happened then, and a part of the text been added.
    pub fn answer(
        &mut self,
        command: ScriptCommand<'_>,
        out: &mut Vec<u8>,
    ) -> Result<Option<LineRefusal>, AllocError>
        ensures ok { IfOk result (λ refusal. (replies : List Reply)
            × LiveReplies self.old command.entry replies self.new
            × AreTold refusal replies
            × (out.new.items ≡ out.old.items ++ flat_map reply_text replies)) }
        ensures err { OnErr result (GoesOn out.old.items out.new.items) }
    {
        let asked = ask(self.world.registry(), command);
        self.answer_asked(asked, out)
    }
}
