//! The state of a script.

use crate::live::Live;
use crate::refusal::LineRefusal;
use crate::setup::Setup;
use crate::setup_commands::answer_setup;
use bpf_model::ProgId;
use maps::Registry;
use script_lines::ScriptCommand;
use std::alloc::{AllocError, Global};
use verifier::Refused;
use world::Loaded;

/// The state of a script: maps and programs are being made, or there is a world.
#[derive(Drop)]
pub enum Session {
    Setup(Setup),
    Live(Live),
}

impl Session {
    ghost use Rattle.std.specs.Prelude.{◌≡◌, ◌++◌, List, IfOk, OnErr, slice_get, option_copied, option_map};
    ghost use Rattle.std.specs.List.{flat_map};
    ghost use Rattle.bpf_model.specs.declared.event.Event.{Event};
    ghost use Rattle.script_lines.specs.ReplyText.{reply_text, GoesOn};
    ghost use Rattle.script_lines.specs.declared.reply.Reply.{Reply};
    ghost use Rattle.world.specs.Programs.{program_of};
    ghost use Rattle.control.specs.Refusals.{AreTold};
    ghost use Rattle.control.specs.Sessions.{SessionReplies, new_session, names_in, maps_in, loaded_in};

    /// A session without maps and programs.
    pub fn new(alloc: Global) -> Session
        ensures { result ≡ new_session }
    {
        Session::Setup(Setup::new(alloc))
    }

    /// The maps that are made, with their names.
    pub fn registry(&self) -> &Registry
        ensures names { result.now.names ≡ names_in self.now }
        ensures maps { result.now.maps ≡ maps_in self.now }
    {
        match self {
            Session::Setup(setup) => setup.registry(),
            Session::Live(live) => live.world.registry(),
        }
    }

    /// The program of this number, if there is one.
    fn program(&self, prog: ProgId) -> Option<&Loaded>
        ensures { option_map program_of (option_copied result) ≡ slice_get (loaded_in self.now) prog }
    {
        match self {
            Session::Setup(setup) => setup.program(prog),
            Session::Live(live) => live.world.program(prog),
        }
    }

    /// The program that the verifier refused last, until there is a world.
    pub fn refused(&self) -> Option<&Refused> {
        match self {
            Session::Setup(setup) => setup.refused(),
            Session::Live(_) => None,
        }
    }

    /// The length of the contexts of a program, in bytes; `None` where there is no program of this number.
    pub fn context_len(&self, prog: ProgId) -> Option<usize>
        ensures { result ≡ option_map (λ p. p.context_len) (slice_get (loaded_in self.now) prog) }
    {
        match self.program(prog) {
            Some(loaded) => Some(loaded.verified.ctx_len()),
            None => None,
        }
    }

    /// Answers a command, and adds the text of the replies. The refusal that they tell is given, if they tell one.
    ///
    /// # Errors
    ///
    /// `AllocError` where memory runs out. The session is of no more use then, and a part of the text may
    /// have been added.
    pub fn answer(
        &mut self,
        alloc: Global,
        command: ScriptCommand<'_>,
        out: &mut Vec<u8>,
    ) -> Result<Option<LineRefusal>, AllocError>
        ensures ok { IfOk result (λ refusal. (events : List Event) × (replies : List Reply)
            × SessionReplies self.old command.entry events replies self.new
            × AreTold refusal replies
            × (out.new.items ≡ out.old.items ++ flat_map reply_text replies)) }
        ensures err { OnErr result (GoesOn out.old.items out.new.items) }
    {
        match self {
            Session::Live(live) => live.answer(command, out),
            Session::Setup(setup) => {
                let (made, refusal) = answer_setup(alloc, setup, command, out)?;
                match made {
                    Some(live) => {
                        *self = Session::Live(live);
                        Ok(refusal)
                    }
                    None => Ok(refusal),
                }
            }
        }
    }
}
