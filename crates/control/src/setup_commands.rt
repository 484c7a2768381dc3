//! Commands while maps and programs are being made.
ghost use Rattle.std.specs.Prelude.{◌≡◌, ◌++◌, List, IfOk, OnErr};
ghost use Rattle.std.specs.List.{flat_map};
ghost use Rattle.bpf_model.specs.declared.event.Event.{Event};
ghost use Rattle.script_lines.specs.ReplyText.{reply_text, GoesOn};
ghost use Rattle.script_lines.specs.declared.reply.Reply.{Reply};
ghost use Rattle.control.specs.Lives.{LiveReplies};
ghost use Rattle.control.specs.Refusals.{AreTold};
ghost use Rattle.control.specs.Sessions.{SetupReplies, TracksStart, sealed, now_at};

use crate::live::Live;
use crate::refusal::LineRefusal;
use crate::replies::{write_loaded, write_map_made};
use crate::setup::Setup;
use crate::shape::shape_of;
use script_lines::ScriptCommand;
use std::alloc::{AllocError, Global};
use std::mem;

/// Makes the world, and answers the first command that is for it. The world is left, and the refusal that the replies tell.
fn answer_first(
    alloc: Global,
    setup: &mut Setup,
    command: ScriptCommand<'_>,
    out: &mut Vec<u8>,
) -> Result<(Live, Option<LineRefusal>), AllocError>
    ensures ok { IfOk result (λ left. (replies : List Reply)
        × TracksStart setup.old × LiveReplies (sealed setup.old) command.entry replies left.0
        × AreTold left.1 replies
        × (out.new.items ≡ out.old.items ++ flat_map reply_text replies)) }
    ensures err { OnErr result (GoesOn out.old.items out.new.items) }
{
    let made = mem::replace(setup, Setup::new(alloc));
    let world = made.seal(alloc)?;
    let mut live = Live { world };
    let refusal = live.answer(command, out)?;
    Ok((live, refusal))
}

/// Answers a command while maps and programs are being made, and adds the text of the replies. The world is left, where the
/// command made it, and the refusal that the replies tell.
pub(crate) fn answer_setup(
    alloc: Global,
    setup: &mut Setup,
    command: ScriptCommand<'_>,
    out: &mut Vec<u8>,
) -> Result<(Option<Live>, Option<LineRefusal>), AllocError>
    ensures ok { IfOk result (λ left. (events : List Event) × (replies : List Reply)
        × SetupReplies setup.old command.entry events replies (now_at setup.new left.0)
        × AreTold left.1 replies
        × (out.new.items ≡ out.old.items ++ flat_map reply_text replies)) }
    ensures err { OnErr result (GoesOn out.old.items out.new.items) }
{
    match command {
        ScriptCommand::Map { name, shape } => {
            let made = setup.create(&name, shape_of(shape))?;
            let refusal = write_map_made(made, out)?;
            Ok((None, refusal))
        }
        ScriptCommand::Load {
            ctx_len,
            code,
            maps,
        } => {
            let loaded = setup.load(alloc, ctx_len, &code, maps)?;
            let refusal = write_loaded(loaded, out)?;
            Ok((None, refusal))
        }
        command => {
            let left = answer_first(alloc, setup, command, out)?;
            Ok((Some(left.0), left.1))
        }
    }
}
