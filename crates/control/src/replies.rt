//! Replies that are added to a script's answers.
ghost use Rattle.std.specs.Prelude.{IfOk, OnErr};
ghost use Rattle.script_lines.specs.ReplyText.{GoesOn};
ghost use Rattle.control.specs.AnswerReplies.{reply_to};
ghost use Rattle.control.specs.Refusals.{refusal_reply, map_reply, program_reply, IsNoRefusal, IsAdded};

use crate::map_names::name_of;
use crate::refusal::LineRefusal;
use bpf_model::{Answer, MapId, ProgId};
use maps::Registry;
use script_lines::{Name, Reply, write_reply};
use std::alloc::AllocError;

/// Adds the reply that tells a refusal, which is given.
///
/// # Errors
///
/// `AllocError` where memory for it runs out; a part of the line may have been added. So it is with the others here.
pub(crate) fn write_refusal(
    refusal: LineRefusal,
    out: &mut Vec<u8>,
) -> Result<Option<LineRefusal>, AllocError>
    ensures ok { IfOk result (λ told.
        IsAdded (refusal_reply refusal) out.old.items told out.new.items) }
    ensures err { OnErr result (GoesOn out.old.items out.new.items) }
{
    write_reply(&refusal.reply(), out)?;
    Ok(Some(refusal))
}

/// Adds a reply that is no refusal.
pub(crate) fn write_other(
    reply: &Reply<'_>,
    out: &mut Vec<u8>,
) -> Result<Option<LineRefusal>, AllocError>
    requires { IsNoRefusal reply.now }
    ensures ok { IfOk result (λ told. IsAdded reply.now out.old.items told out.new.items) }
    ensures err { OnErr result (GoesOn out.old.items out.new.items) }
{
    write_reply(reply, out)?;
    Ok(None)
}

/// Adds the reply to a `map`.
pub(crate) fn write_map_made(
    made: Result<MapId, LineRefusal>,
    out: &mut Vec<u8>,
) -> Result<Option<LineRefusal>, AllocError>
    ensures ok { IfOk result (λ told. IsAdded (map_reply made) out.old.items told out.new.items) }
    ensures err { OnErr result (GoesOn out.old.items out.new.items) }
{
    match made {
        Ok(map) => write_other(&Reply::Map(map), out),
        Err(refusal) => write_refusal(refusal, out),
    }
}

/// Adds the reply to a `load`.
pub(crate) fn write_loaded(
    made: Result<ProgId, LineRefusal>,
    out: &mut Vec<u8>,
) -> Result<Option<LineRefusal>, AllocError>
    ensures ok { IfOk result (λ told.
        IsAdded (program_reply made) out.old.items told out.new.items) }
    ensures err { OnErr result (GoesOn out.old.items out.new.items) }
{
    match made {
        Ok(program) => write_other(&Reply::Prog(program), out),
        Err(refusal) => write_refusal(refusal, out),
    }
}

/// Adds the reply that tells an answer of a world of these maps.
pub(crate) fn write_answer(
    maps: &Registry,
    answer: &Answer,
    out: &mut Vec<u8>,
) -> Result<Option<LineRefusal>, AllocError>
    ensures ok { IfOk result (λ told.
        IsAdded (reply_to maps.now.names answer.now) out.old.items told out.new.items) }
    ensures err { OnErr result (GoesOn out.old.items out.new.items) }
{
    match answer {
        Answer::Started(run) => write_other(&Reply::Run(*run), out),
        Answer::Moved => write_other(&Reply::Moved, out),
        Answer::Exited(value) => write_other(&Reply::Exit(*value), out),
        Answer::Ret(ret) => write_other(&Reply::Ret(*ret), out),
        Answer::Found(Some(value)) => write_other(&Reply::Value(value.clone()?), out),
        Answer::Done => write_other(&Reply::Done, out),
        Answer::Reaped(Some(reaped)) => {
            let map = Name::new(name_of(maps, reaped.map));
            let key = reaped.key.clone()?;
            let given = reaped.given;
            write_other(&Reply::Reaped { map, key, given }, out)
        }
        Answer::Found(None) | Answer::Reaped(None) => write_other(&Reply::Nothing, out),
        Answer::Refused(refusal) => write_refusal(LineRefusal::Event(*refusal), out),
    }
}
