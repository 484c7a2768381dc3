//! The text of answers.
ghost use Rattle.std.specs.Prelude.{◌≡◌, ◌≤◌, ◌++◌, length, codes, OnOk, OnErr};
ghost use Rattle.std.specs.Fmt.{decimal};
ghost use Rattle.bpf_model.specs.declared.limits.TheConstants.{VALUE_BYTES};
ghost use Rattle.script_lines.specs.ReplyText.{bytes_text, ret_text, given_text, slot_text, reaped_text, stat_text, reply_line, reply_text, GoesOn};

use crate::name::Name;
use crate::reply::Reply;
use bpf_model::{Errno, Given, KeyBytes, Stat, VALUE_BYTES};
use itoa::Buffer;
use std::alloc::AllocError;

fn push_number(out: &mut Vec<u8>, number: u64) -> Result<(), AllocError>
    ensures ok { OnOk result (out.new.items ≡ out.old.items ++ decimal number) }
    ensures err { OnErr result (GoesOn out.old.items out.new.items) }
{
    let mut buffer = Buffer::new();
    out.extend_from_slice(buffer.format(number).as_bytes())
}

fn push_text(out: &mut Vec<u8>, text: &str) -> Result<(), AllocError>
    ensures ok { OnOk result (out.new.items ≡ out.old.items ++ text.now) }
    ensures err { OnErr result (GoesOn out.old.items out.new.items) }
{
    out.extend_from_slice(text.as_bytes())
}

/// Adds bytes in hexadecimal.
fn push_bytes(out: &mut Vec<u8>, bytes: &[u8]) -> Result<(), AllocError>
    requires { length bytes.now ≤ VALUE_BYTES }
    ensures ok { OnOk result (out.new.items ≡ out.old.items ++ bytes_text bytes.now) }
    ensures err { OnErr result (GoesOn out.old.items out.new.items) }
{
    if bytes.is_empty() {
        return push_text(out, "-");
    }
    let mut room = [0; 2 * VALUE_BYTES];
    let digits = &mut room[..2 * bytes.len()];
    let _done = hex::encode_to_slice(bytes, digits);
    out.extend_from_slice(digits)
}

fn push_ret(out: &mut Vec<u8>, ret: &Result<(), Errno>) -> Result<(), AllocError>
    ensures ok { OnOk result (out.new.items ≡ out.old.items ++ ret_text ret.now) }
    ensures err { OnErr result (GoesOn out.old.items out.new.items) }
{
    match ret {
        Ok(()) => push_text(out, "0"),
        Err(error) => {
            push_text(out, "-")?;
            push_number(out, u64::from(error.number()))
        }
    }
}

/// Adds a space and bytes in hexadecimal.
#[tactic(auto, using(std::proofs::Common::append_assoc))]
fn push_next_bytes(out: &mut Vec<u8>, bytes: &[u8]) -> Result<(), AllocError>
    requires { length bytes.now ≤ VALUE_BYTES }
    ensures ok { OnOk result (out.new.items ≡ out.old.items ++ (codes " " ++ bytes_text bytes.now)) }
    ensures err { OnErr result (GoesOn out.old.items out.new.items) }
{
    push_text(out, " ")?;
    push_bytes(out, bytes)
}

fn push_given(out: &mut Vec<u8>, given: Given) -> Result<(), AllocError>
    ensures ok { OnOk result (out.new.items ≡ out.old.items ++ (codes " " ++ given_text given)) }
    ensures err { OnErr result (GoesOn out.old.items out.new.items) }
{
    match given {
        Given::Free => push_text(out, " free"),
        Given::Worn => push_text(out, " worn"),
    }
}

fn push_slot(out: &mut Vec<u8>, slot: &Option<usize>) -> Result<(), AllocError>
    ensures ok { OnOk result (out.new.items ≡ out.old.items ++ slot_text slot.now) }
    ensures err { OnErr result (GoesOn out.old.items out.new.items) }
{
    match slot {
        None => Ok(()),
        Some(slot) => {
            push_text(out, " at ")?;
            push_number(out, *slot as u64)
        }
    }
}

/// Adds a word and a number.
fn push_counted(out: &mut Vec<u8>, word: &str, number: usize) -> Result<(), AllocError>
    ensures ok { OnOk result (out.new.items ≡ out.old.items ++ (word.now ++ decimal number)) }
    ensures err { OnErr result (GoesOn out.old.items out.new.items) }
{
    push_text(out, word)?;
    push_number(out, number as u64)
}

/// Adds two words, each with a number.
#[tactic(auto, using(std::proofs::Common::append_assoc))]
fn push_pair(
    out: &mut Vec<u8>,
    first: &str,
    first_number: usize,
    second: &str,
    second_number: usize,
) -> Result<(), AllocError>
    ensures ok { OnOk result (out.new.items ≡ out.old.items
        ++ ((first.now ++ decimal first_number) ++ (second.now ++ decimal second_number))) }
    ensures err { OnErr result (GoesOn out.old.items out.new.items) }
{
    push_counted(out, first, first_number)?;
    push_counted(out, second, second_number)
}

#[tactic(auto, using(std::proofs::Common::append_assoc))]
fn push_stat(out: &mut Vec<u8>, stat: Stat) -> Result<(), AllocError>
    ensures ok { OnOk result (out.new.items ≡ out.old.items ++ stat_text stat) }
    ensures err { OnErr result (GoesOn out.old.items out.new.items) }
{
    push_pair(
        out,
        "stat linked ",
        stat.linked,
        " unlinked ",
        stat.unlinked,
    )?;
    push_pair(out, " given ", stat.given, " worn ", stat.worn)?;
    push_pair(out, " runs ", stat.runs, " open ", stat.open)
}

#[tactic(auto, using(std::proofs::Common::append_assoc))]
fn push_reaped(
    out: &mut Vec<u8>,
    map: &Name<'_>,
    key: &KeyBytes,
    given: Given,
) -> Result<(), AllocError>
    ensures ok { OnOk result
        (out.new.items ≡ out.old.items ++ reaped_text map.now key.now.items given) }
    ensures err { OnErr result (GoesOn out.old.items out.new.items) }
{
    push_text(out, "reaped ")?;
    out.extend_from_slice(map.bytes())?;
    push_next_bytes(out, key)?;
    push_given(out, given)
}

/// Adds an answer without the line feed that ends it.
#[tactic(auto, using(std::proofs::Common::append_assoc))]
fn push_line(out: &mut Vec<u8>, reply: &Reply<'_>) -> Result<(), AllocError>
    ensures ok { OnOk result (out.new.items ≡ out.old.items ++ reply_line reply.now) }
    ensures err { OnErr result (GoesOn out.old.items out.new.items) }
{
    match reply {
        Reply::Map(map) => push_counted(out, "map ", map.index()),
        Reply::Prog(prog) => push_counted(out, "prog ", prog.index()),
        Reply::Ret(ret) => {
            push_text(out, "ret ")?;
            push_ret(out, ret)
        }
        Reply::Value(value) => {
            push_text(out, "value ")?;
            push_bytes(out, value)
        }
        Reply::Nothing => push_text(out, "none"),
        Reply::Run(run) => push_counted(out, "run ", run.index()),
        Reply::Moved => push_text(out, "moved"),
        Reply::Exit(value) => {
            push_text(out, "exit ")?;
            push_number(out, *value)
        }
        Reply::Done => push_text(out, "ok"),
        Reply::Reaped { map, key, given } => push_reaped(out, map, key, *given),
        Reply::Stat(stat) => push_stat(out, *stat),
        Reply::Element { key, value } => {
            push_bytes(out, key)?;
            push_next_bytes(out, value)
        }
        Reply::End => push_text(out, "end"),
        Reply::Refused { code, slot } => {
            push_counted(out, "refused ", usize::from(*code))?;
            push_slot(out, slot)
        }
    }
}

/// Adds an answer's line, with the line feed that ends it.
///
/// # Errors
///
/// `AllocError` where memory for it runs out; a part of the line may have been added.
pub fn write_reply(reply: &Reply<'_>, out: &mut Vec<u8>) -> Result<(), AllocError>
    ensures ok { OnOk result (out.new.items ≡ out.old.items ++ reply_text reply.now) }
    ensures err { OnErr result (GoesOn out.old.items out.new.items) }
{
    push_line(out, reply)?;
    push_text(out, "\n")
}
