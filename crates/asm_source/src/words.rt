//! The text of tokens.
ghost use Rattle.std.specs.Prelude.{◌≡◌, ◌++◌, ◌<◌, ◌+◌, ◌^◌, Ok, OnOk, IfErr, codes};
ghost use Rattle.asm_source.specs.Maps.{meanings_of};
ghost use Rattle.asm_source.specs.Faulty.{IsFaultOf};
ghost use Rattle.asm_source.specs.Plain.{role_of as role_of_name, word_text, distance_text, name_text, last_text, token_text, gap, closes as closes_offset, prepended, tokens_text, instruction_text};

use crate::fault::SourceFault;
use crate::maps::index_of;
use crate::names::{Meaning, is_name, is_register};
use crate::numbers::{hex_in, push_numeral};
use crate::site::{Role, Site};
use crate::source_names::SourceNames;
use crate::tokens::{Tokens, begins_word};
use std::alloc::AllocError;

/// The names of a source, and those of the maps.
#[derive(Drop)]
pub(crate) struct Given<'a, 's> {
    pub(crate) names: &'a SourceNames<'s>,
    pub(crate) maps: &'a [&'a [u8]],
}

/// What the last word of an instruction with this mnemonic may name.
fn role_of(name: &[u8]) -> Role
    ensures { result ≡ role_of_name name.now }
{
    match name {
        [b'j', ..] => Role::Jump,
        _ if name == b"ldmap".as_slice() => Role::LoadMap,
        _ => Role::Plain,
    }
}

/// Adds the distance of a jump before which so many slots stand, to a place.
fn push_distance(out: &mut Vec<u8>, slot: u128, place: u128) -> Result<(), AllocError>
    requires { slot < 2 ^ 70 }
    ensures { OnOk result (out.new.items ≡ out.old.items ++ distance_text slot place) }
{
    if slot < place {
        out.extend_from_slice(b"+")?;
        push_numeral(out, place - (slot + 1))
    } else {
        out.extend_from_slice(b"-")?;
        push_numeral(out, slot + 1 - place)
    }
}

/// Adds a word: in decimal a number in hexadecimal, the number of a constant, or as it is.
fn push_word(out: &mut Vec<u8>, given: &Given<'_, '_>, word: &[u8]) -> Result<(), AllocError>
    ensures { OnOk result
        (out.new.items ≡ out.old.items ++ word_text given.now.names.now word.now) }
{
    if let Some(number) = hex_in(word) {
        return push_numeral(out, u128::from(number));
    }
    match given.names.meaning_of(word) {
        Some(Meaning::Number { minus, magnitude }) => {
            if minus {
                out.extend_from_slice(b"-")?;
            }
            push_numeral(out, u128::from(magnitude))
        }
        _ => out.extend_from_slice(word),
    }
}

/// Adds what a name at the end of an instruction stands for.
fn push_name(
    out: &mut Vec<u8>,
    given: &Given<'_, '_>,
    site: &Site,
    word: &[u8],
) -> Result<(), SourceFault>
    requires { site.now.slot < 2 ^ 70 }
    ensures added { OnOk result (prepended out.old.items
        (name_text (meanings_of given.now) site.now site.now.role word.now) ≡ Ok out.new.items) }
    ensures fault { IfErr result
        (IsFaultOf (name_text (meanings_of given.now) site.now site.now.role word.now)) }
{
    match site.role {
        Role::Jump => match given.names.meaning_of(word) {
            Some(Meaning::Place(place)) => Ok(push_distance(out, site.slot, place)?),
            _ => Err(SourceFault::UnknownLabel(site.line)),
        },
        Role::LoadMap => match index_of(given.maps, word) {
            Some(index) => Ok(push_numeral(out, index as u128)?),
            None => Err(SourceFault::UnknownMap(site.line)),
        },
        Role::Plain => Ok(push_word(out, given, word)?),
    }
}

/// Adds the last word of an instruction.
fn push_last(
    out: &mut Vec<u8>,
    given: &Given<'_, '_>,
    site: &Site,
    word: &[u8],
) -> Result<(), SourceFault>
    requires { site.now.slot < 2 ^ 70 }
    ensures added { OnOk result (prepended out.old.items
        (last_text (meanings_of given.now) site.now word.now) ≡ Ok out.new.items) }
    ensures fault { IfErr result (IsFaultOf (last_text (meanings_of given.now) site.now word.now)) }
{
    if is_name(word) {
        return push_name(out, given, site, word);
    }
    push_word(out, given, word)?;
    Ok(())
}

/// Whether the token is the end of brackets that have a register alone.
fn closes(before: &[u8], token: &[u8]) -> bool
    ensures { result ≡ closes_offset before.now token.now }
{
    token == b"]".as_slice() && is_register(before)
}

/// Adds a token, which stands behind another, and may be the last one.
fn push_token(
    out: &mut Vec<u8>,
    given: &Given<'_, '_>,
    site: &Site,
    before: &[u8],
    token: &[u8],
    is_last: bool,
) -> Result<(), SourceFault>
    requires { site.now.slot < 2 ^ 70 }
    ensures added { OnOk result (prepended out.old.items
        (token_text (meanings_of given.now) site.now before.now token.now is_last) ≡ Ok out.new.items) }
    ensures fault { IfErr result
        (IsFaultOf (token_text (meanings_of given.now) site.now before.now token.now is_last)) }
{
    if closes(before, token) {
        out.extend_from_slice(b"+0]")?;
        return Ok(());
    }
    if is_last {
        return push_last(out, given, site, token);
    }
    push_word(out, given, token)?;
    Ok(())
}

/// Adds the space that parts two tokens, where one does.
fn push_gap(out: &mut Vec<u8>, before: &[u8], token: &[u8]) -> Result<(), AllocError>
    ensures { OnOk result (out.new.items ≡ out.old.items ++ gap before.now token.now) }
{
    if before == b",".as_slice() || (begins_word(before) && begins_word(token)) {
        out.extend_from_slice(b" ")?;
    }
    Ok(())
}

/// Adds the tokens behind a mnemonic.
fn push_tokens<'a>(
    out: &mut Vec<u8>,
    given: &Given<'_, '_>,
    site: &Site,
    tokens: &mut Tokens<'a>,
) -> Result<(), SourceFault>
    requires { site.now.slot < 2 ^ 70 }
    ensures added { OnOk result (prepended out.old.items
        (tokens_text (meanings_of given.now) site.now (codes ",") tokens.old) ≡ Ok out.new.items) }
    ensures fault { IfErr result
        (IsFaultOf (tokens_text (meanings_of given.now) site.now (codes ",") tokens.old)) }
{
    let mut before: &[u8] = b",";
    while let Some(token) = tokens.next() {
        push_gap(out, before, token)?;
        push_token(out, given, site, before, token, tokens.is_done())?;
        before = token;
    }
    Ok(())
}

/// Adds the instruction of these tokens, which stands on the line of this number, behind so many slots.
#[tactic(auto, using(crate::proofs::TextLaws::joined_first, crate::proofs::TextLaws::nothing_behind, crate::proofs::TextLaws::first_fault))]
pub(crate) fn push_instruction<'a>(
    out: &mut Vec<u8>,
    given: &Given<'_, '_>,
    line: usize,
    slot: u128,
    tokens: &mut Tokens<'a>,
) -> Result<(), SourceFault>
    requires { slot < 2 ^ 70 }
    ensures added { OnOk result (prepended out.old.items
        (instruction_text (meanings_of given.now) line slot tokens.old) ≡ Ok out.new.items) }
    ensures fault { IfErr result
        (IsFaultOf (instruction_text (meanings_of given.now) line slot tokens.old)) }
{
    let Some(name) = tokens.next() else {
        return Ok(());
    };
    out.extend_from_slice(name)?;
    let site = Site {
        role: role_of(name),
        line,
        slot,
    };
    push_tokens(out, given, &site, tokens)
}
