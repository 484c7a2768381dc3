//! The names that a source gives a meaning.
ghost use Rattle.std.specs.Prelude.{◌≡◌, ◌+◌, ◌<◌, ◌≤◌, ◌^◌, Ok, Some, None, IfOk, IfErr, OnOk};
ghost use Rattle.asm_source.specs.Tokens.{tokens_of};
ghost use Rattle.asm_source.specs.Names.{instruction_in, slots_after as slots_behind, signed_in, constant_in, with_binding, with_line, names_in};
ghost use Rattle.asm_source.specs.Faulty.{IsFaultOf};

use crate::fault::SourceFault;
use crate::lines::Lines;
use crate::names::{Meaning, Named, is_constant, is_name, label_in};
use crate::numbers::number_in;
use crate::source_names::SourceNames;
use crate::tokens::Tokens;
use std::alloc::Global;

/// The tokens of the line's instruction: those behind its label, and none of a constant.
pub(crate) fn instruction_of<'a>(line: &'a [u8]) -> Tokens<'a>
    ensures { result ≡ instruction_in (tokens_of line.now) }
{
    let mut tokens = Tokens::new(line);
    match tokens.next() {
        Some(first) if is_constant(first) => Tokens::new(&[]),
        Some(first) if label_in(first).is_some() => tokens,
        _ => Tokens::new(line),
    }
}

/// How many slots stand before the line behind this one.
pub(crate) fn slots_after(slot: u128, line: &[u8]) -> u128
    requires { slot ≤ 2 ^ 66 }
    ensures slots { result ≡ slots_behind slot line.now }
    ensures limit { result ≤ slot + 2 }
{
    let mut tokens = instruction_of(line);
    match tokens.next() {
        None => slot,
        Some(name) if name == b"lddw".as_slice() || name == b"ldmap".as_slice() => slot + 2,
        Some(_) => slot + 1,
    }
}

/// The number that the tokens are: a word, or a minus and a word.
fn signed_of(tokens: &mut Tokens<'_>) -> Option<Meaning>
    ensures { result ≡ signed_in tokens.old }
{
    let first = tokens.next()?;
    match tokens.next() {
        None => Some(Meaning::Number {
            minus: false,
            magnitude: number_in(first)?,
        }),
        Some(second) if first == b"-".as_slice() && tokens.is_done() => Some(Meaning::Number {
            minus: true,
            magnitude: number_in(second)?,
        }),
        Some(_) => None,
    }
}

/// The constant that the tokens behind `.equ` are.
fn constant_of<'a>(tokens: &mut Tokens<'a>) -> Option<Named<'a>>
    ensures { result ≡ constant_in tokens.old }
{
    let name = tokens.next()?;
    Some(Named::new(name, signed_of(tokens)?))
}

/// Adds a name that the line of this number gives a meaning.
fn add_binding<'a>(
    names: &mut SourceNames<'a>,
    line: usize,
    named: Named<'a>,
) -> Result<(), SourceFault>
    ensures added { OnOk result (with_binding names.old line named.entry ≡ Ok names.new) }
    ensures fault { IfErr result (IsFaultOf (with_binding names.old line named.entry)) }
{
    if !is_name(named.name()) {
        return Err(SourceFault::BadName(line));
    }
    if names.meaning_of(named.name()).is_some() {
        return Err(SourceFault::NameTwice(line));
    }
    names.push(named)?;
    Ok(())
}

/// Adds the name of a line, which has this number, and before which so many slots stand.
fn add_line<'a>(
    names: &mut SourceNames<'a>,
    number: usize,
    slot: u128,
    line: &'a [u8],
) -> Result<(), SourceFault>
    ensures added { OnOk result
        (with_line names.old number slot (tokens_of line.now) ≡ Ok names.new) }
    ensures fault { IfErr result
        (IsFaultOf (with_line names.old number slot (tokens_of line.now))) }
{
    let mut tokens = Tokens::new(line);
    let Some(first) = tokens.next() else {
        return Ok(());
    };
    if is_constant(first) {
        return match constant_of(&mut tokens) {
            Some(named) => add_binding(names, number, named),
            None => Err(SourceFault::BadConstant(number)),
        };
    }
    match label_in(first) {
        Some(name) => add_binding(names, number, Named::new(name, Meaning::Place(slot))),
        None => Ok(()),
    }
}

/// The names of a source.
pub(crate) fn names_of<'a>(alloc: Global, source: &'a [u8]) -> Result<SourceNames<'a>, SourceFault>
    ensures found { IfOk result (λ v. names_in source.now ≡ Ok v) }
    ensures fault { IfErr result (IsFaultOf (names_in source.now)) }
{
    let mut names = SourceNames::new(alloc);
    let mut lines = Lines::new(source);
    let mut number = 0;
    let mut slot = 0;
    while let Some(line) = lines.next() {
        number += 1;
        add_line(&mut names, number, slot, line)?;
        slot = slots_after(slot, line);
    }
    Ok(names)
}
