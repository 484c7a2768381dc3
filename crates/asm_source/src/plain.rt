//! The plain text of a source.
ghost use Rattle.std.specs.Prelude.{◌≡◌, ◌<◌, ◌^◌, ℕ, List, Ok, OnOk, IfOk, IfErr};
ghost use Rattle.asm_source.specs.Faulty.{IsFaultOf};
ghost use Rattle.asm_source.specs.Maps.{index_in, texts, meanings_of};
ghost use Rattle.asm_source.specs.Plain.{lines_text, line_text, plain, prepended, fed, text_with as text_of_lines};
ghost use Rattle.asm_source.specs.Tokens.{lines_of};

use crate::bindings::{instruction_of, names_of, slots_after};
use crate::fault::SourceFault;
use crate::lines::Lines;
use crate::source_names::SourceNames;
use crate::words::{Given, push_instruction};
use std::alloc::Global;

/// Adds a line, which has this number, and before which so many slots stand, with its line feed.
#[tactic(auto, using(crate::proofs::TextLaws::fed_text))]
fn push_line(
    out: &mut Vec<u8>,
    given: &Given<'_, '_>,
    number: usize,
    slot: u128,
    line: &[u8],
) -> Result<(), SourceFault>
    requires { slot < 2 ^ 70 }
    ensures added { OnOk result (prepended out.old.items
        (fed (line_text (meanings_of given.now) number slot line.now)) ≡ Ok out.new.items) }
    ensures fault { IfErr result (IsFaultOf (line_text (meanings_of given.now) number slot line.now)) }
{
    let mut tokens = instruction_of(line);
    push_instruction(out, given, number, slot, &mut tokens)?;
    out.push(b'\n')?;
    Ok(())
}

/// The text of all lines.
fn text_of(alloc: Global, given: &Given<'_, '_>, source: &[u8]) -> Result<Vec<u8>, SourceFault>
    ensures found { IfOk result (λ v.
        lines_text (meanings_of given.now) 0 0 (lines_of source.now) ≡ Ok v.items) }
    ensures fault { IfErr result
        (IsFaultOf (lines_text (meanings_of given.now) 0 0 (lines_of source.now))) }
{
    let mut out = Vec::new(alloc);
    let mut lines = Lines::new(source);
    let mut number = 0;
    let mut slot = 0;
    while let Some(line) = lines.next() {
        number += 1;
        push_line(&mut out, given, number, slot, line)?;
        slot = slots_after(slot, line);
    }
    Ok(out)
}

/// The text of all lines, with these names.
fn text_with<'a>(
    alloc: Global,
    names: &'a SourceNames<'_>,
    maps: &'a [&'a [u8]],
    source: &[u8],
) -> Result<Vec<u8>, SourceFault>
    ensures found { IfOk result (λ v.
        text_of_lines (index_in (texts maps.now)) source.now (Ok names.now) ≡ Ok v.items) }
    ensures fault { IfErr result
        (IsFaultOf (text_of_lines (index_in (texts maps.now)) source.now (Ok names.now))) }
{
    let given = Given { names, maps };
    text_of(alloc, &given, source)
}

/// The plain text of a source, which `asm::assemble` reads: line k of it stands for line k of the source, and is empty where
/// the source has a label, a constant or a comment alone. `maps` are the names of the program's maps, in their order.
///
/// # Errors
///
/// `BadName`, `NameTwice` and `BadConstant` for the first line that gives a name a meaning and may not. Where there is
/// none, `UnknownLabel` and `UnknownMap` for the first instruction that names what is not there. `Memory` where memory runs
/// out. An instruction is not judged here.
pub fn plain_of(alloc: Global, source: &[u8], maps: &[&[u8]]) -> Result<Vec<u8>, SourceFault>
    // It is the source's plain text.
    ensures found { IfOk result (λ v. plain (index_in (texts maps.now)) source.now ≡ Ok v.items) }
    // A source with a plain text has it, unless memory runs out.
    ensures only { (text : List ℕ) → plain (index_in (texts maps.now)) source.now ≡ Ok text →
        IfErr result (λ f. f ≡ SourceFault.Memory) }
    // Which fault it is.
    ensures fault { IfErr result (IsFaultOf (plain (index_in (texts maps.now)) source.now)) }
{
    let names = names_of(alloc, source)?;
    text_with(alloc, &names, maps, source)
}
