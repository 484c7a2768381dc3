//! The names of a program's maps.
ghost use Rattle.std.specs.Prelude.{◌≡◌, ◌==◌, ◌≤◌, not, length, option_copied, position, bytes_eq, IfOk, OnOk, ◌++◌};
ghost use Rattle.std.specs.Option.{option_to_list};
ghost use Rattle.std.specs.List.{prefix_len};
ghost use Rattle.asm_source.specs.Maps.{index_in, texts, map_name_in, maps_in};

use crate::lines::Lines;
use std::alloc::{AllocError, Global};

fn place_of(names: &[&[u8]], name: &[u8]) -> Option<usize>
    ensures { result ≡ position (λ n. bytes_eq n.now name.now) names.now }
{
    names.iter().position(|n| *n == name)
}

/// The index of a name in a list.
pub(crate) fn index_of(names: &[&[u8]], name: &[u8]) -> Option<usize>
    ensures { result ≡ index_in (texts names.now) name.now }
{
    place_of(names, name)
}

/// How many bytes stand before the first space.
fn word_length(text: &[u8]) -> usize
    ensures count { result ≡ prefix_len (λ b. not (b == 32)) text.now }
    ensures within { result ≤ length text.now }
{
    for (index, byte) in text.iter().enumerate() {
        if *byte == b' ' {
            return index;
        }
    }
    text.len()
}

/// The name in a line `map NAME ..`.
fn map_name(line: &[u8]) -> Option<&[u8]>
    ensures { option_copied result ≡ map_name_in line.now }
{
    match line {
        [b'm', b'a', b'p', b' ', words @ ..] => {
            let (name, _) = words.split_at(word_length(words));
            Some(name)
        }
        _ => None,
    }
}

/// Adds the name in a line, where it has one.
#[tactic(auto, using(crate::proofs::MapLaws::texts_push, crate::proofs::MapLaws::texts_same))]
fn add_name<'a>(names: &mut Vec<&'a [u8]>, line: &'a [u8]) -> Result<(), AllocError>
    ensures { OnOk result (texts names.new.items
        ≡ texts names.old.items ++ option_to_list (map_name_in line.now)) }
{
    if let Some(name) = map_name(line) {
        names.push(name)?;
    }
    Ok(())
}

/// The names of the maps of a program file's head, in their order: of each line `map NAME ..` what stands before the next
/// space. The lines are not judged otherwise.
///
/// # Errors
///
/// Where memory runs out.
pub fn maps_of<'a>(alloc: Global, head: &'a [u8]) -> Result<Vec<&'a [u8]>, AllocError>
    ensures { IfOk result (λ v. texts v.items ≡ maps_in head.now) }
{
    let mut names = Vec::new(alloc);
    let mut lines = Lines::new(head);
    while let Some(line) = lines.next() {
        add_name(&mut names, line)?;
    }
    Ok(names)
}
