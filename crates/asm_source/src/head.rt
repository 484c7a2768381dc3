//! The lines above a line `code`, as they are read.
ghost use Rattle.std.specs.Prelude.{◌≡◌, ◌++◌, ◌∷◌, flat_map, IfOk, OnOk};
ghost use Rattle.asm_source.specs.Head.{head_text as text_of_head, line_of_tokens};
ghost use Rattle.asm_source.specs.Tokens.{tokens_of};

use crate::lines::Lines;
use crate::tokens::Tokens;
use std::alloc::{AllocError, Global};

/// Adds tokens, each behind a space.
fn push_rest(out: &mut Vec<u8>, tokens: &mut Tokens<'_>) -> Result<(), AllocError>
    ensures { OnOk result (out.new.items ≡ out.old.items ++ flat_map (λ token. 32 ∷ token) tokens.old) }
{
    while let Some(token) = tokens.next() {
        out.push(b' ')?;
        out.extend_from_slice(token)?;
    }
    Ok(())
}

/// Adds a line, if it has a token.
fn push_line(out: &mut Vec<u8>, line: &[u8]) -> Result<(), AllocError>
    ensures { OnOk result (out.new.items ≡ out.old.items ++ line_of_tokens (tokens_of line.now)) }
{
    let mut tokens = Tokens::new(line);
    let Some(first) = tokens.next() else {
        return Ok(());
    };
    out.extend_from_slice(first)?;
    push_rest(out, &mut tokens)?;
    out.push(b'\n')?;
    Ok(())
}

/// The lines of a head, as those of a program file are written: of each line its words, parted by a space, and a line feed. An
/// empty line and one with a comment alone are left out.
///
/// # Errors
///
/// Where memory runs out.
pub fn head_text(alloc: Global, head: &[u8]) -> Result<Vec<u8>, AllocError>
    ensures { IfOk result (λ v. v.items ≡ text_of_head head.now) }
{
    let mut out = Vec::new(alloc);
    let mut lines = Lines::new(head);
    while let Some(line) = lines.next() {
        push_line(&mut out, line)?;
    }
    Ok(out)
}
