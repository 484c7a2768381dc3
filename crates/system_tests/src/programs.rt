//! Programs of assembly text, verified.
ghost use Rattle.std.specs.Prelude.{◌≡◌, IfOk};

use asm::assemble;
use bpf_model::{CTX_BYTES, MAX_MAPS, MapKind, MapShape};
use std::alloc::Global;
use std::test::Fail;
use verifier::{Verified, verify};

/// Two maps: the first has keys of 4 bytes and values of 8, the second keys of 8 and values of 16.
pub const MAPS: [MapShape; 2] = [
    MapShape {
        kind: MapKind::Hash,
        key_len: 4,
        value_len: 8,
        entries: 1,
        spare: 1,
        reuse_limit: 2,
    },
    MapShape {
        kind: MapKind::Hash,
        key_len: 8,
        value_len: 16,
        entries: 1,
        spare: 1,
        reuse_limit: 2,
    },
];

/// The program of these lines, which are parted by a semicolon and a space, verified for these maps and a context of this
/// length.
pub fn verified(
    alloc: Global,
    lines: &str,
    maps: &[MapShape],
    ctx_len: usize,
) -> Result<Verified, Fail>
    ensures { IfOk result (λ v. v.ctx_len ≡ ctx_len) }
{
    if ctx_len > CTX_BYTES || maps.len() > MAX_MAPS {
        return Err(Fail::from("the context or the list of maps is too long"));
    }
    let program = assemble(alloc, &lines.replace(alloc, "; ", "\n")?)?;
    Ok(verify(alloc, program, maps, ctx_len)?)
}

/// A program of `MAX_SLOTS` slots: a move of zero, so many times these two lines, and an exit.
pub fn longest(alloc: Global, pair: &str) -> Result<String, Fail> {
    let pairs = pair.repeat(alloc, 2047)?;
    Ok(format!(in alloc; "mov64 r0, 0; {pairs}exit")?)
}
