//! Programs for the tests, and their runs.
ghost use Rattle.std.specs.Prelude.{◌≤◌, All, IfSome, length};
ghost use Rattle.bpf_model.specs.declared.limits.TheConstants.{CTX_BYTES, MAX_MAPS};
ghost use Rattle.read_table.specs.Held.{IsReady};

use bpf_model::{CtxBytes, MapKind, MapShape};
use insn_codec::decode;
use read_table::{ReadSeat, ReadTable, SubWord};
use std::alloc::Global;
use std::test::Fail;
use verifier::{Verified, verify};

/// A lookup of the key of eight zero bytes, which exits with the value, or with 0 where there is none.
pub const LOOKUP_AND_LOAD: &str = "\
    b70600000000000085200000010000007a0af8ff00000000bfa200000000000007020000f8ffffff\
    18510000000000000000000000000000850000000100000015000100000000007906000000000000\
    8520000002000000bf600000000000009500000000000000";

/// A lookup of the same key, which stores 9 as the value.
pub const LOOKUP_AND_STORE: &str = "\
    b70600000000000085200000010000007a0af8ff00000000bfa200000000000007020000f8ffffff\
    18510000000000000000000000000000850000000100000015000100000000007a00000009000000\
    8520000002000000bf600000000000009500000000000000";

/// A lookup of the same key, which stores 9 as the first byte of the value.
pub const LOOKUP_AND_STORE_BYTE: &str = "\
    b70600000000000085200000010000007a0af8ff00000000bfa200000000000007020000f8ffffff\
    18510000000000000000000000000000850000000100000015000100000000007200000009000000\
    8520000002000000bf600000000000009500000000000000";

/// A lookup of the same key inside two sections, whose value is loaded between the two unlocks.
pub const NESTED: &str = "\
    b706000000000000852000000100000085200000010000007a0af8ff00000000bfa2000000000000\
    07020000f8ffffff185100000000000000000000000000008500000001000000bf07000000000000\
    8520000002000000150701000000000079760000000000008520000002000000bf60000000000000\
    9500000000000000";

/// A load of the one byte of a value that the context says, if that is below 8.
pub const LOAD_BYTE: &str = "\
    7116000000000000570600000700000085200000010000007a0af8ff00000000bfa2000000000000\
    07020000f8ffffff1851000000000000000000000000000085000000010000005500030000000000\
    8520000002000000b70000000000000095000000000000000f600000000000007106000000000000\
    8520000002000000bf600000000000009500000000000000";

/// Keys and values of 8 bytes.
const SHAPE: MapShape = MapShape {
    kind: MapKind::Hash,
    key_len: 8,
    value_len: 8,
    entries: 4,
    spare: 4,
    reuse_limit: 100,
};

/// The program of these hexadecimal digits, verified against two such maps and an empty context.
pub fn verified_with_two(alloc: Global, text: &str) -> Result<Verified, Fail> {
    verified_with(alloc, text, &[SHAPE, SHAPE], 0)
}

/// The same against one map and a context of so many bytes.
pub fn verified(alloc: Global, text: &str, ctx_len: usize) -> Result<Verified, Fail>
    requires { ctx_len ≤ CTX_BYTES }
{
    verified_with(alloc, text, &[SHAPE], ctx_len)
}

/// The same against these maps.
fn verified_with(
    alloc: Global,
    text: &str,
    maps: &[MapShape],
    ctx_len: usize,
) -> Result<Verified, Fail>
    requires few { length maps.now ≤ MAX_MAPS }
    requires context { ctx_len ≤ CTX_BYTES }
{
    let bytes = hex::decode(alloc, text)?;
    Ok(verify(alloc, decode(alloc, &bytes)?, maps, ctx_len)?)
}

/// What a run of the program comes to on a context of zeros, if it is of the table's lengths.
pub fn run(
    table: &ReadTable,
    seat: &mut ReadSeat,
    verified: &Verified,
) -> Option<Result<u64, SubWord>>
    requires ready { IsReady table.now seat.old }
    ensures ready { IsReady table.now seat.new }
{
    let mut ctx = CtxBytes::new();
    for _ in 0..verified.ctx_len() {
        let _ = ctx.try_push(0);
    }
    if !table.fits(verified) || ctx.len() != verified.ctx_len() {
        return None;
    }
    Some(table.run_shared(seat, verified, &ctx))
}

/// The first two seats of a table.
pub fn two_seats<'a>(
    table: &ReadTable,
    list: &'a mut [ReadSeat],
) -> Option<(&'a mut ReadSeat, &'a mut ReadSeat)>
    requires { All (IsReady table.now) list.old }
    ensures { IfSome result (λ p. IsReady table.now p.0.now × IsReady table.now p.1.now) }
{
    let _ = table;
    let [first, second, ..] = list else {
        return None;
    };
    Some((first, second))
}
