//! Runs of a program over the table, beside the writer.
ghost use Rattle.std.specs.Prelude.{◌≡◌, ◌<◌, ◌≤◌, All, length};
ghost use Rattle.bpf_model.specs.declared.limits.TheConstants.{MAX_MAPS};
ghost use Rattle.map_table.specs.Held.{IsReady};

use crate::keys::{two_seats, unlink_found};
use bpf_model::{CtxBytes, MapKind, MapShape};
use insn_codec::decode;
use map_table::{MapTable, ReadSeat, Secret, TableShape, Values, Writer};
use shared_runs::maps::{SubWord, fits, run_shared};
use std::alloc::{AllocError, Global};
use std::process::Abort;
use std::test::Fail;
use verifier::{Verified, verify};

/// A lookup of the key that the context has. It adds 1 to the value, and exits with what it was before, or with 0 where
/// there is none.
pub const COUNT: &str = "\
    79160000000000007b6af8ff00000000b7090000000000008520000001000000bfa2000000000000\
    07020000f8ffffff1851000000000000000000000000000085000000010000001500040000000000\
    7909000000000000bf9700000000000007070000010000007b700000000000008520000002000000\
    bf900000000000009500000000000000";

/// A load of the first byte of the value of such a key, into the register that the program exits with.
const LOAD_BYTE: &str = "\
    79160000000000007b6af8ff00000000b7090000000000008520000001000000bfa2000000000000\
    07020000f8ffffff1851000000000000000000000000000085000000010000001500010000000000\
    71090000000000008520000002000000bf900000000000009500000000000000";

/// The load.
const LOAD: &str = "7109000000000000";

/// Keys and values of 8 bytes.
pub const WORDS: MapShape = MapShape {
    kind: MapKind::Hash,
    key_len: 8,
    value_len: 8,
    entries: 4,
    spare: 4,
    reuse_limit: 100,
};

/// A table for 1,024 such keys, with twice as many ways.
const TABLE: TableShape = TableShape {
    readers: 2,
    buckets: 256,
    elements: 1024,
    key_words: 1,
    value_words: 1,
    values: Values::Shared,
    secret: Secret {
        first: 0x1234_5678_9abc_def0,
        second: 0x0fed_cba9_8765_4321,
    },
};

/// The program of these hexadecimal digits, verified against one map and a context of a word.
pub fn verified(alloc: Global, text: &str) -> Result<Verified, Fail> {
    verified_with(alloc, text, &[WORDS])
}

/// The same against these maps.
pub fn verified_with(alloc: Global, text: &str, maps: &[MapShape]) -> Result<Verified, Fail>
    requires few { length maps.now ≤ MAX_MAPS }
{
    let bytes = hex::decode(alloc, text)?;
    Ok(verify(alloc, decode(alloc, &bytes)?, maps, 8)?)
}

/// What a run comes to that loads of the value of the key 7 what this instruction loads, or that makes this access of it.
fn loaded(
    alloc: Global,
    table: &MapTable,
    seat: &mut ReadSeat,
    load: &str,
) -> Result<Option<Result<u64, SubWord>>, Fail>
    requires ready { IsReady table.now seat.old }
    ensures ready { IsReady table.now seat.new }
{
    let text = LOAD_BYTE.replace(alloc, LOAD, load)?;
    let program = verified(alloc, text.as_str())?;
    Ok(run(table, seat, &program, 7))
}

/// A context of this word.
pub fn context_of(word: u64) -> CtxBytes {
    let mut ctx = CtxBytes::new();
    for byte in word.to_le_bytes() {
        let _ = ctx.try_push(byte);
    }
    ctx
}

/// What a run of the program comes to on this key, if it is of the table's lengths.
pub fn run(
    table: &MapTable,
    seat: &mut ReadSeat,
    verified: &Verified,
    key: u64,
) -> Option<Result<u64, SubWord>>
    requires ready { IsReady table.now seat.old }
    ensures ready { IsReady table.now seat.new }
{
    let ctx = context_of(key);
    if !fits(table, verified) || ctx.len() != verified.ctx_len() {
        return None;
    }
    Some(run_shared(table, seat, verified, &ctx))
}

/// The value with which such a run exits, if it does.
pub fn exit(table: &MapTable, seat: &mut ReadSeat, verified: &Verified, key: u64) -> Option<u64>
    requires ready { IsReady table.now seat.old }
    ensures ready { IsReady table.now seat.new }
{
    run(table, seat, verified, key)?.ok()
}

/// Links the keys from 0 up to 999, each with ten times its number and 3 more, and tells how many.
fn link_all(table: &MapTable, writer: &mut Writer) -> u64
    requires table { writer.old.table ≡ table.now }
    requires shape { table.now.shape ≡ TABLE }
    ensures table { writer.new.table ≡ table.now }
{
    for key in 0..1000 {
        if writer.link(table, &[key], &[10 * key + 3]).is_none() {
            return key;
        }
    }
    1000
}

/// How many keys below 1,000 runs found with ten times their number and so much more.
fn count_runs(table: &MapTable, seat: &mut ReadSeat, program: &Verified, more: u64) -> u64
    requires ready { IsReady table.now seat.old }
    requires more { more < 10 }
    ensures ready { IsReady table.now seat.new }
{
    let mut found = 0u64;
    for key in 0..1000 {
        if exit(table, seat, program, key) == Some(10 * key + more) {
            found = found.saturating_add(1);
        }
    }
    found
}

/// How many keys are linked, and how many of them runs find by the first seat and then, each with 1 more, by the second.
fn counts(
    table: &MapTable,
    first: &mut ReadSeat,
    second: &mut ReadSeat,
    writer: &mut Writer,
    count: &Verified,
) -> [u64; 3]
    requires first { IsReady table.now first.old }
    requires second { IsReady table.now second.old }
    requires table { writer.old.table ≡ table.now }
    requires shape { table.now.shape ≡ TABLE }
    ensures first { IsReady table.now first.new }
    ensures second { IsReady table.now second.new }
    ensures table { writer.new.table ≡ table.now }
{
    let linked = link_all(table, writer);
    let loaded = count_runs(table, first, count, 3);
    [linked, loaded, count_runs(table, second, count, 4)]
}

/// Replaces the value of the key 5, and tells whether it was linked.
fn replace(table: &MapTable, writer: &mut Writer) -> bool
    requires table { writer.old.table ≡ table.now }
    requires shape { table.now.shape ≡ TABLE }
    ensures table { writer.new.table ≡ table.now }
{
    let Some(way) = writer.find(table, &[5]) else {
        return false;
    };
    writer.replace(table, way, &[5], &[7000])
}

/// Replaces the value of a key that is linked, and unlinks it. Whether runs find the new value at once, what they stored
/// themselves, and after the unlinking none; and whether the one element of the old value is reclaimed between.
fn is_replaced(table: &MapTable, seat: &mut ReadSeat, writer: &mut Writer, count: &Verified) -> bool
    requires ready { IsReady table.now seat.old }
    requires table { writer.old.table ≡ table.now }
    requires shape { table.now.shape ≡ TABLE }
    ensures ready { IsReady table.now seat.new }
{
    let linked = replace(table, writer);
    let replaced = exit(table, seat, count, 5);
    let again = exit(table, seat, count, 5);
    let reclaimed = writer.reclaim(table);
    let unlinked = unlink_found(table, writer, &[5]).is_some();
    let gone = exit(table, seat, count, 5);
    linked
        && unlinked
        && reclaimed == 1
        && [replaced, again, gone] == [Some(7000), Some(7001), Some(0)]
}

/// Runs find each key's own value, and store one that the next run finds, whichever seat it has. They find none where
/// no key is linked, and a replaced value at once. Whether it is so.
fn are_found(
    table: &MapTable,
    seats: &mut [ReadSeat],
    writer: &mut Writer,
    count: &Verified,
) -> bool
    requires ready { All (IsReady table.now) seats.old }
    requires table { writer.old.table ≡ table.now }
    requires shape { table.now.shape ≡ TABLE }
{
    let Some((first, second)) = two_seats(table, seats) else {
        return false;
    };
    let before = exit(table, first, count, 5);
    let counts = counts(table, first, second, writer, count);
    let missing = exit(table, first, count, 1000);
    let replaced = is_replaced(table, second, writer, count);
    let last = exit(table, first, count, 7);
    replaced && counts == [1000; 3] && [before, missing, last] == [Some(0), Some(0), Some(75)]
}

/// Makes a table, over which the program runs so.
fn run_on_new(alloc: Global, count: &Verified) -> Result<bool, AllocError> {
    let (table, mut seats, mut writer) = MapTable::new(alloc, TABLE)?;
    Ok(are_found(&table, &mut seats.list, &mut writer, count))
}

#[test]
fn runs_load_and_store_values(rt: HostRuntime) -> Result<(), Fail> {
    let count = verified(rt.alloc(), COUNT)?;
    assert!(rt; run_on_new(rt.alloc(), &count)?);
    Ok(())
}

/// Instructions in place of the load, and what the runs come to.
const LOADS: &[(&str, Result<u64, SubWord>)] = &[
    (LOAD, Ok(0x11)),
    ("7109070000000000", Ok(0x88)),
    ("6909020000000000", Ok(0x4433)),
    ("6109040000000000", Ok(0x8877_6655)),
    ("7909000000000000", Ok(0x8877_6655_4433_2211)),
    ("8909060000000000", Ok(0xffff_ffff_ffff_8877)),
    ("7200000009000000", Err(SubWord)),
];

/// Runs with each of these instructions on the key 7.
fn load_each<R: Abort>(
    rt: &R,
    alloc: Global,
    table: &MapTable,
    seat: &mut ReadSeat,
) -> Result<(), Fail>
    requires ready { IsReady table.now seat.old }
{
    for row in LOADS {
        let (load, wanted) = row;
        let found = loaded(alloc, table, seat, load)?;
        assert!(rt; found == Some(*wanted), "{load}");
    }
    Ok(())
}

/// A load by 1, 2, 4 or 8 bytes finds those bytes of the value's word, the lowest first, and a signed one its sign too.
/// A store by fewer than 8 bytes is refused.
#[test]
fn runs_load_bytes_of_words(rt: HostRuntime) -> Result<(), Fail> {
    let (table, mut seats, mut writer) = MapTable::new(rt.alloc(), TABLE)?;
    let linked = writer.link(&table, &[7], &[0x8877_6655_4433_2211]);
    let Some(seat) = seats.list.first_mut() else {
        return Err(Fail::from("no seat"));
    };
    assert!(rt; linked.is_some());
    load_each(&rt, rt.alloc(), &table, seat)
}
