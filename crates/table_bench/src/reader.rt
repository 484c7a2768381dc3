//! The calls of a reader of a `ReadTable`.
ghost use Rattle.std.specs.Prelude.{◌≡◌};
ghost use Rattle.read_table.specs.History.{inside};
ghost use Rattle.read_table.specs.Held.{IsKnown, IsReady};
ghost use Rattle.table_bench.specs.Reads.{HasWordLengths, IsProgramOf};

use bpf_model::CtxBytes;
use read_table::{ReadSeat, ReadTable, uses_sub_words};
use verifier::Verified;

/// How many keys each reader looks up in turn.
pub const KEYS: u64 = 32;

/// How far the keys that are not there lie from those that are.
pub const ABSENT: u64 = 1000;

/// The word of the value of a key, or 0, by a lookup in the section that is open.
#[inline]
fn find(table: &ReadTable, seat: &mut ReadSeat, key: u64) -> u64
    requires table { seat.old.table ≡ table.now }
    requires inside { inside seat.old.view.mine ≡ 1 }
    requires known { IsKnown seat.old.view }
    requires lengths { HasWordLengths table.now.shape }
    ensures table { seat.new.table ≡ table.now }
    ensures inside { inside seat.new.view.mine ≡ 1 }
{
    match table.lookup(seat, &key.to_le_bytes()) {
        Some(slot) => table.load(seat, slot, 1),
        None => 0,
    }
}

/// The same, in a section of its own.
#[inline]
fn look_up(table: &ReadTable, seat: &mut ReadSeat, key: u64) -> u64
    requires ready { IsReady table.now seat.old }
    requires lengths { HasWordLengths table.now.shape }
    ensures ready { IsReady table.now seat.new }
{
    table.open(seat);
    let word = find(table, seat, key);
    table.close(seat);
    word
}

/// Looks up keys from the first one on in turn. The sum of the words that are found.
pub fn look_up_all(table: &ReadTable, seat: &mut ReadSeat, first: u64, calls: u32) -> u64
    requires ready { IsReady table.now seat.old }
    requires lengths { HasWordLengths table.now.shape }
    ensures ready { IsReady table.now seat.new }
{
    let mut sum = 0u64;
    for turn in 0..u64::from(calls) {
        let key = first.wrapping_add(turn % KEYS);
        sum = sum.wrapping_add(look_up(table, seat, key));
    }
    sum
}

/// Runs the program so many times. The sum of its exit values.
pub fn run_all(table: &ReadTable, seat: &mut ReadSeat, program: &Verified, calls: u32) -> u64
    requires ready { IsReady table.now seat.old }
    requires program { IsProgramOf table.now.shape program.now }
    ensures ready { IsReady table.now seat.new }
{
    let ctx = CtxBytes::new();
    let mut sum = 0u64;
    if uses_sub_words(program) {
        return sum;
    }
    for _ in 0..calls {
        sum = sum.wrapping_add(table.run_to_exit(seat, program, &ctx));
    }
    sum
}
