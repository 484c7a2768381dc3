//! Several maps in one table, each under a name.
ghost use Rattle.std.specs.Prelude.{◌≡◌, ◌<◌, All, length};
ghost use Rattle.map_table.specs.Held.{IsReady};

use crate::map_table_runs::{COUNT, WORDS, context_of, verified_with};
use bpf_model::{MapKind, MapShape};
use map_table::{MapTable, ReadSeat, Secret, TableShape, Values, Writer};
use shared_runs::maps::{NamedMap, SubWord, fits_named, key_in, run_named};
use std::alloc::{AllocError, Global};
use std::test::Fail;
use verifier::Verified;

/// A table for 32 keys of a name and two words, with values of two words.
const TABLE: TableShape = TableShape {
    readers: 2,
    buckets: 8,
    elements: 32,
    key_words: 3,
    value_words: 2,
    values: Values::Shared,
    secret: Secret {
        first: 0x1234_5678_9abc_def0,
        second: 0x0fed_cba9_8765_4321,
    },
};

/// Keys and values of 16 bytes.
const PAIRS: MapShape = MapShape {
    kind: MapKind::Hash,
    key_len: 16,
    value_len: 16,
    entries: 4,
    spare: 4,
    reuse_limit: 100,
};

/// The map of single words.
const SINGLE: NamedMap = NamedMap {
    name: 11,
    key_words: 1,
    value_words: 1,
};

/// The map of pairs of words.
const PAIR: NamedMap = NamedMap {
    name: 22,
    key_words: 2,
    value_words: 2,
};

/// The name of the first map with the lengths of the second.
const SINGLE_OF_TWO: NamedMap = NamedMap {
    name: 11,
    key_words: 2,
    value_words: 2,
};

/// A lookup of the word that the context has in the first map, and of it with a zero in the second. It exits with the sum
/// of what it found: the one value, and the second word of the other.
const SUM: &str = "\
    79160000000000007b6af0ff00000000b7090000000000007b9af8ff000000008520000001000000\
    bfa200000000000007020000f0ffffff185100000000000000000000000000008500000001000000\
    15000100000000007909000000000000bfa200000000000007020000f0ffffff1851000001000000\
    00000000000000008500000001000000150002000000000079080800000000000f89000000000000\
    8520000002000000bf900000000000009500000000000000";

/// Links a value under a key of a map, and tells whether there was room.
fn link(table: &MapTable, writer: &mut Writer, map: &NamedMap, key: &[u64], value: [u64; 2]) -> bool
    requires table { writer.old.table ≡ table.now }
    requires shape { table.now.shape ≡ TABLE }
    requires key { (length key.now ≡ map.now.key_words) × (map.now.key_words < 8) }
    ensures table { writer.new.table ≡ table.now }
{
    let key = key_in(map, key);
    writer.link(table, &key[..3], &value).is_some()
}

/// Links the word 5 in both maps, 6 in the first alone, and 7 in the second alone.
fn link_all(table: &MapTable, writer: &mut Writer) -> bool
    requires table { writer.old.table ≡ table.now }
    requires shape { table.now.shape ≡ TABLE }
{
    let both = link(table, writer, &SINGLE, &[5], [100, 0])
        && link(table, writer, &PAIR, &[5, 0], [1, 2000]);
    both && link(table, writer, &SINGLE, &[6], [300, 0])
        && link(table, writer, &PAIR, &[7, 0], [2, 4000])
}

/// What a run of the program with these maps comes to on this word, if the table keeps them.
fn run(
    table: &MapTable,
    seat: &mut ReadSeat,
    maps: &[NamedMap],
    verified: &Verified,
    word: u64,
) -> Option<Result<u64, SubWord>>
    requires ready { IsReady table.now seat.old }
    ensures ready { IsReady table.now seat.new }
{
    let ctx = context_of(word);
    if !fits_named(table, maps, verified) || ctx.len() != verified.ctx_len() {
        return None;
    }
    Some(run_named(table, seat, maps, verified, &ctx))
}

/// Lists of maps, words, and what a run of the program that sums comes to with these.
const RUNS: &[(&[NamedMap], u64, Option<Result<u64, SubWord>>)] = &[
    (&[SINGLE, PAIR], 5, Some(Ok(2100))),
    (&[SINGLE, PAIR], 6, Some(Ok(300))),
    (&[SINGLE, PAIR], 7, Some(Ok(4000))),
    (&[SINGLE, PAIR], 8, Some(Ok(0))),
    (&[PAIR, SINGLE], 5, None),
    (&[SINGLE], 5, None),
    (&[SINGLE, SINGLE_OF_TWO], 5, None),
];

/// How many of these runs come to that, where the words are linked.
fn count_right(
    table: &MapTable,
    seats: &mut [ReadSeat],
    writer: &mut Writer,
    program: &Verified,
) -> Option<usize>
    requires ready { All (IsReady table.now) seats.old }
    requires table { writer.old.table ≡ table.now }
    requires shape { table.now.shape ≡ TABLE }
{
    let [seat, ..] = seats else {
        return None;
    };
    if !link_all(table, writer) {
        return None;
    }
    let mut right = 0usize;
    for row in RUNS {
        let (maps, word, end) = row;
        if run(table, seat, maps, program, *word) == *end {
            right = right.saturating_add(1);
        }
    }
    Some(right)
}

/// A new table, over which the runs of the one program come to that. Whether it keeps the other program's maps.
fn runs_in_new(
    alloc: Global,
    program: &Verified,
    same: &Verified,
) -> Result<(Option<usize>, bool), AllocError> {
    let (table, mut seats, mut writer) = MapTable::new(alloc, TABLE)?;
    let right = count_right(&table, &mut seats.list, &mut writer, program);
    Ok((right, fits_named(&table, &[SINGLE, SINGLE], same)))
}

/// Two maps of different lengths lie in one table, with the same words of a key in both. A program finds each map's own
/// value, and none where only the other map has the key. It is not run with its maps the other way round, with one, or with
/// two of one name and other lengths. Two of one name and the same lengths are one map.
#[test]
fn each_map_has_its_own_keys(rt: HostRuntime) -> Result<(), Fail> {
    let alloc = rt.alloc();
    let program = verified_with(alloc, SUM, &[WORDS, PAIRS])?;
    let same = verified_with(alloc, COUNT, &[WORDS, WORDS])?;
    let (right, fits) = runs_in_new(alloc, &program, &same)?;
    assert!(rt; right == Some(7) && fits);
    Ok(())
}
