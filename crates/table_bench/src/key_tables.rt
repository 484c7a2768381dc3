//! Calls on a table of 65,536 keys, which are looked up without a lock.
ghost use Rattle.std.specs.Prelude.{◌≡◌, IfSome, All};
ghost use Rattle.table_words.specs.History.{inside};
ghost use Rattle.map_table.specs.Held.{IsKnown, IsReady};
ghost use Rattle.map_table.specs.Values.{stored_of};

use anyhow::{Result, bail};
use map_table::{MapTable, ReadSeat, Secret, TableShape, Values, Writer};
use std::alloc::Global;

/// How many keys are linked.
pub const KEYS: u64 = 1 << 16;

/// How many calls a round has.
pub const ROUND: u64 = 1024;

/// A table for these keys and for the values of a round beside them, with twice as many ways as keys, for one reader.
pub const SHAPE: TableShape = TableShape {
    readers: 1,
    buckets: 1 << 14,
    elements: (1 << 16) + (1 << 10),
    key_words: 1,
    value_words: 1,
    values: Values::Shared,
    secret: Secret {
        first: 0x1234_5678_9abc_def0,
        second: 0x0fed_cba9_8765_4321,
    },
};

/// What is done again and again.
#[derive(Clone, Copy)]
enum Deed {
    /// Lookups of keys that are there, each in a section of its own, and a load of the value.
    Hits,
    /// Lookups of keys that are not there, each in a section of its own.
    Misses,
    /// Replacements of values, by the key, and one reclamation.
    Replacements,
}

/// The deed of a name.
fn deed_of(name: &str) -> Option<Deed> {
    match name {
        "map_hit" => Some(Deed::Hits),
        "map_absent" => Some(Deed::Misses),
        "map_replace" => Some(Deed::Replacements),
        _ => None,
    }
}

/// Links the keys from 0 on, each with a value one above it.
pub fn link_all(table: &MapTable, writer: &mut Writer) -> Result<()>
    requires table { writer.old.table ≡ table.now }
    requires key { table.now.shape.key_words ≡ 1 }
    requires value { stored_of table.now.shape ≡ 1 }
    ensures table { writer.new.table ≡ table.now }
{
    for key in 0..KEYS {
        if writer.link(table, &[key], &[key + 1]).is_none() {
            bail!("the table is full");
        }
    }
    Ok(())
}

/// The word of the value of a key, or 0, by a lookup in the section that is open.
#[inline]
fn find(table: &MapTable, seat: &mut ReadSeat, key: u64) -> u64
    requires table { seat.old.table ≡ table.now }
    requires inside { inside seat.old.view.mine ≡ 1 }
    requires known { IsKnown seat.old.view }
    requires key { table.now.shape.key_words ≡ 1 }
    requires value { stored_of table.now.shape ≡ 1 }
    ensures table { seat.new.table ≡ table.now }
    ensures inside { inside seat.new.view.mine ≡ 1 }
{
    match table.lookup(seat, &[key]) {
        Some(element) => table.load(seat, element, 1),
        None => 0,
    }
}

/// The same, in a section of its own.
#[inline]
fn look_up(table: &MapTable, seat: &mut ReadSeat, key: u64) -> u64
    requires ready { IsReady table.now seat.old }
    requires key { table.now.shape.key_words ≡ 1 }
    requires value { stored_of table.now.shape ≡ 1 }
    ensures ready { IsReady table.now seat.new }
{
    table.open(seat);
    let word = find(table, seat, key);
    table.close(seat);
    word
}

/// Looks up the keys of a round, from the first one on. The sum of the words that are found.
pub fn look_up_all(table: &MapTable, seat: &mut ReadSeat, first: u64) -> u64
    requires ready { IsReady table.now seat.old }
    requires key { table.now.shape.key_words ≡ 1 }
    requires value { stored_of table.now.shape ≡ 1 }
    ensures ready { IsReady table.now seat.new }
{
    let mut sum = 0u64;
    for turn in 0..ROUND {
        let word = look_up(table, seat, first.wrapping_add(turn));
        sum = sum.wrapping_add(word);
    }
    sum
}

/// Replaces the value of a key, if it is linked. How many were replaced.
#[inline]
fn replace(table: &MapTable, writer: &mut Writer, key: u64) -> u64
    requires table { writer.old.table ≡ table.now }
    requires key { table.now.shape.key_words ≡ 1 }
    requires value { stored_of table.now.shape ≡ 1 }
    ensures table { writer.new.table ≡ table.now }
{
    let Some(way) = writer.find(table, &[key]) else {
        return 0;
    };
    u64::from(writer.replace(table, way, &[key], &[key]))
}

/// Replaces the values of a round, and reclaims. How many were replaced.
pub fn replace_all(table: &MapTable, writer: &mut Writer) -> u64
    requires table { writer.old.table ≡ table.now }
    requires key { table.now.shape.key_words ≡ 1 }
    requires value { stored_of table.now.shape ≡ 1 }
    ensures table { writer.new.table ≡ table.now }
{
    let mut sum = 0u64;
    for key in 0..ROUND {
        sum = sum.wrapping_add(replace(table, writer, key));
    }
    writer.reclaim(table);
    sum
}

/// The sum of what so many rounds come to.
fn rounds(table: &MapTable, seat: &mut ReadSeat, writer: &mut Writer, deed: Deed, times: u32) -> u64
    requires ready { IsReady table.now seat.old }
    requires table { writer.old.table ≡ table.now }
    requires key { table.now.shape.key_words ≡ 1 }
    requires value { stored_of table.now.shape ≡ 1 }
{
    let mut sum = 0u64;
    for _ in 0..times {
        let more = match deed {
            Deed::Hits => look_up_all(table, seat, 0),
            Deed::Misses => look_up_all(table, seat, KEYS),
            Deed::Replacements => replace_all(table, writer),
        };
        sum = sum.wrapping_add(more);
    }
    sum
}

/// The sum of what so many rounds of the calls of this name come to, or `None` where there are none of this name.
pub fn repeat_map_calls(alloc: Global, name: &str, times: u32) -> Result<Option<u64>> {
    let Some(deed) = deed_of(name) else {
        return Ok(None);
    };
    let (table, seats, mut writer) = MapTable::new(alloc, SHAPE)?;
    link_all(&table, &mut writer)?;
    let mut list = seats.list;
    let Some(seat) = list.first_mut() else {
        bail!("no seat");
    };
    Ok(Some(rounds(&table, seat, &mut writer, deed, times)))
}
