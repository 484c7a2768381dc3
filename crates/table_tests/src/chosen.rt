//! Keys that differ in a few high bits, as one would choose them who wants a multiplying hash to put them together.
ghost use Rattle.std.specs.Prelude.{◌≡◌, ◌<◌, length};
ghost use Rattle.map_table.specs.Values.{stored_of};

use map_table::{MapTable, Secret, TableShape, Values, Writer};
use std::test::Fail;

/// A table of 65,536 elements with keys of six words.
const SIX: TableShape = TableShape {
    readers: 1,
    buckets: 1 << 14,
    elements: 1 << 16,
    key_words: 6,
    value_words: 1,
    values: Values::Shared,
    secret: Secret {
        first: 0x1234_5678_9abc_def0,
        second: 0x0fed_cba9_8765_4321,
    },
};

/// The same with keys of two words.
const TWO: TableShape = TableShape {
    key_words: 2,
    ..SIX
};

/// A word of the key of a number below 32. Where the number has bit i, word i differs in its bit 63, and the next in its bits
/// 63 and 31.
fn word(number: u64, place: u32) -> u64
    requires { place < 6 }
{
    let here = (number % 32 >> place) % 2;
    let before = (2 * (number % 32) >> place) % 2;
    (here << 63) ^ (before << 63) ^ (before << 31)
}

/// Six such words, for a number below 32.
fn six(number: u64) -> [u64; 6] {
    [
        word(number, 0),
        word(number, 1),
        word(number, 2),
        word(number, 3),
        word(number, 4),
        word(number, 5),
    ]
}

/// Two words for a number below 1,024. The first has the number's upper five bits on top. The second has the lower five on
/// top, and once more from bit 27 on. A multiplying hash gives many of these keys one value.
fn two(number: u64) -> [u64; 2] {
    let high = number / 32 % 32;
    let low = number % 32;
    [high << 59, (low << 59) ^ (low << 27)]
}

/// Whether there was room to link a key, by which it is then found.
fn is_linked(table: &MapTable, writer: &mut Writer, key: &[u64]) -> bool
    requires table { writer.old.table ≡ table.now }
    requires key { length key.now ≡ table.now.shape.key_words }
    requires value { stored_of table.now.shape ≡ 1 }
    ensures table { writer.new.table ≡ table.now }
{
    writer.link(table, key, &[1]).is_some() && writer.find(table, key).is_some()
}

/// How many of the 32 keys of six words are linked.
fn count_six(table: &MapTable, writer: &mut Writer) -> u64
    requires table { writer.old.table ≡ table.now }
    requires shape { table.now.shape ≡ SIX }
{
    let mut linked = 0u64;
    for number in 0..32 {
        linked = linked.saturating_add(u64::from(is_linked(table, writer, &six(number))));
    }
    linked
}

/// How many of the 1,024 keys of two words are linked.
fn count_two(table: &MapTable, writer: &mut Writer) -> u64
    requires table { writer.old.table ≡ table.now }
    requires shape { table.now.shape ≡ TWO }
{
    let mut linked = 0u64;
    for number in 0..1024 {
        linked = linked.saturating_add(u64::from(is_linked(table, writer, &two(number))));
    }
    linked
}

/// All are linked. A hash that multiplies, whatever it begins with, leaves out half of either.
#[test]
fn chosen_keys_are_linked(rt: HostRuntime) -> Result<(), Fail> {
    let (table, _, mut writer) = MapTable::new(rt.alloc(), SIX)?;
    assert!(rt; count_six(&table, &mut writer) == 32);
    let (table, _, mut writer) = MapTable::new(rt.alloc(), TWO)?;
    assert!(rt; count_two(&table, &mut writer) == 1024);
    Ok(())
}

/// The text of a shape, as a log may have it, tells nothing of its secret.
#[test]
fn secrets_are_not_told(rt: HostRuntime) -> Result<(), Fail> {
    let text = format!(in rt.alloc(); "{:?}", SIX)?;
    assert!(rt; text.contains("secret: Secret }") && !text.contains("1311768467463790320"));
    Ok(())
}
