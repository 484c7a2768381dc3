//! What the writer reads of an element, and what a reader meets that goes through all ways.
ghost use Rattle.std.specs.Prelude.{◌≡◌, ◌<◌, All};
ghost use Rattle.table_words.specs.History.{inside};
ghost use Rattle.map_table.specs.Held.{IsKnown, IsReady};

use map_table::{BUCKET_WAYS, MapTable, ReadSeat, Secret, TableShape, Values, Writer};
use std::test::Fail;

/// A table of sixteen ways, for eight keys, with a value of two words for each of two readers.
const WALKED: TableShape = TableShape {
    readers: 2,
    buckets: 2,
    elements: 8,
    key_words: 1,
    value_words: 2,
    values: Values::PerReader,
    secret: Secret {
        first: 0x1234_5678_9abc_def0,
        second: 0x0fed_cba9_8765_4321,
    },
};

/// Reads an empty way, links a key, and reads its way: whether each names an element, and the words of its values.
fn read_values(table: &MapTable, writer: &mut Writer) -> Option<(bool, bool, [u64; 4])>
    requires table { writer.old.table ≡ table.now }
    requires shape { table.now.shape ≡ WALKED }
{
    let mut words = [0; 4];
    let empty = writer.value_at(table, 0, &mut words);
    let way = writer.link(table, &[7], &[10, 20, 30, 40])?;
    let linked = writer.value_at(table, way, &mut words);
    Some((empty, linked, words))
}

/// The writer reads the values of all readers, in order.
#[test]
fn values_are_read(rt: HostRuntime) -> Result<(), Fail> {
    let (table, _, mut writer) = MapTable::new(rt.alloc(), WALKED)?;
    let read = read_values(&table, &mut writer);
    assert!(rt; read == Some((false, true, [10, 20, 30, 40])));
    Ok(())
}

/// The key that the reader meets in a way, in the section that is open.
fn key_in(table: &MapTable, seat: &mut ReadSeat, way: usize) -> Option<u64>
    requires table { seat.old.table ≡ table.now }
    requires inside { inside seat.old.view.mine ≡ 1 }
    requires known { IsKnown seat.old.view }
    requires shape { table.now.shape ≡ WALKED }
    requires way { way < 16 }
    ensures table { seat.new.table ≡ table.now }
    ensures inside { inside seat.new.view.mine ≡ 1 }
    ensures known { IsKnown seat.new.view }
{
    let mut key = [0];
    table.meet(seat, way, &mut key)?;
    Some(key[0])
}

/// How many keys the reader meets in all ways, in a section of its own, and their sum.
fn walk(table: &MapTable, seat: &mut ReadSeat) -> [u64; 2]
    requires ready { IsReady table.now seat.old }
    requires shape { table.now.shape ≡ WALKED }
    ensures ready { IsReady table.now seat.new }
{
    let (mut met, mut sum) = (0u64, 0u64);
    table.open(seat);
    for way in 0..WALKED.buckets * BUCKET_WAYS {
        if let Some(key) = key_in(table, seat, way) {
            met = met.wrapping_add(1);
            sum = sum.wrapping_add(key);
        }
    }
    table.close(seat);
    [met, sum]
}

/// Links three keys, and walks: what the first reader meets.
fn link_and_walk(table: &MapTable, seats: &mut [ReadSeat], writer: &mut Writer) -> Option<[u64; 2]>
    requires ready { All (IsReady table.now) seats.old }
    requires table { writer.old.table ≡ table.now }
    requires shape { table.now.shape ≡ WALKED }
{
    let [seat, ..] = seats else {
        return None;
    };
    writer.link(table, &[7], &[0; 4])?;
    writer.link(table, &[9], &[0; 4])?;
    writer.link(table, &[12], &[0; 4])?;
    Some(walk(table, seat))
}

/// A reader that goes through all ways meets each key once.
#[test]
fn walk_meets_each_key(rt: HostRuntime) -> Result<(), Fail> {
    let (table, mut seats, mut writer) = MapTable::new(rt.alloc(), WALKED)?;
    let met = link_and_walk(&table, &mut seats.list, &mut writer);
    assert!(rt; met == Some([3, 28]));
    Ok(())
}
