//! Makes a table, its readers' seats and its writer.
ghost use Rattle.std.specs.Prelude.{◌≡◌, ◌<◌, ◌≤◌, ◌/◌, [], length, IfOk, OnOk, All};
ghost use Rattle.std.specs.List.{range_with_len};
ghost use Rattle.read_table.specs.Law.{writer_after};
ghost use Rattle.read_table.specs.Limits.{most_table_slots, most_readers, word_bytes};
ghost use Rattle.read_table.specs.Held.{AreInOrder, IsTableLength, IsReady, IsNew, IsSized};

use crate::limits::WORD_BYTES;
use crate::seats::Seats;
use crate::table::{ReadSeat, ReadTable};
use crate::writer::Writer;
use crate::{TableShape, View};
use atomic_table::Seat;
use std::alloc::{AllocError, Global};
use table_words::{SECTION_STRIDE, zeros};

/// The seats of all readers, in order.
fn deal_all(
    alloc: Global,
    table: &ReadTable,
    writer: &mut Seat<u8, View>,
    readers: usize,
) -> Result<Seats, AllocError>
    requires table { writer.old.table_id ≡ table.now.id }
    requires writer { writer.old.me ≡ (writer_after 0 table.now.shape, []) }
    requires within { readers ≡ table.now.shape.readers }
    ensures table { OnOk result (writer.new.table_id ≡ writer.old.table_id) }
    ensures writer { OnOk result (writer.new.me ≡ (writer_after readers table.now.shape, [])) }
    ensures count { IfOk result (λ s. length s ≡ readers) }
    ensures ready { IfOk result (λ s. All (IsReady table.now) s) }
    ensures new { IfOk result (λ s. All IsNew s) }
    ensures order { IfOk result AreInOrder }
{
    let mut list = Vec::with_capacity(alloc, readers)?;
    for reader in 0..readers {
        list.push_reserved(table.deal(writer, reader));
    }
    Ok(Seats { list })
}

impl ReadTable {
    /// A table of 1 to `MAX_TABLE_SLOTS` slots, with seats for 1 to `MAX_READERS` readers, and its writer. Keys and values
    /// have 8 to `MAX_TABLE_BYTES` bytes each, in whole words. Nothing is linked. All memory is taken here: an `Err` says
    /// that there was too little, and no later call takes any.
    pub fn new(
        alloc: Global,
        slots: usize,
        key_len: usize,
        value_len: usize,
        readers: usize,
    ) -> Result<(ReadTable, Seats, Writer), AllocError>
        requires slots { (0 < slots) × (slots ≤ most_table_slots) }
        requires key { IsTableLength key_len }
        requires value { IsTableLength value_len }
        requires readers { (0 < readers) × (readers ≤ most_readers) }
        ensures shape { IfOk result (λ t. t.0.shape ≡ record {
          readers = readers;
          slots = slots;
          key_words = key_len / word_bytes;
          value_words = value_len / word_bytes;
        }) }
        ensures count { IfOk result (λ t. length t.1 ≡ readers) }
        ensures ready { IfOk result (λ t. All (IsReady t.0) t.1) }
        ensures new { IfOk result (λ t. All IsNew t.1) }
        ensures order { IfOk result (λ t. AreInOrder t.1) }
        ensures writer { IfOk result (λ t. t.2.table ≡ t.0) }
        ensures new_writer { IfOk result (λ t. t.2.view.mine ≡ []) }
        ensures free { IfOk result (λ t. t.2.free ≡ range_with_len 0 slots) }
        ensures linked { IfOk result (λ t. t.2.linked ≡ []) }
        ensures unlinked { IfOk result (λ t. t.2.unlinked ≡ []) }
    {
        let shape = TableShape {
            readers,
            slots,
            key_words: key_len / WORD_BYTES,
            value_words: value_len / WORD_BYTES,
        };
        let (table, mut seat) = ReadTable::begin(alloc, shape)?;
        let seats = deal_all(alloc, &table, &mut seat, readers)?;
        let writer = Writer::begin(alloc, seat, slots)?;
        Ok((table, seats, writer))
    }

    /// A table on which nothing was done, with the writer's seat.
    fn begin(alloc: Global, shape: TableShape) -> Result<(ReadTable, Seat<u8, View>), AllocError>
        requires sized { IsSized shape }
        ensures shape { IfOk result (λ t. t.0.shape ≡ shape) }
        ensures table { IfOk result (λ t. t.1.table_id ≡ t.0.id) }
        ensures writer { IfOk result (λ t. t.1.me ≡ (writer_after 0 shape, [])) }
    {
        let width = shape.key_words + shape.value_words;
        let count = shape.readers * SECTION_STRIDE + shape.slots + shape.slots * width;
        let words = zeros(alloc, count)?;
        ReadTable::of_words(alloc, words.as_slice(), shape)
    }
}
