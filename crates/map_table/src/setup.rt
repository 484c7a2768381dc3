//! Makes a table, its readers' seats and its writer.
ghost use Rattle.std.specs.Prelude.{◌≡◌, ◌+◌, ◌<◌, ◌≤◌, [], length, vec_capacity, IfOk, OnOk, All};
ghost use Rattle.std.specs.List.{range_with_len};
ghost use Rattle.map_table.specs.Law.{writer_after};
ghost use Rattle.map_table.specs.Held.{AreInOrder, IsReady, IsNew, IsSized};

use crate::seats::Seats;
use crate::table::MapTable;
use crate::writer::Writer;
use atomic_table::Seat;
use std::alloc::{AllocError, Global};
use table_words::{BUCKET_WAYS, SECTION_STRIDE, TableShape, View, zeros};

/// The numbers below `count`, in order.
pub(crate) fn numbers(alloc: Global, count: usize) -> Result<Vec<usize>, AllocError>
    ensures numbers { IfOk result (λ v. v.items ≡ range_with_len 0 count) }
    ensures capacity { IfOk result (λ v. count ≤ vec_capacity v) }
{
    let mut v = Vec::with_capacity(alloc, count)?;
    for i in 0..count {
        v.push_reserved(i);
    }
    Ok(v)
}

/// The seats of all readers, in order.
fn deal_all(
    alloc: Global,
    table: &MapTable,
    writer: &mut Seat<u8, View>,
    readers: usize,
) -> Result<Seats, AllocError>
    requires table { writer.old.table_id ≡ table.now.id }
    requires writer { writer.old.me ≡ (writer_after 0 table.now.shape, []) }
    requires within { readers ≡ table.now.shape.readers }
    ensures table { OnOk result (writer.new.table_id ≡ writer.old.table_id) }
    ensures writer { OnOk result (writer.new.me ≡ (writer_after readers table.now.shape, [])) }
    ensures count { IfOk result (λ s. length s ≡ readers) }
    ensures ready { IfOk result (λ s. All (IsReady table.now) s) }
    ensures new { IfOk result (λ s. All IsNew s) }
    ensures order { IfOk result AreInOrder }
{
    let mut list = Vec::with_capacity(alloc, readers)?;
    for reader in 0..readers {
        list.push_reserved(table.deal(writer, reader));
    }
    Ok(Seats { list })
}

impl MapTable {
    /// A table of this shape, with a seat for each of its readers, and its writer. Nothing is linked, and no seat is left to make.
    /// All memory is taken here: an `Err` says that there was too little, and no later call takes any.
    pub fn new(alloc: Global, shape: TableShape) -> Result<(MapTable, Seats, Writer), AllocError>
        requires sized { IsSized shape }
        ensures shape { IfOk result (λ t. t.0.shape ≡ shape) }
        ensures count { IfOk result (λ t. length t.1 ≡ shape.readers) }
        ensures ready { IfOk result (λ t. All (IsReady t.0) t.1) }
        ensures new { IfOk result (λ t. All IsNew t.1) }
        ensures order { IfOk result (λ t. AreInOrder t.1) }
        ensures writer { IfOk result (λ t. t.2.table ≡ t.0) }
        ensures new_writer { IfOk result (λ t. t.2.view.mine ≡ []) }
        ensures seated { IfOk result (λ t. t.2.view.next ≡ shape.readers + 1) }
        ensures free { IfOk result (λ t. t.2.free ≡ range_with_len 0 shape.elements) }
        ensures unlinked { IfOk result (λ t. t.2.unlinked ≡ []) }
    {
        let (table, mut seat) = MapTable::begin(alloc, shape)?;
        let seats = deal_all(alloc, &table, &mut seat, shape.readers)?;
        let writer = Writer::begin(alloc, seat, shape, shape.readers)?;
        Ok((table, seats, writer))
    }

    /// A table of this shape, and its writer, who makes the readers' seats later (`Writer::seat`). Nothing is linked. All memory is
    /// taken here: an `Err` says that there was too little, and no later call takes any.
    pub fn unseated(alloc: Global, shape: TableShape) -> Result<(MapTable, Writer), AllocError>
        requires sized { IsSized shape }
        ensures shape { IfOk result (λ t. t.0.shape ≡ shape) }
        ensures writer { IfOk result (λ t. t.1.table ≡ t.0) }
        ensures new_writer { IfOk result (λ t. t.1.view.mine ≡ []) }
        ensures unseated { IfOk result (λ t. t.1.view.next ≡ 1) }
        ensures free { IfOk result (λ t. t.1.free ≡ range_with_len 0 shape.elements) }
        ensures unlinked { IfOk result (λ t. t.1.unlinked ≡ []) }
    {
        let (table, seat) = MapTable::begin(alloc, shape)?;
        let writer = Writer::begin(alloc, seat, shape, 0)?;
        Ok((table, writer))
    }

    /// A table on which nothing was done, with the writer's seat.
    fn begin(alloc: Global, shape: TableShape) -> Result<(MapTable, Seat<u8, View>), AllocError>
        requires sized { IsSized shape }
        ensures shape { IfOk result (λ t. t.0.shape ≡ shape) }
        ensures table { IfOk result (λ t. t.1.table_id ≡ t.0.id) }
        ensures writer { IfOk result (λ t. t.1.me ≡ (writer_after 0 shape, [])) }
    {
        let width = shape.width();
        let count = shape.readers * SECTION_STRIDE
            + shape.buckets * BUCKET_WAYS
            + shape.elements * width;
        let words = zeros(alloc, count)?;
        MapTable::of_words(alloc, words.as_slice(), shape)
    }
}
