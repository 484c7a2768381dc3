//! Which entry has an index.
ghost use Rattle.std.specs.Prelude.{◌≡◌, length, slice_get};
ghost use Rattle.journal.specs.Rows.{AreStored, all_entries};

use crate::row::Row;
use bpf_model::Entry;

/// The entry of this index: it goes through the rows before its row.
fn find_entry(rows: &[Row], bytes: &[u8], index: usize) -> Option<Entry>
    requires { AreStored rows.now bytes.now }
    ensures { result ≡ slice_get (all_entries bytes.now rows.now) index }
{
    let mut left = index;
    for row in rows {
        let span = row.span();
        if left < span {
            return Some(row.entry(bytes));
        }
        left -= span;
    }
    None
}

/// The entry of this index, counted from 0; `None` past the last. There are so many entries: where they are as
/// many as the rows, each row has one.
pub(crate) fn entry_at(rows: &[Row], bytes: &[u8], total: usize, index: usize) -> Option<Entry>
    requires stored { AreStored rows.now bytes.now }
    requires count { total ≡ length (all_entries bytes.now rows.now) }
    ensures { result ≡ slice_get (all_entries bytes.now rows.now) index }
{
    if rows.len() != total {
        find_entry(rows, bytes, index)
    } else if index < rows.len() {
        Some(rows[index].entry(bytes))
    } else {
        None
    }
}
