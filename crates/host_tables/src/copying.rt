//! How the keys of one table are copied into another.
ghost use Rattle.std.specs.Prelude.{◌≡◌, ◌<◌, ℕ, List, OnOk, IfErr, length, true, false};
ghost use Rattle.map_table.specs.Law.{ways_of};
ghost use Rattle.map_table.specs.Values.{stored_of};
ghost use Rattle.map_table.specs.Writing.{WriterView};
ghost use Rattle.host_tables.specs.Copies.{AreAlike, AreAllThere, IsFoundBehind, Copies, CopiesWay, LoadsValues, StopsAt, StopsCopying};
ghost use Rattle.host_tables.specs.Tables.{IsTidy};
ghost use Rattle.host_tables.specs.Walks.{LoadsKey};
ghost use Rattle.table_words.specs.Found.{IsLinkedUnder};
ghost use Rattle.table_words.specs.History.{word_in};
ghost use Rattle.map_table.specs.Hashes.{layout_of};
ghost use Rattle.map_table.specs.Held.{IsKnown};
ghost use Rattle.table_words.specs.declared.view.TableShape.{TableShape as ShapeOf};
ghost use Rattle.table_words.specs.declared.view.View.{View};

use crate::fault::{How, SetFault};
use crate::writing::set_asked;
use map_table::{BUCKET_WAYS, MAX_READERS, MAX_WORDS, MapTable, Writer};

/// The most words that all values of an element have.
const MAX_STORED: usize = MAX_WORDS * MAX_READERS;

/// Loads the key of a way, and the words of all values of its element. False where the way is empty, and then nothing is done.
fn load_way(
    table: &MapTable,
    writer: &mut Writer,
    way: usize,
    key: &mut [u64],
    words: &mut [u64],
) -> bool
    requires table { writer.old.table ≡ table.now }
    requires way { way < ways_of table.now.shape }
    requires key { length key.old ≡ table.now.shape.key_words }
    requires words { length words.old ≡ stored_of table.now.shape }
    ensures table { writer.new.table ≡ writer.old.table }
    ensures loads { result ≡ true → (met : WriterView) × LoadsKey way key.new writer.old met
        × LoadsValues way words.new met writer.new }
    ensures none { result ≡ false → (word_in way writer.old.view.mine ≡ 0) × (writer.new ≡ writer.old) }
    ensures key_count { length key.new ≡ length key.old }
    ensures word_count { length words.new ≡ length words.old }
    ensures tidy { IsTidy writer.old → IsTidy writer.new }
{
    writer.is_writers();
    if !writer.key_at(table, way, key) {
        return false;
    }
    writer.is_writers();
    writer.value_at(table, way, words)
}

/// Copies the key of a way, with the values of its element, if there is one, by these words.
#[tactic(auto, using(crate::proofs::Kept::alike_stored))]
fn copy_way(
    table: &MapTable,
    writer: &mut Writer,
    way: usize,
    other: &MapTable,
    other_writer: &mut Writer,
    key: &mut [u64],
    words: &mut [u64],
) -> Result<(), SetFault>
    requires table { writer.old.table ≡ table.now }
    requires other { other_writer.old.table ≡ other.now }
    requires alike { AreAlike table.now.shape other.now.shape }
    requires way { way < ways_of table.now.shape }
    requires key { length key.old ≡ table.now.shape.key_words }
    requires words { length words.old ≡ stored_of table.now.shape }
    ensures table { writer.new.table ≡ writer.old.table }
    ensures other { other_writer.new.table ≡ other_writer.old.table }
    ensures copies { OnOk result (CopiesWay way writer.old other_writer.old writer.new other_writer.new) }
    ensures fault { IfErr result (StopsAt way writer.old other_writer.old writer.new other_writer.new) }
    ensures key_count { length key.new ≡ length key.old }
    ensures word_count { length words.new ≡ length words.old }
    ensures tidy { IsTidy writer.old → IsTidy writer.new }
    ensures other_tidy { IsTidy other_writer.old → IsTidy other_writer.new }
{
    if !load_way(table, writer, way, key, words) {
        return Ok(());
    }
    set_asked(other, other_writer, key, words, How::Any)
}

/// Copies all keys.
pub(crate) fn copy_all(
    table: &MapTable,
    writer: &mut Writer,
    other: &MapTable,
    other_writer: &mut Writer,
) -> Result<(), SetFault>
    requires table { writer.old.table ≡ table.now }
    requires other { other_writer.old.table ≡ other.now }
    requires alike { AreAlike table.now.shape other.now.shape }
    ensures table { writer.new.table ≡ writer.old.table }
    ensures other { other_writer.new.table ≡ other_writer.old.table }
    ensures copies { OnOk result (Copies (ways_of table.now.shape) writer.old other_writer.old writer.new other_writer.new) }
    ensures fault { IfErr result (StopsCopying table.now.shape writer.old other_writer.old writer.new other_writer.new) }
    ensures tidy { IsTidy writer.old → IsTidy writer.new }
    ensures other_tidy { IsTidy other_writer.old → IsTidy other_writer.new }
{
    let shape = table.shape();
    let mut key_words = [0; MAX_WORDS];
    let mut value_words = [0; MAX_STORED];
    let key = &mut key_words[..shape.key_words];
    let words = &mut value_words[..shape.stored_words()];
    for way in 0..shape.buckets * BUCKET_WAYS {
        copy_way(table, writer, way, other, other_writer, key, words)?;
    }
    Ok(())
}

/// A law of growth. Once `HostTable::copy_to` has copied a table into a larger one, no lookup in either misses a key that was copied,
/// if the lookup's history goes on from the writer's, and while the writer only replaces and moves what is linked under the key
/// (`OnlyKeeps`). The history of a reader that is opened after the copy goes on so (`HostTable::reader`). So a thread may change over to
/// such a reader between any two of its sections.
pub fn copied_keys_are_found()
    ensures { (k l : ShapeOf) (w b : WriterView) → AreAllThere k l w b →
        (key : List ℕ) (way : ℕ) → way < ways_of k → IsLinkedUnder (layout_of k) 0 key way w.view.seen →
        (u v : View) → u.shape ≡ k → IsKnown u → v.shape ≡ l → IsKnown v →
        IsFoundBehind k key w.view.seen u × IsFoundBehind l key b.view.seen v }
{}
