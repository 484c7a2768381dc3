//! What the calls of a table's writer are made of.
ghost use Rattle.std.specs.Prelude.{◌≡◌, ◌≢◌, ◌<◌, ◌≤◌, ℕ, List, Option, Some, None, IfSome, IfErr, OnOk, length, true, false};
ghost use Rattle.map_table.specs.Values.{stored_of};
ghost use Rattle.map_table.specs.Law.{ways_of};
ghost use Rattle.map_table.specs.Writing.{Works};
ghost use Rattle.table_words.specs.declared.moves.Move.{Move};
ghost use Rattle.host_tables.specs.Tables.{Finds, FindsNoRoom, IsNoRoom, IsNotSet, IsTidy, LinksNew, MakesRoom, PutsUnder, PutsWithRoom, Reclaims, Replaces, Seeks, Sets, SumsUp, Unlinks, needed_for};
ghost use Rattle.table_words.specs.History.{word_in};

use crate::fault::{How, SetFault};
use map_table::{MapTable, Room, Writer};

/// How many elements are to be free for a value under a key that was found in this way, or in none.
fn needed(found: Option<usize>) -> usize
    ensures { result ≡ needed_for found }
{
    match found {
        Some(_) => 1,
        None => 2,
    }
}

/// Whether so many are free.
fn has_room(writer: &Writer, found: Option<usize>) -> bool
    ensures room { result ≡ true → needed_for found ≤ length writer.now.free }
    ensures few { result ≡ false → length writer.now.free < needed_for found }
{
    needed(found) <= writer.free().len()
}

/// Frees the elements that were unlinked and that no reader can hold any more: how many.
pub(crate) fn reclaim(table: &MapTable, writer: &mut Writer) -> usize
    requires table { writer.old.table ≡ table.now }
    ensures table { writer.new.table ≡ writer.old.table }
    ensures reclaimed { (gone : List ℕ) × (length gone ≡ result) × Reclaims gone writer.old writer.new }
    ensures finds { (key : List ℕ) (found : Option ℕ) → Finds table.now.shape key found writer.old →
        Finds table.now.shape key found writer.new }
    ensures tidy { IsTidy writer.old → IsTidy writer.new }
{
    writer.is_writers();
    writer.reclaim(table)
}

/// Reclaims what may be, where fewer elements are free than are needed.
fn make_room(table: &MapTable, writer: &mut Writer, found: Option<usize>)
    requires table { writer.old.table ≡ table.now }
    ensures table { writer.new.table ≡ writer.old.table }
    ensures room { MakesRoom (needed_for found) writer.old writer.new }
    ensures finds { (key : List ℕ) → Finds table.now.shape key found writer.old →
        Finds table.now.shape key found writer.new }
    ensures tidy { IsTidy writer.old → IsTidy writer.new }
{
    if has_room(writer, found) {
        return;
    }
    reclaim(table, writer);
}

/// Seeks a key: a way in which it is linked, or none where it is not.
pub(crate) fn seek(table: &MapTable, writer: &mut Writer, key: &[u64]) -> Option<usize>
    requires table { writer.old.table ≡ table.now }
    requires key { length key.now ≡ table.now.shape.key_words }
    ensures table { writer.new.table ≡ writer.old.table }
    ensures seeks { Seeks key.now result writer.old writer.new }
    ensures finds { Finds table.now.shape key.now result writer.new }
    ensures within { IfSome result (λ way. way < ways_of table.now.shape) }
    ensures bears { IfSome result (λ way. word_in way writer.new.view.mine ≢ 0) }
    ensures tidy { IsTidy writer.old → IsTidy writer.new }
{
    writer.is_writers();
    writer.find(table, key)
}

/// Links a value under a new key. Where both buckets of the key are full, it moves an element out of them first, if it can.
fn link_new(
    table: &MapTable,
    writer: &mut Writer,
    key: &[u64],
    value: &[u64],
) -> Result<(), SetFault>
    requires table { writer.old.table ≡ table.now }
    requires key { length key.now ≡ table.now.shape.key_words }
    requires value { length value.now ≡ stored_of table.now.shape }
    requires room { needed_for None ≤ length writer.old.free }
    requires finds { Finds table.now.shape key.now None writer.old }
    ensures table { writer.new.table ≡ writer.old.table }
    ensures put { OnOk result (LinksNew key.now value.now writer.old writer.new) }
    ensures fault { IfErr result (IsNoRoom key.now None writer.old writer.new) }
    ensures tidy { IsTidy writer.old → IsTidy writer.new }
{
    writer.is_writers();
    if let Some(_) = writer.link(table, key, value) {
        return Ok(());
    }
    match writer.make_room(table, key) {
        Room::Held => return Err(SetFault::Held),
        Room::Full => return Err(SetFault::NoWay),
        Room::Made => {}
    }
    writer.is_writers();
    let Some(_) = writer.link(table, key, value) else {
        return Err(SetFault::NoWay);
    };
    Ok(())
}

/// Puts another value under a key that is linked in this way.
fn replace(
    table: &MapTable,
    writer: &mut Writer,
    way: usize,
    key: &[u64],
    value: &[u64],
) -> Result<(), SetFault>
    requires table { writer.old.table ≡ table.now }
    requires key { length key.now ≡ table.now.shape.key_words }
    requires value { length value.now ≡ stored_of table.now.shape }
    requires room { needed_for (Some way) ≤ length writer.old.free }
    requires within { way < ways_of table.now.shape }
    requires finds { Finds table.now.shape key.now (Some way) writer.old }
    ensures table { writer.new.table ≡ writer.old.table }
    ensures put { OnOk result (Replaces way key.now value.now writer.old writer.new) }
    ensures fault { IfErr result (λ e. ⊥) }
    ensures tidy { IsTidy writer.old → IsTidy writer.new }
{
    writer.is_writers();
    if writer.replace(table, way, key, value) {
        Ok(())
    } else {
        Err(SetFault::NoElement)
    }
}

/// Puts a value under a key that was found in this way, or in none.
fn put_under(
    table: &MapTable,
    writer: &mut Writer,
    found: Option<usize>,
    key: &[u64],
    value: &[u64],
) -> Result<(), SetFault>
    requires table { writer.old.table ≡ table.now }
    requires key { length key.now ≡ table.now.shape.key_words }
    requires value { length value.now ≡ stored_of table.now.shape }
    requires within { IfSome found (λ way. way < ways_of table.now.shape) }
    requires finds { Finds table.now.shape key.now found writer.old }
    ensures table { writer.new.table ≡ writer.old.table }
    ensures put { OnOk result (PutsUnder found key.now value.now writer.old writer.new) }
    ensures fault { IfErr result (IsNoRoom key.now found writer.old writer.new) }
    ensures tidy { IsTidy writer.old → IsTidy writer.new }
{
    if !has_room(writer, found) {
        return Err(SetFault::NoElement);
    }
    match found {
        Some(way) => replace(table, writer, way, key, value),
        None => link_new(table, writer, key, value),
    }
}

/// Makes room, and puts a value under a key that was found in this way, or in none.
pub(crate) fn set_found(
    table: &MapTable,
    writer: &mut Writer,
    found: Option<usize>,
    key: &[u64],
    value: &[u64],
) -> Result<(), SetFault>
    requires table { writer.old.table ≡ table.now }
    requires key { length key.now ≡ table.now.shape.key_words }
    requires value { length value.now ≡ stored_of table.now.shape }
    requires within { IfSome found (λ way. way < ways_of table.now.shape) }
    requires finds { Finds table.now.shape key.now found writer.old }
    ensures table { writer.new.table ≡ writer.old.table }
    ensures put { OnOk result (PutsWithRoom found key.now value.now writer.old writer.new) }
    ensures fault { IfErr result (FindsNoRoom key.now found writer.old writer.new) }
    ensures tidy { IsTidy writer.old → IsTidy writer.new }
{
    make_room(table, writer, found);
    put_under(table, writer, found, key, value)
}

/// Sets a key that is asked for, and says why it does not.
pub(crate) fn set_asked(
    table: &MapTable,
    writer: &mut Writer,
    key: &[u64],
    value: &[u64],
    how: How,
) -> Result<(), SetFault>
    requires table { writer.old.table ≡ table.now }
    requires key { length key.now ≡ table.now.shape.key_words }
    requires value { length value.now ≡ stored_of table.now.shape }
    ensures table { writer.new.table ≡ writer.old.table }
    ensures set { OnOk result (Sets key.now value.now how writer.old writer.new) }
    ensures fault { IfErr result (IsNotSet key.now how writer.old writer.new) }
    ensures tidy { IsTidy writer.old → IsTidy writer.new }
{
    let found = seek(table, writer, key);
    match (found, how) {
        (Some(_), How::New) => Err(SetFault::Exists),
        (None, How::Present) => Err(SetFault::Missing),
        _ => set_found(table, writer, found, key, value),
    }
}

/// Empties a way that names an element.
pub(crate) fn unlink(table: &MapTable, writer: &mut Writer, way: usize)
    requires table { writer.old.table ≡ table.now }
    requires way { way < ways_of table.now.shape }
    requires linked { word_in way writer.old.view.mine ≢ 0 }
    ensures table { writer.new.table ≡ writer.old.table }
    ensures unlinks { Unlinks way writer.old writer.new }
    ensures tidy { IsTidy writer.old → IsTidy writer.new }
{
    writer.is_writers();
    writer.unlink(table, way);
}

/// Sums up the values of an element, place by place.
pub(crate) fn read_sums(table: &MapTable, writer: &mut Writer, element: usize, sums: &mut [u64])
    requires table { writer.old.table ≡ table.now }
    requires element { element < table.now.shape.elements }
    requires count { length sums.old ≡ table.now.shape.value_words }
    ensures table { writer.new.table ≡ writer.old.table }
    ensures free { writer.new.free ≡ writer.old.free }
    ensures unlinked { writer.new.unlinked ≡ writer.old.unlinked }
    ensures count { length sums.new ≡ length sums.old }
    ensures total { (ms : List Move) × Works writer.old ms writer.new
        × SumsUp table.now.shape element table.now.shape.value_words sums.new ms }
    ensures tidy { IsTidy writer.old → IsTidy writer.new }
{
    writer.is_writers();
    for place in 0..sums.len() {
        sums[place] = writer.sum(table, element, place);
    }
}
