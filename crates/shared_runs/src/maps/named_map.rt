//! Maps of programs in one table: a map is a name.
ghost use Rattle.std.specs.Prelude.{◌≡◌, ℕ, ◌*◌, ◌<◌, All, Decides, List, length};
ghost use Rattle.bpf_model.specs.declared.limits.MapKind.TheVariants.{Hash};
ghost use Rattle.map_table.specs.Held.{IsSized};
ghost use Rattle.map_table.specs.Limits.{most_words};
ghost use Rattle.shared_runs.specs.Named.{AgreeByName, AgreesWith, AreKept, IsKeyUnder, IsRoomFor, KeepsNamed};
ghost use Rattle.shared_runs.specs.MapTables.{AreBytesOf};

use crate::lengths::WORD_BYTES;
use crate::maps::key_words::words_of;
use bpf_model::{MapKind, MapShape};
use map_table::{MAX_WORDS, TableShape};

/// How a map of a program is kept in a table: under a name, with keys and values of so many words.
///
/// Maps of different names have no key in common. Programs share a map by its name, and give it the same lengths: in one list
/// `fits_named` asks for it.
#[derive(Clone, Copy, Debug, PartialEq, Eq)]
pub struct NamedMap {
    pub name: u64,
    pub key_words: usize,
    pub value_words: usize,
}

/// The table's key for a key of the map, in `MAX_WORDS` words: the name, the key's words in order, and zeros. As many of them as
/// the table's keys have, from the first on, are what `MapTable` links and finds.
#[inline]
pub fn key_in(map: &NamedMap, key: &[u64]) -> [u64; MAX_WORDS]
    requires few { map.now.key_words < most_words }
    requires key { length key.now ≡ map.now.key_words }
    ensures long { length result ≡ most_words }
    ensures under { IsKeyUnder map.now.name key.now result }
{
    let mut words = [0; MAX_WORDS];
    words[0] = map.name;
    for place in 0..key.len() {
        words[place + 1] = key[place];
    }
    words
}

/// The same for a key of so many words that is given by its bytes.
#[inline]
pub(crate) fn key_of_bytes(map: &NamedMap, key: &[u8]) -> [u64; MAX_WORDS]
    requires few { map.now.key_words < most_words }
    requires key { length key.now ≡ 8 * map.now.key_words }
    ensures long { length result ≡ most_words }
    ensures under { (words : List ℕ) × AreBytesOf words key.now × IsKeyUnder map.now.name words result }
{
    let words = words_of(key, map.key_words);
    key_in(map, &words[..map.key_words])
}

/// Whether a map of this shape is a hash map that the table has room for under the name.
fn has_room(table: &TableShape, map: &NamedMap, shape: &MapShape) -> bool
    requires sized { IsSized table.now }
    ensures { Decides result (IsRoomFor table.now map.now shape.now × (shape.now.kind ≡ Hash)) }
{
    map.key_words < table.key_words
        && map.value_words <= table.value_words
        && shape.key_len == WORD_BYTES * map.key_words
        && shape.value_len == WORD_BYTES * map.value_words
        && shape.kind == MapKind::Hash
}

/// Whether the list names a map at this index, it is a hash map of this shape, and the table has room for it.
fn is_kept(table: &TableShape, maps: &[NamedMap], index: usize, shape: &MapShape) -> bool
    requires sized { IsSized table.now }
    ensures { Decides result (KeepsNamed table.now maps.now index shape.now × (shape.now.kind ≡ Hash)) }
{
    match maps.get(index) {
        Some(map) => has_room(table, map, shape),
        None => false,
    }
}

/// Whether the list names a map for each of these shapes, and the table has room for it.
pub(crate) fn have_room(table: &TableShape, maps: &[NamedMap], shapes: &[MapShape]) -> bool
    requires sized { IsSized table.now }
    ensures { Decides result (AreKept table.now maps.now shapes.now) }
{
    for index in 0..shapes.len() {
        if !is_kept(table, maps, index, &shapes[index]) {
            return false;
        }
    }
    true
}

/// Whether another map has another name, or the same lengths.
fn agrees_with(map: &NamedMap, other: &NamedMap) -> bool
    ensures { Decides result (AgreesWith map.now other.now) }
{
    other.name != map.name
        || (other.key_words == map.key_words && other.value_words == map.value_words)
}

/// Whether those of the list that have the map's name have its lengths.
fn agree_with(map: &NamedMap, maps: &[NamedMap]) -> bool
    ensures { Decides result (All (AgreesWith map.now) maps.now) }
{
    maps.iter().all(|other| agrees_with(map, other))
}

/// Whether maps of one name have the same lengths.
pub(crate) fn agree_by_name(maps: &[NamedMap]) -> bool
    ensures { Decides result (AgreeByName maps.now) }
{
    maps.iter().all(|map| agree_with(map, maps))
}
