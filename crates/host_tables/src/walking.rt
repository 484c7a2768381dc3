//! How the writer of a table walks over its keys.
ghost use Rattle.std.specs.Prelude.{◌≡◌, ℕ, ◌<◌, ◌≤◌, List, Option, IfSome, option_copied, length, true, false};
ghost use Rattle.map_table.specs.Law.{ways_of};
ghost use Rattle.host_tables.specs.Tables.{IsTidy};
ghost use Rattle.host_tables.specs.Walks.{AreEmpty, IsFirst, IsKeyWalk, IsWalk, LoadsKey, Meeting, MetOnce, NeverEmpty, SeeksGiven, StaysLinked, behind, times_met};
ghost use Rattle.table_words.specs.declared.view.TableShape.{TableShape as ShapeOf};
ghost use Rattle.table_words.specs.declared.moves.Move.{Move};

use crate::writing::seek;
use map_table::{BUCKET_WAYS, MapTable, Writer};

/// Where the ways begin that come behind a key: at the first of all, where no key is given or it is not linked.
pub(crate) fn start_behind(table: &MapTable, writer: &mut Writer, key: Option<&[u64]>) -> usize
    requires table { writer.old.table ≡ table.now }
    requires key { IfSome (option_copied key) (λ k. length k ≡ table.now.shape.key_words) }
    ensures table { writer.new.table ≡ writer.old.table }
    ensures seeks { (found : Option ℕ) × SeeksGiven (option_copied key.entry) found writer.old writer.new
        × (result ≡ behind found) }
    ensures within { result ≤ ways_of table.now.shape }
    ensures tidy { IsTidy writer.old → IsTidy writer.new }
{
    let _shape = table.shape();
    let Some(key) = key else {
        return 0;
    };
    match seek(table, writer, key) {
        Some(way) => way + 1,
        None => 0,
    }
}

/// Loads the key of the first way from one on that is not empty. False where there is none, and then nothing is done.
pub(crate) fn load_first(
    table: &MapTable,
    writer: &mut Writer,
    from: usize,
    key: &mut [u64],
) -> bool
    requires table { writer.old.table ≡ table.now }
    requires key { length key.old ≡ table.now.shape.key_words }
    ensures table { writer.new.table ≡ writer.old.table }
    ensures loads { result ≡ true → (way : ℕ) × IsFirst table.now.shape from way writer.old.view.mine
        × LoadsKey way key.new writer.old writer.new }
    ensures none { result ≡ false → AreEmpty from (ways_of table.now.shape) writer.old.view.mine }
    ensures unchanged { result ≡ false → writer.new ≡ writer.old }
    ensures unwritten { result ≡ false → key.new ≡ key.old }
    ensures count { length key.new ≡ length key.old }
    ensures tidy { IsTidy writer.old → IsTidy writer.new }
{
    writer.is_writers();
    for way in from..table.shape().buckets * BUCKET_WAYS {
        if writer.key_at(table, way, key) {
            return true;
        }
    }
    false
}

/// A law: a walk from the first way meets the key of each way that was never empty meanwhile, and once. The key of such a way may
/// have been replaced.
pub fn walks_meet_each_once()
    ensures { (k : ShapeOf) (way : ℕ) (calls : List (ℕ × List Move)) (last : List Move) → IsWalk k 0 calls last →
        way < ways_of k → NeverEmpty way calls last → times_met way calls ≡ 1 }
{}

/// A law: such a walk meets each key that stays linked in one way meanwhile, and once. Its value may have been replaced.
pub fn walks_meet_each_key_once()
    ensures { (k : ShapeOf) (key : List ℕ) (way : ℕ) (calls : List Meeting) (last : List (ℕ × Move)) →
        IsKeyWalk k 0 calls last → way < ways_of k → StaysLinked k key way calls last → MetOnce key calls }
{}
