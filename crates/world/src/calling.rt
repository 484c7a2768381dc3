//! Helpers: what a program calls with a map, a key and a value.
ghost use Rattle.std.specs.Prelude.{◌≡◌, ℕ, ◌<◌, length};
ghost use Rattle.bpf_model.specs.declared.limits.TheConstants.{FRAME_BYTES, MAX_MAPS};
ghost use Rattle.world_laws.specs.Calling.{served};
ghost use Rattle.world_laws.specs.Moving.{word_in};
ghost use Rattle.world_laws.specs.Reaching.{IsCall, IsInFrame};
ghost use Rattle.world.specs.Calls.{called};

use crate::address::slot_word;
use bpf_model::{Helper, MapId, Reg, ret_word};
use machine::Run;
use maps::{Map, Registry};

/// The word of the map slot that the map has for the key in r2, or 0.
fn lookup(run: &Run, map: &Map, id: MapId) -> u64
    requires key { IsInFrame (word_in run.now.view 2) map.now.shape.key_len }
    requires id { id < MAX_MAPS }
    ensures { result ≡ (served Helper.Lookup id map.now run.now.view).0 }
{
    match map.lookup(run.bytes_argument(Reg::R2, map.shape().key_len)) {
        None => 0,
        Some(slot) => slot_word(id.index(), slot),
    }
}

/// Stores the value in r3 under the key in r2, by the flags in r4: in a new element, or in an array's in place.
fn update(run: &Run, map: &mut Map) -> u64
    requires frame { length run.now.view.frame ≡ FRAME_BYTES }
    requires key { IsInFrame (word_in run.now.view 2) map.old.shape.key_len }
    requires value { IsInFrame (word_in run.now.view 3) map.old.shape.value_len }
    ensures word { (map_number : ℕ) →
        result ≡ (served Helper.Update map_number map.old run.now.view).0 }
    ensures new { (map_number : ℕ) →
        map.new ≡ (served Helper.Update map_number map.old run.now.view).1 }
{
    let shape = map.shape();
    let key = run.bytes_argument(Reg::R2, shape.key_len);
    let value = run.bytes_argument(Reg::R3, shape.value_len);
    ret_word(map.update(key, value, run.register(Reg::R4)))
}

/// Unlinks the element of the key in r2; an array's stays.
fn delete(run: &Run, map: &mut Map) -> u64
    requires { IsInFrame (word_in run.now.view 2) map.old.shape.key_len }
    ensures word { (map_number : ℕ) →
        result ≡ (served Helper.Delete map_number map.old run.now.view).0 }
    ensures new { (map_number : ℕ) →
        map.new ≡ (served Helper.Delete map_number map.old run.now.view).1 }
{
    let shape = map.shape();
    let key = run.bytes_argument(Reg::R2, shape.key_len);
    ret_word(map.delete(key))
}

/// Calls a helper, with the arguments in the run's registers and frame. `bound` has the numbers
/// of the program's maps, in the order of its list.
///
/// The answer is the word for r0: of a lookup that of the map slot under the key, or 0; of an
/// update and a delete 0, or the error as a negative number. A key is compared where it lies in
/// the frame.
pub(crate) fn call(helper: Helper, run: &Run, maps: &mut Registry, bound: &[usize]) -> u64
    requires { IsCall helper bound.now maps.old.maps run.now.view }
    ensures word { result ≡ (called helper bound.now run.now.view maps.old.maps).0 }
    ensures maps { maps.new.maps ≡ (called helper bound.now run.now.view maps.old.maps).1 }
    ensures names { maps.new.names ≡ maps.old.names }
{
    let id = MapId::new(bound[run.map_argument()]);
    match helper {
        Helper::Lookup => match maps.map(id) {
            Some(map) => lookup(run, map, id),
            None => unreachable!(),
        },
        Helper::Update => update(run, maps.map_mut(id)),
        Helper::Delete => delete(run, maps.map_mut(id)),
    }
}
