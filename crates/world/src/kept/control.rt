//! What the control plane does to maps: updates, deletes and reads.
ghost use Rattle.std.specs.Prelude.{◌≡◌, ◌≤◌, Some, length};
ghost use Rattle.bpf_model.specs.declared.event.Answer.TheVariants.{Found};
ghost use Rattle.bpf_model.specs.declared.limits.TheConstants.{VALUE_BYTES};
ghost use Rattle.model_laws.specs.Reactions.{update_reaction, delete_reaction, read_reaction};
ghost use Rattle.model_laws.specs.Views.{value_read};
ghost use Rattle.world.specs.Brief.{brief_answer};

use crate::kept::brief::Brief;
use crate::kept::parts::Parts;
use bpf_model::{Answer, EventRefusal, KeyBytes, MapId, ValueBytes};
use maps::Map;

/// Writes other bytes over those of a value. As many as it has are copied at once.
fn overwrite(value: &mut ValueBytes, bytes: &[u8])
    requires { length bytes.now ≤ VALUE_BYTES }
    ensures { value.new.items ≡ bytes.now }
{
    if value.len() == bytes.len() {
        value.as_mut_slice().copy_from_slice(bytes);
    } else {
        value.clear();
        let _ = value.try_extend_from_slice(bytes);
    }
}

/// Puts a value in the place of an answer, which is cleared where it has no value.
fn put_value(bytes: &[u8], answer: &mut Answer)
    requires { length bytes.now ≤ VALUE_BYTES }
    ensures { answer.new ≡ Found (Some (record { items = bytes.now })) }
{
    match answer {
        Answer::Found(Some(_)) => (),
        _ => *answer = Answer::Found(Some(ValueBytes::new())),
    }
    if let Answer::Found(Some(value)) = answer {
        overwrite(value, bytes);
    }
}

/// Puts the value of a key in the place of an answer.
#[inline(always)]
fn find_into(chosen: &Map, key: &[u8], answer: &mut Answer)
    ensures { answer.new ≡ Found (value_read chosen.now key.now) }
{
    match chosen.bytes_of(key) {
        None => Brief::Absent.put(answer),
        Some(bytes) => put_value(bytes, answer),
    }
}

impl Parts {
    /// Does an update as `update_into` says, and answers it in few bytes.
    #[inline(always)]
    fn updated(&mut self, map: MapId, key: &KeyBytes, value: &ValueBytes, flags: u64) -> Brief
        ensures answer { brief_answer result
            ≡ (update_reaction self.old map key.now.items value.now.items flags).0 }
        ensures new { self.new
            ≡ (update_reaction self.old map key.now.items value.now.items flags).1 }
    {
        let shape = match self.registry.shape(map) {
            None => return Brief::Refused(EventRefusal::NoMap),
            Some(shape) => shape,
        };
        if key.len() != shape.key_len || value.len() != shape.value_len {
            return Brief::Refused(EventRefusal::BadLength);
        }
        let chosen = self.registry.map_mut(map);
        Brief::Ret(chosen.update(key.as_slice(), value.as_slice(), flags))
    }

    /// Stores a value under a key, as the map's update does, and puts the answer in the place of another one.
    /// Refused where no map has the number, or where the key or the value has another length than the map's.
    #[inline(never)]
    pub fn update_into(
        &mut self,
        map: MapId,
        key: &KeyBytes,
        value: &ValueBytes,
        flags: u64,
        answer: &mut Answer,
    )
        ensures answer { answer.new
            ≡ (update_reaction self.old map key.now.items value.now.items flags).0 }
        ensures new { self.new
            ≡ (update_reaction self.old map key.now.items value.now.items flags).1 }
    {
        self.updated(map, key, value, flags).put(answer);
    }

    /// Does a deletion as `delete_into` says, and answers it in few bytes.
    #[inline(always)]
    fn deleted(&mut self, map: MapId, key: &KeyBytes) -> Brief
        ensures answer { brief_answer result ≡ (delete_reaction self.old map key.now.items).0 }
        ensures new { self.new ≡ (delete_reaction self.old map key.now.items).1 }
    {
        let shape = match self.registry.shape(map) {
            None => return Brief::Refused(EventRefusal::NoMap),
            Some(shape) => shape,
        };
        if key.len() != shape.key_len {
            return Brief::Refused(EventRefusal::BadLength);
        }
        let chosen = self.registry.map_mut(map);
        Brief::Ret(chosen.delete(key.as_slice()))
    }

    /// Removes a key, as the map's delete does, and puts the answer in the place of another one. Refused where
    /// no map has the number, or where the key has another length than the map's.
    #[inline(never)]
    pub fn delete_into(&mut self, map: MapId, key: &KeyBytes, answer: &mut Answer)
        ensures answer { answer.new ≡ (delete_reaction self.old map key.now.items).0 }
        ensures new { self.new ≡ (delete_reaction self.old map key.now.items).1 }
    {
        self.deleted(map, key).put(answer);
    }

    /// Puts the answer of a read in the place of another one: a value is copied once. Refused where no map
    /// has the number, or where the key has another length than the map's.
    #[inline(never)]
    pub fn read_into(&self, map: MapId, key: &KeyBytes, answer: &mut Answer)
        ensures answer { answer.new ≡ (read_reaction self.now map key.now.items).0 }
        ensures unchanged { (read_reaction self.now map key.now.items).1 ≡ self.now }
    {
        match self.registry.map(map) {
            None => Brief::Refused(EventRefusal::NoMap).put(answer),
            Some(chosen) if key.len() != chosen.shape().key_len => {
                Brief::Refused(EventRefusal::BadLength).put(answer);
            }
            Some(chosen) => find_into(chosen, key.as_slice(), answer),
        }
    }
}
