//! What one line of a program file says.
ghost use Rattle.std.specs.Prelude.{◌≡◌, ℕ, ◌<◌, ◌++◌, List, IfSome, IfNone, OnOk};
ghost use Rattle.bpf_model.specs.declared.limits.MapShape.{MapShape as ShapeOf};
ghost use Rattle.bpf_model.specs.declared.limits.TheConstants.{MAX_REUSE};
ghost use Rattle.maps.specs.Registry.{RegistryView};
ghost use Rattle.program_files.specs.Lines.{file_words, slot_in, code_slots};
ghost use Rattle.program_files.specs.ProgramFile.{IsContextLine, AreHashWords, AreArrayWords, AreShapeWords, IsMapLine, AddsMap};
ghost use Rattle.program_files.specs.Stages.{words_left};

use crate::loader::fault::LineFault;
use crate::loader::words::Words;
use bpf_model::{CTX_BYTES, INDEX_BYTES, MapKind, MapShape};
use hex::decode_to_slice;
use maps::{MapFault, Registry};

/// The bytes of a slot.
const SLOT_BYTES: usize = 8;

/// The context's length that the line tells.
pub fn context_of(line: &[u8]) -> Option<usize>
    ensures some { IfSome result (IsContextLine line.now) }
    ensures none { IfNone result ((n : ℕ) → ¬ (IsContextLine line.now n)) }
{
    let mut words = Words::of(line);
    if words.word()? != b"ctx".as_slice() {
        return None;
    }
    let context = words.number()?;
    if !words.is_empty() || context > CTX_BYTES as u64 {
        return None;
    }
    Some(context as usize)
}

/// A map's name and shape, as its line tells them.
#[derive(Clone, Copy)]
pub struct MapLine<'a> {
    name: &'a [u8],
    shape: MapShape,
}

/// The shape of a hash map that the words are, if its reuse limit has 32 bits. No map may have another.
fn hash_shape(mut words: Words<'_>) -> Option<MapShape>
    ensures some { IfSome result (AreHashWords (words_left words.entry.rest)) }
    ensures none { IfNone result ((s : ShapeOf) → AreHashWords (words_left words.entry.rest) s →
        MAX_REUSE < s.reuse_limit) }
{
    let key_len = words.number()?;
    let value_len = words.number()?;
    let entries = words.number()?;
    let spare = words.number()?;
    let reuse_limit = words.number()?;
    if !words.is_empty() {
        return None;
    }
    Some(MapShape {
        kind: MapKind::Hash,
        key_len: key_len as usize,
        value_len: value_len as usize,
        entries: entries as usize,
        spare: spare as usize,
        reuse_limit: u32::try_from(reuse_limit).ok()?,
    })
}

/// The shape of an array that the words are.
fn array_shape(mut words: Words<'_>) -> Option<MapShape>
    ensures some { IfSome result (AreArrayWords (words_left words.entry.rest)) }
    ensures none { IfNone result ((s : ShapeOf) → ¬ (AreArrayWords (words_left words.entry.rest) s)) }
{
    if words.word()? != b"array".as_slice() {
        return None;
    }
    let value_len = words.number()?;
    let entries = words.number()?;
    if !words.is_empty() {
        return None;
    }
    Some(MapShape {
        kind: MapKind::Array,
        key_len: INDEX_BYTES,
        value_len: value_len as usize,
        entries: entries as usize,
        spare: 0,
        reuse_limit: 1,
    })
}

/// The shape that the words are, if its reuse limit has 32 bits.
fn shape_of(words: Words<'_>) -> Option<MapShape>
    ensures some { IfSome result (AreShapeWords (words_left words.entry.rest)) }
    ensures none { IfNone result ((s : ShapeOf) → AreShapeWords (words_left words.entry.rest) s →
        MAX_REUSE < s.reuse_limit) }
{
    match array_shape(words) {
        Some(shape) => Some(shape),
        None => hash_shape(words),
    }
}

/// The map that the line tells, if its reuse limit has 32 bits.
fn map_of(line: &[u8]) -> Option<MapLine<'_>>
    ensures some { IfSome result (λ m. IsMapLine line.now m.name.now m.shape) }
    ensures none { IfNone result ((name : List ℕ) (shape : ShapeOf) →
        IsMapLine line.now name shape → MAX_REUSE < shape.reuse_limit) }
{
    let mut words = Words::of(line);
    if words.word()? != b"map".as_slice() {
        return None;
    }
    let name = words.word()?;
    let shape = shape_of(words)?;
    Some(MapLine { name, shape })
}

/// Adds the map of the line.
pub fn add_map(registry: &mut Registry, line: &[u8]) -> Result<(), LineFault>
    ensures added { OnOk result (AddsMap registry.old line.now registry.new) }
    ensures wrong { result ≡ Err LineFault.Wrong →
        (new : RegistryView) → ¬ (AddsMap registry.old line.now new) }
{
    let Some(map) = map_of(line) else {
        return Err(LineFault::Wrong);
    };
    let Ok(name) = str::from_utf8(map.name) else {
        return Err(LineFault::Wrong);
    };
    match registry.create(name, map.shape) {
        Ok(_) => Ok(()),
        Err(MapFault::Memory) => Err(LineFault::Memory),
        Err(_) => Err(LineFault::Wrong),
    }
}

/// Adds the slot that the word is.
fn add_slot(code: &mut Vec<u8>, word: &[u8]) -> Result<(), LineFault>
    ensures added { OnOk result ((bytes : List ℕ) ×
        (slot_in word.now ≡ Some bytes) × (code.new.items ≡ code.old.items ++ bytes)) }
    ensures wrong { result ≡ Err LineFault.Wrong → slot_in word.now ≡ None }
{
    let mut slot = [0u8; SLOT_BYTES];
    match decode_to_slice(word, &mut slot) {
        Ok(()) => {
            code.extend_from_slice(&slot)?;
            Ok(())
        }
        Err(_) => Err(LineFault::Wrong),
    }
}

/// Adds the slots of the line.
pub fn add_slots(code: &mut Vec<u8>, line: &[u8]) -> Result<(), LineFault>
    ensures added { OnOk result ((bytes : List ℕ) ×
        (code_slots (file_words line.now) ≡ Some bytes)
        × (code.new.items ≡ code.old.items ++ bytes)) }
    ensures wrong { result ≡ Err LineFault.Wrong → code_slots (file_words line.now) ≡ None }
{
    let mut words = Words::of(line);
    while let Some(word) = words.word() {
        add_slot(code, word)?;
    }
    Ok(())
}
