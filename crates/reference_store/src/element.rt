//! Elements, and what becomes of them.
ghost use Rattle.std.specs.Prelude.{◌≡◌, ◌+◌, ◌+ℤ◌, false, ◌≤◌, ◌*◌, ◌&&◌, ◌==◌, ◌↔◌, IsTrue, length};
ghost use Rattle.bpf_model.specs.declared.limits.TheConstants.{FRAME_BYTES};
ghost use Rattle.bpf_model.specs.Element.{is_linked, is_reclaimed};
ghost use Rattle.bpf_model.specs.Schedule.{is_unlinked};
ghost use Rattle.bpf_model.specs.Section.{Has, AllEnded};
ghost use Rattle.bpf_model.specs.Access.{byte_count};
ghost use Rattle.bpf_model.specs.Access.{with_bytes};
ghost use Rattle.reference_store.specs.Storing.{SavesTo};
ghost use Rattle.reference_store.specs.Births.{MayReclaim};
ghost use Rattle.reference_store.specs.Retiring.{linked_map as linked_map_of};
ghost use Rattle.reference_store.specs.State.{section_shown, sections_of, life_of, element_of, IsLinkedHere};

use bpf_model::{KeyBytes, ValueBytes, Width};
use reference_interpreter::region_offset;

/// A read-side critical section: the number of its run's start, and how many sections the run had opened
/// with it.
#[derive(Clone, Copy, Debug, PartialEq, Eq)]
pub struct Section {
    pub run: u64,
    pub number: u64,
}

/// An element is linked; or unlinked, with the sections that were open at that moment; or reclaimed.
#[derive(Drop)]
pub enum Life {
    Linked,
    Unlinked(Vec<Section>),
    Reclaimed,
}

/// An element: its map, key and value, and which use of its map slot it is, counted from 1.
#[derive(Drop)]
pub struct Element {
    pub map: usize,
    pub key: KeyBytes,
    pub value: ValueBytes,
    pub uses: u64,
    pub life: Life,
}

impl Life {
    /// Whether the element is linked.
    pub fn is_linked(&self) -> bool
        ensures { result ≡ is_linked (life_of self.now) }
    {
        match self {
            Life::Linked => true,
            _ => false,
        }
    }

    /// Whether the element is unlinked, and not reclaimed yet.
    pub fn is_unlinked(&self) -> bool
        ensures { result ≡ is_unlinked (life_of self.now) }
    {
        match self {
            Life::Unlinked(_) => true,
            _ => false,
        }
    }

    /// Whether the element is reclaimed: it may be accessed no more.
    pub fn is_reclaimed(&self) -> bool
        ensures { result ≡ is_reclaimed (life_of self.now) }
    {
        match self {
            Life::Reclaimed => true,
            _ => false,
        }
    }
}

impl Element {
    /// Whether the element is what the map has under the key.
    pub fn is_linked_at(&self, map: usize, key: &[u8]) -> bool
        ensures { IsTrue result ↔ IsLinkedHere (element_of self.now) map key.now }
    {
        self.life.is_linked() && self.map == map && self.key.as_slice() == key
    }

    /// Whether the element is linked, and of the map.
    pub fn is_linked_in(&self, map: usize) -> bool
        ensures { result ≡ (is_linked (life_of self.now.life) && (self.now.map == map)) }
    {
        self.life.is_linked() && self.map == map
    }

    /// The map that the element is linked in; `None` where it is not linked.
    pub fn linked_map(&self) -> Option<usize>
        ensures { result ≡ linked_map_of (element_of self.now) }
    {
        if self.life.is_linked() {
            Some(self.map)
        } else {
            None
        }
    }
}

/// Whether an element is unlinked, and no section that was open then is open now.
pub(crate) fn has_ended(life: &Life, opened: &[Section]) -> bool
    ensures { IsTrue result ↔ MayReclaim (life_of life.now) (sections_of opened.now) }
{
    match life {
        Life::Unlinked(since) => are_apart(since.as_slice(), opened),
        _ => false,
    }
}

/// Whether no section of the first is one of the second.
fn are_apart(since: &[Section], opened: &[Section]) -> bool
    ensures { IsTrue result ↔ AllEnded (sections_of since.now) (sections_of opened.now) }
{
    for i in 0..since.len() {
        if is_among(&since[i], opened) {
            return false;
        }
    }
    true
}

/// Whether the section is one of these.
fn is_among(section: &Section, sections: &[Section]) -> bool
    ensures among { IsTrue result → Has (sections_of sections.now) (section_shown section.now) }
    ensures apart { result ≡ false
        → Has (sections_of sections.now) (section_shown section.now) → ⊥ }
{
    for j in 0..sections.len() {
        if sections[j] == *section {
            return true;
        }
    }
    false
}

/// Stores the low bytes of a number in an element that isn't reclaimed, where they lie in its value.
pub(crate) fn save(element: &mut Element, width: Width, o: i64, offset: i16, number: u64) -> bool
    ensures { SavesTo (element_of element.old) (byte_count width) (o +ℤ offset) number result
        (element_of element.new) }
{
    if element.life.is_reclaimed() {
        return false;
    }
    match region_offset(element.value.len(), width, o, offset) {
        Some(at) => {
            put_bytes(element.value.as_mut_slice(), at, width.bytes(), number);
            true
        }
        None => false,
    }
}

/// Writes so many low bytes of a number from an offset on.
fn put_bytes(bytes: &mut [u8], at: usize, width: usize, number: u64)
    requires inside { at + width ≤ length bytes.old }
    requires small { at + width ≤ 2 * FRAME_BYTES }
    ensures { bytes.new ≡ with_bytes at width number bytes.old }
{
    if width > 0 {
        put_bytes(bytes, at + 1, width - 1, number / 256);
        bytes[at] = (number % 256) as u8;
    }
}
