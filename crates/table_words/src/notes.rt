//! What the writer of a table notes at its looks at the readers' section words.
ghost use Rattle.std.specs.Prelude.{◌≡◌, ℕ, ◌<◌, ◌≤◌, length, vec_len, IfOk};
ghost use Rattle.table_words.specs.Sightings.{IsNoted, IsLowered, Least, no_sighting, sighting_at};

use std::alloc::{AllocError, Global};

/// What the writer notes of a reader.
#[derive(Clone, Copy)]
pub struct Sighting {
    /// How many of the unlinked elements the reader is cleared of: of the first ones, since they are in the order of their
    /// unlinking.
    pub cleared: usize,
    /// How many were unlinked at the last look at it.
    pub looked: usize,
    /// The section word that the look found.
    pub word: u64,
}

impl Sighting {
    /// The note after a look that found this word, when so many were unlinked. Two numbers prove that the reader left the
    /// section of the first; so it is cleared of what was unlinked by then.
    #[inline]
    pub fn after_look(self, word: u64, unlinked: usize) -> Sighting
        ensures { IsNoted self word unlinked result }
    {
        let cleared = if word % 2 == 0 {
            unlinked
        } else if word != self.word {
            self.looked
        } else {
            self.cleared
        };
        Sighting {
            cleared,
            looked: unlinked,
            word,
        }
    }

    /// The note once so many of the first are unlinked no more.
    #[inline]
    fn lowered(self, by: usize) -> Sighting
        requires { (by ≤ self.cleared) × (by ≤ self.looked) }
        ensures { IsLowered by self result }
    {
        Sighting {
            cleared: self.cleared - by,
            looked: self.looked - by,
            word: self.word,
        }
    }
}

/// The notes at first, one for each reader.
pub fn no_sightings(alloc: Global, readers: usize) -> Result<Vec<Sighting>, AllocError>
    ensures room { IfOk result (λ v. vec_len v ≡ readers) }
    ensures none { IfOk result (λ v. (reader : ℕ) → sighting_at v.items reader ≡ no_sighting) }
{
    let mut seen = Vec::with_capacity(alloc, readers)?;
    for _ in 0..readers {
        seen.push_reserved(Sighting {
            cleared: 0,
            looked: 0,
            word: 0,
        });
    }
    Ok(seen)
}

/// Of how many elements each reader is cleared, and no more than the most.
pub fn least_of(seen: &[Sighting], most: usize) -> usize
    ensures { Least result seen.now most }
{
    let mut least = most;
    for at in 0..seen.len() {
        let cleared = seen[at].cleared;
        if cleared < least {
            least = cleared;
        }
    }
    least
}

/// The notes once so many of the first elements are unlinked no more.
pub fn lower_each(seen: &mut Vec<Sighting>, by: usize)
    requires cleared { (at : ℕ) → at < length seen.old.items → by ≤ (sighting_at seen.old.items at).cleared }
    requires looked { (at : ℕ) → at < length seen.old.items → by ≤ (sighting_at seen.old.items at).looked }
    ensures room { length seen.new.items ≡ length seen.old.items }
    ensures lower { (at : ℕ) → at < length seen.old.items →
        IsLowered by (sighting_at seen.old.items at) (sighting_at seen.new.items at) }
{
    for at in 0..seen.len() {
        seen[at] = seen[at].lowered(by);
    }
}
