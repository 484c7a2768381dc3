//! The section words of readers: where they lie, and how they count.
ghost use Rattle.std.specs.Prelude.{◌≡◌, ◌+◌, ◌*◌, ◌<◌, ◌≤◌};
ghost use Rattle.table_words.specs.History.{most_sections};

/// How many words lie from the section word of a reader to that of the next: a page of 4,096 bytes and a line of 64. The
/// words between them are never used. A processor reads ahead within a page, and what it reads ahead it takes from the
/// core that writes it; with a line more than a page, two section words have no place of a cache in common.
pub const SECTION_STRIDE: usize = 520;

/// The section word of a reader outside, from which on it counts no more sections.
const LAST_WORD: u64 = 1 << 63;

/// The even word after this one, up to the last.
#[inline]
pub fn even_after(even: u64) -> u64
    requires small { even ≤ 2 * most_sections }
    ensures counts { even < 2 * most_sections → result ≡ even + 2 }
    ensures stops { even ≡ 2 * most_sections → result ≡ even }
{
    if even < LAST_WORD { even + 2 } else { even }
}
