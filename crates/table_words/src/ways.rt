//! The words of the ways, which name elements.
ghost use Rattle.std.specs.Prelude.{◌≡◌, ◌≢◌, ℕ, ◌+◌, ◌%◌, ◌^◌, ◌<◌, ◌≤◌, length, slice_index, IsNone, IfSome};
ghost use Rattle.table_words.specs.Layout.{bucket_ways, Names, tag_in};
ghost use Rattle.table_words.specs.Limits.{most_elements};
ghost use Rattle.table_words.specs.Ways.{IsOfBoth};

use crate::hash::Candidates;
use crate::limits::BUCKET_WAYS;

/// The first way of a bucket that is empty, by the words of all ways.
fn empty_way(ways: &[u64], first: usize) -> Option<usize>
    requires { first + bucket_ways ≤ length ways.now }
    ensures some { IfSome result (λ way. (first ≤ way) × (way < first + bucket_ways)
        × (slice_index ways.now way ≡ 0)) }
    ensures none { IsNone result → (way : ℕ) → first ≤ way → way < first + bucket_ways →
        slice_index ways.now way ≢ 0 }
{
    for at in 0..BUCKET_WAYS {
        if ways[first + at] == 0 {
            return Some(first + at);
        }
    }
    None
}

/// How many ways of a bucket are empty.
fn count_empty(ways: &[u64], first: usize) -> usize
    requires { first + bucket_ways ≤ length ways.now }
    ensures { result ≤ bucket_ways }
{
    let mut count = 0;
    for at in 0..BUCKET_WAYS {
        if ways[first + at] == 0 {
            count += 1;
        }
    }
    count
}

/// An empty way of the one bucket, else of the other.
fn empty_of(ways: &[u64], one: usize, other: usize) -> Option<usize>
    requires one { one + bucket_ways ≤ length ways.now }
    requires other { other + bucket_ways ≤ length ways.now }
    ensures some { IfSome result (λ way. IsOfBoth one other way × (slice_index ways.now way ≡ 0)) }
    ensures none { IsNone result → (way : ℕ) → IsOfBoth one other way →
        slice_index ways.now way ≢ 0 }
{
    if let Some(way) = empty_way(ways, one) {
        return Some(way);
    }
    empty_way(ways, other)
}

/// An empty way of a key's two buckets: of that with more of them, so that buckets fill evenly.
pub fn empty_of_both(ways: &[u64], candidates: Candidates) -> Option<usize>
    requires first { candidates.first + bucket_ways ≤ length ways.now }
    requires second { candidates.second + bucket_ways ≤ length ways.now }
    ensures some { IfSome result (λ way. IsOfBoth candidates.first candidates.second way
        × (slice_index ways.now way ≡ 0)) }
    ensures none { IsNone result → (way : ℕ) → IsOfBoth candidates.first candidates.second way →
        slice_index ways.now way ≢ 0 }
{
    if count_empty(ways, candidates.first) >= count_empty(ways, candidates.second) {
        empty_of(ways, candidates.first, candidates.second)
    } else {
        empty_of(ways, candidates.second, candidates.first)
    }
}

/// The word of a way that names an element, with the tag of its key.
#[inline]
pub fn way_word(tag: u64, element: usize) -> u64
    requires tag { tag < 2 ^ 32 }
    requires element { element < most_elements }
    ensures names { Names result element }
    ensures tag { tag_in result ≡ tag }
{
    (tag << 32) + (element as u64 + 1)
}

/// The number of the element that a way's word names.
#[inline]
pub fn element_in(word: u64) -> usize
    requires { word % 2 ^ 32 ≢ 0 }
    ensures { Names word result }
{
    ((word & 0xffff_ffff) - 1) as usize
}
