//! Where a key may be linked.
ghost use Rattle.std.specs.Prelude.{◌≡◌, ◌≢◌, ◌⊎◌, ◌+◌, ◌*◌, ◌%◌, ◌<◌, ◌≤◌, ◌^◌, IfSome, IsNone};
ghost use Rattle.table_words.specs.Limits.{most_buckets};
ghost use Rattle.table_words.specs.Hashes.{bucket_by, first_bucket, second_bucket, tag_of};
ghost use Rattle.table_words.specs.Layout.{bucket_ways, Names, tag_in};
ghost use Rattle.table_words.specs.Law.{ways_of};
ghost use Rattle.table_words.specs.Held.{IsSized};

use crate::limits::BUCKET_WAYS;
use crate::sip::hash_words;
use crate::view::TableShape;

/// What a hash is multiplied by for the second bucket: 2^64 over the golden ratio, which is odd.
const SECOND_FACTOR: u64 = 11_400_714_819_323_198_485;

/// The first way of each of the two buckets where a key may be linked, and the tag that its way has. No contract promises
/// how keys spread.
#[derive(Clone, Copy)]
pub struct Candidates {
    pub first: usize,
    pub second: usize,
    pub tag: u64,
}

/// The bucket that the high half of a hash chooses.
#[inline(always)]
fn bucket(hash: u64, buckets: usize) -> usize
    requires { (0 < buckets) × (buckets ≤ most_buckets) }
    ensures bucket { result ≡ bucket_by buckets hash }
    ensures within { result < buckets }
{
    (((hash >> 32) * buckets as u64) >> 32) as usize
}

/// The candidates of a key.
#[inline(always)]
pub fn candidates_of(shape: TableShape, key: &[u64]) -> Candidates
    requires { IsSized shape }
    ensures first { result.first ≡ first_bucket shape key.now * bucket_ways }
    ensures second { result.second ≡ second_bucket shape key.now * bucket_ways }
    ensures tag { result.tag ≡ tag_of shape key.now }
    ensures first_within { result.first + bucket_ways ≤ ways_of shape }
    ensures second_within { result.second + bucket_ways ≤ ways_of shape }
    ensures tag_within { result.tag < 2 ^ 32 }
{
    let hash = hash_words(shape.secret, key);
    Candidates {
        first: bucket(hash, shape.buckets) * BUCKET_WAYS,
        second: bucket(hash.wrapping_mul(SECOND_FACTOR), shape.buckets) * BUCKET_WAYS,
        tag: hash & 0xffff_ffff,
    }
}

/// The number of the element that a way's word names, if the word has the tag. One comparison tells: the word of the element
/// 0 with this tag is taken from it, and what is left is the number, unless it is too large for one.
#[inline(always)]
pub fn named(word: u64, tag: u64) -> Option<usize>
    requires { tag < 2 ^ 32 }
    ensures some { IfSome result (λ element. Names word element × (tag_in word ≡ tag)) }
    ensures none { IsNone result → (word % 2 ^ 32 ≡ 0) ⊎ (tag_in word ≢ tag) }
{
    let number = word.wrapping_sub((tag << 32) + 1);
    if number >= 0xffff_ffff {
        return None;
    }
    Some(number as usize)
}
