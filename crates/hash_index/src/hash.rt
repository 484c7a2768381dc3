//! The bucket of a key.
ghost use Rattle.std.specs.Prelude.{◌≡◌, ◌<◌, ◌≤◌, length, slice_index};
ghost use Rattle.hash_index.specs.Chains.{hash_bucket, hash_of, mixed_hash, hashed_word};

/// The hash of no bytes.
const HASH_START: u64 = 14_695_981_039_346_656_037;

/// What a hash is multiplied by after each word: 2^64 over the golden ratio, which is odd.
const WORD_FACTOR: u64 = 11_400_714_819_323_198_485;

/// How many bytes a word has.
pub(crate) const WORD_BYTES: usize = 8;

/// How many bytes half a word has.
pub(crate) const HALF_BYTES: usize = 4;

/// The little-endian number of the first eight bytes.
#[inline]
pub(crate) fn word_at_start(bytes: &[u8]) -> u64
    requires { WORD_BYTES ≤ length bytes.now }
    ensures { result ≡ hashed_word bytes.now }
{
    u64::from_le_bytes([
        bytes[0], bytes[1], bytes[2], bytes[3], bytes[4], bytes[5], bytes[6], bytes[7],
    ])
}

/// The little-endian number of four bytes.
#[inline]
pub(crate) fn half_word(bytes: &[u8]) -> u64
    requires { length bytes.now ≡ HALF_BYTES }
    ensures { result ≡ hashed_word bytes.now }
{
    u64::from(u32::from_le_bytes([bytes[0], bytes[1], bytes[2], bytes[3]]))
}

/// A byte; 0 behind the last.
fn byte_or_zero(bytes: &[u8], at: usize) -> u8
    ensures { result ≡ slice_index bytes.now at }
{
    match bytes.get(at) {
        Some(byte) => *byte,
        None => 0,
    }
}

/// The little-endian number of at most eight bytes.
fn filled_word(bytes: &[u8]) -> u64
    ensures { result ≡ hashed_word bytes.now }
{
    u64::from_le_bytes([
        byte_or_zero(bytes, 0),
        byte_or_zero(bytes, 1),
        byte_or_zero(bytes, 2),
        byte_or_zero(bytes, 3),
        byte_or_zero(bytes, 4),
        byte_or_zero(bytes, 5),
        byte_or_zero(bytes, 6),
        byte_or_zero(bytes, 7),
    ])
}

/// Goes on from a hash with a word. The high half is folded into the low one, so that the low half depends on the
/// whole word.
#[inline]
fn mix(hash: u64, word: u64) -> u64
    ensures { result ≡ mixed_hash hash word }
{
    let product = (hash ^ word).wrapping_mul(WORD_FACTOR);
    product ^ (product >> 32)
}

/// The hash of a key of one word.
#[inline]
pub(crate) fn word_hash(key: &[u8]) -> u64
    requires { length key.now ≡ WORD_BYTES }
    ensures { result ≡ hash_of key.now }
{
    mix(HASH_START, word_at_start(key))
}

/// The hash of a key of half a word.
#[inline]
pub(crate) fn half_hash(key: &[u8]) -> u64
    requires { length key.now ≡ HALF_BYTES }
    ensures { result ≡ hash_of key.now }
{
    mix(HASH_START, half_word(key))
}

/// A hash of a key's bytes, word by word: to the last one as many zeros are added as it lacks bytes.
#[inline(never)]
pub(crate) fn hash_words(key: &[u8]) -> u64
    ensures { result ≡ hash_of key.now }
{
    let mut hash = HASH_START;
    let mut rest = key;
    for _ in 0..key.len() / WORD_BYTES {
        hash = mix(hash, word_at_start(rest));
        rest = &rest[WORD_BYTES..];
    }
    if rest.is_empty() {
        hash
    } else {
        mix(hash, filled_word(rest))
    }
}

/// The bucket of a hash, of so many, which are a power of two. The hash is multiplied once more,
/// and the bits taken from bit 32 on: else keys that differ in the last two of eight bytes alone
/// would share a bucket. Nothing is promised of how keys spread.
#[inline]
pub(crate) fn bucket_in(hash: u64, count: usize) -> usize
    requires { 0 < count }
    ensures bucket { result ≡ hash_bucket count hash }
    ensures inside { result < count }
{
    let spread = hash.wrapping_mul(WORD_FACTOR) >> 32;
    (spread & (count as u64 - 1)) as usize
}
