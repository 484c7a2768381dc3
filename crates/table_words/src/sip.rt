//! SipHash-1-3 of words, by which a table's keys are spread.
ghost use Rattle.std.specs.Prelude.{◌≡◌};
ghost use Rattle.table_words.specs.Sip.{begun, rounded, absorbed, finished, sip_hash};

use std::fmt;
use std::fmt::{Debug, Formatter};

/// The two words by which a table's keys are spread. Who does not know them cannot choose keys that fall together, so
/// where strangers choose keys they come from the system's source of random words and go nowhere else.
#[derive(Clone, Copy, PartialEq, Eq)]
pub struct Secret {
    pub first: u64,
    pub second: u64,
}

impl Debug for Secret {
    fn fmt<W: fmt::Write>(&self, f: &mut Formatter<W>) -> fmt::Result {
        f.write_str("Secret")
    }
}

/// The state of SipHash.
#[derive(Clone, Copy)]
pub struct SipState {
    pub v0: u64,
    pub v1: u64,
    pub v2: u64,
    pub v3: u64,
}

/// The state before the first word: the secret over "somepseudorandomlygeneratedbytes".
#[inline(always)]
fn begin(secret: Secret) -> SipState
    ensures { result ≡ begun secret }
{
    SipState {
        v0: secret.first ^ 0x736f_6d65_7073_6575,
        v1: secret.second ^ 0x646f_7261_6e64_6f6d,
        v2: secret.first ^ 0x6c79_6765_6e65_7261,
        v3: secret.second ^ 0x7465_6462_7974_6573,
    }
}

/// The state after a round.
#[inline(always)]
fn round(s: SipState) -> SipState
    ensures { result ≡ rounded s }
{
    let v0 = s.v0.wrapping_add(s.v1);
    let v2 = s.v2.wrapping_add(s.v3);
    let v1 = s.v1.rotate_left(13) ^ v0;
    let v3 = s.v3.rotate_left(16) ^ v2;
    let w2 = v2.wrapping_add(v1);
    let w0 = v0.rotate_left(32).wrapping_add(v3);
    SipState {
        v0: w0,
        v1: v1.rotate_left(17) ^ w2,
        v2: w2.rotate_left(32),
        v3: v3.rotate_left(21) ^ w0,
    }
}

/// The state after one more word.
#[inline(always)]
fn absorb(s: SipState, word: u64) -> SipState
    ensures { result ≡ absorbed s word }
{
    let after = round(SipState {
        v3: s.v3 ^ word,
        ..s
    });
    SipState {
        v0: after.v0 ^ word,
        ..after
    }
}

/// The hash of a state.
#[inline(always)]
fn finish(s: SipState) -> u64
    ensures { result ≡ finished s }
{
    let after = round(round(round(SipState {
        v2: s.v2 ^ 0xff,
        ..s
    })));
    after.v0 ^ after.v1 ^ after.v2 ^ after.v3
}

/// The hash of some words.
#[inline(always)]
pub fn hash_words(secret: Secret, words: &[u64]) -> u64
    ensures { result ≡ sip_hash secret words.now }
{
    let mut state = begin(secret);
    for at in 0..words.len() {
        state = absorb(state, words[at]);
    }
    finish(state)
}
