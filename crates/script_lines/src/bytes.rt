//! Bytes in hexadecimal.
ghost use Rattle.std.specs.Prelude.{◌≡◌, length, Some, option_map, bytes_eq, codes};
ghost use Rattle.std.specs.List.{list_all};
ghost use Rattle.hex.specs.Hex.{is_hex_digit as is_digit};
ghost use Rattle.script_lines.specs.Words.{hex_bytes_in, sized_bytes_in};

use arrayvec::ArrayVec;
use bpf_model::array_of;

/// The bytes that a word writes, where they are no more than a `B` takes: a key, a value or a context.
#[derive(Debug, Drop)]
pub enum Bytes<B> {
    /// All bytes that the word writes.
    Fit(B),
    /// More bytes than a `B` takes, which are not kept.
    TooLong,
}

/// Whether the word writes no bytes.
pub(crate) fn is_dash(word: &[u8]) -> bool
    ensures { result ≡ bytes_eq word.now (codes "-") }
{
    word == b"-".as_slice()
}

fn is_hex_digit(byte: u8) -> bool
    ensures { result ≡ is_digit byte }
{
    matches!(byte, b'A'..=b'F' | b'a'..=b'f' | b'0'..=b'9')
}

fn are_hex_digits(word: &[u8]) -> bool
    ensures { result ≡ list_all is_digit word.now }
{
    word.iter().all(|byte| is_hex_digit(*byte))
}

/// How many bytes the word writes, where it writes bytes.
#[tactic(auto, using(crate::proofs::HexLaws::counting))]
pub(crate) fn byte_count(word: &[u8]) -> Option<usize>
    ensures { result ≡ option_map length (hex_bytes_in word.now) }
{
    if is_dash(word) {
        return Some(0);
    }
    if word.len() % 2 == 0 && are_hex_digits(word) {
        Some(word.len() / 2)
    } else {
        None
    }
}

/// Writes the bytes that the word writes.
pub(crate) fn decode(word: &[u8], out: &mut [u8])
    requires { option_map length (hex_bytes_in word.now) ≡ Some (length out.old) }
    ensures { hex_bytes_in word.now ≡ Some out.new }
{
    if !is_dash(word) {
        let _done = hex::decode_to_slice(word, out);
    }
}

/// The bytes that the word writes for something that has at most `N`.
pub(crate) fn bytes_of<const N: usize>(word: &[u8]) -> Option<Bytes<ArrayVec<u8, N>>>
    ensures { result ≡ sized_bytes_in N word.now }
{
    let count = byte_count(word)?;
    if count > N {
        return Some(Bytes::TooLong);
    }
    let mut room = [0; N];
    let out = &mut room[..count];
    decode(word, out);
    Some(Bytes::Fit(array_of(out)))
}
