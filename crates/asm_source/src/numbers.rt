//! Numbers in words.
ghost use Rattle.std.specs.Prelude.{◌≡◌, ◌<◌, ◌++◌, OnOk};
ghost use Rattle.std.specs.Char.{digit_value as value_of_digit};
ghost use Rattle.disasm.specs.Text.{numeral};
ghost use Rattle.asm_source.specs.Numbers.{with_digit, digits_in, hex_in as hex_of, decimal_in as decimal_of, number_in as number_of};

use itoa::Buffer;
use std::alloc::AllocError;

/// The digit that a byte writes, a letter of either case from 10 on; 36 where it writes none.
fn digit_value(byte: u8) -> u64
    ensures { result ≡ value_of_digit byte }
{
    match byte {
        b'0'..=b'9' => u64::from(byte - b'0'),
        b'A'..=b'Z' => u64::from(byte - b'A') + 10,
        b'a'..=b'z' => u64::from(byte - b'a') + 10,
        _ => 36,
    }
}

/// The number with one more digit at its end, where it is a digit of this base and the number is below 2^64.
fn push_digit(base: u64, value: u64, digit: u64) -> Option<u64>
    ensures { result ≡ with_digit base value digit }
{
    if digit >= base {
        return None;
    }
    value.checked_mul(base)?.checked_add(digit)
}

/// The number that the digits write, where it is below 2^64.
fn read_digits(base: u64, digits: &[u8]) -> Option<u64>
    ensures { result ≡ digits_in base digits.now }
{
    let mut value = 0;
    for digit in digits {
        match push_digit(base, value, digit_value(*digit)) {
            Some(next) => value = next,
            None => return None,
        }
    }
    Some(value)
}

/// The number that the word writes in hexadecimal behind `0x`, below 2^64.
pub fn hex_in(word: &[u8]) -> Option<u64>
    ensures { result ≡ hex_of word.now }
{
    match word {
        [b'0', b'x', digits @ ..] if !digits.is_empty() => read_digits(16, digits),
        _ => None,
    }
}

/// The number that the word writes in decimal, without leading zeros and below 2^64.
pub fn decimal_in(word: &[u8]) -> Option<u64>
    ensures { result ≡ decimal_of word.now }
{
    match word {
        [] | [b'0', _, ..] => None,
        digits => read_digits(10, digits),
    }
}

/// The number that the word writes, in decimal or hexadecimal.
pub fn number_in(word: &[u8]) -> Option<u64>
    ensures { result ≡ number_of word.now }
{
    match hex_in(word) {
        Some(number) => Some(number),
        None => decimal_in(word),
    }
}

/// Adds a number in decimal.
pub(crate) fn push_numeral(out: &mut Vec<u8>, number: u128) -> Result<(), AllocError>
    ensures { OnOk result (out.new.items ≡ out.old.items ++ numeral number) }
{
    let mut buffer = Buffer::new();
    out.extend_from_slice(buffer.format(number).as_bytes())
}
