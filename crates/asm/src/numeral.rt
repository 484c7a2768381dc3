//! Numbers in decimal, of any size.
ghost use Rattle.std.specs.Prelude.{ℕ, ◌≡◌, ◌≢◌, ◌+◌, ◌*◌, ◌<◌, ◌≤◌, ◌^◌, length, slice_index, IfSome, IfNone};
ghost use Rattle.std.specs.Int.{IsInRange};
ghost use Rattle.disasm.specs.Text.{glyphs, numeral};
ghost use Rattle.asm.specs.Reading.{capped};

/// 2^64, which stands for each number from 2^64 on: no instruction takes one.
pub(crate) const CAP: u128 = 0x1_0000_0000_0000_0000;

/// The number with one more digit at its end.
fn push_digit(value: u128, digit: u8) -> u128
    requires value { value ≤ 2 ^ 64 }
    requires digit { digit < 10 }
    ensures value { (n : ℕ) → value ≡ capped n → result ≡ capped (n * 10 + digit) }
    ensures limit { result ≤ 2 ^ 64 }
{
    let next = value * 10 + u128::from(digit);
    if next < CAP { next } else { CAP }
}

/// The number that digits write, of which the first is not 0; `None` where one of them is no digit.
fn read_digits(digits: &[u8]) -> Option<u128>
    requires some { 0 < length digits.now }
    requires first { slice_index digits.now 0 ≢ 48 }
    ensures found { IfSome result (λ value. (n : ℕ) ×
        (0 < n) × (digits.now ≡ glyphs n) × (value ≡ capped n)) }
    ensures none { IfNone result ((k : ℕ) ×
        (k < length digits.now) × ¬ (IsInRange 48 57 (slice_index digits.now k))) }
{
    let mut value = 0;
    for digit in digits {
        if !digit.is_ascii_digit() {
            return None;
        }
        value = push_digit(value, *digit - b'0');
    }
    Some(value)
}

/// The number that the text is the numeral of, without leading zeros.
pub fn read_numeral(text: &str) -> Option<u128>
    ensures found { IfSome result (λ value. (n : ℕ) ×
        (text.now ≡ numeral n) × (value ≡ capped n)) }
    ensures only { (n : ℕ) → text.now ≡ numeral n → result ≡ Some (capped n) }
{
    match text.as_bytes() {
        [] => None,
        [b'0'] => Some(0),
        [b'0', ..] => None,
        digits => read_digits(digits),
    }
}
