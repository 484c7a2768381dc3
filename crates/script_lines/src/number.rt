//! Numbers in decimal.
ghost use Rattle.std.specs.Prelude.{◌≡◌, ◌+◌, ◌*◌, ◌<◌, ◌≤◌, ◌&&◌, ◌^◌, nat_lt, if◌then◌else◌, Some, None, IfSome, IfNone};
ghost use Rattle.std.specs.Str.{all_ascii_digits};
ghost use Rattle.std.specs.Str.Parse.{digits_value};
ghost use Rattle.script_lines.specs.Words.{number_in};

/// The number with one more digit at its end, where it is below 2^64.
fn push_digit(value: u64, digit: u8) -> Option<u64>
    requires { digit < 10 }
    ensures some { IfSome result (λ next. next ≡ value * 10 + digit) }
    ensures limit { IfSome result (λ next. next < 2 ^ 64) }
    ensures none { IfNone result (2 ^ 64 ≤ value * 10 + digit) }
{
    let tens = value.checked_mul(10)?;
    tens.checked_add(u64::from(digit))
}

/// The number that the digits write, where each byte is one and the number is below 2^64.
fn read_digits(digits: &[u8]) -> Option<u64>
    ensures { result
        ≡ (if all_ascii_digits digits.now && nat_lt (digits_value 10 digits.now) (2 ^ 64)
        then Some (digits_value 10 digits.now) else None) }
{
    let mut value: u64 = 0;
    for digit in digits {
        if !digit.is_ascii_digit() {
            return None;
        }
        match push_digit(value, *digit - b'0') {
            Some(next) => value = next,
            None => return None,
        }
    }
    Some(value)
}

/// The number that a word writes: decimal digits alone, without leading zeros, below 2^64. `None` for every other word.
pub fn number_of(word: &[u8]) -> Option<u64>
    ensures { result ≡ number_in word.now }
{
    if word.is_empty() {
        return None;
    }
    if word.len() > 1 && word[0] == b'0' {
        return None;
    }
    read_digits(word)
}
