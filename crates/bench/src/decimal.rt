//! Numbers with two decimal places.
ghost use Rattle.std.specs.Prelude.{◌≡◌, ◌<◌, ◌*◌, ◌/◌, ◌%◌, ◌^◌};

/// A number with two decimal places: a whole number, and hundredths from 0 to 99.
#[derive(Clone, Copy)]
pub struct Decimal {
    pub whole: u128,
    pub hundredths: u128,
}

/// A quotient to two decimal places, rounded down.
pub fn quotient(dividend: u128, divisor: u128) -> Decimal
    requires positive { 0 < divisor }
    requires small { divisor < 2 ^ 64 }
    ensures whole { result.whole ≡ dividend / divisor }
    ensures hundredths { result.hundredths ≡ 100 * (dividend % divisor) / divisor }
{
    Decimal {
        whole: dividend / divisor,
        hundredths: 100 * (dividend % divisor) / divisor,
    }
}
