//! Sums, products and quotients.
ghost use Rattle.std.specs.Prelude.{◌≡◌, ℕ, ◌+◌, ◌-◌, ◌*◌, ◌/◌, ◌%◌, ◌^◌, ◌<◌, ◌≤◌, ◌==◌, if◌then◌else◌};
ghost use Rattle.scalar_domain.specs.Scalar.{Holds, IsConstant};
ghost use Rattle.scalar_domain.specs.Mask.{Within, AreKnownBelow};
ghost use Rattle.scalar_domain.specs.Precision.{Adds, Subtracts};

use crate::known::KnownBits;
use crate::scalar::Scalar;

/// How many words there are.
const WORDS: u128 = 1 << 64;

/// All ones from the lowest one of the mask up.
pub(crate) fn ones_from(mask: u64) -> u64
    ensures multiples { (n : ℕ) → n < 2 ^ 64
        → ((t : ℕ) → t ≤ 64 → mask % 2 ^ t ≡ 0 → n % 2 ^ t ≡ 0) → Within n result }
    ensures zeros { (t : ℕ) → t ≤ 64 → mask % 2 ^ t ≡ 0 → result % 2 ^ t ≡ 0 }
{
    if mask == 0 {
        0
    } else {
        u64::MAX << mask.trailing_zeros()
    }
}

impl Scalar {
    /// The numbers between two bounds whose ones stand in a mask.
    #[tactic(auto, using(crate::proofs::Bits::bits_laws))]
    fn masked(least: u64, greatest: u64, may: u64) -> Scalar
        requires { least ≤ greatest }
        ensures sound { (n : ℕ) → least ≤ n → n ≤ greatest → Within n may → Holds result n }
        ensures least { result.least ≡ least }
        ensures greatest { result.greatest ≡ greatest }
        ensures zeros { result.may ≡ may }
    {
        Scalar::new(least, greatest, may, 0)
    }

    /// What is known of the bits of its numbers.
    fn bits(self) -> KnownBits
        ensures zeros { result.may ≡ self.may }
        ensures ones { result.must ≡ self.must }
    {
        KnownBits {
            may: self.may,
            must: self.must,
        }
    }

    /// The numbers with all bits turned over.
    fn complement(self) -> Scalar
        ensures sound { (x : ℕ) → x < 2 ^ 64 → Holds self x → Holds result (2 ^ 64 - 1 - x) }
        ensures least { result.least ≡ 2 ^ 64 - 1 - self.greatest }
        ensures greatest { result.greatest ≡ 2 ^ 64 - 1 - self.least }
        ensures low { (t : ℕ) → t ≤ 64 → AreKnownBelow t self.may self.must
            → AreKnownBelow t result.may result.must }
    {
        Scalar::new(!self.greatest, !self.least, !self.must, !self.may)
    }

    /// Sums with a carry. The bounds are those of the sums where none leaves 64 bits, or where all
    /// do, and else what the bits say.
    fn sum(self, other: Scalar, carry: u64) -> Scalar
        requires { carry ≤ 1 }
        ensures sound { (x y : ℕ) → Holds self x → Holds other y
            → Holds result ((x + y + carry) % 2 ^ 64) }
        ensures inside { self.greatest + other.greatest + carry < 2 ^ 64
            → (result.least ≡ self.least + other.least + carry)
            × (result.greatest ≡ self.greatest + other.greatest + carry) }
        ensures past { 2 ^ 64 ≤ self.least + other.least + carry
            → (result.least + 2 ^ 64 ≡ self.least + other.least + carry)
            × (result.greatest + 2 ^ 64 ≡ self.greatest + other.greatest + carry) }
        ensures low { (t : ℕ) → t ≤ 64 → AreKnownBelow t self.may self.must
            → AreKnownBelow t other.may other.must → AreKnownBelow t result.may result.must }
        ensures ones { Within result.must ((self.must + other.must + carry) % 2 ^ 64) }
    {
        let bits = self.bits().add(other.bits(), carry);
        let least = u128::from(self.least) + u128::from(other.least) + u128::from(carry);
        let greatest = u128::from(self.greatest) + u128::from(other.greatest) + u128::from(carry);
        if least / WORDS == greatest / WORDS {
            Scalar::new(
                (least % WORDS) as u64,
                (greatest % WORDS) as u64,
                bits.may,
                bits.must,
            )
        } else {
            Scalar::from_bits(bits.may, bits.must)
        }
    }

    /// The sums modulo 2^64 of the numbers of two sets.
    pub(crate) fn add(self, other: Scalar) -> Scalar
        ensures sound { (x y : ℕ) → x < 2 ^ 64 → y < 2 ^ 64 → Holds self x → Holds other y
            → Holds result ((x + y) % 2 ^ 64) }
        ensures precise { Adds self other result }
    {
        self.sum(other, 0)
    }

    /// The differences modulo 2^64 of the numbers of two sets: sums with the complement of the other, and 1.
    pub(crate) fn subtract(self, other: Scalar) -> Scalar
        ensures sound { (x y : ℕ) → x < 2 ^ 64 → y < 2 ^ 64 → Holds self x → Holds other y
            → Holds result ((x + (2 ^ 64 - y)) % 2 ^ 64) }
        ensures precise { Subtracts self other result }
    {
        self.sum(other.complement(), 1)
    }

    /// The products modulo 2^64 of the numbers of two sets. Low bits that are 0 in a factor are 0 in them.
    pub(crate) fn multiply(self, other: Scalar) -> Scalar
        ensures { (x y : ℕ) → x < 2 ^ 64 → y < 2 ^ 64 → Holds self x → Holds other y
            → Holds result ((x * y) % 2 ^ 64) }
    {
        let may = ones_from(self.may) & ones_from(other.may);
        match self.greatest.checked_mul(other.greatest) {
            Some(greatest) => Scalar::masked(self.least.wrapping_mul(other.least), greatest, may),
            None => Scalar::masked(0, u64::MAX, may),
        }
    }

    /// The quotients of the numbers of two sets; by zero it is 0.
    pub(crate) fn divide(self, other: Scalar) -> Scalar
        ensures { (x y : ℕ) → Holds self x → Holds other y
            → Holds result (if y == 0 then 0 else x / y) }
    {
        if other.least == 0 {
            Scalar::between(0, self.greatest)
        } else {
            Scalar::between(
                self.least / other.greatest.max(1),
                self.greatest / other.least,
            )
        }
    }

    /// The remainders of the numbers of two sets; by zero it is the dividend.
    pub(crate) fn remainder(self, other: Scalar) -> Scalar
        ensures sound { (x y : ℕ) → Holds self x → Holds other y
            → Holds result (if y == 0 then x else x % y) }
        ensures precise { (k : ℕ) → IsConstant other k → 0 < k → result.greatest < k }
    {
        if other.least == 0 {
            Scalar::between(0, self.greatest)
        } else if self.greatest < other.least {
            self
        } else {
            Scalar::between(0, self.greatest.min(other.greatest.saturating_sub(1)))
        }
    }
}
