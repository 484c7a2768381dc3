//! Operations on bits.
ghost use Rattle.std.specs.Prelude.{◌≡◌, ℕ, ◌*◌, ◌/◌, ◌%◌, ◌^◌, ◌<◌, ◌≤◌, bit_and, bit_or, bit_xor};
ghost use Rattle.scalar_domain.specs.Scalar.{Holds, IsConstant};
ghost use Rattle.scalar_domain.specs.Mask.{Within};
ghost use Rattle.scalar_domain.specs.Precision.{Masks, ShiftsLeft, ShiftsRight};

use crate::scalar::Scalar;

/// All ones from the highest one of the number down.
pub(crate) fn ones_up_to(n: u64) -> u64
    ensures { (x : ℕ) → x ≤ n → Within x result }
{
    if n == 0 {
        0
    } else {
        u64::MAX >> n.leading_zeros()
    }
}

impl Scalar {
    /// The numbers whose ones stand in `may` and that have those of `must`.
    #[tactic(auto, using(crate::proofs::Bits::bits_laws))]
    pub(crate) fn from_bits(may: u64, must: u64) -> Scalar
        requires { Within must may }
        ensures sound { (n : ℕ) → Within n may → Within must n → Holds result n }
        ensures zeros { result.may ≡ may }
        ensures ones { result.must ≡ must }
        ensures greatest { result.greatest ≡ may }
    {
        Scalar::new(must, may, may, must)
    }

    /// The numbers between two bounds.
    #[tactic(auto, using(crate::proofs::Bits::bits_laws))]
    pub(crate) fn between(least: u64, greatest: u64) -> Scalar
        requires { least ≤ greatest }
        ensures sound { (n : ℕ) → least ≤ n → n ≤ greatest → Holds result n }
        ensures least { result.least ≡ least }
        ensures greatest { result.greatest ≡ greatest }
    {
        Scalar::new(least, greatest, ones_up_to(greatest), 0)
    }

    /// The bits that may be one, by the mask and by the greatest number.
    pub(crate) fn possible_ones(self) -> u64
        ensures { (n : ℕ) → Holds self n → Within n result }
    {
        self.may & ones_up_to(self.greatest)
    }

    /// This set, with each bit of the number known where it holds one number alone.
    fn with_known_bits(self) -> Scalar
        ensures sound { (n : ℕ) → Holds self n → Holds result n }
        ensures least { result.least ≡ self.least }
        ensures greatest { result.greatest ≡ self.greatest }
        ensures constant { (n : ℕ) → IsConstant self n → Within result.may n }
    {
        match self.as_constant() {
            Some(n) => Scalar::constant(n),
            None => self,
        }
    }

    /// The bits that both have.
    #[tactic(auto, using(crate::proofs::Bits::bits_laws))]
    pub(crate) fn and(self, other: Scalar) -> Scalar
        ensures sound { (x y : ℕ) → Holds self x → Holds other y → Holds result (bit_and x y) }
        ensures greatest { result.greatest ≤ other.greatest }
        ensures zeros { Within result.may other.may }
    {
        let may = self.may & other.may;
        let must = self.must & other.must;
        let greatest = self.greatest.min(other.greatest).min(may);
        Scalar::new(must.min(greatest), greatest, may, must)
    }

    /// The bits that both operands have, as `and`, but exact where the mask holds one number alone.
    pub(crate) fn mask(self, other: Scalar) -> Scalar
        ensures sound { (x y : ℕ) → Holds self x → Holds other y → Holds result (bit_and x y) }
        ensures precise { (k : ℕ) → IsConstant other k → Masks k result }
    {
        self.and(other.with_known_bits())
    }

    /// The bits that either has.
    #[tactic(auto, using(crate::proofs::Bits::bits_laws))]
    pub(crate) fn or(self, other: Scalar) -> Scalar
        ensures sound { (x y : ℕ) → Holds self x → Holds other y → Holds result (bit_or x y) }
    {
        let may = self.possible_ones() | other.possible_ones();
        let must = (self.must | other.must) & may;
        Scalar::new(
            self.least.max(other.least).max(must).min(may),
            may,
            may,
            must,
        )
    }

    /// The bits that one of the two has.
    pub(crate) fn xor(self, other: Scalar) -> Scalar
        ensures sound { (x y : ℕ) → Holds self x → Holds other y → Holds result (bit_xor x y) }
    {
        Scalar::from_bits(self.possible_ones() | other.possible_ones(), 0)
    }

    /// Of each number its low bits alone.
    pub(crate) fn low_bits(self, count: u32) -> Scalar
        requires { count < 64 }
        ensures sound { (x : ℕ) → Holds self x → Holds result (x % 2 ^ count) }
        ensures greatest { result.greatest < 2 ^ count }
    {
        let modulus = 1 << count;
        let may = self.may % modulus;
        let must = self.must % modulus;
        if self.least / modulus == self.greatest / modulus {
            Scalar::new(self.least % modulus, self.greatest % modulus, may, must)
        } else {
            Scalar::from_bits(may, must)
        }
    }

    /// Each number shifted to the left, by less than 64.
    pub(crate) fn shift_left(self, by: u32) -> Scalar
        requires { by < 64 }
        ensures sound { (x : ℕ) → x < 2 ^ 64 → Holds self x → Holds result ((x * 2 ^ by) % 2 ^ 64) }
        ensures precise { ShiftsLeft by self result }
    {
        let may = self.may << by;
        let must = self.must << by;
        if self.greatest <= u64::MAX >> by {
            Scalar::new(self.least << by, self.greatest << by, may, must)
        } else {
            Scalar::from_bits(may, must)
        }
    }

    /// Each number shifted to the right, by less than 64.
    pub(crate) fn shift_right(self, by: u32) -> Scalar
        requires { by < 64 }
        ensures sound { (x : ℕ) → Holds self x → Holds result (x / 2 ^ by) }
        ensures precise { ShiftsRight by self result }
    {
        Scalar::new(
            self.least >> by,
            self.greatest >> by,
            self.may >> by,
            self.must >> by,
        )
    }

    /// Each number shifted to the left by the amount modulo a size; an unknown amount gives any number.
    pub(crate) fn shift_left_by(self, amount: Scalar, size: u64) -> Scalar
        requires positive { 0 < size }
        requires word { size ≤ 64 }
        ensures sound { (x y : ℕ) → x < 2 ^ 64 → Holds self x → Holds amount y
            → Holds result ((x * 2 ^ (y % size)) % 2 ^ 64) }
        ensures precise { (k : ℕ) → IsConstant amount k → k < size → ShiftsLeft k self result }
    {
        match amount.as_constant() {
            Some(k) => self.shift_left((k % size) as u32),
            None => Scalar::unknown(),
        }
    }

    /// Each number shifted to the right by the amount modulo a size; an unknown amount gives numbers up to
    /// the greatest.
    pub(crate) fn shift_right_by(self, amount: Scalar, size: u64) -> Scalar
        requires positive { 0 < size }
        requires word { size ≤ 64 }
        ensures sound { (x y : ℕ) → Holds self x → Holds amount y
            → Holds result (x / 2 ^ (y % size)) }
        ensures precise { (k : ℕ) → IsConstant amount k → k < size → ShiftsRight k self result }
    {
        match amount.as_constant() {
            Some(k) => self.shift_right((k % size) as u32),
            None => Scalar::between(0, self.greatest),
        }
    }
}
