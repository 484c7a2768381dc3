//! Sets of 64-bit numbers, by their bounds and known bits.
ghost use Rattle.std.specs.Prelude.{◌≡◌, ℕ, ◌<◌, ◌≤◌, ◌-◌, ◌^◌, IsTrue, MatchOption, min, max, bit_and, bit_or, ◌↔◌};
ghost use Rattle.bpf_model.specs.Access.{byte_count};
ghost use Rattle.scalar_domain.specs.Mask.{Within};

use bpf_model::Width;

/// A set of 64-bit numbers: those from `least` to `greatest` whose ones all stand in `may` and
/// which have all the ones of `must`. So a bit that is 0 in `may` is known to be 0, and one that is
/// 1 in `must` is known to be 1. The bounds are in order, and no bit is known to be both.
#[derive(Clone, Copy, Debug, PartialEq, Eq)]
pub struct Scalar {
    pub least: u64,
    pub greatest: u64,
    pub may: u64,
    pub must: u64,
    pub ghost ordered: { least ≤ greatest },
    pub ghost consistent: { Within must may },
}

impl Scalar {
    ghost use Rattle.scalar_domain.specs.Scalar.{Holds, IsConstant};
    ghost use Rattle.scalar_domain.specs.Constant.{constant_of};
    ghost use Rattle.scalar_domain.specs.Floor.{KeepsLoadFloor};

    /// The numbers between two bounds, by what bits may and must be one.
    pub(crate) fn new(least: u64, greatest: u64, may: u64, must: u64) -> Scalar
        requires ordered { least ≤ greatest }
        requires consistent { Within must may }
        ensures sound { (n : ℕ) → least ≤ n → n ≤ greatest → Within n may → Within must n
            → Holds result n }
        ensures least { result.least ≡ least }
        ensures greatest { result.greatest ≡ greatest }
        ensures zeros { result.may ≡ may }
        ensures ones { result.must ≡ must }
    {
        Scalar {
            least,
            greatest,
            may,
            must,
        }
    }

    /// This number alone.
    #[tactic(auto, using(crate::proofs::Bits::bits_laws))]
    pub fn constant(n: u64) -> Scalar
        ensures value { result ≡ constant_of n }
        ensures sound { Holds result n }
        ensures exact { IsConstant result n }
        ensures zeros { result.may ≡ n }
        ensures ones { result.must ≡ n }
    {
        Scalar::new(n, n, n, n)
    }

    /// Every number.
    #[tactic(auto, using(crate::proofs::Bits::bits_laws))]
    pub fn unknown() -> Scalar
        ensures sound { (n : ℕ) → n < 2 ^ 64 → Holds result n }
    {
        Scalar::new(0, u64::MAX, u64::MAX, 0)
    }

    /// The numbers that a load of this width without sign can give.
    #[tactic(auto, using(crate::proofs::Bits::bits_laws))]
    pub fn loaded(width: Width) -> Scalar
        ensures sound { (n : ℕ) → n < 256 ^ byte_count width → Holds result n }
        ensures least { result.least ≡ 0 }
        ensures greatest { result.greatest ≡ 256 ^ byte_count width - 1 }
        ensures floor { KeepsLoadFloor width result }
    {
        let greatest = match width {
            Width::One => 0xff,
            Width::Two => 0xffff,
            Width::Four => 0xffff_ffff,
            Width::Eight => u64::MAX,
        };
        Scalar::new(0, greatest, greatest, 0)
    }

    /// The numbers of both sets, and those between: the hull of the bounds, and the bits that
    /// agree.
    #[tactic(auto, using(crate::proofs::Bits::bits_laws))]
    pub fn join(self, other: Scalar) -> Scalar
        ensures left { (n : ℕ) → Holds self n → Holds result n }
        ensures right { (n : ℕ) → Holds other n → Holds result n }
        ensures least { result.least ≡ min self.least other.least }
        ensures greatest { result.greatest ≡ max self.greatest other.greatest }
        ensures zeros { result.may ≡ bit_or self.may other.may }
        ensures ones { result.must ≡ bit_and self.must other.must }
    {
        Scalar::new(
            self.least.min(other.least),
            self.greatest.max(other.greatest),
            self.may | other.may,
            self.must & other.must,
        )
    }

    /// The same set, in a place of its own: where a call in a branch takes it from there, what is done without the
    /// call can keep the set in registers.
    #[inline(always)]
    pub(crate) fn copied(self) -> Scalar
        ensures { result ≡ self }
    {
        Scalar {
            least: self.least,
            greatest: self.greatest,
            may: self.may,
            must: self.must,
        }
    }

    /// The number that the scalar stands for alone; `None` where it does not stand for one number alone.
    pub fn as_constant(self) -> Option<u64>
        ensures { MatchOption result ((n : ℕ) → IsConstant self n → ⊥) (λ n. IsConstant self n) }
    {
        if self.least == self.greatest && self.contains(self.least) {
            Some(self.least)
        } else {
            None
        }
    }

    /// Whether this number is one of those that the scalar stands for.
    pub fn contains(self, n: u64) -> bool
        ensures { IsTrue result ↔ Holds self n }
    {
        self.least <= n && n <= self.greatest && n & self.may == n && self.must & n == self.must
    }
}
