//! What a conditional jump tells.
ghost use Rattle.std.specs.Prelude.{◌≡◌, ◌≢◌, ℕ, ◌%◌, ◌<◌, ◌≤◌, ◌⊎◌, ◌^◌, IfSome, IsSome, IsSomeAnd, Bool, true, false};
ghost use Rattle.std.specs.Int.{w32, w64};
ghost use Rattle.bpf_model.specs.Arithmetic.{compares, holds};
ghost use Rattle.bpf_model.specs.declared.opcode.Size.TheVariants.{Word64};
ghost use Rattle.scalar_domain.specs.Mask.{Within};
ghost use Rattle.scalar_domain.specs.Scalar.{Holds, HoldsSome, IsConstant, IsNoWider};
ghost use Rattle.scalar_domain.specs.Floor.{KeepsEdgeFloor};
ghost use Rattle.scalar_domain.specs.Relation.{Related, SignedRelated, Bounding, MovesBounds, GoesAlong, TellsDifferent, IsNoBound, AreHeld, AreNoWider, IsBetween, FitsSize, Counts, LeavesPairs, LeavesSome, LeavesNumbers, Told, ToldSigned, relation_on};

use crate::relation::{Relation, condition_without_sign, is_signed, relation_of};
use crate::scalar::Scalar;
use bpf_model::{Condition, Size};

/// The bits of the high half of a word.
const HIGH_HALF: u64 = 0xffff_ffff_0000_0000;

/// What remains of two sets on either edge of a conditional jump, of the left side and the right.
#[derive(Clone, Copy, Debug, PartialEq, Eq)]
pub struct JumpEdges {
    /// Where the jump is taken.
    pub taken: (Scalar, Scalar),
    /// Where it is not.
    pub not_taken: (Scalar, Scalar),
}

impl Scalar {
    /// What remains of two sets on the edges of a conditional jump. Where that would leave no number of one of
    /// them on an edge, by bounds and known bits together, both stay as they are there.
    #[inline(always)]
    pub fn refine(size: Size, condition: Condition, a: Scalar, b: Scalar) -> JumpEdges
        ensures sound { (x y : ℕ) → x < 2 ^ 64 → y < 2 ^ 64 → Holds a x → Holds b y
            → compares size condition x y ≡ true → AreHeld x y result.taken }
        ensures floor { KeepsEdgeFloor size condition true a b result.taken.0 result.taken.1 }
        ensures remains { (result.taken ≡ (a, b))
            ⊎ (HoldsSome result.taken.0 × HoldsSome result.taken.1) }
        ensures kept { FitsSize size a → FitsSize size b
            → (LeavesNumbers size condition true a b → ⊥) → result.taken ≡ (a, b) }
        ensures sound_not_taken { (x y : ℕ) → x < 2 ^ 64 → y < 2 ^ 64 → Holds a x → Holds b y
            → compares size condition x y ≡ false → AreHeld x y result.not_taken }
        ensures floor_not_taken { KeepsEdgeFloor size condition false a b
            result.not_taken.0 result.not_taken.1 }
        ensures remains_not_taken { (result.not_taken ≡ (a, b))
            ⊎ (HoldsSome result.not_taken.0 × HoldsSome result.not_taken.1) }
        ensures kept_not_taken { FitsSize size a → FitsSize size b
            → (LeavesNumbers size condition false a b → ⊥) → result.not_taken ≡ (a, b) }
    {
        match (a.as_constant(), b.as_constant()) {
            (Some(_), Some(_)) => JumpEdges {
                taken: (a, b),
                not_taken: (a, b),
            },
            _ => JumpEdges {
                taken: refine_sets(size, condition, a.copied(), b.copied(), true),
                not_taken: refine_sets(size, condition, a.copied(), b.copied(), false),
            },
        }
    }

    /// Two constants stay as they are on the edges of a conditional jump, and are then as narrow as `refine`
    /// promises.
    pub fn constants_stay()
        ensures { (size : Size) (condition : Condition) (taken : Bool) (a b : Scalar) (k l : ℕ)
            → IsConstant a k → IsConstant b l → KeepsEdgeFloor size condition taken a b a b }
    {}

    /// The numbers between two bounds, where any are left.
    fn clip(self, least: u64, greatest: u64) -> Option<Scalar>
        ensures sound { (x : ℕ) → Holds self x → least ≤ x → x ≤ greatest
            → IfSome result (λ r. Holds r x) }
        ensures no_wider { IfSome result (λ r. IsNoWider r self) }
        ensures bounds { IfSome result (λ r. (least ≤ r.least) × (r.greatest ≤ greatest)) }
        ensures found { (x : ℕ) → IsBetween self x → least ≤ x → x ≤ greatest → IsSome result }
    {
        let least = self.least.max(least);
        let greatest = self.greatest.min(greatest);
        if least > greatest {
            return None;
        }
        Some(Scalar::new(least, greatest, self.may, self.must))
    }

    /// The numbers but this one, where it is a bound.
    fn without(self, k: u64) -> Option<Scalar>
        ensures sound { (x : ℕ) → x < 2 ^ 64 → Holds self x → x ≢ k
            → IfSome result (λ r. Holds r x) }
        ensures no_wider { IfSome result (λ r. IsNoWider r self) }
        ensures other { IfSome result (λ r. (r ≡ self) ⊎ ((x : ℕ) → IsBetween r x → x ≢ k)) }
        ensures apart { (x : ℕ) → IsBetween self x → x ≢ k
            → IsSomeAnd result (λ r. IsNoBound r k) }
    {
        if self.least == k {
            self.clip(k.checked_add(1)?, u64::MAX)
        } else if self.greatest == k {
            self.clip(0, k.checked_sub(1)?)
        } else {
            Some(self)
        }
    }

    /// The numbers whose low half is one of these.
    fn with_low(self, low: Scalar) -> Option<Scalar>
        ensures sound { (x : ℕ) → x < 2 ^ 64 → Holds self x → Holds low (x % 2 ^ 32)
            → IfSome result (λ r. Holds r x) }
        ensures no_wider { IfSome result (λ r. IsNoWider r self) }
    {
        self.with_bits(HIGH_HALF | low.possible_ones(), low.must)
    }

    /// The numbers whose bits are also within these masks; `None` where a bit would be known both
    /// 0 and 1.
    fn with_bits(self, may: u64, must: u64) -> Option<Scalar>
        ensures sound { (x : ℕ) → Holds self x → Within x may → Within must x
            → IfSome result (λ r. Holds r x) }
        ensures no_wider { IfSome result (λ r. IsNoWider r self) }
        ensures bits { IfSome result (λ r. Within r.may may × Within must r.must) }
        ensures bounds { IfSome result (λ r. (r.least ≡ self.least) × (r.greatest ≡ self.greatest)) }
        ensures found { (x : ℕ) → Holds self x → Within x may → Within must x → IsSome result }
    {
        let may = self.may & may;
        let must = self.must | must;
        if must & may != must {
            return None;
        }
        Some(Scalar::new(self.least, self.greatest, may, must))
    }
}

/// As `Scalar::refine`, where one of both may have several numbers: two constants stay as they are.
#[inline(never)]
fn refine_sets(
    size: Size,
    condition: Condition,
    a: Scalar,
    b: Scalar,
    taken: bool,
) -> (Scalar, Scalar)
    ensures sound { (x y : ℕ) → x < 2 ^ 64 → y < 2 ^ 64 → Holds a x → Holds b y
        → compares size condition x y ≡ taken → AreHeld x y result }
    ensures floor { KeepsEdgeFloor size condition taken a b result.0 result.1 }
    ensures remains { (result ≡ (a, b)) ⊎ (HoldsSome result.0 × HoldsSome result.1) }
    ensures kept { FitsSize size a → FitsSize size b
        → (LeavesNumbers size condition taken a b → ⊥) → result ≡ (a, b) }
{
    match refine_words(size, condition, a, b, taken) {
        Some((left, right)) => {
            if left.is_inhabited() && right.is_inhabited() {
                (left, right)
            } else {
                (a, b)
            }
        }
        None => (a, b),
    }
}

/// What remains, by 64 bits or by the low 32; of 32, numbers with a high half learn known bits alone.
fn refine_words(
    size: Size,
    condition: Condition,
    a: Scalar,
    b: Scalar,
    taken: bool,
) -> Option<(Scalar, Scalar)>
    ensures sound { (x y : ℕ) → x < 2 ^ 64 → y < 2 ^ 64 → Holds a x → Holds b y
        → compares size condition x y ≡ taken → IfSome result (AreHeld x y) }
    ensures no_wider { IfSome result (AreNoWider a b) }
    ensures bounds { (k x : ℕ) → size ≡ Word64 → MovesBounds condition taken → IsConstant b k
        → Holds a x → holds w64 condition x k ≡ taken
        → IsSomeAnd result (λ p. GoesAlong condition taken p.0 k) }
    ensures apart { (k x : ℕ) → size ≡ Word64 → TellsDifferent condition taken → IsConstant b k
        → Holds a x → x ≢ k → IsSomeAnd result (λ p. IsNoBound p.0 k) }
    ensures remains { FitsSize size a → FitsSize size b
        → IfSome result (LeavesSome (λ x y. compares size condition x y ≡ taken)
        (Counts (relation_on condition taken)) a b) }
{
    match size {
        Size::Word64 => refine_wide(condition, a, b, taken),
        Size::Word32 => {
            if a.greatest < 0x1_0000_0000 && b.greatest < 0x1_0000_0000 {
                refine_narrow(condition, a, b, taken)
            } else {
                refine_low(condition, a, b, taken)
            }
        }
    }
}

/// What remains by a condition on 64 bits; `None` where it tells nothing, or no number remains.
fn refine_wide(condition: Condition, a: Scalar, b: Scalar, taken: bool) -> Option<(Scalar, Scalar)>
    ensures sound { (x y : ℕ) → x < 2 ^ 64 → y < 2 ^ 64 → Holds a x → Holds b y
        → holds w64 condition x y ≡ taken → IfSome result (AreHeld x y) }
    ensures no_wider { IfSome result (AreNoWider a b) }
    ensures bounds { (k x : ℕ) → MovesBounds condition taken → IsConstant b k → Holds a x
        → holds w64 condition x k ≡ taken
        → IsSomeAnd result (λ p. GoesAlong condition taken p.0 k) }
    ensures apart { (k x : ℕ) → TellsDifferent condition taken → IsConstant b k → Holds a x
        → x ≢ k → IsSomeAnd result (λ p. IsNoBound p.0 k) }
    ensures remains { IfSome result (LeavesSome (λ x y. holds w64 condition x y ≡ taken)
        (Counts (relation_on condition taken)) a b) }
{
    if is_signed(condition) {
        let relation = relation_of(condition_without_sign(condition), taken);
        relate_signed(relation, a, b, 1 << 63)
    } else {
        relate(relation_of(condition, taken), a, b)
    }
}

/// What remains by a condition on 32 bits, of numbers below 2^32; `None` as `refine_wide`.
fn refine_narrow(
    condition: Condition,
    a: Scalar,
    b: Scalar,
    taken: bool,
) -> Option<(Scalar, Scalar)>
    ensures sound { (x y : ℕ) → x < 2 ^ 32 → y < 2 ^ 32 → Holds a x → Holds b y
        → holds w32 condition x y ≡ taken → IfSome result (AreHeld x y) }
    ensures no_wider { IfSome result (AreNoWider a b) }
    ensures remains { IfSome result (LeavesSome (λ x y. holds w32 condition x y ≡ taken)
        (Counts (relation_on condition taken)) a b) }
{
    if is_signed(condition) {
        let relation = relation_of(condition_without_sign(condition), taken);
        relate_signed(relation, a, b, 1 << 31)
    } else {
        relate(relation_of(condition, taken), a, b)
    }
}

/// What remains by a condition on the low 32 bits, of any numbers: bits of their low halves.
fn refine_low(condition: Condition, a: Scalar, b: Scalar, taken: bool) -> Option<(Scalar, Scalar)>
    ensures sound { (x y : ℕ) → x < 2 ^ 64 → y < 2 ^ 64 → Holds a x → Holds b y
        → holds w32 condition (x % 2 ^ 32) (y % 2 ^ 32) ≡ taken → IfSome result (AreHeld x y) }
    ensures no_wider { IfSome result (AreNoWider a b) }
{
    let (left, right) = refine_narrow(condition, a.low_bits(32), b.low_bits(32), taken)?;
    if !left.is_inhabited() || !right.is_inhabited() {
        return None;
    }
    Some((a.with_low(left)?, b.with_low(right)?))
}

/// As `relate`, by the order of signed numbers, which tells something where the lesser side has no
/// sign.
fn relate_signed(relation: Relation, a: Scalar, b: Scalar, sign: u64) -> Option<(Scalar, Scalar)>
    requires { 0 < sign }
    ensures sound { (x y : ℕ) → x < 2 ^ 64 → y < 2 ^ 64 → Holds a x → Holds b y
        → SignedRelated sign relation x y → IfSome result (AreHeld x y) }
    ensures no_wider { IfSome result (AreNoWider a b) }
    ensures remains { IfSome result (LeavesPairs (ToldSigned sign relation) IsBetween a b) }
{
    match relation {
        Relation::Below if a.greatest < sign => below(a, b.clip(0, sign - 1)?),
        Relation::AtMost if a.greatest < sign => at_most(a, b.clip(0, sign - 1)?),
        Relation::Above if b.greatest < sign => {
            let (right, left) = below(b, a.clip(0, sign - 1)?)?;
            Some((left, right))
        }
        Relation::AtLeast if b.greatest < sign => {
            let (right, left) = at_most(b, a.clip(0, sign - 1)?)?;
            Some((left, right))
        }
        _ => None,
    }
}

/// The numbers that stand in this relation to one of the other side; `None` where there are none by
/// the bounds or by the known bits, or where the relation tells nothing.
fn relate(relation: Relation, a: Scalar, b: Scalar) -> Option<(Scalar, Scalar)>
    ensures sound { (x y : ℕ) → x < 2 ^ 64 → y < 2 ^ 64 → Holds a x → Holds b y
        → Related relation x y → IfSome result (AreHeld x y) }
    ensures no_wider { IfSome result (AreNoWider a b) }
    ensures bounds { (k x : ℕ) → IsConstant b k → Holds a x → Bounding relation
        → Related relation x k
        → IsSomeAnd result (λ p. Related relation p.0.least k × Related relation p.0.greatest k) }
    ensures apart { (k x : ℕ) → relation ≡ Relation.Different → IsConstant b k → Holds a x
        → x ≢ k → IsSomeAnd result (λ p. IsNoBound p.0 k) }
    ensures remains { IfSome result (LeavesSome (Told relation) (Counts relation) a b) }
{
    match relation {
        Relation::Below => below(a, b),
        Relation::AtMost => at_most(a, b),
        Relation::Above => {
            let (right, left) = below(b, a)?;
            Some((left, right))
        }
        Relation::AtLeast => {
            let (right, left) = at_most(b, a)?;
            Some((left, right))
        }
        Relation::Equal => equal(a, b),
        Relation::Different => different(a, b),
        Relation::Apart => {
            let left = a.with_bits(!b.must, 0)?;
            let right = b.with_bits(!a.must, 0)?;
            Some((left, right))
        }
        Relation::Unknown => None,
    }
}

/// The numbers of each side without the one number of the other, where it has but one. `None` where
/// neither has but one, or where none is left.
fn different(a: Scalar, b: Scalar) -> Option<(Scalar, Scalar)>
    ensures sound { (x y : ℕ) → x < 2 ^ 64 → y < 2 ^ 64 → Holds a x → Holds b y → x ≢ y
        → IfSome result (AreHeld x y) }
    ensures no_wider { IfSome result (AreNoWider a b) }
    ensures remains { IfSome result (LeavesSome (λ x y. x ≢ y) IsBetween a b) }
    ensures apart { (k x : ℕ) → IsConstant b k → IsBetween a x → x ≢ k
        → IsSomeAnd result (λ p. IsNoBound p.0 k) }
{
    match (a.as_constant(), b.as_constant()) {
        (_, Some(k)) => Some((a.without(k)?, b)),
        (Some(k), None) => Some((a, b.without(k)?)),
        (None, None) => None,
    }
}

/// The numbers of both.
fn equal(a: Scalar, b: Scalar) -> Option<(Scalar, Scalar)>
    ensures sound { (x : ℕ) → Holds a x → Holds b x → IfSome result (AreHeld x x) }
    ensures no_wider { IfSome result (AreNoWider a b) }
    ensures bounds { IfSome result (λ p. (b.least ≤ p.0.least) × (p.0.greatest ≤ b.greatest)) }
    ensures remains { IfSome result (LeavesPairs (λ x y. x ≡ y) Holds a b) }
    ensures found { (x : ℕ) → Holds a x → Holds b x → IsSome result }
{
    let left = a.clip(b.least, b.greatest)?;
    let right = b.clip(a.least, a.greatest)?;
    let one = left.with_bits(b.may, b.must)?;
    let other = right.with_bits(a.may, a.must)?;
    Some((one, other))
}

/// The numbers that are at most one of the other side, and those that are at least one.
fn at_most(a: Scalar, b: Scalar) -> Option<(Scalar, Scalar)>
    ensures sound { (x y : ℕ) → y < 2 ^ 64 → Holds a x → Holds b y → x ≤ y
        → IfSome result (AreHeld x y) }
    ensures no_wider { IfSome result (AreNoWider a b) }
    ensures bound { IfSome result (λ p. p.0.greatest ≤ b.greatest) }
    ensures other { IfSome result (λ p. a.least ≤ p.1.least) }
    ensures remains { IfSome result (LeavesPairs (λ x y. x ≤ y) IsBetween a b) }
    ensures found { (x y : ℕ) → IsBetween a x → IsBetween b y → x ≤ y → IsSome result }
{
    let left = a.clip(0, b.greatest)?;
    let right = b.clip(a.least, u64::MAX)?;
    Some((left, right))
}

/// The numbers that are below one of the other side, and those that are above one.
fn below(a: Scalar, b: Scalar) -> Option<(Scalar, Scalar)>
    ensures sound { (x y : ℕ) → y < 2 ^ 64 → Holds a x → Holds b y → x < y
        → IfSome result (AreHeld x y) }
    ensures no_wider { IfSome result (AreNoWider a b) }
    ensures bound { IfSome result (λ p. p.0.greatest < b.greatest) }
    ensures other { IfSome result (λ p. a.least < p.1.least) }
    ensures remains { IfSome result (LeavesPairs (λ x y. x < y) IsBetween a b) }
    ensures found { (x y : ℕ) → IsBetween a x → IsBetween b y → x < y → IsSome result }
{
    let left = a.clip(0, b.greatest.checked_sub(1)?)?;
    let right = b.clip(a.least.checked_add(1)?, u64::MAX)?;
    Some((left, right))
}
