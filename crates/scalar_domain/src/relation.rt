//! What an edge of a conditional jump says.
ghost use Rattle.std.specs.Prelude.{◌≡◌};
ghost use Rattle.scalar_domain.specs.Relation.{relation_on, unsigned_condition, signed_order};

use bpf_model::Condition;

/// How two numbers stand to one another. `Apart`: no bit is one in both; `Unknown`: nothing is said.
#[derive(Clone, Copy, Debug, PartialEq, Eq)]
pub enum Relation {
    Below,
    AtMost,
    Above,
    AtLeast,
    Equal,
    Different,
    Apart,
    Unknown,
}

/// What is known where a condition holds, or where it does not.
pub(crate) fn relation_of(condition: Condition, taken: bool) -> Relation
    ensures { result ≡ relation_on condition taken }
{
    match (condition, taken) {
        (Condition::Equal, true) | (Condition::NotEqual, false) => Relation::Equal,
        (Condition::Equal, false) | (Condition::NotEqual, true) => Relation::Different,
        (Condition::Less, true) | (Condition::GreaterOrEqual, false) => Relation::Below,
        (Condition::LessOrEqual, true) | (Condition::Greater, false) => Relation::AtMost,
        (Condition::Greater, true) | (Condition::LessOrEqual, false) => Relation::Above,
        (Condition::GreaterOrEqual, true) | (Condition::Less, false) => Relation::AtLeast,
        (Condition::SharesBits, false) => Relation::Apart,
        _ => Relation::Unknown,
    }
}

/// The condition that says the same where both operands have no sign.
pub(crate) fn condition_without_sign(condition: Condition) -> Condition
    ensures { result ≡ unsigned_condition condition }
{
    match condition {
        Condition::SignedLess => Condition::Less,
        Condition::SignedLessOrEqual => Condition::LessOrEqual,
        Condition::SignedGreater => Condition::Greater,
        Condition::SignedGreaterOrEqual => Condition::GreaterOrEqual,
        _ => condition,
    }
}

/// Whether the condition orders signed numbers.
pub(crate) fn is_signed(condition: Condition) -> bool
    ensures { result ≡ signed_order condition }
{
    matches!(
        condition,
        Condition::SignedLess
            | Condition::SignedLessOrEqual
            | Condition::SignedGreater
            | Condition::SignedGreaterOrEqual
    )
}
