//! Pieces of a line.
ghost use Rattle.std.specs.Prelude.{ℕ, ◌≡◌, ◌<◌, ◌∷◌, [], ◌++◌, List, IfNone, IfSome, MatchOption};
ghost use Rattle.asm.specs.Reading.{Lacks};

/// What stands before and after the first such character.
pub fn cut(text: &str, separator: char) -> Option<(&str, &str)>
    requires { separator < 128 }
    ensures none { IfNone result (Lacks separator text.now) }
    ensures parts { IfSome result (λ x. text.now ≡ x.0.now ++ separator ∷ x.1.now) }
    ensures first { IfSome result (λ x. Lacks separator x.0.now) }
    ensures only { (front back : List ℕ) →
        Lacks separator front → text.now ≡ front ++ separator ∷ back →
        MatchOption result ⊥ (λ x. (x.0.now ≡ front) × (x.1.now ≡ back)) }
{
    text.split_once(separator)
}

/// What stands after a first character.
pub fn without_first(text: &str, first: char) -> Option<&str>
    requires { first < 128 }
    ensures found { IfSome result (λ x. text.now ≡ first ∷ x.now) }
    ensures only { (rest : List ℕ) → text.now ≡ first ∷ rest →
        MatchOption result ⊥ (λ x. x.now ≡ rest) }
{
    text.strip_prefix(first)
}

/// What stands before a last character.
pub fn without_last(text: &str, last: char) -> Option<&str>
    requires { last < 128 }
    ensures found { IfSome result (λ x. text.now ≡ x.now ++ last ∷ []) }
    ensures only { (front : List ℕ) → text.now ≡ front ++ last ∷ [] →
        MatchOption result ⊥ (λ x. x.now ≡ front) }
{
    text.strip_suffix(last)
}
