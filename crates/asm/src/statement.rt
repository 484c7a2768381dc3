//! Statements out of lines.
ghost use Rattle.std.specs.Prelude.{ℕ, ◌≡◌, ◌∷◌, ◌++◌, List, IfSome, MatchOption};
ghost use Rattle.disasm.specs.Text.{mnemonic_text, argument_text, arguments_text};
ghost use Rattle.disasm.specs.declared.mnemonic.Mnemonic.{Mnemonic as MnemonicOf};
ghost use Rattle.disasm.specs.declared.statement.Argument.{Argument as ArgumentOf};
ghost use Rattle.disasm.specs.declared.statement.Arguments.{Arguments as ArgumentsOf};
ghost use Rattle.asm.specs.Reading.{capped_argument, capped_arguments, IsArgumentsRead, ReadsArguments, IsStatementRead, ReadsStatement, Lacks};

use crate::argument::read_argument;
use crate::pieces::{cut, without_first};
use disasm::{Arguments, Statement, mnemonic_named};

/// What stands before and after the first comma (byte 44), which a space (byte 32) follows.
fn cut_comma(text: &str) -> Option<(&str, &str)>
    ensures parts { IfSome result (λ x. text.now ≡ x.0.now ++ 44 ∷ 32 ∷ x.1.now) }
    ensures only { (front back : List ℕ) → Lacks 44 front → text.now ≡ front ++ 44 ∷ 32 ∷ back →
        MatchOption result ⊥ (λ x. (x.0.now ≡ front) × (x.1.now ≡ back)) }
{
    let (front, rest) = cut(text, ',')?;
    Some((front, without_first(rest, ' ')?))
}

fn read_one(first: &str) -> Option<Arguments>
    ensures found { IfSome result (λ s. (a : ArgumentOf) ×
        (first.now ≡ argument_text a) × (s ≡ Arguments.One (capped_argument a))) }
    ensures only { (a : ArgumentOf) → first.now ≡ argument_text a →
        result ≡ Some (Arguments.One (capped_argument a)) }
{
    Some(Arguments::One(read_argument(first)?))
}

fn read_two(first: &str, second: &str) -> Option<Arguments>
    ensures found { IfSome result (λ s. (a : ArgumentOf) × (b : ArgumentOf) ×
        (first.now ≡ argument_text a) × (second.now ≡ argument_text b) ×
        (s ≡ Arguments.Two (capped_argument a) (capped_argument b))) }
    ensures only { (a b : ArgumentOf) → first.now ≡ argument_text a → second.now ≡ argument_text b →
        result ≡ Some (Arguments.Two (capped_argument a) (capped_argument b)) }
{
    Some(Arguments::Two(read_argument(first)?, read_argument(second)?))
}

fn read_three(first: &str, second: &str, third: &str) -> Option<Arguments>
    ensures found { IfSome result (λ s. (a : ArgumentOf) × (b : ArgumentOf) × (d : ArgumentOf) ×
        (first.now ≡ argument_text a) × (second.now ≡ argument_text b) ×
        (third.now ≡ argument_text d) ×
        (s ≡ Arguments.Three (capped_argument a) (capped_argument b) (capped_argument d))) }
    ensures only { (a b d : ArgumentOf) →
        first.now ≡ argument_text a → second.now ≡ argument_text b → third.now ≡ argument_text d →
        result ≡
        Some (Arguments.Three (capped_argument a) (capped_argument b) (capped_argument d)) }
{
    Some(Arguments::Three(
        read_argument(first)?,
        read_argument(second)?,
        read_argument(third)?,
    ))
}

/// The arguments that stand after a mnemonic and a space.
fn read_arguments(text: &str) -> Option<Arguments>
    ensures found { IfSome result (IsArgumentsRead text.now) }
    ensures only { ReadsArguments text.now result }
{
    let Some((first, rest)) = cut_comma(text) else {
        return read_one(text);
    };
    match cut_comma(rest) {
        None => read_two(first, rest),
        Some((second, third)) => read_three(first, second, third),
    }
}

fn read_bare(name: &str) -> Option<Statement>
    ensures found { IfSome result (λ s. (m : MnemonicOf) ×
        (name.now ≡ mnemonic_text m) × (s ≡ record { mnemonic = m; arguments = Arguments.Zero })) }
    ensures only { (m : MnemonicOf) → name.now ≡ mnemonic_text m →
        result ≡ Some (record { mnemonic = m; arguments = Arguments.Zero }) }
{
    Some(Statement {
        mnemonic: mnemonic_named(name)?,
        arguments: Arguments::Zero,
    })
}

fn read_both(name: &str, text: &str) -> Option<Statement>
    ensures found { IfSome result (λ s. (m : MnemonicOf) × (w : ArgumentsOf) ×
        (name.now ≡ mnemonic_text m) × (32 ∷ text.now ≡ arguments_text w) ×
        (s ≡ record { mnemonic = m; arguments = capped_arguments w })) }
    ensures only { (m : MnemonicOf) (w : ArgumentsOf) →
        name.now ≡ mnemonic_text m → 32 ∷ text.now ≡ arguments_text w →
        result ≡ Some (record { mnemonic = m; arguments = capped_arguments w }) }
{
    Some(Statement {
        mnemonic: mnemonic_named(name)?,
        arguments: read_arguments(text)?,
    })
}

/// The statement that the line is the text of.
pub fn read_statement(line: &str) -> Option<Statement>
    ensures found { IfSome result (IsStatementRead line.now) }
    ensures only { ReadsStatement line.now result }
{
    match cut(line, ' ') {
        None => read_bare(line),
        Some((name, text)) => read_both(name, text),
    }
}
