//! Arguments out of their text.
ghost use Rattle.std.specs.Prelude.{ℕ, ◌≡◌, ◌∷◌, [], ◌++◌, IfSome};
ghost use Rattle.disasm.specs.Text.{numeral, sign_text, argument_text};
ghost use Rattle.disasm.specs.declared.statement.Sign.{Sign as SignOf};
ghost use Rattle.asm.specs.Reading.{capped, IsArgumentRead, ReadsArgument};

use crate::numeral::read_numeral;
use crate::pieces::{cut, without_first, without_last};
use disasm::{Argument, Sign};

fn read_register(text: &str) -> Option<Argument>
    ensures found { IfSome result (λ a. (n : ℕ) ×
        (text.now ≡ argument_text (Argument.Register n)) × (a ≡ Argument.Register (capped n))) }
    ensures only { (n : ℕ) → text.now ≡ argument_text (Argument.Register n) →
        result ≡ Some (Argument.Register (capped n)) }
{
    let digits = without_first(text, 'r')?;
    Some(Argument::Register(read_numeral(digits)?))
}

fn read_number(text: &str) -> Option<Argument>
    ensures found { IfSome result (λ a. (n : ℕ) ×
        (text.now ≡ argument_text (Argument.Number n)) × (a ≡ Argument.Number (capped n))) }
    ensures only { (n : ℕ) → text.now ≡ argument_text (Argument.Number n) →
        result ≡ Some (Argument.Number (capped n)) }
{
    Some(Argument::Number(read_numeral(text)?))
}

fn read_signed(text: &str, first: char, sign: Sign) -> Option<Argument>
    requires { sign_text sign ≡ first ∷ [] }
    ensures found { IfSome result (λ a. (n : ℕ) ×
        (text.now ≡ argument_text (Argument.Signed sign n)) ×
        (a ≡ Argument.Signed sign (capped n))) }
    ensures only { (n : ℕ) → text.now ≡ argument_text (Argument.Signed sign n) →
        result ≡ Some (Argument.Signed sign (capped n)) }
{
    let digits = without_first(text, first)?;
    Some(Argument::Signed(sign, read_numeral(digits)?))
}

fn read_offset(base: &str, sign: Sign, offset: &str) -> Option<Argument>
    ensures found { IfSome result (λ a. (b : ℕ) × (o : ℕ) ×
        (base.now ≡ numeral b) × (offset.now ≡ numeral o) ×
        (a ≡ Argument.Memory (capped b) sign (capped o))) }
    ensures only { (b o : ℕ) → base.now ≡ numeral b → offset.now ≡ numeral o →
        result ≡ Some (Argument.Memory (capped b) sign (capped o)) }
{
    Some(Argument::Memory {
        base: read_numeral(base)?,
        sign,
        offset: read_numeral(offset)?,
    })
}

/// A register's number and an offset: `10-8`.
fn read_base_offset(text: &str) -> Option<Argument>
    ensures found { IfSome result (λ a. (b : ℕ) × (sign : SignOf) × (o : ℕ) ×
        (text.now ≡ numeral b ++ sign_text sign ++ numeral o) ×
        (a ≡ Argument.Memory (capped b) sign (capped o))) }
    ensures only { (b : ℕ) (sign : SignOf) (o : ℕ) →
        text.now ≡ numeral b ++ sign_text sign ++ numeral o →
        result ≡ Some (Argument.Memory (capped b) sign (capped o)) }
{
    if let Some((base, offset)) = cut(text, '+') {
        return read_offset(base, Sign::Plus, offset);
    }
    let (base, offset) = cut(text, '-')?;
    read_offset(base, Sign::Minus, offset)
}

fn read_memory(text: &str) -> Option<Argument>
    ensures found { IfSome result (λ a. (b : ℕ) × (sign : SignOf) × (o : ℕ) ×
        (text.now ≡ argument_text (Argument.Memory b sign o)) ×
        (a ≡ Argument.Memory (capped b) sign (capped o))) }
    ensures only { (b : ℕ) (sign : SignOf) (o : ℕ) →
        text.now ≡ argument_text (Argument.Memory b sign o) →
        result ≡ Some (Argument.Memory (capped b) sign (capped o)) }
{
    let inside = without_last(without_first(text, '[')?, ']')?;
    read_base_offset(without_first(inside, 'r')?)
}

/// The argument that has this text.
pub fn read_argument(text: &str) -> Option<Argument>
    ensures found { IfSome result (IsArgumentRead text.now) }
    ensures only { ReadsArgument text.now result }
{
    match text.as_bytes() {
        [b'r', ..] => read_register(text),
        [b'[', ..] => read_memory(text),
        [b'+', ..] => read_signed(text, '+', Sign::Plus),
        [b'-', ..] => read_signed(text, '-', Sign::Minus),
        _ => read_number(text),
    }
}
