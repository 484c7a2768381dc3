//! Mnemonics by their names.
ghost use Rattle.std.specs.Prelude.{◌≡◌, ◌≢◌, ◌++◌, List, ℕ, IfSome, MatchOption};
ghost use Rattle.std.specs.List.{find};
ghost use Rattle.std.specs.Str.{bytes_eq};
ghost use Rattle.disasm.specs.Text.{mnemonic_text};
ghost use Rattle.disasm.specs.declared.mnemonic.Mnemonic.{Mnemonic as MnemonicOf};

use crate::mnemonic::{MNEMONICS, Mnemonic};

/// What stands after the front.
fn rest_after<'a>(text: &'a str, front: &str) -> Option<&'a str>
    ensures { MatchOption result
        ((rest : List ℕ) → text.now ≢ front.now ++ rest)
        (λ rest. text.now ≡ front.now ++ rest.now) }
{
    text.strip_prefix(front)
}

fn is_named(mnemonic: &Mnemonic, name: &str) -> bool
    ensures { result ≡ bytes_eq (mnemonic_text mnemonic.now) name.now }
{
    match rest_after(name, mnemonic.stem()) {
        Some(rest) => rest == mnemonic.suffix(),
        None => false,
    }
}

fn first_named(mnemonics: &[Mnemonic], name: &str) -> Option<Mnemonic>
    ensures { result ≡ find (λ m. bytes_eq (mnemonic_text m) name.now) mnemonics.now }
{
    for mnemonic in mnemonics {
        if is_named(mnemonic, name) {
            return Some(*mnemonic);
        }
    }
    None
}

/// The mnemonic of this name. It is looked for among those that begin with the same letter.
pub fn mnemonic_named(name: &str) -> Option<Mnemonic>
    ensures found { IfSome result (λ m. name.now ≡ mnemonic_text m) }
    ensures only { (m : MnemonicOf) → name.now ≡ mnemonic_text m → result ≡ Some m }
{
    let (from, to) = match name.as_bytes() {
        [b'a', ..] => (0, 6),
        [b'b', ..] => (6, 9),
        [b'c', ..] => (9, 11),
        [b'd', ..] => (11, 13),
        [b'e', ..] => (13, 14),
        [b'j', ..] => (14, 38),
        [b'l', ..] => (38, 52),
        [b'm', ..] => (52, 60),
        [b'n', ..] => (60, 62),
        [b'o', ..] => (62, 64),
        [b'r', ..] => (64, 66),
        [b's', ..] => (66, 83),
        [b'x', ..] => (83, 85),
        _ => (0, MNEMONICS.len()),
    };
    first_named(&MNEMONICS[from..to], name)
}
