//! Names of maps, as a line has them.
ghost use Rattle.std.specs.Prelude.{◌≡◌, List, ℕ, IfSome, IfNone};
ghost use Rattle.std.specs.Str.{IsUtf8};

use std::marker::Model;

/// A name as it stands in a text, which lends it: any bytes. Contracts see it as them.
#[derive(Drop)]
pub struct Name<'a> {
    bytes: &'a [u8],
}

impl<'a> Model for Name<'a> {
    ghost Value = { List ℕ };

    ghost view = { λ n. n.bytes.now };
}

impl<'a> Name<'a> {
    /// The name of these bytes.
    pub fn new(bytes: &'a [u8]) -> Name<'a>
        ensures { result ≡ bytes.now }
    {
        Name { bytes }
    }

    /// The bytes of the name, as the text has them.
    pub fn bytes(&self) -> &'a [u8]
        ensures { result.now ≡ self.now }
    {
        self.bytes
    }

    /// The name as text, where it is UTF-8.
    pub fn text(&self) -> Option<&'a str>
        ensures some { IfSome result (λ text. text.now ≡ self.now) }
        ensures none { IfNone result (¬ (IsUtf8 self.now)) }
    {
        match str::from_utf8(self.bytes) {
            Ok(text) => Some(text),
            Err(_) => None,
        }
    }
}
