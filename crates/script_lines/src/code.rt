//! A program's bytes in hexadecimal.
ghost use Rattle.std.specs.Prelude.{◌≡◌, List, ℕ, [], IsSome, IfOk};
ghost use Rattle.std.specs.Option.{unwrap_or};
ghost use Rattle.script_lines.specs.Words.{hex_bytes_in};

use crate::bytes::{byte_count, is_dash};
use std::alloc::{AllocError, Global};
use std::marker::Model;

/// A program's bytes as a line has them, in hexadecimal. Contracts see the bytes.
#[derive(Drop)]
pub struct Code<'a> {
    word: &'a [u8],
}

impl<'a> Model for Code<'a> {
    ghost Value = { List ℕ };

    ghost view = { λ c. unwrap_or (hex_bytes_in c.word.now) [] };

    ghost invariant = { λ c. IsSome (hex_bytes_in c.word.now) };
}

impl<'a> Code<'a> {
    /// The bytes that the word writes, where it writes bytes.
    pub(crate) fn new(word: &'a [u8]) -> Option<Code<'a>>
        ensures { result ≡ hex_bytes_in word.now }
    {
        match byte_count(word) {
            Some(_) => Some(Code { word }),
            None => None,
        }
    }

    /// The program's bytes, decoded from the hexadecimal word.
    ///
    /// # Errors
    ///
    /// `AllocError` where memory for them runs out.
    pub fn to_vec(&self, alloc: Global) -> Result<Vec<u8>, AllocError>
        ensures { IfOk result (λ v. v.items ≡ self.now) }
    {
        if is_dash(self.word) {
            return Ok(Vec::new(alloc));
        }
        match hex::decode(alloc, self.word) {
            Ok(bytes) => Ok(bytes),
            Err(_) => Err(AllocError),
        }
    }
}
