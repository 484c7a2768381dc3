//! The names of a source in their order, with an index to find them by.
ghost use Rattle.std.specs.Prelude.{◌≡◌, ◌++◌, ◌∷◌, [], List, None, OnOk, option_copied, bytes_eq, slice_get};
ghost use Rattle.std.specs.List.{find, position};
ghost use Rattle.asm_source.specs.Names.{Binding, named as meaning_in};
ghost use Rattle.asm_source.specs.Index.{IsIndexOf};

use crate::names::{Meaning, Named};
use std::alloc::{AllocError, Global};
use std::collections::BTreeMap;
use std::marker::Model;

/// The names that a source gives a meaning, in their order. Contracts see the list of them. The index has the place of each,
/// so that the time of a look-up grows by the logarithm of how many there are.
#[derive(Drop)]
pub(crate) struct SourceNames<'a> {
    list: Vec<Named<'a>>,
    index: BTreeMap<&'a [u8], usize>,
}

impl<'a> Model for SourceNames<'a> {
    ghost Value = { List Binding };

    ghost view = { λ n. n.list.items };

    ghost invariant = { λ n. IsIndexOf n.list.items n.index };
}

impl<'a> SourceNames<'a> {
    /// No names.
    pub(crate) fn new(alloc: Global) -> SourceNames<'a>
        ensures { result ≡ [] }
    {
        SourceNames {
            list: Vec::new(alloc),
            index: BTreeMap::new(alloc),
        }
    }

    /// Where the first with this name stands.
    fn place_of(&self, name: &[u8]) -> Option<usize>
        ensures { result ≡ position (λ b. bytes_eq b.name name.now) self.now }
    {
        self.index.get(name).copied()
    }

    /// The one at this place.
    fn at(&self, place: usize) -> Option<&Named<'a>>
        ensures { option_copied result ≡ slice_get self.now place }
    {
        self.list.get(place)
    }

    /// The first with this name.
    fn first_named(&self, name: &[u8]) -> Option<&Named<'a>>
        ensures { option_copied result ≡ find (λ b. bytes_eq b.name name.now) self.now }
    {
        self.at(self.place_of(name)?)
    }

    /// What a name stands for, if it stands for something.
    pub(crate) fn meaning_of(&self, name: &[u8]) -> Option<Meaning>
        ensures { result ≡ meaning_in self.now name.now }
    {
        Some(self.first_named(name)?.meaning())
    }

    /// Adds a name that has no meaning yet.
    ///
    /// # Errors
    ///
    /// Where memory runs out.
    pub(crate) fn push(&mut self, named: Named<'a>) -> Result<(), AllocError>
        requires { meaning_in self.old named.name ≡ None }
        ensures { OnOk result (self.new ≡ self.old ++ named.entry ∷ []) }
    {
        self.list.reserve(1)?;
        self.index.insert(named.name(), self.list.len())?;
        self.list.push(named)?;
        Ok(())
    }
}
