//! What a holder of a table knows. No value of a `View` is made: contracts alone see it.
ghost use Rattle.std.specs.Prelude.{◌≡◌, ◌+◌, ◌*◌, ◌<◌, ◌≤◌};
ghost use Rattle.table_words.specs.Limits.{most_readers, most_words};
ghost use Rattle.table_words.specs.Law.{width_of};
ghost use Rattle.table_words.specs.Values.{copies_of, first_of, stored_of};
ghost use Rattle.table_words.specs.Held.{IsSized};

use crate::moves::Move;
use crate::sip::Secret;
use std::collections::LinkedList;

/// Whose the values of a table's elements are.
#[derive(Clone, Copy, Debug, PartialEq, Eq)]
pub enum Values {
    /// An element has one value. Each reader that holds the element may store in it.
    Shared,
    /// An element has a value for each reader, in which that reader alone stores: counters, whose sums the writer reads.
    PerReader,
}

/// How many of each a table has, and what its keys are spread by. A bucket has eight ways; an element has the words of a
/// key, and those of its values behind them, `value_words` for each value.
#[derive(Clone, Copy, Debug, PartialEq, Eq)]
pub struct TableShape {
    pub readers: usize,
    pub buckets: usize,
    pub elements: usize,
    pub key_words: usize,
    pub value_words: usize,
    pub values: Values,
    pub secret: Secret,
}

impl TableShape {
    /// How many values an element has: one, or one for each reader.
    pub fn copies(&self) -> usize
        ensures { result ≡ copies_of self.now }
    {
        match self.values {
            Values::Shared => 1,
            Values::PerReader => self.readers,
        }
    }

    /// How many words all values of an element have.
    pub fn stored_words(&self) -> usize
        requires sized { IsSized self.now }
        ensures words { result ≡ stored_of self.now }
        ensures few { result ≤ most_words * most_readers }
    {
        self.value_words * self.copies()
    }

    /// How many words an element has.
    pub fn width(&self) -> usize
        requires sized { IsSized self.now }
        ensures words { result ≡ width_of self.now }
        ensures few { result ≤ most_words + most_words * most_readers }
    {
        self.key_words + self.stored_words()
    }

    /// The place of the first word of the value of a reader, counted from 0.
    pub fn first_place(&self, reader: usize) -> usize
        requires sized { IsSized self.now }
        requires reader { reader < self.now.readers }
        ensures { result ≡ first_of self.now (reader + 1) }
    {
        match self.values {
            Values::Shared => self.key_words,
            Values::PerReader => self.key_words + reader * self.value_words,
        }
    }
}

/// The writer is number 0, and the readers are 1, 2 and so on. The lists have the newest first.
pub struct View {
    pub shape: TableShape,
    pub me: u64,
    /// The number of the next reader, at the writer.
    pub next: u64,
    /// All that this holder has done.
    pub mine: LinkedList<Move>,
    /// All that had been done to the table at this holder's last step, with who did it.
    pub seen: LinkedList<(u64, Move)>,
}
