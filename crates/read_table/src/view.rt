//! What a holder of a table knows. No value of a `View` is made: contracts alone see it.
use std::collections::LinkedList;

/// How many readers and slots a table has, and how many words a key and a value have. A slot has a header, the words of a
/// key, and behind them those of a value. A word has eight bytes.
#[derive(Clone, Copy, Debug, PartialEq, Eq)]
pub struct TableShape {
    pub readers: usize,
    pub slots: usize,
    pub key_words: usize,
    pub value_words: usize,
}

/// One step of a holder on a table.
pub enum Move {
    /// A reader begins a section.
    Open,
    /// A reader ends its section.
    Close,
    /// A slot, and the header that was found.
    Learn(u64, u64),
    /// A slot, a place in it, and the word that was found there.
    Load(u64, u64, u64),
    /// A slot, a place in it, and the word that was written there.
    Store(u64, u64, u64),
    /// A slot, and its new header.
    Header(u64, u64),
    /// A reader, and what was found of its section: 1 inside, 0 outside.
    Scan(u64, u64),
}

/// The writer is number 0, and the readers are 1, 2 and so on. The lists have the newest first.
pub struct View {
    pub shape: TableShape,
    pub me: u64,
    /// The number of the next reader, at the writer.
    pub next: u64,
    /// All that this holder has done.
    pub mine: LinkedList<Move>,
    /// All that had been done to the table at this holder's last step, with who did it.
    pub seen: LinkedList<(u64, Move)>,
}
