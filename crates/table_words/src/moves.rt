//! What a holder of a seat does to the words of the tables.

/// One step of a holder on one word. Numbers of ways and elements go through all tables.
pub enum Move {
    /// A reader begins a section.
    Open,
    /// A reader ends its section.
    Close,
    /// A reader finds the word of a way: the way, and its word.
    Learn(u64, u64),
    /// A word of an element is found: the element, the place in it, and the word.
    Load(u64, u64, u64),
    /// A word of an element is written: the element, the place in it, and the word.
    Store(u64, u64, u64),
    /// The writer writes the word of a way: the way, and its word.
    Put(u64, u64),
    /// The writer writes the word of a way in a second way as well: the way, the second one, and the word.
    Double(u64, u64, u64),
    /// The writer finds the section word of a reader: the reader, and its word, odd inside and even outside.
    Scan(u64, u64),
}
