//! The rule of the table, and what each kind of step tells.
use crate::view::{TableShape, View};
use atomic_table::{Play, Split, TableRule};

/// The rule: the words are what one lawful history of all steps leaves.
pub struct Law;

impl TableRule<u8, View, TableShape> for Law {
    ghost use Rattle.table_words.specs.Law.{Kept, writer_of};

    ghost holds = { Kept };

    ghost first = { writer_of };
}

/// The writer makes the next reader.
pub struct Deals;

impl Split<View> for Deals {
    ghost use Rattle.table_words.specs.Law.{dealt, reader_of};

    ghost left = { dealt };

    ghost right = { reader_of };
}

/// A reader begins a section, and its section word counts it.
pub struct Opens;

impl Play<u8, View> for Opens {
    ghost use Rattle.table_words.specs.Law.{opens};

    ghost then = { opens };
}

/// A reader ends its section, and its section word becomes even.
pub struct Closes;

impl Play<u8, View> for Closes {
    ghost use Rattle.table_words.specs.Law.{closes};

    ghost then = { closes };
}

/// A reader loads the word of a way.
pub struct Learns;

impl Play<u8, View> for Learns {
    ghost use Rattle.table_words.specs.Law.{learns};

    ghost then = { learns };
}

/// A holder loads a word of an element.
pub struct Loads;

impl Play<u8, View> for Loads {
    ghost use Rattle.table_words.specs.Law.{loads};

    ghost then = { loads };
}

/// A holder stores a word of an element.
pub struct Stores;

impl Play<u8, View> for Stores {
    ghost use Rattle.table_words.specs.Law.{stores};

    ghost then = { stores };
}

/// A reader adds to a word of an element.
pub struct Adds;

impl Play<u8, View> for Adds {
    ghost use Rattle.table_words.specs.Law.{adds};

    ghost then = { adds };
}

/// The writer puts a word in a way.
pub struct Puts;

impl Play<u8, View> for Puts {
    ghost use Rattle.table_words.specs.Law.{puts};

    ghost then = { puts };
}

/// The writer puts the word of a way in a second one.
pub struct Doubles;

impl Play<u8, View> for Doubles {
    ghost use Rattle.table_words.specs.Law.{doubles};

    ghost then = { doubles };
}

/// The writer loads the section word of a reader.
pub struct Scans;

impl Play<u8, View> for Scans {
    ghost use Rattle.table_words.specs.Law.{scans};

    ghost then = { scans };
}
