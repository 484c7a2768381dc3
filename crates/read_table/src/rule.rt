//! The rule of the table, and what each kind of step tells.
ghost use Rattle.std.specs.Prelude.{◌≡◌, ℕ, List, ◌∷◌, ◌++◌, None};
ghost use Rattle.read_table.specs.declared.view.Move.{Move};
ghost use Rattle.read_table.specs.declared.view.Move.TheVariants.{Load};
ghost use Rattle.read_table.specs.declared.view.TableShape.{TableShape};
ghost use Rattle.read_table.specs.History.{moves_of, header_in, word_at_place, generation, Knows, IsLearnt, IsSpare, IsLawful};
ghost use Rattle.read_table.specs.Lookups.{AnswersLookup};
ghost use Rattle.read_table.specs.Found.{IsLinkedUnder, KeepsHeader, StaysLinked};

use crate::view::{TableShape, View};
use atomic_table::{Play, Split, TableRule};

/// In every lawful history a slot that a reader knows has the generation with which it was learnt.
pub fn held_slots_stay()
    ensures { (k : TableShape) (es : List (ℕ × Move)) → IsLawful k es → (who slot h : ℕ) →
        Knows slot h (moves_of who es) →
        generation (header_in slot (moves_of 0 es)) ≡ generation h }
{}

/// In every lawful history nobody has learnt a slot that is spare, so that what the writer stores in it no reader can
/// reach or change.
pub fn spare_slots_are_unlearnt()
    ensures { (k : TableShape) (es : List (ℕ × Move)) → IsLawful k es → (who slot : ℕ) →
        IsSpare k.readers slot (moves_of 0 es) → IsLearnt slot (moves_of who es) → ⊥ }
{}

/// In every lawful history a load finds the word that was stored at the place last, by whomever, and 0 where none was.
pub fn loads_find_what_was_stored()
    ensures { (k : TableShape) (es : List (ℕ × Move)) → IsLawful k es →
        (after before : List (ℕ × Move)) (who slot place x : ℕ) →
        es ≡ after ++ (who, Load slot place x) ∷ before → x ≡ word_at_place slot place before }
{}

/// In every lawful history a slot that is linked under a key stays so until the writer changes its header: nobody stores
/// a key word of it.
pub fn linked_slots_keep_their_keys()
    ensures { (k : TableShape) (key : List ℕ) (slot : ℕ) (late early : List (ℕ × Move)) →
        IsLawful k (late ++ early) → IsLinkedUnder k key slot early →
        KeepsHeader slot (moves_of 0 late) → IsLinkedUnder k key slot (late ++ early) }
{}

/// In every lawful history a lookup of a key under which some slot stays linked, from before its first move to after its
/// last, does not answer null.
pub fn linked_keys_are_found()
    ensures { (k : TableShape) (es : List (ℕ × Move)) → IsLawful k es → (key : List ℕ)
        (slot who : ℕ) (before ns : List Move) → AnswersLookup k key ns None →
        StaysLinked k key slot who before ns es → ⊥ }
{}

/// The rule: the words are what one lawful history of all steps leaves.
pub struct Law;

impl TableRule<u8, View, TableShape> for Law {
    ghost use Rattle.read_table.specs.Law.{Kept, writer_of};

    ghost holds = { Kept };

    ghost first = { writer_of };
}

/// The writer makes the next reader.
pub struct Deals;

impl Split<View> for Deals {
    ghost use Rattle.read_table.specs.Law.{dealt, reader_of};

    ghost left = { dealt };

    ghost right = { reader_of };
}

/// A reader begins a section.
pub struct Opens;

impl Play<u8, View> for Opens {
    ghost use Rattle.read_table.specs.Law.{opens};

    ghost then = { opens };
}

/// A reader ends its section.
pub struct Closes;

impl Play<u8, View> for Closes {
    ghost use Rattle.read_table.specs.Law.{closes};

    ghost then = { closes };
}

/// A reader loads the header of a slot.
pub struct Learns;

impl Play<u8, View> for Learns {
    ghost use Rattle.read_table.specs.Law.{learns};

    ghost then = { learns };
}

/// A reader loads a word of a slot.
pub struct Loads;

impl Play<u8, View> for Loads {
    ghost use Rattle.read_table.specs.Law.{loads};

    ghost then = { loads };
}

/// A holder stores a word of a slot.
pub struct Stores;

impl Play<u8, View> for Stores {
    ghost use Rattle.read_table.specs.Law.{stores};

    ghost then = { stores };
}

/// The writer changes the header of a slot.
pub struct Changes;

impl Play<u8, View> for Changes {
    ghost use Rattle.read_table.specs.Law.{changes};

    ghost then = { changes };
}

/// The writer loads the section word of a reader.
pub struct Scans;

impl Play<u8, View> for Scans {
    ghost use Rattle.read_table.specs.Law.{scans};

    ghost then = { scans };
}
