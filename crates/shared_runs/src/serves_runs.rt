//! What a table's calls are to the runs that it serves.
ghost use Rattle.std.specs.Prelude.{◌≡◌, ◌*◌, ◌^◌, ◌<◌, ◌≤◌, List, [], ◌∷◌, length};
ghost use Rattle.bpf_model.specs.declared.limits.MapShape.{MapShape};
ghost use Rattle.shared_runs.specs.Tables.{AreSteps, IsTable, Table};

/// A table that serves runs: each call is its move of the seat.
pub trait ServesRuns {
    /// The words that all share.
    type Words;
    /// A reader's seat at them.
    type Seat;

    // The table, as runs see it.
    ghost table: { Self.Words → Table };

    // All that a seat did, the newest first.
    ghost mine: { (t : Self.Words) → Self.Seat → List (table t).Move };

    // The seat is at this table.
    ghost IsAt: { Self.Words → Self.Seat → Type 0 };

    // The seat did just these moves.
    ghost Goes: { (t : Self.Words) → Self.Seat → List (table t).Move → Self.Seat → Type 0 };

    /// A law: it keeps what every table keeps.
    fn is_table(words: &Self::Words)
        ensures table { IsTable (table words.now) }
        ensures steps { AreSteps (table words.now) (IsAt words.now) (mine words.now) (Goes words.now) };

    /// How many words a key has, of the map of this index in the program's list.
    fn key_words(words: &Self::Words, map: usize) -> usize
        requires kept { (shape : MapShape) × (table words.now).Keeps map shape }
        ensures count { result ≡ (table words.now).key_words map }
        ensures short { result ≤ 2 ^ 20 };

    /// Begins a section.
    fn open(words: &Self::Words, seat: &mut Self::Seat)
        requires at { IsAt words.now seat.old }
        requires outside { (table words.now).inside (mine words.now seat.old) ≡ 0 }
        ensures { Goes words.now seat.old ((table words.now).begins ∷ []) seat.new };

    /// Ends the section.
    fn close(words: &Self::Words, seat: &mut Self::Seat)
        requires at { IsAt words.now seat.old }
        requires inside { (table words.now).inside (mine words.now seat.old) ≡ 1 }
        ensures { Goes words.now seat.old ((table words.now).ends ∷ []) seat.new };

    /// The word at a place of the value of an element that is held.
    fn load(words: &Self::Words, seat: &mut Self::Seat, element: usize, place: usize) -> u64
        requires at { IsAt words.now seat.old }
        requires held { (table words.now).Holds element (mine words.now seat.old) }
        requires element { element < (table words.now).elements }
        requires place { place < (table words.now).value_words }
        ensures { Goes words.now seat.old ((table words.now).finds element place result ∷ []) seat.new };

    /// Writes the word at a place of the value of an element that is held.
    fn store(words: &Self::Words, seat: &mut Self::Seat, element: usize, place: usize, word: u64)
        requires at { IsAt words.now seat.old }
        requires held { (table words.now).Holds element (mine words.now seat.old) }
        requires element { element < (table words.now).elements }
        requires place { place < (table words.now).value_words }
        ensures { Goes words.now seat.old ((table words.now).writes element place word ∷ []) seat.new };

    /// A lookup of the key in the map of this index in the program's list.
    fn look_up(words: &Self::Words, seat: &mut Self::Seat, map: usize, key: &[u8]) -> Option<usize>
        requires at { IsAt words.now seat.old }
        requires inside { (table words.now).inside (mine words.now seat.old) ≡ 1 }
        requires kept { (shape : MapShape) × (table words.now).Keeps map shape }
        requires key { length key.now ≡ 8 * (table words.now).key_words map }
        ensures looked { (ns : List (table words.now).Move) × Goes words.now seat.old ns seat.new
            × (table words.now).LooksUp map key.now ns result };
}
