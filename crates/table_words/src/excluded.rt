//! What the definitions exclude, and a history that they don't.
ghost use Rattle.std.specs.Prelude.{◌≡◌, ◌≢◌, ℕ, ◌%◌, ◌<◌, ◌≤◌, List, ◌∷◌, ◌++◌, None};
ghost use Rattle.table_words.specs.declared.moves.Move.{Move};
ghost use Rattle.table_words.specs.declared.moves.Move.TheVariants.{Store, Put, Double, Scan};
ghost use Rattle.table_words.specs.Layout.{Layout, IsCandidate, Names};
ghost use Rattle.table_words.specs.History.{moves_of, word_in, Holds, IsMoving, since_double, IsSpare, MayDo, IsLawful};
ghost use Rattle.table_words.specs.Lookups.{AnswersLookup};
ghost use Rattle.table_words.specs.Found.{StaysFound};
ghost use Rattle.table_words.specs.Scanned.{FoundGone, LookedAt};
ghost use Rattle.table_words.specs.Small.{small, moved, moved_back, moved_too_early, reused, reused_beside, reused_too_early, reused_by_one_number};

/// A small history that was worked by hand is lawful: a key is linked, found, replaced while a reader holds its element,
/// and the element filled anew after the reader was seen outside.
pub fn small_history_is_lawful()
    ensures { IsLawful small reused }
{}

/// Excluded: the same element filled anew while the reader is still inside.
pub fn small_history_without_its_scan_is_not()
    ensures { IsLawful small reused_too_early → ⊥ }
{}

/// Lawful as well: the element filled anew while the reader is inside, since two looks found it in two sections.
pub fn small_history_of_two_sections_is_lawful()
    ensures { IsLawful small reused_beside }
{}

/// Excluded: the element filled anew after two looks that found the reader in one section.
pub fn small_history_of_one_section_is_not()
    ensures { IsLawful small reused_by_one_number → ⊥ }
{}

/// Excluded: null where some way of one of the two buckets was not looked at.
pub fn null_after_one_bucket_is_excluded()
    ensures { (k : Layout) (table : ℕ) (key : List ℕ) (ms : List Move) (way : ℕ) →
        IsCandidate k table key way → (LookedAt way ms → ⊥) → AnswersLookup k table key ms None → ⊥ }
{}

/// Excluded: an element that is filled while a reader holds it.
pub fn filling_a_held_element_is_excluded()
    ensures { (k : Layout) (es : List (ℕ × Move)) → IsLawful k es → (who element place word : ℕ) →
        Holds element (moves_of who es) → MayDo k es 0 (Store element place word) → ⊥ }
{}

/// Excluded: an element that is put in a way while a reader holds it.
pub fn linking_a_held_element_is_excluded()
    ensures { (k : Layout) (es : List (ℕ × Move)) → IsLawful k es → (who element way word : ℕ) →
        Holds element (moves_of who es) → Names word element → MayDo k es 0 (Put way word) → ⊥ }
{}

/// Excluded: a reader that stores at a place of another one's.
pub fn storing_at_anothers_place_is_excluded()
    ensures { (k : Layout) (es : List (ℕ × Move)) (who element place word : ℕ) → 0 < who →
        k.owner (k.table_of element) place ≢ 0 → k.owner (k.table_of element) place ≢ who →
        MayDo k es who (Store element place word) → ⊥ }
{}

/// Excluded: a replacement that empties the way first.
pub fn unlinking_first_is_excluded()
    ensures { (k : Layout) (table : ℕ) (key : List ℕ) (way : ℕ) (after before early : List (ℕ × Move)) →
        StaysFound k table key way (after ++ (0, Put way 0) ∷ before) early → ⊥ }
{}

/// Excluded: a scan that skips a seat. An element whose way was given another word is not spare before each reader was
/// found outside since, or with two numbers.
pub fn skipping_a_reader_is_excluded()
    ensures { (readers reader element way word : ℕ) (since before : List Move) →
        0 < reader → reader ≤ readers → Names (word_in way before) element →
        (FoundGone reader since → ⊥) →
        IsSpare readers element (since ++ Put way word ∷ before) → ⊥ }
{}

/// Excluded: a number that was found before the unlinking, taken for one of after it. One look since that finds a reader
/// inside frees no element, whatever was found before.
pub fn a_number_from_before_is_excluded()
    ensures { (readers reader element way word found : ℕ) (before : List Move) →
        0 < reader → reader ≤ readers → found % 2 ≡ 1 → Names (word_in way before) element →
        IsSpare readers element (Scan reader found ∷ Put way word ∷ before) → ⊥ }
{}

/// Lawful as well: a key that is moved. Its word is written in a second way while a reader is inside, and the first way emptied
/// once that reader has left; or the second, while it is still inside.
pub fn small_history_moves_a_key()
    ensures moved { IsLawful small moved }
    ensures back { IsLawful small moved_back }
{}

/// Excluded: the first way emptied while the reader is still inside.
pub fn small_history_moved_too_early_is_not()
    ensures { IsLawful small moved_too_early → ⊥ }
{}

/// Excluded: a move out of an empty way, as of a writer that unlinks first: it has no word for the second way.
pub fn doubling_an_empty_way_is_excluded()
    ensures { (k : Layout) (es : List (ℕ × Move)) (from to word : ℕ) →
        word_in from (moves_of 0 es) ≡ 0 → MayDo k es 0 (Double from to word) → ⊥ }
{}

/// Excluded: a move past a reader. Since the word was written in the second way the reader was found neither outside nor with
/// two numbers, and the first way is emptied.
pub fn moving_past_a_reader_is_excluded()
    ensures { (k : Layout) (es : List (ℕ × Move)) → IsLawful k es → (from to reader word : ℕ) →
        IsMoving from to (moves_of 0 es) → 0 < reader → reader ≤ k.readers →
        (FoundGone reader (since_double (moves_of 0 es)) → ⊥) → MayDo k es 0 (Put from word) → ⊥ }
{}
