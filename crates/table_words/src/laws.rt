//! What every lawful history keeps, and what lookups over it answer.
ghost use Rattle.std.specs.Prelude.{◌≡◌, ℕ, ◌+◌, ◌%◌, ◌^◌, ◌<◌, List, ◌∷◌, ◌++◌, length, slice_index, Some, None};
ghost use Rattle.table_words.specs.declared.moves.Move.{Move};
ghost use Rattle.table_words.specs.declared.moves.Move.TheVariants.{Load, Scan};
ghost use Rattle.table_words.specs.Layout.{Layout, IsCandidate, IsApart, Names, tag_in};
ghost use Rattle.table_words.specs.History.{moves_of, with_writer, inside, opened, most_sections, section_word, word_in, word_at, key_of, generation, IsLinked, IsSettled, AreOneOrMoved, Holds, FoundSince, Cleared, IsSpare, IsReader, IsLawful};
ghost use Rattle.table_words.specs.Lookups.{OnlySearches, AnswersLookup, FoundIn, HadWord};
ghost use Rattle.table_words.specs.Found.{IsLinkedUnder, IsLinkedSomewhere, IsLinkedAs, Sometime, Throughout, StaysFound, StaysInside, StaysUnlinked, OnlyReplaces};
ghost use Rattle.table_words.specs.Moved.{OnlyMoves, OnlyKeeps};
ghost use Rattle.table_words.specs.Once.{AreLinkedOnce, PutNoKeyTwice};
ghost use Rattle.table_words.specs.Scanned.{OnlyScans, AllOutside};
ghost use Rattle.table_words.specs.Whole.{OnlyWriterStores};
ghost use Rattle.table_words.specs.Added.{OnlyAdds};
ghost use Rattle.table_words.specs.Walks.{LearnsEach, Meets};

/// In every lawful history a way names only an element that there is and whose key may be linked in that way's bucket, with the key's tag.
pub fn ways_name_keys_of_their_bucket()
    ensures { (k : Layout) (es : List (ℕ × Move)) → IsLawful k es → (way element : ℕ) →
        Names (word_in way (moves_of 0 es)) element →
        (element < k.elements) × IsCandidate k (k.table_of element) (key_of k element es) way
        × (tag_in (word_in way (moves_of 0 es)) ≡ k.tag (k.table_of element) (key_of k element es)) }
{}

/// In every lawful history one way at most names an element. One that is being moved stands at most in the two ways of the
/// move.
pub fn elements_stand_in_one_way()
    ensures { (k : Layout) (es : List (ℕ × Move)) → IsLawful k es → (one other element : ℕ) →
        Names (word_in one (moves_of 0 es)) element → Names (word_in other (moves_of 0 es)) element →
        AreOneOrMoved one other (moves_of 0 es) }
{}

/// In every lawful history nobody holds a spare element, so that what the writer stores in it no reader can reach or
/// change.
pub fn spare_elements_are_unheld()
    ensures { (k : Layout) (es : List (ℕ × Move)) → IsLawful k es → (who element : ℕ) →
        IsSpare k.readers element (moves_of 0 es) → Holds element (moves_of who es) → ⊥ }
{}

/// In every lawful history an element that a reader holds keeps its generation and its key while the section is open,
/// whatever the writer does meanwhile.
pub fn held_elements_stay()
    ensures { (k : Layout) (late early : List (ℕ × Move)) → IsLawful k (late ++ early) →
        (who element : ℕ) → StaysInside (moves_of who late) → Holds element (moves_of who early) →
        (generation element (moves_of 0 (late ++ early)) ≡ generation element (moves_of 0 early))
        × (key_of k element (late ++ early) ≡ key_of k element early) }
{}

/// In every lawful history a reader sees a value as a whole: if no reader stores in an element that it holds, all words
/// of it stay while the section is open. So what it loads there is of one `link` or `replace`.
pub fn held_values_stay()
    ensures { (k : Layout) (late early : List (ℕ × Move)) → IsLawful k (late ++ early) →
        (who element : ℕ) → StaysInside (moves_of who late) → Holds element (moves_of who early) →
        OnlyWriterStores element late → (place : ℕ) →
        word_at element place (late ++ early) ≡ word_at element place early }
{}

/// In every lawful history a load finds the word that was stored at the place last, by whomever, and 0 where none was.
pub fn loads_find_what_was_stored()
    ensures { (k : Layout) (es : List (ℕ × Move)) → IsLawful k es →
        (after before : List (ℕ × Move)) (who element place x : ℕ) →
        es ≡ after ++ (who, Load element place x) ∷ before → x ≡ word_at element place before }
{}

/// In every lawful history the word at a place that is one reader's own is what that reader stored there last, or the
/// writer where it filled the element since: no other reader's store is lost in it or lies over it.
pub fn own_words_stay()
    ensures { (k : Layout) (es : List (ℕ × Move)) → IsLawful k es → (who element place : ℕ) → 0 < who →
        k.owner (k.table_of element) place ≡ who →
        word_at element place es ≡ word_at element place (with_writer who es) }
{}

/// No amount that was added to a word is lost, however many add: while all that is stored at a place in a lawful history is
/// added, each time by a holder's load and store with nothing between, the word there grows by the sum of the amounts, modulo
/// 2^64.
pub fn added_amounts_stay()
    ensures { (k : Layout) (late early : List (ℕ × Move)) → IsLawful k (late ++ early) →
        (element place total : ℕ) → OnlyAdds element place late total →
        word_at element place (late ++ early) % 2 ^ 64 ≡ (word_at element place early + total) % 2 ^ 64 }
{}

/// Null refutes every element of the table: in every lawful history, where a stretch of a holder's list answers null,
/// each way of all buckets, at some moment of the stretch, named no element with the key. Only the ways of the key's two
/// buckets were looked at.
pub fn null_refutes_every_way()
    ensures { (k : Layout) (late early : List (ℕ × Move)) → IsLawful k (late ++ early) →
        (table : ℕ) (key : List ℕ) (who : ℕ) → OnlySearches k table (moves_of who late) →
        AnswersLookup k table key (moves_of who late) None →
        (way : ℕ) → Sometime (λ es. IsLinkedUnder k table key way es → ⊥) late early }
{}

/// So in every lawful history no element of the table stays linked under the key through a lookup that answers null, also while
/// it is moved to another way.
pub fn null_refutes_every_element()
    ensures { (k : Layout) (late early : List (ℕ × Move)) → IsLawful k (late ++ early) →
        (table : ℕ) (key : List ℕ) (who element : ℕ) → OnlySearches k table (moves_of who late) →
        AnswersLookup k table key (moves_of who late) None →
        Throughout (IsLinkedAs k table key element) late early → ⊥ }
{}

/// In every lawful history a key that stays linked in one way, from before a lookup's first move until after its last,
/// also while its value is replaced, is not answered by null.
pub fn keys_that_stay_are_found()
    ensures { (k : Layout) (late early : List (ℕ × Move)) → IsLawful k (late ++ early) →
        (table : ℕ) (key : List ℕ) (who way : ℕ) → OnlySearches k table (moves_of who late) →
        AnswersLookup k table key (moves_of who late) None →
        StaysFound k table key way late early → ⊥ }
{}

/// In every lawful history a key stays linked in its way while the writer leaves the way, or puts another element with
/// the key there.
pub fn replaced_keys_stay()
    ensures { (k : Layout) (late early : List (ℕ × Move)) → IsLawful k (late ++ early) →
        (table : ℕ) (key : List ℕ) (way : ℕ) → IsLinkedUnder k table key way early →
        OnlyReplaces k table key way late early → StaysFound k table key way late early }
{}

/// In every lawful history no key is linked in two ways while nothing is moved, if none was before and the writer puts no
/// element in a way whose key is linked in another.
pub fn keys_stay_once()
    ensures { (k : Layout) (late early : List (ℕ × Move)) → IsLawful k (late ++ early) → (table : ℕ) →
        IsSettled (moves_of 0 (late ++ early)) → AreLinkedOnce k table early →
        PutNoKeyTwice k table late early → AreLinkedOnce k table (late ++ early) }
{}

/// In every lawful history an element that a lookup answers was linked under the key at some moment of it.
pub fn hits_were_linked()
    ensures { (k : Layout) (table : ℕ) → IsApart k table →
        (late early : List (ℕ × Move)) → IsLawful k (late ++ early) → (key : List ℕ) → length key ≡ k.key_words table →
        (who element : ℕ) → 0 < who → OnlySearches k table (moves_of who late) →
        AnswersLookup k table key (moves_of who late) (Some element) →
        Sometime (IsLinkedAs k table key element) late early }
{}

/// The reader that was answered holds the element.
pub fn hits_are_held()
    ensures { (k : Layout) (late early : List (ℕ × Move)) (table : ℕ) (key : List ℕ) (who element : ℕ) →
        OnlySearches k table (moves_of who late) →
        AnswersLookup k table key (moves_of who late) (Some element) →
        Holds element (moves_of who (late ++ early)) }
{}

/// One scan that finds each reader outside a section frees all elements that were unlinked before it.
pub fn one_scan_frees_all()
    ensures { (readers : ℕ) (scan before : List Move) → OnlyScans 0 readers scan →
        AllOutside readers scan → (element : ℕ) →
        (IsLinked element before → ⊥) → IsSpare readers element (scan ++ before) }
{}

/// A section word is odd inside a section and even outside, stays while its reader neither begins nor ends a section, and
/// fits in a word.
pub fn section_words_tell_sections()
    ensures parity { (ms : List Move) → section_word ms % 2 ≡ inside ms }
    ensures stays { (late early : List Move) → StaysInside late →
        section_word (late ++ early) ≡ section_word early }
    ensures fits { (ms : List Move) → section_word ms < 2 ^ 64 }
{}

/// Where an element is not cleared of a reader, all looks at the reader since the unlinking found one odd number.
pub fn uncleared_readers_have_one_number()
    ensures { (reader element : ℕ) (writers : List Move) → (Cleared reader element writers → ⊥) →
        (x y : ℕ) → FoundSince reader element x writers → FoundSince reader element y writers →
        (x ≡ y) × (x % 2 ≡ 1) }
{}

/// So in every lawful history such a reader is inside one section from the first of these looks to the last: reclaiming
/// waits for nothing else. Once the reader has opened 2^62 sections, its word does not tell one section from the next.
pub fn uncleared_readers_stay_in_one_section()
    ensures { (k : Layout) (reader element x y : ℕ) (late between early : List (ℕ × Move)) →
        IsLawful k ((late ++ (0, Scan reader y) ∷ between) ++ (0, Scan reader x) ∷ early) →
        StaysUnlinked element (late ++ (0, Scan reader y) ∷ between) ((0, Scan reader x) ∷ early) →
        (Cleared reader element
        (moves_of 0 ((late ++ (0, Scan reader y) ∷ between) ++ (0, Scan reader x) ∷ early)) → ⊥) →
        (x ≡ y) × (inside (moves_of reader early) ≡ 1)
        × (opened (moves_of reader early) < most_sections → StaysInside (moves_of reader between)) }
{}

/// In every lawful history two looks at a reader since an element was unlinked clear the element of it, where the reader
/// began or ended a section between them, and had opened fewer than 2^62 before.
pub fn two_looks_clear_who_moved()
    ensures { (k : Layout) (reader element x y : ℕ) (late between early : List (ℕ × Move)) →
        IsLawful k ((late ++ (0, Scan reader y) ∷ between) ++ (0, Scan reader x) ∷ early) →
        StaysUnlinked element (late ++ (0, Scan reader y) ∷ between) ((0, Scan reader x) ∷ early) →
        (StaysInside (moves_of reader between) → ⊥) → opened (moves_of reader early) < most_sections →
        Cleared reader element
        (moves_of 0 ((late ++ (0, Scan reader y) ∷ between) ++ (0, Scan reader x) ∷ early)) }
{}

/// In every lawful history a reader in a section finds an element that stays linked under a key in one way throughout, also
/// where it is moved. Either the first way of the move is not emptied before the section ends, or the second one had the word
/// before the section began.
pub fn moved_elements_keep_a_way()
    ensures { (k : Layout) (late early : List (ℕ × Move)) → IsLawful k (late ++ early) →
        (table : ℕ) (key : List ℕ) (who element : ℕ) → IsReader k who → inside (moves_of who early) ≡ 1 →
        StaysInside (moves_of who late) → Throughout (IsLinkedAs k table key element) late early →
        (way : ℕ) × StaysFound k table key way late early }
{}

/// In every lawful history a key that is linked stays linked, in one way or another, while the writer only replaces and moves
/// what is linked under the key.
pub fn kept_keys_stay_linked()
    ensures { (k : Layout) (late early : List (ℕ × Move)) → IsLawful k (late ++ early) →
        (table : ℕ) (key : List ℕ) → IsLinkedSomewhere k table key early → OnlyKeeps k table key late early →
        Throughout (IsLinkedSomewhere k table key) late early }
{}

/// In every lawful history no lookup answers null to a key that was linked before its first step, while the writer only
/// replaces and moves what is linked under the key.
pub fn kept_keys_are_found()
    ensures { (k : Layout) (late early : List (ℕ × Move)) → IsLawful k (late ++ early) →
        (table : ℕ) (key : List ℕ) (who way : ℕ) → IsLinkedUnder k table key way early →
        OnlyKeeps k table key late early → OnlySearches k table (moves_of who late) →
        AnswersLookup k table key (moves_of who late) None → ⊥ }
{}

/// In every lawful history each linked element stays linked while the writer only moves, after each of these steps.
pub fn moved_elements_stay_linked()
    ensures { (k : Layout) (late early : List (ℕ × Move)) → IsLawful k (late ++ early) →
        OnlyMoves (moves_of 0 late) (moves_of 0 early) → (table : ℕ) (key : List ℕ) (element : ℕ) →
        IsLinkedAs k table key element early → Throughout (IsLinkedAs k table key element) late early }
{}

/// In every lawful history moves link nothing new: what is linked after them was linked under the same key before.
pub fn moves_link_nothing_new()
    ensures { (k : Layout) (late early : List (ℕ × Move)) → IsLawful k (late ++ early) →
        OnlyMoves (moves_of 0 late) (moves_of 0 early) → (table : ℕ) (key : List ℕ) (element : ℕ) →
        IsLinkedAs k table key element (late ++ early) → IsLinkedAs k table key element early }
{}

/// In every lawful history moves that have ended link no key twice.
pub fn moves_link_no_key_twice()
    ensures { (k : Layout) (late early : List (ℕ × Move)) → IsLawful k (late ++ early) → (table : ℕ) →
        IsSettled (moves_of 0 (late ++ early)) → OnlyMoves (moves_of 0 late) (moves_of 0 early) →
        AreLinkedOnce k table early → AreLinkedOnce k table (late ++ early) }
{}

/// A walk: in every lawful history a reader that learns each way below n in one section meets each key that stays linked in
/// one of them meanwhile, also while its value is replaced. It found there an element that was linked under the key
/// then, and holds it.
pub fn walks_of_readers_meet_keys_that_stay()
    ensures { (k : Layout) (late early : List (ℕ × Move)) → IsLawful k (late ++ early) →
        (table : ℕ) (key : List ℕ) (who way n : ℕ) → StaysInside (moves_of who late) →
        LearnsEach n (moves_of who late) → way < n → StaysFound k table key way late early →
        (element : ℕ) × Meets k table key who way element late early
        × Holds element (moves_of who (late ++ early)) }
{}

/// It meets no other: in every lawful history an element that a reader finds in a way was linked there then, under the key
/// that it still has when the stretch ends, if the reader stays in its section. The reader holds it, and each word of its
/// key that the reader loaded is of this key.
pub fn walks_of_readers_meet_linked_keys()
    ensures { (k : Layout) (late early : List (ℕ × Move)) → IsLawful k (late ++ early) →
        (who way element : ℕ) → StaysInside (moves_of who late) →
        FoundIn way element (moves_of who late) →
        (element < k.elements)
        × Meets k (k.table_of element) (key_of k element (late ++ early)) who way element late early
        × Holds element (moves_of who (late ++ early))
        × ((place word : ℕ) → place < k.key_words (k.table_of element) →
        HadWord element place word (moves_of who late) →
        word ≡ slice_index (key_of k element (late ++ early)) place) }
{}
