//! What names keep apart.
ghost use Rattle.std.specs.Prelude.{◌≡◌, ℕ, List, length, Some, slice_get};
ghost use Rattle.shared_runs.specs.declared.maps.named_map.NamedMap.{NamedMap};
ghost use Rattle.shared_runs.specs.Named.{AgreeByName, IsKeyUnder};

/// Where maps of one name in a list are of the same lengths, the table's keys for two of them differ, but those of one name
/// for the same words.
pub fn names_keep_keys_apart()
    ensures { (maps : List NamedMap) → AgreeByName maps → (i j : ℕ) (one other : NamedMap) →
        slice_get maps i ≡ Some one → slice_get maps j ≡ Some other →
        (words others key : List ℕ) → length words ≡ one.key_words → length others ≡ other.key_words →
        IsKeyUnder one.name words key → IsKeyUnder other.name others key →
        (one.name ≡ other.name) × (words ≡ others) }
{}
