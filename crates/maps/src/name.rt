//! Names of maps.
ghost use Rattle.std.specs.Prelude.{◌≡◌, slice_get};
ghost use Rattle.std.specs.List.{list_all};
ghost use Rattle.maps.specs.Registry.{is_name as is_map_name, is_name_character as is_character, begins_with_letter};

/// The most bytes of a map's name.
pub const NAME_BYTES: usize = 32;

fn starts_with_letter(name: &[u8]) -> bool
    ensures { result ≡ begins_with_letter (slice_get name.now 0) }
{
    match name.first() {
        Some(c) => c.is_ascii_lowercase(),
        None => false,
    }
}

fn is_name_character(c: u8) -> bool
    ensures { result ≡ is_character c }
{
    matches!(c, b'a'..=b'z' | b'0'..=b'9' | b'_')
}

fn are_name_characters(name: &[u8]) -> bool
    ensures { result ≡ list_all is_character name.now }
{
    name.iter().all(|c| is_name_character(*c))
}

/// Whether a map may have this name: 1 to `NAME_BYTES` letters from `a` to `z`, digits and `_`, the
/// first a letter.
pub fn is_name(name: &str) -> bool
    ensures { result ≡ is_map_name name.now }
{
    let bytes = name.as_bytes();
    starts_with_letter(bytes) && bytes.len() <= NAME_BYTES && are_name_characters(bytes)
}
