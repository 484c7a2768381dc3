//! Laws: what answers have is read again, and a number is written in one way.
ghost use Rattle.std.specs.Prelude.{ℕ, ◌≡◌, Some};
ghost use Rattle.std.specs.Fmt.{decimal};
ghost use Rattle.script_lines.specs.ReplyText.{bytes_text};
ghost use Rattle.script_lines.specs.Words.{number_in, hex_bytes_in};

/// A law: the text of a number is read as that number.
pub fn number_is_read_again(number: u64)
    ensures { number_in (decimal number) ≡ Some number }
{}

/// A law: a word that is read as a number is that number's text, so that there is one for each.
pub fn number_has_one_text(word: &[u8])
    ensures { (n : ℕ) → number_in word.now ≡ Some n → word.now ≡ decimal n }
{
    let _word = word;
}

/// A law: the text of bytes is read as these bytes.
pub fn bytes_are_read_again(bytes: &[u8])
    ensures { hex_bytes_in (bytes_text bytes.now) ≡ Some bytes.now }
{
    let _bytes = bytes;
}
