//! Where a line ends.
ghost use Rattle.std.specs.Prelude.{◌≡◌, ◌∷◌, ◌++◌, IfSome, IfNone};
ghost use Rattle.script_stream.specs.Lines.{HasNoFeed};

use memchr::memchr;

/// The bytes before the first line feed, and those behind it.
pub(crate) fn cut_line(bytes: &[u8]) -> Option<(&[u8], &[u8])>
    ensures some { IfSome result (λ x. HasNoFeed x.0.now × (bytes.now ≡ x.0.now ++ 10 ∷ x.1.now)) }
    ensures none { IfNone result (HasNoFeed bytes.now) }
{
    match memchr(b'\n', bytes) {
        Some(end) => Some((&bytes[..end], &bytes[end + 1..])),
        None => None,
    }
}
