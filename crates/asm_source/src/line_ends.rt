//! The line ends of other systems.
ghost use Rattle.std.specs.Prelude.{◌≡◌, IfOk};
ghost use Rattle.asm_source.specs.LineEnds.{begins_fed as begins_with_feed, with_feeds};

use std::alloc::{AllocError, Global};

/// Whether the text begins with a line feed.
fn begins_fed(text: &[u8]) -> bool
    ensures { result ≡ begins_with_feed text.now }
{
    match text {
        [] => false,
        [first, ..] => *first == b'\n',
    }
}

/// The text with lines that end by a line feed, where they end by a carriage return and a line feed. Its lines have the same
/// numbers.
///
/// # Errors
///
/// Where memory runs out.
pub fn fed_text(alloc: Global, text: &[u8]) -> Result<Vec<u8>, AllocError>
    ensures { IfOk result (λ v. v.items ≡ with_feeds text.now) }
{
    let mut fed = Vec::new(alloc);
    let mut rest = text;
    while let [first, more @ ..] = rest {
        if *first != b'\r' || !begins_fed(more) {
            fed.push(*first)?;
        }
        rest = more;
    }
    Ok(fed)
}
