//! The parts of a text: the head of a program file, and what stands below.
ghost use Rattle.std.specs.Prelude.{◌≡◌, ◌++◌, ◌∷◌, [], ◌≤◌, ◌==◌, List, ℕ, IfOk, IfErr, count_by, length, option_copied};
ghost use Rattle.texts.specs.Assembled.{IsSplit, IsHeadRefusal, head_or_none};

use program_files::{Head, LoadFault, read_head};
use std::alloc::Global;
use std::str;

/// The line that stands between a head and what follows.
const CODE_LINE: &str = "\ncode\n";

/// The head of a program file without maps, for an empty context.
const NO_HEAD: &str = "ctx 0";

/// The lines above the line `code` of a text, if it has that line, and what stands below.
#[derive(Clone, Copy)]
pub struct Split<'a> {
    pub head: Option<&'a str>,
    pub body: &'a str,
}

/// The parts of a text: it is split at its first line `code`.
pub fn parts_of(text: &str) -> Split<'_>
    ensures { IsSplit text.now (option_copied result.head) result.body.now }
{
    match text.split_once(CODE_LINE) {
        Some((head, body)) => Split {
            head: Some(head),
            body,
        },
        None => Split {
            head: None,
            body: text,
        },
    }
}

/// Whether bytes are a text that has a head.
pub fn has_head(bytes: &[u8]) -> bool {
    str::from_utf8(bytes).is_ok_and(|text| parts_of(text).head.is_some())
}

/// How many lines end in these bytes.
pub fn lines_in(bytes: &[u8]) -> usize
    ensures count { result ≡ count_by (λ b. b == 10) bytes.now }
    ensures few { result ≤ length bytes.now }
{
    let mut lines = 0;
    for byte in bytes {
        if *byte == b'\n' {
            lines += 1;
        }
    }
    lines
}

/// The lines of a head, or those of a program file without maps for an empty context.
pub fn lines_of<'a>(head: Option<&'a str>) -> &'a str
    ensures { result.now ≡ head_or_none (option_copied head.entry) }
{
    match head {
        Some(head) => head,
        None => NO_HEAD,
    }
}

/// The head of the program file that a text of these parts makes: its own, or one without maps for an empty context.
///
/// Errors: `BadFile` with the line of the head in the file, where no program file has the head; else `Memory`.
pub fn head_of(alloc: Global, parts: &Split<'_>) -> Result<Head, LoadFault>
    ensures text { IfOk result (λ h. h.text ≡ head_or_none (option_copied parts.now.head) ++ 10 ∷ []) }
    ensures fault { (bytes : List ℕ) → IsSplit bytes (option_copied parts.now.head) parts.now.body.now →
        IfErr result (IsHeadRefusal bytes) }
{
    match parts.head {
        Some(head) => read_head(alloc, head.as_bytes()),
        None => Ok(Head::without_maps(alloc, 0)?),
    }
}
