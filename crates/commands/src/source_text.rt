//! What is read of a text of instructions: its lines above `code` without comments.
ghost use Rattle.std.specs.Prelude.{IfOk};
ghost use Rattle.commands.specs.Sources.{IsRead, IsReadByParts};

use asm_source::{Tokens, fed_text, head_text};
use std::alloc::{AllocError, Global};
use std::str;
use texts::parts_of;

/// A text whose lines end by line feeds, and what is read of it.
#[derive(Drop)]
pub struct SourceText {
    pub fed: Vec<u8>,
    pub read: Vec<u8>,
}

/// What is read of a text.
fn read_by_parts(alloc: Global, text: &str) -> Result<Vec<u8>, AllocError>
    ensures { IfOk result (λ read. IsReadByParts text.now read.items) }
{
    let parts = parts_of(text);
    let Some(head) = parts.head else {
        return Vec::from_slice(alloc, parts.body.as_bytes());
    };
    let mut read = head_text(alloc, head.as_bytes())?;
    read.extend_from_slice(b"code\n")?;
    read.extend_from_slice(parts.body.as_bytes())?;
    Ok(read)
}

/// A text of these bytes, where lines may also end by a carriage return and a line feed.
pub fn source_of(alloc: Global, bytes: &[u8]) -> Result<SourceText, AllocError>
    ensures { IfOk result (λ source. IsRead bytes.now source.read.items) }
{
    let fed = fed_text(alloc, bytes)?;
    let read = match str::from_utf8(&fed) {
        Ok(text) => read_by_parts(alloc, text)?,
        Err(_) => Vec::from_slice(alloc, &fed)?,
    };
    Ok(SourceText { fed, read })
}

/// The number of the line that is read as the line of this number, in a text with these lines above `code`.
fn number_below(head: &str, line: usize) -> usize {
    let (mut number, mut read): (usize, usize) = (0, 0);
    for above in head.split('\n') {
        number = number.saturating_add(1);
        if !Tokens::new(above.as_bytes()).is_done() {
            read = read.saturating_add(1);
            if read == line {
                return number;
            }
        }
    }
    line.saturating_add(number.saturating_sub(read))
}

impl SourceText {
    /// The lines above the line `code`, if there is one.
    fn head(&self) -> Option<&str> {
        match str::from_utf8(&self.fed) {
            Ok(text) => parts_of(text).head,
            Err(_) => None,
        }
    }

    /// The number of the line that is read as the line of this number.
    pub fn line_read(&self, line: usize) -> usize {
        match self.head() {
            Some(head) => number_below(head, line),
            None => line,
        }
    }

    /// The numbers of the lines that have an instruction, in the plain text of the lines below `code`.
    pub fn lines_of(&self, alloc: Global, plain: &[u8]) -> Result<Vec<usize>, AllocError> {
        let mut lines = Vec::new(alloc);
        let mut number = match self.head() {
            Some(head) => head.split('\n').count().saturating_add(1),
            None => 0,
        };
        for line in plain.split(|byte| *byte == b'\n') {
            number = number.saturating_add(1);
            if !line.is_empty() {
                lines.push(number)?;
            }
        }
        Ok(lines)
    }
}
