//! The text of a program, assembled.
ghost use Rattle.std.specs.Prelude.{◌≡◌, Ok, IfOk, IfErr, map, option_copied};
ghost use Rattle.bpf_model.specs.Spelling.{IsProgram, text};
ghost use Rattle.disasm.specs.Text.{line_of};
ghost use Rattle.asm.specs.Faults.{statements_in, IsAsmFault};
ghost use Rattle.asm_source.specs.Faulty.{IsFaultOf};
ghost use Rattle.program_files.specs.Heads.{file_text};
ghost use Rattle.texts.specs.Assembled.{IsAssembled, IsTextFault, plain_below};

use crate::heads::{Split, head_of, lines_in, lines_of, parts_of};
use asm::{AsmFault, assemble};
use asm_source::{SourceFault, maps_of, plain_of};
use insn_codec::{Program, encode};
use program_files::{Head, LoadFault, write_file};
use std::alloc::{AllocError, Global};
use std::str;

/// Why bytes are no text of a program. Lines are counted from 1.
#[derive(Clone, Copy, Debug, PartialEq, Eq)]
pub enum TextFault {
    /// This line is the first that is not UTF-8.
    NotUtf8 { line: usize },
    /// A name in the lines below this many has no meaning, or more than one.
    Unnamed { lines: usize, fault: SourceFault },
    /// The instructions below this many lines have this fault.
    Flawed { lines: usize, flaw: AsmFault },
    /// This line is none that the head of a program file may have.
    BadHead { line: usize },
    /// An allocation failed.
    Memory,
}

/// The plain text of the instructions, their program, and the head of its program file.
#[derive(Drop)]
pub struct Assembled {
    pub lines: Vec<u8>,
    pub program: Program,
    pub head: Head,
}

impl Assembled {
    /// The bytes of the program. The error is that memory ran out.
    pub fn code(&self, alloc: Global) -> Result<Vec<u8>, AllocError>
        ensures { IfOk result (λ code. code.items ≡ text self.now.program) }
    {
        encode(alloc, &self.program)
    }

    /// The program file. The error is that memory ran out.
    pub fn file(&self, alloc: Global) -> Result<Vec<u8>, AllocError>
        ensures { IfOk result (λ file. file.items ≡ file_text self.now.head.text self.now.program) }
    {
        write_file(alloc, &self.head, &self.program)
    }
}

/// The plain text of the instructions of a text.
pub fn plain_text(alloc: Global, parts: &Split<'_>) -> Result<Vec<u8>, SourceFault>
    ensures found { IfOk result (λ lines. plain_below (option_copied parts.now.head) parts.now.body.now ≡ Ok lines.items) }
    ensures fault { IfErr result (IsFaultOf (plain_below (option_copied parts.now.head) parts.now.body.now)) }
{
    let maps = maps_of(alloc, lines_of(parts.head).as_bytes())?;
    plain_of(alloc, parts.body.as_bytes(), &maps)
}

/// How many lines stand above the instructions of a text.
pub fn lines_above(parts: &Split<'_>) -> usize {
    parts
        .head
        .map_or(0, |head| lines_in(head.as_bytes()).saturating_add(2))
}

/// The program that a plain text has. A plain text that is not UTF-8 would be answered as `Memory`. None is: its source is
/// UTF-8, though no clause says that this stays so.
fn program_of(alloc: Global, lines: &[u8]) -> Result<Program, AsmFault>
    ensures found { IfOk result (λ p. statements_in lines.now ≡ map line_of p) }
    ensures program { IfOk result IsProgram }
    ensures fault { IfErr result (IsAsmFault lines.now) }
{
    match str::from_utf8(lines) {
        Ok(text) => assemble(alloc, text),
        Err(_) => Err(AsmFault::Memory),
    }
}

/// Assembles a text: its plain text, its program, and the head of the program file that it makes.
///
/// Errors: the first of these, or `Memory` where memory runs out.
/// - `NotUtf8`, with the first line that is not UTF-8.
/// - `Unnamed`: a name of a line has no meaning, more than one, or is none.
/// - `Flawed`: a line is no instruction, or they are too many, or there is none.
/// - `BadHead`, with the line above `code` that is wrong.
pub fn assemble_text(alloc: Global, bytes: &[u8]) -> Result<Assembled, TextFault>
    // What it makes: plain text, the bytes of the program, and the program file.
    ensures made { IfOk result (λ a. IsAssembled bytes.now a.lines.items (text a.program)
        (file_text a.head.text a.program)) }
    ensures fault { IfErr result (IsTextFault bytes.now) }
{
    let text = match str::from_utf8(bytes) {
        Ok(text) => text,
        Err(error) => {
            let line = lines_in(&bytes[..error.valid_up_to()]).saturating_add(1);
            return Err(TextFault::NotUtf8 { line });
        }
    };
    let parts = parts_of(text);
    let above = lines_above(&parts);
    let lines = match plain_text(alloc, &parts) {
        Ok(lines) => lines,
        Err(SourceFault::Memory) => return Err(TextFault::Memory),
        Err(fault) => return Err(TextFault::Unnamed {
            lines: above,
            fault,
        }),
    };
    let program = match program_of(alloc, &lines) {
        Ok(program) => program,
        Err(AsmFault::Memory) => return Err(TextFault::Memory),
        Err(flaw) => return Err(TextFault::Flawed { lines: above, flaw }),
    };
    let head = match head_of(alloc, &parts) {
        Ok(head) => head,
        Err(LoadFault::BadFile { line }) => {
            return Err(TextFault::BadHead {
                line: line.saturating_sub(1),
            });
        }
        Err(LoadFault::Memory) => return Err(TextFault::Memory),
    };
    head.says(&program);
    Ok(Assembled {
        lines,
        program,
        head,
    })
}
