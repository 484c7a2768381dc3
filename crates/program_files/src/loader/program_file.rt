//! Program files.
ghost use Rattle.std.specs.Prelude.{◌≡◌, ◌∷◌, ◌+◌, ◌<◌, ◌≤◌, ◌^◌, length, IfOk, IfErr, MatchResult};
ghost use Rattle.bpf_model.specs.declared.limits.TheConstants.{CTX_BYTES};
ghost use Rattle.script_stream.specs.Lines.{lines_of};
ghost use Rattle.program_files.specs.ProgramFile.{FileContent, IsProgramFile, FileSays, IsLoadFault};
ghost use Rattle.program_files.specs.Loaded.{loaded_content, IsFileTextFault};
ghost use Rattle.program_files.specs.Stages.{HasLoaded, IsLineFault};

use crate::loader::fault::{LineFault, LoadFault};
use crate::loader::lines_read::LinesRead;
use crate::loader::words::cut;
use maps::Registry;
use std::alloc::Global;

/// How a text begins.
pub const HEADING: &[u8] = b"bpfrt 1\n";

/// What a program file says.
#[derive(Drop)]
pub struct ProgramFile {
    /// How many bytes the program's context has, at most `CTX_BYTES`.
    pub ctx_len: usize,
    /// The file's maps, without elements; the program names each by its number here.
    pub registry: Registry,
    /// The program's bytes, slot after slot. They may be no program.
    pub code: Vec<u8>,
}

/// The first line of a text that is not empty, and what stands behind it.
pub(crate) fn first_line(text: &[u8]) -> (&[u8], &[u8])
    requires { 0 < length text.now }
    ensures lines { lines_of text.now ≡ result.0.now ∷ lines_of result.1.now }
    ensures shorter { length result.1.now < length text.now }
{
    let (line, rest) = cut(text, b'\n');
    match rest {
        Some(rest) => (line, rest),
        None => (line, &[]),
    }
}

/// What the lines of a text say, which may go on.
#[derive(Drop)]
pub struct TextRead {
    pub said: LinesRead,
    /// The number of the line behind them, where that of the first is 2.
    pub next: usize,
}

/// Reads the lines behind the heading.
pub fn read_lines(alloc: Global, text: &[u8]) -> Result<TextRead, LoadFault>
    requires { length text.now + 8 < 2 ^ 64 }
    ensures read { IfOk result (λ r. HasLoaded (lines_of text.now) r.said) }
    ensures next { IfOk result (λ r. r.next ≡ length (lines_of text.now) + 2) }
    ensures wrong { IfErr result (IsLineFault (lines_of text.now)) }
{
    let mut loading = LinesRead::new(alloc);
    let mut rest = text;
    let mut number = 2;
    while !rest.is_empty() {
        loading.begins();
        let (line, more) = first_line(rest);
        match loading.line(line) {
            Ok(()) => {}
            Err(LineFault::Wrong) => return Err(LoadFault::BadFile { line: number }),
            Err(LineFault::Memory) => return Err(LoadFault::Memory),
        }
        rest = more;
        number += 1;
    }
    Ok(TextRead {
        said: loading,
        next: number,
    })
}

/// What the lines behind the heading say.
fn load_text(alloc: Global, text: &[u8]) -> Result<ProgramFile, LoadFault>
    requires { length text.now + 8 < 2 ^ 64 }
    ensures found { IfOk result (λ f. IsProgramFile (lines_of text.now) (loaded_content f)) }
    ensures fault { IfErr result (IsFileTextFault text.now) }
{
    let read = read_lines(alloc, text)?;
    read.said.begins();
    match read.said.finish() {
        Some(file) => Ok(file),
        None => Err(LoadFault::BadFile { line: read.next }),
    }
}

/// What a program file says. One that begins with `HEADING` is a text: behind the heading a line `ctx N`, a
/// line `map NAME KEY VALUE ENTRIES SPARE REUSE` for each hash map and `map NAME array VALUE ENTRIES` for each
/// array, a line `code`, and lines of slots, each 16 hexadecimal digits; words and slots are parted by one space
/// each. Any other file is raw: its bytes are the program's, with no context and no maps.
///
/// # Errors
///
/// - `BadFile`: the first line of a text that is otherwise, has a context of more than `CTX_BYTES`, or a map
///   that `Registry::create` refuses.
/// - `Memory`: where memory runs out.
pub fn load(alloc: Global, bytes: &[u8]) -> Result<ProgramFile, LoadFault>
    // What the file says.
    ensures found { IfOk result (λ f. FileSays bytes.now (loaded_content f)) }
    ensures limit { IfOk result (λ f. f.ctx_len ≤ CTX_BYTES) }
    // Which line is wrong.
    ensures fault { IfErr result (IsLoadFault bytes.now) }
    // A file that says something is loaded, unless memory runs out.
    ensures only { (content : FileContent) → FileSays bytes.now content →
        MatchResult result (λ f. loaded_content f ≡ content) (λ e. e ≡ LoadFault.Memory) }
{
    match bytes.strip_prefix(HEADING) {
        Some(text) => load_text(alloc, text),
        None => Ok(ProgramFile {
            ctx_len: 0,
            registry: Registry::new(alloc),
            code: Vec::from_slice(alloc, bytes)?,
        }),
    }
}
