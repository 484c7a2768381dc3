//! The program file of a classic program.
ghost use Rattle.std.specs.Prelude.{IfOk, IfErr};
ghost use Rattle.bpf_model.specs.Spelling.{text};
ghost use Rattle.texts.specs.Filters.{IsFileOfCode, IsFilterFault, IsFilterFile, IsListed};

use crate::heads::lines_in;
use crate::window::load_beyond;
use classic::{
    ClassicFault, Data, ReadFault, SockFilter, TranslateFault, check, read_filter_array,
    read_listing, translate,
};
use insn_codec::Program;
use program_files::{Head, write_file};
use std::alloc::{AllocError, Global};
use std::str;

/// Why bytes are no classic program, or have no program file.
#[derive(Clone, Copy, Debug, PartialEq, Eq)]
pub enum FilterFault {
    /// This line is the first that is not UTF-8.
    NotUtf8 { line: usize },
    /// The bytes are no listing, or no array of instructions.
    Unread(ReadFault),
    /// The instructions are no program.
    Flawed(ClassicFault),
    /// The program has no translation.
    Untranslated(TranslateFault),
    /// An allocation failed.
    Memory,
}

/// The program file of a classic program.
#[derive(Debug, Drop)]
pub struct FilterFile {
    pub text: Vec<u8>,
    /// Of a packets' filter, the first instruction that loads at a place which varies, and may lie past the bytes of a packet that
    /// a context has. It is counted from 0. Such a load ends the filter with 0, as if those bytes alone were captured.
    pub beyond: Option<usize>,
}

/// The file that says a program, without maps, on a context of these data.
fn file_for(alloc: Global, kind: Data, program: &Program) -> Result<Vec<u8>, AllocError>
    ensures { IfOk result (λ file. IsFileOfCode kind (text program.now) file.items) }
{
    let head = Head::without_maps(alloc, kind.context_len())?;
    write_file(alloc, &head, program)
}

/// The instructions that a text lists.
fn listed_in_text(alloc: Global, bytes: &[u8]) -> Result<Vec<SockFilter>, FilterFault>
    ensures listed { IfOk result (λ filter. IsListed Data.Packet bytes.now filter.items) }
    ensures fault { IfErr result (IsFilterFault Data.Packet bytes.now) }
{
    let text = match str::from_utf8(bytes) {
        Ok(text) => text,
        Err(error) => {
            let line = lines_in(&bytes[..error.valid_up_to()]).saturating_add(1);
            return Err(FilterFault::NotUtf8 { line });
        }
    };
    match read_listing(alloc, text) {
        Ok(filter) => Ok(filter),
        Err(ReadFault::Memory) => Err(FilterFault::Memory),
        Err(fault) => Err(FilterFault::Unread(fault)),
    }
}

/// The instructions that an array lists.
fn listed_in_array(alloc: Global, bytes: &[u8]) -> Result<Vec<SockFilter>, FilterFault>
    ensures listed { IfOk result (λ filter. IsListed Data.Seccomp bytes.now filter.items) }
    ensures fault { IfErr result (IsFilterFault Data.Seccomp bytes.now) }
{
    match read_filter_array(alloc, bytes) {
        Ok(filter) => Ok(filter),
        Err(ReadFault::Memory) => Err(FilterFault::Memory),
        Err(fault) => Err(FilterFault::Unread(fault)),
    }
}

/// The instructions that a text or an array lists.
fn listed(alloc: Global, kind: Data, bytes: &[u8]) -> Result<Vec<SockFilter>, FilterFault>
    ensures listed { IfOk result (λ filter. IsListed kind bytes.now filter.items) }
    ensures fault { IfErr result (IsFilterFault kind bytes.now) }
{
    match kind {
        Data::Packet => listed_in_text(alloc, bytes),
        Data::Seccomp => listed_in_array(alloc, bytes),
    }
}

/// The program file of a classic program, which is read from a text as `tcpdump -ddd` writes it, or from an array of instructions.
///
/// Errors: what of it is wrong, or that memory ran out.
pub fn make_file(alloc: Global, kind: Data, bytes: &[u8]) -> Result<FilterFile, FilterFault>
    ensures file { IfOk result (λ f. IsFilterFile kind bytes.now f.text.items) }
    ensures fault { IfErr result (IsFilterFault kind bytes.now) }
{
    let filter = listed(alloc, kind, bytes)?;
    let program = match check(alloc, &filter, kind) {
        Ok(program) => program,
        Err(ClassicFault::Memory) => return Err(FilterFault::Memory),
        Err(fault) => return Err(FilterFault::Flawed(fault)),
    };
    let translation = match translate(alloc, &program) {
        Ok(translation) => translation,
        Err(TranslateFault::Memory) => return Err(FilterFault::Memory),
        Err(fault) => return Err(FilterFault::Untranslated(fault)),
    };
    let Ok(text) = file_for(alloc, kind, &translation) else {
        return Err(FilterFault::Memory);
    };
    let beyond = load_beyond(kind, program.instructions());
    Ok(FilterFile { text, beyond })
}
