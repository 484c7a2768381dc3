//! The bytes of a program file, read in bounded memory where it is raw, and what they say.
ghost use Rattle.std.specs.Prelude.{◌≡◌, List, [], ℕ, ◌++◌, ◌≤◌, length, IfOk, IfErr, IfSome, OnOk};
ghost use Rattle.bpf_model.specs.declared.limits.TheConstants.{CTX_BYTES};
ghost use Rattle.program_files.specs.Files.{HoldsBytes};
ghost use Rattle.bpf_model.specs.View.{AreNewMaps};
ghost use Rattle.program_files.specs.Checks.{IsSourceOf, IsDecodeRefusal};

use crate::likeness::SEEN;
use crate::loader::{HEADING, load};
use crate::verdict::Verdict;
use bpf_model::MAX_SLOTS;
use insn_codec::{DecodeFault, Program, decode};
use maps::Registry;
use script_stream::read_some;
use std::alloc::{AllocError, Global};
use std::io;
use std::io::{ErrorKind, Read};

/// How many bytes are read at once.
const CHUNK: usize = 4096;

/// The most bytes of a text, 16 MiB. A sound text of `MAX_SLOTS` slots has fewer than 75,000.
pub const TEXT_BYTES: usize = 16 << 20;

/// A program, and what it is verified against.
#[derive(Drop)]
pub struct Source {
    pub program: Program,
    /// The maps that the program names by their numbers.
    pub registry: Registry,
    /// How many bytes the context has, at most `CTX_BYTES`.
    pub ctx_len: usize,
}

/// What is kept of a file's bytes: enough to tell what they say.
#[derive(Drop)]
pub enum FileBytes {
    /// All bytes.
    Whole(Vec<u8>),
    /// The bytes are no text, and more than 8 for each of `MAX_SLOTS` slots: the remainder of their
    /// number by 8, and the first of them, for people.
    TooLong {
        remainder: usize,
        beginning: Vec<u8>,
    },
}

/// What a file of these bytes says.
fn source_of(alloc: Global, bytes: &[u8]) -> Result<Source, Verdict>
    ensures found { IfOk result (IsSourceOf bytes.now) }
    ensures limit { IfOk result (λ s. s.ctx_len ≤ CTX_BYTES) }
    ensures maps { IfOk result (λ s. AreNewMaps s.registry.maps) }
    ensures fault { IfErr result (IsDecodeRefusal bytes.now) }
{
    let file = load(alloc, bytes)?;
    let program = decode(alloc, &file.code)?;
    Ok(Source {
        program,
        registry: file.registry,
        ctx_len: file.ctx_len,
    })
}

impl FileBytes {
    /// A file of no bytes.
    fn empty(alloc: Global) -> FileBytes
        ensures { HoldsBytes result [] }
    {
        FileBytes::Whole(Vec::new(alloc))
    }

    /// Adds the bytes that follow. A text of more than `TEXT_BYTES` is want of memory.
    fn append(&mut self, alloc: Global, chunk: &[u8]) -> Result<(), AllocError>
        requires { length chunk.now ≤ CHUNK }
        ensures { (bytes : List ℕ) → HoldsBytes self.old bytes →
            OnOk result (HoldsBytes self.new (bytes ++ chunk.now)) }
    {
        match self {
            FileBytes::Whole(bytes)
                if chunk.len() <= (8 * MAX_SLOTS).saturating_sub(bytes.len())
                    || bytes.starts_with(HEADING) => {
                if chunk.len() > TEXT_BYTES.saturating_sub(bytes.len()) {
                    return Err(AllocError);
                }
                bytes.extend_from_slice(chunk)?;
            }
            FileBytes::Whole(bytes) => {
                let remainder = (bytes.len() % 8 + chunk.len() % 8) % 8;
                let beginning = Vec::from_slice(alloc, &bytes[..bytes.len().min(SEEN)])?;
                *self = FileBytes::TooLong {
                    remainder,
                    beginning,
                };
            }
            FileBytes::TooLong { remainder, .. } => {
                *remainder = (*remainder % 8 + chunk.len() % 8) % 8;
            }
        }
        Ok(())
    }

    /// What the file says, or its first fault.
    pub fn source(&self, alloc: Global) -> Result<Source, Verdict>
        ensures found { (bytes : List ℕ) → HoldsBytes self.now bytes →
            IfOk result (IsSourceOf bytes) }
        ensures limit { IfOk result (λ s. s.ctx_len ≤ CTX_BYTES) }
        // Nothing has happened to the source's maps.
        ensures maps { IfOk result (λ s. AreNewMaps s.registry.maps) }
        ensures fault { (bytes : List ℕ) → HoldsBytes self.now bytes →
            IfErr result (IsDecodeRefusal bytes) }
    {
        match self {
            FileBytes::Whole(bytes) => source_of(alloc, bytes),
            FileBytes::TooLong { remainder: 0, .. } => Err(Verdict::Code(DecodeFault::TooLong)),
            FileBytes::TooLong { .. } => Err(Verdict::Code(DecodeFault::Length)),
        }
    }
}

/// Reads a file to its end. Of a raw file it keeps a program's bytes alone, however long it is; a
/// text is kept as a whole, and one of more than `TEXT_BYTES` is want of memory.
pub fn read_file<R: Read>(alloc: Global, input: &mut R) -> io::Result<FileBytes>
    ensures { IfOk result (λ file. IfSome (R.remaining input.old) (HoldsBytes file)) }
{
    let mut file = FileBytes::empty(alloc);
    let mut chunk = [0u8; CHUNK];
    for _ in 0..u64::MAX {
        let count = read_some(input, &mut chunk)?;
        if count == 0 {
            return Ok(file);
        }
        file.append(alloc, &chunk[..count])?;
    }
    Err(io::Error::from(ErrorKind::FileTooLarge))
}

/// Reads a text to its end. One of more than `TEXT_BYTES` is want of memory.
pub fn read_text<R: Read>(alloc: Global, input: &mut R) -> io::Result<Vec<u8>>
    ensures { IfOk result (λ text. IfSome (R.remaining input.old) (λ bytes. text.items ≡ bytes)) }
{
    let mut text = Vec::new(alloc);
    let mut chunk = [0u8; CHUNK];
    for _ in 0..u64::MAX {
        let count = read_some(input, &mut chunk)?;
        if count == 0 {
            return Ok(text);
        }
        if count > TEXT_BYTES.saturating_sub(text.len()) {
            return Err(io::Error::from(ErrorKind::OutOfMemory));
        }
        text.extend_from_slice(&chunk[..count])?;
    }
    Err(io::Error::from(ErrorKind::FileTooLarge))
}
