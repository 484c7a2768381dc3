//! How programs are opened.
ghost use Rattle.std.specs.Prelude.{◌≡◌, ◌≤◌, Some, IfOk, IfErr, IfSome, IfNone, List, length};
ghost use Rattle.bpf_model.specs.declared.limits.TheConstants.{CTX_BYTES, MAX_MAPS};
ghost use Rattle.bpf_model.specs.Shapes.{AreShapes};
ghost use Rattle.bpf_model.specs.Spelling.{text};
ghost use Rattle.classic_program.specs.Reading.{IsListing, filters_in};
ghost use Rattle.classic_program.specs.WellFormed.{checked};
ghost use Rattle.classic_program.specs.declared.data.Data.TheVariants.{Packet};
ghost use Rattle.classic_program.specs.declared.fault.ClassicFault.TheVariants.{Memory};
ghost use Rattle.host_programs.specs.declared.fault.OpenFault.TheVariants.{Flawed};
ghost use Rattle.classic_program.specs.declared.sock_filter.SockFilter.{SockFilter as FilterOf};
ghost use Rattle.host_programs.specs.Opened.{IsOfBytes, IsOfFile, IsOfClassic};
ghost use Rattle.host_programs.specs.Refusals.{IsBadShape, IsBytesFault, IsFileFault, IsClassicFault, IsListingFault, IsArrayFault};

use crate::fault::OpenFault;
use crate::program::HostProgram;
use bpf_model::{CTX_BYTES, MAX_MAPS, MapShape};
use classic::{
    ClassicFault, ClassicProgram, Data, SockFilter, check, read_filter_array, read_listing,
    translate,
};
use classic_runs::PacketFilter;
use insn_codec::decode;
use maps::is_shape;
use program_files::{load, verify_for_maps};
use std::alloc::Global;
use std::str;
use verifier::verify;

/// The first shape that no map may have.
fn bad_shape(shapes: &[MapShape]) -> Option<usize>
    ensures some { IfSome result (IsBadShape shapes.now) }
    ensures none { IfNone result (AreShapes shapes.now) }
{
    for number in 0..shapes.len() {
        let shape = shapes[number];
        if !is_shape(&shape) {
            return Some(number);
        }
    }
    None
}

/// The number of the line in which bytes stop to be UTF-8, behind so many that are.
fn line_behind(bytes: &[u8], valid: usize) -> usize
    requires { valid ≤ length bytes.now }
{
    let mut line: usize = 1;
    for byte in &bytes[..valid] {
        if *byte == b'\n' {
            line = line.saturating_add(1);
        }
    }
    line
}

/// A classic program of packets, ready to be run.
fn ready(alloc: Global, classic: &ClassicProgram) -> Result<Option<PacketFilter>, OpenFault>
    ensures same { IfOk result (λ o. IfSome o (λ f. classic.now ≡ checked Packet f)) }
    ensures fault { IfErr result (λ e. e ≡ Flawed Memory) }
{
    match classic.data() {
        Data::Seccomp => Ok(None),
        Data::Packet => match PacketFilter::new(alloc, classic) {
            Ok(filter) => Ok(Some(filter)),
            Err(_) => Err(OpenFault::Flawed(ClassicFault::Memory)),
        },
    }
}

impl HostProgram {
    /// The program of these bytes (RFC 9669's encoding), for contexts of this length and for maps of these shapes, which it
    /// names by their numbers.
    ///
    /// Errors: the first of these, or that memory ran out. `ContextLength`, `TooManyMaps`, `BadShape`; `Bytes`; `Program`.
    pub fn from_bytes(
        alloc: Global,
        bytes: &[u8],
        ctx_len: usize,
        shapes: &[MapShape],
    ) -> Result<HostProgram, OpenFault>
        ensures opened { IfOk result (IsOfBytes bytes.now ctx_len shapes.now) }
        ensures fault { IfErr result (IsBytesFault bytes.now ctx_len shapes.now) }
    {
        if ctx_len > CTX_BYTES {
            return Err(OpenFault::ContextLength);
        }
        if shapes.len() > MAX_MAPS {
            return Err(OpenFault::TooManyMaps);
        }
        if let Some(map) = bad_shape(shapes) {
            return Err(OpenFault::BadShape { map });
        }
        let program = decode(alloc, bytes)?;
        let verified = verify(alloc, program, shapes, ctx_len)?;
        Ok(HostProgram::of_verified(verified))
    }

    /// The program of a program file, or of raw bytes without context and maps, as `bpfrt check` reads them.
    ///
    /// Errors: the first of these, or that memory ran out. `File`, `Bytes`, `Program`.
    pub fn from_file(alloc: Global, bytes: &[u8]) -> Result<HostProgram, OpenFault>
        ensures opened { IfOk result (IsOfFile bytes.now) }
        ensures fault { IfErr result (IsFileFault bytes.now) }
    {
        let file = load(alloc, bytes)?;
        let program = decode(alloc, &file.code)?;
        let verified = verify_for_maps(alloc, program, &file.registry, file.ctx_len)?;
        Ok(HostProgram::of_verified(verified))
    }

    /// The translation of a classic program, verified.
    ///
    /// Errors: the first of these, or that memory ran out. `Flawed`, `Untranslated`; `Program` where the verifier refuses the
    /// translation, of which no case is known.
    pub fn from_classic(
        alloc: Global,
        kind: Data,
        filter: &[SockFilter],
    ) -> Result<HostProgram, OpenFault>
        ensures opened { IfOk result (IsOfClassic kind filter.now) }
        ensures fault { IfErr result (IsClassicFault kind filter.now) }
    {
        let classic = check(alloc, filter, kind)?;
        let translation = match translate(alloc, &classic) {
            Ok(translation) => translation,
            Err(fault) => return Err(OpenFault::Untranslated(fault)),
        };
        let verified = match verify(alloc, translation, &[], kind.context_len()) {
            Ok(verified) => verified,
            Err(refusal) => return Err(OpenFault::Program(refusal)),
        };
        let filter = ready(alloc, &classic)?;
        Ok(HostProgram::of_translation(verified, classic, filter))
    }

    /// The filter of packets that a text lists, as `tcpdump -ddd` writes it.
    ///
    /// Errors: `NotUtf8` and `Unread` where the text lists nothing; else those of `from_classic`.
    pub fn from_listing(alloc: Global, bytes: &[u8]) -> Result<HostProgram, OpenFault>
        ensures opened { IfOk result (λ p. (filter : List FilterOf) × IsListing bytes.now filter
            × IsOfClassic Packet filter p) }
        ensures fault { IfErr result (IsListingFault bytes.now) }
    {
        let text = match str::from_utf8(bytes) {
            Ok(text) => text,
            Err(error) => {
                let line = line_behind(bytes, error.valid_up_to());
                return Err(OpenFault::NotUtf8 { line });
            }
        };
        let filter = read_listing(alloc, text)?;
        HostProgram::from_classic(alloc, Data::Packet, filter.as_slice())
    }

    /// The classic program of an array of instructions of 8 bytes each (struct sock_filter), for packets or for system calls.
    ///
    /// Errors: `Unread` where the last instruction is cut; else those of `from_classic`.
    pub fn from_array(alloc: Global, kind: Data, bytes: &[u8]) -> Result<HostProgram, OpenFault>
        ensures opened { IfOk result (IsOfClassic kind (filters_in bytes.now)) }
        ensures fault { IfErr result (IsArrayFault kind bytes.now) }
    {
        let filter = read_filter_array(alloc, bytes)?;
        HostProgram::from_classic(alloc, kind, filter.as_slice())
    }
}
