//! Which programs a table of words can serve.
ghost use Rattle.std.specs.Prelude.{◌≡◌, ◌<◌, ◌⊎◌, Decides, length, Some};
ghost use Rattle.shared_runs.specs.Words.{
  ChangesMap,
  IsElementRegion,
  IsOtherWidth,
  IsSubWordAccess,
  StoresSubWords,
  UsesSubWords,
  UsesSubWordsAmong,
  width_among,
};

use bpf_model::{CallKind, Helper, Insn, Width};
use effects::Region;
use thiserror::Error;
use verifier::Verified;

/// Why a table runs no step of a program: it accesses an element by another width than 8 bytes, of which a table may serve
/// loads, or calls a helper that changes a map.
#[derive(Clone, Copy, Debug, PartialEq, Eq, Error)]
#[error("the program accesses elements by a width that the table does not serve, or changes a map")]
pub struct SubWord;

impl SubWord {
    /// The number by which it is known: 80.
    pub fn code(self) -> u8
        ensures { result ≡ 80 }
    {
        80
    }
}

/// Which accesses of elements a table serves by 8 bytes alone.
#[derive(Clone, Copy)]
pub enum Accesses {
    All,
    Stores,
}

/// Whether the instruction makes one of these accesses, of another number of bytes than a word has.
fn has_other_width(insn: &Insn, among: Accesses) -> bool
    ensures { Decides result (IsOtherWidth (width_among among insn.now)) }
{
    match insn {
        Insn::Store { width, .. } => *width != Width::Eight,
        Insn::Load { width, .. } => matches!(among, Accesses::All) && *width != Width::Eight,
        Insn::LoadSigned { .. } => matches!(among, Accesses::All),
        _ => false,
    }
}

/// Whether the region is the value of an element.
fn is_element(region: Region) -> bool
    ensures { Decides result (IsElementRegion region) }
{
    matches!(region, Region::Value(_))
}

/// Whether the instruction calls a helper that changes a map.
fn changes_map(insn: &Insn) -> bool
    ensures { Decides result (ChangesMap insn.now) }
{
    match insn {
        Insn::Call {
            kind: CallKind::Helper,
            imm,
        } => matches!(
            Helper::from_number(*imm),
            Some(Helper::Update | Helper::Delete)
        ),
        _ => false,
    }
}

/// Whether the instruction of an index makes one of these accesses of an element by another width than 8 bytes, or calls a
/// helper that changes a map.
fn is_beyond_words(verified: &Verified, index: usize, insn: &Insn, among: Accesses) -> bool
    requires { index < length verified.now.regions }
    ensures { Decides result (IsSubWordAccess among verified.now index insn.now ⊎ ChangesMap insn.now) }
{
    if has_other_width(insn, among) && is_element(verified.region(index)) {
        return true;
    }
    changes_map(insn)
}

/// Whether the program accesses an element by another width than 8 bytes, or calls a helper that changes a map. A table that
/// serves whole words alone, as `ReadTable`, serves no such program.
pub fn uses_sub_words(verified: &Verified) -> bool
    ensures { Decides result (UsesSubWords verified.now) }
{
    uses_sub_words_among(verified, Accesses::All)
}

/// Whether the program stores to an element by another width than 8 bytes, or calls a helper that changes a map. No table of
/// words serves such a program, not even one that serves loads of bytes.
pub fn stores_sub_words(verified: &Verified) -> bool
    ensures { Decides result (StoresSubWords verified.now) }
{
    uses_sub_words_among(verified, Accesses::Stores)
}

/// Whether the program makes one of these accesses of an element by another width than 8 bytes, or calls a helper that
/// changes a map.
fn uses_sub_words_among(verified: &Verified, among: Accesses) -> bool
    ensures { Decides result (UsesSubWordsAmong among verified.now) }
{
    let instructions = verified.program().instructions();
    for index in 0..instructions.len() {
        if is_beyond_words(verified, index, &instructions[index], among) {
            return true;
        }
    }
    false
}
