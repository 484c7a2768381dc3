//! Why no program is opened, as C reads it.
ghost use Rattle.std.specs.Prelude.{◌≡◌, pos, neg_ℤ};
ghost use Rattle.host_programs.specs.Numbers.{open_fault_number, open_fault_place};
ghost use Rattle.bpfrt_c.specs.Refused.{place_kind, place_number, error_of};

use crate::number::{EACCES, EINVAL, ENOMEM};
use host_programs::{OpenFault, Place};
use std::alloc::Global;

/// How many bytes the words of a refusal have, the zero at their end among them.
pub const WORDS: usize = 144;

/// In C `struct bpfrt_refusal`: the number of docs/REFUSALS.md, where the fault is, and in words what it is, cut where they are
/// longer. `kind` is 0 where it is in no one place; else `at` is a slot (1), a line (2), an instruction of a classic program (3) or
/// a map (4).
#[repr(C)]
#[derive(Drop)]
pub struct Refusal {
    pub code: u32,
    pub kind: u32,
    pub at: u64,
    pub words: [u8; WORDS],
}

fn kind_of(place: Option<Place>) -> u32
    ensures { result ≡ place_kind place }
{
    match place {
        None => 0,
        Some(Place::Slot(_)) => 1,
        Some(Place::Line(_)) => 2,
        Some(Place::Instruction(_)) => 3,
        Some(Place::Map(_)) => 4,
    }
}

fn number_at(place: Option<Place>) -> u64
    ensures { result ≡ place_number place }
{
    match place {
        None => 0,
        Some(Place::Slot(at) | Place::Line(at) | Place::Instruction(at) | Place::Map(at)) => {
            at as u64
        }
    }
}

/// Writes as much of a text as there is room for, and zeros behind it, one at least.
fn put_words(words: &mut [u8; WORDS], text: &[u8]) {
    *words = [0; WORDS];
    let count = text.len().min(WORDS - 1);
    words[..count].copy_from_slice(&text[..count]);
}

/// Tells that memory ran out, and answers -ENOMEM.
pub fn tell_memory(why: &mut Refusal) -> i32
    ensures code { why.new.code ≡ 13 }
    ensures kind { why.new.kind ≡ 0 }
    ensures at { why.new.at ≡ 0 }
    ensures number { result ≡ neg_ℤ (pos 12) }
{
    why.code = 13;
    why.kind = 0;
    why.at = 0;
    put_words(&mut why.words, b"out of memory");
    ENOMEM
}

/// Tells a fault, and answers with its number of errno's: -ENOMEM where memory ran out, -EACCES where the verifier refuses the
/// program, else -EINVAL. Where there is no memory for the words, there are none.
pub fn tell(alloc: Global, fault: &OpenFault, why: &mut Refusal) -> i32
    ensures code { why.new.code ≡ open_fault_number fault.now }
    ensures kind { why.new.kind ≡ place_kind (open_fault_place fault.now) }
    ensures at { why.new.at ≡ place_number (open_fault_place fault.now) }
    ensures number { result ≡ error_of (open_fault_number fault.now) }
{
    let code = fault.code();
    why.code = u32::from(code);
    why.kind = kind_of(fault.place());
    why.at = number_at(fault.place());
    match format!(in alloc; "{fault}") {
        Ok(text) => put_words(&mut why.words, text.as_bytes()),
        Err(_) => put_words(&mut why.words, b""),
    }
    match code {
        13 => ENOMEM,
        20..=39 => EACCES,
        _ => EINVAL,
    }
}
