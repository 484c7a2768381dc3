//! What the definitions say of every input and every program, and what `decode` and `encode` give one after
//! the other.
ghost use Rattle.std.specs.Prelude.{◌≡◌, ◌≢◌, ℕ, List, IfOk, IfErr};
ghost use Rattle.bpf_model.specs.declared.insn.Insn.{Insn};
ghost use Rattle.bpf_model.specs.Spelling.{text, IsProgram};
ghost use Rattle.insn_codec.specs.Faults.{IsDecodeFault};

use crate::decoding::decode;
use crate::encoding::encode;
use crate::fault::DecodeFault;
use crate::program::Program;
use std::alloc::Global;

/// Decodes the bytes and encodes the program. Where neither fails, that gives the bytes again:
/// `encode(decode(b)) = b`. (The clause is of this body; it follows from `found` of `decode` and `text` of
/// `encode`.)
///
/// # Errors
///
/// That of `decode`, or `Memory` where an allocation failed.
pub fn encode_undoes_decode(alloc: Global, bytes: &[u8]) -> Result<Vec<u8>, DecodeFault>
    ensures same { IfOk result (λ again. again.items ≡ bytes.now) }
    ensures fault { IfErr result (IsDecodeFault bytes.now) }
{
    let program = decode(alloc, bytes)?;
    Ok(encode(alloc, &program)?)
}

/// Encodes the program and decodes the bytes. Where neither fails, that gives the program again:
/// `decode(encode(p)) = p`. (The clause is of this body; it follows from `text` of `encode` and `only` of
/// `decode`.)
///
/// # Errors
///
/// `Memory` where an allocation failed.
pub fn decode_undoes_encode(alloc: Global, program: &Program) -> Result<Program, DecodeFault>
    ensures same { IfOk result (λ again. again ≡ program.now) }
    ensures fault { IfErr result (λ fault. fault ≡ DecodeFault.Memory) }
{
    let bytes = encode(alloc, program)?;
    decode(alloc, &bytes)
}

/// No input has two faults, but that memory ran out may be said of any.
pub fn one_fault()
    ensures { (bytes : List ℕ) (f g : DecodeFault) →
        f ≢ DecodeFault.Memory → g ≢ DecodeFault.Memory →
        IsDecodeFault bytes f → IsDecodeFault bytes g → f ≡ g }
{}

/// The bytes that a program is encoded to have no fault, but that memory ran out may be said of any.
pub fn no_fault()
    ensures { (p : List Insn) → IsProgram p → (f : DecodeFault) →
        f ≢ DecodeFault.Memory → IsDecodeFault (text p) f → ⊥ }
{}

/// No two programs are encoded to the same bytes.
pub fn one_program()
    ensures { (p q : List Insn) → IsProgram p → IsProgram q → text p ≡ text q → p ≡ q }
{}
