//! Refusals of a map's or a program's making.
ghost use Rattle.std.specs.Prelude.{◌≡◌, ◌≢◌, IfOk, Err};

use crate::refusal::LineRefusal;
use bpf_model::{MapId, ProgId};
use insn_codec::DecodeFault;
use maps::MapFault;
use std::alloc::AllocError;
use verifier::ProgramRefusal;

/// A map that is not made for this fault, which is a refusal unless memory ran out.
pub(crate) fn uncreated(fault: MapFault) -> Result<Result<MapId, LineRefusal>, AllocError>
    ensures known { IfOk result (λ _. fault ≢ MapFault.Memory) }
    ensures refused { IfOk result (λ made. made ≡ Err (LineRefusal.Map fault)) }
{
    match fault {
        MapFault::Memory => Err(AllocError),
        _ => Ok(Err(LineRefusal::Map(fault))),
    }
}

/// A program that is not loaded for this fault of its bytes, which is a refusal unless memory ran out.
pub(crate) fn undecoded(fault: DecodeFault) -> Result<Result<ProgId, LineRefusal>, AllocError>
    ensures known { IfOk result (λ _. fault ≢ DecodeFault.Memory) }
    ensures refused { IfOk result (λ made. made ≡ Err (LineRefusal.Decode fault)) }
{
    match fault {
        DecodeFault::Memory => Err(AllocError),
        _ => Ok(Err(LineRefusal::Decode(fault))),
    }
}

/// A program that the verifier refuses so, unless memory ran out.
pub(crate) fn unverified(refusal: ProgramRefusal) -> Result<Result<ProgId, LineRefusal>, AllocError>
    ensures known { IfOk result (λ _. refusal ≢ ProgramRefusal.Memory) }
    ensures refused { IfOk result (λ made. made ≡ Err (LineRefusal.Program refusal)) }
{
    match refusal {
        ProgramRefusal::Memory => Err(AllocError),
        _ => Ok(Err(LineRefusal::Program(refusal))),
    }
}
