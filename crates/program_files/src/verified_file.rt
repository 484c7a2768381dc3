//! A program, verified with its file's maps and its context.
ghost use Rattle.std.specs.Prelude.{◌≡◌, ◌≤◌, List, ℕ, length, IfOk, IfErr, OnOk};
ghost use Rattle.model_laws.specs.PlainMaps.{IsPlainWithMaps};
ghost use Rattle.bpf_model.specs.declared.limits.TheConstants.{CTX_BYTES, MAX_MAPS};
ghost use Rattle.bpf_model.specs.View.{shapes_of_maps};
ghost use Rattle.verifier.specs.GraphFlaws.{HasGoodGraph};
ghost use Rattle.plan_laws.specs.Verified.{IsVerified};
ghost use Rattle.verifier.specs.Verdict.{IsToldOf, IsAccepted as IsTaken};
ghost use Rattle.program_files.specs.Checks.{HandsBack, IsSourceOf, IsCheckedRefusal};

use crate::program_file::Source;
use crate::refused::{RefusedFile, RefusedProgram};
use crate::verdict::Verdict;
use bpf_model::{MapId, MapShape};
use insn_codec::Program;
use maps::Registry;
use std::alloc::{AllocError, Global};
use verifier::{ProgramRefusal, Verified, verify, verify_or_return};

/// The shapes of a registry's maps, by their numbers.
pub fn shapes_of(alloc: Global, registry: &Registry) -> Result<Vec<MapShape>, AllocError>
    ensures shapes { IfOk result (λ v. v.items ≡ shapes_of_maps registry.now.maps) }
    ensures limit { IfOk result (λ v. length v.items ≤ MAX_MAPS) }
{
    let mut shapes = Vec::new(alloc);
    for number in 0..registry.len() {
        if let Some(shape) = registry.shape(MapId::new(number)) {
            shapes.push(shape)?;
        }
    }
    Ok(shapes)
}

/// Verifies a program for contexts of this length and for maps of the shapes of these, in their order.
///
/// Errors: those of `verify`. `Memory` also where there is none for the shapes.
pub fn verify_for_maps(
    alloc: Global,
    program: Program,
    maps: &Registry,
    ctx_len: usize,
) -> Result<Verified, ProgramRefusal>
    requires { ctx_len ≤ CTX_BYTES }
    ensures program { IfOk result (λ v. v.program ≡ program) }
    ensures shapes { IfOk result (λ v. v.shapes ≡ shapes_of_maps maps.now.maps) }
    ensures context { IfOk result (λ v. v.ctx_len ≡ ctx_len) }
    ensures verified { IfOk result (λ v. IsVerified program (shapes_of_maps maps.now.maps) ctx_len) }
    ensures graph { IfOk result (λ _. HasGoodGraph program) }
    ensures told { IfErr result (IsToldOf program) }
    ensures plain_with_maps { IsPlainWithMaps program (shapes_of_maps maps.now.maps) →
        IsTaken result }
{
    let shapes = shapes_of(alloc, maps)?;
    verify(alloc, program, &shapes, ctx_len)
}

/// A program file's program that is verified, and the file's maps.
#[derive(Drop)]
pub struct VerifiedSource {
    pub verified: Verified,
    pub registry: Registry,
}

/// Verifies a file's program with its maps and its context, and gives it back where it is refused.
///
/// Errors: what the verifier refuses, 20 to 39, with the slot; or want of memory, which is 13.
pub fn verify_source(alloc: Global, source: Source) -> Result<VerifiedSource, RefusedFile>
    requires { source.ctx_len ≤ CTX_BYTES }
    ensures program { IfOk result (λ v. v.verified.program ≡ source.program) }
    ensures registry { IfOk result (λ v. v.registry ≡ source.registry) }
    ensures shapes { IfOk result (λ v. v.verified.shapes ≡ shapes_of_maps source.registry.maps) }
    ensures context { IfOk result (λ v. v.verified.ctx_len ≡ source.ctx_len) }
    ensures verified { OnOk result
        (IsVerified source.program (shapes_of_maps source.registry.maps) source.ctx_len) }
    ensures graph { OnOk result (HasGoodGraph source.program) }
    ensures refused { (bytes : List ℕ) → IsSourceOf bytes source →
        IfErr result (λ r. IsCheckedRefusal bytes r.verdict) }
    ensures returned { IfErr result (HandsBack source) }
{
    let shapes = shapes_of(alloc, &source.registry)?;
    let Source {
        program,
        registry,
        ctx_len,
    } = source;
    match verify_or_return(alloc, program, &shapes, ctx_len) {
        Ok(verified) => Ok(VerifiedSource { verified, registry }),
        Err(refused) => Err(RefusedFile {
            verdict: Verdict::Program(refused.refusal),
            program: Some(RefusedProgram {
                source: Source {
                    program: refused.program,
                    registry,
                    ctx_len,
                },
                refusal: refused.refusal,
                known: refused.known,
            }),
        }),
    }
}
