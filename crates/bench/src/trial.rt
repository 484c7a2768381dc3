//! A verified program and a context to run it on.
ghost use Rattle.std.specs.Prelude.{◌≡◌, ℕ, ◌<◌, ◌≤◌, length, slice_index, IfOk};
ghost use Rattle.bpf_model.specs.declared.limits.TheConstants.{CTX_BYTES, MAX_SLOTS};
ghost use Rattle.bpf_model.specs.Exit.{ExitsWith};
ghost use Rattle.bpf_model.specs.Spelling.{text};
ghost use Rattle.shared_runs.specs.Lone.{loaded_alone};
ghost use Rattle.bench.specs.Trials.{IsReadyTrial};

use anyhow::{Result, ensure};
use bpf_model::CtxBytes;
use insn_codec::{Program, decode};
use shared_runs::alone::{Ended, has_no_maps, run_to_exit};
use std::alloc::Global;
use verifier::{Verified, verify};

/// A program that names no map, and a context of the length that it was verified for.
#[derive(Drop)]
pub struct Trial {
    pub verified: Verified,
    pub ctx: CtxBytes,
}

/// The context bytes 0, 1, 2 and so on.
pub fn counting_bytes(ctx_len: usize) -> CtxBytes
    requires { ctx_len ≤ CTX_BYTES }
    ensures length { length result.items ≡ ctx_len }
    ensures bytes { (k : ℕ) → k < ctx_len → slice_index result.items k ≡ k }
{
    let mut bytes = CtxBytes::new();
    for i in 0..ctx_len {
        bytes.push(i as u8);
    }
    bytes
}

/// Verifies a program, with no maps, for a context of this length with the bytes 0, 1, 2 and so on. The error
/// says what is wrong with it, or that memory ran out.
pub fn trial_of_program(alloc: Global, program: Program, ctx_len: usize) -> Result<Trial>
    requires { ctx_len ≤ CTX_BYTES }
    ensures program { IfOk result (λ t. t.verified.program ≡ program) }
    ensures length { IfOk result (λ t. t.verified.ctx_len ≡ ctx_len) }
    ensures bytes { IfOk result (λ t. (k : ℕ) → k < ctx_len → slice_index t.ctx.items k ≡ k) }
    ensures ready { IfOk result IsReadyTrial }
{
    let verified = verify(alloc, program, &[], ctx_len)?;
    ensure!(has_no_maps(&verified), "the program names a map");
    Ok(Trial {
        verified,
        ctx: counting_bytes(ctx_len),
    })
}

/// The same of the program that these bytes spell. The error may also say what is wrong with the bytes.
pub fn trial_of(alloc: Global, bytes: &[u8], ctx_len: usize) -> Result<Trial>
    requires { ctx_len ≤ CTX_BYTES }
    ensures program { IfOk result (λ t. bytes.now ≡ text t.verified.program) }
    ensures length { IfOk result (λ t. t.verified.ctx_len ≡ ctx_len) }
    ensures bytes { IfOk result (λ t. (k : ℕ) → k < ctx_len → slice_index t.ctx.items k ≡ k) }
    ensures ready { IfOk result IsReadyTrial }
{
    trial_of_program(alloc, decode(alloc, bytes)?, ctx_len)
}

/// The value with which a run of the program on the context exits, and how many instructions it executes.
pub fn counted_run(trial: &Trial) -> Ended
    requires { IsReadyTrial trial.now }
    ensures least { 0 < result.steps }
    ensures limit { result.steps ≤ MAX_SLOTS }
    ensures exits { ExitsWith (loaded_alone trial.now.verified) trial.now.ctx.items
        result.steps result.value }
{
    run_to_exit(&trial.verified, &trial.ctx)
}
