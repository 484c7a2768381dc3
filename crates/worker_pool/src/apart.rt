//! A batch in a world of its own.
ghost use Rattle.std.specs.Prelude.{◌≡◌, ◌<◌, List, length, true, Decides, IfOk, IfSome};
ghost use Rattle.bpf_model.specs.View.{AreNewMaps, shapes_of_maps};
ghost use Rattle.verifier.specs.Checked.{Checked};
ghost use Rattle.worker_pool.specs.Apart.{ChangesMapAt, ChangesMaps, FitsOneJournal};
ghost use Rattle.worker_pool.specs.Batches.{IsPrinted};
ghost use Rattle.worker_pool.specs.Outcomes.{IsOnly};

use crate::batch::Batch;
use crate::job::Job;
use crate::printing::print_together;
use bpf_model::{CallKind, Helper, Insn, MAX_JOURNAL, MapShape};
use effects::Region;
use shared::{ProgramWithMaps, Shared, Workers};
use std::alloc::{AllocError, Global};
use std::sync::Wait;
use std::sync::ledger::{Blank, Ledger};
use verifier::Verified;

/// How many bytes the keys and values of maps may have that each world copies.
const MOST_BYTES: usize = 1 << 16;

/// Whether the instruction stores to an element, where it reaches this region, or calls a helper that changes a map.
fn changes_map(insn: &Insn, region: Region) -> bool
    ensures { Decides result (ChangesMapAt region insn.now) }
{
    match insn {
        Insn::Store { .. } => matches!(region, Region::Value(_)),
        Insn::Call {
            kind: CallKind::Helper,
            imm,
        } => matches!(
            Helper::from_number(*imm),
            Some(Helper::Update | Helper::Delete)
        ),
        _ => false,
    }
}

/// Whether an instruction of the program changes a map.
fn changes_maps(verified: &Verified) -> bool
    ensures { Decides result (ChangesMaps verified.now) }
{
    let instructions = verified.program().instructions();
    for index in 0..instructions.len() {
        if changes_map(&instructions[index], verified.region(index)) {
            return true;
        }
    }
    false
}

/// How many bytes the keys and the values of maps of these shapes have, in all slots.
fn bytes_of(shapes: &[MapShape]) -> usize {
    let mut bytes = 0usize;
    for shape in shapes {
        let slots = shape.entries.saturating_add(shape.spare);
        let each = shape.key_len.saturating_add(shape.value_len);
        bytes = bytes.saturating_add(slots.saturating_mul(each));
    }
    bytes
}

/// Whether so many jobs may be served in worlds apart, and nobody can tell: no run changes the maps, which are small, and one
/// journal would have room for all entries, since a job makes no more than its program has instructions, and two.
fn may_be_apart(verified: &Verified, count: usize) -> bool
    ensures alike { result ≡ true → ChangesMaps verified.now → ⊥ }
    ensures room { result ≡ true → FitsOneJournal verified.now count }
{
    let each = verified.program().len().saturating_add(2);
    if each.saturating_mul(count) > MAX_JOURNAL || bytes_of(verified.shapes()) > MOST_BYTES {
        return false;
    }
    !changes_maps(verified)
}

/// An equal program, with equal maps.
fn copy_of(alloc: Global, program: &ProgramWithMaps) -> Result<ProgramWithMaps, AllocError>
    ensures { IfOk result (λ p. p ≡ program.now) }
{
    let verified = program.verified.copy(alloc)?;
    let registry = program.registry.copy()?;
    Ok(ProgramWithMaps { verified, registry })
}

/// A copy of the program and its maps, where so many jobs of it may be served in worlds apart.
pub(crate) fn copy_to_part(
    alloc: Global,
    program: &ProgramWithMaps,
    count: usize,
) -> Result<Option<ProgramWithMaps>, AllocError>
    ensures copied { IfOk result (λ o. IfSome o (λ p. p ≡ program.now)) }
    ensures alike { IfOk result (λ o. IfSome o (λ p. ChangesMaps p.verified → ⊥)) }
    ensures room { IfOk result (λ o. IfSome o (λ p. FitsOneJournal p.verified count)) }
{
    if !may_be_apart(&program.verified, count) {
        return Ok(None);
    }
    Ok(Some(copy_of(alloc, program)?))
}

/// A world of one worker, of copies of the program and its maps. Nothing where memory runs out.
fn own_world<L: Ledger>(
    alloc: Global,
    blank: Blank,
    program: &ProgramWithMaps,
) -> Option<(Shared<L>, Workers<L>)>
    requires new_maps { AreNewMaps program.now.registry.maps }
    requires shapes { program.now.verified.shapes ≡ shapes_of_maps program.now.registry.maps }
    requires name { blank.name ≡ L.name }
    requires parts { (blank.parts ≡ L.parts) × (blank.parts ≡ 1) }
    ensures { IfSome result (λ t. IsOnly program.now.verified.program program.now.verified.shapes t.0) }
{
    let Ok(copied) = copy_of(alloc, program) else {
        return None;
    };
    match Shared::<L>::of_program(alloc, copied, 1, blank) {
        Ok(own) => Some(own),
        Err(_) => None,
    }
}

/// What a world of its own came to: the lines of a batch, and how many entries the world's journal has.
#[derive(Drop)]
pub(crate) struct Apart {
    pub text: Vec<u8>,
    pub entries: u64,
}

/// Serves a batch by the first worker of a world that nobody else uses, and makes its lines. Nothing where memory runs out, or
/// where there is no worker.
fn print_by_first<L: Ledger, R: Wait>(
    rt: &R,
    alloc: Global,
    own: &Shared<L>,
    workers: &mut Workers<L>,
    jobs: &[Job],
    batch: &Batch,
) -> Option<Apart>
    requires { 0 < length jobs.now }
    ensures { IfSome result (λ a. IsPrinted own.now jobs.now batch.now a.text.items) }
{
    let worker = workers.list.first_mut()?;
    let text = print_together(rt, alloc, own, worker, jobs, batch)?;
    let entries = worker.made();
    Some(Apart { text, entries })
}

/// Serves a batch in a world of its own, of copies of the program and its maps, and makes its lines. Nothing where memory
/// runs out.
pub(crate) fn print_apart<L: Ledger, R: Wait>(
    rt: &R,
    alloc: Global,
    blank: Blank,
    program: &ProgramWithMaps,
    jobs: &[Job],
    batch: &Batch,
) -> Option<Apart>
    requires some { 0 < length jobs.now }
    requires new_maps { AreNewMaps program.now.registry.maps }
    requires shapes { program.now.verified.shapes ≡ shapes_of_maps program.now.registry.maps }
    requires name { blank.name ≡ L.name }
    requires parts { (blank.parts ≡ L.parts) × (blank.parts ≡ 1) }
    ensures printed { (programs : List Checked) →
        IsOnly program.now.verified.program program.now.verified.shapes programs →
        IfSome result (λ a. IsPrinted programs jobs.now batch.now a.text.items) }
{
    let (own, mut workers) = own_world::<L>(alloc, blank, program)?;
    print_by_first(rt, alloc, &own, &mut workers, jobs, batch)
}
