//! A shared world of one program, which is bound to all maps.
ghost use Rattle.std.specs.Prelude.{◌≡◌, ◌<◌, ◌≤◌, ◌∷◌, [], length, map, slice_get, All, IfOk, Some};
ghost use Rattle.bpf_model.specs.View.{AreNewMaps, shapes_of, shapes_of_maps};
ghost use Rattle.shared_books.specs.Replay.{HasNoRuns};
ghost use Rattle.shared_books.specs.Books.{AreNumbered, most_workers};

use crate::lock::Shared;
use maps::Registry;
use shared_books::Workers;
use std::alloc::{AllocError, Global};
use std::sync::ledger::{Blank, Ledger};
use verifier::Verified;
use world::{Loaded, World, WorldFault};

/// A verified program, and the maps that it is to be bound to, the first as its map 0.
#[derive(Drop)]
pub struct ProgramWithMaps {
    pub verified: Verified,
    pub registry: Registry,
}

/// A world of these maps, in which nothing has happened, with this program, bound to all of them. The
/// error is that there is no memory left.
fn world_of(alloc: Global, program: ProgramWithMaps) -> Result<World, AllocError>
    requires new_maps { AreNewMaps program.registry.maps }
    requires shapes { program.verified.shapes ≡ shapes_of_maps program.registry.maps }
    ensures codes { IfOk result (λ w.
        map (λ l. l.code) w.programs ≡ program.verified.program ∷ []) }
    ensures contexts { IfOk result (λ w.
        map (λ l. l.context_len) w.programs ≡ program.verified.ctx_len ∷ []) }
    ensures bound { IfOk result (λ w. map (λ l. map (slice_get (shapes_of w)) l.maps) w.programs
        ≡ map Some program.verified.shapes ∷ []) }
    ensures quiet { IfOk result HasNoRuns }
{
    let ProgramWithMaps { verified, registry } = program;
    let _count = registry.len();
    let mut programs = Vec::new(alloc);
    programs.push(Loaded::in_order(verified))?;
    match World::new(alloc, registry, programs) {
        Ok(world) => Ok(world),
        Err(WorldFault::Memory) => Err(AllocError),
        Err(_) => unreachable!(),
    }
}

impl<L: Ledger> Shared<L> {
    /// Shares a world of one program and of new maps that it was verified with, among 1 to
    /// `MAX_WORKERS` workers. The ledger has one part for each worker. The error is that there is
    /// no memory left.
    pub fn of_program(
        alloc: Global,
        program: ProgramWithMaps,
        workers: u8,
        blank: Blank,
    ) -> Result<(Shared<L>, Workers<L>), AllocError>
        requires new_maps { AreNewMaps program.registry.maps }
        requires shapes { program.verified.shapes ≡ shapes_of_maps program.registry.maps }
        requires workers { (0 < workers) × (workers ≤ most_workers) }
        requires name { blank.name ≡ L.name }
        requires parts { (blank.parts ≡ L.parts) × (blank.parts ≡ workers) }
        ensures count { IfOk result (λ t. length t.1 ≡ workers) }
        ensures made { IfOk result (λ t. All (λ w. w.made ≡ 0) t.1) }
        ensures numbers { IfOk result (λ t. AreNumbered t.1) }
        ensures codes { IfOk result (λ t.
            map (λ p. p.program) t.0 ≡ program.verified.program ∷ []) }
        ensures contexts { IfOk result (λ t.
            map (λ p. p.ctx_len) t.0 ≡ program.verified.ctx_len ∷ []) }
        ensures shapes { IfOk result (λ t.
            map (λ p. p.shapes) t.0 ≡ program.verified.shapes ∷ []) }
    {
        let world = world_of(alloc, program)?;
        let (shared, workers, _) = Shared::<L>::new(alloc, world, workers, blank)?;
        Ok((shared, workers))
    }
}
