//! The maps and programs that a world will have.
ghost use Rattle.std.specs.Prelude.{◌≡◌, ◌≤◌, ◌<◌, length, IfOk, OnErr, IfSome, IfNone, option_map, option_copied, slice_get};
ghost use Rattle.bpf_model.specs.declared.limits.TheConstants.{MAX_MAPS, MAX_PROGRAMS, CTX_BYTES};
ghost use Rattle.bpf_model.specs.Refines.{TracksSchedule};
ghost use Rattle.bpf_model.specs.Schedule.{start_schedule};
ghost use Rattle.bpf_model.specs.View.{start_view};
ghost use Rattle.world_laws.specs.Binding.{IsBoundTo};
ghost use Rattle.world.specs.Programs.{program_of};
ghost use Rattle.control.specs.MapAndLoad.{MapReplies, LoadReplies, ReadReplies, AreMapsNamed, HasUnknown};
ghost use Rattle.control.specs.Refusals.{map_reply, program_reply};
ghost use Rattle.control.specs.Setups.{shapes_made, no_maps_or_programs};

use crate::faults::{uncreated, undecoded, unverified};
use crate::map_names::map_named;
use crate::refusal::LineRefusal;
use arrayvec::ArrayVec;
use bpf_model::{CTX_BYTES, EventRefusal, MAX_MAPS, MAX_PROGRAMS, MapId, MapShape, ProgId};
use insn_codec::decode;
use maps::{MapFault, Registry};
use script_lines::{Code, Name, Names};
use std::alloc::{AllocError, Global};
use std::marker::Model;
use verifier::{Refused, verify_or_return};
use world::{Loaded, World, WorldFault};

/// The maps and programs made so far: the maps as they were created, the programs bound to them. Contracts
/// see the maps' names and views, and the programs. The program that the verifier refused last is kept for words alone.
#[derive(Drop)]
pub struct Setup {
    registry: Registry,
    loaded: Vec<Loaded>,
    refused: Option<Refused>,
}

impl Model for Setup {
    ghost use Rattle.world.specs.Programs.{programs_in};
    ghost use Rattle.control.specs.Setups.{SetupView, setup_code, IsSetup};

    ghost Value = { SetupView };

    ghost coded = { setup_code };

    ghost view = { λ s. record { registry = s.registry; programs = programs_in s.loaded.items } };

    ghost invariant = { λ s. IsSetup s.registry s.loaded.items };
}

/// The maps that a program is bound to: their numbers and shapes.
#[derive(Drop)]
struct Bound {
    maps: ArrayVec<usize, MAX_MAPS>,
    shapes: Vec<MapShape>,
}

impl Setup {
    /// No maps and no programs.
    pub fn new(alloc: Global) -> Setup
        ensures { result ≡ no_maps_or_programs }
    {
        Setup {
            registry: Registry::new(alloc),
            loaded: Vec::new(alloc),
            refused: None,
        }
    }

    /// The maps that are made, with their names.
    pub fn registry(&self) -> &Registry
        ensures { result.now ≡ self.now.registry }
    {
        &self.registry
    }

    /// The program that the verifier refused last, if it refused one.
    pub fn refused(&self) -> Option<&Refused> {
        self.refused.as_ref()
    }

    /// The program of this number, if there is one.
    pub fn program(&self, prog: ProgId) -> Option<&Loaded>
        ensures { option_map program_of (option_copied result) ≡ slice_get self.now.programs prog }
    {
        self.loaded.get(prog.index())
    }

    /// Makes a map, and answers its number; or it is refused for a bad name, one that is taken, a bad shape, or since there
    /// are `MAX_MAPS` maps.
    ///
    /// # Errors
    ///
    /// `AllocError` where memory runs out; nothing has changed then.
    pub fn create(
        &mut self,
        name: &Name<'_>,
        shape: MapShape,
    ) -> Result<Result<MapId, LineRefusal>, AllocError>
        ensures replies { IfOk result (λ made.
            MapReplies self.old name.now shape (map_reply made) self.new) }
        ensures err { OnErr result (self.new ≡ self.old) }
    {
        let Some(text) = name.text() else {
            return Ok(Err(LineRefusal::Map(MapFault::BadName)));
        };
        let map = match self.registry.create(text, shape) {
            Ok(map) => map,
            Err(fault) => return uncreated(fault),
        };
        Ok(Ok(map))
    }

    /// The maps of these names; `None` where one of the names is no map's.
    fn bind(&self, alloc: Global, names: Names<'_>) -> Result<Option<Bound>, AllocError>
        ensures named { IfOk result (λ found. IfSome found (λ b.
            AreMapsNamed self.now.registry.names names.entry b.maps.items)) }
        ensures bound { IfOk result (λ found. IfSome found (λ b.
            IsBoundTo (shapes_made self.now) b.shapes.items b.maps.items)) }
        ensures count { IfOk result (λ found. IfSome found
            (λ b. length b.shapes.items ≤ MAX_MAPS)) }
        ensures none { IfOk result (λ found. IfNone found
            (HasUnknown self.now.registry.names names.entry)) }
    {
        let mut bound = Bound {
            maps: ArrayVec::new(),
            shapes: Vec::new(alloc),
        };
        let mut rest = names;
        for _ in 0..MAX_MAPS {
            let Some(name) = rest.next() else {
                return Ok(Some(bound));
            };
            let Some(map) = map_named(&self.registry, name.bytes()) else {
                return Ok(None);
            };
            let Some(shape) = self.registry.shape(map) else {
                unreachable!();
            };
            bound.maps.push(map.index());
            bound.shapes.push(shape)?;
        }
        Ok(Some(bound))
    }

    /// Loads a program that is bound to these maps.
    fn load_bound(
        &mut self,
        alloc: Global,
        ctx_len: usize,
        code: &[u8],
        bound: Bound,
    ) -> Result<Result<ProgId, LineRefusal>, AllocError>
        requires context { ctx_len ≤ CTX_BYTES }
        requires maps { length bound.shapes.items ≤ MAX_MAPS }
        requires bound { IsBoundTo (shapes_made self.old) bound.shapes.items bound.maps.items }
        requires room { length self.old.programs < MAX_PROGRAMS }
        ensures replies { IfOk result (λ made. ReadReplies self.old code.now bound.shapes.items
            bound.maps.items ctx_len (program_reply made) self.new) }
        ensures err { OnErr result (self.new ≡ self.old) }
    {
        let program = match decode(alloc, code) {
            Ok(program) => program,
            Err(fault) => return undecoded(fault),
        };
        let verified = match verify_or_return(alloc, program, &bound.shapes, ctx_len) {
            Ok(verified) => verified,
            Err(refused) => {
                let told = unverified(refused.refusal)?;
                self.refused = Some(refused);
                return Ok(told);
            }
        };
        let number = self.loaded.len();
        let maps = bound.maps;
        self.loaded.push(Loaded { verified, maps })?;
        Ok(Ok(ProgId::new(number)))
    }

    /// Loads a program for contexts of this length, bound to the maps of these names, and answers its number; or the first
    /// refusal of these: there are `MAX_PROGRAMS`, the context is above `CTX_BYTES`, a name is no map's, that of decoding,
    /// that of the verifier.
    ///
    /// # Errors
    ///
    /// `AllocError` where memory runs out; nothing has changed then.
    pub fn load(
        &mut self,
        alloc: Global,
        ctx_len: u64,
        code: &Code<'_>,
        names: Names<'_>,
    ) -> Result<Result<ProgId, LineRefusal>, AllocError>
        ensures replies { IfOk result (λ made.
            LoadReplies self.old ctx_len code.now names.entry (program_reply made) self.new) }
        ensures err { OnErr result (self.new ≡ self.old) }
    {
        if self.loaded.len() >= MAX_PROGRAMS {
            return Ok(Err(LineRefusal::TooManyPrograms));
        }
        if ctx_len > CTX_BYTES as u64 {
            return Ok(Err(LineRefusal::Event(EventRefusal::BadContext)));
        }
        let Some(bound) = self.bind(alloc, names)? else {
            return Ok(Err(LineRefusal::Event(EventRefusal::NoMap)));
        };
        let bytes = code.to_vec(alloc)?;
        self.load_bound(alloc, ctx_len as usize, &bytes, bound)
    }

    /// The world of these maps and programs, in which nothing has happened.
    ///
    /// # Errors
    ///
    /// `AllocError` where memory runs out: nothing else is refused.
    pub fn seal(self, alloc: Global) -> Result<World, AllocError>
        ensures world { IfOk result (λ w.
            w ≡ start_view self.registry.names (shapes_made self) self.programs) }
        // The world tracks the machine's start.
        ensures start { IfOk result (λ w.
            TracksSchedule w (start_schedule (shapes_made self) self.programs)) }
    {
        let Setup {
            registry,
            loaded,
            ..
        } = self;
        match World::new(alloc, registry, loaded) {
            Ok(world) => Ok(world),
            Err(WorldFault::Memory) => Err(AllocError),
            Err(_) => unreachable!(),
        }
    }
}
