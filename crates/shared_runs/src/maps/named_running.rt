//! Runs of verified programs over a table of several maps.
ghost use Rattle.std.specs.Prelude.{◌≡◌, ◌↔◌, Decides, IfOk, IsErr, OnErr, length};
ghost use Rattle.map_table.specs.Held.{Goes, IsKnown, IsReady};
ghost use Rattle.shared_runs.specs.Named.{RunsNamed, ServesNamed, named_table_of};
ghost use Rattle.shared_runs.specs.MapRuns.{HasFound, HasHeld, HasMet, HasOwn, HasWhole};
ghost use Rattle.shared_runs.specs.Words.{StoresSubWords};

use crate::maps::named_map::{NamedMap, agree_by_name, have_room, key_of_bytes};
use crate::maps::running::{MAX_RUN_ELEMENTS, Placed};
use crate::running::run_over;
use crate::runs_programs::RunsPrograms;
use crate::serves_runs::ServesRuns;
use crate::sub_words::{SubWord, stores_sub_words};
use bpf_model::CtxBytes;
use map_table::{MapTable, ReadSeat};
use verifier::Verified;

/// A `MapTable`, and how the maps of the program that runs over it are kept there.
#[derive(Drop)]
pub struct Named<'a> {
    placed: Placed<'a>,
    maps: &'a [NamedMap],
}

impl<'a> ServesRuns for Named<'a> {
    ghost use Rattle.map_table.specs.Values.{first_of};

    type Words = Named<'a>;

    type Seat = ReadSeat;

    ghost table = { λ t. named_table_of t.placed.table.now.shape t.maps.now t.placed.first };

    ghost mine = { λ t s. s.view.mine };

    ghost IsAt = { λ t s. (s.table ≡ t.placed.table.now) × IsKnown s.view
        × (first_of t.placed.table.now.shape s.view.me ≡ t.placed.first) };

    ghost Goes = { λ t s ms u. Goes s ms u };

    fn is_table(words: &Named<'a>) {
        let _ = words;
    }

    #[inline]
    fn key_words(words: &Named<'a>, map: usize) -> usize {
        let _shape = words.placed.table.shape();
        words.maps[map].key_words
    }

    #[inline]
    fn open(words: &Named<'a>, seat: &mut ReadSeat) {
        Placed::open(&words.placed, seat);
    }

    #[inline]
    fn close(words: &Named<'a>, seat: &mut ReadSeat) {
        Placed::close(&words.placed, seat);
    }

    #[inline]
    fn load(words: &Named<'a>, seat: &mut ReadSeat, element: usize, place: usize) -> u64 {
        Placed::load(&words.placed, seat, element, place)
    }

    #[inline]
    fn store(words: &Named<'a>, seat: &mut ReadSeat, element: usize, place: usize, word: u64) {
        Placed::store(&words.placed, seat, element, place, word);
    }

    #[inline]
    fn look_up(words: &Named<'a>, seat: &mut ReadSeat, map: usize, key: &[u8]) -> Option<usize> {
        let count = words.placed.table.shape().key_words;
        let key = key_of_bytes(&words.maps[map], key);
        words.placed.table.lookup(seat, &key[..count])
    }
}

/// Whether the list names, at the index of each map that the program was verified for, a map of just its lengths for which
/// the table has room, each is a hash map, and the table has no more than `MAX_RUN_ELEMENTS` elements. Nor may the list have
/// one name twice with different lengths: a key of the one would be a key of the other too, with zeros behind it.
pub fn fits_named(table: &MapTable, maps: &[NamedMap], verified: &Verified) -> bool
    ensures { Decides result (ServesNamed table.now.shape maps.now verified.now.shapes) }
{
    let shape = table.shape();
    shape.elements <= MAX_RUN_ELEMENTS
        && have_room(&shape, maps, verified.shapes())
        && agree_by_name(maps)
}

/// Runs the program on the context over the table, which keeps each of its maps under its name: to its exit, or not at all.
/// It takes no memory and waits for nobody.
///
/// Errors: `SubWord` where some instruction of the program stores to an element by another width than 8 bytes, or calls a
/// helper that changes a map.
pub fn run_named(
    table: &MapTable,
    seat: &mut ReadSeat,
    maps: &[NamedMap],
    verified: &Verified,
    ctx: &CtxBytes,
) -> Result<u64, SubWord>
    requires ready { IsReady table.now seat.old }
    requires context { length ctx.now.items ≡ verified.now.ctx_len }
    requires maps { ServesNamed table.now.shape maps.now verified.now.shapes }

    // No step is made of a program that words don't serve, and only of such.
    ensures refused { IsErr result ↔ StoresSubWords verified.now }
    ensures unchanged { OnErr result (seat.new ≡ seat.old) }

    // What the seat did is the list of a shared run, which exits with this value within as many steps as the program has
    // instructions. Each of its lookups is of a key under the name of its map.
    ensures runs { IfOk result (RunsNamed table.now.shape maps.now verified.now ctx.now.items
        seat.old seat.new) }

    // The rest is as of `run_shared`: what is said there of keys is said of the table's keys, which begin with a name.
    ensures held { HasHeld seat.new.view }
    ensures found { HasFound seat.new.view }
    ensures met { HasMet seat.new.view }
    ensures own { HasOwn seat.new.view }
    ensures whole { HasWhole seat.new.view }
    ensures shape { seat.new.view.shape ≡ table.now.shape }
    ensures ready { IsReady table.now seat.new }
{
    if stores_sub_words(verified) {
        seat.is_readers();
        return Err(SubWord);
    }
    let value = run_named_to_exit(table, seat, maps, verified, ctx);
    Ok(value)
}

/// The same of a program that words serve. `stores_sub_words` tells it, and need be asked but once of a program.
pub fn run_named_to_exit(
    table: &MapTable,
    seat: &mut ReadSeat,
    maps: &[NamedMap],
    verified: &Verified,
    ctx: &CtxBytes,
) -> u64
    requires ready { IsReady table.now seat.old }
    requires context { length ctx.now.items ≡ verified.now.ctx_len }
    requires maps { ServesNamed table.now.shape maps.now verified.now.shapes }
    requires words { StoresSubWords verified.now → ⊥ }
    ensures runs { RunsNamed table.now.shape maps.now verified.now ctx.now.items seat.old seat.new
        result }
    ensures held { HasHeld seat.new.view }
    ensures found { HasFound seat.new.view }
    ensures met { HasMet seat.new.view }
    ensures own { HasOwn seat.new.view }
    ensures whole { HasWhole seat.new.view }
    ensures shape { seat.new.view.shape ≡ table.now.shape }
    ensures ready { IsReady table.now seat.new }
{
    let _shape = table.shape();
    seat.is_readers();
    let named = Named {
        placed: Placed {
            table,
            first: seat.first_place(),
        },
        maps,
    };
    let value = run_over::<Named>(&named, seat, verified, ctx);
    seat.is_readers();
    value
}

/// A `MapTable` from which jobs are served. Map `i` of each program is kept there as `maps[i]` says: the list is the same for
/// all programs.
#[derive(Clone, Copy)]
pub struct NamedRuns<'a> {
    pub table: &'a MapTable,
    pub maps: &'a [NamedMap],
}

impl RunsPrograms for NamedRuns<'_> {
    ghost use Rattle.std.specs.Prelude.{ℕ};
    ghost use Rattle.table_words.specs.declared.moves.Move.{Move};
    ghost use Rattle.map_table.specs.Held.{IsReady, TableView};
    ghost use Rattle.map_table.specs.Values.{first_of};
    ghost use Rattle.shared_runs.specs.Named.{ServesNamed, named_table_of};
    ghost use Rattle.shared_runs.specs.SharedRuns.{IsSharedRun};
    ghost use Rattle.shared_runs.specs.Words.{StoresSubWords, loaded_of};

    type Seat = ReadSeat;

    ghost Move = { Move };

    ghost mine = { λ s. s.view.mine };

    ghost Name = { TableView × ℕ };

    ghost name = { λ s. (s.table, s.view.me) };

    ghost IsReady = { λ t. IsReady t.table.now };

    ghost Fits = { λ t. ServesNamed t.table.now.shape t.maps.now };

    ghost Refuses = { StoresSubWords };

    ghost IsRun = { λ t name c. IsSharedRun
        (named_table_of t.table.now.shape t.maps.now (first_of t.table.now.shape name.1)) c.shapes (loaded_of c) };

    fn run(
        &self,
        seat: &mut ReadSeat,
        verified: &Verified,
        ctx: &CtxBytes,
    ) -> Result<u64, SubWord> {
        run_named(self.table, seat, self.maps, verified, ctx)
    }
}
