//! Runs of verified programs over the table.
ghost use Rattle.std.specs.Prelude.{◌≡◌, ◌↔◌, Decides, IfOk, IsErr, OnErr, length};
ghost use Rattle.map_table.specs.Held.{Goes, IsKnown, IsReady};
ghost use Rattle.shared_runs.specs.Words.{StoresSubWords};
ghost use Rattle.shared_runs.specs.MapRuns.{HasFound, HasHeld, HasMet, HasOwn, HasWhole, RunsShared, ServesMaps};
ghost use Rattle.shared_runs.specs.MapTables.{table_of};

use crate::lengths::has_lengths;
use crate::maps::key_words::{word_of, words_of};
use crate::running::run_over;
use crate::runs_programs::RunsPrograms;
use crate::serves_runs::ServesRuns;
use crate::sub_words::{SubWord, stores_sub_words};
use bpf_model::CtxBytes;
use machine::Workspace;
use map_table::{MapTable, ReadSeat};
use verifier::Verified;

/// The most elements of a table that programs may run over: each has a word of its own among those of map slots.
pub const MAX_RUN_ELEMENTS: usize = 1 << 17;

/// A `MapTable`, and the place in an element where the value of the seat begins that runs over it.
#[derive(Drop)]
pub struct Placed<'a> {
    pub(crate) table: &'a MapTable,
    pub(crate) first: usize,
}

impl<'a> ServesRuns for Placed<'a> {
    ghost use Rattle.map_table.specs.Values.{first_of};

    type Words = Placed<'a>;

    type Seat = ReadSeat;

    ghost table = { λ t. table_of t.table.now.shape t.first };

    ghost mine = { λ t s. s.view.mine };

    ghost IsAt = { λ t s. (s.table ≡ t.table.now) × IsKnown s.view
        × (first_of t.table.now.shape s.view.me ≡ t.first) };

    ghost Goes = { λ t s ms u. Goes s ms u };

    fn is_table(words: &Placed<'a>) {
        let _ = words;
    }

    #[inline]
    fn key_words(words: &Placed<'a>, map: usize) -> usize {
        let _ = map;
        words.table.shape().key_words
    }

    #[inline]
    fn open(words: &Placed<'a>, seat: &mut ReadSeat) {
        words.table.open(seat);
    }

    #[inline]
    fn close(words: &Placed<'a>, seat: &mut ReadSeat) {
        words.table.close(seat);
    }

    #[inline]
    fn load(words: &Placed<'a>, seat: &mut ReadSeat, element: usize, place: usize) -> u64 {
        seat.is_readers();
        let _shape = words.table.shape();
        words.table.load(seat, element, words.first + place)
    }

    #[inline]
    fn store(words: &Placed<'a>, seat: &mut ReadSeat, element: usize, place: usize, word: u64) {
        seat.is_readers();
        let _shape = words.table.shape();
        words.table.store(seat, element, words.first + place, word);
    }

    #[inline]
    fn look_up(words: &Placed<'a>, seat: &mut ReadSeat, map: usize, key: &[u8]) -> Option<usize> {
        let _ = map;
        let count = words.table.shape().key_words;
        if count == 1 {
            // A key of one word takes no loop.
            return words.table.lookup(seat, &[word_of(key)]);
        }
        let key = words_of(key, count);
        words.table.lookup(seat, &key[..count])
    }
}

/// Whether each map that the program was verified for is a hash map with the table's lengths, and the table has no more
/// than `MAX_RUN_ELEMENTS` elements.
pub fn fits(table: &MapTable, verified: &Verified) -> bool
    ensures { Decides result (ServesMaps table.now.shape verified.now.shapes) }
{
    let shape = table.shape();
    shape.elements <= MAX_RUN_ELEMENTS && has_lengths(verified, shape.key_words, shape.value_words)
}

/// Runs the program on the context over the table, each of whose maps is the table: to its exit, or not at all. It takes
/// no memory and waits for nobody.
///
/// Errors: `SubWord` where some instruction of the program stores to an element by another width than 8 bytes, or calls a
/// helper that changes a map.
pub fn run_shared(
    table: &MapTable,
    seat: &mut ReadSeat,
    verified: &Verified,
    ctx: &CtxBytes,
) -> Result<u64, SubWord>
    requires ready { IsReady table.now seat.old }
    requires context { length ctx.now.items ≡ verified.now.ctx_len }
    requires maps { ServesMaps table.now.shape verified.now.shapes }

    // No step is made of a program that words don't serve, and only of such.
    ensures refused { IsErr result ↔ StoresSubWords verified.now }
    ensures unchanged { OnErr result (seat.new ≡ seat.old) }

    // What the seat did is the list of a shared run, which exits with this value within as many steps as the program has
    // instructions.
    ensures runs { IfOk result (RunsShared table.now.shape verified.now ctx.now.items seat.old seat.new) }

    // Each word that it reached was of an element that it had found in the section that was open. It keeps its key and
    // generation through that section (law `held_elements_stay`).
    ensures held { HasHeld seat.new.view }

    // No lookup of the run answered null to a key that stayed linked in one way meanwhile, nor did any other stretch of
    // what the seat has done. What a lookup answered was linked under the key meanwhile.
    ensures found { HasFound seat.new.view }
    ensures met { HasMet seat.new.view }

    // What it loads at places that are its own is what it stored there last, or the writer.
    ensures own { HasOwn seat.new.view }

    // In a section all words that it loads of an element are of one value, if no reader stores there meanwhile.
    ensures whole { HasWhole seat.new.view }
    ensures shape { seat.new.view.shape ≡ table.now.shape }
    ensures ready { IsReady table.now seat.new }
{
    if stores_sub_words(verified) {
        seat.is_readers();
        return Err(SubWord);
    }
    let value = run_to_exit(table, seat, verified, ctx);
    Ok(value)
}

/// The same of a program that words serve. `stores_sub_words` tells it, and need be asked but once of a program.
pub fn run_to_exit(
    table: &MapTable,
    seat: &mut ReadSeat,
    verified: &Verified,
    ctx: &CtxBytes,
) -> u64
    requires ready { IsReady table.now seat.old }
    requires context { length ctx.now.items ≡ verified.now.ctx_len }
    requires maps { ServesMaps table.now.shape verified.now.shapes }
    requires words { StoresSubWords verified.now → ⊥ }
    ensures runs { RunsShared table.now.shape verified.now ctx.now.items seat.old seat.new result }
    ensures held { HasHeld seat.new.view }
    ensures found { HasFound seat.new.view }
    ensures met { HasMet seat.new.view }
    ensures own { HasOwn seat.new.view }
    ensures whole { HasWhole seat.new.view }
    ensures shape { seat.new.view.shape ≡ table.now.shape }
    ensures ready { IsReady table.now seat.new }
{
    let _shape = table.shape();
    seat.is_readers();
    let placed = Placed {
        table,
        first: seat.first_place(),
    };
    let value = run_over::<Placed>(&placed, seat, verified, ctx);
    seat.is_readers();
    value
}

/// The same in a workspace where other runs have been, of which nothing is seen, over a context that the caller lends.
pub fn run_in(
    table: &MapTable,
    seat: &mut ReadSeat,
    workspace: &mut Workspace,
    verified: &Verified,
    context: &[u8],
) -> u64
    requires ready { IsReady table.now seat.old }
    requires context { length context.now ≡ verified.now.ctx_len }
    requires maps { ServesMaps table.now.shape verified.now.shapes }
    requires words { StoresSubWords verified.now → ⊥ }
    ensures runs { RunsShared table.now.shape verified.now context.now seat.old seat.new result }
    ensures held { HasHeld seat.new.view }
    ensures found { HasFound seat.new.view }
    ensures met { HasMet seat.new.view }
    ensures own { HasOwn seat.new.view }
    ensures whole { HasWhole seat.new.view }
    ensures shape { seat.new.view.shape ≡ table.now.shape }
    ensures ready { IsReady table.now seat.new }
{
    let _shape = table.shape();
    seat.is_readers();
    let placed = Placed {
        table,
        first: seat.first_place(),
    };
    let value = crate::running::run_in::<Placed>(&placed, seat, workspace, verified, context);
    seat.is_readers();
    value
}

/// A `MapTable`, as jobs are served from it: each map of a program is the table.
#[derive(Clone, Copy)]
pub struct MapRuns<'a> {
    pub table: &'a MapTable,
}

impl RunsPrograms for MapRuns<'_> {
    ghost use Rattle.std.specs.Prelude.{ℕ};
    ghost use Rattle.table_words.specs.declared.moves.Move.{Move};
    ghost use Rattle.map_table.specs.Held.{IsReady, TableView};
    ghost use Rattle.map_table.specs.Values.{first_of};
    ghost use Rattle.shared_runs.specs.MapRuns.{ServesMaps};
    ghost use Rattle.shared_runs.specs.MapTables.{table_of};
    ghost use Rattle.shared_runs.specs.SharedRuns.{IsSharedRun};
    ghost use Rattle.shared_runs.specs.Words.{StoresSubWords, loaded_of};

    type Seat = ReadSeat;

    ghost Move = { Move };

    ghost mine = { λ s. s.view.mine };

    ghost Name = { TableView × ℕ };

    ghost name = { λ s. (s.table, s.view.me) };

    ghost IsReady = { λ t. IsReady t.table.now };

    ghost Fits = { λ t. ServesMaps t.table.now.shape };

    ghost Refuses = { StoresSubWords };

    ghost IsRun = { λ t name c. IsSharedRun (table_of t.table.now.shape (first_of t.table.now.shape name.1)) c.shapes
        (loaded_of c) };

    fn run(
        &self,
        seat: &mut ReadSeat,
        verified: &Verified,
        ctx: &CtxBytes,
    ) -> Result<u64, SubWord> {
        run_shared(self.table, seat, verified, ctx)
    }
}
