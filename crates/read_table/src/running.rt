//! Runs of verified programs over the table.
ghost use Rattle.std.specs.Prelude.{◌≡◌, ◌↔◌, Decides, IfOk, IsErr, OnErr, length};
ghost use Rattle.read_table.specs.Found.{HasFound};
ghost use Rattle.read_table.specs.Held.{Goes, IsKnown, IsReady};
ghost use Rattle.read_table.specs.Running.{HasHeld, RunsShared};
ghost use Rattle.read_table.specs.Table.{table_of};
ghost use Rattle.shared_runs.specs.Words.{FitsTable, UsesSubWords};

use crate::table::{ReadSeat, ReadTable};
use bpf_model::CtxBytes;
use shared_runs::{RunsPrograms, ServesRuns, SubWord, has_lengths, run_over, uses_sub_words};
use verifier::Verified;

/// Runs over a `ReadTable`: a lookup compares the key where it lies.
pub struct ReadRuns;

impl ServesRuns for ReadRuns {
    type Words = ReadTable;

    type Seat = ReadSeat;

    ghost table = { λ t. table_of t.shape };

    ghost mine = { λ t s. s.view.mine };

    ghost IsAt = { λ t s. (s.table ≡ t) × IsKnown s.view };

    ghost Goes = { λ t s ms u. Goes s ms u };

    fn is_table(words: &ReadTable) {
        let _ = words;
    }

    #[inline]
    fn key_words(words: &ReadTable, map: usize) -> usize {
        let _ = map;
        words.shape().key_words
    }

    #[inline]
    fn open(words: &ReadTable, seat: &mut ReadSeat) {
        words.open(seat);
    }

    #[inline]
    fn close(words: &ReadTable, seat: &mut ReadSeat) {
        words.close(seat);
    }

    #[inline]
    fn load(words: &ReadTable, seat: &mut ReadSeat, element: usize, place: usize) -> u64 {
        let shape = words.shape();
        words.load(seat, element, shape.key_words + place)
    }

    #[inline]
    fn store(words: &ReadTable, seat: &mut ReadSeat, element: usize, place: usize, word: u64) {
        let shape = words.shape();
        words.store(seat, element, shape.key_words + place, word);
    }

    #[inline]
    fn look_up(words: &ReadTable, seat: &mut ReadSeat, map: usize, key: &[u8]) -> Option<usize> {
        let _ = map;
        words.lookup(seat, key)
    }
}

impl ReadTable {
    /// Whether each map that the program was verified for is a hash map with the table's lengths.
    pub fn fits(&self, verified: &Verified) -> bool
        ensures { Decides result (FitsTable (table_of self.now.shape) verified.now.shapes) }
    {
        let shape = self.shape();
        has_lengths(verified, shape.key_words, shape.value_words)
    }

    /// Runs the program on the context over the table, each of whose maps is the table: to its exit, or not at all. It
    /// takes no memory and waits for nobody.
    ///
    /// Errors: `SubWord` where some instruction of the program accesses an element by another width than 8 bytes, or calls
    /// a helper that changes a map.
    pub fn run_shared(
        &self,
        seat: &mut ReadSeat,
        verified: &Verified,
        ctx: &CtxBytes,
    ) -> Result<u64, SubWord>
        requires ready { IsReady self.now seat.old }
        requires context { length ctx.now.items ≡ verified.now.ctx_len }
        requires maps { FitsTable (table_of self.now.shape) verified.now.shapes }

        // No step is made of a program that words don't serve, and only of such.
        ensures refused { IsErr result ↔ UsesSubWords verified.now }
        ensures unchanged { OnErr result (seat.new ≡ seat.old) }

        // What the seat did is the list of a shared run, which exits with this value within as many steps as the program
        // has instructions.
        ensures runs { IfOk result (RunsShared self.now.shape verified.now ctx.now.items
            seat.old seat.new) }

        // Each word that it reached was of a slot that it had learnt, linked, in the section that was open, and whose
        // generation had not changed since.
        ensures held { HasHeld seat.new.view }

        // No lookup of the run answered null to a key under which some slot stayed linked meanwhile, nor did any other
        // stretch of what the seat has done.
        ensures found { HasFound seat.new.view }
        ensures shape { seat.new.view.shape ≡ self.now.shape }
        ensures ready { IsReady self.now seat.new }
    {
        if uses_sub_words(verified) {
            seat.is_readers();
            return Err(SubWord);
        }
        let value = self.run_to_exit(seat, verified, ctx);
        Ok(value)
    }

    /// The same of a program that words serve. `uses_sub_words` tells it, and need be asked but once of a program.
    pub fn run_to_exit(&self, seat: &mut ReadSeat, verified: &Verified, ctx: &CtxBytes) -> u64
        requires ready { IsReady self.now seat.old }
        requires context { length ctx.now.items ≡ verified.now.ctx_len }
        requires maps { FitsTable (table_of self.now.shape) verified.now.shapes }
        requires words { UsesSubWords verified.now → ⊥ }
        ensures runs { RunsShared self.now.shape verified.now ctx.now.items seat.old seat.new
            result }
        ensures held { HasHeld seat.new.view }
        ensures found { HasFound seat.new.view }
        ensures shape { seat.new.view.shape ≡ self.now.shape }
        ensures ready { IsReady self.now seat.new }
    {
        let _shape = self.shape();
        let value = run_over::<ReadRuns>(self, seat, verified, ctx);
        seat.is_readers();
        value
    }
}

impl RunsPrograms for ReadTable {
    ghost use Rattle.std.specs.Prelude.{ℕ};
    ghost use Rattle.read_table.specs.declared.view.Move.{Move};
    ghost use Rattle.read_table.specs.Held.{IsReady, TableView};
    ghost use Rattle.read_table.specs.Table.{table_of};
    ghost use Rattle.shared_runs.specs.SharedRuns.{IsSharedRun};
    ghost use Rattle.shared_runs.specs.Words.{FitsTable, UsesSubWords, loaded_of};

    type Seat = ReadSeat;

    ghost Move = { Move };

    ghost mine = { λ s. s.view.mine };

    ghost Name = { TableView × ℕ };

    ghost name = { λ s. (s.table, s.view.me) };

    ghost IsReady = { IsReady };

    ghost Fits = { λ t. FitsTable (table_of t.shape) };

    ghost Refuses = { UsesSubWords };

    ghost IsRun = { λ t name c. IsSharedRun (table_of t.shape) c.shapes (loaded_of c) };

    fn run(
        &self,
        seat: &mut ReadSeat,
        verified: &Verified,
        ctx: &CtxBytes,
    ) -> Result<u64, SubWord> {
        self.run_shared(seat, verified, ctx)
    }
}
