//! A run over any table.
ghost use Rattle.std.specs.Prelude.{◌≡◌, ℕ, ◌*◌, ◌<◌, List, [], Option, length};
ghost use Rattle.bpf_model.specs.declared.limits.MapShape.{MapShape};
ghost use Rattle.bpf_model.specs.declared.limits.TheConstants.{FRAME_BYTES};
ghost use Rattle.bpf_model.specs.View.{RunView};
ghost use Rattle.world_laws.specs.Calling.{bytes_in, found_word};
ghost use Rattle.world_laws.specs.Moving.{word_in};
ghost use Rattle.world_laws.specs.Reaching.{IsInFrame};
ghost use Rattle.shared_runs.specs.Running.{RunsOver};
ghost use Rattle.machine.specs.Workspaces.{HasFreshRegisters, own_view};
ghost use Rattle.shared_runs.specs.Serving.{IsServable, Serves, asking, map_named};
ghost use Rattle.shared_runs.specs.SharedRuns.{closing, opening};
ghost use Rattle.shared_runs.specs.Sharing.{flag_of};
ghost use Rattle.shared_runs.specs.Tables.{IsSmall};
ghost use Rattle.shared_runs.specs.Words.{FitsTable, StoresSubWords};

use crate::lengths::WORD_BYTES;
use crate::naming::{value_word, word_of_element};
use crate::parts::part_of_word;
use crate::serves_runs::ServesRuns;
use bpf_model::{CtxBytes, Helper, Reg, are_bytes};
use machine::{Course, Local, Request, Workspace};
use verifier::Verified;

/// A lookup of the key in the frame, in the map that r1 names.
#[inline]
fn look_up<T: ServesRuns>(words: &T::Words, seat: &mut T::Seat, workspace: &Workspace) -> u64
    requires small { IsSmall (T.table words.now) }
    requires at { T.IsAt words.now seat.old }
    requires inside { (T.table words.now).inside (T.mine words.now seat.old) ≡ 1 }
    requires kept { (shape : MapShape)
        × (T.table words.now).Keeps (map_named (own_view [] workspace.now)) shape }
    requires key { IsInFrame (word_in (own_view [] workspace.now) 2)
        (8 * (T.table words.now).key_words (map_named (own_view [] workspace.now))) }
    requires frame { length workspace.now.frame ≡ FRAME_BYTES }
    ensures { (ns : List (T.table words.now).Move) × (found : Option ℕ) × T.Goes words.now seat.old ns seat.new
        × (T.table words.now).LooksUp (map_named (own_view [] workspace.now))
        (bytes_in (own_view [] workspace.now) 2
        (8 * (T.table words.now).key_words (map_named (own_view [] workspace.now)))) ns found
        × (result ≡ found_word 0 found) }
{
    T::is_table(words);
    let map = workspace.map_argument();
    let key = workspace.bytes_argument(Reg::R2, WORD_BYTES * T::key_words(words, map));
    word_of_element(T::look_up(words, seat, map, key))
}

/// A lock of a run: the outermost opens the seat's section.
#[inline]
fn enter<T: ServesRuns>(words: &T::Words, seat: &mut T::Seat, depth: usize)
    requires at { T.IsAt words.now seat.old }
    requires section { (T.table words.now).inside (T.mine words.now seat.old) ≡ flag_of depth }
    ensures { T.Goes words.now seat.old (opening (T.table words.now) depth) seat.new }
{
    T::is_table(words);
    if depth == 0 {
        T::open(words, seat);
    }
}

/// An unlock of a run inside a section: the outermost closes the seat's.
#[inline]
fn leave<T: ServesRuns>(words: &T::Words, seat: &mut T::Seat, depth: usize)
    requires at { T.IsAt words.now seat.old }
    requires section { (T.table words.now).inside (T.mine words.now seat.old) ≡ flag_of depth }
    requires inside { 0 < depth }
    ensures { T.Goes words.now seat.old (closing (T.table words.now) depth) seat.new }
{
    T::is_table(words);
    if depth == 1 {
        T::close(words, seat);
    }
}

/// Serves the request of a run with these registers, this frame and so many open locks, and answers the word with which it
/// goes on.
#[inline(always)]
fn serve<T: ServesRuns>(
    words: &T::Words,
    seat: &mut T::Seat,
    workspace: &Workspace,
    depth: usize,
    request: Request,
) -> u64
    requires small { IsSmall (T.table words.now) }
    requires at { T.IsAt words.now seat.old }
    requires section { (T.table words.now).inside (T.mine words.now seat.old) ≡ flag_of depth }
    requires can { (v : RunView) × IsServable (T.table words.now) (T.mine words.now seat.old)
        (asking workspace.now depth v) request }
    ensures { (ns : List (T.table words.now).Move) × T.Goes words.now seat.old ns seat.new
        × ((v : RunView) → Serves (T.table words.now) (asking workspace.now depth v) request ns result) }
{
    T::is_table(words);
    match request {
        Request::Load {
            address,
            offset,
            width,
        } => {
            let at = value_word(address, offset);
            let word = T::load(words, seat, at.element, at.place);
            part_of_word(word, at.low, width)
        }
        Request::Store {
            address,
            offset,
            number,
            ..
        } => {
            let at = value_word(address, offset);
            T::store(words, seat, at.element, at.place, number);
            0
        }
        Request::Call {
            helper: Helper::Lookup,
        } => look_up::<T>(words, seat, workspace),
        Request::Call { .. } => unreachable!(),
        Request::Enter => {
            enter::<T>(words, seat, depth);
            0
        }
        Request::Leave => {
            leave::<T>(words, seat, depth);
            0
        }
    }
}

/// Runs the program on the context over the table, which keeps each of its maps, to its exit. It takes no memory and waits
/// for nobody. What the run asks is served within the loop.
#[inline]
pub fn run_over<T: ServesRuns>(
    words: &T::Words,
    seat: &mut T::Seat,
    verified: &Verified,
    ctx: &CtxBytes,
) -> u64
    requires small { IsSmall (T.table words.now) }
    requires at { T.IsAt words.now seat.old }
    requires outside { (T.table words.now).inside (T.mine words.now seat.old) ≡ 0 }
    requires context { length ctx.now.items ≡ verified.now.ctx_len }
    requires maps { FitsTable (T.table words.now) verified.now.shapes }
    requires whole { StoresSubWords verified.now → ⊥ }
    ensures runs { RunsOver (T.table words.now) (T.Goes words.now) verified.now ctx.now.items
        seat.old seat.new result }
    ensures outside { (T.table words.now).inside (T.mine words.now seat.new) ≡ 0 }
{
    let mut workspace = Workspace::start();
    finish::<T>(words, seat, &mut workspace, verified, ctx.as_slice())
}

/// Runs such a program in a workspace where others have run, of which nothing is seen, over a context that the caller lends. The
/// clauses are those of `run_over`.
#[inline]
pub fn run_in<T: ServesRuns>(
    words: &T::Words,
    seat: &mut T::Seat,
    workspace: &mut Workspace,
    verified: &Verified,
    context: &[u8],
) -> u64
    requires small { IsSmall (T.table words.now) }
    requires at { T.IsAt words.now seat.old }
    requires outside { (T.table words.now).inside (T.mine words.now seat.old) ≡ 0 }
    requires context { length context.now ≡ verified.now.ctx_len }
    requires maps { FitsTable (T.table words.now) verified.now.shapes }
    requires whole { StoresSubWords verified.now → ⊥ }
    ensures runs { RunsOver (T.table words.now) (T.Goes words.now) verified.now context.now
        seat.old seat.new result }
    ensures outside { (T.table words.now).inside (T.mine words.now seat.new) ≡ 0 }
{
    workspace.restart();
    finish::<T>(words, seat, workspace, verified, context)
}

/// Runs a program to its exit, in a workspace whose registers are those of a start.
fn finish<T: ServesRuns>(
    words: &T::Words,
    seat: &mut T::Seat,
    workspace: &mut Workspace,
    verified: &Verified,
    context: &[u8],
) -> u64
    requires small { IsSmall (T.table words.now) }
    requires at { T.IsAt words.now seat.old }
    requires outside { (T.table words.now).inside (T.mine words.now seat.old) ≡ 0 }
    requires context { length context.now ≡ verified.now.ctx_len }
    requires maps { FitsTable (T.table words.now) verified.now.shapes }
    requires whole { StoresSubWords verified.now → ⊥ }
    requires fresh { HasFreshRegisters workspace.old }
    requires cells { length workspace.old.frame ≡ FRAME_BYTES }
    ensures runs { RunsOver (T.table words.now) (T.Goes words.now) verified.now context.now
        seat.old seat.new result }
    ensures outside { (T.table words.now).inside (T.mine words.now seat.new) ≡ 0 }
{
    T::is_table(words);
    let _program = verified.program();
    are_bytes(context);
    let mut course = Course::start(verified);
    'steps: loop {
        match course.step::<T>(workspace, verified, context) {
            Local::Moved => {}
            Local::Shared(request) => {
                let word = serve::<T>(words, seat, workspace, course.depth(), request);
                course.resume(workspace, verified, request, word);
            }
            Local::Exit(value) => return value,
        }
    }
}
