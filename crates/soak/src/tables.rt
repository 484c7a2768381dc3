//! Eight readers run a program over a table without a lock, beside a writer that links, unlinks, replaces, moves and reclaims.
ghost use Rattle.std.specs.Prelude.{◌≡◌, ◌<◌, All, IfOk};
ghost use Rattle.std.specs.Thread.{IsSync};
ghost use Rattle.map_table.specs.Held.{IsReady};
ghost use Rattle.map_table.specs.Values.{stored_of};
ghost use Rattle.soak.specs.Tables.{HasOneWord, IsProgramOf, IsReadyWatcher};

use crate::mixing::Mixer;
use anyhow::{Result, bail, ensure};
use asm::assemble;
use bpf_model::{CtxBytes, MapKind, MapShape};
use map_table::{MapTable, ReadSeat, Room, Seats, Secret, TableShape, Values, Writer};
use shared_runs::maps::{fits, run_to_exit, stores_sub_words};
use std::alloc::{AllocError, Global};
use std::sync::atomic::{AtomicBool, Ordering};
use std::thread::{Threads, for_each_mut, join};
use verifier::{Verified, verify};

/// How many readers there are.
const READERS: usize = 8;

/// How many keys stay linked, from 0 on. Their values are replaced again and again.
const KEPT: u32 = 64;

/// How many keys behind them come and go. Half of them are linked, more or less.
const PASSING: u32 = 32;

/// How many keys the writer changes before it reclaims.
const STRIDE: u32 = 16;

/// A table of 88 ways, of which some 80 are full, so that elements move. It has few keys, so that readers are often at one that is
/// moved.
const SHAPE: TableShape = TableShape {
    readers: READERS,
    buckets: 11,
    elements: 512,
    key_words: 1,
    value_words: 1,
    values: Values::Shared,
    secret: Secret {
        first: 0x1234_5678_9abc_def0,
        second: 0x0fed_cba9_8765_4321,
    },
};

/// Keys and values of 8 bytes.
const WORDS: MapShape = MapShape {
    kind: MapKind::Hash,
    key_len: 8,
    value_len: 8,
    entries: 4,
    spare: 0,
    reuse_limit: 1,
};

/// Exits with the value under the key that the context says; with 0 where there is none.
const LOOKUP: &str = "\
ldxdw r6, [r1+0]
stxdw [r10-8], r6
mov64 r6, 0
callbtf 1
mov64 r2, r10
add64 r2, -8
ldmap r1, 0
call 1
jeq r0, 0, +1
ldxdw r6, [r0+0]
callbtf 2
mov64 r0, r6
exit
";

/// A reader: its seat, the keys that it takes, the value that it found last under each of the kept keys, and how many runs
/// exited with what they must not.
#[derive(Drop)]
pub struct Watcher {
    seat: ReadSeat,
    mixer: Mixer,
    last: Vec<u64>,
    wrong: u64,
}

/// What rounds came to: how many runs there were, how many keys were changed, and what the calls answered that were to make room.
#[derive(Clone, Copy)]
pub struct TableTally {
    pub runs: u64,
    pub changes: u64,
    pub made: u64,
    pub held: u64,
    pub full: u64,
}

impl TableTally {
    /// Nothing.
    pub const NONE: TableTally = TableTally {
        runs: 0,
        changes: 0,
        made: 0,
        held: 0,
        full: 0,
    };

    /// Adds what other rounds came to.
    pub fn add(&mut self, other: TableTally) {
        self.runs = self.runs.saturating_add(other.runs);
        self.changes = self.changes.saturating_add(other.changes);
        self.made = self.made.saturating_add(other.made);
        self.held = self.held.saturating_add(other.held);
        self.full = self.full.saturating_add(other.full);
    }

    /// Counts what a call answered that was to make room.
    fn count(&mut self, room: Room) {
        match room {
            Room::Made => self.made = self.made.saturating_add(1),
            Room::Held => self.held = self.held.saturating_add(1),
            Room::Full => self.full = self.full.saturating_add(1),
        }
    }
}

/// The writer's part: which keys it takes, and what it came to.
#[derive(Drop)]
pub struct Changer {
    mixer: Mixer,
    tally: TableTally,
}

/// The value that a key has at a turn of the writer: one above the key, and the turn in the upper half.
fn value_at(turn: u32, key: u32) -> u64 {
    (u64::from(turn) << 32) | (u64::from(key) + 1)
}

/// The program, verified for the table.
fn program_for(alloc: Global, table: &MapTable) -> Result<Verified>
    ensures { IfOk result (IsProgramOf table.now.shape) }
{
    let program = assemble(alloc, LOOKUP)?;
    let verified = verify(alloc, program, &[WORDS], 8)?;
    if !fits(table, &verified) || stores_sub_words(&verified) || verified.ctx_len() != 8 {
        bail!("the program is for other lengths");
    }
    Ok(verified)
}

/// A reader for each seat, which has seen nothing yet.
fn watchers_of(alloc: Global, seats: Seats, here: &MapTable) -> Result<Vec<Watcher>, AllocError>
    requires { All (IsReady here.now) seats }
    ensures { IfOk result (λ v. All (IsReadyWatcher here.now) v.items) }
{
    let _ = here;
    let mut watchers = Vec::new(alloc);
    let mut number = 0u8;
    for seat in seats.list {
        watchers.push(Watcher {
            seat,
            mixer: Mixer::new(number, 0),
            last: vec![in alloc; 0; KEPT as usize]?,
            wrong: 0,
        })?;
        number = number.wrapping_add(1);
    }
    Ok(watchers)
}

/// What a run of the program exits with on a key.
fn run(table: &MapTable, seat: &mut ReadSeat, program: &Verified, key: u32) -> u64
    requires ready { IsReady table.now seat.old }
    requires program { IsProgramOf table.now.shape program.now }
    ensures ready { IsReady table.now seat.new }
{
    let mut ctx = CtxBytes::new();
    for byte in u64::from(key).to_le_bytes() {
        let _ = ctx.try_push(byte);
    }
    if ctx.len() != 8 {
        return u64::MAX;
    }
    run_to_exit(table, seat, program, &ctx)
}

/// Whether a value may be what a run finds under a key: a value of the key. A kept key has one always, and never an earlier one
/// than before; another key may have none.
fn is_right(last: &mut [u64], key: u32, found: u64) -> bool {
    let is_of_key = found & 0xffff_ffff == u64::from(key) + 1;
    match last.get_mut(key as usize) {
        Some(before) => {
            let is_later = found >= *before;
            *before = found;
            is_of_key && is_later
        }
        None => is_of_key || found == 0,
    }
}

/// Makes so many runs.
fn watch(table: &MapTable, watcher: &mut Watcher, program: &Verified, calls: u32)
    requires ready { IsReadyWatcher table.now watcher.old }
    requires program { IsProgramOf table.now.shape program.now }
    ensures { IsReadyWatcher table.now watcher.new }
{
    for _ in 0..calls {
        let key = watcher.mixer.below(KEPT + PASSING);
        let found = run(table, &mut watcher.seat, program, key);
        if !is_right(watcher.last.as_mut_slice(), key, found) {
            watcher.wrong = watcher.wrong.saturating_add(1);
        }
    }
}

/// Each reader makes so many runs in a thread of its own, and says so at the end.
fn watch_all<R: Threads + Sync>(
    rt: &R,
    table: &MapTable,
    watchers: &mut [Watcher],
    program: &Verified,
    calls: u32,
    done: &AtomicBool,
)
    requires ready { All (IsReadyWatcher table.now) watchers.old }
    requires program { IsProgramOf table.now.shape program.now }
    ensures { All (IsReadyWatcher table.now) watchers.new }
{
    for_each_mut(
        rt,
        watchers,
        READERS,
        &|_, watcher: &mut Watcher| watch(table, watcher, program, calls),
    );
    done.store(true, Ordering::SeqCst);
}

/// Links a key with the value of a turn. Where both its buckets are full, it makes room first, if it can. Whether the key is linked.
fn link(table: &MapTable, writer: &mut Writer, key: u32, turn: u32, tally: &mut TableTally) -> bool
    requires table { writer.old.table ≡ table.now }
    requires lengths { HasOneWord table.now.shape }
    ensures table { writer.new.table ≡ table.now }
{
    let words = [u64::from(key)];
    let value = [value_at(turn, key)];
    if writer.link(table, &words, &value).is_some() {
        return true;
    }
    if writer.free().is_empty() {
        return false;
    }
    let room = writer.make_room(table, &words);
    tally.count(room);
    room == Room::Made && writer.link(table, &words, &value).is_some()
}

/// Gives a key the value of a turn: replaces the one that it has, or links it.
fn give(table: &MapTable, writer: &mut Writer, key: u32, turn: u32, tally: &mut TableTally) -> bool
    requires table { writer.old.table ≡ table.now }
    requires lengths { HasOneWord table.now.shape }
    ensures table { writer.new.table ≡ table.now }
{
    let words = [u64::from(key)];
    match writer.find(table, &words) {
        Some(way) => writer.replace(table, way, &words, &[value_at(turn, key)]),
        None => link(table, writer, key, turn, tally),
    }
}

/// Links a key where it is not linked, and else unlinks it.
fn pass(table: &MapTable, writer: &mut Writer, key: u32, turn: u32, tally: &mut TableTally) -> bool
    requires table { writer.old.table ≡ table.now }
    requires lengths { HasOneWord table.now.shape }
    ensures table { writer.new.table ≡ table.now }
{
    match writer.find(table, &[u64::from(key)]) {
        Some(way) => {
            writer.unlink(table, way);
            true
        }
        None => link(table, writer, key, turn, tally),
    }
}

/// Changes a key: a kept one gets the value of the turn, and in place of another one any of those is linked or unlinked. Whether
/// there was room.
fn change(table: &MapTable, writer: &mut Writer, key: u32, turn: u32, changer: &mut Changer) -> bool
    requires table { writer.old.table ≡ table.now }
    requires lengths { HasOneWord table.now.shape }
    ensures table { writer.new.table ≡ table.now }
{
    if key < KEPT {
        return give(table, writer, key, turn, &mut changer.tally);
    }
    let any = KEPT + changer.mixer.below(PASSING);
    pass(table, writer, any, turn, &mut changer.tally)
}

/// Changes each kept key once, and as many others as there are, and reclaims again and again.
fn change_all(table: &MapTable, writer: &mut Writer, turn: u32, changer: &mut Changer)
    requires table { writer.old.table ≡ table.now }
    requires lengths { HasOneWord table.now.shape }
    ensures table { writer.new.table ≡ table.now }
{
    for key in 0..KEPT + PASSING {
        if change(table, writer, key, turn, changer) {
            changer.tally.changes = changer.tally.changes.saturating_add(1);
        }
        if key % STRIDE == 0 {
            writer.reclaim(table);
        }
    }
}

/// Changes keys, again and again, until the readers are done.
fn change_until(
    table: &MapTable,
    writer: &mut Writer,
    done: &AtomicBool,
    first: u32,
    changer: &mut Changer,
)
    requires table { writer.old.table ≡ table.now }
    requires lengths { HasOneWord table.now.shape }
    ensures table { writer.new.table ≡ table.now }
{
    for turn in first..u32::MAX {
        change_all(table, writer, turn, changer);
        if done.load(Ordering::SeqCst) {
            return;
        }
    }
}

/// The readers make so many runs each, beside the writer.
fn go_beside<R: Threads + Sync>(
    rt: &R,
    table: &MapTable,
    watchers: &mut [Watcher],
    writer: &mut Writer,
    program: &Verified,
    calls: u32,
    changer: &mut Changer,
)
    requires ready { All (IsReadyWatcher table.now) watchers.old }
    requires program { IsProgramOf table.now.shape program.now }
    requires table { writer.old.table ≡ table.now }
    requires lengths { HasOneWord table.now.shape }
{
    let done = AtomicBool::new(false);
    join(
        rt,
        || -> ()
            requires { IsSync R.row × IsProgramOf table.now.shape program.now × All (IsReadyWatcher table.now) watchers.now }
        { watch_all(rt, table, watchers, program, calls, &done) },
        || -> ()
            requires { HasOneWord table.now.shape × (writer.now.table ≡ table.now) }
        { change_until(table, writer, &done, 2, changer) },
    );
}

/// An error where a run did not find what it must.
fn check_runs(watchers: &[Watcher]) -> Result<()> {
    let mut wrong = 0u64;
    for watcher in watchers {
        wrong = wrong.saturating_add(watcher.wrong);
    }
    ensure!(
        wrong == 0,
        "{wrong} runs over a table found what they must not"
    );
    Ok(())
}

/// So many runs of a reader at each seat, beside the writer. An error where a run did not find what it must.
fn watch_beside<R: Threads + Sync>(
    rt: &R,
    alloc: Global,
    table: &MapTable,
    seats: Seats,
    writer: &mut Writer,
    calls: u32,
    changer: &mut Changer,
) -> Result<()>
    requires ready { All (IsReady table.now) seats }
    requires table { writer.old.table ≡ table.now }
    requires lengths { HasOneWord table.now.shape }
{
    let program = program_for(alloc, table)?;
    let mut watchers = watchers_of(alloc, seats, table)?;
    let readers = watchers.as_mut_slice();
    go_beside(rt, table, readers, writer, &program, calls, changer);
    check_runs(&watchers)
}

/// So many runs of each reader beside the writer, over a table of its own. An error where a run did not find what it must.
pub fn go_table<R: Threads + Sync>(rt: &R, alloc: Global, calls: u32) -> Result<TableTally> {
    let (table, seats, mut writer) = MapTable::new(alloc, SHAPE)?;
    let mut changer = Changer {
        mixer: Mixer::new(READERS as u8, 0),
        tally: TableTally::NONE,
    };
    change_all(&table, &mut writer, 1, &mut changer);
    ensure!(
        changer.tally.changes == u64::from(KEPT + PASSING),
        "the table is full"
    );
    changer.tally.changes = 0;
    watch_beside(rt, alloc, &table, seats, &mut writer, calls, &mut changer)?;
    let runs = (READERS as u64).saturating_mul(u64::from(calls));
    Ok(TableTally {
        runs,
        ..changer.tally
    })
}
