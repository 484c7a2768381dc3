//! Runs of programs over the table.
ghost use Rattle.std.specs.Prelude.{◌≡◌, All};
ghost use Rattle.read_table.specs.Held.{IsReady};

use crate::making::{
    LOAD_BYTE, LOOKUP_AND_LOAD, LOOKUP_AND_STORE, NESTED, run, two_seats, verified,
};
use atomic_table::{Seat, Shared};
use read_table::{Law, MAX_TABLE_SLOTS, ReadSeat, ReadTable, SubWord, TableShape, View, Writer};
use std::alloc::Global;
use std::test::Fail;

/// A program, the length of its context, and what a run comes to.
type Row = (&'static str, u8, Result<u64, SubWord>);

/// A table of so many slots. The first seat makes runs before the key of zeros is linked with this value, and then others;
/// behind them the second seat makes some.
struct Case {
    slots: usize,
    value: [u8; 8],
    before: &'static [Row],
    first: &'static [Row],
    second: &'static [Row],
}

static CASES: [Case; 3] = [
    // A lookup finds no value, one that was linked, and one that another seat's run has stored since.
    Case {
        slots: 4,
        value: [5, 0, 0, 0, 0, 0, 0, 0],
        before: &[(LOOKUP_AND_LOAD, 0, Ok(0))],
        first: &[(LOOKUP_AND_LOAD, 0, Ok(5)), (LOOKUP_AND_STORE, 0, Ok(0))],
        second: &[(LOOKUP_AND_LOAD, 0, Ok(9))],
    },
    // The seat's section lasts from the outermost lock to its unlock.
    Case {
        slots: 4,
        value: [5, 0, 0, 0, 0, 0, 0, 0],
        before: &[(NESTED, 0, Ok(0))],
        first: &[(NESTED, 0, Ok(5))],
        second: &[],
    },
    // A program that loads one byte of a value is refused, and its seat may be used again at once.
    Case {
        slots: 1,
        value: [7, 7, 7, 7, 7, 7, 7, 7],
        before: &[],
        first: &[
            (LOAD_BYTE, 1, Err(SubWord)),
            (LOOKUP_AND_LOAD, 0, Ok(0x0707_0707_0707_0707)),
        ],
        second: &[],
    },
];

/// Whether a run of this seat comes to what the row says.
fn comes_so(alloc: Global, table: &ReadTable, seat: &mut ReadSeat, row: &Row) -> Result<bool, Fail>
    requires ready { IsReady table.now seat.old }
    ensures ready { IsReady table.now seat.new }
{
    let (text, ctx_len, end) = row;
    let program = verified(alloc, text, usize::from(*ctx_len))?;
    Ok(run(table, seat, &program) == Some(*end))
}

/// Whether each run of this seat does.
fn all_come_so(
    alloc: Global,
    table: &ReadTable,
    seat: &mut ReadSeat,
    rows: &[Row],
) -> Result<bool, Fail>
    requires ready { IsReady table.now seat.old }
    ensures ready { IsReady table.now seat.new }
{
    let mut right = true;
    for row in rows {
        let is_right = comes_so(alloc, table, seat, row)?;
        right &= is_right;
    }
    Ok(right)
}

/// The share is one of the table of these words, so their rule speaks of what its holder did.
fn are_tied(words: &Shared<u8, View, TableShape, Law>, share: &Seat<u8, View>)
    requires { share.now.table_id ≡ words.now.table_id }
{
    let _ = words;
    let _ = share;
}

/// The shares of a seat and of the writer are of the table whose words it hands out.
fn shares_are_tied(table: &ReadTable, seat: &ReadSeat, writer: &Writer)
    requires seat { seat.now.table ≡ table.now }
    requires writer { writer.now.table ≡ table.now }
{
    are_tied(table.ruled(), seat.share());
    are_tied(table.ruled(), writer.share());
}

/// Whether the runs of a case come to what it says. What the table, a seat and the writer hand out is of one history, before
/// and after runs.
fn holds(
    alloc: Global,
    table: &ReadTable,
    seats: &mut [ReadSeat],
    writer: &mut Writer,
    case: &Case,
) -> Result<bool, Fail>
    requires ready { All (IsReady table.now) seats.old }
    requires table { writer.old.table ≡ table.now }
    requires key { table.now.shape.key_words ≡ 1 }
    requires value { table.now.shape.value_words ≡ 1 }
{
    let Some((first, second)) = two_seats(table, seats) else {
        return Ok(false);
    };
    let before = all_come_so(alloc, table, first, case.before)?;
    let linked = writer.link(table, &[0; 8], &case.value).is_some();
    shares_are_tied(table, first, writer);
    let by_first = all_come_so(alloc, table, first, case.first)?;
    shares_are_tied(table, first, writer);
    let by_second = all_come_so(alloc, table, second, case.second)?;
    Ok(before && linked && by_first && by_second)
}

/// The same of a new table.
fn holds_in_new(alloc: Global, case: &Case) -> Result<bool, Fail> {
    let slots = case.slots.clamp(1, MAX_TABLE_SLOTS);
    let (table, mut seats, mut writer) = ReadTable::new(alloc, slots, 8, 8, 2)?;
    holds(alloc, &table, &mut seats.list, &mut writer, case)
}

#[test]
fn runs_come_to_what_cases_say(rt: HostRuntime) -> Result<(), Fail> {
    assert!(rt; SubWord.code() == 80);
    for (number, case) in CASES.iter().enumerate() {
        assert!(rt; holds_in_new(rt.alloc(), case)?, "case {number}");
    }
    Ok(())
}

/// The lookup has twelve instructions, of which one takes two slots.
#[test]
fn lengths_of_a_program(rt: HostRuntime) -> Result<(), Fail> {
    let load = verified(rt.alloc(), LOOKUP_AND_LOAD, 0)?;
    let program = load.program();
    assert!(rt; program.len() == 12 && program.slot_count() == 13);
    Ok(())
}
