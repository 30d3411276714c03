//! Rows at the head of a list that transactions hold, which no search passes one by one.
//!
//! For a key that many rows have, `Starts` may hold the numbers up to which all of them are taken,
//! hidden and held. A row that is let go, or comes anew, stands above the starts of its keys. Only
//! for lists that are long there is one, so there are few of them.
ghost use Rattle.std.specs.Prelude.{◌≡◌, ◌<◌, Bool};
ghost use Rattle.std.specs.List.{AllByRecursion};
ghost use Rattle.jsp_model.specs.declared.state.Row.{Row as OfRow};
ghost use Rattle.jsp_table.specs.Finding.{AreNamed};
ghost use Rattle.jsp_index.specs.Finding.{number as number_of};
ghost use Rattle.jsp_index.specs.Passed.{AreAbove, AreLower, ArePassed, IsOverAll};

use crate::by_number::{ByNumber, RowsByNumber};
use crate::row_tests::{Free, Public, Untaken};
use crate::starts::{ListStart, Starts, drop_start, has_none, lower_start, set_start, start_of};
use jsp_keyed::Keying;
use jsp_model::Row;
use jsp_table::{Numbers, Test};

/// How many numbers a list has at least for which there is a start.
const LONG: usize = 32;

/// The row stands above the starts of its keys from here on. Takes no memory.
pub(crate) fn put_above(starts: &mut Starts, seed: u64, row: &Row)
    requires { 0 < row.now.number }
    ensures down { AreLower starts.old starts.new }
    ensures above { IsOverAll seed starts.new row.now }
{
    if has_none(starts) {
        return;
    }
    'places: for place in 0..ByNumber::count(seed, row) {
        lower_start(starts, ByNumber::key(seed, row, place), row.number);
    }
}

/// The rows stand above the starts of their keys from here on. Takes no memory.
pub(crate) fn put_all_above(starts: &mut Starts, seed: u64, rows: &[Row])
    requires { AllByRecursion (λ row. 0 < row.number) rows.now }
    ensures down { AreLower starts.old starts.new }
    ensures above { AllByRecursion (IsOverAll seed starts.new) rows.now }
{
    'rows: for row in rows {
        put_above(starts, seed, row);
    }
}

/// The row of a number stands above the starts of its keys from here on. Takes no memory.
pub(crate) fn put_number_above(starts: &mut Starts, rows: &RowsByNumber, seed: u64, number: u64)
    ensures down { AreLower starts.old starts.new }
    ensures above { AllByRecursion (λ row. row.number ≡ number → IsOverAll seed starts.new row) rows.now }
{
    // Which says that no number is 0, and each stands once.
    let _ = rows.places();
    if has_none(starts) {
        return;
    }
    let Some(row) = rows.get(number) else {
        return;
    };
    put_above(starts, seed, row);
}

/// The keys of a row whose lists aren't long start at 0. Takes no memory.
pub(crate) fn drop_starts(starts: &mut Starts, rows: &RowsByNumber, seed: u64, row: &Row)
    ensures { AreLower starts.old starts.new }
{
    if has_none(starts) {
        return;
    }
    'places: for place in 0..ByNumber::count(seed, row) {
        let key = ByNumber::key(seed, row, place);
        if !is_long(rows, seed, key) {
            drop_start(starts, key);
        }
    }
}

/// Whether a list has many numbers.
fn is_long(rows: &RowsByNumber, seed: u64, key: u64) -> bool {
    match rows.numbers_at(seed, key) {
        None => false,
        Some(numbers) => numbers.len() >= LONG,
    }
}

/// A transaction holds the rows of so many numbers from one on: what starts before each starts
/// behind it. Where memory for that is refused it stays as it was.
pub(crate) fn pass_all(
    starts: &mut Starts,
    rows: &RowsByNumber,
    seed: u64,
    first: u64,
    count: usize,
)
    requires { ArePassed seed starts.old rows.now }
    ensures { ArePassed seed starts.new rows.now }
{
    'numbers: for offset in 0..count {
        pass(starts, rows, seed, first.saturating_add(offset as u64));
    }
}

/// A transaction holds the row of a number: what starts before it starts behind it. Where memory
/// for that is refused it stays as it was.
pub(crate) fn pass(starts: &mut Starts, rows: &RowsByNumber, seed: u64, number: u64)
    requires { ArePassed seed starts.old rows.now }
    ensures { ArePassed seed starts.new rows.now }
{
    let Some(row) = rows.get(number) else {
        return;
    };
    'places: for place in 0..ByNumber::count(seed, row) {
        pass_under(starts, rows, seed, ByNumber::key(seed, row, place));
    }
}

/// The key starts behind the rows at the head of its list that can't be had, and behind all numbers
/// where none can, if the list is long.
fn pass_under(starts: &mut Starts, rows: &RowsByNumber, seed: u64, key: u64)
    requires { ArePassed seed starts.old rows.now }
    ensures { ArePassed seed starts.new rows.now }
{
    let Some(numbers) = rows.numbers_at(seed, key) else {
        return;
    };
    if numbers.len() < LONG {
        return;
    }
    let start = start_of(starts, key);
    // A free row is neither held nor hidden nor taken, so none of the three would move.
    if start.are_equal() && begins_open(rows, numbers, start.held, &Free {}) {
        return;
    }
    // A row that was taken isn't public, and one that isn't public isn't free.
    let taken = further(rows, numbers, start.taken, &Untaken {});
    let hidden = further(rows, numbers, start.hidden.max(taken), &Public {});
    let held = further(rows, numbers, start.held.max(hidden), &Free {});
    let next = ListStart {
        taken,
        hidden,
        held,
    };
    if next != start {
        let _ = set_start(starts, key, next);
    }
}

/// Up to where none of a list is open: behind the start, where the first row there isn't open, and
/// behind those that follow and aren't. Rows that come or are let go lower a start again.
fn further<P: Test<Row>>(rows: &RowsByNumber, numbers: &Numbers, start: u64, had: &P) -> u64
    ensures { (kind : OfRow → Bool) → AreNamed number_of kind numbers.now rows.now → AreAbove kind (P.is_passed had.now) start rows.now → AreAbove kind (P.is_passed had.now) result rows.now }
{
    if begins_open(rows, numbers, start, had) {
        return start;
    }
    match rows.first_named(numbers, start, had) {
        None => u64::MAX,
        Some(row) => row.number - 1,
    }
}

/// Whether the first row of a list behind the start is open, or there is none.
fn begins_open<P: Test<Row>>(rows: &RowsByNumber, numbers: &Numbers, start: u64, had: &P) -> bool {
    let Some(next) = numbers.next_above(start) else {
        return true;
    };
    match rows.get(next) {
        None => false,
        Some(row) => had.passes(row),
    }
}
