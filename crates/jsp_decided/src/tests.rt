//! What is asked of a row as it is after what is recorded, as tests.
ghost use Rattle.std.specs.Prelude.{◌≡◌, ◌==◌, ◌&&◌, ◌||◌, true, false, not, nat_lt};
ghost use Rattle.std.specs.Option.{option_map_or};
ghost use Rattle.jsp_types.specs.Matching.{matches as fits};
ghost use Rattle.jsp_model.specs.Lookup.{is_caller as calls};
ghost use Rattle.jsp_model.specs.Sight.{is_free as frees, is_take as takes};
ghost use Rattle.jsp_sight.specs.Rows.{wanted, offered, held, shows};
ghost use Rattle.jsp_decided.specs.Decided.{row_after};
ghost use Rattle.jsp_decided.specs.Left.{reads_alone as is_alone, is_readable as may_be_read};

use crate::after::{Left, is_readable, left_after, reads_alone};
use crate::recorded::Recorded;
use jsp_model::{Blocked, MatchSet, Row};
use jsp_sight::{is_caller, is_free, is_take, wants};
use jsp_table::Test;
use jsp_types::{Classes, matches};

/// Whether a request may be given the row.
#[derive(Drop)]
pub(crate) struct Offered<'a> {
    pub(crate) recorded: &'a [Recorded],
    pub(crate) classes: &'a Classes,
    pub(crate) blocked: &'a Blocked,
}

impl<'a> Test<Row> for Offered<'a> {
    ghost is_passed = { λ t r. option_map_or (offered t.classes.now t.blocked.now) (row_after t.recorded.now r) false };

    fn passes(&self, row: &Row) -> bool {
        is_available(self.recorded, self.classes, self.blocked, row)
    }
}

pub(crate) fn is_available(
    recorded: &[Recorded],
    classes: &Classes,
    blocked: &Blocked,
    row: &Row,
) -> bool
    ensures { result ≡ option_map_or (offered classes.now blocked.now) (row_after recorded.now row.now) false }
{
    match left_after(recorded, row) {
        None => false,
        Some(left) => is_offered(recorded, classes, blocked, row, left),
    }
}

fn is_offered(
    recorded: &[Recorded],
    classes: &Classes,
    blocked: &Blocked,
    row: &Row,
    left: Left,
) -> bool
    ensures { result ≡ (wanted classes.now blocked.now row.now && (may_be_read left blocked.now.transaction && (not (takes blocked.now.form) || is_alone recorded.now row.now blocked.now.transaction))) }
{
    wants(classes, blocked, row) && is_open(recorded, blocked, row, left)
}

/// Whether a request may read the row or, if it takes, take it.
fn is_open(recorded: &[Recorded], blocked: &Blocked, row: &Row, left: Left) -> bool
    ensures { result ≡ (may_be_read left blocked.now.transaction && (not (takes blocked.now.form) || is_alone recorded.now row.now blocked.now.transaction)) }
{
    let caller = blocked.transaction;
    is_readable(left, caller) && (!is_take(blocked.form) || reads_alone(recorded, row, caller))
}

/// Whether a request wants the row, and it is in conflict.
#[derive(Drop)]
pub(crate) struct InConflict<'a> {
    pub(crate) recorded: &'a [Recorded],
    pub(crate) classes: &'a Classes,
    pub(crate) blocked: &'a Blocked,
}

impl<'a> Test<Row> for InConflict<'a> {
    ghost is_passed = { λ t r. option_map_or (held t.classes.now t.blocked.now) (row_after t.recorded.now r) false };

    fn passes(&self, row: &Row) -> bool {
        is_in_conflict(self.recorded, self.classes, self.blocked, row)
    }
}

fn is_in_conflict(recorded: &[Recorded], classes: &Classes, blocked: &Blocked, row: &Row) -> bool
    ensures { result ≡ option_map_or (held classes.now blocked.now) (row_after recorded.now row.now) false }
{
    match left_after(recorded, row) {
        None => false,
        Some(left) => is_withheld(recorded, classes, blocked, row, left),
    }
}

fn is_withheld(
    recorded: &[Recorded],
    classes: &Classes,
    blocked: &Blocked,
    row: &Row,
    left: Left,
) -> bool
    ensures { result ≡ (wanted classes.now blocked.now row.now && (frees blocked.now.transaction left.writer && (not (frees blocked.now.transaction left.taker) || (takes blocked.now.form && not (is_alone recorded.now row.now blocked.now.transaction))))) }
{
    wants(classes, blocked, row) && conflicts(recorded, blocked, row, left)
}

/// Whether another transaction took the row or, if the request takes, read it.
fn conflicts(recorded: &[Recorded], blocked: &Blocked, row: &Row, left: Left) -> bool
    ensures { result ≡ (frees blocked.now.transaction left.writer && (not (frees blocked.now.transaction left.taker) || (takes blocked.now.form && not (is_alone recorded.now row.now blocked.now.transaction)))) }
{
    let caller = blocked.transaction;
    is_free(caller, left.writer)
        && (!is_free(caller, left.taker)
            || is_take(blocked.form) && !reads_alone(recorded, row, caller))
}

/// Whether a match set may still show the row.
#[derive(Drop)]
pub(crate) struct Shown<'a> {
    pub(crate) recorded: &'a [Recorded],
    pub(crate) classes: &'a Classes,
    pub(crate) set: &'a MatchSet,
}

impl<'a> Test<Row> for Shown<'a> {
    ghost is_passed = { λ t r. option_map_or (shows t.classes.now t.set.now) (row_after t.recorded.now r) false };

    fn passes(&self, row: &Row) -> bool {
        may_show(self.recorded, self.classes, self.set, row)
    }
}

fn may_show(recorded: &[Recorded], classes: &Classes, set: &MatchSet, row: &Row) -> bool
    ensures { result ≡ option_map_or (shows classes.now set.now) (row_after recorded.now row.now) false }
{
    match left_after(recorded, row) {
        None => false,
        Some(left) => is_shown(classes, set, row, left),
    }
}

fn is_shown(classes: &Classes, set: &MatchSet, row: &Row, left: Left) -> bool
    ensures { result ≡ (row.now.space == set.now.space && nat_lt set.now.cursor row.now.number && nat_lt row.now.number set.now.number && may_be_read left set.now.transaction && fits classes.now set.now.template row.now.entry) }
{
    row.space == set.space
        && set.cursor < row.number
        && row.number < set.number
        && is_readable(left, set.transaction)
        && matches(classes, &set.template, &row.entry)
}

/// Whether a transaction wrote or took the row in a space.
#[derive(Drop)]
pub(crate) struct ChangedBy<'a> {
    pub(crate) recorded: &'a [Recorded],
    pub(crate) transaction: u64,
    pub(crate) space: u64,
}

impl<'a> Test<Row> for ChangedBy<'a> {
    ghost is_passed = { λ t r. option_map_or (λ r. r.space == t.space && (calls r.writer t.transaction || calls r.taker t.transaction)) (row_after t.recorded.now r) false };

    fn passes(&self, row: &Row) -> bool {
        is_changed(self.recorded, self.transaction, self.space, row)
    }
}

fn is_changed(recorded: &[Recorded], x: u64, space: u64, row: &Row) -> bool
    ensures { result ≡ option_map_or (λ r. r.space == space && (calls r.writer x || calls r.taker x)) (row_after recorded.now row.now) false }
{
    match left_after(recorded, row) {
        None => false,
        Some(left) => changes(row, space, left, x),
    }
}

fn changes(row: &Row, space: u64, left: Left, x: u64) -> bool
    ensures { result ≡ (row.now.space == space && (calls left.writer x || calls left.taker x)) }
{
    row.space == space && (is_caller(left.writer, x) || is_caller(left.taker, x))
}

/// Whether the row is in a space.
#[derive(Drop)]
pub(crate) struct InSpace<'a> {
    pub(crate) recorded: &'a [Recorded],
    pub(crate) space: u64,
}

impl<'a> Test<Row> for InSpace<'a> {
    ghost is_passed = { λ t r. option_map_or (λ r. r.space == t.space) (row_after t.recorded.now r) false };

    fn passes(&self, row: &Row) -> bool {
        is_in(self.recorded, self.space, row)
    }
}

fn is_in(recorded: &[Recorded], space: u64, row: &Row) -> bool
    ensures { result ≡ option_map_or (λ r. r.space == space) (row_after recorded.now row.now) false }
{
    match left_after(recorded, row) {
        None => false,
        Some(_) => row.space == space,
    }
}

/// Whether the row is left.
#[derive(Drop)]
pub(crate) struct IsLeft<'a> {
    pub(crate) recorded: &'a [Recorded],
}

impl<'a> Test<Row> for IsLeft<'a> {
    ghost is_passed = { λ t r. option_map_or (λ _. true) (row_after t.recorded.now r) false };

    fn passes(&self, row: &Row) -> bool {
        is_left(self.recorded, row)
    }
}

fn is_left(recorded: &[Recorded], row: &Row) -> bool
    ensures { result ≡ option_map_or (λ _. true) (row_after recorded.now row.now) false }
{
    left_after(recorded, row).is_some()
}
