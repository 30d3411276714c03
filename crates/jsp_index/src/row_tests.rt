//! What is asked of a row, as tests.
ghost use Rattle.std.specs.Prelude.{◌≡◌, ◌==◌, ◌&&◌, ◌||◌, not};
ghost use Rattle.jsp_model.specs.Lookup.{contains as has, is_caller as calls};
ghost use Rattle.jsp_sight.specs.Rows.{offered, held, shows, is_held};
ghost use Rattle.jsp_index.specs.Own.{is_within as is_within_of};

use crate::starts::Unseen;
use jsp_model::{Blocked, MatchSet, Row};
use jsp_sight::{contains, is_available, is_caller, is_in_conflict, may_show};
use jsp_table::{Numbers, Test};
use jsp_types::Classes;

/// Whether a request may be given the row.
#[derive(Drop)]
pub(crate) struct Offered<'a> {
    pub(crate) classes: &'a Classes,
    pub(crate) blocked: &'a Blocked,
}

impl<'a> Test<Row> for Offered<'a> {
    ghost is_passed = { λ s r. offered s.classes.now s.blocked.now r };

    fn passes(&self, row: &Row) -> bool {
        is_available(self.classes, self.blocked, row)
    }
}

/// Whether a request wants the row, and it is in conflict.
#[derive(Drop)]
pub(crate) struct InConflict<'a> {
    pub(crate) classes: &'a Classes,
    pub(crate) blocked: &'a Blocked,
}

impl<'a> Test<Row> for InConflict<'a> {
    ghost is_passed = { λ s r. held s.classes.now s.blocked.now r };

    fn passes(&self, row: &Row) -> bool {
        is_in_conflict(self.classes, self.blocked, row)
    }
}

/// Whether a match set may still show the row.
#[derive(Drop)]
pub(crate) struct Shown<'a> {
    pub(crate) classes: &'a Classes,
    pub(crate) set: &'a MatchSet,
}

impl<'a> Test<Row> for Shown<'a> {
    ghost is_passed = { λ s r. shows s.classes.now s.set.now r };

    fn passes(&self, row: &Row) -> bool {
        may_show(self.classes, self.set, row)
    }
}

/// Whether no transaction took the row.
#[derive(Drop)]
pub(crate) struct Untaken {}

impl Test<Row> for Untaken {
    ghost use Rattle.jsp_index.specs.Passed.{is_untaken};

    ghost is_passed = { λ _ r. is_untaken r };

    fn passes(&self, row: &Row) -> bool {
        row.taker.is_none()
    }
}

/// Whether no transaction wrote or took the row.
#[derive(Drop)]
pub(crate) struct Public {}

impl Test<Row> for Public {
    ghost use Rattle.jsp_index.specs.Passed.{is_public};

    ghost is_passed = { λ _ r. is_public r };

    fn passes(&self, row: &Row) -> bool {
        row.writer.is_none() && row.taker.is_none()
    }
}

/// Whether no transaction wrote, took or read the row.
#[derive(Drop)]
pub(crate) struct Free {}

impl Test<Row> for Free {
    ghost use Rattle.jsp_index.specs.Passed.{is_free};

    ghost is_passed = { λ _ r. is_free r };

    fn passes(&self, row: &Row) -> bool {
        row.readers.as_slice().is_empty() && row.writer.is_none() && row.taker.is_none()
    }
}

/// Whether a search may have the row, by whom it is held, and it isn't above the last number and
/// passes a test.
#[derive(Drop)]
pub(crate) struct Open<'a, P: Test<Row>> {
    pub(crate) unseen: Unseen,
    pub(crate) last: Option<u64>,
    pub(crate) test: &'a P,
}

impl<'a, P: Test<Row>> Test<Row> for Open<'a, P> {
    ghost use Rattle.jsp_index.specs.Passed.{is_open};
    ghost use Rattle.jsp_index.specs.Own.{is_within};

    ghost is_passed = { λ s r. is_within s.last r.number && is_open s.unseen r && P.is_passed s.test.now r };

    fn passes(&self, row: &Row) -> bool {
        is_within(self.last, row.number) && self.unseen.leaves(row) && self.test.passes(row)
    }
}

/// Whether a number isn't above the last one, if there is one.
pub(crate) fn is_within(last: Option<u64>, number: u64) -> bool
    ensures { result ≡ is_within_of last number }
{
    match last {
        None => true,
        Some(last) => number <= last,
    }
}

/// Whether the row isn't above the last number and passes a test.
#[derive(Drop)]
pub(crate) struct Within<'a, P: Test<Row>> {
    pub(crate) last: Option<u64>,
    pub(crate) test: &'a P,
}

impl<'a, P: Test<Row>> Test<Row> for Within<'a, P> {
    ghost use Rattle.jsp_index.specs.Own.{is_within};

    ghost is_passed = { λ s r. is_within s.last r.number && P.is_passed s.test.now r };

    fn passes(&self, row: &Row) -> bool {
        is_within(self.last, row.number) && self.test.passes(row)
    }
}

/// Whether the row has one of these numbers and passes a test.
#[derive(Drop)]
pub(crate) struct Among<'a, P: Test<Row>> {
    pub(crate) numbers: &'a Numbers,
    pub(crate) test: &'a P,
}

impl<'a, P: Test<Row>> Test<Row> for Among<'a, P> {
    ghost use Rattle.jsp_table.specs.Numbers.{contains};

    ghost is_passed = { λ s r. contains s.numbers.now r.number && P.is_passed s.test.now r };

    fn passes(&self, row: &Row) -> bool {
        self.numbers.contains(row.number) && self.test.passes(row)
    }
}

/// Whether the row stands above a number, where a search ends, or passes a test.
#[derive(Drop)]
pub(crate) struct OrAbove<'a, P: Test<Row>> {
    pub(crate) last: u64,
    pub(crate) test: &'a P,
}

impl<'a, P: Test<Row>> Test<Row> for OrAbove<'a, P> {
    ghost use Rattle.std.specs.Prelude.{nat_lt};

    ghost is_passed = { λ s r. nat_lt s.last r.number || P.is_passed s.test.now r };

    fn passes(&self, row: &Row) -> bool {
        self.last < row.number || self.test.passes(row)
    }
}

/// Whether the row is in a space.
#[derive(Drop)]
pub(crate) struct InSpace {
    pub(crate) space: u64,
}

impl Test<Row> for InSpace {
    ghost is_passed = { λ s r. r.space == s.space };

    fn passes(&self, row: &Row) -> bool {
        row.space == self.space
    }
}

/// Whether the row has one of these numbers.
#[derive(Drop)]
pub(crate) struct OneOf<'a> {
    pub(crate) numbers: &'a [u64],
}

impl<'a> Test<Row> for OneOf<'a> {
    ghost is_passed = { λ s r. has s.numbers.now r.number };

    fn passes(&self, row: &Row) -> bool {
        contains(self.numbers, row.number)
    }
}

/// Whether a transaction wrote or took the row in a space.
#[derive(Drop)]
pub(crate) struct ChangedBy {
    pub(crate) transaction: u64,
    pub(crate) space: u64,
}

impl Test<Row> for ChangedBy {
    ghost is_passed = { λ s r. r.space == s.space && (calls r.writer s.transaction || calls r.taker s.transaction) };

    fn passes(&self, row: &Row) -> bool {
        let x = self.transaction;
        row.space == self.space && (is_caller(row.writer, x) || is_caller(row.taker, x))
    }
}

/// Whether a transaction wrote, took or read the row in a space.
#[derive(Drop)]
pub(crate) struct HeldBy {
    pub(crate) transaction: u64,
    pub(crate) space: u64,
}

impl Test<Row> for HeldBy {
    ghost is_passed = { λ s r. r.space == s.space && is_held s.transaction r };

    fn passes(&self, row: &Row) -> bool {
        let x = self.transaction;
        row.space == self.space && (is_changer(row, x) || contains(row.readers.as_slice(), x))
    }
}

fn is_changer(row: &Row, x: u64) -> bool
    ensures { result ≡ (calls row.now.writer x || calls row.now.taker x) }
{
    is_caller(row.writer, x) || is_caller(row.taker, x)
}

/// Whether a transaction wrote the row and didn't take it.
#[derive(Drop)]
pub(crate) struct PublishedBy {
    pub(crate) transaction: u64,
}

impl Test<Row> for PublishedBy {
    ghost is_passed = { λ s r. calls r.writer s.transaction && not (calls r.taker s.transaction) };

    fn passes(&self, row: &Row) -> bool {
        is_caller(row.writer, self.transaction) && !is_caller(row.taker, self.transaction)
    }
}
