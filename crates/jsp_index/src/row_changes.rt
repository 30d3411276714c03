//! What becomes of a row, where a transaction ends, takes or reads.
ghost use Rattle.std.specs.Prelude.{◌≡◌, ◌==◌, ◌&&◌, Bool, ℕ, Some, if◌then◌else◌};
ghost use Rattle.jsp_model.specs.declared.state.Row.{Row as OfRow};
ghost use Rattle.jsp_model.specs.Lookup.{is_caller as calls};
ghost use Rattle.jsp_sight.specs.Rows.{released_row, settled, undone, with_reader};

use crate::NoMemory;
use jsp_model::{Row, Vote};
use jsp_sight::{add_reader, is_caller, release_row, settle, undo};
use jsp_table::{Change, TryChange};

/// What becomes of a row: it changes or goes.
pub(crate) trait Revision {
    ghost is_gone: { Self → OfRow → Bool };

    fn goes(&self, row: &Row) -> bool
        ensures { result ≡ is_gone self.now row.now };
}

/// A transaction's commit.
#[derive(Drop)]
pub(crate) struct Commit {
    pub(crate) transaction: u64,
}

impl Revision for Commit {
    ghost is_gone = { λ c r. calls r.taker c.transaction };

    fn goes(&self, row: &Row) -> bool {
        is_caller(row.taker, self.transaction)
    }
}

impl Change<Row> for Commit {
    ghost changed = { λ c r. settled c.transaction r };

    fn change(&self, row: &mut Row) {
        settle(row, self.transaction);
    }
}

/// A transaction's abort.
#[derive(Drop)]
pub(crate) struct Abort {
    pub(crate) transaction: u64,
}

impl Revision for Abort {
    ghost is_gone = { λ a r. calls r.writer a.transaction };

    fn goes(&self, row: &Row) -> bool {
        is_caller(row.writer, self.transaction)
    }
}

impl Change<Row> for Abort {
    ghost changed = { λ a r. undone a.transaction r };

    fn change(&self, row: &mut Row) {
        undo(row, self.transaction);
    }
}

/// A space's vote, by which a transaction's read marks there may go.
#[derive(Drop)]
pub(crate) struct Release {
    pub(crate) vote: Vote,
    pub(crate) transaction: u64,
    pub(crate) space: u64,
}

impl Revision for Release {
    ghost use Rattle.std.specs.Prelude.{false};

    ghost is_gone = { λ _ _. false };

    fn goes(&self, _row: &Row) -> bool {
        false
    }
}

impl Change<Row> for Release {
    ghost changed = { λ v r. released_row v.vote v.transaction v.space r };

    fn change(&self, row: &mut Row) {
        release_row(row, self.vote, self.transaction, self.space);
    }
}

/// A revision of the rows of one space alone.
#[derive(Drop)]
pub(crate) struct Local<'a, R: Revision + Change<Row>> {
    pub(crate) space: u64,
    pub(crate) revision: &'a R,
}

impl<'a, R: Revision + Change<Row>> Revision for Local<'a, R> {
    ghost is_gone = { λ l r. r.space == l.space && R.is_gone l.revision.now r };

    fn goes(&self, row: &Row) -> bool {
        row.space == self.space && self.revision.goes(row)
    }
}

impl<'a, R: Revision + Change<Row>> Change<Row> for Local<'a, R> {
    ghost changed = { λ l r. if r.space == l.space then R.changed l.revision.now r else r };

    fn change(&self, row: &mut Row) {
        if row.space == self.space {
            self.revision.change(row);
        }
    }
}

/// A transaction takes a row.
#[derive(Drop)]
pub(crate) struct Taking {
    pub(crate) transaction: u64,
}

impl Change<Row> for Taking {
    ghost changed = { λ t r. record r { taker = Some t.transaction } };

    fn change(&self, row: &mut Row) {
        row.taker = Some(self.transaction);
    }
}

/// A transaction reads a row.
#[derive(Drop)]
pub(crate) struct Reading {
    pub(crate) transaction: u64,
}

impl TryChange<Row> for Reading {
    ghost changed = { λ t r. with_reader t.transaction r };

    fn try_change(&self, row: &mut Row) -> Result<(), NoMemory> {
        add_reader(row, self.transaction)
    }
}
