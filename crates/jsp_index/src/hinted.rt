//! The rows of all spaces, found by hints. Contracts see them as a list, in rising order of their
//! numbers.
//!
//! The fields are private. What there is to do with rows is a call: to append, to leave some out,
//! to change some in place are here. Only appending, reading and taking takes memory.
ghost use Rattle.std.specs.Prelude.{◌≡◌, ◌==◌, ◌&&◌, ◌++◌, ◌∷◌, [], not, map, filter, OnOk, OnErr};
ghost use Rattle.std.specs.List.{list_any};
ghost use Rattle.std.specs.Bool.{OnTrue};
ghost use Rattle.jsp_model.specs.Lookup.{update, contains as has};
ghost use Rattle.jsp_model.specs.Changes.{aborted, committed, release as released, is_not_changed as leaves_unread};
ghost use Rattle.jsp_sight.specs.Rows.{row_ending, with_reader, taken_row, is_held};
ghost use Rattle.jsp_index.specs.Numbered.{AreNumbered};

use crate::NoMemory;
use crate::holding::{Holders, hold_all, hold_number, hold_numbers, listed, take_list};
use crate::keyed::KeyedRows;
use crate::revising::{remove_all, revise_all, revise_holdings, take_all};
use crate::row_changes::{Abort, Commit, Release};
use crate::row_tests::HeldBy;
use jsp_model::{Row, Vote};
use std::alloc::Global;
use std::collections::HashMap;
use std::marker::Model;

/// The rows of all spaces.
#[derive(Drop)]
pub struct HintedRows {
    pub(crate) alloc: Global,
    pub(crate) rows: KeyedRows,
    /// The numbers of the rows that each transaction wrote, took or read, by space. A list may name
    /// more.
    pub(crate) holders: Holders,
}

impl Model for HintedRows {
    ghost use Rattle.std.specs.Prelude.{List};
    ghost use Rattle.jsp_model.specs.declared.state.Row.{Row};
    ghost use Rattle.jsp_index.specs.Holding.{AreHeld};

    ghost Value = { List Row };

    ghost view = { λ a. a.rows };

    ghost invariant = { λ a. AreHeld a.holders a.rows };
}

impl HintedRows {
    /// No rows. The seed is for keys; clients aren't to know it.
    pub fn new(alloc: Global, seed: u64) -> Self
        ensures { result ≡ [] }
    {
        HintedRows {
            alloc,
            rows: KeyedRows::new(alloc, seed),
            holders: HashMap::new(alloc),
        }
    }

    // ---- append

    /// Whether the numbers of these rows rise, above those of all rows and above 0. Where one isn't
    /// above a number that is gone, it may be refused.
    pub fn is_above(&self, rows: &[Row]) -> bool
        ensures { OnTrue result (AreNumbered (self.now ++ rows.now)) }
    {
        self.rows.keyed().may_append(rows)
    }

    /// Adds rows at the end, whole or not at all. Where memory is refused they stay with the
    /// caller.
    pub fn append(&mut self, rows: &mut Vec<Row>) -> Result<(), NoMemory>
        requires { AreNumbered (self.old ++ rows.old.items) }
        ensures ok { OnOk result (self.new ≡ self.old ++ rows.old.items) }
        ensures err { OnErr result (self.new ≡ self.old) }
        ensures rows_stay { OnErr result (rows.new.items ≡ rows.old.items) }
    {
        hold_all(self.alloc, &mut self.holders, rows)?;
        self.rows.append(rows)?;
        Ok(())
    }

    /// Adds a row at the end, whole or not at all.
    pub fn push(&mut self, row: Row) -> Result<(), NoMemory>
        requires { AreNumbered (self.old ++ row ∷ []) }
        ensures ok { OnOk result (self.new ≡ self.old ++ row ∷ []) }
        ensures err { OnErr result (self.new ≡ self.old) }
    {
        let mut rows = Vec::new(self.alloc);
        rows.push(row)?;
        self.append(&mut rows)?;
        Ok(())
    }

    // ---- leave out. Nothing here takes memory.

    /// The row of this number goes.
    pub fn remove(&mut self, number: u64)
        ensures { self.new ≡ filter (λ r. not (r.number == number)) self.old }
    {
        self.rows.remove(number);
    }

    /// The rows of these numbers go.
    pub fn remove_all(&mut self, numbers: &[u64])
        ensures { self.new ≡ filter (λ r. not (has numbers.now r.number)) self.old }
    {
        remove_all(&mut self.rows, numbers);
    }

    /// The rows of a space go.
    pub fn clear(&mut self, space: u64)
        ensures { self.new ≡ filter (λ r. not (r.space == space)) self.old }
    {
        self.rows.clear(space);
    }

    /// So many rows of a space go at most. Whether none is left; else further calls go on.
    pub fn clear_some(&mut self, space: u64, most: usize) -> bool
        ensures same { filter (λ r. not (r.space == space)) self.new ≡ filter (λ r. not (r.space == space)) self.old }
        ensures all { OnTrue result (self.new ≡ filter (λ r. not (r.space == space)) self.old) }
    {
        if most < self.rows.count_in(space) {
            self.clear_first(space, most);
            return false;
        }
        self.clear(space);
        true
    }

    /// The first rows of a space go, so many.
    fn clear_first(&mut self, space: u64, count: usize)
        ensures { filter (λ r. not (r.space == space)) self.new ≡ filter (λ r. not (r.space == space)) self.old }
    {
        'rows: for _ in 0..count {
            self.remove_first(space);
        }
    }

    /// The first row of a space goes.
    fn remove_first(&mut self, space: u64)
        ensures { filter (λ r. not (r.space == space)) self.new ≡ filter (λ r. not (r.space == space)) self.old }
    {
        if let Some(number) = self.rows.first_in(space) {
            self.remove(number);
        }
    }

    // ---- leave out and change. Nothing here takes memory.

    /// The transaction aborts: the rows that it wrote go, and so do its marks.
    pub fn abort(&mut self, x: u64)
        ensures { self.new ≡ aborted x self.old }
    {
        let Some(holdings) = self.holders.remove(&x) else {
            return;
        };
        let abort = Abort { transaction: x };
        revise_holdings(&mut self.rows, holdings.as_slice(), &abort);
    }

    /// The transaction commits: the rows that it took go, and so do its marks.
    pub fn commit(&mut self, x: u64)
        ensures { self.new ≡ committed x self.old }
    {
        let Some(holdings) = self.holders.remove(&x) else {
            return;
        };
        let commit = Commit { transaction: x };
        revise_holdings(&mut self.rows, holdings.as_slice(), &commit);
    }

    // ---- change in place

    /// Once a space has voted that nothing is changed, the transaction's read marks there go. What
    /// it holds elsewhere isn't looked at. Takes no memory.
    pub fn release(&mut self, vote: Vote, x: u64, space: u64)
        ensures { self.new ≡ released vote x space self.old }
    {
        self.unread(vote, x, space);
        self.forget_if_none(x, space);
    }

    /// The transaction has no list in the space any more, if it holds no row there.
    fn forget_if_none(&mut self, x: u64, space: u64)
        ensures { self.new ≡ self.old }
    {
        if !self.holds_some(x, space) {
            let _ = take_list(&mut self.holders, x, space);
        }
    }

    /// Whether the transaction holds a row of the space.
    fn holds_some(&self, x: u64, space: u64) -> bool
        ensures { result ≡ list_any (λ r. r.space == space && is_held x r) self.now }
    {
        let rows = self.rows.keyed();
        // Which says that no number is 0.
        let _ = rows.places();
        let Some(numbers) = listed(&self.holders, x, space) else {
            return false;
        };
        let test = HeldBy {
            transaction: x,
            space,
        };
        rows.first_named(numbers, 0, &test).is_some()
    }

    fn unread(&mut self, vote: Vote, x: u64, space: u64)
        ensures { self.new ≡ released vote x space self.old }
    {
        if !is_not_changed(vote) {
            return;
        }
        let Some(numbers) = listed(&self.holders, x, space) else {
            return;
        };
        revise_all(
            &mut self.rows,
            numbers,
            &Release {
                vote,
                transaction: x,
                space,
            },
        );
    }

    /// The transaction takes the rows of these numbers, whole or not at all.
    pub fn take(&mut self, numbers: &[u64], x: u64) -> Result<(), NoMemory>
        ensures ok { OnOk result (self.new ≡ map (taken_row x numbers.now) self.old) }
        ensures err { OnErr result (self.new ≡ self.old) }
    {
        hold_numbers(self.alloc, &mut self.holders, &self.rows, x, numbers)?;
        take_all(&mut self.rows, numbers, x);
        Ok(())
    }

    /// The row of this number ends then. Takes no memory.
    pub fn extend(&mut self, number: u64, end: u64)
        ensures { self.new ≡ map (row_ending number end) self.old }
    {
        self.rows.set_end(number, end);
    }

    /// The transaction reads the row of this number, whole or not at all.
    pub fn read(&mut self, number: u64, x: u64) -> Result<(), NoMemory>
        ensures ok { OnOk result (self.new ≡ update (λ r. r.number == number) (with_reader x) self.old) }
        ensures err { OnErr result (self.new ≡ self.old) }
    {
        hold_number(self.alloc, &mut self.holders, &self.rows, x, number)?;
        self.rows.read(number, x)?;
        Ok(())
    }
}

fn is_not_changed(vote: Vote) -> bool
    ensures { result ≡ leaves_unread vote }
{
    matches!(vote, Vote::NotChanged)
}
