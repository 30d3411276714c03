//! Rows, found by number, by what their entries hold, and by end, and counted by space.
ghost use Rattle.std.specs.Prelude.{◌≡◌, ◌==◌, ◌++◌, [], Bool, Some, not, if◌then◌else◌, filter, find, map, length, option_copied, option_map, OnOk, OnErr};
ghost use Rattle.jsp_model.specs.declared.state.Row.{Row as OfRow};
ghost use Rattle.jsp_sight.specs.Rows.{row_ending, with_reader};
ghost use Rattle.jsp_table.specs.Places.{living};
ghost use Rattle.jsp_index.specs.Finding.{number, row_numbered};
ghost use Rattle.jsp_index.specs.Numbered.{AreNumbered};
ghost use Rattle.jsp_index.specs.Changing.{HasSameKeys};
ghost use Rattle.jsp_index.specs.Passed.{is_open, AreListed};
ghost use Rattle.jsp_index.specs.Keys.{row_keys};
ghost use Rattle.jsp_keyed.specs.Finding.{HaveKey};

use crate::NoMemory;
use crate::by_number::RowsByNumber;
use crate::counting::{count_all, make_room_for, uncount_all};
use crate::passing::{drop_starts, pass, pass_all, put_all_above, put_number_above};
use crate::row_changes::{Reading, Taking};
use crate::row_tests::InSpace;
use crate::seeing::{Seen, forget_all, forget_with, see_all};
use crate::shapes::Shapes;
use crate::starts::{Starts, Unseen, start_of};
use jsp_keyed::{Key, Keyed};
use jsp_model::Row;
use jsp_table::{Change, Counts, Numbers, count_of, count_one_less, drop_count};
use std::alloc::Global;
use std::collections::HashMap;
use std::marker::Model;

/// Rows, found by number, by what their entries hold, and by end. Contracts see the list of them,
/// in rising order of their numbers.
#[derive(Drop)]
pub(crate) struct KeyedRows {
    pub(crate) rows: RowsByNumber,
    pub(crate) alloc: Global,
    /// The classes that were seen in each space.
    pub(crate) seen: Seen,
    /// How many rows each space has. One whose rows went keeps a count of 0 until it is cleared.
    counts: Counts,
    pub(crate) seed: u64,
    /// Up to where the rows that have a key are held by transactions.
    starts: Starts,
    pub(crate) shapes: Shapes,
}

/// What is named under a key, and the number up to which none of its rows can be had.
#[derive(Clone, Copy)]
pub(crate) struct Listed<'a> {
    pub(crate) numbers: &'a Numbers,
    pub(crate) start: u64,
}

impl Model for KeyedRows {
    ghost use Rattle.std.specs.Prelude.{List};
    ghost use Rattle.jsp_model.specs.declared.state.Row.{Row};
    ghost use Rattle.jsp_index.specs.Beside.{IsBeside};
    ghost use Rattle.jsp_index.specs.Passed.{ArePassed};
    ghost use Rattle.jsp_index.specs.Shapes.{AreShaped};

    ghost Value = { List Row };

    ghost view = { λ k. k.rows };

    ghost invariant = { λ k. IsBeside k.seen k.counts k.rows × (ArePassed k.seed k.starts k.rows × AreShaped k.seed k.shapes.list k.rows) };
}

impl KeyedRows {
    /// No rows. The seed is for the keys.
    pub(crate) fn new(alloc: Global, seed: u64) -> Self
        ensures { result ≡ [] }
    {
        KeyedRows {
            rows: Keyed::new(alloc, seed),
            alloc,
            seen: HashMap::new(alloc),
            counts: HashMap::new(alloc),
            seed,
            starts: HashMap::new(alloc),
            shapes: Shapes::new(alloc),
        }
    }

    /// The rows, found by number, by key and by end.
    pub(crate) fn keyed(&self) -> &RowsByNumber
        ensures { result.now ≡ self.now }
    {
        &self.rows
    }

    /// What is named under a key.
    pub(crate) fn listed<Q: Key>(&self, key: &Q, unseen: Unseen) -> Listed<'_>
        ensures { (kind : OfRow → Bool) → HaveKey row_keys (Q.key_by key.now) kind → AreListed kind (is_open unseen) result.numbers.now result.start self.now }
    {
        let start = start_of(&self.starts, key.key(self.seed));
        Listed {
            numbers: self.rows.numbers_under(key),
            start: start.number(unseen),
        }
    }

    /// Adds rows at the end, whole or not at all. Where memory is refused they stay with the
    /// caller.
    pub(crate) fn append(&mut self, rows: &mut Vec<Row>) -> Result<(), NoMemory>
        requires { AreNumbered (self.old ++ rows.old.items) }
        ensures ok { OnOk result (self.new ≡ self.old ++ rows.old.items) }
        ensures err { OnErr result (self.new ≡ self.old) }
        ensures rows_stay { OnErr result (rows.new.items ≡ rows.old.items) }
    {
        see_all(self.alloc, &mut self.seen, rows)?;
        make_room_for(&mut self.counts, rows)?;
        put_all_above(&mut self.starts, self.seed, rows);
        // Which says how many rows there are at most, so that more can be counted.
        let _ = self.rows.places();
        count_all(&mut self.counts, rows);
        let (first, hidden) = hidden_among(rows);
        self.shapes.add(self.alloc, self.seed, rows);
        if let Err(e) = self.rows.append(rows) {
            uncount_all(&mut self.counts, rows);
            self.shapes.clear();
            return Err(e);
        }
        pass_all(&mut self.starts, &self.rows, self.seed, first, hidden);
        Ok(())
    }

    /// How many rows a space has.
    pub(crate) fn count_in(&self, space: u64) -> usize
        ensures { result ≡ length (filter (λ r. r.space == space) self.now) }
    {
        count_of(&self.counts, space)
    }

    /// The row of this number.
    pub(crate) fn get(&self, number: u64) -> Option<&Row>
        ensures found { option_copied result ≡ row_numbered number self.now }
        ensures numbered { AreNumbered self.now }
    {
        // Which says that the numbers rise.
        let _ = self.rows.places();
        self.rows.get(number)
    }

    /// The row of this number goes. Takes no memory.
    pub(crate) fn remove(&mut self, number: u64)
        ensures { self.new ≡ filter (λ r. not (r.number == number)) self.old }
    {
        // Which says that no other row has the number.
        let _ = self.rows.places();
        let Some(row) = self.rows.get(number) else {
            return;
        };
        count_one_less(&mut self.counts, row.space);
        drop_starts(&mut self.starts, &self.rows, self.seed, row);
        forget_with(&mut self.seen, &self.rows, row);
        self.shapes.remove(self.seed, row);
        self.rows.remove(number);
    }

    /// The number of the first row of a space.
    pub(crate) fn first_in(&self, space: u64) -> Option<u64>
        ensures found { result ≡ option_map number (find (λ r. r.space == space) self.now) }
        ensures numbered { AreNumbered self.now }
    {
        // Which says that the numbers rise.
        let _ = self.rows.places();
        self.rows.first_number(&InSpace { space })
    }

    /// The rows of a space go. Takes no memory.
    pub(crate) fn clear(&mut self, space: u64)
        ensures { self.new ≡ filter (λ r. not (r.space == space)) self.old }
    {
        self.rows.remove_all(&InSpace { space });
        drop_count(&mut self.counts, space);
        forget_all(&mut self.seen, space);
        self.shapes.forget(space);
        self.starts.clear();
    }

    /// Changes the row of this number, which keeps its number, space, entry and end. Takes no
    /// memory.
    pub(crate) fn change<C: Change<Row>>(&mut self, number: u64, change: &C)
        requires { (r : OfRow) → HasSameKeys r (C.changed change.now r) }
        ensures { self.new ≡ map (λ r. if r.number == number then C.changed change.now r else r) self.old }
    {
        put_number_above(&mut self.starts, &self.rows, self.seed, number);
        self.rows.change(number, change);
    }

    /// The transaction takes the row of this number. That it is passed over from here on may take
    /// memory, and is left where memory is refused.
    pub(crate) fn take(&mut self, number: u64, x: u64)
        ensures { self.new ≡ map (λ (r : OfRow). if r.number == number then record r { taker = Some x } else r) self.old }
    {
        self.rows.change(number, &Taking { transaction: x });
        pass(&mut self.starts, &self.rows, self.seed, number);
    }

    /// The transaction reads the row of this number, whole or not at all. That it is passed over
    /// from here on may take memory, and is left where memory is refused.
    pub(crate) fn read(&mut self, number: u64, x: u64) -> Result<(), NoMemory>
        ensures ok { OnOk result (self.new ≡ map (λ r. if r.number == number then with_reader x r else r) self.old) }
        ensures err { OnErr result (self.new ≡ self.old) }
    {
        self.rows.try_change(number, &Reading { transaction: x })?;
        pass(&mut self.starts, &self.rows, self.seed, number);
        Ok(())
    }

    /// The row of this number ends then. Takes no memory.
    pub(crate) fn set_end(&mut self, number: u64, end: u64)
        ensures { self.new ≡ map (row_ending number end) self.old }
    {
        self.rows.set_end(number, end, &Extension { end });
    }

    /// The places of the rows in their order, some of which are empty.
    pub(crate) fn places(&self) -> &[Option<Row>]
        ensures rows { living result.now ≡ self.now }
        ensures numbered { AreNumbered self.now }
    {
        self.rows.places()
    }
}

/// The number of the first of these rows, and how many there are, if a transaction wrote it. What
/// is written together is written by one.
fn hidden_among(rows: &[Row]) -> (u64, usize) {
    match rows {
        [first, ..] if first.writer.is_some() => (first.number, rows.len()),
        _ => (0, 0),
    }
}

/// Another end.
#[derive(Drop)]
struct Extension {
    end: u64,
}

impl Change<Row> for Extension {
    ghost changed = { λ e r. record r { end = e.end } };

    fn change(&self, row: &mut Row) {
        row.end = self.end;
    }
}
