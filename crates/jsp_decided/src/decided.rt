//! Rows, and what becomes of them.
ghost use Rattle.std.specs.Prelude.{◌≡◌, ◌==◌, true, false, ◌++◌, [], not, if◌then◌else◌, filter, map, OnOk, OnErr, IfSome};
ghost use Rattle.std.specs.Bool.{OnTrue};
ghost use Rattle.std.specs.List.{AllByRecursion};
ghost use Rattle.jsp_model.specs.declared.state.Row.{Row as OfRow};
ghost use Rattle.jsp_model.specs.Lookup.{update, contains as has};
ghost use Rattle.jsp_model.specs.Changes.{aborted, committed, release as released};
ghost use Rattle.jsp_sight.specs.Rows.{row_ending, with_reader, taken_row};
ghost use Rattle.jsp_index.specs.Numbered.{AreNumbered};
ghost use Rattle.jsp_decided.specs.Recording.{space_of, covers as is_covered, rows_after};
ghost use Rattle.jsp_decided.specs.Decided.{rows_of, without_first};

use crate::pending::{are_numbers_uncovered, are_uncovered, covers, is_cleared, place_of};
use crate::recorded::{Recorded, all_of, apply, apply_some};
use jsp_index::HintedRows;
use jsp_model::{Row, Vote};
use jsp_types::{NoMemory, Text, Value};
use std::alloc::Global;

/// How much may be left to apply where more is recorded: what asks for a row by its number, or for
/// what a commit publishes, goes through all of it.
const MOST: usize = 256;

/// How many rows of a space are changed at most, for one record, in one part.
const MOST_ROWS: usize = 128;

/// How many records a space applies at most in one part.
const MOST_RECORDS: usize = 4;

/// The rows of all spaces, and what is recorded and they don't show yet.
#[derive(Drop)]
pub struct DecidedRows {
    alloc: Global,
    pub(crate) stored: HintedRows,
    /// In the order in which it happened.
    pub(crate) recorded: Vec<Recorded>,
}

impl DecidedRows {
    /// No rows. The seed is for keys; clients aren't to know it.
    pub fn new(alloc: Global, seed: u64) -> Self
        ensures { rows_of result ≡ [] }
    {
        DecidedRows {
            alloc,
            stored: HintedRows::new(alloc, seed),
            recorded: Vec::new(alloc),
        }
    }

    // ---- append

    /// Whether the numbers of these rows rise, above those of all that is stored and above 0. Where
    /// one isn't above a number that is gone, it may be refused.
    pub fn is_above(&self, rows: &[Row]) -> bool
        ensures { OnTrue result (AreNumbered (self.now.stored ++ rows.now)) }
    {
        self.stored.is_above(rows)
    }

    /// Adds rows at the end, whole or not at all. Where memory is refused they stay with the
    /// caller.
    pub fn append(&mut self, rows: &mut Vec<Row>) -> Result<(), NoMemory>
        requires { AreNumbered (self.old.stored ++ rows.old.items) }
        ensures ok { OnOk result (rows_of self.new ≡ rows_of self.old ++ rows.old.items) }
        ensures err { OnErr result (rows_of self.new ≡ rows_of self.old) }
        ensures rows_stay { OnErr result (rows.new.items ≡ rows.old.items) }
    {
        self.make_way_for(rows);
        self.stored.append(rows)
    }

    // ---- leave out. Nothing here takes memory.

    /// The row of this number goes.
    pub fn remove(&mut self, number: u64)
        ensures { rows_of self.new ≡ filter (λ r. not (r.number == number)) (rows_of self.old) }
    {
        self.stored.remove(number);
    }

    /// The rows of these numbers go.
    pub fn remove_all(&mut self, numbers: &[u64])
        ensures { rows_of self.new ≡ filter (λ r. not (has numbers.now r.number)) (rows_of self.old) }
    {
        self.stored.remove_all(numbers);
    }

    /// The rows of a space go. That is recorded, or done at once where memory for that is refused.
    pub fn clear(&mut self, space: u64)
        ensures { rows_of self.new ≡ filter (λ r. not (r.space == space)) (rows_of self.old) }
    {
        self.keep_few();
        if let Err(_) = self.record_reset(space) {
            self.stored.clear(space);
        }
    }

    fn record_reset(&mut self, space: u64) -> Result<(), NoMemory>
        ensures ok { OnOk result (rows_of self.new ≡ filter (λ r. not (r.space == space)) (rows_of self.old)) }
        ensures err { OnErr result (rows_of self.new ≡ rows_of self.old) }
    {
        self.recorded.push(Recorded::Reset(space))?;
        Ok(())
    }

    // ---- what is learned

    /// Rows of the space were searched for by a template of these fields, and the last that was
    /// found has this number. Where many had to be looked at, more is learned of how to find such
    /// ones sooner.
    pub fn learn(&mut self, space: u64, fields: &[(Text, Value)], last: Option<u64>)
        ensures { rows_of self.new ≡ rows_of self.old }
    {
        self.stored.learn(space, fields, last);
    }

    // ---- the end of a transaction

    /// The transaction aborts: the rows that it wrote go, and so do its marks. That is recorded for
    /// each space where it holds rows, or done at once where memory for that is refused.
    pub fn abort(&mut self, x: u64)
        ensures { rows_of self.new ≡ aborted x (rows_of self.old) }
    {
        if let Err(_) = self.record(x, false) {
            self.apply_all();
            self.stored.abort(x);
        }
    }

    /// The transaction commits: the rows that it took go, and so do its marks. That is recorded for
    /// each space where it holds rows, or done at once where memory for that is refused.
    pub fn commit(&mut self, x: u64)
        ensures { rows_of self.new ≡ committed x (rows_of self.old) }
    {
        if let Err(_) = self.record(x, true) {
            self.apply_all();
            self.stored.commit(x);
        }
    }

    fn record(&mut self, x: u64, commits: bool) -> Result<(), NoMemory>
        ensures ok { OnOk result (rows_of self.new ≡ (if commits then committed x (rows_of self.old) else aborted x (rows_of self.old))) }
        ensures err { OnErr result (rows_of self.new ≡ rows_of self.old) }
    {
        self.keep_few();
        self.record_beside(x, commits)
    }

    /// While more is left to apply than may be, the oldest is applied.
    fn keep_few(&mut self)
        ensures { rows_of self.new ≡ rows_of self.old }
    {
        'oldest: while let Some(space) = self.space_over_most() {
            self.apply_first(space);
        }
    }

    /// The space of the oldest record, where there are more than may be.
    fn space_over_most(&self) -> Option<u64>
        ensures { IfSome result (λ space. is_covered self.now.recorded.items space ≡ true) }
    {
        if self.recorded.len() <= MOST {
            return None;
        }
        let space = self.recorded[0].space();
        if covers(&self.recorded, space) {
            Some(space)
        } else {
            None
        }
    }

    fn record_beside(&mut self, x: u64, commits: bool) -> Result<(), NoMemory>
        ensures ok { OnOk result (rows_of self.new ≡ (if commits then committed x (rows_of self.old) else aborted x (rows_of self.old))) }
        ensures err { OnErr result (rows_of self.new ≡ rows_of self.old) }
    {
        let decisions = self.stored.decisions(self.alloc, x, commits)?;
        let mut ended = all_of(self.alloc, &decisions)?;
        self.recorded.append(&mut ended)?;
        Ok(())
    }

    // ---- what is recorded is applied. Nothing here takes memory.

    /// The space applies what was recorded first, of what it hasn't applied.
    pub fn apply_first(&mut self, space: u64)
        ensures same { rows_of self.new ≡ rows_of self.old }
        ensures less { self.new.recorded.items ≡ without_first space self.old.recorded.items }
    {
        let Some(place) = place_of(&self.recorded, space) else {
            return;
        };
        let first = self.recorded.remove(place);
        apply(&mut self.stored, &first);
    }

    /// The same for so many of its rows at most. Whether nothing is left of it; else further calls
    /// go on.
    pub fn apply_some(&mut self, space: u64, most: usize) -> bool
        ensures same { rows_of self.new ≡ rows_of self.old }
        ensures less { self.new.recorded.items ≡ (if result then without_first space self.old.recorded.items else self.old.recorded.items) }
    {
        let Some(place) = place_of(&self.recorded, space) else {
            return true;
        };
        let first = self.recorded[place];
        if !apply_some(&mut self.stored, &first, most) {
            return false;
        }
        self.recorded.remove(place);
        true
    }

    /// The space applies all that it hasn't applied.
    pub fn apply_in(&mut self, space: u64)
        ensures same { rows_of self.new ≡ rows_of self.old }
        ensures others { self.new.recorded.items ≡ filter (λ d. not (space_of d == space)) self.old.recorded.items }
    {
        'recorded: while covers(&self.recorded, space) {
            self.apply_first(space);
        }
    }

    /// The same, but where a reset is among it: then no row of the space is found anyway.
    pub fn apply_unless_cleared(&mut self, space: u64)
        ensures same { rows_of self.new ≡ rows_of self.old }
    {
        if !is_cleared(&self.recorded, space) {
            self.apply_in(space);
        }
    }

    /// The space applies some of what it hasn't applied, in a time that doesn't grow with how many
    /// rows that changes. Whether it has applied all; else further calls go on.
    pub fn apply_part(&mut self, space: u64) -> bool
        ensures same { rows_of self.new ≡ rows_of self.old }
        ensures all { OnTrue result (is_covered self.new.recorded.items space ≡ false) }
    {
        'records: for _ in 0..MOST_RECORDS {
            if !covers(&self.recorded, space) {
                return true;
            }
            if !self.apply_some(space, MOST_ROWS) {
                return false;
            }
        }
        false
    }

    /// The space applies some of it where the first row to end, of those that are stored, is of a
    /// space that has something to apply. Whether it isn't.
    pub fn apply_due_part(&mut self, time: u64) -> bool
        ensures same { rows_of self.new ≡ rows_of self.old }
    {
        match self.space_due(time) {
            None => true,
            Some(space) => {
                let _ = self.apply_part(space);
                self.space_due(time).is_none()
            }
        }
    }

    /// While the first row to end, of those that are stored, is of a space that has something to
    /// apply, that space does. So `due` needs no look at all rows.
    pub fn apply_due(&mut self, time: u64)
        ensures same { rows_of self.new ≡ rows_of self.old }
    {
        'spaces: while let Some(space) = self.space_due(time) {
            self.apply_in(space);
        }
    }

    /// The space of the row whose end has come and comes first, of those that are stored, if it has
    /// something to apply.
    fn space_due(&self, time: u64) -> Option<u64>
        ensures { IfSome result (λ space. is_covered self.now.recorded.items space ≡ true) }
    {
        match self.stored.due(time) {
            None => None,
            Some(item) => self.space_pending(item.number),
        }
    }

    fn space_pending(&self, number: u64) -> Option<u64>
        ensures { IfSome result (λ space. is_covered self.now.recorded.items space ≡ true) }
    {
        match self.stored.get(number) {
            None => None,
            Some(row) => {
                if covers(&self.recorded, row.space) {
                    Some(row.space)
                } else {
                    None
                }
            }
        }
    }

    /// All is applied.
    pub fn apply_all(&mut self)
        ensures same { self.new.stored ≡ rows_of self.old }
        ensures none { self.new.recorded.items ≡ [] }
    {
        apply_each(&mut self.stored, &self.recorded);
        self.recorded.clear();
    }

    // ---- nothing is left recorded of what is to change. Who applies what a space has pending
    // before anything is done there never waits for this.

    fn make_way_for(&mut self, rows: &[Row])
        ensures same { rows_of self.new ≡ rows_of self.old }
        ensures none { AllByRecursion (λ (r : OfRow). is_covered self.new.recorded.items r.space ≡ false) rows.now }
        ensures numbered { AreNumbered (self.old.stored ++ rows.now) → AreNumbered (self.new.stored ++ rows.now) }
    {
        if !are_uncovered(&self.recorded, rows) {
            self.apply_all();
        }
    }

    fn make_way_in(&mut self, space: u64)
        ensures same { rows_of self.new ≡ rows_of self.old }
        ensures none { is_covered self.new.recorded.items space ≡ false }
    {
        if covers(&self.recorded, space) {
            self.apply_all();
        }
    }

    fn make_way_at(&mut self, numbers: &[u64])
        ensures same { rows_of self.new ≡ rows_of self.old }
        ensures none { AllByRecursion (λ (r : OfRow). has numbers.now r.number ≡ true → is_covered self.new.recorded.items r.space ≡ false) self.new.stored }
    {
        if !are_numbers_uncovered(&self.recorded, &self.stored, numbers) {
            self.apply_all();
        }
    }

    // ---- change in place. Only `take` and `read` take memory.

    /// Once a space has voted that nothing is changed, the transaction's read marks there go.
    pub fn release(&mut self, vote: Vote, x: u64, space: u64)
        ensures { rows_of self.new ≡ released vote x space (rows_of self.old) }
    {
        self.make_way_in(space);
        self.stored.release(vote, x, space);
    }

    /// The transaction takes the rows of these numbers, whole or not at all.
    pub fn take(&mut self, numbers: &[u64], x: u64) -> Result<(), NoMemory>
        ensures ok { OnOk result (rows_of self.new ≡ map (taken_row x numbers.now) (rows_of self.old)) }
        ensures err { OnErr result (rows_of self.new ≡ rows_of self.old) }
    {
        self.make_way_at(numbers);
        self.stored.take(numbers, x)
    }

    /// The row of this number ends then.
    pub fn extend(&mut self, number: u64, end: u64)
        ensures { rows_of self.new ≡ map (row_ending number end) (rows_of self.old) }
    {
        self.stored.extend(number, end);
    }

    /// The transaction reads the row of this number, whole or not at all.
    pub fn read(&mut self, number: u64, x: u64) -> Result<(), NoMemory>
        ensures ok { OnOk result (rows_of self.new ≡ update (λ r. r.number == number) (with_reader x) (rows_of self.old)) }
        ensures err { OnErr result (rows_of self.new ≡ rows_of self.old) }
    {
        self.make_way_at(&[number]);
        self.stored.read(number, x)
    }
}

fn apply_each(stored: &mut HintedRows, recorded: &[Recorded])
    ensures { stored.new ≡ rows_after recorded.now stored.old }
{
    'recorded: for one in recorded {
        apply(stored, one);
    }
}
