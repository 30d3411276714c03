//! What is found among rows. Only what answers in lists takes memory.
ghost use Rattle.std.specs.Prelude.{◌≡◌, ◌==◌, ◌&&◌, ◌||◌, ℕ, true, false, not, map, filter, find, option_copied, option_map, min, take, length, nat_lt, List, Bool, Option, None, IfOk, IfSome};
ghost use Rattle.std.specs.Fn.{FnReturns};
ghost use Rattle.std.specs.Option.{option_map_or};
ghost use Rattle.std.specs.List.{list_any, list_all, last_or};
ghost use Rattle.jsp_lease.specs.Due.{first_item, over_by};
ghost use Rattle.jsp_model.specs.declared.state.Row.{Row as OfRow};
ghost use Rattle.jsp_model.specs.Lookup.{contains as has, is_caller as calls};
ghost use Rattle.jsp_model.specs.Changes.{published as publishes};
ghost use Rattle.jsp_sight.specs.Rows.{offered, offered_among, held, shows, row_end, entries_among, is_of, is_held};
ghost use Rattle.jsp_decided.specs.Recording.{covers as is_covered, rows_after, is_of_other as is_other};
ghost use Rattle.jsp_decided.specs.Decided.{rows_of, row_after, pending_in};
ghost use Rattle.jsp_sight.specs.Rows.{unmarked};

use crate::DecidedRows;
use crate::after::left_after;
use crate::pending::{are_numbers_uncovered, count_in, covers, is_cleared};
use crate::recorded::{Recorded, apply_to_list};
use crate::scanning::{any_at, count_at, last_at};
use crate::tests::{ChangedBy, InConflict, InSpace, IsLeft, Offered, Shown, is_available};
use jsp_index::HintedRows;
use jsp_model::{Blocked, Item, MatchSet, Row};
use jsp_scan::ScannedRows;
use jsp_types::{Classes, Entry, Items, NoMemory};
use std::alloc::Global;

impl DecidedRows {
    /// How much the space hasn't applied of what is recorded. Takes no memory.
    pub fn pending(&self, space: u64) -> usize
        ensures { result ≡ length (pending_in self.now.recorded.items space) }
    {
        count_in(&self.recorded, space)
    }

    /// Whether any space has one that it hasn't applied.
    pub fn has_pending(&self) -> bool
        ensures { result ≡ not (length self.now.recorded.items == 0) }
    {
        !self.recorded.is_empty()
    }

    /// A plain copy of all rows.
    pub fn to_items(&self, alloc: Global) -> Result<Items<Row>, NoMemory>
        ensures { IfOk result (λ rows. rows ≡ rows_of self.now) }
    {
        let mut rows = self.stored.to_items(alloc)?;
        apply_each(&mut rows.items, &self.recorded);
        Ok(rows)
    }

    fn plain(&self, alloc: Global) -> Result<ScannedRows, NoMemory>
        ensures { IfOk result (λ rows. rows ≡ rows_of self.now) }
    {
        let rows = self.to_items(alloc)?;
        Ok(ScannedRows::of(rows))
    }

    // ---- by number

    /// The row of this number, but its marks may be older.
    pub fn get(&self, number: u64) -> Option<&Row>
        ensures { option_map unmarked (option_copied result) ≡ option_map unmarked (find (λ r. r.number == number) (rows_of self.now)) }
    {
        // Which says that each number stands once.
        let _ = self.stored.places();
        match self.stored.get(number) {
            None => None,
            Some(row) => left_of(&self.recorded, row),
        }
    }

    /// Whether a row has this number.
    pub fn has(&self, number: u64) -> bool
        ensures { result ≡ list_any (λ r. r.number == number) (rows_of self.now) }
    {
        self.get(number).is_some()
    }

    /// Whether a row has this number, and a test passes who wrote it.
    pub fn is_written<F: Fn(Option<u64>) -> bool>(&self, number: u64, test: F) -> bool
        requires { F.IsAlwaysCallable test }
        ensures { (p : Option ℕ → Bool) → ((x : Option ℕ) (b : Bool) → FnReturns F.Fn test (x, tt) b → b ≡ p x) → result ≡ list_any (λ r. r.number == number && p r.writer) (rows_of self.now) }
    {
        // Which says that each number stands once.
        let _ = self.stored.places();
        match self.stored.get(number) {
            None => false,
            Some(row) => match left_after(&self.recorded, row) {
                None => false,
                Some(left) => test(left.writer),
            },
        }
    }

    /// The spaces of the rows of this number.
    pub fn spaces_of(&self, alloc: Global, number: u64) -> Result<Vec<u64>, NoMemory>
        ensures { IfOk result (λ v. v.items ≡ map (λ r. r.space) (filter (λ r. r.number == number) (rows_of self.now))) }
    {
        // Which says that each number stands once.
        let _ = self.stored.places();
        let mut spaces = Vec::new(alloc);
        let Some(row) = self.get(number) else {
            return Ok(spaces);
        };
        spaces.push(row.space)?;
        Ok(spaces)
    }

    /// Whether the row of this number is available to the request.
    pub fn is_available(&self, classes: &Classes, blocked: &Blocked, number: u64) -> bool
        ensures { result ≡ option_map_or (offered classes.now blocked.now) (find (λ r. r.number == number) (rows_of self.now)) false }
    {
        // Which says that each number stands once.
        let _ = self.stored.places();
        match self.stored.get(number) {
            None => false,
            Some(row) => is_available(&self.recorded, classes, blocked, row),
        }
    }

    /// Whether the row of this number may be given to the request.
    pub fn may_be_given(&self, classes: &Classes, blocked: &Blocked, number: u64) -> bool
        ensures { result ≡ has (offered_among classes.now blocked.now (rows_of self.now)) number }
    {
        // Which says that each number stands once.
        let _ = self.stored.places();
        match self.stored.get(number) {
            None => false,
            Some(row) => is_available(&self.recorded, classes, blocked, row),
        }
    }

    /// The entries of the rows of these numbers, in the order of the rows.
    pub fn entries_of(&self, alloc: Global, numbers: &[u64]) -> Result<Items<Entry>, NoMemory>
        ensures { IfOk result (λ es. es ≡ entries_among numbers.now (rows_of self.now)) }
    {
        if are_numbers_uncovered(&self.recorded, &self.stored, numbers) {
            self.stored.entries_of(alloc, numbers)
        } else {
            self.plain(alloc)?.entries_of(alloc, numbers)
        }
    }

    // ---- of a transaction, and by end

    /// How many numbers `held_by` would answer.
    pub fn held_count(&self, x: u64, space: Option<u64>) -> usize {
        self.stored.held_count(x, space)
    }

    /// Numbers among which are those of all rows that the transaction wrote, took or read, in a
    /// space or, where none is named, in all.
    pub fn held_by(&self, alloc: Global, x: u64, space: Option<u64>) -> Result<Vec<u64>, NoMemory>
        ensures { IfOk result (λ v. list_all (λ r. not (is_of space r && is_held x r) || has v.items r.number) (rows_of self.now) ≡ true) }
    {
        self.stored.held_by(alloc, x, space)
    }

    /// Copies of the rows that a commit of the transaction publishes.
    pub fn published(&self, alloc: Global, x: u64) -> Result<Vec<Row>, NoMemory>
        ensures { IfOk result (λ v. v.items ≡ publishes x (rows_of self.now)) }
    {
        if are_others(&self.recorded, x) {
            let mut rows = self.stored.published(alloc, x)?;
            apply_each(&mut rows, &self.recorded);
            Ok(rows)
        } else {
            self.plain(alloc)?.published(alloc, x)
        }
    }

    /// The row whose end has come and comes first, as an item. Only where that row goes, of those
    /// that are stored, each is looked at.
    pub fn due(&self, time: u64) -> Option<Item>
        ensures { result ≡ first_item (over_by time (map row_end (rows_of self.now))) }
    {
        // Which says that each number stands once.
        let _ = self.stored.places();
        let Some(item) = self.stored.due(time) else {
            return None;
        };
        if self.has(item.number) {
            return Some(item);
        }
        let recorded = self.recorded.as_slice();
        self.stored.due_of(time, &IsLeft { recorded })
    }

    // ---- in a space

    /// How many rows a space has.
    pub fn count_in(&self, space: u64) -> usize
        ensures { result ≡ length (filter (λ r. r.space == space) (rows_of self.now)) }
    {
        if covers(&self.recorded, space) {
            self.count_left(space)
        } else {
            self.stored.count_in(space)
        }
    }

    fn count_left(&self, space: u64) -> usize
        ensures { result ≡ length (filter (λ r. r.space == space) (rows_of self.now)) }
    {
        if is_cleared(&self.recorded, space) {
            return 0;
        }
        let recorded = self.recorded.as_slice();
        count_at(self.stored.places(), &InSpace { recorded, space })
    }

    /// Whether the transaction wrote or took a row there.
    pub fn has_changed(&self, x: u64, space: u64) -> bool
        ensures { result ≡ list_any (λ r. r.space == space && (calls r.writer x || calls r.taker x)) (rows_of self.now) }
    {
        if covers(&self.recorded, space) {
            let test = ChangedBy {
                recorded: &self.recorded,
                transaction: x,
                space,
            };
            any_at(self.stored.places(), &test)
        } else {
            self.stored.has_changed(x, space)
        }
    }

    /// Whether there is none that the request may be given.
    pub fn has_none(&self, classes: &Classes, blocked: &Blocked) -> bool
        ensures { result ≡ (length (offered_among classes.now blocked.now (rows_of self.now)) == 0) }
    {
        if covers(&self.recorded, blocked.space) {
            self.count_offered(classes, blocked) == 0
        } else {
            self.stored.has_none(classes, blocked)
        }
    }

    /// Whether a row that the request wants is in conflict.
    pub fn has_conflict(&self, classes: &Classes, blocked: &Blocked) -> bool
        ensures { result ≡ list_any (held classes.now blocked.now) (rows_of self.now) }
    {
        if covers(&self.recorded, blocked.space) {
            self.has_withheld(classes, blocked)
        } else {
            self.stored.has_conflict(classes, blocked)
        }
    }

    fn has_withheld(&self, classes: &Classes, blocked: &Blocked) -> bool
        ensures { result ≡ list_any (held classes.now blocked.now) (rows_of self.now) }
    {
        if is_cleared(&self.recorded, blocked.space) {
            return false;
        }
        let test = InConflict {
            recorded: &self.recorded,
            classes,
            blocked,
        };
        any_at(self.stored.places(), &test)
    }

    /// The numbers of the first rows that the request may be given, as many as it asks for.
    pub fn choose(
        &self,
        alloc: Global,
        classes: &Classes,
        blocked: &Blocked,
    ) -> Result<Items<u64>, NoMemory>
        ensures { IfOk result (λ ns. ns ≡ take blocked.now.most (offered_among classes.now blocked.now (rows_of self.now))) }
    {
        if covers(&self.recorded, blocked.space) {
            self.plain(alloc)?.choose(alloc, classes, blocked)
        } else {
            self.stored.choose(alloc, classes, blocked)
        }
    }

    /// How many rows the request is given: as many as it asks for, or all there are.
    pub fn count_choice(&self, classes: &Classes, blocked: &Blocked) -> usize
        ensures { result ≡ min blocked.now.most (length (offered_among classes.now blocked.now (rows_of self.now))) }
    {
        let most = blocked.most as usize;
        if covers(&self.recorded, blocked.space) {
            most.min(self.count_offered(classes, blocked))
        } else {
            self.stored.count_available(classes, blocked, most)
        }
    }

    fn count_offered(&self, classes: &Classes, blocked: &Blocked) -> usize
        ensures { result ≡ length (offered_among classes.now blocked.now (rows_of self.now)) }
    {
        if is_cleared(&self.recorded, blocked.space) {
            return 0;
        }
        let test = Offered {
            recorded: &self.recorded,
            classes,
            blocked,
        };
        count_at(self.stored.places(), &test)
    }

    /// The entries of the first rows that a match set may still show, so many.
    pub fn entries_shown(
        &self,
        alloc: Global,
        classes: &Classes,
        set: &MatchSet,
        most: usize,
    ) -> Result<Items<Entry>, NoMemory>
        ensures { IfOk result (λ es. es ≡ map (λ row. row.entry) (take most (filter (shows classes.now set.now) (rows_of self.now)))) }
    {
        if covers(&self.recorded, set.space) {
            self.plain(alloc)?.entries_shown(alloc, classes, set, most)
        } else {
            self.stored.entries_shown(alloc, classes, set, most)
        }
    }

    /// The number of the last of the first rows that a match set may still show.
    pub fn last_shown(&self, classes: &Classes, set: &MatchSet, most: usize) -> Option<u64>
        ensures { result ≡ last_or None (map (λ row. row.number) (take most (filter (shows classes.now set.now) (rows_of self.now)))) }
    {
        if covers(&self.recorded, set.space) {
            let test = Shown {
                recorded: &self.recorded,
                classes,
                set,
            };
            last_at(self.stored.places(), &test, most)
        } else {
            self.stored.last_shown(classes, set, most)
        }
    }

    /// Whether a match set may still show more rows than so many.
    pub fn shows_more(&self, classes: &Classes, set: &MatchSet, most: usize) -> bool
        ensures { result ≡ nat_lt most (length (filter (shows classes.now set.now) (rows_of self.now))) }
    {
        if covers(&self.recorded, set.space) {
            let test = Shown {
                recorded: &self.recorded,
                classes,
                set,
            };
            most < count_at(self.stored.places(), &test)
        } else {
            shows_more(&self.stored, classes, set, most)
        }
    }
}

fn shows_more(rows: &HintedRows, classes: &Classes, set: &MatchSet, most: usize) -> bool
    ensures { result ≡ nat_lt most (length (filter (shows classes.now set.now) rows.now)) }
{
    if rows.count_in(set.space) <= most {
        return false;
    }
    most < rows.count_shown(classes, set, most + 1)
}

/// The row, unless it goes.
fn left_of<'a>(recorded: &[Recorded], row: &'a Row) -> Option<&'a Row>
    ensures { option_map unmarked (option_copied result) ≡ option_map unmarked (row_after recorded.now row.now) }
{
    match left_after(recorded, row) {
        None => None,
        Some(_) => Some(row),
    }
}

/// Whether none is the end of this transaction.
fn are_others(recorded: &[Recorded], x: u64) -> bool
    ensures { result ≡ list_all (is_other x) recorded.now }
{
    recorded.iter().all(|one| one.is_of_other(x))
}

fn apply_each(rows: &mut Vec<Row>, recorded: &[Recorded])
    ensures { rows.new.items ≡ rows_after recorded.now rows.old.items }
{
    'recorded: for one in recorded {
        apply_to_list(rows, one);
    }
}
