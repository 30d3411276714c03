//! The rows of all spaces. Contracts see them as a list, in the order in which they were written.
ghost use Rattle.std.specs.Prelude.{◌≡◌, ◌≤◌, ◌==◌, ◌&&◌, ◌||◌, ◌++◌, ◌∷◌, [], not, nat_le, nat_lt, map, filter, find, option_copied, option_map, fold, min, take, length, reverse, position, ℕ, false, Bool, Option, None, IfOk, OnOk, OnErr, IsTrue};
ghost use Rattle.std.specs.List.{list_any, list_all, last_or};
ghost use Rattle.std.specs.Fn.{FnReturns};
ghost use Rattle.std.specs.Option.{option_map_or};
ghost use Rattle.jsp_lease.specs.Due.{first_item, over_by};
ghost use Rattle.jsp_sight.specs.Rows.{unmarked};
ghost use Rattle.jsp_model.specs.Lookup.{update, contains as has, is_caller as calls};
ghost use Rattle.jsp_model.specs.Limits.{are_rising};
ghost use Rattle.jsp_model.specs.Changes.{aborted, committed, published as publishes, release as released};
ghost use Rattle.jsp_sight.specs.Rows.{offered, offered_among, held, entries_among, shows, shown_among, earlier as earlier_of, row_end, row_ending, with_reader, taken_row, settled, undone, released_row, is_of, is_held};

use jsp_decided::DecidedRows;
use jsp_model::{Blocked, Item, MatchSet, Row, Vote};
use jsp_scan::ScannedRows;
use jsp_types::{Classes, Entry, Items, NoMemory, Text, Value};
use std::alloc::Global;
use std::marker::Model;

/// How rows are kept.
#[derive(Clone, Copy, Debug, PartialEq, Eq)]
pub enum Keeping {
    /// In a plain list, which every call goes through.
    Scanned,
    /// Found by hints. Their keys come from the seed, which clients aren't to know.
    Hinted { seed: u64 },
}

/// The rows of all spaces.
#[derive(Drop)]
pub struct Rows {
    alloc: Global,
    kept: Storage,
}

#[derive(Drop)]
enum Storage {
    Scanned(ScannedRows),
    Hinted(DecidedRows),
}

impl Model for Rows {
    ghost use Rattle.std.specs.Prelude.{List};
    ghost use Rattle.jsp_model.specs.declared.state.Row.{Row};
    ghost use Rattle.jsp_store.specs.Storage.{rows_in};

    ghost Value = { List Row };

    ghost view = { λ r. rows_in r.kept };
}

impl Rows {
    /// No rows.
    pub fn new(alloc: Global, keeping: Keeping) -> Self
        ensures { result ≡ [] }
    {
        let kept = match keeping {
            Keeping::Scanned => Storage::Scanned(ScannedRows::new(alloc)),
            Keeping::Hinted { seed } => Storage::Hinted(DecidedRows::new(alloc, seed)),
        };
        Rows { alloc, kept }
    }

    /// These rows.
    pub fn of(alloc: Global, rows: Items<Row>, keeping: Keeping) -> Result<Rows, NoMemory>
        ensures { IfOk result (λ c. c ≡ rows) }
    {
        let mut stored = Rows::new(alloc, keeping);
        let mut rows = rows.into_vec();
        stored.append(&mut rows)?;
        Ok(stored)
    }

    /// A plain copy of these rows.
    pub fn to_items(&self) -> Result<Items<Row>, NoMemory>
        ensures { IfOk result (λ c. c ≡ self.now) }
    {
        match &self.kept {
            Storage::Scanned(rows) => rows.to_items(),
            Storage::Hinted(rows) => rows.to_items(self.alloc),
        }
    }

    // ---- append

    /// Adds rows at the end, whole or not at all. Where memory is refused they stay with the
    /// caller.
    pub fn append(&mut self, rows: &mut Vec<Row>) -> Result<(), NoMemory>
        ensures ok { OnOk result (self.new ≡ self.old ++ rows.old.items) }
        ensures err { OnErr result (self.new ≡ self.old) }
        ensures rows_stay { OnErr result (rows.new.items ≡ rows.old.items) }
    {
        match &mut self.kept {
            Storage::Scanned(stored) => stored.append(rows),
            Storage::Hinted(stored) => {
                if stored.is_above(rows.as_slice()) {
                    return stored.append(rows);
                }
                // Hints are for rising numbers. The machine's rise; others are scanned from here
                // on.
                let mut plain = ScannedRows::of(stored.to_items(self.alloc)?);
                plain.append(rows)?;
                self.kept = Storage::Scanned(plain);
                Ok(())
            }
        }
    }

    // ---- leave out. Nothing here takes memory.

    /// The row of this number goes.
    pub fn remove(&mut self, number: u64)
        ensures { self.new ≡ filter (λ r. not (r.number == number)) self.old }
    {
        match &mut self.kept {
            Storage::Scanned(rows) => rows.remove(number),
            Storage::Hinted(rows) => rows.remove(number),
        }
    }

    /// The rows of these numbers go.
    pub fn remove_all(&mut self, numbers: &[u64])
        ensures { self.new ≡ filter (λ r. not (has numbers.now r.number)) self.old }
    {
        match &mut self.kept {
            Storage::Scanned(rows) => rows.remove_all(numbers),
            Storage::Hinted(rows) => rows.remove_all(numbers),
        }
    }

    /// The rows of a space go.
    pub fn clear(&mut self, space: u64)
        ensures { self.new ≡ filter (λ r. not (r.space == space)) self.old }
    {
        match &mut self.kept {
            Storage::Scanned(rows) => rows.clear(space),
            Storage::Hinted(rows) => rows.clear(space),
        }
    }

    // ---- what is learned

    /// Rows of the space were searched for by a template of these fields, and the last that was
    /// found has this number. Where many had to be looked at, more is learned of how to find such
    /// ones sooner; where memory is refused it isn't.
    pub fn learn(&mut self, space: u64, fields: &[(Text, Value)], last: Option<u64>)
        ensures { self.new ≡ self.old }
    {
        match &mut self.kept {
            // Each row is looked at.
            Storage::Scanned(_) => {}
            Storage::Hinted(rows) => rows.learn(space, fields, last),
        }
    }

    // ---- leave out and change. Only to record a decision takes memory, and none is needed: where
    // it is refused, the decision is applied at once.

    /// The transaction aborts: the rows that it wrote go, and so do its marks. Rows that are found
    /// by hints follow when their space applies it.
    pub fn abort(&mut self, x: u64)
        ensures { self.new ≡ aborted x self.old }
    {
        match &mut self.kept {
            Storage::Scanned(rows) => rows.abort(x),
            Storage::Hinted(rows) => rows.abort(x),
        }
    }

    /// The transaction commits: the rows that it took go, and so do its marks. Rows that are found
    /// by hints follow when their space applies it.
    pub fn commit(&mut self, x: u64)
        ensures { self.new ≡ committed x self.old }
    {
        match &mut self.kept {
            Storage::Scanned(rows) => rows.commit(x),
            Storage::Hinted(rows) => rows.commit(x),
        }
    }

    // ---- what is decided is applied. Nothing here takes memory.

    /// How many decisions the space hasn't applied, a reset among them.
    pub fn pending(&self, space: u64) -> usize {
        match &self.kept {
            Storage::Scanned(_) => 0,
            Storage::Hinted(rows) => rows.pending(space),
        }
    }

    /// Whether any space has one that it hasn't applied.
    pub fn has_pending(&self) -> bool {
        match &self.kept {
            Storage::Scanned(_) => false,
            Storage::Hinted(rows) => rows.has_pending(),
        }
    }

    /// The space applies all decisions that it hasn't applied, a reset too, which none of the other
    /// calls can tell.
    pub fn apply_in(&mut self, space: u64)
        ensures { self.new ≡ self.old }
    {
        match &mut self.kept {
            Storage::Scanned(_) => {}
            Storage::Hinted(rows) => rows.apply_in(space),
        }
    }

    /// The same, but where the space was reset: then none of its rows is found anyway.
    pub fn apply_unless_cleared(&mut self, space: u64)
        ensures { self.new ≡ self.old }
    {
        match &mut self.kept {
            Storage::Scanned(_) => {}
            Storage::Hinted(rows) => rows.apply_unless_cleared(space),
        }
    }

    /// The space applies some of them, in a time that doesn't grow with how many rows they change.
    /// Whether it has applied all.
    pub fn apply_part(&mut self, space: u64) -> bool
        ensures { self.new ≡ self.old }
    {
        match &mut self.kept {
            Storage::Scanned(_) => true,
            Storage::Hinted(rows) => rows.apply_part(space),
        }
    }

    /// The space of a row that ends by then and comes first applies some of them. Whether it has
    /// none to apply.
    pub fn apply_due_part(&mut self, time: u64) -> bool
        ensures { self.new ≡ self.old }
    {
        match &mut self.kept {
            Storage::Scanned(_) => true,
            Storage::Hinted(rows) => rows.apply_due_part(time),
        }
    }

    /// Where rows end that are about to be changed by decisions, their spaces apply them, so that
    /// what is due is found without a look at all rows.
    pub fn apply_due(&mut self, time: u64)
        ensures { self.new ≡ self.old }
    {
        match &mut self.kept {
            Storage::Scanned(_) => {}
            Storage::Hinted(rows) => rows.apply_due(time),
        }
    }

    /// All spaces apply what they haven't.
    pub fn apply_all(&mut self)
        ensures { self.new ≡ self.old }
    {
        match &mut self.kept {
            Storage::Scanned(_) => {}
            Storage::Hinted(rows) => rows.apply_all(),
        }
    }

    // ---- change in place. Only `take` and `read` take memory.

    /// Once a space has voted that nothing is changed, the transaction's read marks there go.
    pub fn release(&mut self, vote: Vote, x: u64, space: u64)
        ensures { self.new ≡ released vote x space self.old }
    {
        match &mut self.kept {
            Storage::Scanned(rows) => rows.release(vote, x, space),
            Storage::Hinted(rows) => rows.release(vote, x, space),
        }
    }

    /// The transaction takes the rows of these numbers, whole or not at all.
    pub fn take(&mut self, numbers: &[u64], x: u64) -> Result<(), NoMemory>
        ensures ok { OnOk result (self.new ≡ map (taken_row x numbers.now) self.old) }
        ensures err { OnErr result (self.new ≡ self.old) }
    {
        match &mut self.kept {
            Storage::Scanned(rows) => rows.take(numbers, x),
            Storage::Hinted(rows) => rows.take(numbers, x),
        }
    }

    /// The row of this number ends then.
    pub fn extend(&mut self, number: u64, end: u64)
        ensures { self.new ≡ map (row_ending number end) self.old }
    {
        match &mut self.kept {
            Storage::Scanned(rows) => rows.extend(number, end),
            Storage::Hinted(rows) => rows.extend(number, end),
        }
    }

    /// The transaction reads the row of this number, whole or not at all.
    pub fn read(&mut self, below: u64, number: u64, x: u64) -> Result<(), NoMemory>
        requires { IsTrue (are_rising 0 below (map (λ r. r.number) self.old)) }
        ensures ok { OnOk result (self.new ≡ update (λ r. r.number == number) (with_reader x) self.old) }
        ensures err { OnErr result (self.new ≡ self.old) }
    {
        match &mut self.kept {
            Storage::Scanned(rows) => rows.read(below, number, x),
            Storage::Hinted(rows) => rows.read(number, x),
        }
    }

    // ---- find

    /// The row of this number, but its marks may be older.
    pub fn get(&self, number: u64) -> Option<&Row>
        ensures { option_map unmarked (option_copied result) ≡ option_map unmarked (find (λ r. r.number == number) self.now) }
    {
        match &self.kept {
            Storage::Scanned(rows) => rows.get(number),
            Storage::Hinted(rows) => rows.get(number),
        }
    }

    /// Whether a row has this number.
    pub fn has(&self, number: u64) -> bool
        ensures { result ≡ list_any (λ r. r.number == number) self.now }
    {
        match &self.kept {
            Storage::Scanned(rows) => rows.has(number),
            Storage::Hinted(rows) => rows.has(number),
        }
    }

    /// How many rows a space has.
    pub fn count_in(&self, space: u64) -> usize
        ensures { result ≡ length (filter (λ r. r.space == space) self.now) }
    {
        match &self.kept {
            Storage::Scanned(rows) => rows.count_in(space),
            Storage::Hinted(rows) => rows.count_in(space),
        }
    }

    /// Whether the transaction wrote or took a row there.
    pub fn has_changed(&self, x: u64, space: u64) -> bool
        ensures { result ≡ list_any (λ r. r.space == space && (calls r.writer x || calls r.taker x)) self.now }
    {
        match &self.kept {
            Storage::Scanned(rows) => rows.has_changed(x, space),
            Storage::Hinted(rows) => rows.has_changed(x, space),
        }
    }

    /// Copies of the rows that the transaction's commit publishes: it wrote them and didn't take
    /// them.
    pub fn published(&self, alloc: Global, x: u64) -> Result<Vec<Row>, NoMemory>
        ensures { IfOk result (λ v. v.items ≡ publishes x self.now) }
    {
        match &self.kept {
            Storage::Scanned(rows) => rows.published(alloc, x),
            Storage::Hinted(rows) => rows.published(alloc, x),
        }
    }

    /// How many numbers `held_by` would answer, in the time that the spaces of the transaction
    /// take; none where rows are looked at one by one.
    pub fn held_count(&self, x: u64, space: Option<u64>) -> usize {
        match &self.kept {
            Storage::Scanned(_) => 0,
            Storage::Hinted(rows) => rows.held_count(x, space),
        }
    }

    /// Numbers among which are those of all rows that the transaction wrote, took or read, in a
    /// space or, where none is named, in all.
    pub fn held_by(&self, alloc: Global, x: u64, space: Option<u64>) -> Result<Vec<u64>, NoMemory>
        ensures { IfOk result (λ v. IsTrue (list_all (λ r. not (is_of space r && is_held x r) || has v.items r.number) self.now)) }
    {
        match &self.kept {
            Storage::Scanned(rows) => rows.held_by(alloc, x, space),
            Storage::Hinted(rows) => rows.held_by(alloc, x, space),
        }
    }

    /// The row whose end has come and comes first, as an item.
    pub fn due(&self, time: u64) -> Option<Item>
        ensures { result ≡ first_item (over_by time (map row_end self.now)) }
    {
        match &self.kept {
            Storage::Scanned(rows) => rows.due(time),
            Storage::Hinted(rows) => rows.due(time),
        }
    }

    /// Whether a row has this number, and a test passes who wrote it.
    pub fn is_written<F: Fn(Option<u64>) -> bool>(&self, number: u64, test: F) -> bool
        requires { F.IsAlwaysCallable test }
        ensures { (p : Option ℕ → Bool) → ((x : Option ℕ) (b : Bool) → FnReturns F.Fn test (x, tt) b → b ≡ p x) → result ≡ list_any (λ r. r.number == number && p r.writer) self.now }
    {
        match &self.kept {
            Storage::Scanned(rows) => rows.is_written(number, test),
            Storage::Hinted(rows) => rows.is_written(number, test),
        }
    }

    /// The spaces of the rows of this number.
    pub fn spaces_of(&self, alloc: Global, number: u64) -> Result<Vec<u64>, NoMemory>
        ensures { IfOk result (λ v. v.items ≡ map (λ r. r.space) (filter (λ r. r.number == number) self.now)) }
    {
        match &self.kept {
            Storage::Scanned(rows) => rows.spaces_of(alloc, number),
            Storage::Hinted(rows) => rows.spaces_of(alloc, number),
        }
    }

    /// The entries of the rows of these numbers, in the order of the rows.
    pub fn entries_of(&self, alloc: Global, numbers: &[u64]) -> Result<Items<Entry>, NoMemory>
        ensures { IfOk result (λ es. es ≡ entries_among numbers.now self.now) }
    {
        match &self.kept {
            Storage::Scanned(rows) => rows.entries_of(alloc, numbers),
            Storage::Hinted(rows) => rows.entries_of(alloc, numbers),
        }
    }

    /// Whether there is none.
    pub fn has_none(&self, classes: &Classes, blocked: &Blocked) -> bool
        ensures { result ≡ (length (offered_among classes.now blocked.now self.now) == 0) }
    {
        match &self.kept {
            Storage::Scanned(rows) => rows.has_none(classes, blocked),
            Storage::Hinted(rows) => rows.has_none(classes, blocked),
        }
    }

    /// Whether a row that the request wants is in conflict.
    pub fn has_conflict(&self, classes: &Classes, blocked: &Blocked) -> bool
        ensures { result ≡ list_any (held classes.now blocked.now) self.now }
    {
        match &self.kept {
            Storage::Scanned(rows) => rows.has_conflict(classes, blocked),
            Storage::Hinted(rows) => rows.has_conflict(classes, blocked),
        }
    }

    /// The numbers of the first rows that the request may be given, as many as it asks for.
    pub fn choose(
        &self,
        alloc: Global,
        classes: &Classes,
        blocked: &Blocked,
    ) -> Result<Items<u64>, NoMemory>
        ensures { IfOk result (λ ns. ns ≡ take blocked.now.most (offered_among classes.now blocked.now self.now)) }
    {
        match &self.kept {
            Storage::Scanned(rows) => rows.choose(alloc, classes, blocked),
            Storage::Hinted(rows) => rows.choose(alloc, classes, blocked),
        }
    }

    /// How many rows the request is given: as many as it asks for, or all there are.
    pub fn count_choice(&self, classes: &Classes, blocked: &Blocked) -> usize
        ensures { result ≡ min blocked.now.most (length (offered_among classes.now blocked.now self.now)) }
    {
        match &self.kept {
            Storage::Scanned(rows) => rows.count_choice(classes, blocked),
            Storage::Hinted(rows) => rows.count_choice(classes, blocked),
        }
    }

    /// Whether the row of this number is available to the request.
    pub fn is_available(&self, classes: &Classes, blocked: &Blocked, number: u64) -> bool
        ensures { result ≡ option_map_or (offered classes.now blocked.now) (find (λ r. r.number == number) self.now) false }
    {
        match &self.kept {
            Storage::Scanned(rows) => rows.is_available(classes, blocked, number),
            Storage::Hinted(rows) => rows.is_available(classes, blocked, number),
        }
    }

    /// Whether the row of this number may be given to the request.
    pub fn may_be_given(&self, classes: &Classes, blocked: &Blocked, number: u64) -> bool
        ensures { result ≡ has (offered_among classes.now blocked.now self.now) number }
    {
        match &self.kept {
            Storage::Scanned(rows) => rows.may_be_given(classes, blocked, number),
            Storage::Hinted(rows) => rows.may_be_given(classes, blocked, number),
        }
    }

    /// The entries of the first rows that a match set may still show, so many.
    pub fn entries_shown(
        &self,
        alloc: Global,
        classes: &Classes,
        set: &MatchSet,
        most: usize,
    ) -> Result<Items<Entry>, NoMemory>
        ensures { IfOk result (λ es. es ≡ map (λ row. row.entry) (take most (filter (shows classes.now set.now) self.now))) }
    {
        match &self.kept {
            Storage::Scanned(rows) => rows.entries_shown(alloc, classes, set, most),
            Storage::Hinted(rows) => rows.entries_shown(alloc, classes, set, most),
        }
    }

    /// Whether a match set may still show more rows than so many.
    pub fn shows_more(&self, classes: &Classes, set: &MatchSet, most: usize) -> bool
        ensures { result ≡ nat_lt most (length (filter (shows classes.now set.now) self.now)) }
    {
        match &self.kept {
            Storage::Scanned(rows) => rows.shows_more(classes, set, most),
            Storage::Hinted(rows) => rows.shows_more(classes, set, most),
        }
    }

    /// The number of the last of the first rows that a match set may still show.
    pub fn last_shown(&self, classes: &Classes, set: &MatchSet, most: usize) -> Option<u64>
        ensures { result ≡ last_or None (map (λ row. row.number) (take most (filter (shows classes.now set.now) self.now))) }
    {
        match &self.kept {
            Storage::Scanned(rows) => rows.last_shown(classes, set, most),
            Storage::Hinted(rows) => rows.last_shown(classes, set, most),
        }
    }
}
