//! What is found among rows by hints. Only what answers in lists takes memory.
ghost use Rattle.std.specs.Prelude.{◌≡◌, ◌==◌, ◌&&◌, ◌||◌, ℕ, true, not, map, filter, find, option_copied, take, length, slice_get, List, Bool, None, if◌then◌else◌, IfOk};
ghost use Rattle.std.specs.List.{list_any, list_all, last_or};
ghost use Rattle.jsp_lease.specs.Due.{first_item, over_by};
ghost use Rattle.jsp_table.specs.Places.{living};
ghost use Rattle.jsp_index.specs.Numbered.{AreNumbered};
ghost use Rattle.jsp_model.specs.declared.state.Row.{Row as OfRow};
ghost use Rattle.jsp_model.specs.Lookup.{contains as has, is_caller as calls};
ghost use Rattle.jsp_model.specs.Changes.{published};
ghost use Rattle.jsp_index.specs.Passed.{may_have};
ghost use Rattle.jsp_index.specs.Finding.{is_asked};
ghost use Rattle.jsp_sight.specs.Rows.{offered, offered_among, held, shows, row_end, entries_among, is_of, is_held};

use crate::holding::{count_listed, listed, numbers_in};
use crate::listing::{entries_named, named_by, rows_held};
use crate::row_tests::{ChangedBy, InConflict, Offered, OneOf, PublishedBy, Shown};
use crate::searching::Behind;
use crate::starts::Unseen;
use crate::walking::{Sought, entries_found, numbers_found, walk};
use crate::{HintedRows, NoMemory};
use jsp_model::{Blocked, Item, MatchSet, Row};
use jsp_sight::is_take;
use jsp_table::Test;
use jsp_types::{Classes, Entry, Items};
use std::alloc::Global;

impl HintedRows {
    /// How many rows a space has.
    pub fn count_in(&self, space: u64) -> usize
        ensures { result ≡ length (filter (λ r. r.space == space) self.now) }
    {
        self.rows.count_in(space)
    }

    /// The row of this number.
    pub fn get(&self, number: u64) -> Option<&Row>
        ensures { option_copied result ≡ find (λ r. r.number == number) self.now }
    {
        self.rows.get(number)
    }

    /// The row whose end has come and comes first, as an item.
    pub fn due(&self, time: u64) -> Option<Item>
        ensures { result ≡ first_item (over_by time (map row_end self.now)) }
    {
        self.rows.keyed().due(time)
    }

    /// The same of those that pass a test. Each row is looked at.
    pub fn due_of<P: Test<Row>>(&self, time: u64, test: &P) -> Option<Item>
        ensures { result ≡ first_item (over_by time (map row_end (filter (P.is_passed test.now) self.now))) }
    {
        self.rows.keyed().due_of(time, test)
    }

    /// The row that the request may be given whose number is the least.
    pub fn first_available(&self, classes: &Classes, blocked: &Blocked) -> Option<u64>
        ensures { result ≡ slice_get (offered_among classes.now blocked.now self.now) 0 }
    {
        let test = Offered { classes, blocked };
        let row = self.first_sought(&sought_by(classes, blocked), 0, &test)?;
        Some(row.number)
    }

    /// Whether there is none.
    pub fn has_none(&self, classes: &Classes, blocked: &Blocked) -> bool
        ensures { result ≡ (length (offered_among classes.now blocked.now self.now) == 0) }
    {
        self.first_available(classes, blocked).is_none()
    }

    /// Whether a row that the request wants is in conflict.
    pub fn has_conflict(&self, classes: &Classes, blocked: &Blocked) -> bool
        ensures { result ≡ list_any (held classes.now blocked.now) self.now }
    {
        let templates = blocked.templates.as_slice();
        let test = InConflict { classes, blocked };
        let behind = Behind {
            number: 0,
            unseen: Unseen::Nothing,
            last: None,
            among: None,
        };
        self.rows
            .first_behind(classes, blocked.space, templates, &behind, &test)
            .is_some()
    }

    /// The numbers of the first rows that the request may be given, as many as it asks for.
    pub fn choose(
        &self,
        alloc: Global,
        classes: &Classes,
        blocked: &Blocked,
    ) -> Result<Items<u64>, NoMemory>
        ensures { IfOk result (λ ns. ns ≡ take blocked.now.most (offered_among classes.now blocked.now self.now)) }
    {
        let sought = sought_by(classes, blocked);
        let test = Offered { classes, blocked };
        let most = blocked.most as usize;
        let numbers = numbers_found(alloc, self, &sought, 0, &test, most)?;
        Ok(numbers)
    }

    /// How many rows the request may be given, up to so many.
    pub fn count_available(&self, classes: &Classes, blocked: &Blocked, most: usize) -> usize
        ensures { result ≡ length (take most (offered_among classes.now blocked.now self.now)) }
    {
        let sought = sought_by(classes, blocked);
        let test = Offered { classes, blocked };
        walk(self, &sought, 0, &test, most).count
    }

    /// The entries of the first rows that a match set may still show, so many.
    pub fn entries_shown(
        &self,
        alloc: Global,
        classes: &Classes,
        set: &MatchSet,
        most: usize,
    ) -> Result<Items<Entry>, NoMemory>
        ensures { IfOk result (λ es. es ≡ map (λ row. row.entry) (take most (filter (shows classes.now set.now) self.now))) }
    {
        let sought = sought_in(classes, set);
        let test = Shown { classes, set };
        let entries = entries_found(alloc, self, &sought, set.cursor, &test, most)?;
        Ok(entries)
    }

    /// How many rows a match set may still show, up to so many.
    pub fn count_shown(&self, classes: &Classes, set: &MatchSet, most: usize) -> usize
        ensures { result ≡ length (take most (filter (shows classes.now set.now) self.now)) }
    {
        let sought = sought_in(classes, set);
        let test = Shown { classes, set };
        walk(self, &sought, set.cursor, &test, most).count
    }

    /// The number of the last of the first rows that a match set may still show.
    pub fn last_shown(&self, classes: &Classes, set: &MatchSet, most: usize) -> Option<u64>
        ensures { result ≡ last_or None (map (λ row. row.number) (take most (filter (shows classes.now set.now) self.now))) }
    {
        let sought = sought_in(classes, set);
        let test = Shown { classes, set };
        walk(self, &sought, set.cursor, &test, most).last
    }

    /// Whether the transaction wrote or took a row there.
    pub fn has_changed(&self, x: u64, space: u64) -> bool
        ensures { result ≡ list_any (λ r. r.space == space && (calls r.writer x || calls r.taker x)) self.now }
    {
        let rows = self.rows.keyed();
        // Which says that no number is 0.
        let _ = rows.places();
        let Some(numbers) = listed(&self.holders, x, space) else {
            return false;
        };
        let test = ChangedBy {
            transaction: x,
            space,
        };
        rows.first_named(numbers, 0, &test).is_some()
    }

    /// How many numbers `held_by` would answer.
    pub fn held_count(&self, x: u64, space: Option<u64>) -> usize {
        match self.holders.get(&x) {
            None => 0,
            Some(holdings) => count_listed(holdings.as_slice(), space),
        }
    }

    /// Numbers among which are those of all rows that the transaction wrote, took or read, in a
    /// space or, where none is named, in all.
    pub fn held_by(&self, alloc: Global, x: u64, space: Option<u64>) -> Result<Vec<u64>, NoMemory>
        ensures { IfOk result (λ v. list_all (λ r. not (is_of space r && is_held x r) || has v.items r.number) self.now ≡ true) }
    {
        match self.holders.get(&x) {
            None => Ok(Vec::new(alloc)),
            Some(holdings) => numbers_in(alloc, holdings.as_slice(), space),
        }
    }

    /// Copies of the rows that a commit of the transaction publishes.
    pub fn published(&self, alloc: Global, x: u64) -> Result<Vec<Row>, NoMemory>
        ensures { IfOk result (λ v. v.items ≡ published x self.now) }
    {
        let Some(holdings) = self.holders.get(&x) else {
            return Ok(Vec::new(alloc));
        };
        let test = PublishedBy { transaction: x };
        rows_held(alloc, self.rows.keyed(), holdings.as_slice(), &test)
    }

    /// The entries of the rows of these numbers, in the order of the rows.
    pub fn entries_of(&self, alloc: Global, numbers: &[u64]) -> Result<Items<Entry>, NoMemory>
        ensures { IfOk result (λ es. es ≡ entries_among numbers.now self.now) }
    {
        let named = named_by(alloc, numbers)?;
        let entries = entries_named(alloc, self.rows.keyed(), &named, &OneOf { numbers })?;
        Ok(entries)
    }

    /// The places of the rows in their order, some of which are empty. Only for what goes over all
    /// rows.
    pub fn places(&self) -> &[Option<Row>]
        ensures rows { living result.now ≡ self.now }
        ensures numbered { AreNumbered self.now }
    {
        self.rows.places()
    }

    /// Copies of all rows. Only for what goes over all of them.
    pub fn to_items(&self, alloc: Global) -> Result<Items<Row>, NoMemory>
        ensures { IfOk result (λ rows. rows ≡ self.now) }
    {
        self.rows.keyed().to_items(alloc)
    }
}

/// What the request asks for.
fn sought_by<'a>(classes: &'a Classes, blocked: &'a Blocked) -> Sought<'a>
    ensures asked { (r : OfRow) → offered classes.now blocked.now r ≡ true → is_asked result.classes.now result.space result.templates.now r ≡ true }
    ensures had { (r : OfRow) → offered classes.now blocked.now r ≡ true → may_have result.takes result.transaction r ≡ true }
{
    Sought {
        classes,
        space: blocked.space,
        templates: blocked.templates.as_slice(),
        transaction: blocked.transaction,
        takes: is_take(blocked.form),
    }
}

/// What a match set shows.
fn sought_in<'a>(classes: &'a Classes, set: &'a MatchSet) -> Sought<'a>
    ensures asked { (r : OfRow) → shows classes.now set.now r ≡ true → is_asked result.classes.now result.space result.templates.now r ≡ true }
    ensures had { (r : OfRow) → shows classes.now set.now r ≡ true → may_have result.takes result.transaction r ≡ true }
{
    Sought {
        classes,
        space: set.space,
        templates: std::slice::from_ref(&set.template),
        transaction: set.transaction,
        takes: false,
    }
}
