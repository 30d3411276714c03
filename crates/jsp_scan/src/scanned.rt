//! Rows in a plain list, each of which is looked at by every call.
ghost use Rattle.std.specs.Prelude.{◌≡◌, ◌≤◌, ◌==◌, ◌&&◌, ◌||◌, ◌++◌, ◌∷◌, [], not, nat_le, nat_lt, map, filter, find, option_copied, fold, min, take, length, reverse, position, ℕ, false, Bool, Option, None, IfOk, OnOk, OnErr, IsTrue};
ghost use Rattle.std.specs.List.{list_any, list_all, last_or, filter_map};
ghost use Rattle.std.specs.Fn.{FnReturns};
ghost use Rattle.std.specs.Option.{option_map_or};
ghost use Rattle.jsp_lease.specs.Due.{first_item, over_by};
ghost use Rattle.jsp_model.specs.Lookup.{update, contains as has, is_caller as calls};
ghost use Rattle.jsp_model.specs.Limits.{are_rising};
ghost use Rattle.jsp_model.specs.Changes.{aborted, committed, published as publishes, release as released};
ghost use Rattle.jsp_sight.specs.Deciding.{fate};
ghost use Rattle.jsp_sight.specs.Rows.{offered, offered_among, held, entries_among, shows, shown_among, earlier as earlier_of, row_end, row_ending, with_reader, taken_row, settled, undone, released_row, is_of, is_held};

use jsp_model::{Blocked, Item, MatchSet, Row, Vote};
use jsp_sight::{
    Decision, add_reader, contains, decide, earlier, extend_row, is_available, is_caller,
    is_in_conflict, may_show, release_row, row_item, settle, take_row, undo,
};
use jsp_types::{Classes, Entry, Items, NoMemory};
use std::alloc::Global;
use std::marker::Model;

/// Rows in a plain list.
#[derive(Drop)]
pub struct ScannedRows {
    items: Vec<Row>,
}

impl Model for ScannedRows {
    ghost use Rattle.std.specs.Prelude.{List};
    ghost use Rattle.jsp_model.specs.declared.state.Row.{Row};

    ghost Value = { List Row };

    ghost view = { λ a. a.items.items };
}

impl ScannedRows {
    /// No rows.
    pub fn new(alloc: Global) -> Self
        ensures { result ≡ [] }
    {
        ScannedRows {
            items: Vec::new(alloc),
        }
    }

    /// These rows.
    pub fn of(rows: Items<Row>) -> Self
        ensures { result ≡ rows }
    {
        ScannedRows {
            items: rows.into_vec(),
        }
    }

    /// A plain copy of these rows.
    pub fn to_items(&self) -> Result<Items<Row>, NoMemory>
        ensures { IfOk result (λ c. c ≡ self.now) }
    {
        plain_copy(&self.items)
    }

    /// Adds rows at the end, whole or not at all. Where memory is refused they stay with the
    /// caller.
    pub fn append(&mut self, rows: &mut Vec<Row>) -> Result<(), NoMemory>
        ensures ok { OnOk result (self.new ≡ self.old ++ rows.old.items) }
        ensures err { OnErr result (self.new ≡ self.old) }
        ensures rows_stay { OnErr result (rows.new.items ≡ rows.old.items) }
    {
        self.items.append(rows)?;
        Ok(())
    }

    /// The row of this number goes.
    pub fn remove(&mut self, number: u64)
        ensures { self.new ≡ filter (λ r. not (r.number == number)) self.old }
    {
        drop_row(&mut self.items, number);
    }

    /// The rows of these numbers go.
    pub fn remove_all(&mut self, numbers: &[u64])
        ensures { self.new ≡ filter (λ r. not (has numbers.now r.number)) self.old }
    {
        remove_rows(&mut self.items, numbers);
    }

    /// The rows of a space go.
    pub fn clear(&mut self, space: u64)
        ensures { self.new ≡ filter (λ r. not (r.space == space)) self.old }
    {
        drop_rows(&mut self.items, space);
    }

    /// The transaction aborts: the rows that it wrote go, and so do its marks.
    pub fn abort(&mut self, x: u64)
        ensures { self.new ≡ aborted x self.old }
    {
        undo_rows(&mut self.items, x);
    }

    /// The transaction commits: the rows that it took go, and so do its marks.
    pub fn commit(&mut self, x: u64)
        ensures { self.new ≡ committed x self.old }
    {
        settle_rows(&mut self.items, x);
    }

    /// Once a space has voted that nothing is changed, the transaction's read marks there go.
    pub fn release(&mut self, vote: Vote, x: u64, space: u64)
        ensures { self.new ≡ released vote x space self.old }
    {
        release(&mut self.items, vote, x, space);
    }

    /// The transaction takes the rows of these numbers, whole or not at all.
    pub fn take(&mut self, numbers: &[u64], x: u64) -> Result<(), NoMemory>
        ensures ok { OnOk result (self.new ≡ map (taken_row x numbers.now) self.old) }
        ensures err { OnErr result (self.new ≡ self.old) }
    {
        take_rows(&mut self.items, numbers, x);
        Ok(())
    }

    /// The row of this number ends then.
    pub fn extend(&mut self, number: u64, end: u64)
        ensures { self.new ≡ map (row_ending number end) self.old }
    {
        extend_rows(&mut self.items, number, end);
    }

    /// The transaction reads the row of this number, whole or not at all.
    pub fn read(&mut self, below: u64, number: u64, x: u64) -> Result<(), NoMemory>
        requires { IsTrue (are_rising 0 below (map (λ r. r.number) self.old)) }
        ensures ok { OnOk result (self.new ≡ update (λ r. r.number == number) (with_reader x) self.old) }
        ensures err { OnErr result (self.new ≡ self.old) }
    {
        read_one(&mut self.items, below, number, x)
    }

    /// The row of this number.
    pub fn get(&self, number: u64) -> Option<&Row>
        ensures { option_copied result ≡ find (λ r. r.number == number) self.now }
    {
        self.items.iter().find(|r| r.number == number)
    }

    /// Whether a row has this number.
    pub fn has(&self, number: u64) -> bool
        ensures { result ≡ list_any (λ r. r.number == number) self.now }
    {
        self.items.iter().any(|r| r.number == number)
    }

    /// How many rows a space has.
    pub fn count_in(&self, space: u64) -> usize
        ensures { result ≡ length (filter (λ r. r.space == space) self.now) }
    {
        self.items.iter().filter(|r| r.space == space).count()
    }

    /// Whether the transaction wrote or took a row there.
    pub fn has_changed(&self, x: u64, space: u64) -> bool
        ensures { result ≡ list_any (λ r. r.space == space && (calls r.writer x || calls r.taker x)) self.now }
    {
        has_changes(&self.items, x, space)
    }

    /// Copies of the rows that the transaction's commit publishes: it wrote them and didn't take
    /// them.
    pub fn published(&self, alloc: Global, x: u64) -> Result<Vec<Row>, NoMemory>
        ensures { IfOk result (λ v. v.items ≡ publishes x self.now) }
    {
        published_among(alloc, &self.items, x)
    }

    /// The numbers of the rows that the transaction wrote, took or read, in a space or, where none
    /// is named, in all.
    pub fn held_by(&self, alloc: Global, x: u64, space: Option<u64>) -> Result<Vec<u64>, NoMemory>
        ensures { IfOk result (λ v. IsTrue (list_all (λ r. not (is_of space r && is_held x r) || has v.items r.number) self.now)) }
    {
        let numbers = numbers_held(alloc, &self.items, x, space)?;
        Ok(numbers)
    }

    /// The row whose end has come and comes first, as an item.
    pub fn due(&self, time: u64) -> Option<Item>
        ensures { result ≡ first_item (over_by time (map row_end self.now)) }
    {
        first_over(&self.items, time)
    }

    /// Whether a row has this number, and a test passes who wrote it.
    pub fn is_written<F: Fn(Option<u64>) -> bool>(&self, number: u64, test: F) -> bool
        requires { F.IsAlwaysCallable test }
        ensures { (p : Option ℕ → Bool) → ((x : Option ℕ) (b : Bool) → FnReturns F.Fn test (x, tt) b → b ≡ p x) → result ≡ list_any (λ r. r.number == number && p r.writer) self.now }
    {
        is_written(&self.items, number, test)
    }

    /// The spaces of the rows of this number.
    pub fn spaces_of(&self, alloc: Global, number: u64) -> Result<Vec<u64>, NoMemory>
        ensures { IfOk result (λ v. v.items ≡ map (λ r. r.space) (filter (λ r. r.number == number) self.now)) }
    {
        spaces_among(alloc, &self.items, number)
    }

    /// The entries of the rows of these numbers, in the order of the rows.
    pub fn entries_of(&self, alloc: Global, numbers: &[u64]) -> Result<Items<Entry>, NoMemory>
        ensures { IfOk result (λ es. es ≡ entries_among numbers.now self.now) }
    {
        entries_in(alloc, &self.items, numbers)
    }

    /// Whether there is none.
    pub fn has_none(&self, classes: &Classes, blocked: &Blocked) -> bool
        ensures { result ≡ (length (offered_among classes.now blocked.now self.now) == 0) }
    {
        has_none(&self.items, classes, blocked)
    }

    /// Whether a row that the request wants is in conflict.
    pub fn has_conflict(&self, classes: &Classes, blocked: &Blocked) -> bool
        ensures { result ≡ list_any (held classes.now blocked.now) self.now }
    {
        has_conflict(&self.items, classes, blocked)
    }

    /// The numbers of the first rows that the request may be given, as many as it asks for.
    pub fn choose(
        &self,
        alloc: Global,
        classes: &Classes,
        blocked: &Blocked,
    ) -> Result<Items<u64>, NoMemory>
        ensures { IfOk result (λ ns. ns ≡ take blocked.now.most (offered_among classes.now blocked.now self.now)) }
    {
        choose(alloc, &self.items, classes, blocked)
    }

    /// How many rows the request is given: as many as it asks for, or all there are.
    pub fn count_choice(&self, classes: &Classes, blocked: &Blocked) -> usize
        ensures { result ≡ min blocked.now.most (length (offered_among classes.now blocked.now self.now)) }
    {
        (blocked.most as usize).min(count_rows(&self.items, classes, blocked))
    }

    /// Whether the row of this number is offered to the request.
    pub fn is_available(&self, classes: &Classes, blocked: &Blocked, number: u64) -> bool
        ensures { result ≡ option_map_or (offered classes.now blocked.now) (find (λ r. r.number == number) self.now) false }
    {
        match self.get(number) {
            None => false,
            Some(row) => is_available(classes, blocked, row),
        }
    }

    /// Whether the row of this number may be given to the request.
    pub fn may_be_given(&self, classes: &Classes, blocked: &Blocked, number: u64) -> bool
        ensures { result ≡ has (offered_among classes.now blocked.now self.now) number }
    {
        may_be_given(&self.items, classes, blocked, number)
    }

    /// The entries of the first rows that a match set may still show, so many.
    pub fn entries_shown(
        &self,
        alloc: Global,
        classes: &Classes,
        set: &MatchSet,
        most: usize,
    ) -> Result<Items<Entry>, NoMemory>
        ensures { IfOk result (λ es. es ≡ map (λ row. row.entry) (take most (filter (shows classes.now set.now) self.now))) }
    {
        entries_shown(alloc, classes, set, &self.items, most)
    }

    /// Whether a match set may still show more rows than so many.
    pub fn shows_more(&self, classes: &Classes, set: &MatchSet, most: usize) -> bool
        ensures { result ≡ nat_lt most (length (filter (shows classes.now set.now) self.now)) }
    {
        most < count_shown(classes, set, &self.items)
    }

    /// The number of the last of the first rows that a match set may still show.
    pub fn last_shown(&self, classes: &Classes, set: &MatchSet, most: usize) -> Option<u64>
        ensures { result ≡ last_or None (map (λ row. row.number) (take most (filter (shows classes.now set.now) self.now))) }
    {
        last_shown(classes, set, &self.items, most)
    }
}

fn plain_copy(rows: &Vec<Row>) -> Result<Items<Row>, NoMemory>
    ensures { IfOk result (λ c. c ≡ rows.now.items) }
{
    let items = rows.clone()?;
    Ok(Items::from_vec(items))
}

fn drop_row(rows: &mut Vec<Row>, number: u64)
    ensures { rows.new.items ≡ filter (λ r. not (r.number == number)) rows.old.items }
{
    rows.retain(|r| !(r.number == number));
}

fn remove_rows(rows: &mut Vec<Row>, numbers: &[u64])
    ensures { rows.new.items ≡ filter (λ r. not (has numbers.now r.number)) rows.old.items }
{
    rows.retain(|row| !contains(numbers, row.number));
}

fn drop_rows(rows: &mut Vec<Row>, space: u64)
    ensures { rows.new.items ≡ filter (λ r. not (r.space == space)) rows.old.items }
{
    rows.retain(|r| !(r.space == space));
}

fn undo_rows(rows: &mut Vec<Row>, x: u64)
    ensures { rows.new.items ≡ aborted x rows.old.items }
{
    rows.retain_mut(|row| {
        let stays = !is_caller(row.writer, x);
        undo(row, x);
        stays
    });
}

fn settle_rows(rows: &mut Vec<Row>, x: u64)
    ensures { rows.new.items ≡ committed x rows.old.items }
{
    rows.retain_mut(|row| {
        let stays = !is_caller(row.taker, x);
        settle(row, x);
        stays
    });
}

/// The rows of a list are let go that a decision is about, or go. Takes no memory.
pub fn apply(rows: &mut Vec<Row>, decision: &Decision)
    ensures { rows.new.items ≡ filter_map (fate decision.now) rows.old.items }
{
    rows.retain_mut(|row| decide(row, decision));
}

/// A space that is not changed forgets that the transaction read there.
fn release(rows: &mut [Row], vote: Vote, x: u64, space: u64)
    ensures { rows.new ≡ released vote x space rows.old }
{
    'rows: for row in rows.iter_mut() {
        release_row(row, vote, x, space);
    }
}

fn take_rows(rows: &mut [Row], numbers: &[u64], x: u64)
    ensures { rows.new ≡ map (taken_row x numbers.now) rows.old }
{
    'rows: for row in rows.iter_mut() {
        take_row(row, numbers, x);
    }
}

fn extend_rows(rows: &mut [Row], number: u64, end: u64)
    ensures { rows.new ≡ map (row_ending number end) rows.old }
{
    'rows: for row in rows.iter_mut() {
        extend_row(row, number, end);
    }
}

fn read_one(rows: &mut [Row], below: u64, number: u64, x: u64) -> Result<(), NoMemory>
    requires { IsTrue (are_rising 0 below (map (λ r. r.number) rows.old)) }
    ensures ok { OnOk result (rows.new ≡ update (λ r. r.number == number) (with_reader x) rows.old) }
    ensures err { OnErr result (rows.new ≡ rows.old) }
{
    match place_of_row(rows, number) {
        None => Ok(()),
        Some(place) => add_reader(&mut rows[place], x),
    }
}

fn place_of_row(rows: &[Row], number: u64) -> Option<usize>
    ensures { result ≡ position (λ r. r.number == number) rows.now }
{
    rows.iter().position(|r| r.number == number)
}

fn has_changes(rows: &[Row], x: u64, space: u64) -> bool
    ensures { result ≡ list_any (λ r. r.space == space && (calls r.writer x || calls r.taker x)) rows.now }
{
    rows.iter().any(|r| r.space == space && (is_caller(r.writer, x) || is_caller(r.taker, x)))
}

fn published_among(alloc: Global, rows: &[Row], x: u64) -> Result<Vec<Row>, NoMemory>
    ensures { IfOk result (λ v. v.items ≡ publishes x rows.now) }
{
    let mut published = Vec::new(alloc);
    'rows: for row in rows {
        add_if_published(&mut published, row, x)?;
    }
    Ok(published)
}

fn add_if_published(published: &mut Vec<Row>, row: &Row, x: u64) -> Result<(), NoMemory>
    ensures { OnOk result (published.new.items ≡ published.old.items ++ publishes x (row.now ∷ [])) }
{
    if is_caller(row.writer, x) && !is_caller(row.taker, x) {
        published.push(row.clone()?)?;
    }
    Ok(())
}

fn numbers_held(
    alloc: Global,
    rows: &[Row],
    x: u64,
    space: Option<u64>,
) -> Result<Vec<u64>, NoMemory>
    ensures { IfOk result (λ v. v.items ≡ map (λ r. r.number) (filter (λ r. is_of space r && is_held x r) rows.now)) }
{
    let held = rows.iter().filter(|r| is_at(r, space) && bears_mark(r, x));
    held.map(|r| r.number).collect(alloc)
}

fn is_at(row: &Row, space: Option<u64>) -> bool
    ensures { result ≡ is_of space row.now }
{
    match space {
        None => true,
        Some(space) => row.space == space,
    }
}

fn bears_mark(row: &Row, x: u64) -> bool
    ensures { result ≡ is_held x row.now }
{
    is_caller(row.writer, x) || is_caller(row.taker, x) || contains(row.readers.as_slice(), x)
}

fn spaces_among(alloc: Global, rows: &[Row], number: u64) -> Result<Vec<u64>, NoMemory>
    ensures { IfOk result (λ v. v.items ≡ map (λ r. r.space) (filter (λ r. r.number == number) rows.now)) }
{
    let named = rows.iter().filter(|r| r.number == number);
    named.map(|r| r.space).collect(alloc)
}

fn entries_in(alloc: Global, rows: &[Row], numbers: &[u64]) -> Result<Items<Entry>, NoMemory>
    ensures { IfOk result (λ es. es ≡ entries_among numbers.now rows.now) }
{
    let mut entries = Items::new(alloc);
    'rows: for row in rows {
        add_if_among(&mut entries, row, numbers)?;
    }
    Ok(entries)
}

fn add_if_among(entries: &mut Items<Entry>, row: &Row, numbers: &[u64]) -> Result<(), NoMemory>
    ensures { OnOk result (entries.new ≡ entries.old ++ entries_among numbers.now (row.now ∷ [])) }
{
    if contains(numbers, row.number) {
        let entry = row.entry.clone()?;
        entries.push(entry)?;
    }
    Ok(())
}

fn has_none(rows: &[Row], classes: &Classes, blocked: &Blocked) -> bool
    ensures { result ≡ (length (offered_among classes.now blocked.now rows.now) == 0) }
{
    !has_one(rows, classes, blocked)
}

fn has_one(rows: &[Row], classes: &Classes, blocked: &Blocked) -> bool
    ensures { result ≡ list_any (offered classes.now blocked.now) rows.now }
{
    rows.iter().any(|row| is_available(classes, blocked, row))
}

fn has_conflict(rows: &[Row], classes: &Classes, blocked: &Blocked) -> bool
    ensures { result ≡ list_any (held classes.now blocked.now) rows.now }
{
    rows.iter().any(|row| is_in_conflict(classes, blocked, row))
}

fn choose(
    alloc: Global,
    rows: &[Row],
    classes: &Classes,
    blocked: &Blocked,
) -> Result<Items<u64>, NoMemory>
    ensures { IfOk result (λ ns. ns ≡ take blocked.now.most (offered_among classes.now blocked.now rows.now)) }
{
    let most = blocked.most as usize;
    let mut numbers = Items::new(alloc);
    'rows: for row in rows {
        if most <= numbers.as_slice().len() {
            return Ok(numbers);
        }
        add_if_available(&mut numbers, classes, blocked, row)?;
    }
    Ok(numbers)
}

fn add_if_available(
    numbers: &mut Items<u64>,
    classes: &Classes,
    blocked: &Blocked,
    row: &Row,
) -> Result<(), NoMemory>
    ensures { OnOk result (numbers.new ≡ numbers.old ++ offered_among classes.now blocked.now (row.now ∷ [])) }
{
    if is_available(classes, blocked, row) {
        numbers.push(row.number)?;
    }
    Ok(())
}

fn count_rows(rows: &[Row], classes: &Classes, blocked: &Blocked) -> usize
    ensures { result ≡ length (filter (offered classes.now blocked.now) rows.now) }
{
    rows.iter()
        .filter(|row| is_available(classes, blocked, row))
        .count()
}

fn may_be_given(rows: &[Row], classes: &Classes, blocked: &Blocked, number: u64) -> bool
    ensures { result ≡ has (offered_among classes.now blocked.now rows.now) number }
{
    is_among(rows, classes, blocked, number)
}

fn is_among(rows: &[Row], classes: &Classes, blocked: &Blocked, number: u64) -> bool
    ensures { result ≡ list_any (λ r. r.number == number && offered classes.now blocked.now r) rows.now }
{
    rows.iter().any(|row| row.number == number && is_available(classes, blocked, row))
}

fn count_shown(classes: &Classes, set: &MatchSet, rows: &[Row]) -> usize
    ensures { result ≡ length (filter (shows classes.now set.now) rows.now) }
{
    rows.iter()
        .filter(|row| may_show(classes, set, row))
        .count()
}

fn entries_shown(
    alloc: Global,
    classes: &Classes,
    set: &MatchSet,
    rows: &[Row],
    most: usize,
) -> Result<Items<Entry>, NoMemory>
    ensures { IfOk result (λ es. es ≡ map (λ row. row.entry) (take most (filter (shows classes.now set.now) rows.now))) }
{
    let mut entries = Items::new(alloc);
    'rows: for row in rows {
        if most <= entries.as_slice().len() {
            return Ok(entries);
        }
        add_if_shown(&mut entries, classes, set, row)?;
    }
    Ok(entries)
}

fn add_if_shown(
    entries: &mut Items<Entry>,
    classes: &Classes,
    set: &MatchSet,
    row: &Row,
) -> Result<(), NoMemory>
    ensures { OnOk result (entries.new ≡ entries.old ++ shown_among classes.now set.now (row.now ∷ [])) }
{
    if may_show(classes, set, row) {
        entries.push(row.entry.clone()?)?;
    }
    Ok(())
}

fn last_shown(classes: &Classes, set: &MatchSet, rows: &[Row], most: usize) -> Option<u64>
    ensures { result ≡ last_or None (map (λ row. row.number) (take most (filter (shows classes.now set.now) rows.now))) }
{
    let mut last = None;
    let mut count = 0;
    'rows: for row in rows {
        if most <= count {
            return last;
        }
        if may_show(classes, set, row) {
            last = Some(row.number);
            count += 1;
        }
    }
    last
}

fn first_over(rows: &[Row], time: u64) -> Option<Item>
    ensures { result ≡ first_item (over_by time (map row_end rows.now)) }
{
    last_to_first(rows, time)
}

fn last_to_first(rows: &[Row], time: u64) -> Option<Item>
    ensures { result ≡ fold earlier_of None (map row_end (filter (λ x. nat_le x.end time) (reverse rows.now))) }
{
    let over = rows.iter().rev().filter(|x| x.end <= time);
    over.map(end_of).fold(None, kept)
}

fn end_of(row: &Row) -> Item
    ensures { result ≡ row_end row.now }
{
    row_item(row)
}

fn kept(other: Option<Item>, item: Item) -> Option<Item>
    ensures { result ≡ earlier_of other item }
{
    earlier(other, item)
}

fn is_written<F: Fn(Option<u64>) -> bool>(rows: &[Row], number: u64, test: F) -> bool
    requires { F.IsAlwaysCallable test }
    ensures { (p : Option ℕ → Bool) → ((x : Option ℕ) (b : Bool) → FnReturns F.Fn test (x, tt) b → b ≡ p x) → result ≡ list_any (λ r. r.number == number && p r.writer) rows.now }
{
    'rows: for row in rows {
        if row.number == number && test(row.writer) {
            return true;
        }
    }
    false
}
