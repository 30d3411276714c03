//! The first rows that pass a test, so many of them, in their order.
ghost use Rattle.std.specs.Prelude.{◌≡◌, true, filter, map, take, length, ◌++◌, ◌∷◌, [], None, IfOk, OnOk};
ghost use Rattle.std.specs.List.{last_or};
ghost use Rattle.jsp_model.specs.declared.state.Row.{Row as OfRow};
ghost use Rattle.jsp_index.specs.Finding.{is_next, is_asked};
ghost use Rattle.jsp_index.specs.Numbered.{AreNumbered};
ghost use Rattle.jsp_index.specs.Passed.{may_have};

use crate::{HintedRows, NoMemory};
use jsp_model::Row;
use jsp_table::Test;
use jsp_types::{Classes, Entry, Items, Template};
use std::alloc::Global;

/// What a search looks for: rows in a space that are like one of the templates, and that a
/// transaction, or who is under none, may read, or take.
#[derive(Drop)]
pub(crate) struct Sought<'a> {
    pub(crate) classes: &'a Classes,
    pub(crate) space: u64,
    pub(crate) templates: &'a [Template],
    pub(crate) transaction: Option<u64>,
    pub(crate) takes: bool,
}

/// The numbers of the first rows above one that pass, so many.
pub(crate) fn numbers_found<P: Test<Row>>(
    alloc: Global,
    rows: &HintedRows,
    sought: &Sought,
    from: u64,
    test: &P,
    most: usize,
) -> Result<Items<u64>, NoMemory>
    requires asked { (r : OfRow) → P.is_passed test.now r ≡ true → is_asked sought.now.classes.now sought.now.space sought.now.templates.now r ≡ true }
    requires had { (r : OfRow) → P.is_passed test.now r ≡ true → may_have sought.now.takes sought.now.transaction r ≡ true }
    ensures found { IfOk result (λ ns. ns ≡ map (λ r. r.number) (take most (filter (is_next (P.is_passed test.now) from) rows.now))) }
    ensures numbered { AreNumbered rows.now }
{
    let _ = rows.rows.places();
    let mut numbers = Items::new(alloc);
    let scope = rows.scope(sought);
    let mut own = rows.first_own(sought, &scope, from, test);
    let mut after = from;
    'rows: for _count in 0..most {
        own = rows.next_own(sought, &scope, own, after, test);
        let Some(row) = rows.first_beside(sought, &scope, own, after, test) else {
            return Ok(numbers);
        };
        numbers.push(row.number)?;
        after = row.number;
    }
    Ok(numbers)
}

/// The entries of the first rows above a number that pass, so many.
pub(crate) fn entries_found<P: Test<Row>>(
    alloc: Global,
    rows: &HintedRows,
    sought: &Sought,
    from: u64,
    test: &P,
    most: usize,
) -> Result<Items<Entry>, NoMemory>
    requires asked { (r : OfRow) → P.is_passed test.now r ≡ true → is_asked sought.now.classes.now sought.now.space sought.now.templates.now r ≡ true }
    requires had { (r : OfRow) → P.is_passed test.now r ≡ true → may_have sought.now.takes sought.now.transaction r ≡ true }
    ensures found { IfOk result (λ es. es ≡ map (λ r. r.entry) (take most (filter (is_next (P.is_passed test.now) from) rows.now))) }
    ensures numbered { AreNumbered rows.now }
{
    let _ = rows.rows.places();
    let mut entries = Items::new(alloc);
    let scope = rows.scope(sought);
    let mut own = rows.first_own(sought, &scope, from, test);
    let mut after = from;
    'rows: for _count in 0..most {
        own = rows.next_own(sought, &scope, own, after, test);
        let Some(row) = rows.first_beside(sought, &scope, own, after, test) else {
            return Ok(entries);
        };
        add_entry(&mut entries, row)?;
        after = row.number;
    }
    Ok(entries)
}

/// Adds a copy of the row's entry.
pub(crate) fn add_entry(entries: &mut Items<Entry>, row: &Row) -> Result<(), NoMemory>
    ensures { OnOk result (entries.new ≡ entries.old ++ row.now.entry ∷ []) }
{
    entries.push(row.entry.clone()?)?;
    Ok(())
}

/// How many rows a walk finds, and the number of the last.
#[derive(Drop)]
pub(crate) struct Walked {
    pub(crate) count: usize,
    pub(crate) last: Option<u64>,
}

/// Walks over the first rows above a number that pass, so many. Takes no memory.
pub(crate) fn walk<P: Test<Row>>(
    rows: &HintedRows,
    sought: &Sought,
    from: u64,
    test: &P,
    most: usize,
) -> Walked
    requires asked { (r : OfRow) → P.is_passed test.now r ≡ true → is_asked sought.now.classes.now sought.now.space sought.now.templates.now r ≡ true }
    requires had { (r : OfRow) → P.is_passed test.now r ≡ true → may_have sought.now.takes sought.now.transaction r ≡ true }
    ensures count { result.count ≡ length (take most (filter (is_next (P.is_passed test.now) from) rows.now)) }
    ensures last { result.last ≡ last_or None (map (λ r. r.number) (take most (filter (is_next (P.is_passed test.now) from) rows.now))) }
    ensures numbered { AreNumbered rows.now }
{
    let _ = rows.rows.places();
    let mut last = None;
    let scope = rows.scope(sought);
    let mut own = rows.first_own(sought, &scope, from, test);
    let mut after = from;
    'rows: for count in 0..most {
        own = rows.next_own(sought, &scope, own, after, test);
        let Some(row) = rows.first_beside(sought, &scope, own, after, test) else {
            return Walked { count, last };
        };
        last = Some(row.number);
        after = row.number;
    }
    Walked { count: most, last }
}
