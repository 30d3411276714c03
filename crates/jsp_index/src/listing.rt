//! Copies of rows that a list names.
ghost use Rattle.std.specs.Prelude.{◌≡◌, ◌<◌, ◌&&◌, ◌++◌, ◌∷◌, ℕ, true, [], filter, map, IfOk, OnOk};
ghost use Rattle.std.specs.List.{AllByRecursion};
ghost use Rattle.jsp_model.specs.declared.state.Row.{Row as OfRow};
ghost use Rattle.jsp_table.specs.Numbers.{contains};
ghost use Rattle.jsp_model.specs.Lookup.{contains as has};
ghost use Rattle.jsp_index.specs.Finding.{is_next};
ghost use Rattle.jsp_index.specs.Holding.{listed_in, is_in};

use crate::NoMemory;
use crate::by_number::{RowsByNumber, copy_of};
use crate::holding::{Holding, numbers_of};
use crate::walking::add_entry;
use jsp_model::Row;
use jsp_table::{Numbers, Test};
use jsp_types::{Entry, Items};
use std::alloc::Global;

/// A list that names these numbers.
pub(crate) fn named_by(alloc: Global, numbers: &[u64]) -> Result<Numbers, NoMemory>
    ensures { IfOk result (λ named. (n : ℕ) → has numbers.now n ≡ true → contains named n ≡ true) }
{
    let mut named = Numbers::new(alloc);
    'numbers: for number in numbers {
        named.add(*number)?;
    }
    Ok(named)
}

/// Copies of the rows that pass, which are all listed, in their order.
pub(crate) fn rows_held<P: Test<Row>>(
    alloc: Global,
    rows: &RowsByNumber,
    holdings: &[Holding],
    test: &P,
) -> Result<Vec<Row>, NoMemory>
    requires { AllByRecursion (λ (r : OfRow). P.is_passed test.now r ≡ true → is_in (listed_in holdings.now r.space) r.number ≡ true) rows.now }
    ensures { IfOk result (λ v. v.items ≡ filter (P.is_passed test.now) rows.now) }
{
    if let [holding] = holdings {
        return rows_named(alloc, rows, &holding.numbers, test);
    }
    let numbers = numbers_of(alloc, holdings)?;
    let numbers = named_by(alloc, &numbers)?;
    rows_named(alloc, rows, &numbers, test)
}

/// Copies of the rows that are named and pass, in their order.
fn rows_named<P: Test<Row>>(
    alloc: Global,
    rows: &RowsByNumber,
    numbers: &Numbers,
    test: &P,
) -> Result<Vec<Row>, NoMemory>
    ensures found { IfOk result (λ v. v.items ≡ filter (is_next (λ r. contains numbers.now r.number && P.is_passed test.now r) 0) rows.now) }
    ensures positive { AllByRecursion (λ (r : OfRow). 0 < r.number) rows.now }
{
    // Which says that the numbers rise, from above 0 on.
    let _ = rows.places();
    let mut copies = Vec::new(alloc);
    let mut after = 0;
    'rows: while let Some(row) = rows.first_named(numbers, after, test) {
        add_copy(&mut copies, row)?;
        after = row.number;
    }
    Ok(copies)
}

/// The entries of the rows that are named and pass, in their order.
pub(crate) fn entries_named<P: Test<Row>>(
    alloc: Global,
    rows: &RowsByNumber,
    numbers: &Numbers,
    test: &P,
) -> Result<Items<Entry>, NoMemory>
    ensures found { IfOk result (λ es. es ≡ map (λ r. r.entry) (filter (is_next (λ r. contains numbers.now r.number && P.is_passed test.now r) 0) rows.now)) }
    ensures positive { AllByRecursion (λ (r : OfRow). 0 < r.number) rows.now }
{
    let _ = rows.places();
    let mut entries = Items::new(alloc);
    let mut after = 0;
    'rows: while let Some(row) = rows.first_named(numbers, after, test) {
        add_entry(&mut entries, row)?;
        after = row.number;
    }
    Ok(entries)
}

/// Adds a copy of a row.
fn add_copy(copies: &mut Vec<Row>, row: &Row) -> Result<(), NoMemory>
    ensures { OnOk result (copies.new.items ≡ copies.old.items ++ row.now ∷ []) }
{
    copies.push(copy_of(row)?)?;
    Ok(())
}
