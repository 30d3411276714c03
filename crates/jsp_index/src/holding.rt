//! Rows listed, by space, for the transactions that wrote, took or read them.
ghost use Rattle.std.specs.Prelude.{◌≡◌, ◌≢◌, ◌&&◌, ℕ, true, false, None, position, ◌==◌, option_copied, option_map, OnOk, IfOk, IfSome};
ghost use Rattle.std.specs.Bool.{OnTrue};
ghost use Rattle.std.specs.List.{AllByRecursion};
ghost use Rattle.jsp_model.specs.declared.state.Row.{Row as OfRow};
ghost use Rattle.jsp_model.specs.Lookup.{contains as has, is_caller as calls};
ghost use Rattle.jsp_table.specs.Numbers.{contains};
ghost use Rattle.jsp_sight.specs.Rows.{is_of};
ghost use Rattle.jsp_index.specs.Holding.{listed as listed_for, listed_in as listed_among, is_in, lists, Keeps, IsHeld, AreHeld};

use crate::NoMemory;
use crate::keyed::KeyedRows;
use jsp_model::Row;
use jsp_table::Numbers;
use jsp_types::Items;
use std::alloc::Global;
use std::collections::HashMap;

/// The numbers of the rows of a space that a transaction wrote, took or read. The list may name
/// more.
#[derive(Drop)]
pub(crate) struct Holding {
    pub(crate) space: u64,
    pub(crate) numbers: Numbers,
}

/// What each transaction holds, one list for each space.
pub(crate) type Holders = HashMap<u64, Items<Holding>>;

/// The numbers that are listed for a transaction in a space, if there are some.
pub(crate) fn listed(holders: &Holders, x: u64, space: u64) -> Option<&Numbers>
    ensures { option_copied result ≡ listed_for holders.now x space }
{
    match holders.get(&x) {
        None => None,
        Some(holdings) => listed_in(holdings.as_slice(), space),
    }
}

fn listed_in(holdings: &[Holding], space: u64) -> Option<&Numbers>
    ensures { option_copied result ≡ listed_among holdings.now space }
{
    match holdings.iter().find(|h| h.space == space) {
        None => None,
        Some(holding) => Some(&holding.numbers),
    }
}

/// The first of the rows that are listed for a transaction in a space, if there is one.
pub(crate) fn first_listed(holders: &Holders, x: u64, space: u64) -> Option<u64> {
    match listed(holders, x, space) {
        None => None,
        Some(numbers) => numbers.next_above(0),
    }
}

/// Whether more are listed than so many.
pub(crate) fn is_longer(holders: &Holders, x: u64, space: u64, most: usize) -> bool {
    match listed(holders, x, space) {
        None => false,
        Some(numbers) => most < numbers.len(),
    }
}

/// How many numbers are listed for a space or, where none is named, for all.
pub(crate) fn count_listed(holdings: &[Holding], space: Option<u64>) -> usize {
    let mut count: usize = 0;
    'holdings: for holding in holdings {
        if space.is_none() || space == Some(holding.space) {
            count = count.saturating_add(holding.numbers.len());
        }
    }
    count
}

/// The numbers that are listed for a space or, where none is named, for all.
pub(crate) fn numbers_in(
    alloc: Global,
    holdings: &[Holding],
    space: Option<u64>,
) -> Result<Vec<u64>, NoMemory>
    ensures { IfOk result (λ v. (r : OfRow) → is_of space r ≡ true → is_in (listed_among holdings.now r.space) r.number ≡ true → has v.items r.number ≡ true) }
{
    match space {
        None => numbers_of(alloc, holdings),
        Some(space) => copies_of(alloc, listed_in(holdings, space)),
    }
}

/// The numbers of a list, if there is one.
fn copies_of(alloc: Global, numbers: Option<&Numbers>) -> Result<Vec<u64>, NoMemory>
    ensures { IfOk result (λ v. (n : ℕ) → is_in (option_copied numbers.entry) n ≡ true → has v.items n ≡ true) }
{
    match numbers {
        None => Ok(Vec::new(alloc)),
        Some(numbers) => numbers.to_vec(alloc),
    }
}

/// All numbers that are listed.
pub(crate) fn numbers_of(alloc: Global, holdings: &[Holding]) -> Result<Vec<u64>, NoMemory>
    ensures { IfOk result (λ v. (space n : ℕ) → is_in (listed_among holdings.now space) n ≡ true → has v.items n ≡ true) }
{
    let mut numbers = Vec::new(alloc);
    'holdings: for holding in holdings {
        let mut more = holding.numbers.to_vec(alloc)?;
        numbers.append(&mut more)?;
    }
    Ok(numbers)
}

/// Lists rows for the transactions that hold them. Nothing goes from any list, on `Err` either.
pub(crate) fn hold_all(alloc: Global, holders: &mut Holders, rows: &[Row]) -> Result<(), NoMemory>
    ensures ok { OnOk result (AreHeld holders.new rows.now) }
    ensures keeps { Keeps holders.old holders.new }
{
    'rows: for row in rows {
        hold(alloc, holders, row)?;
    }
    Ok(())
}

/// Lists a row for each transaction that holds it.
fn hold(alloc: Global, holders: &mut Holders, row: &Row) -> Result<(), NoMemory>
    ensures ok { OnOk result (IsHeld holders.new row.now) }
    ensures keeps { Keeps holders.old holders.new }
{
    let (space, number) = (row.space, row.number);
    hold_by(alloc, holders, row.writer, space, number)?;
    hold_by(alloc, holders, row.taker, space, number)?;
    'readers: for reader in row.readers.as_slice() {
        list(alloc, holders, *reader, space, number)?;
    }
    Ok(())
}

/// Lists a number for a transaction, if there is one.
fn hold_by(
    alloc: Global,
    holders: &mut Holders,
    holder: Option<u64>,
    space: u64,
    number: u64,
) -> Result<(), NoMemory>
    ensures ok { OnOk result ((x : ℕ) → calls holder x ≡ true → lists holders.new x space number ≡ true) }
    ensures keeps { Keeps holders.old holders.new }
{
    match holder {
        None => Ok(()),
        Some(x) => list(alloc, holders, x, space, number),
    }
}

/// Lists the rows of these numbers for a transaction. Nothing goes from any list, on `Err` either.
pub(crate) fn hold_numbers(
    alloc: Global,
    holders: &mut Holders,
    rows: &KeyedRows,
    x: u64,
    numbers: &[u64],
) -> Result<(), NoMemory>
    ensures ok { OnOk result (AllByRecursion (λ (r : OfRow). has numbers.now r.number ≡ true → lists holders.new x r.space r.number ≡ true) rows.now) }
    ensures keeps { Keeps holders.old holders.new }
{
    'numbers: for number in numbers {
        hold_number(alloc, holders, rows, x, *number)?;
    }
    Ok(())
}

/// Lists the row of this number, if there is one, for a transaction. Nothing goes from any list, on
/// `Err` either.
pub(crate) fn hold_number(
    alloc: Global,
    holders: &mut Holders,
    rows: &KeyedRows,
    x: u64,
    number: u64,
) -> Result<(), NoMemory>
    ensures ok { OnOk result (AllByRecursion (λ (r : OfRow). r.number ≡ number → lists holders.new x r.space r.number ≡ true) rows.now) }
    ensures keeps { Keeps holders.old holders.new }
{
    match rows.get(number) {
        None => Ok(()),
        Some(row) => list(alloc, holders, x, row.space, number),
    }
}

/// Lists a number for a transaction in a space.
fn list(
    alloc: Global,
    holders: &mut Holders,
    x: u64,
    space: u64,
    number: u64,
) -> Result<(), NoMemory>
    ensures ok { OnOk result (lists holders.new x space number ≡ true) }
    ensures keeps { Keeps holders.old holders.new }
{
    if let Some(holdings) = holders.get_mut(&x) {
        return list_in(alloc, &mut holdings.items, space, number);
    }
    let mut holdings = Items::new(alloc);
    list_in(alloc, &mut holdings.items, space, number)?;
    holders.insert(x, holdings)?;
    Ok(())
}

/// Lists a number for a space.
fn list_in(
    alloc: Global,
    holdings: &mut Vec<Holding>,
    space: u64,
    number: u64,
) -> Result<(), NoMemory>
    ensures ok { OnOk result (is_in (listed_among holdings.new.items space) number ≡ true) }
    ensures keeps { (s n : ℕ) → is_in (listed_among holdings.old.items s) n ≡ true → is_in (listed_among holdings.new.items s) n ≡ true }
{
    match place_of(holdings, space) {
        None => begin_list(alloc, holdings, space, number),
        Some(place) => add_to(&mut holdings[place], number),
    }
}

/// The place of a space's list.
fn place_of(holdings: &[Holding], space: u64) -> Option<usize>
    ensures { result ≡ position (λ h. h.space == space) holdings.now }
{
    holdings.iter().position(|h| h.space == space)
}

/// Adds a number to a list.
fn add_to(holding: &mut Holding, number: u64) -> Result<(), NoMemory>
    ensures ok { OnOk result (contains holding.new.numbers number ≡ true) }
    ensures keeps { (n : ℕ) → contains holding.old.numbers n ≡ true → contains holding.new.numbers n ≡ true }
    ensures space { holding.new.space ≡ holding.old.space }
{
    holding.numbers.add(number)
}

/// Lists the first number for a space.
fn begin_list(
    alloc: Global,
    holdings: &mut Vec<Holding>,
    space: u64,
    number: u64,
) -> Result<(), NoMemory>
    requires { listed_among holdings.old.items space ≡ None }
    ensures ok { OnOk result (is_in (listed_among holdings.new.items space) number ≡ true) }
    ensures keeps { (s n : ℕ) → is_in (listed_among holdings.old.items s) n ≡ true → is_in (listed_among holdings.new.items s) n ≡ true }
{
    let mut numbers = Numbers::new(alloc);
    numbers.add(number)?;
    holdings.push(Holding { space, numbers })?;
    Ok(())
}

/// Lists a number for a transaction in a space no more. Takes no memory.
pub(crate) fn unlist(holders: &mut Holders, x: u64, space: u64, number: u64)
    ensures { (y s n : ℕ) → (y == x && s == space && n == number) ≡ false → lists holders.old y s n ≡ true → lists holders.new y s n ≡ true }
{
    if let Some(holdings) = holders.get_mut(&x) {
        unlist_in(&mut holdings.items, space, number);
    }
}

fn unlist_in(holdings: &mut Vec<Holding>, space: u64, number: u64)
    ensures { (s n : ℕ) → (s == space && n == number) ≡ false → is_in (listed_among holdings.old.items s) n ≡ true → is_in (listed_among holdings.new.items s) n ≡ true }
{
    if let Some(place) = place_of(holdings, space) {
        remove_from(&mut holdings[place], number);
    }
}

/// Takes a number out of a list.
fn remove_from(holding: &mut Holding, number: u64)
    ensures keeps { (n : ℕ) → n ≢ number → contains holding.old.numbers n ≡ true → contains holding.new.numbers n ≡ true }
    ensures space { holding.new.space ≡ holding.old.space }
{
    holding.numbers.remove(number);
}

/// Takes the list of a transaction in a space off, if there is one. Takes no memory.
pub(crate) fn take_list(holders: &mut Holders, x: u64, space: u64) -> Option<Holding>
    ensures taken { option_map (λ h. h.numbers) result ≡ listed_for holders.old x space }
    ensures space { IfSome result (λ h. h.space ≡ space) }
    ensures others { (y s n : ℕ) → (y == x && s == space) ≡ false → lists holders.old y s n ≡ true → lists holders.new y s n ≡ true }
{
    let taken = take_of(holders, x, space);
    drop_empty(holders, x);
    taken
}

fn take_of(holders: &mut Holders, x: u64, space: u64) -> Option<Holding>
    ensures taken { option_map (λ h. h.numbers) result ≡ listed_for holders.old x space }
    ensures space { IfSome result (λ h. h.space ≡ space) }
    ensures others { (y s n : ℕ) → (y == x && s == space) ≡ false → lists holders.old y s n ≡ true → lists holders.new y s n ≡ true }
{
    match holders.get_mut(&x) {
        None => None,
        Some(holdings) => take_in(&mut holdings.items, space),
    }
}

fn take_in(holdings: &mut Vec<Holding>, space: u64) -> Option<Holding>
    ensures taken { option_map (λ h. h.numbers) result ≡ listed_among holdings.old.items space }
    ensures space { IfSome result (λ h. h.space ≡ space) }
    ensures others { (s n : ℕ) → (s == space) ≡ false → is_in (listed_among holdings.old.items s) n ≡ true → is_in (listed_among holdings.new.items s) n ≡ true }
{
    match place_of(holdings, space) {
        None => None,
        Some(place) => Some(holdings.remove(place)),
    }
}

/// Forgets a transaction that has no list.
fn drop_empty(holders: &mut Holders, x: u64)
    ensures { Keeps holders.old holders.new }
{
    if has_no_list(holders, x) {
        holders.remove(&x);
    }
}

fn has_no_list(holders: &Holders, x: u64) -> bool
    ensures { OnTrue result ((s n : ℕ) → lists holders.now x s n ≡ false) }
{
    match holders.get(&x) {
        None => true,
        Some(holdings) => holdings.as_slice().is_empty(),
    }
}
