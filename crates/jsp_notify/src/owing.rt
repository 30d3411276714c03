//! What registrations are owed of written rows, whole or not at all.
ghost use Rattle.std.specs.Prelude.{◌≡◌, ◌≤◌, ◌-◌, ◌++◌, OnOk, OnErr, map, filter, length, take, drop};
ghost use Rattle.jsp_model.specs.Sight.{is_free as frees};
ghost use Rattle.jsp_notify.specs.Owing.{is_news as has_news, owed as with_owed, owed_within, forgiven, forgiven_within, is_within};

use jsp_model::{Registration, Row};
use jsp_sight::is_caller;
use jsp_types::{Classes, NoMemory, matches};
use std::slice::from_ref;

/// Each registration is owed those of the rows, written by the caller, that are news to it.
pub(crate) fn owe_each(
    classes: &Classes,
    registrations: &mut [Registration],
    rows: &[Row],
    caller: Option<u64>,
) -> Result<(), NoMemory>
    ensures ok { OnOk result (registrations.new ≡ map (with_owed classes.now caller rows.now) registrations.old) }
    ensures err { OnErr result (registrations.new ≡ registrations.old) }
{
    'places: for place in 0..registrations.len() {
        if let Err(e) = owe(classes, &mut registrations[place], rows, caller) {
            forgive_first(classes, registrations, place, rows, caller);
            return Err(e);
        }
    }
    Ok(())
}

/// Takes back what each registration was owed last. Takes no memory.
pub(crate) fn forgive_each(
    classes: &Classes,
    registrations: &mut [Registration],
    rows: &[Row],
    caller: Option<u64>,
)
    ensures { registrations.new ≡ map (forgiven classes.now caller rows.now) registrations.old }
{
    forgive_first(classes, registrations, registrations.len(), rows, caller);
}

/// Takes back what the first registrations were owed last.
fn forgive_first(
    classes: &Classes,
    registrations: &mut [Registration],
    count: usize,
    rows: &[Row],
    caller: Option<u64>,
)
    requires { count ≤ length registrations.old }
    ensures { registrations.new ≡ map (forgiven classes.now caller rows.now) (take count registrations.old) ++ drop count registrations.old }
{
    'places: for place in 0..count {
        forgive(classes, &mut registrations[place], rows, caller);
    }
}

/// Numbers of registrations.
#[derive(Clone, Copy)]
pub(crate) struct Range {
    /// The first,
    pub(crate) from: u64,
    /// and the one behind the last, if there is one.
    pub(crate) below: Option<u64>,
}

impl Range {
    /// Whether the registration's number is one of them.
    pub(crate) fn has(self, registration: &Registration) -> bool
        ensures { result ≡ is_within self.from self.below registration.now }
    {
        match self.below {
            None => self.from <= registration.number,
            Some(below) => self.from <= registration.number && registration.number < below,
        }
    }
}

/// Each registration of the range is owed the row, written by the caller, where that is news to it.
pub(crate) fn owe_each_within(
    classes: &Classes,
    registrations: &mut [Registration],
    row: &Row,
    caller: Option<u64>,
    range: Range,
) -> Result<(), NoMemory>
    ensures ok { OnOk result (registrations.new ≡ map (owed_within classes.now caller row.now range.from range.below) registrations.old) }
    ensures err { OnErr result (registrations.new ≡ registrations.old) }
{
    'places: for place in 0..registrations.len() {
        if let Err(e) = owe_within(classes, &mut registrations[place], row, caller, range) {
            forgive_first_within(classes, registrations, place, row, caller, range);
            return Err(e);
        }
    }
    Ok(())
}

fn forgive_first_within(
    classes: &Classes,
    registrations: &mut [Registration],
    count: usize,
    row: &Row,
    caller: Option<u64>,
    range: Range,
)
    requires { count ≤ length registrations.old }
    ensures { registrations.new ≡ map (forgiven_within classes.now caller row.now range.from range.below) (take count registrations.old) ++ drop count registrations.old }
{
    'places: for place in 0..count {
        forgive_within(classes, &mut registrations[place], row, caller, range);
    }
}

fn owe_within(
    classes: &Classes,
    registration: &mut Registration,
    row: &Row,
    caller: Option<u64>,
    range: Range,
) -> Result<(), NoMemory>
    ensures ok { OnOk result (registration.new ≡ owed_within classes.now caller row.now range.from range.below registration.old) }
    ensures err { OnErr result (registration.new ≡ registration.old) }
{
    if range.has(registration) {
        owe(classes, registration, from_ref(row), caller)
    } else {
        Ok(())
    }
}

fn forgive_within(
    classes: &Classes,
    registration: &mut Registration,
    row: &Row,
    caller: Option<u64>,
    range: Range,
)
    ensures { registration.new ≡ forgiven_within classes.now caller row.now range.from range.below registration.old }
{
    if range.has(registration) {
        forgive(classes, registration, from_ref(row), caller);
    }
}

/// The registration is owed those of the rows, written by the caller, that are news to it.
pub(crate) fn owe(
    classes: &Classes,
    registration: &mut Registration,
    rows: &[Row],
    caller: Option<u64>,
) -> Result<(), NoMemory>
    ensures ok { OnOk result (registration.new ≡ with_owed classes.now caller rows.now registration.old) }
    ensures err { OnErr result (registration.new ≡ registration.old) }
{
    let before = registration.owed.items.len();
    'rows: for row in rows {
        if !is_news(classes, caller, registration, row) {
            continue;
        }
        if registration.owed.push(row.number).is_err() {
            registration.owed.items.truncate(before);
            return Err(NoMemory);
        }
    }
    Ok(())
}

/// Takes back what the registration was owed last.
fn forgive(classes: &Classes, registration: &mut Registration, rows: &[Row], caller: Option<u64>)
    ensures { registration.new ≡ forgiven classes.now caller rows.now registration.old }
{
    let count = count_news(classes, registration, rows, caller);
    let owed = &mut registration.owed;
    drop_last(&mut owed.items, count);
}

fn drop_last(numbers: &mut Vec<u64>, count: usize)
    ensures { numbers.new.items ≡ take (length numbers.old.items - count) numbers.old.items }
{
    numbers.truncate(numbers.len().saturating_sub(count));
}

fn count_news(
    classes: &Classes,
    registration: &Registration,
    rows: &[Row],
    caller: Option<u64>,
) -> usize
    ensures { result ≡ length (filter (has_news classes.now caller registration.now) rows.now) }
{
    rows.iter()
        .filter(|row| is_news(classes, caller, registration, row))
        .count()
}

/// Whether the row is news to the registration.
pub(crate) fn is_news(
    classes: &Classes,
    caller: Option<u64>,
    registration: &Registration,
    row: &Row,
) -> bool
    ensures { result ≡ has_news classes.now caller registration.now row.now }
{
    hears(registration.transaction, caller)
        && registration.space == row.space
        && matches(classes, &registration.template, &row.entry)
}

/// Whether registrations under the transaction, or under none, are told what the caller writes.
fn hears(transaction: Option<u64>, caller: Option<u64>) -> bool
    ensures { result ≡ frees transaction caller }
{
    match caller {
        None => true,
        Some(x) => is_caller(transaction, x),
    }
}
