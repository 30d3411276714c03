//! Writing entries: one, or several together.
ghost use Rattle.std.specs.Prelude.{◌≡◌, ◌≤◌, ◌<◌, ◌+◌, ◌^◌, ◌++◌, map, length, is_none, nat_lt, None, IfOk, OnOk, OnErr, IsTrue};
ghost use Rattle.jsp_types.specs.Tests.{first_that};
ghost use Rattle.std.specs.List.{range_with_len};
ghost use Rattle.jsp_types.specs.Matching.{entry_fault};
ghost use Rattle.jsp_lease.specs.Granted.{granted as granted_of, ms_of as granted_ms};
ghost use Rattle.jsp_reply.specs.declared.reply.Reply.TheVariants as says;
ghost use Rattle.jsp_model.specs.Limits.{are_rising};
ghost use Rattle.jsp_model.specs.Requests.{caller_of as transaction_named};
ghost use Rattle.jsp_model.specs.Refusals.{write_tests, rows_in as count_in};
ghost use Rattle.jsp_model.specs.Changes.{write};
ghost use Rattle.jsp_transactions.specs.Writing.{new_rows as written_rows};
ghost use Rattle.jsp_state.specs.Fitting.{AllAccepted};
ghost use Rattle.jsp_entries.specs.Asking.{write_of};
ghost use Rattle.jsp_entries.specs.Writing.{granting_tests, row_numbered, with_new_rows};
ghost use Rattle.jsp_model.specs.declared.limits.TheConstants.{LAST_NUMBER, LAST_TIME, MOST_ROWS};

use crate::storing::store;
use jsp_core::Core;
use jsp_lease::{granted, ms_of};
use jsp_model::{MOST_ROWS, Row};
use jsp_reply::{Refusal, Reply};
use jsp_state::{
    caller_of, entries_refusal, entry_of, is_used_up, place_of, rows_in, space_refusal,
};
use jsp_transactions::{join, leave};
use jsp_types::{Classes, Items, NoMemory, Raw};
use std::alloc::Global;

/// What a write asks for: these entries in a space, each with a lease of its own.
#[derive(Clone, Copy)]
pub struct WriteAsked<'a> {
    pub space: &'a str,
    pub entries: &'a [Raw],
    /// In milliseconds; -1 leaves the time to the server (Jini Leasing).
    pub lease: i64,
    pub txn: Option<i64>,
}

/// Why a write is refused, or nothing where it isn't (the order is this profile's own).
pub fn refuse_write(state: &Core, asked: &WriteAsked) -> Option<Refusal>
    requires { length asked.now.entries.now ≤ 64 }
    ensures { result ≡ first_that (write_tests state.now (write_of asked.now)) }
{
    if let Some(refusal) = space_refusal(state, asked.space, asked.txn) {
        return Some(refusal);
    }
    if let Some(refusal) = entries_refusal(state, asked.entries) {
        return Some(refusal);
    }
    refuse_to_grant(state, asked)
}

/// Why a write whose entries could be stored isn't granted.
fn refuse_to_grant(state: &Core, asked: &WriteAsked) -> Option<Refusal>
    requires { length asked.now.entries.now ≤ 64 }
    ensures { result ≡ first_that (granting_tests state.now (write_of asked.now)) }
{
    if has_bad_lease(asked) {
        return Some(Refusal::BadLease);
    }
    let count = asked.entries.len();
    if is_full(state, place_of(state, asked.space), count) {
        return Some(Refusal::SpaceFull);
    }
    if is_used_up(state, count as u64) {
        return Some(Refusal::UsedUp);
    }
    None
}

fn has_bad_lease(asked: &WriteAsked) -> bool
    ensures { result ≡ is_none (granted_of asked.now.lease) }
{
    granted(asked.lease).is_none()
}

/// Whether the space has no room for so many rows more.
fn is_full(state: &Core, space: u64, count: usize) -> bool
    requires { count ≤ 64 }
    ensures { result ≡ nat_lt MOST_ROWS (count_in state.now space + count) }
{
    MOST_ROWS - count < rows_in(state, space)
}

/// Writes the entries, all or none: each is a row of its own, also an equal one (JavaSpaces). The
/// space joins the writer's transaction, and registrations are owed the rows.
pub fn accept_write(alloc: Global, state: &mut Core, asked: &WriteAsked) -> Result<(), NoMemory>
    requires time { state.old.time ≤ LAST_TIME }
    requires numbers { state.old.next_number ≤ LAST_NUMBER + 1 }
    requires few { length asked.now.entries.now ≤ 64 }
    requires accepted { first_that (write_tests state.old (write_of asked.now)) ≡ None }
    ensures ok { OnOk result (state.new ≡ write state.old (write_of asked.now)) }
    ensures err { OnErr result (state.new ≡ state.old) }
{
    let caller = caller_of(asked.txn);
    let rows = new_rows(alloc, state, asked, caller)?;
    let joining = join(state, caller, place_of(state, asked.space))?;
    match add_rows(state, rows, caller) {
        Ok(()) => Ok(()),
        Err(e) => {
            leave(state, joining);
            Err(e)
        }
    }
}

/// The rows that a write adds, with the numbers that come next.
fn new_rows(
    alloc: Global,
    state: &Core,
    asked: &WriteAsked,
    caller: Option<u64>,
) -> Result<Vec<Row>, NoMemory>
    requires time { state.now.time ≤ LAST_TIME }
    requires numbers { state.now.next_number ≤ LAST_NUMBER + 1 }
    requires caller { caller ≡ transaction_named asked.now.txn }
    requires few { length asked.now.entries.now ≤ 64 }
    requires accepted { AllAccepted state.now.classes asked.now.entries.now }
    ensures { IfOk result (λ v. v.items ≡ written_rows state.now (write_of asked.now)) }
{
    let mut rows = Vec::new(alloc);
    'entries: for (place, raw) in asked.entries.iter().enumerate() {
        let number = state.next_number + place as u64;
        rows.push(new_row(alloc, state, asked, caller, number, raw)?)?;
    }
    Ok(rows)
}

/// The row of an entry, with this number.
fn new_row(
    alloc: Global,
    state: &Core,
    asked: &WriteAsked,
    caller: Option<u64>,
    number: u64,
    raw: &Raw,
) -> Result<Row, NoMemory>
    requires time { state.now.time ≤ LAST_TIME }
    requires caller { caller ≡ transaction_named asked.now.txn }
    requires accepted { entry_fault state.now.classes raw.now ≡ None }
    ensures { IfOk result (λ r. r ≡ row_numbered number state.now (write_of asked.now) raw.now) }
{
    let entry = entry_of(alloc, &state.classes, raw)?;
    Ok(Row {
        number,
        space: place_of(state, asked.space),
        entry,
        end: state.time + ms_of(asked.lease),
        writer: caller,
        readers: Items::new(alloc),
        taker: None,
    })
}

/// Stores the rows, whole or not at all: registrations are owed them, and their numbers are drawn.
fn add_rows(state: &mut Core, rows: Vec<Row>, caller: Option<u64>) -> Result<(), NoMemory>
    requires { state.old.next_number + length rows.items < 2 ^ 64 }
    ensures ok { OnOk result (state.new ≡ with_new_rows state.old caller rows.items) }
    ensures err { OnErr result (state.new ≡ state.old) }
{
    let count = rows.len() as u64;
    let stored = &mut state.rows;
    let registrations = &mut state.registrations;
    store(&state.classes, stored, registrations, rows, caller)?;
    state.next_number += count;
    Ok(())
}

/// What a request is answered that draws one number: the lease of that number, and its time.
pub fn answer_leased(state: &Core, id: u64, lease: &i64) -> Reply
    ensures { result ≡ says.Leased id state.now.next_number (granted_ms lease.now) }
{
    Reply::Leased {
        id,
        lease: state.next_number,
        ms: ms_of(*lease),
    }
}

/// What a write of several entries is answered: the numbers of their leases, and their time (this
/// profile's own).
pub fn answer_write_all(
    alloc: Global,
    state: &Core,
    id: u64,
    count: usize,
    lease: i64,
) -> Result<Reply, NoMemory>
    requires numbers { state.now.next_number ≤ LAST_NUMBER + 1 }
    requires few { count ≤ 64 }
    ensures { IfOk result (λ r. r ≡ says.Batch id (range_with_len state.now.next_number count) (granted_ms lease)) }
{
    let leases = numbers_from(alloc, state.next_number, count)?;
    Ok(Reply::Batch {
        id,
        leases,
        ms: ms_of(lease),
    })
}

fn numbers_from(alloc: Global, first: u64, count: usize) -> Result<Items<u64>, NoMemory>
    requires { first + count < 2 ^ 64 }
    ensures { IfOk result (λ ns. ns ≡ range_with_len first count) }
{
    let mut numbers = Items::new(alloc);
    'places: for place in 0..count {
        numbers.push(first + place as u64)?;
    }
    Ok(numbers)
}
