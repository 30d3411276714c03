//! The requests on entries as clients send them: one row or several, one entry or several.
ghost use Rattle.std.specs.Prelude.{◌≡◌, ◌≤◌, ◌+◌, ◌∷◌, [], length, None, IfOk, OnOk, OnErr, option_to_list};
ghost use Rattle.std.specs.List.{range_with_len};
ghost use Rattle.jsp_types.specs.Tests.{first_that};
ghost use Rattle.jsp_lease.specs.Granted.{ms_of as granted_ms};
ghost use Rattle.jsp_reply.specs.declared.reply.Reply.TheVariants as says;
ghost use Rattle.jsp_model.specs.Requests.{one_row as one_of, many_rows as many_of, one_entry as entry_written, all_entries as entries_written};
ghost use Rattle.jsp_model.specs.Refusals.{rows_tests, write_tests};
ghost use Rattle.jsp_model.specs.Changes.{write as written};
ghost use Rattle.jsp_entries.specs.Asking.{rows_of, write_of};
ghost use Rattle.jsp_entries.specs.Searching.{wanted};
ghost use Rattle.jsp_model.specs.declared.limits.TheConstants.{LAST_NUMBER, LAST_TIME};

use crate::blocking::{RowsAsked, RowsWanted, want};
use crate::search::refuse_search;
use crate::write::{WriteAsked, accept_write, answer_write_all, refuse_write};
use jsp_core::Core;
use jsp_model::Form;
use jsp_reply::{Refusal, Reply};
use jsp_types::NoMemory;
use jsp_wire::{Search, TakeMany, Write, WriteAll};
use std::alloc::Global;
use std::slice::from_ref;

/// A request for one row.
fn one_row(form: Form, search: &Search) -> RowsAsked<'_>
    ensures { rows_of result ≡ one_of form search.now }
{
    RowsAsked {
        form,
        space: search.space.as_str(),
        templates: from_ref(&search.template),
        most: 1,
        timeout: search.timeout,
        txn: search.txn,
    }
}

/// A request for several rows.
fn many_rows(search: &TakeMany) -> RowsAsked<'_>
    ensures { rows_of result ≡ many_of search.now }
{
    RowsAsked {
        form: Form::TakeMany,
        space: search.space.as_str(),
        templates: search.templates.as_slice(),
        most: search.most,
        timeout: search.timeout,
        txn: search.txn,
    }
}

/// A write of one entry.
fn one_entry(write: &Write) -> WriteAsked<'_>
    ensures { write_of result ≡ entry_written write.now }
{
    WriteAsked {
        space: write.space.as_str(),
        entries: from_ref(&write.entry),
        lease: write.lease,
        txn: write.txn,
    }
}

/// A write of several entries.
fn all_entries(write: &WriteAll) -> WriteAsked<'_>
    ensures { write_of result ≡ entries_written write.now }
{
    WriteAsked {
        space: write.space.as_str(),
        entries: write.entries.as_slice(),
        lease: write.lease,
        txn: write.txn,
    }
}

/// Why a request for one row is refused, or nothing where it isn't.
pub fn refuse_one(
    alloc: Global,
    state: &Core,
    session: u64,
    id: u64,
    form: Form,
    search: &Search,
) -> Result<Option<Refusal>, NoMemory>
    requires { state.now.time ≤ LAST_TIME }
    ensures { IfOk result (λ r. r ≡ first_that (rows_tests state.now session id (one_of form search.now))) }
{
    refuse_search(alloc, state, session, id, &one_row(form, search))
}

/// Why a request for several rows is refused, or nothing where it isn't.
pub fn refuse_many(
    alloc: Global,
    state: &Core,
    session: u64,
    id: u64,
    search: &TakeMany,
) -> Result<Option<Refusal>, NoMemory>
    requires { state.now.time ≤ LAST_TIME }
    ensures { IfOk result (λ r. r ≡ first_that (rows_tests state.now session id (many_of search.now))) }
{
    refuse_search(alloc, state, session, id, &many_rows(search))
}

/// The request for one row as it would wait, and whether it may.
pub fn want_one(
    alloc: Global,
    state: &Core,
    session: u64,
    id: u64,
    form: Form,
    search: &Search,
) -> Result<RowsWanted, NoMemory>
    requires time { state.now.time ≤ LAST_TIME }
    requires accepted { first_that (rows_tests state.now session id (one_of form search.now)) ≡ None }
    ensures { IfOk result (λ w. w ≡ wanted state.now session id (one_of form search.now)) }
{
    let asked = one_row(form, search);
    want(alloc, state, session, id, &asked)
}

/// The request for several rows as it would wait, and whether it may.
pub fn want_many(
    alloc: Global,
    state: &Core,
    session: u64,
    id: u64,
    search: &TakeMany,
) -> Result<RowsWanted, NoMemory>
    requires time { state.now.time ≤ LAST_TIME }
    requires accepted { first_that (rows_tests state.now session id (many_of search.now)) ≡ None }
    ensures { IfOk result (λ w. w ≡ wanted state.now session id (many_of search.now)) }
{
    let asked = many_rows(search);
    want(alloc, state, session, id, &asked)
}

/// Why a write of one entry is refused, or nothing where it isn't.
pub fn refuse_entry(state: &Core, write: &Write) -> Option<Refusal>
    ensures { result ≡ first_that (write_tests state.now (entry_written write.now)) }
{
    refuse_write(state, &one_entry(write))
}

/// Why a write of several entries is refused, or nothing where it isn't.
pub fn refuse_entries(state: &Core, write: &WriteAll) -> Option<Refusal>
    requires { length write.now.entries ≤ 64 }
    ensures { result ≡ first_that (write_tests state.now (entries_written write.now)) }
{
    refuse_write(state, &all_entries(write))
}

/// Writes one entry, whole or not at all (JavaSpaces write).
pub fn accept_entry(alloc: Global, state: &mut Core, write: &Write) -> Result<(), NoMemory>
    requires time { state.old.time ≤ LAST_TIME }
    requires numbers { state.old.next_number ≤ LAST_NUMBER + 1 }
    requires accepted { first_that (write_tests state.old (entry_written write.now)) ≡ None }
    ensures ok { OnOk result (state.new ≡ written state.old (entry_written write.now)) }
    ensures err { OnErr result (state.new ≡ state.old) }
{
    let asked = one_entry(write);
    accept_write(alloc, state, &asked)
}

/// Writes several entries, all or none (this profile's own).
pub fn accept_entries(alloc: Global, state: &mut Core, write: &WriteAll) -> Result<(), NoMemory>
    requires time { state.old.time ≤ LAST_TIME }
    requires numbers { state.old.next_number ≤ LAST_NUMBER + 1 }
    requires few { length write.now.entries ≤ 64 }
    requires accepted { first_that (write_tests state.old (entries_written write.now)) ≡ None }
    ensures ok { OnOk result (state.new ≡ written state.old (entries_written write.now)) }
    ensures err { OnErr result (state.new ≡ state.old) }
{
    let asked = all_entries(write);
    accept_write(alloc, state, &asked)
}

/// What a write of several entries is answered: their leases, and the time granted in milliseconds.
pub fn answer_entries(
    alloc: Global,
    state: &Core,
    id: u64,
    write: &WriteAll,
) -> Result<Option<Reply>, NoMemory>
    requires numbers { state.now.next_number ≤ LAST_NUMBER + 1 }
    requires few { length write.now.entries ≤ 64 }
    ensures { IfOk result (λ r. option_to_list r ≡ says.Batch id (range_with_len state.now.next_number (length write.now.entries)) (granted_ms write.now.lease) ∷ []) }
{
    let count = write.entries.as_slice().len();
    let batch = answer_write_all(alloc, state, id, count, write.lease)?;
    Ok(Some(batch))
}
