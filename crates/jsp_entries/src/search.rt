//! Reading and taking: `read`, `take`, their IfExists forms, and `take_many`.
ghost use Rattle.std.specs.Prelude.{◌≡◌, ◌≤◌, ◌<◌, ◌^◌, true, false, length, map, option_map, option_to_list, if◌then◌else◌, None, Some, IfOk, OnOk, OnErr, IsTrue};
ghost use Rattle.jsp_types.specs.Tests.{first_that};
ghost use Rattle.jsp_model.specs.declared.state.Form.TheVariants as form;
ghost use Rattle.jsp_model.specs.declared.state.Blocked.{Blocked as Waiting};
ghost use Rattle.jsp_model.specs.Lookup.{blocked_of};
ghost use Rattle.jsp_model.specs.Sight.{is_take as takes};
ghost use Rattle.jsp_model.specs.Limits.{are_rising};
ghost use Rattle.jsp_model.specs.Changes.{block, give as given};
ghost use Rattle.jsp_model.specs.Steps.{after_grant, is_choice};
ghost use Rattle.jsp_model.specs.Answers.{is_many as many};
ghost use Rattle.jsp_model.specs.Refusals.{rows_tests, is_negative as lies_below_zero};
ghost use Rattle.jsp_state.specs.Fitting.{AllFit};
ghost use Rattle.jsp_entries.specs.Asking.{rows_of};
ghost use Rattle.jsp_entries.specs.Searching.{waiting_tests, waiting_limits, waits as waits_now, served, said_at_once, form_and_caller, reply_with};
ghost use Rattle.jsp_model.specs.declared.limits.TheConstants.{LAST_TIME};

use crate::blocking::{RowsAsked, RowsWanted, as_blocked, blocked_named, unblock};
use crate::giving::give;
use jsp_core::Core;
use jsp_model::{Blocked, Form};
use jsp_reply::{Refusal, Reply};
use jsp_state::{
    entries_of, has_conflict, is_if, is_used_up, must_wait, named, space_refusal,
    templates_refusal, waits_for_many,
};
use jsp_transactions::{join, leave};
use jsp_types::{Entry, Items, NoMemory, Template};
use std::alloc::Global;

/// Why a request for rows is refused, or nothing where it isn't (the order is this profile's own).
pub fn refuse_search(
    alloc: Global,
    state: &Core,
    session: u64,
    id: u64,
    asked: &RowsAsked,
) -> Result<Option<Refusal>, NoMemory>
    requires { state.now.time ≤ LAST_TIME }
    ensures { IfOk result (λ r. r ≡ first_that (rows_tests state.now session id (rows_of asked.now))) }
{
    if let Some(refusal) = space_refusal(state, asked.space, asked.txn) {
        return Ok(Some(refusal));
    }
    if let Some(refusal) = templates_refusal(state, asked.templates) {
        return Ok(Some(refusal));
    }
    refuse_to_wait(alloc, state, session, id, asked)
}

/// Why a request for rows that could be answered can't wait.
fn refuse_to_wait(
    alloc: Global,
    state: &Core,
    session: u64,
    id: u64,
    asked: &RowsAsked,
) -> Result<Option<Refusal>, NoMemory>
    requires time { state.now.time ≤ LAST_TIME }
    requires templates { AllFit state.now.classes asked.now.templates.now }
    ensures { IfOk result (λ r. r ≡ first_that (waiting_tests state.now session id (rows_of asked.now))) }
{
    if is_negative(asked) {
        return Ok(Some(Refusal::BadTimeout));
    }
    // Of one that doesn't want to wait nothing needs to be counted.
    if named(asked.timeout) == 0 {
        return Ok(None);
    }
    let Some(refusal) = why_none_waits(state, session) else {
        return Ok(None);
    };
    // Whether it would wait is looked at last, since it is dear.
    let blocked = as_blocked(alloc, state, session, id, asked)?;
    if must_wait(state, &blocked) {
        Ok(Some(refusal))
    } else {
        Ok(None)
    }
}

/// Why no request of the session can wait now, if none can.
fn why_none_waits(state: &Core, session: u64) -> Option<Refusal>
    ensures { result ≡ first_that (waiting_limits state.now session) }
{
    if waits_for_many(state, session) {
        return Some(Refusal::TooManyWaiting);
    }
    if is_used_up(state, 1) {
        return Some(Refusal::UsedUp);
    }
    None
}

fn is_negative(asked: &RowsAsked) -> bool
    ensures { result ≡ lies_below_zero asked.now.timeout }
{
    asked.timeout < 0
}

/// Whether the request waits, which is given these rows. One that is given some doesn't, so nothing
/// is searched for again.
fn waits(state: &Core, wanted: &RowsWanted, rows: &[u64]) -> bool
    requires some { 1 ≤ wanted.now.request.most }
    requires given { is_choice state.now wanted.now.request rows.now ≡ true }
    ensures { result ≡ waits_now state.now wanted.now }
{
    if !wanted.may_wait || !rows.is_empty() {
        return false;
    }
    if !is_if(wanted.request.form) {
        return true;
    }
    has_conflict(state, &wanted.request)
}

/// Gives the request its rows, or lets it wait for some, whole or not at all. Its space joins its
/// transaction.
pub fn accept_rows(state: &mut Core, wanted: RowsWanted, rows: &[u64]) -> Result<(), NoMemory>
    requires numbers { state.old.next_number < 2 ^ 63 }
    requires rows { IsTrue (are_rising 0 state.old.next_number (map (λ r. r.number) state.old.rows)) }
    requires some { 1 ≤ wanted.request.most }
    requires given { is_choice state.old wanted.request rows.now ≡ true }
    requires one { takes wanted.request.form ≡ false → length rows.now ≤ 1 }
    ensures ok { OnOk result (state.new ≡ served state.old wanted rows.now) }
    ensures err { OnErr result (state.new ≡ state.old) }
{
    let waits = waits(state, &wanted, rows);
    let RowsWanted { request, .. } = wanted;
    learn(state, &request, rows);
    let joining = join(state, request.transaction, request.space)?;
    match block_or_give(state, request, waits, rows) {
        Ok(()) => Ok(()),
        Err(e) => {
            leave(state, joining);
            Err(e)
        }
    }
}

/// Where a search by several values had to look at many rows, more is learned of how to find such
/// ones sooner.
fn learn(state: &mut Core, request: &Blocked, rows: &[u64])
    ensures { state.new ≡ state.old }
{
    let last = rows.last().copied();
    'templates: for template in request.templates.as_slice() {
        learn_of(state, request.space, template, last);
    }
}

fn learn_of(state: &mut Core, space: u64, template: &Template, last: Option<u64>)
    ensures { state.new ≡ state.old }
{
    if let Template::Like(entry) = template {
        let rows = &mut state.rows;
        rows.learn(space, entry.fields.as_slice(), last);
    }
}

fn block_or_give(
    state: &mut Core,
    request: Blocked,
    waits: bool,
    rows: &[u64],
) -> Result<(), NoMemory>
    requires numbers { state.old.next_number < 2 ^ 63 }
    requires rows { IsTrue (are_rising 0 state.old.next_number (map (λ r. r.number) state.old.rows)) }
    requires one { takes request.form ≡ false → length rows.now ≤ 1 }
    ensures ok { OnOk result (state.new ≡ (if waits then block state.old request else given state.old request rows.now)) }
    ensures err { OnErr result (state.new ≡ state.old) }
{
    if waits {
        state.blocked.push(request)?;
        state.next_number += 1;
        return Ok(());
    }
    give(state, request.form, request.transaction, rows)
}

/// Gives a request that waits its rows, whole or not at all.
pub fn grant(state: &mut Core, number: u64, rows: &[u64]) -> Result<(), NoMemory>
    requires rows { IsTrue (are_rising 0 state.old.next_number (map (λ r. r.number) state.old.rows)) }
    requires one { (b : Waiting) → blocked_of state.old number ≡ Some b → takes b.form ≡ false → length rows.now ≤ 1 }
    ensures ok { OnOk result (state.new ≡ after_grant state.old number rows.now (blocked_of state.old number)) }
    ensures err { OnErr result (state.new ≡ state.old) }
{
    match request_named(state, number) {
        None => Ok(()),
        Some((form, caller)) => {
            give(state, form, caller, rows)?;
            unblock(state, number);
            Ok(())
        }
    }
}

/// The form and the caller of the request of this number that waits.
fn request_named(state: &Core, number: u64) -> Option<(Form, Option<u64>)>
    ensures { result ≡ option_map form_and_caller (blocked_of state.now number) }
{
    match blocked_named(state, number) {
        None => None,
        Some(blocked) => Some((blocked.form, blocked.transaction)),
    }
}

/// What a request for rows is answered at once: the entries of the rows that it is given, that there
/// are none, or nothing where it waits.
pub fn answer_rows(
    alloc: Global,
    state: &Core,
    wanted: &RowsWanted,
    rows: &[u64],
) -> Result<Option<Reply>, NoMemory>
    requires some { 1 ≤ wanted.now.request.most }
    requires given { is_choice state.now wanted.now.request rows.now ≡ true }
    ensures { IfOk result (λ r. option_to_list r ≡ said_at_once state.now wanted.now rows.now) }
{
    if waits(state, wanted, rows) {
        return Ok(None);
    }
    let request = &wanted.request;
    let entries = entries_of(alloc, state, rows)?;
    Ok(Some(answer_with(request.form, request.id, entries)))
}

/// The answer to a request for rows that is given these entries (JavaSpaces: the entry, or null;
/// for many, this profile's own: a list, or null).
pub fn answer_with(form: Form, id: u64, entries: Items<Entry>) -> Reply
    ensures { result ≡ reply_with form id entries }
{
    if is_many(form) {
        return answer_with_all(id, entries);
    }
    match entries.into_vec().into_iter().next() {
        None => Reply::Nothing { id },
        Some(entry) => Reply::Shown { id, entry },
    }
}

fn answer_with_all(id: u64, entries: Items<Entry>) -> Reply
    ensures { result ≡ reply_with form.TakeMany id entries }
{
    if entries.as_slice().is_empty() {
        Reply::Nothing { id }
    } else {
        Reply::Many { id, entries }
    }
}

fn is_many(form: Form) -> bool
    ensures { result ≡ many form }
{
    matches!(form, Form::TakeMany)
}
