//! What is found out of a request, once, for all that comes of it.
ghost use Rattle.std.specs.Prelude.{◌≡◌, ◌≤◌, None, Some, IfOk, IsTrue};
ghost use Rattle.jsp_types.specs.Tests.{first_that};
ghost use Rattle.jsp_wire.specs.Limits.{has_fitting_parts};
ghost use Rattle.jsp_model.specs.Requests.{one_row, many_rows, rows_asked};
ghost use Rattle.jsp_model.specs.Refusals.{own_tests, rows_tests};
ghost use Rattle.jsp_requests.specs.Judging.{judged, judged_rows};
ghost use Rattle.jsp_model.specs.declared.limits.TheConstants.{LAST_TIME};

use crate::ask::refusal;
use jsp_core::Core;
use jsp_entries::{RowsWanted, want_many, want_one};
use jsp_model::Form;
use jsp_reply::Refusal;
use jsp_types::NoMemory;
use jsp_wire::{Ask, Search, TakeMany};
use std::alloc::Global;

/// What is found out of a request in a state.
#[derive(Drop)]
pub enum Judged {
    /// It is refused, and changes nothing.
    Refused(Refusal),
    /// It isn't refused, and is for rows.
    Rows(RowsWanted),
    /// It isn't refused, and is for none.
    Plain,
}

/// Judges a request: whether it is refused, and else what rows it wants.
pub fn judge(
    alloc: Global,
    state: &Core,
    session: u64,
    id: u64,
    ask: &Ask,
) -> Result<Judged, NoMemory>
    requires time { state.now.time ≤ LAST_TIME }
    requires fits { IsTrue (has_fitting_parts ask.now) }
    ensures { IfOk result (λ j. j ≡ judged state.now session id ask.now) }
{
    match refusal(alloc, state, session, id, ask)? {
        Some(refusal) => Ok(Judged::Refused(refusal)),
        None => judge_rows(alloc, state, session, id, ask),
    }
}

/// What rows a request wants that isn't refused.
fn judge_rows(
    alloc: Global,
    state: &Core,
    session: u64,
    id: u64,
    ask: &Ask,
) -> Result<Judged, NoMemory>
    requires time { state.now.time ≤ LAST_TIME }
    requires accepted { first_that (own_tests state.now session id ask.now) ≡ None }
    ensures { IfOk result (λ j. j ≡ judged_rows state.now session id (rows_asked ask.now)) }
{
    match ask {
        Ask::Read(search) => judge_one(alloc, state, session, id, Form::Read, search),
        Ask::ReadIf(search) => judge_one(alloc, state, session, id, Form::ReadIf, search),
        Ask::Take(search) => judge_one(alloc, state, session, id, Form::Take, search),
        Ask::TakeIf(search) => judge_one(alloc, state, session, id, Form::TakeIf, search),
        Ask::TakeMany(search) => judge_many(alloc, state, session, id, search),
        _ => Ok(Judged::Plain),
    }
}

fn judge_one(
    alloc: Global,
    state: &Core,
    session: u64,
    id: u64,
    form: Form,
    search: &Search,
) -> Result<Judged, NoMemory>
    requires time { state.now.time ≤ LAST_TIME }
    requires accepted { first_that (rows_tests state.now session id (one_row form search.now)) ≡ None }
    ensures { IfOk result (λ j. j ≡ judged_rows state.now session id (Some (one_row form search.now))) }
{
    let wanted = want_one(alloc, state, session, id, form, search)?;
    Ok(Judged::Rows(wanted))
}

fn judge_many(
    alloc: Global,
    state: &Core,
    session: u64,
    id: u64,
    search: &TakeMany,
) -> Result<Judged, NoMemory>
    requires time { state.now.time ≤ LAST_TIME }
    requires accepted { first_that (rows_tests state.now session id (many_rows search.now)) ≡ None }
    ensures { IfOk result (λ j. j ≡ judged_rows state.now session id (Some (many_rows search.now))) }
{
    let wanted = want_many(alloc, state, session, id, search)?;
    Ok(Judged::Rows(wanted))
}
