//! A request for rows, and as it waits.
ghost use Rattle.std.specs.Prelude.{◌≡◌, ◌==◌, ◌≤◌, ◌^◌, IfOk, filter, find, nat_lt, not, option_copied};
ghost use Rattle.jsp_model.specs.Lookup.{blocked_of};
ghost use Rattle.jsp_model.specs.Requests.{as_blocked as waiting_as};
ghost use Rattle.jsp_model.specs.Changes.{unblock as unblocked};
ghost use Rattle.jsp_state.specs.Fitting.{AllFit};
ghost use Rattle.jsp_entries.specs.Asking.{rows_of, end_asked};
ghost use Rattle.jsp_entries.specs.Searching.{wanted};
ghost use Rattle.jsp_model.specs.Lookup.{named as number_named};
ghost use Rattle.jsp_model.specs.declared.limits.TheConstants.{LAST_TIME};

use jsp_core::Core;
use jsp_model::{Blocked, Form, NEVER};
use jsp_state::{caller_of, named, place_of, templates_of};
use jsp_types::{NoMemory, Raw};
use std::alloc::Global;

/// What a request for rows asks for: at most so many rows of a space that one of the templates
/// matches.
#[derive(Clone, Copy)]
pub struct RowsAsked<'a> {
    pub form: Form,
    pub space: &'a str,
    pub templates: &'a [Option<Raw>],
    pub most: u64,
    /// In milliseconds.
    pub timeout: i64,
    pub txn: Option<i64>,
}

/// A request for rows that isn't refused, as it would wait, and whether it may.
#[derive(Drop)]
pub struct RowsWanted {
    pub request: Blocked,
    /// Whether its timeout is above 0.
    pub may_wait: bool,
}

/// The request as it would wait, and whether it may.
pub(crate) fn want(
    alloc: Global,
    state: &Core,
    session: u64,
    id: u64,
    asked: &RowsAsked,
) -> Result<RowsWanted, NoMemory>
    requires time { state.now.time ≤ LAST_TIME }
    requires templates { AllFit state.now.classes asked.now.templates.now }
    ensures { IfOk result (λ w. w ≡ wanted state.now session id (rows_of asked.now)) }
{
    let request = as_blocked(alloc, state, session, id, asked)?;
    Ok(RowsWanted {
        request,
        may_wait: may_wait(asked),
    })
}

fn may_wait(asked: &RowsAsked) -> bool
    ensures { result ≡ nat_lt 0 (number_named asked.now.timeout) }
{
    0 < named(asked.timeout)
}

/// The request as it waits, under the next number.
pub fn as_blocked(
    alloc: Global,
    state: &Core,
    session: u64,
    id: u64,
    asked: &RowsAsked,
) -> Result<Blocked, NoMemory>
    requires time { state.now.time ≤ LAST_TIME }
    requires templates { AllFit state.now.classes asked.now.templates.now }
    ensures { IfOk result (λ b. b ≡ waiting_as state.now session id (rows_of asked.now)) }
{
    let templates = templates_of(alloc, &state.classes, asked.templates)?;
    Ok(Blocked {
        number: state.next_number,
        session,
        id,
        space: place_of(state, asked.space),
        templates,
        transaction: caller_of(asked.txn),
        form: asked.form,
        most: asked.most,
        end: end_of(state, asked),
    })
}

fn end_of(state: &Core, asked: &RowsAsked) -> u64
    requires { state.now.time ≤ LAST_TIME }
    ensures { result ≡ end_asked state.now (rows_of asked.now) }
{
    (state.time + named(asked.timeout)).min(NEVER)
}

/// The request of this number that waits, if there is one.
pub fn blocked_named(state: &Core, number: u64) -> Option<&Blocked>
    ensures { option_copied result ≡ blocked_of state.now number }
{
    state.blocked.get(number)
}

/// The request of this number waits no longer.
pub fn unblock(state: &mut Core, number: u64)
    ensures { state.new ≡ unblocked state.old number }
{
    let blocked = &mut state.blocked;
    blocked.remove(number);
}
