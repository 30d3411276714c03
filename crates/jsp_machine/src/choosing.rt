//! Whether a request may be asked, given rows, or answered that there is nothing.
ghost use Rattle.std.specs.Prelude.{◌≡◌, IfOk};
ghost use Rattle.jsp_model.specs.declared.step.Step.TheVariants as step;
ghost use Rattle.jsp_model.specs.Refusals.{refusal as refusal_of};
ghost use Rattle.jsp_model.specs.Requests.{rows_asked};
ghost use Rattle.jsp_model.specs.Steps.{is_legal as legal, has_its_rows as has_rows};
ghost use Rattle.jsp_requests.specs.Judging.{judged as judged_of};
ghost use Rattle.jsp_machine.specs.Judging.{fits as fits_judged};

use crate::touching::{are_quiet, ask_touches};
use jsp_core::{Core, LiveImage};
use jsp_entries::blocked_named;
use jsp_requests::Judged;
use jsp_state::{due, has_conflict, has_none, is_choice, is_if, is_open};
use jsp_types::NoMemory;
use jsp_wire::Asked;
use std::alloc::Global;

/// A request is asked only where nothing is due and each space that it touches is quiet.
#[tactic(auto, unfolding(jsp_model::specs::Steps::is_legal, jsp_model::specs::Touches::touches))]
pub(crate) fn may_ask(
    alloc: Global,
    image: &LiveImage,
    session: u64,
    asked: &Asked,
    rows: &[u64],
    judged: &Judged,
) -> Result<bool, NoMemory>
    requires { judged.now ≡ judged_of image.now session asked.now.id asked.now.ask }
    ensures { IfOk result (λ b. b ≡ legal image.now (step.Ask session asked.now rows.now)) }
{
    let state = image.state();
    let spaces = ask_touches(alloc, state, asked.ask())?;
    let has_rows = has_its_rows(state, session, asked, rows, judged);
    Ok(
        is_open(state, session)
            && due(state).is_none()
            && are_quiet(image, spaces.as_slice())
            && has_rows,
    )
}

/// Whether the rows of a request's step are a choice, where it is for rows and isn't refused, and
/// else none.
fn has_its_rows(state: &Core, session: u64, asked: &Asked, rows: &[u64], judged: &Judged) -> bool
    requires { judged.now ≡ judged_of state.now session asked.now.id asked.now.ask }
    ensures { result ≡ has_rows state.now session asked.now.id rows.now (refusal_of state.now session asked.now.id asked.now.ask) (rows_asked asked.now.ask) }
{
    fits(state, judged, rows)
}

fn fits(state: &Core, judged: &Judged, rows: &[u64]) -> bool
    ensures { result ≡ fits_judged state.now judged.now rows.now }
{
    match judged {
        Judged::Rows(wanted) => is_choice(state, &wanted.request, rows),
        Judged::Refused(_) | Judged::Plain => rows.is_empty(),
    }
}

/// A blocked request is given a choice of rows, and at least one.
#[tactic(auto, unfolding(jsp_model::specs::Steps::is_legal))]
pub(crate) fn may_grant(state: &Core, number: u64, rows: &[u64]) -> bool
    ensures { result ≡ legal state.now (step.Grant number rows.now) }
{
    match blocked_named(state, number) {
        None => false,
        Some(blocked) => 0 < rows.len() && is_choice(state, blocked, rows),
    }
}

/// A blocked request that waits only for a row in conflict is answered that there is nothing once
/// there is neither a row for it nor a conflict.
#[tactic(auto, unfolding(jsp_model::specs::Steps::is_legal))]
pub(crate) fn may_say_nothing(state: &Core, number: u64) -> bool
    ensures { result ≡ legal state.now (step.Empty number) }
{
    match blocked_named(state, number) {
        None => false,
        Some(blocked) => {
            is_if(blocked.form) && has_none(state, blocked) && !has_conflict(state, blocked)
        }
    }
}
