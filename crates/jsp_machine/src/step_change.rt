//! The change that a step makes, apart from what it says.
ghost use Rattle.std.specs.Prelude.{◌≡◌, true, OnOk, OnErr};
ghost use Rattle.jsp_model.specs.Refusals.{refusal as refusal_of};
ghost use Rattle.jsp_model.specs.Requests.{rows_asked};
ghost use Rattle.jsp_model.specs.Steps.{change as changed, after_ask, has_its_rows};
ghost use Rattle.jsp_model.specs.Limits.{IsWithinLimits};
ghost use Rattle.jsp_machine.specs.Changing.{has_its_choice, at_time, after_fault, decided};
ghost use Rattle.jsp_requests.specs.Judging.{judged as judged_of};
ghost use Rattle.jsp_machine.specs.Judging.{judged_in};

use jsp_core::Core;
use jsp_entries::{accept_rows, grant, unblock};
use jsp_grants::tell;
use jsp_model::{LAST_TIME, Step};
use jsp_reply::Refusal;
use jsp_requests::{Judged, accept};
use jsp_state::{close, open};
use jsp_transactions::{abort, cast_vote, commit, remove};
use jsp_types::NoMemory;
use jsp_wire::Asked;
use std::alloc::Global;

/// Makes the change of a step, whole or not at all, where its request was judged so. What waits to
/// be handed out stays.
pub(crate) fn change(
    alloc: Global,
    state: &mut Core,
    step: &Step,
    judged: Judged,
) -> Result<(), NoMemory>
    requires limits { IsWithinLimits state.old }
    requires choice { has_its_choice state.old step.now ≡ true }
    requires judged { judged ≡ judged_in state.old step.now }
    ensures ok { OnOk result (state.new ≡ changed state.old step.now) }
    ensures err { OnErr result (state.new ≡ state.old) }
{
    match step {
        Step::Open { session } => return open(state, *session),
        Step::Shut { session } => close(state, *session),
        Step::Clock { time } => set_clock(state, *time),
        Step::Ask {
            session,
            asked,
            rows,
        } => return ask(alloc, state, *session, asked, rows.as_slice(), judged),
        Step::Fault {
            session,
            refusal,
            ..
        } => fault(state, *session, *refusal),
        Step::Grant { blocked, rows } => return grant(state, *blocked, rows.as_slice()),
        Step::Empty { blocked } => unblock(state, *blocked),
        Step::Tell { registration } => return tell(state, *registration),
        Step::Due { item } => remove(state, item.rank, item.number),
        Step::Vote { transaction, space } => cast_vote(state, *transaction, *space),
        Step::Decide {
            transaction,
            commits,
        } => return decide(alloc, state, *transaction, *commits),
        Step::HandOut { .. } => {}
    }
    Ok(())
}

/// The greatest reading of the clock so far (that it stops is this profile's own).
fn set_clock(state: &mut Core, time: u64)
    ensures { state.new ≡ at_time state.old time }
{
    state.time = state.time.max(time.min(LAST_TIME));
}

/// A request is accepted, or refused: then it changes nothing.
fn ask(
    alloc: Global,
    state: &mut Core,
    session: u64,
    asked: &Asked,
    rows: &[u64],
    judged: Judged,
) -> Result<(), NoMemory>
    requires limits { IsWithinLimits state.old }
    requires choice { has_its_rows state.old session asked.now.id rows.now (refusal_of state.old session asked.now.id asked.now.ask) (rows_asked asked.now.ask) ≡ true }
    requires judged { judged ≡ judged_of state.old session asked.now.id asked.now.ask }
    ensures ok { OnOk result (state.new ≡ after_ask state.old session asked.now.id rows.now asked.now.ask (refusal_of state.old session asked.now.id asked.now.ask)) }
    ensures err { OnErr result (state.new ≡ state.old) }
{
    let id = asked.id();
    let ask = asked.ask();
    match judged {
        Judged::Refused(_) => Ok(()),
        Judged::Rows(wanted) => accept_rows(state, wanted, rows),
        Judged::Plain => accept(alloc, state, session, id, ask),
    }
}

/// A frame that is too long closes its session.
fn fault(state: &mut Core, session: u64, refusal: Refusal)
    ensures { state.new ≡ after_fault state.old session refusal }
{
    if matches!(refusal, Refusal::TooLong) {
        close(state, session);
    }
}

fn decide(alloc: Global, state: &mut Core, x: u64, commits: bool) -> Result<(), NoMemory>
    ensures ok { OnOk result (state.new ≡ decided state.old x commits) }
    ensures err { OnErr result (state.new ≡ state.old) }
{
    if commits {
        return commit(alloc, state, x);
    }
    abort(state, x);
    Ok(())
}
