//! What a step says, and to whom, whether or not the session is open still.
ghost use Rattle.std.specs.Prelude.{◌≡◌, ◌≤◌, ◌++◌, ◌∷◌, [], map, option_to_list, true, None, IfOk, IsTrue};
ghost use Rattle.jsp_wire.specs.Limits.{has_fitting_parts};
ghost use Rattle.jsp_reply.specs.declared.reply.Reply.{Reply as PlainReply};
ghost use Rattle.jsp_reply.specs.declared.reply.Reply.TheVariants as says;
ghost use Rattle.jsp_model.specs.Lookup.{blocked_of};
ghost use Rattle.jsp_types.specs.Tests.{first_that};
ghost use Rattle.jsp_model.specs.Refusals.{refusal as refusal_of, own_tests};
ghost use Rattle.jsp_model.specs.Answers.{all_said as all_said_by, said_to_ask as said_to, said_to_blocked, said_when_due as said_at_end, entries_of as entries_in, answer as answer_of, told_others as told_to_others};
ghost use Rattle.jsp_model.specs.Limits.{IsWithinLimits};
ghost use Rattle.jsp_model.specs.Requests.{rows_asked};
ghost use Rattle.jsp_model.specs.Steps.{has_its_rows, is_choice};
ghost use Rattle.jsp_entries.specs.Searching.{said_at_once};
ghost use Rattle.jsp_requests.specs.Judging.{judged as judged_of};
ghost use Rattle.jsp_machine.specs.Changing.{has_its_choice};
ghost use Rattle.jsp_machine.specs.Judging.{judged_in};

use crate::telling::event_of;
use jsp_core::Core;
use jsp_entries::{RowsWanted, answer_rows, answer_with, blocked_named};
use jsp_model::{Item, Rank, Step};
use jsp_reply::{Refusal, Reply};
use jsp_requests::{Judged, answer, answer_commit, refuse_under, told_others};
use jsp_state::entries_of;
use jsp_types::{Entry, Items, NoMemory};
use jsp_wire::{Ask, Asked};
use std::alloc::Global;

/// What a step says to all sessions, in order, where its request was judged so.
pub(crate) fn all_said(
    alloc: Global,
    state: &Core,
    step: &Step,
    judged: &Judged,
) -> Result<Vec<(u64, Reply)>, NoMemory>
    requires limits { IsWithinLimits state.now }
    requires choice { has_its_choice state.now step.now ≡ true }
    requires judged { judged.now ≡ judged_in state.now step.now }
    ensures { IfOk result (λ v. v.items ≡ all_said_by state.now step.now) }
{
    match step {
        Step::Ask {
            session,
            asked,
            rows,
        } => said_to_ask(alloc, state, *session, asked, rows.as_slice(), judged),
        Step::Fault {
            session,
            id,
            refusal,
        } => only(alloc, *session, refused(*id, *refusal)),
        Step::Grant { blocked, rows } => grant(alloc, state, *blocked, rows.as_slice()),
        Step::Empty { blocked } => nothing(alloc, state, *blocked),
        Step::Tell { registration } => event_of(alloc, state, *registration),
        Step::Due { item } => said_when_due(alloc, state, *item),
        Step::Decide {
            transaction,
            commits,
        } => answer_commit(alloc, state, *transaction, *commits),
        _ => Ok(Vec::new(alloc)),
    }
}

fn refused(id: Option<u64>, refusal: Refusal) -> Reply
    ensures { result ≡ says.Refused id refusal }
{
    Reply::Refused { id, refusal }
}

/// A request is refused, or answered if it has an answer at once, and others may be told of it.
fn said_to_ask(
    alloc: Global,
    state: &Core,
    session: u64,
    asked: &Asked,
    rows: &[u64],
    judged: &Judged,
) -> Result<Vec<(u64, Reply)>, NoMemory>
    requires limits { IsWithinLimits state.now }
    requires choice { has_its_rows state.now session asked.now.id rows.now (refusal_of state.now session asked.now.id asked.now.ask) (rows_asked asked.now.ask) ≡ true }
    requires judged { judged.now ≡ judged_of state.now session asked.now.id asked.now.ask }
    ensures { IfOk result (λ v. v.items ≡ said_to state.now session asked.now.id rows.now asked.now.ask (refusal_of state.now session asked.now.id asked.now.ask)) }
{
    let id = asked.id();
    let ask = asked.ask();
    match judged {
        Judged::Refused(refusal) => only(alloc, session, refused(Some(id), *refusal)),
        Judged::Rows(wanted) => said_to_rows(alloc, state, session, wanted, rows),
        Judged::Plain => said_when_accepted(alloc, state, session, id, ask),
    }
}

/// A request for rows is answered with what it is given, or waits. Nobody else is told of it.
fn said_to_rows(
    alloc: Global,
    state: &Core,
    session: u64,
    wanted: &RowsWanted,
    rows: &[u64],
) -> Result<Vec<(u64, Reply)>, NoMemory>
    requires some { 1 ≤ wanted.now.request.most }
    requires given { is_choice state.now wanted.now.request rows.now ≡ true }
    ensures { IfOk result (λ v. v.items ≡ map (λ (x : PlainReply). (session, x)) (said_at_once state.now wanted.now rows.now)) }
{
    to_session(alloc, session, answer_rows(alloc, state, wanted, rows)?)
}

fn said_when_accepted(
    alloc: Global,
    state: &Core,
    session: u64,
    id: u64,
    ask: &Ask,
) -> Result<Vec<(u64, Reply)>, NoMemory>
    requires limits { IsWithinLimits state.now }
    requires fits { IsTrue (has_fitting_parts ask.now) }
    requires accepted { first_that (own_tests state.now session id ask.now) ≡ None }
    requires plain { rows_asked ask.now ≡ None }
    ensures { IfOk result (λ v. v.items ≡ map (λ (x : PlainReply). (session, x)) (answer_of state.now session id [] ask.now) ++ told_to_others state.now ask.now) }
{
    let mut replies = to_session(alloc, session, answer(alloc, state, session, id, ask)?)?;
    let mut others = told_others(alloc, state, ask)?;
    replies.append(&mut others)?;
    Ok(replies)
}

/// The answer, if there is one, to the session.
fn to_session(
    alloc: Global,
    session: u64,
    answer: Option<Reply>,
) -> Result<Vec<(u64, Reply)>, NoMemory>
    ensures { IfOk result (λ v. v.items ≡ map (λ (x : PlainReply). (session, x)) (option_to_list answer)) }
{
    match answer {
        None => Ok(Vec::new(alloc)),
        Some(reply) => only(alloc, session, reply),
    }
}

/// One reply alone.
pub(crate) fn only(alloc: Global, session: u64, reply: Reply) -> Result<Vec<(u64, Reply)>, NoMemory>
    ensures { IfOk result (λ v. v.items ≡ (session, reply) ∷ []) }
{
    let mut replies = Vec::new(alloc);
    replies.push((session, reply))?;
    Ok(replies)
}

/// A request that waits is given the entries of these rows.
fn grant(
    alloc: Global,
    state: &Core,
    number: u64,
    rows: &[u64],
) -> Result<Vec<(u64, Reply)>, NoMemory>
    ensures { IfOk result (λ v. v.items ≡ said_to_blocked (blocked_of state.now number) (entries_in state.now rows.now)) }
{
    let entries = entries_of(alloc, state, rows)?;
    answer_blocked(alloc, state, number, entries)
}

/// A request that waits is answered that there is nothing.
fn nothing(alloc: Global, state: &Core, number: u64) -> Result<Vec<(u64, Reply)>, NoMemory>
    ensures { IfOk result (λ v. v.items ≡ said_to_blocked (blocked_of state.now number) []) }
{
    answer_blocked(alloc, state, number, Items::new(alloc))
}

fn answer_blocked(
    alloc: Global,
    state: &Core,
    number: u64,
    entries: Items<Entry>,
) -> Result<Vec<(u64, Reply)>, NoMemory>
    ensures { IfOk result (λ v. v.items ≡ said_to_blocked (blocked_of state.now number) entries) }
{
    match blocked_named(state, number) {
        None => Ok(Vec::new(alloc)),
        Some(blocked) => {
            let reply = answer_with(blocked.form, blocked.id, entries);
            only(alloc, blocked.session, reply)
        }
    }
}

/// When its end comes a request that waits is answered that there is nothing, and those under a
/// transaction are refused.
fn said_when_due(alloc: Global, state: &Core, item: Item) -> Result<Vec<(u64, Reply)>, NoMemory>
    ensures { IfOk result (λ v. v.items ≡ said_at_end state.now item.rank item.number) }
{
    match item.rank {
        Rank::Blocked => nothing(alloc, state, item.number),
        Rank::Transaction => refuse_under(alloc, state, &[item.number]),
        Rank::Entry | Rank::Registration | Rank::MatchSet => Ok(Vec::new(alloc)),
    }
}
