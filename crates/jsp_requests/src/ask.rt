//! What a client asks, operation by operation: why it is refused, what it changes, what it is
//! answered at once, and what others are told.
ghost use Rattle.std.specs.Prelude.{◌≡◌, ◌≤◌, ◌+◌, ◌^◌, ◌-◌, ◌++◌, ◌∷◌, [], ℕ, map, nat_le, true, None, Some, IfOk, OnOk, OnErr, IsTrue, option_map, option_to_list};
ghost use Rattle.std.specs.List.{list_all};
ghost use Rattle.jsp_types.specs.Tests.{first_that};
ghost use Rattle.jsp_wire.specs.Limits.{has_fitting_parts};
ghost use Rattle.jsp_model.specs.Lookup.{named as number_named};
ghost use Rattle.jsp_model.specs.Limits.{bearers};
ghost use Rattle.jsp_model.specs.Requests.{rows_asked};
ghost use Rattle.jsp_model.specs.Refusals.{refusal as refusal_of, own_tests};
ghost use Rattle.jsp_model.specs.Changes.{accepted, begin as begun};
ghost use Rattle.jsp_model.specs.Answers.{answer as answer_of, told_others as others_told, answer_commit as commit_answered, refuse_under as refused_under, aborted_reply};
ghost use Rattle.jsp_requests.specs.Greeting.{greets};
ghost use Rattle.jsp_model.specs.declared.limits.TheConstants.{LAST_CRASH_COUNT, LAST_NUMBER, LAST_TIME};

use crate::batch::{accept_cancel_all, accept_renew_all, cancel_answers, renew_answers};
use crate::lease::{accept_cancel, accept_renew, answer_renew, refuse_cancel, refuse_renew};
use crate::telling::{answer_commit, refuse_at, refuse_under};
use crate::transaction::{refuse_begin, refuse_commit, refuse_reset, refuse_transaction, state_of};
use jsp_core::Core;
use jsp_entries::{
    accept_declare, accept_entries, accept_entry, answer_entries, answer_leased, refuse_declare,
    refuse_entries, refuse_entry, refuse_many, refuse_one,
};
use jsp_grants::{
    accept_contents, accept_notify, answer_next, close_set, refuse_contents, refuse_notify,
    refuse_set, turn_page,
};
use jsp_model::Form;
use jsp_reply::{Refusal, Reply};
use jsp_state::{close, is_waiting, named, names_of, place_of, set_version};
use jsp_transactions::{abort, ask_commit, begin, reset};
use jsp_types::NoMemory;
use jsp_wire::Ask;
use std::alloc::Global;
use std::slice::from_ref;

/// Why a request is refused, the first reason that applies, or nothing where it isn't. The order is
/// this profile's own.
#[tactic(auto, unfolding(jsp_model::specs::Refusals::refusal))]
pub fn refusal(
    alloc: Global,
    state: &Core,
    session: u64,
    id: u64,
    ask: &Ask,
) -> Result<Option<Refusal>, NoMemory>
    requires time { state.now.time ≤ LAST_TIME }
    requires fits { IsTrue (has_fitting_parts ask.now) }
    ensures { IfOk result (λ r. r ≡ refusal_of state.now session id ask.now) }
{
    if is_hello(ask) {
        return Ok(None);
    }
    if is_waiting(state, session, id) {
        return Ok(Some(Refusal::IdInUse));
    }
    own_refusal(alloc, state, session, id, ask)
}

fn is_hello(ask: &Ask) -> bool
    ensures { result ≡ greets ask.now }
{
    matches!(ask, Ask::Hello { .. })
}

/// Why a request is refused whatever its id.
fn own_refusal(
    alloc: Global,
    state: &Core,
    session: u64,
    id: u64,
    ask: &Ask,
) -> Result<Option<Refusal>, NoMemory>
    requires time { state.now.time ≤ LAST_TIME }
    requires fits { IsTrue (has_fitting_parts ask.now) }
    ensures { IfOk result (λ r. r ≡ first_that (own_tests state.now session id ask.now)) }
{
    match ask {
        Ask::RenewAll { .. } | Ask::CancelAll { .. } | Ask::Spaces | Ask::Bye | Ask::Hello { .. } =>
            Ok(None),
        Ask::Declare(declare) => refuse_declare(alloc, state, declare),
        Ask::Write(write) => Ok(refuse_entry(state, write)),
        Ask::Read(search) => refuse_one(alloc, state, session, id, Form::Read, search),
        Ask::ReadIf(search) => refuse_one(alloc, state, session, id, Form::ReadIf, search),
        Ask::Take(search) => refuse_one(alloc, state, session, id, Form::Take, search),
        Ask::TakeIf(search) => refuse_one(alloc, state, session, id, Form::TakeIf, search),
        Ask::Notify(notify) => Ok(refuse_notify(state, session, id, notify)),
        Ask::Renew { lease, ms } => Ok(refuse_renew(state, lease, ms)),
        Ask::Cancel { lease } => Ok(refuse_cancel(state, lease)),
        Ask::Txn { lease } => Ok(refuse_begin(state, lease)),
        Ask::Commit { txn } => Ok(refuse_commit(state, session, txn)),
        Ask::Abort { txn } => Ok(refuse_transaction(state, txn)),
        Ask::State { txn } => Ok(refuse_transaction(state, txn)),
        Ask::Reset { space } => Ok(refuse_reset(state, space.as_str())),
        Ask::WriteAll(write) => Ok(refuse_entries(state, write)),
        Ask::TakeMany(search) => refuse_many(alloc, state, session, id, search),
        Ask::Contents(contents) => Ok(refuse_contents(state, session, id, contents)),
        Ask::Next { set, .. } => Ok(refuse_set(state, session, set)),
        Ask::CloseSet { set } => Ok(refuse_set(state, session, set)),
    }
}

/// Makes what a request changes that isn't refused and is for no rows, whole or not at all.
pub fn accept(
    alloc: Global,
    state: &mut Core,
    session: u64,
    id: u64,
    ask: &Ask,
) -> Result<(), NoMemory>
    requires time { state.old.time ≤ LAST_TIME }
    requires numbers { state.old.next_number ≤ LAST_NUMBER + 1 }
    requires crashes { IsTrue (list_all (λ p. nat_le p.crash_count LAST_CRASH_COUNT) state.old.spaces) }
    requires fits { IsTrue (has_fitting_parts ask.now) }
    requires accepted { first_that (own_tests state.old session id ask.now) ≡ None }
    requires plain { rows_asked ask.now ≡ None }
    ensures ok { OnOk result (state.new ≡ accepted state.old session id [] ask.now) }
    ensures err { OnErr result (state.new ≡ state.old) }
{
    match ask {
        Ask::Declare(declare) => return accept_declare(alloc, state, declare),
        Ask::Write(write) => return accept_entry(alloc, state, write),
        Ask::WriteAll(write) => return accept_entries(alloc, state, write),
        Ask::Read(_) | Ask::ReadIf(_) | Ask::Take(_) | Ask::TakeIf(_) | Ask::TakeMany(_) => {
            unreachable!()
        }
        Ask::Notify(notify) => return accept_notify(alloc, state, session, id, notify),
        Ask::Contents(contents) => return accept_contents(alloc, state, session, id, contents),
        Ask::Next { set, most } => turn_page(state, set, most),
        Ask::CloseSet { set } => close_set(state, named(*set)),
        Ask::Renew { lease, ms } => accept_renew(state, lease, ms),
        Ask::Cancel { lease } => accept_cancel(state, lease),
        Ask::RenewAll { leases } => accept_renew_all(state, leases.as_slice()),
        Ask::CancelAll { leases } => accept_cancel_all(state, leases.as_slice()),
        Ask::Txn { lease } => return accept_txn(alloc, state, lease),
        Ask::Commit { txn } => return ask_commit(state, session, id, named(*txn)),
        Ask::Abort { txn } => abort(state, named(*txn)),
        Ask::Reset { space } => reset(state, place_of(state, space.as_str())),
        Ask::Hello { version } => set_version(state, session, *version),
        Ask::Bye => close(state, session),
        Ask::State { .. } | Ask::Spaces => {}
    }
    Ok(())
}

fn accept_txn(alloc: Global, state: &mut Core, lease: &i64) -> Result<(), NoMemory>
    requires time { state.old.time ≤ LAST_TIME }
    requires numbers { state.old.next_number ≤ LAST_NUMBER + 1 }
    ensures ok { OnOk result (state.new ≡ begun state.old lease.now) }
    ensures err { OnErr result (state.new ≡ state.old) }
{
    begin(alloc, state, *lease)?;
    Ok(())
}

/// What a request that isn't refused and is for no rows is answered, where it is answered at once.
pub fn answer(
    alloc: Global,
    state: &Core,
    session: u64,
    id: u64,
    ask: &Ask,
) -> Result<Option<Reply>, NoMemory>
    requires time { state.now.time ≤ LAST_TIME }
    requires numbers { state.now.next_number ≤ LAST_NUMBER + 1 }
    requires bearers { (n : ℕ) → bearers state.now n ≤ 1 }
    requires fits { IsTrue (has_fitting_parts ask.now) }
    requires accepted { first_that (own_tests state.now session id ask.now) ≡ None }
    requires plain { rows_asked ask.now ≡ None }
    ensures { IfOk result (λ r. option_to_list r ≡ answer_of state.now session id [] ask.now) }
{
    match ask {
        Ask::Declare(_)
        | Ask::Cancel { .. }
        | Ask::Abort { .. }
        | Ask::Reset { .. }
        | Ask::CloseSet { .. }
        | Ask::Hello { .. }
        | Ask::Bye => Ok(Some(Reply::Done { id })),
        Ask::Write(write) => Ok(Some(answer_leased(state, id, &write.lease))),
        Ask::WriteAll(write) => answer_entries(alloc, state, id, write),
        Ask::Read(_) | Ask::ReadIf(_) | Ask::Take(_) | Ask::TakeIf(_) | Ask::TakeMany(_) => {
            unreachable!()
        }
        Ask::Notify(notify) => Ok(Some(answer_leased(state, id, &notify.lease))),
        Ask::Contents(contents) => Ok(Some(answer_leased(state, id, &contents.lease))),
        Ask::Next { set, most } => {
            let page = answer_next(alloc, state, id, named(*set), *most)?;
            Ok(Some(page))
        }
        Ask::Renew { lease, ms } => Ok(Some(answer_renew(id, lease, ms))),
        Ask::RenewAll { leases } => {
            let items = renew_answers(alloc, state, leases.as_slice())?;
            Ok(Some(Reply::Leases { id, items }))
        }
        Ask::CancelAll { leases } => {
            let items = cancel_answers(alloc, state, leases.as_slice())?;
            Ok(Some(Reply::Leases { id, items }))
        }
        Ask::Txn { lease } => Ok(Some(answer_leased(state, id, lease))),
        Ask::Commit { .. } => Ok(None),
        Ask::State { txn } => Ok(Some(Reply::State {
            id,
            state: state_of(state, txn),
        })),
        Ask::Spaces => {
            let names = names_of(alloc, state)?;
            Ok(Some(Reply::Names { id, names }))
        }
    }
}

/// What others are told by a request that isn't refused, each to its session.
pub fn told_others(alloc: Global, state: &Core, ask: &Ask) -> Result<Vec<(u64, Reply)>, NoMemory>
    ensures { IfOk result (λ v. v.items ≡ others_told state.now ask.now) }
{
    match ask {
        Ask::Commit { txn } => refuse_under(alloc, state, from_ref(&named(*txn))),
        Ask::Abort { txn } => told_by_abort(alloc, state, named(*txn)),
        Ask::Cancel { lease } => refuse_under(alloc, state, from_ref(&named(*lease))),
        Ask::CancelAll { leases } => told_by_cancels(alloc, state, leases.as_slice()),
        Ask::Reset { space } => refuse_at(alloc, state, place_of(state, space.as_str())),
        _ => Ok(Vec::new(alloc)),
    }
}

fn told_by_abort(alloc: Global, state: &Core, x: u64) -> Result<Vec<(u64, Reply)>, NoMemory>
    ensures { IfOk result (λ v. v.items ≡ commit_answered state.now x aborted_reply ++ refused_under state.now (x ∷ [])) }
{
    let mut told = answer_commit(alloc, state, x, false)?;
    let mut refused = refuse_under(alloc, state, from_ref(&x))?;
    told.append(&mut refused)?;
    Ok(told)
}

fn told_by_cancels(
    alloc: Global,
    state: &Core,
    leases: &[i64],
) -> Result<Vec<(u64, Reply)>, NoMemory>
    ensures { IfOk result (λ v. v.items ≡ refused_under state.now (map number_named leases.now)) }
{
    let numbers = numbers_of(alloc, leases)?;
    refuse_under(alloc, state, numbers.as_slice())
}

fn numbers_of(alloc: Global, leases: &[i64]) -> Result<Vec<u64>, NoMemory>
    ensures { IfOk result (λ ns. ns.items ≡ map number_named leases.now) }
{
    let mut numbers = Vec::new(alloc);
    'leases: for lease in leases {
        numbers.push(named(*lease))?;
    }
    Ok(numbers)
}
