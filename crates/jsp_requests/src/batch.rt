//! Renewing and cancelling leases in batches, as a `LeaseMap` does (Jini Leasing): one by one, in
//! one step. One that is refused leaves all as it was, and the others go on.
ghost use Rattle.std.specs.Prelude.{◌≡◌, ◌≤◌, ◌==◌, ◌&&◌, ◌^◌, ℕ, not, fold, None, IfOk};
ghost use Rattle.std.specs.List.{scan, list_any};
ghost use Rattle.jsp_requests.specs.Cancelling.{ends_it};
ghost use Rattle.jsp_model.specs.Changes.{renew_one as one_renewed, cancel_one as one_cancelled};
ghost use Rattle.jsp_model.specs.Answers.{renew_answer, cancel_answer};
ghost use Rattle.jsp_model.specs.Limits.{bearers};
ghost use Rattle.jsp_model.proofs.Cancelling.{is_cancellable as cancels, is_ended as ended, still_names as names_still, cancel_outcome as outcome_of};
ghost use Rattle.jsp_model.specs.declared.limits.TheConstants.{LAST_TIME};

use crate::lease::{accept_cancel, accept_renew, refuse_cancel, refuse_renew};
use jsp_core::Core;
use jsp_lease::ms_of;
use jsp_model::{MatchSet, Registration, Transaction};
use jsp_reply::{LeaseAnswer, LeaseOutcome, Refusal};
use jsp_state::{is_caller, is_living, is_voting, named, rank_of};
use jsp_table::Test;
use jsp_types::{Items, NoMemory};
use std::alloc::Global;

/// Renews leases in their order.
pub(crate) fn accept_renew_all(state: &mut Core, leases: &[(i64, i64)])
    requires { state.old.time ≤ LAST_TIME }
    ensures { state.new ≡ fold one_renewed state.old leases.now }
{
    'leases: for lease in leases {
        renew_one(state, lease);
    }
}

fn renew_one(state: &mut Core, lease: &(i64, i64))
    requires { state.old.time ≤ LAST_TIME }
    ensures made { state.new ≡ one_renewed state.old lease.now }
    ensures time { state.new.time ≡ state.old.time }
{
    if refuse_renew(state, &lease.0, &lease.1).is_none() {
        accept_renew(state, &lease.0, &lease.1);
    }
}

/// Cancels leases in their order.
pub(crate) fn accept_cancel_all(state: &mut Core, leases: &[i64])
    ensures { state.new ≡ fold one_cancelled state.old leases.now }
{
    'leases: for lease in leases {
        cancel_one(state, lease);
    }
}

fn cancel_one(state: &mut Core, lease: &i64)
    ensures { state.new ≡ one_cancelled state.old lease.now }
{
    if refuse_cancel(state, lease).is_none() {
        accept_cancel(state, lease);
    }
}

/// What becomes of each lease that is to be renewed. A renewal changes no number, so each is
/// answered by the state before all of them.
pub(crate) fn renew_answers(
    alloc: Global,
    state: &Core,
    leases: &[(i64, i64)],
) -> Result<Items<LeaseAnswer>, NoMemory>
    ensures { IfOk result (λ v. v ≡ scan one_renewed renew_answer state.now leases.now) }
{
    let mut answers = Items::new(alloc);
    'leases: for lease in leases {
        answers.push(renewal(state, lease))?;
    }
    Ok(answers)
}

fn renewal(state: &Core, lease: &(i64, i64)) -> LeaseAnswer
    ensures { result ≡ renew_answer state.now lease.now }
{
    let outcome = match refuse_renew(state, &lease.0, &lease.1) {
        None => LeaseOutcome::Renewed(ms_of(lease.1)),
        Some(refusal) => LeaseOutcome::Refused(refusal),
    };
    LeaseAnswer {
        lease: lease.0,
        outcome,
    }
}

/// What becomes of each lease that is to be cancelled, by the state before any is.
pub(crate) fn cancel_answers(
    alloc: Global,
    state: &Core,
    leases: &[i64],
) -> Result<Items<LeaseAnswer>, NoMemory>
    requires { (n : ℕ) → bearers state.now n ≤ 1 }
    ensures { IfOk result (λ v. v ≡ scan one_cancelled cancel_answer state.now leases.now) }
{
    let mut answers = Items::new(alloc);
    'leases: for (place, lease) in leases.iter().enumerate() {
        answers.push(cancellation(state, &leases[..place], lease))?;
    }
    Ok(answers)
}

fn cancellation(state: &Core, earlier: &[i64], lease: &i64) -> LeaseAnswer
    ensures { result ≡ record { lease = lease.now; outcome = outcome_of state.now earlier.now lease.now } }
{
    LeaseAnswer {
        lease: *lease,
        outcome: cancel_outcome(state, earlier, lease),
    }
}

/// What becomes of the lease, once the earlier ones of the batch are cancelled.
fn cancel_outcome(state: &Core, earlier: &[i64], lease: &i64) -> LeaseOutcome
    ensures { result ≡ outcome_of state.now earlier.now lease.now }
{
    let number = named(*lease);
    if !still_names(state, earlier, number) {
        LeaseOutcome::Refused(Refusal::UnknownLease)
    } else if is_voting(state, number) {
        LeaseOutcome::Refused(Refusal::NotActive)
    } else {
        LeaseOutcome::Cancelled
    }
}

fn still_names(state: &Core, earlier: &[i64], number: u64) -> bool
    ensures { result ≡ names_still state.now earlier.now number }
{
    is_row_left(state, earlier, number)
        || is_registration_left(state, earlier, number)
        || is_transaction_left(state, earlier, number)
        || is_set_left(state, earlier, number)
}

fn is_row_left(state: &Core, earlier: &[i64], number: u64) -> bool
    ensures { result ≡ list_any (λ r. r.number == number && not (ended state.now earlier.now r.number r.writer)) state.now.rows }
{
    state
        .rows
        .is_written(number, |writer| !is_ended(state, earlier, number, writer))
}

fn is_registration_left(state: &Core, earlier: &[i64], number: u64) -> bool
    ensures { result ≡ list_any (λ r. r.number == number && not (ended state.now earlier.now r.number r.transaction)) state.now.registrations }
{
    state
        .registrations
        .any_of(number, &IsLeft { state, earlier })
}

fn is_transaction_left(state: &Core, earlier: &[i64], number: u64) -> bool
    ensures { result ≡ list_any (λ t. t.number == number && not (ended state.now earlier.now t.number None)) state.now.transactions }
{
    state
        .transactions
        .any_of(number, &IsLeft { state, earlier })
}

fn is_set_left(state: &Core, earlier: &[i64], number: u64) -> bool
    ensures { result ≡ list_any (λ m. m.number == number && not (ended state.now earlier.now m.number m.transaction)) state.now.sets }
{
    state.sets.any_of(number, &IsLeft { state, earlier })
}

/// Whether a thing is there still, once some leases are cancelled.
#[derive(Drop)]
struct IsLeft<'a> {
    state: &'a Core,
    earlier: &'a [i64],
}

impl<'a> Test<Registration> for IsLeft<'a> {
    ghost is_passed = { λ l r. not (ended l.state.now l.earlier.now r.number r.transaction) };

    fn passes(&self, registration: &Registration) -> bool {
        let number = registration.number;
        !is_ended(self.state, self.earlier, number, registration.transaction)
    }
}

impl<'a> Test<Transaction> for IsLeft<'a> {
    ghost is_passed = { λ l t. not (ended l.state.now l.earlier.now t.number None) };

    fn passes(&self, transaction: &Transaction) -> bool {
        !is_ended(self.state, self.earlier, transaction.number, None)
    }
}

impl<'a> Test<MatchSet> for IsLeft<'a> {
    ghost is_passed = { λ l m. not (ended l.state.now l.earlier.now m.number m.transaction) };

    fn passes(&self, set: &MatchSet) -> bool {
        !is_ended(self.state, self.earlier, set.number, set.transaction)
    }
}

/// Whether one of these leases, once cancelled, ends what has the number, or the transaction that
/// it is under.
fn is_ended(state: &Core, leases: &[i64], number: u64, under: Option<u64>) -> bool
    ensures { result ≡ ended state.now leases.now number under }
{
    leases.iter().any(|lease| ends(state, lease, number, under))
}

fn ends(state: &Core, lease: &i64, number: u64, under: Option<u64>) -> bool
    ensures { result ≡ ends_it state.now lease.now number under }
{
    let cancelled = named(*lease);
    is_cancellable(state, cancelled)
        && (number == cancelled || is_caller(under, cancelled) && is_living(state, cancelled))
}

fn is_cancellable(state: &Core, number: u64) -> bool
    ensures { result ≡ cancels state.now number }
{
    rank_of(state, number).is_some() && !is_voting(state, number)
}
