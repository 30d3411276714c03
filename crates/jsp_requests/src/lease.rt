//! Renewing and cancelling a lease, whatever it is of (Jini Leasing).
ghost use Rattle.std.specs.Prelude.{◌≡◌, ◌≤◌, ◌^◌, is_none};
ghost use Rattle.jsp_types.specs.Tests.{first_that};
ghost use Rattle.jsp_lease.specs.Granted.{granted as granted_of, ms_of as granted_ms};
ghost use Rattle.jsp_reply.specs.declared.reply.Reply.TheVariants as says;
ghost use Rattle.jsp_model.specs.Lookup.{named as number_named};
ghost use Rattle.jsp_model.specs.Refusals.{lease_tests, renew_tests};
ghost use Rattle.jsp_model.specs.Changes.{renew as renewed, cancel as cancelled};
ghost use Rattle.jsp_model.specs.declared.limits.TheConstants.{LAST_TIME};

use crate::extend::extend;
use jsp_core::Core;
use jsp_lease::{granted, ms_of};
use jsp_reply::{Refusal, Reply};
use jsp_state::{is_voting, named, rank_of};
use jsp_transactions::remove;

/// Why a lease is neither renewed nor cancelled: nothing has the number, or it is a transaction
/// whose commit was asked.
pub(crate) fn refuse_cancel(state: &Core, lease: &i64) -> Option<Refusal>
    ensures { result ≡ first_that (lease_tests state.now lease.now) }
{
    let number = named(*lease);
    if rank_of(state, number).is_none() {
        return Some(Refusal::UnknownLease);
    }
    if is_voting(state, number) {
        return Some(Refusal::NotActive);
    }
    None
}

/// Why a lease isn't renewed for this time.
pub(crate) fn refuse_renew(state: &Core, lease: &i64, ms: &i64) -> Option<Refusal>
    ensures { result ≡ first_that (renew_tests state.now lease.now ms.now) }
{
    let number = named(*lease);
    if rank_of(state, number).is_none() {
        return Some(Refusal::UnknownLease);
    }
    if is_voting(state, number) {
        return Some(Refusal::NotActive);
    }
    if grants_nothing(ms) {
        return Some(Refusal::BadLease);
    }
    None
}

/// Whether nothing is granted for the time.
pub(crate) fn grants_nothing(ms: &i64) -> bool
    ensures { result ≡ is_none (granted_of ms.now) }
{
    granted(*ms).is_none()
}

/// Renews a lease: it ends when the time that is granted has passed from now on, whatever was left
/// of it.
pub(crate) fn accept_renew(state: &mut Core, lease: &i64, ms: &i64)
    requires { state.old.time ≤ LAST_TIME }
    ensures made { state.new ≡ renewed state.old lease.now ms.now }
    ensures time { state.new.time ≡ state.old.time }
{
    let number = named(*lease);
    let end = state.time + ms_of(*ms);
    match rank_of(state, number) {
        None => {}
        Some(rank) => extend(state, end, rank, number),
    }
}

/// Cancels a lease: what it is for goes; a transaction aborts.
pub(crate) fn accept_cancel(state: &mut Core, lease: &i64)
    ensures { state.new ≡ cancelled state.old lease.now }
{
    let number = named(*lease);
    match rank_of(state, number) {
        None => {}
        Some(rank) => remove(state, rank, number),
    }
}

/// What a renewal is answered: the lease and the time that it was granted.
pub(crate) fn answer_renew(id: u64, lease: &i64, ms: &i64) -> Reply
    ensures { result ≡ says.Leased id (number_named lease.now) (granted_ms ms.now) }
{
    Reply::Leased {
        id,
        lease: named(*lease),
        ms: ms_of(*ms),
    }
}
