//! What registrations and match sets have in common: a lease at a space, and a template.
ghost use Rattle.std.specs.Prelude.{◌≡◌, [], ◌∷◌, is_none};
ghost use Rattle.jsp_types.specs.Tests.{first_that};
ghost use Rattle.jsp_lease.specs.Granted.{granted as granted_of};
ghost use Rattle.jsp_model.specs.Refusals.{grant_tests};
ghost use Rattle.jsp_grants.specs.Granting.{own_tests};

use jsp_core::Core;
use jsp_lease::granted;
use jsp_reply::Refusal;
use jsp_state::{is_used_up, space_refusal, templates_refusal};
use jsp_types::Raw;
use std::slice::from_ref;

/// What is asked for: a lease for a template at a space.
#[derive(Clone, Copy)]
pub(crate) struct LeaseAsked<'a> {
    pub(crate) space: &'a str,
    pub(crate) template: &'a Option<Raw>,
    /// In milliseconds; -1 leaves the time to the server (Jini Leasing).
    pub(crate) lease: i64,
    pub(crate) txn: Option<i64>,
}

/// Why it is refused, or nothing where it isn't; `is_full` where there are as many as may be.
pub(crate) fn refuse_grant(state: &Core, asked: &LeaseAsked, is_full: bool) -> Option<Refusal>
    ensures { result ≡ first_that (grant_tests state.now asked.now.space.now asked.now.template.now asked.now.lease asked.now.txn is_full) }
{
    if let Some(refusal) = space_refusal(state, asked.space, asked.txn) {
        return Some(refusal);
    }
    if let Some(refusal) = templates_refusal(state, from_ref(asked.template)) {
        return Some(refusal);
    }
    refuse_lease(state, asked, is_full)
}

fn refuse_lease(state: &Core, asked: &LeaseAsked, is_full: bool) -> Option<Refusal>
    ensures { result ≡ first_that (own_tests state.now asked.now.lease is_full) }
{
    if has_bad_lease(asked) {
        return Some(Refusal::BadLease);
    }
    if is_full {
        return Some(Refusal::TooMany);
    }
    if is_used_up(state, 1) {
        return Some(Refusal::UsedUp);
    }
    None
}

fn has_bad_lease(asked: &LeaseAsked) -> bool
    ensures { result ≡ is_none (granted_of asked.now.lease) }
{
    granted(asked.lease).is_none()
}
