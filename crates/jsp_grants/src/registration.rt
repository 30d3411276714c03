//! Registering for events, and telling them (JavaSpaces notify, Jini Events).
ghost use Rattle.std.specs.Prelude.{◌≡◌, ◌≤◌, ◌<◌, ◌+◌, ◌^◌, ◌==◌, map, length, drop, nat_le, position, None, OnOk, OnErr, IfOk, IsTrue};
ghost use Rattle.std.specs.List.{list_all};
ghost use Rattle.jsp_types.specs.Tests.{first_that};
ghost use Rattle.jsp_wire.specs.declared.ask.Ask.TheVariants as ask;
ghost use Rattle.jsp_model.specs.Lookup.{update};
ghost use Rattle.jsp_model.specs.Limits.{are_rising};
ghost use Rattle.jsp_model.specs.Refusals.{own_tests};
ghost use Rattle.jsp_model.specs.Changes.{register, tell as told};
ghost use Rattle.jsp_grants.specs.Registering.{registered, with_registration};
ghost use Rattle.jsp_model.specs.declared.limits.TheConstants.{LAST_NUMBER, LAST_TIME, MOST_REGISTRATIONS};

use crate::granting::{LeaseAsked, refuse_grant};
use jsp_core::Core;
use jsp_lease::ms_of;
use jsp_model::{MOST_REGISTRATIONS, Registration};
use jsp_reply::Refusal;
use jsp_state::{caller_of, place_of, template_of};
use jsp_transactions::{join, leave};
use jsp_types::{Items, NoMemory};
use jsp_wire::Notify;
use std::alloc::Global;

/// Why a registration is refused, or nothing where it isn't.
pub fn refuse_notify(state: &Core, session: u64, id: u64, notify: &Notify) -> Option<Refusal>
    ensures { result ≡ first_that (own_tests state.now session id (ask.Notify notify.now)) }
{
    let asked = LeaseAsked {
        space: notify.space.as_str(),
        template: &notify.template,
        lease: notify.lease,
        txn: notify.txn,
    };
    refuse_grant(state, &asked, is_full(state))
}

fn is_full(state: &Core) -> bool
    ensures { result ≡ nat_le MOST_REGISTRATIONS (length state.now.registrations) }
{
    state.registrations.has_at_least(MOST_REGISTRATIONS)
}

/// Registers the session for events, whole or not at all. The space joins its transaction.
pub fn accept_notify(
    alloc: Global,
    state: &mut Core,
    session: u64,
    id: u64,
    notify: &Notify,
) -> Result<(), NoMemory>
    requires time { state.old.time ≤ LAST_TIME }
    requires numbers { state.old.next_number ≤ LAST_NUMBER + 1 }
    requires accepted { first_that (own_tests state.old session id (ask.Notify notify.now)) ≡ None }
    ensures ok { OnOk result (state.new ≡ register state.old session notify.now) }
    ensures err { OnErr result (state.new ≡ state.old) }
{
    let registration = new_registration(alloc, state, session, id, notify)?;
    let joining = join(state, registration.transaction, registration.space)?;
    match add(state, registration) {
        Ok(()) => Ok(()),
        Err(e) => {
            leave(state, joining);
            Err(e)
        }
    }
}

fn new_registration(
    alloc: Global,
    state: &Core,
    session: u64,
    id: u64,
    notify: &Notify,
) -> Result<Registration, NoMemory>
    requires time { state.now.time ≤ LAST_TIME }
    requires accepted { first_that (own_tests state.now session id (ask.Notify notify.now)) ≡ None }
    ensures { IfOk result (λ r. r ≡ registered state.now session notify.now) }
{
    let template = template_of(alloc, &state.classes, &notify.template)?;
    let handback = notify.handback.clone()?;
    Ok(Registration {
        number: state.next_number,
        space: place_of(state, notify.space.as_str()),
        template,
        transaction: caller_of(notify.txn),
        session,
        handback,
        end: state.time + ms_of(notify.lease),
        sequence: 0,
        owed: Items::new(alloc),
    })
}

fn add(state: &mut Core, registration: Registration) -> Result<(), NoMemory>
    requires { state.old.next_number ≤ LAST_NUMBER + 1 }
    ensures ok { OnOk result (state.new ≡ with_registration state.old registration) }
    ensures err { OnErr result (state.new ≡ state.old) }
{
    state.registrations.push(registration)?;
    state.next_number += 1;
    Ok(())
}

/// The next event of a registration is told: it is owed one less, and its sequence number rises by
/// one.
///
/// # Errors
///
/// Where memory is refused for what commits told before, the state is as it was.
pub fn tell(state: &mut Core, number: u64) -> Result<(), NoMemory>
    requires { IsTrue (list_all (λ r. nat_le (r.sequence + 1) (2 ^ 63)) state.old.registrations) }
    ensures ok { OnOk result (state.new ≡ told state.old number) }
    ensures err { OnErr result (state.new ≡ state.old) }
{
    let registrations = &mut state.registrations;
    registrations.tell(number)
}
