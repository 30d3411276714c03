//! A registration's events.
ghost use Rattle.std.specs.Prelude.{◌≡◌, ◌<◌, ◌+◌, ◌^◌, ◌==◌, find, option_copied, option_map, IfOk};
ghost use Rattle.jsp_notify.specs.News.{without_owed};
ghost use Rattle.jsp_reply.specs.declared.reply.Reply.TheVariants as says;
ghost use Rattle.jsp_model.specs.declared.step.Step.TheVariants as step;
ghost use Rattle.jsp_model.specs.Lookup.{registration_of as registration_in};
ghost use Rattle.jsp_model.specs.Answers.{event_of as event};
ghost use Rattle.jsp_model.specs.Steps.{is_legal as legal};
ghost use Rattle.jsp_model.specs.Limits.{IsWithinLimits};

use crate::answering::only;
use jsp_core::Core;
use jsp_model::Registration;
use jsp_reply::Reply;
use jsp_types::NoMemory;
use std::alloc::Global;

/// An event is told only where the registration is owed one.
#[tactic(auto, unfolding(jsp_model::specs::Steps::is_legal))]
pub(crate) fn may_tell(state: &Core, number: u64) -> bool
    ensures { result ≡ legal state.now (step.Tell number) }
{
    state.registrations.is_owed(number)
}

/// The next event of a registration, if there is one: its sequence number is one above that of the
/// last event (the numbers rise: Jini Events; by one: this profile's own).
pub(crate) fn event_of(
    alloc: Global,
    state: &Core,
    number: u64,
) -> Result<Vec<(u64, Reply)>, NoMemory>
    requires { IsWithinLimits state.now }
    ensures { IfOk result (λ v. v.items ≡ event (registration_in state.now number)) }
{
    match registration_of(state, number) {
        None => Ok(Vec::new(alloc)),
        Some(registration) => {
            let reply = next_event(registration)?;
            only(alloc, registration.session, reply)
        }
    }
}

fn next_event(registration: &Registration) -> Result<Reply, NoMemory>
    requires { registration.now.sequence < 2 ^ 63 }
    ensures { IfOk result (λ r. r ≡ says.Told registration.now.handback registration.now.number (registration.now.sequence + 1)) }
{
    let handback = registration.handback.clone()?;
    Ok(Reply::Told {
        handback,
        lease: registration.number,
        sequence: registration.sequence + 1,
    })
}

/// The registration of this number, if there is one, but for what it is owed.
fn registration_of(state: &Core, number: u64) -> Option<&Registration>
    ensures { option_map without_owed (option_copied result) ≡ option_map without_owed (registration_in state.now number) }
{
    state.registrations.get(number)
}
