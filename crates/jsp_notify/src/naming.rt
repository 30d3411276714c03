//! Registrations that are owed an event, named by their spaces.
ghost use Rattle.std.specs.Prelude.{◌≡◌, ◌<◌, ℕ, true, OnOk};
ghost use Rattle.jsp_table.specs.Numbers.{contains};
ghost use Rattle.jsp_keyed.specs.Kept.{Keeps, KeepsOthers};
ghost use Rattle.jsp_notify.specs.Waiting.{IsNamed, AreNamed};
ghost use Rattle.jsp_table.specs.Hints.{names};

use crate::by_number::Found;
use jsp_model::Registration;
use jsp_table::{Hints, Numbers};
use jsp_types::NoMemory;

/// Names a registration at its space, if it is owed an event. Nothing goes from any list, on `Err`
/// either.
pub(crate) fn name_owed(owed: &mut Hints, registration: &Registration) -> Result<(), NoMemory>
    ensures ok { OnOk result (IsNamed owed.new registration.now) }
    ensures keeps { Keeps owed.old owed.new }
{
    if registration.owed.as_slice().is_empty() {
        return Ok(());
    }
    owed.add(registration.space, registration.number)
}

/// Names these at a space. Nothing goes from any list, on `Err` either.
pub(crate) fn name_listeners(
    owed: &mut Hints,
    space: u64,
    listeners: &Numbers,
) -> Result<(), NoMemory>
    ensures ok { OnOk result ((n : ℕ) → 0 < n → contains listeners.now n ≡ true → names owed.new space n ≡ true) }
    ensures keeps { Keeps owed.old owed.new }
{
    let mut last = 0;
    'listeners: while let Some(number) = listeners.next_above(last) {
        owed.add(space, number)?;
        last = number;
    }
    Ok(())
}

/// A registration that is gone is named at its space no more. The others stay named. Takes no
/// memory.
pub(crate) fn forget_gone(owed: &mut Hints, space: Option<u64>, number: u64)
    ensures { KeepsOthers number owed.old owed.new }
{
    if let Some(space) = space {
        owed.remove(space, number);
    }
}

/// The registration of this number is named at its space no more if it is owed no event. Takes no
/// memory.
pub(crate) fn forget_told(owed: &mut Hints, registrations: &Found, number: u64)
    requires { AreNamed owed.old registrations.now }
    ensures { AreNamed owed.new registrations.now }
{
    // Which says that the numbers rise.
    let _ = registrations.places();
    let Some(registration) = registrations.get(number) else {
        return;
    };
    if registration.owed.as_slice().is_empty() {
        owed.remove(registration.space, number);
    }
}
