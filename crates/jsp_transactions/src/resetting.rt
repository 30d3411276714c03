//! A space is reset. Nothing here takes memory.
ghost use Rattle.std.specs.Prelude.{◌≡◌, ◌-◌, ◌^◌, nat_le, IsTrue};
ghost use Rattle.std.specs.List.{list_all};
ghost use Rattle.jsp_model.specs.Changes.{reset as after_reset};
ghost use Rattle.jsp_transactions.specs.Resetting.{counted};
ghost use Rattle.jsp_model.specs.declared.limits.TheConstants.{LAST_CRASH_COUNT};

use jsp_core::Core;
use jsp_model::Space;

/// The space starts anew, as after a crash (this profile's own): its rows, registrations and match
/// sets go, and the requests under a transaction that wait there; those without one go on waiting.
/// It counts the crash, so that it votes to abort where it had joined. Takes no memory. The
/// caller's condition: each space counts fewer than 2^32 crashes.
pub fn reset(state: &mut Core, space: u64)
    requires { IsTrue (list_all (λ p. nat_le p.crash_count LAST_CRASH_COUNT) state.old.spaces) }
    ensures { state.new ≡ after_reset state.old space }
{
    let spaces = &mut state.spaces;
    count_crash(&mut spaces.items, space);
    let rows = &mut state.rows;
    rows.clear(space);
    let registrations = &mut state.registrations;
    registrations.clear(space);
    let blocked = &mut state.blocked;
    blocked.clear(space);
    let sets = &mut state.sets;
    sets.clear(space);
}

fn count_crash(spaces: &mut [Space], space: u64)
    requires { IsTrue (list_all (λ p. nat_le p.crash_count LAST_CRASH_COUNT) spaces.old) }
    ensures { spaces.new ≡ counted space spaces.old }
{
    let place = space as usize;
    if place < spaces.len() {
        let found = &mut spaces[place];
        found.crash_count += 1;
    }
}
