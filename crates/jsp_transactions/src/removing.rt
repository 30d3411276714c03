//! What has an end goes. Nothing here takes memory.
ghost use Rattle.std.specs.Prelude.{◌≡◌};
ghost use Rattle.jsp_model.specs.Changes.{remove as removed};

use crate::aborting::abort;
use jsp_core::Core;
use jsp_lease::Rank;

/// What has this rank and number goes, since its lease ended or was cancelled or its time is up. A
/// transaction aborts (Jini Leasing, Jini Transactions). Takes no memory.
pub fn remove(state: &mut Core, rank: Rank, number: u64)
    ensures { state.new ≡ removed state.old rank number }
{
    match rank {
        Rank::Entry => {
            let rows = &mut state.rows;
            rows.remove(number);
        }
        Rank::Registration => {
            let registrations = &mut state.registrations;
            registrations.remove(number);
        }
        Rank::Transaction => abort(state, number),
        Rank::Blocked => {
            let blocked = &mut state.blocked;
            blocked.remove(number);
        }
        Rank::MatchSet => {
            let sets = &mut state.sets;
            sets.remove(number);
        }
    }
}
