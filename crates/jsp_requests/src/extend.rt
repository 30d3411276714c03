//! Setting the end of what has a lease.
ghost use Rattle.std.specs.Prelude.{◌≡◌};
ghost use Rattle.jsp_model.specs.Changes.{extend as extended};

use jsp_core::Core;
use jsp_model::Rank;

/// What has this number ends then.
pub(crate) fn extend(state: &mut Core, end: u64, rank: Rank, number: u64)
    ensures { state.new ≡ extended state.old end rank number }
{
    match rank {
        Rank::Entry => {
            let rows = &mut state.rows;
            rows.extend(number, end);
        }
        Rank::Registration => {
            let registrations = &mut state.registrations;
            registrations.extend(number, end);
        }
        Rank::Transaction => {
            let transactions = &mut state.transactions;
            transactions.extend(number, end);
        }
        Rank::Blocked => {}
        Rank::MatchSet => {
            let sets = &mut state.sets;
            sets.extend(number, end);
        }
    }
}
