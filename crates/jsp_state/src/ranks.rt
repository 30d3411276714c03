//! What a number names.
ghost use Rattle.std.specs.Prelude.{◌≡◌, ◌==◌};
ghost use Rattle.std.specs.List.{list_any};
ghost use Rattle.jsp_model.specs.Lookup.{rank_of as rank_of_number};

use crate::transactions::is_living;
use jsp_core::Core;
use jsp_model::Rank;

/// What the number names that has a lease: a row, a registration, a transaction or a match set.
pub fn rank_of(state: &Core, number: u64) -> Option<Rank>
    ensures { result ≡ rank_of_number state.now number }
{
    if is_row(state, number) {
        return Some(Rank::Entry);
    }
    if is_registration(state, number) {
        return Some(Rank::Registration);
    }
    if is_living(state, number) {
        return Some(Rank::Transaction);
    }
    if is_set(state, number) {
        return Some(Rank::MatchSet);
    }
    None
}

fn is_row(state: &Core, number: u64) -> bool
    ensures { result ≡ list_any (λ r. r.number == number) state.now.rows }
{
    state.rows.has(number)
}

fn is_registration(state: &Core, number: u64) -> bool
    ensures { result ≡ list_any (λ r. r.number == number) state.now.registrations }
{
    state.registrations.has(number)
}

fn is_set(state: &Core, number: u64) -> bool
    ensures { result ≡ list_any (λ m. m.number == number) state.now.sets }
{
    state.sets.has(number)
}
