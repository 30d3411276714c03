//! The rows that a request for rows may be given.
ghost use Rattle.std.specs.Prelude.{◌≡◌, ◌==◌, ◌&&◌, length, filter, ◌++◌, ◌∷◌, [], find, min, take, option_copied, slice_get, nat_lt, zip, drop, IfOk, OnOk};
ghost use Rattle.std.specs.List.{list_any, list_all};
ghost use Rattle.jsp_model.specs.Lookup.{contains as has};
ghost use Rattle.jsp_model.specs.Sight.{available};
ghost use Rattle.jsp_model.specs.Steps.{is_choice as chooses, is_rising as rises};

use jsp_core::Core;
use jsp_model::Blocked;
use jsp_types::{Items, NoMemory};
use std::alloc::Global;

/// The numbers of the rows that a request is given: of those that it may be given the least, at
/// most as many as it asks for. Any would do (JavaSpaces); the least ones are this profile's own.
pub fn choose(alloc: Global, state: &Core, blocked: &Blocked) -> Result<Items<u64>, NoMemory>
    ensures { IfOk result (λ ns. ns ≡ take blocked.now.most (available state.now blocked.now)) }
{
    state.rows.choose(alloc, &state.classes, blocked)
}

/// How many rows the request is given: as many as it asks for, or all there are.
fn count_choice(state: &Core, blocked: &Blocked) -> usize
    ensures { result ≡ min blocked.now.most (length (available state.now blocked.now)) }
{
    state.rows.count_choice(&state.classes, blocked)
}

/// Whether the row of this number may be given to the request.
pub(crate) fn may_be_given(state: &Core, blocked: &Blocked, number: u64) -> bool
    ensures { result ≡ has (available state.now blocked.now) number }
{
    state.rows.may_be_given(&state.classes, blocked, number)
}

/// Whether these are available to the request: all there are, or the most that it asked for.
pub fn is_choice(state: &Core, blocked: &Blocked, numbers: &[u64]) -> bool
    ensures { result ≡ chooses state.now blocked.now numbers.now }
{
    is_rising(numbers)
        && are_available(state, blocked, numbers)
        && numbers.len() == count_choice(state, blocked)
}

fn are_available(state: &Core, blocked: &Blocked, numbers: &[u64]) -> bool
    ensures { result ≡ list_all (has (available state.now blocked.now)) numbers.now }
{
    numbers
        .iter()
        .all(|number| may_be_given(state, blocked, *number))
}

fn is_rising(numbers: &[u64]) -> bool
    ensures { result ≡ rises numbers.now }
{
    each_below_next(numbers)
}

fn each_below_next(numbers: &[u64]) -> bool
    ensures { result ≡ list_all (λ p. nat_lt p.0 p.1) (zip numbers.now (drop 1 numbers.now)) }
{
    numbers
        .iter()
        .zip(numbers.iter().skip(1))
        .all(|(number, next)| *number < *next)
}
