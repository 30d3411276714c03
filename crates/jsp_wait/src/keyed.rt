//! The requests that wait, found by hints.
ghost use Rattle.std.specs.Prelude.{◌≡◌, ◌==◌, ◌++◌, ℕ, true, false, map, filter, find, length, option_copied, IfOk, MatchOption};
ghost use Rattle.std.specs.Option.{option_map_or};
ghost use Rattle.jsp_model.specs.declared.state.Blocked.{Blocked as OfBlocked};
ghost use Rattle.jsp_table.specs.Places.{living};
ghost use Rattle.jsp_keyed.specs.Finding.{is_sought};
ghost use Rattle.jsp_wait.specs.Waiting.{asker};
ghost use Rattle.jsp_wait.specs.Sought.{request_keys};

use crate::by_number::{ByNumber, Requests};
use crate::scanned::{asker_of, copy_request};
use crate::waiters::Asker;
use jsp_keyed::Keys;
use jsp_model::Blocked;
use jsp_table::{Numbering, Test};
use jsp_types::{Items, NoMemory};
use std::alloc::Global;

/// A plain copy of those that stand at these places.
pub(crate) fn copies_of(
    alloc: Global,
    places: &[Option<Blocked>],
) -> Result<Items<Blocked>, NoMemory>
    ensures { IfOk result (λ c. c ≡ living places.now) }
{
    let mut copies = Items::new(alloc);
    'places: for place in places {
        if let Some(request) = place {
            copies.push(copy_request(request)?)?;
        }
    }
    Ok(copies)
}

/// The first of those at these places that passes a test.
pub(crate) fn first_at_places<'a, P: Test<Blocked>>(
    places: &'a [Option<Blocked>],
    test: &P,
) -> Option<&'a Blocked>
    ensures { option_copied result ≡ find (λ b. P.is_passed test.now b) (living places.now) }
{
    'places: for place in places {
        if let Some(request) = place {
            if test.passes(request) {
                return Some(request);
            }
        }
    }
    None
}

/// How many of those at these places wait at a space.
pub(crate) fn count_waiting_at(places: &[Option<Blocked>], space: u64) -> usize
    ensures { result ≡ length (filter (λ b. b.space == space) (living places.now)) }
{
    count_places_at(places, space)
}

fn count_places_at(places: &[Option<Blocked>], space: u64) -> usize
    ensures { result ≡ length (filter (λ place. option_map_or (λ b. b.space == space) place false) places.now) }
{
    places.iter().filter(|place| waits_at(place, space)).count()
}

/// Whether a request stands there that waits at a space.
fn waits_at(place: &Option<Blocked>, space: u64) -> bool
    ensures { result ≡ option_map_or (λ b. b.space == space) place.now false }
{
    match place {
        Some(request) => request.space == space,
        None => false,
    }
}

/// The space of the request of this number, if it is there.
pub(crate) fn space_of(
    alloc: Global,
    requests: &Requests,
    number: u64,
) -> Result<Vec<u64>, NoMemory>
    ensures { IfOk result (λ v. v.items ≡ map (λ b. b.space) (filter (λ b. b.number == number) requests.now)) }
{
    // Which says that the numbers rise.
    let _ = requests.places();
    let mut spaces = Vec::new(alloc);
    if let Some(request) = requests.get(number) {
        spaces.push(request.space)?;
    }
    Ok(spaces)
}

/// Who asked those that pass a test, in arrival order.
pub(crate) fn askers<P: Test<Blocked> + Keys>(
    alloc: Global,
    requests: &Requests,
    test: &P,
) -> Result<Vec<Asker>, NoMemory>
    requires { (seed : ℕ) (b : OfBlocked) → P.is_passed test.now b ≡ true → is_sought (P.sought test.now seed) (request_keys seed b) ≡ true }
    ensures { IfOk result (λ v. v.items ≡ map asker (filter (P.is_passed test.now) requests.now)) }
{
    // Which says that no number is 0.
    let _ = requests.places();
    let mut askers = Vec::new(alloc);
    let mut last = 0;
    'requests: while let Some(request) = requests.first_above(last, test) {
        last = ByNumber::number(request);
        askers.push(asker_of(request))?;
    }
    Ok(askers)
}
