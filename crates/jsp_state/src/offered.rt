//! Which of the requests that wait need wait no longer. Only rows on offer are looked at, each by
//! those that may want it, and of those that wait for a conflict to end only those that are
//! stirred.
ghost use Rattle.std.specs.Prelude.{◌≡◌, ◌==◌, ◌&&◌, not, map, length, find, option_copied, option_map, is_none, IsTrue, Some, None, []};
ghost use Rattle.std.specs.Bool.{OnTrue};
ghost use Rattle.std.specs.List.{list_any};
ghost use Rattle.jsp_model.specs.Limits.{are_rising};
ghost use Rattle.jsp_model.specs.Sight.{available, is_if as waits_for_conflict, has_conflict as held_up};
ghost use Rattle.jsp_model.specs.Quiet.{must_wait as waits};
ghost use Rattle.jsp_sight.specs.Rows.{unmarked};
ghost use Rattle.jsp_wait.specs.Offered.{freed_numbered};
ghost use Rattle.jsp_core.specs.Offering.{are_offered, are_stirred};
ghost use Rattle.jsp_state.specs.Taking.{may_take as takes_it};

use crate::sight::{Answerable, Grantable, has_conflict};
use jsp_core::{Core, LiveImage};
use jsp_model::{Blocked, Row};
use jsp_table::Test;
use jsp_types::Classes;
use jsp_wait::Offer;

/// The first request of the space that can be given a row.
pub fn first_grantable(image: &LiveImage, space: u64) -> Option<&Blocked>
    ensures { option_copied result ≡ find (λ b. b.space == space && not (length (available image.now b) == 0)) image.now.blocked }
{
    let state = &image.state;
    match image.offers.numbers() {
        None => state.blocked.first_at(space, &Grantable { state }),
        Some(numbers) => first_taker(state, space, numbers),
    }
}

/// The first request of the space that has to wait no longer.
pub fn first_answerable(image: &LiveImage, space: u64) -> Option<&Blocked>
    ensures { option_copied result ≡ find (λ b. b.space == space && not (waits image.now b)) image.now.blocked }
{
    let state = &image.state;
    match image.offers.numbers() {
        None => state.blocked.first_at(space, &Answerable { state }),
        Some(numbers) => first_stirred(state, space, numbers, image.stirred.numbers()),
    }
}

fn first_taker<'a>(state: &'a Core, space: u64, numbers: &[u64]) -> Option<&'a Blocked>
    requires offered { IsTrue (are_offered (Some numbers.now) state.now) }
    requires rising { IsTrue (are_rising 0 state.now.next_number (map (λ r. r.number) state.now.rows)) }
    ensures { option_copied result ≡ find (λ b. b.space == space && not (length (available state.now b) == 0)) state.now.blocked }
{
    if numbers.is_empty() {
        return None;
    }
    state.blocked.first_taker(space, numbers, &RowsOf { state })
}

fn first_stirred<'a>(
    state: &'a Core,
    space: u64,
    numbers: &[u64],
    stirred: Option<&[u64]>,
) -> Option<&'a Blocked>
    requires offered { IsTrue (are_offered (Some numbers.now) state.now) }
    requires stirred { IsTrue (are_stirred (option_copied stirred) state.now) }
    requires rising { IsTrue (are_rising 0 state.now.next_number (map (λ r. r.number) state.now.rows)) }
    ensures { option_copied result ≡ find (λ b. b.space == space && not (waits state.now b)) state.now.blocked }
{
    state
        .blocked
        .first_stirred(space, numbers, stirred, &RowsOf { state })
}

/// The rows of a state, by number, and who of those that wait may be given one.
#[derive(Drop)]
pub(crate) struct RowsOf<'a> {
    pub(crate) state: &'a Core,
}

impl<'a> Offer for RowsOf<'a> {
    ghost classes_of = { λ o. o.state.now.classes };

    ghost row_of = { λ o n. option_map unmarked (find (λ r. r.number == n) o.state.now.rows) };

    ghost is_taker = { λ o n b. takes_it o.state.now n b };

    ghost is_freed = { λ o b. not (held_up o.state.now b) };

    fn classes(&self) -> &Classes {
        let state = self.state;
        &state.classes
    }

    fn row(&self, number: u64) -> Option<&Row> {
        row_of(self.state, number)
    }

    fn takes(&self, number: u64, request: &Blocked) -> bool {
        may_take(self.state, number, request)
    }

    fn frees(&self, request: &Blocked) -> bool {
        !has_conflict(self.state, request)
    }
}

fn row_of(state: &Core, number: u64) -> Option<&Row>
    ensures { option_map unmarked (option_copied result) ≡ option_map unmarked (find (λ r. r.number == number) state.now.rows) }
{
    state.rows.get(number)
}

fn may_take(state: &Core, number: u64, request: &Blocked) -> bool
    ensures { result ≡ takes_it state.now number request.now }
{
    state.rows.is_available(&state.classes, request, number)
}
