//! Which rows are on offer no more, and which requests are stirred no more: the rows that no
//! waiting request may be given, and the requests that a conflict holds up.
ghost use Rattle.std.specs.Prelude.{◌≡◌, ◌==◌, ◌&&◌, not, length, find, is_none, None, []};
ghost use Rattle.std.specs.Bool.{OnTrue};
ghost use Rattle.std.specs.List.{list_any};
ghost use Rattle.jsp_model.specs.Sight.{available, is_if as waits_for_conflict, has_conflict as held_up};
ghost use Rattle.jsp_wait.specs.Offered.{freed_numbered};
ghost use Rattle.jsp_state.specs.Taking.{may_take as takes_it};

use crate::offered::RowsOf;
use crate::sight::{Grantable, LetGo};
use jsp_core::{Core, LiveImage};
use jsp_table::Test;

/// Whether a row may be given to a request that waits.
#[derive(Drop)]
struct Wanted<'a> {
    state: &'a Core,
}

impl<'a> Test<u64> for Wanted<'a> {
    ghost is_passed = { λ t n. list_any (λ b. takes_it t.state.now n b) t.state.now.blocked };

    fn passes(&self, number: &u64) -> bool {
        is_wanted(self.state, *number)
    }
}

fn is_wanted(state: &Core, number: u64) -> bool
    ensures { result ≡ list_any (λ b. takes_it state.now number b) state.now.blocked }
{
    state.blocked.is_wanted(number, &RowsOf { state })
}

/// Whether the request of a number waits for a conflict to end, and none holds it up.
#[derive(Drop)]
struct Freed<'a> {
    state: &'a Core,
}

impl<'a> Test<u64> for Freed<'a> {
    ghost is_passed = { λ t n. list_any (freed_numbered (λ b. not (held_up t.state.now b)) n) t.state.now.blocked };

    fn passes(&self, number: &u64) -> bool {
        is_freed(self.state, *number)
    }
}

fn is_freed(state: &Core, number: u64) -> bool
    ensures { result ≡ list_any (freed_numbered (λ b. not (held_up state.now b)) number) state.now.blocked }
{
    state.blocked.is_freed(number, &RowsOf { state })
}

/// Takes off the rows that no waiting request may be given, and the requests that a conflict holds
/// up still. The state stays.
pub fn withdraw(image: &mut LiveImage)
    ensures { image.new ≡ image.old }
{
    withdraw_rows(image);
    withdraw_requests(image);
}

fn withdraw_rows(image: &mut LiveImage)
    ensures { image.new ≡ image.old }
{
    if nobody_waits(&image.state) {
        image.offers.close();
    } else if image.offers.numbers().is_some() {
        image.offers.keep(&Wanted {
            state: &image.state,
        });
    } else if is_nothing_wanted(&image.state) {
        image.offers.close();
    }
}

fn withdraw_requests(image: &mut LiveImage)
    ensures { image.new ≡ image.old }
{
    if nobody_waits(&image.state) {
        image.stirred.close();
    } else if image.stirred.numbers().is_some() {
        image.stirred.keep(&Freed {
            state: &image.state,
        });
    } else if is_nobody_freed(&image.state) {
        image.stirred.close();
    }
}

/// Whether it is seen at once that nobody waits.
fn nobody_waits(state: &Core) -> bool
    ensures { OnTrue result (state.now.blocked ≡ []) }
{
    state.blocked.is_known_empty()
}

/// Whether it is seen that no row may be given to a request that waits. Where a space has decisions
/// to apply nobody looks: each row would be looked at for each request.
fn is_nothing_wanted(state: &Core) -> bool
    ensures { OnTrue result (find (λ b. not (length (available state.now b) == 0)) state.now.blocked ≡ None) }
{
    !state.rows.has_pending() && no_row_is_wanted(state)
}

fn no_row_is_wanted(state: &Core) -> bool
    ensures { result ≡ is_none (find (λ b. not (length (available state.now b) == 0)) state.now.blocked) }
{
    state.blocked.first(&Grantable { state }).is_none()
}

/// Whether it is seen that a conflict holds up each request that waits for one to end. Where a
/// space has decisions to apply nobody looks.
fn is_nobody_freed(state: &Core) -> bool
    ensures { OnTrue result (find (λ b. waits_for_conflict b.form && not (held_up state.now b)) state.now.blocked ≡ None) }
{
    !state.rows.has_pending() && all_are_held_up(state)
}

fn all_are_held_up(state: &Core) -> bool
    ensures { result ≡ is_none (find (λ b. waits_for_conflict b.form && not (held_up state.now b)) state.now.blocked) }
{
    state.blocked.first(&LetGo { state }).is_none()
}
