//! What is due.
ghost use Rattle.std.specs.Prelude.{◌≡◌, map, filter, not};
ghost use Rattle.jsp_lease.specs.Due.{first_item, over_by};
ghost use Rattle.jsp_lease.specs.Tournament.{earlier as soonest_of};
ghost use Rattle.jsp_model.specs.Lookup.{is_voting as votes};
ghost use Rattle.jsp_model.specs.Due.{due as first_due, items};
ghost use Rattle.jsp_txn.specs.Ending.{transaction_end};

use crate::transactions::is_voting;
use jsp_core::Core;
use jsp_model::{Item, Transaction};
use jsp_sight::earlier;
use jsp_table::Test;

/// The least due item, by end, rank and number: its end has come (the order is this profile's own).
pub fn due(state: &Core) -> Option<Item>
    ensures { result ≡ first_due state.now }
{
    first_end(state, state.time)
}

/// The least of the items whose end comes by a time. Each kind has its first at hand.
pub fn first_end(state: &Core, time: u64) -> Option<Item>
    ensures { result ≡ first_item (over_by time (items state.now)) }
{
    let first = soonest(state.blocked.due(time), state.sets.due(time));
    let first = soonest(first_active(state, time), first);
    let first = soonest(state.registrations.due(time), first);
    soonest(state.rows.due(time), first)
}

/// The first of two.
fn soonest(one: Option<Item>, other: Option<Item>) -> Option<Item>
    ensures { result ≡ soonest_of one other }
{
    match (one, other) {
        (Some(one), other) => earlier(other, one),
        (None, other) => other,
    }
}

/// The end of a voting transaction doesn't count. That one is over and another votes is rare, and
/// only then each is looked at.
fn first_active(state: &Core, time: u64) -> Option<Item>
    ensures { result ≡ first_item (over_by time (map transaction_end (filter (λ t. not (votes state.now t.number)) state.now.transactions))) }
{
    let Some(item) = state.transactions.due(time) else {
        return None;
    };
    if state.commits.as_slice().is_empty() {
        return Some(item);
    }
    state.transactions.due_of(time, &Active { state })
}

/// Whether a transaction doesn't vote.
#[derive(Drop)]
struct Active<'a> {
    state: &'a Core,
}

impl<'a> Test<Transaction> for Active<'a> {
    ghost is_passed = { λ a t. not (votes a.state.now t.number) };

    fn passes(&self, transaction: &Transaction) -> bool {
        !is_voting(self.state, transaction.number)
    }
}
