//! Whether something may end, a space may vote, or a transaction may be decided.
ghost use Rattle.std.specs.Prelude.{◌≡◌, is_none, false, IfOk};
ghost use Rattle.std.specs.Option.{option_map_or};
ghost use Rattle.std.specs.List.{list_any, list_all};
ghost use Rattle.jsp_model.specs.declared.step.Step.TheVariants as step;
ghost use Rattle.jsp_model.specs.Lookup.{joined_of, joined_at as joined_in};
ghost use Rattle.jsp_model.specs.Steps.{is_legal as legal, is_vote_to_abort as says_to_abort, is_vote_to_commit as says_to_commit};

use crate::touching::{are_quiet, item_touches};
use jsp_core::{Core, LiveImage};
use jsp_lease::is_item;
use jsp_model::{Item, Joined, Vote};
use jsp_state::{due, is_voting, joined_at, transaction_of};
use jsp_types::NoMemory;
use std::alloc::Global;

/// Only the least due item ends, and only where each space that its end touches is quiet.
#[tactic(auto, unfolding(jsp_model::specs::Steps::is_legal, jsp_model::specs::Touches::touches))]
pub(crate) fn may_end(alloc: Global, image: &LiveImage, item: Item) -> Result<bool, NoMemory>
    ensures { IfOk result (λ b. b ≡ legal image.now (step.Due item)) }
{
    let state = image.state();
    let spaces = item_touches(alloc, state, item.number)?;
    match due(state) {
        None => Ok(false),
        Some(first) => Ok(is_item(item, first) && are_quiet(image, spaces.as_slice())),
    }
}

/// A space that joined a voting transaction votes once, while it is quiet (Jini Transactions; that
/// it is quiet is this profile's own).
#[tactic(auto, unfolding(jsp_model::specs::Steps::is_legal, jsp_model::specs::Touches::touches))]
pub(crate) fn may_vote(image: &LiveImage, x: u64, space: u64) -> bool
    ensures { result ≡ legal image.now (step.Vote x space) }
{
    let state = image.state();
    is_voting(state, x) && has_not_voted(state, x, space) && are_quiet(image, &[space])
}

fn has_not_voted(state: &Core, x: u64, space: u64) -> bool
    ensures { result ≡ option_map_or (λ j. is_none j.vote) (joined_in state.now x space) false }
{
    match joined_at(state, x, space) {
        None => false,
        Some(joined) => joined.vote.is_none(),
    }
}

/// A transaction commits where each joined space voted to, and aborts where one voted to abort
/// (Jini Transactions).
#[tactic(auto, unfolding(jsp_model::specs::Steps::is_legal))]
pub(crate) fn may_decide(state: &Core, x: u64, commits: bool) -> bool
    ensures { result ≡ legal state.now (step.Decide x commits) }
{
    if commits {
        is_voting(state, x) && each_votes_to_commit(state, x)
    } else {
        one_votes_to_abort(state, x)
    }
}

fn each_votes_to_commit(state: &Core, x: u64) -> bool
    ensures { result ≡ list_all says_to_commit (joined_of state.now x) }
{
    match transaction_of(state, x) {
        None => true,
        Some(transaction) => all_vote_to_commit(transaction.joined.as_slice()),
    }
}

fn all_vote_to_commit(joined: &[Joined]) -> bool
    ensures { result ≡ list_all says_to_commit joined.now }
{
    joined.iter().all(is_vote_to_commit)
}

fn one_votes_to_abort(state: &Core, x: u64) -> bool
    ensures { result ≡ list_any says_to_abort (joined_of state.now x) }
{
    match transaction_of(state, x) {
        None => false,
        Some(transaction) => any_votes_to_abort(transaction.joined.as_slice()),
    }
}

fn any_votes_to_abort(joined: &[Joined]) -> bool
    ensures { result ≡ list_any says_to_abort joined.now }
{
    joined.iter().any(is_vote_to_abort)
}

fn is_vote_to_commit(joined: &Joined) -> bool
    ensures { result ≡ says_to_commit joined.now }
{
    joined.vote.is_some() && !is_vote_to_abort(joined)
}

fn is_vote_to_abort(joined: &Joined) -> bool
    ensures { result ≡ says_to_abort joined.now }
{
    matches!(joined.vote, Some(Vote::Aborted))
}
