//! The votes of joined spaces. Nothing here takes memory.
ghost use Rattle.std.specs.Prelude.{◌≡◌, false};
ghost use Rattle.std.specs.Option.{option_map_or};
ghost use Rattle.jsp_model.specs.Changes.{cast as after_cast, cast_vote as after_vote, vote_of as voted, has_changed as changes, is_not_changed};
ghost use Rattle.jsp_model.specs.Lookup.{joined_at as joined_in};

use jsp_core::Core;
use jsp_model::{Joined, Vote};
use jsp_state::{crash_count, joined_at};

/// The space votes, if it joined the transaction: to abort where it was reset since, to commit with
/// its changes where the transaction wrote or took there, and else that nothing is changed; then
/// its read marks of the transaction go at once (Jini Transactions). Takes no memory.
pub fn cast_vote(state: &mut Core, x: u64, space: u64)
    ensures { state.new ≡ after_vote state.old x space }
{
    match joined_at(state, x, space) {
        None => {}
        Some(joined) => {
            let joined = *joined;
            cast(state, x, joined);
        }
    }
}

/// Whether the space joined the transaction and would vote that nothing is changed.
pub fn would_vote_not_changed(state: &Core, x: u64, space: u64) -> bool
    ensures { result ≡ option_map_or (λ j. is_not_changed (voted state.now x j)) (joined_in state.now x space) false }
{
    match joined_at(state, x, space) {
        None => false,
        Some(joined) => matches!(vote_of(state, x, *joined), Vote::NotChanged),
    }
}

fn cast(state: &mut Core, x: u64, joined: Joined)
    ensures { state.new ≡ after_cast state.old x joined }
{
    let vote = vote_of(state, x, joined);
    let rows = &mut state.rows;
    rows.release(vote, x, joined.space);
    let transactions = &mut state.transactions;
    transactions.vote(x, joined.space, vote);
}

fn vote_of(state: &Core, x: u64, joined: Joined) -> Vote
    ensures { result ≡ voted state.now x joined }
{
    if joined.crash_count != crash_count(state, joined.space) {
        return Vote::Aborted;
    }
    if has_changed(state, x, joined.space) {
        return Vote::Prepared;
    }
    Vote::NotChanged
}

fn has_changed(state: &Core, x: u64, space: u64) -> bool
    ensures { result ≡ changes state.now x space }
{
    state.rows.has_changed(x, space)
}
