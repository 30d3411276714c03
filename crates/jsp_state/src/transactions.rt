//! Transactions, the spaces that joined them, and their asked commits.
ghost use Rattle.std.specs.Prelude.{◌≡◌, ◌==◌, Some, find, option_copied};
ghost use Rattle.jsp_model.specs.Lookup.{transaction_of as transaction_named, joined_at as joined_of_space, commit_of as commit_asked, is_living as lives, is_voting as votes};
ghost use Rattle.jsp_model.specs.Refusals.{joined_otherwise as crashed_since};

use crate::spaces::crash_count;
use jsp_core::Core;
use jsp_model::{Commit, Joined, Transaction};

/// The transaction of this number, if there is one.
pub fn transaction_of(state: &Core, x: u64) -> Option<&Transaction>
    ensures { option_copied result ≡ transaction_named state.now x }
{
    state.transactions.get(x)
}

/// How the space joined the transaction, if it did.
pub fn joined_at(state: &Core, x: u64, space: u64) -> Option<&Joined>
    ensures { option_copied result ≡ joined_of_space state.now x space }
{
    match transaction_of(state, x) {
        None => None,
        Some(transaction) => find_joined(transaction.joined.as_slice(), space),
    }
}

fn find_joined(joined: &[Joined], space: u64) -> Option<&Joined>
    ensures { option_copied result ≡ find (λ j. j.space == space) joined.now }
{
    joined.iter().find(|j| j.space == space)
}

/// Whether the space joined the caller's transaction under another crash count than it has now.
pub fn joined_otherwise(state: &Core, caller: Option<u64>, space: Option<u64>) -> bool
    ensures { result ≡ crashed_since state.now caller space }
{
    match (caller, space) {
        (Some(x), Some(space)) => has_crashed_since(state, x, space),
        _ => false,
    }
}

fn has_crashed_since(state: &Core, x: u64, space: u64) -> bool
    ensures { result ≡ crashed_since state.now (Some x) (Some space) }
{
    match joined_at(state, x, space) {
        None => false,
        Some(joined) => !(joined.crash_count == crash_count(state, space)),
    }
}

/// The asked commit of the transaction, if it was asked and isn't decided.
pub fn commit_of(state: &Core, x: u64) -> Option<&Commit>
    ensures { option_copied result ≡ commit_asked state.now x }
{
    find_commit(state.commits.as_slice(), x)
}

fn find_commit(commits: &[Commit], x: u64) -> Option<&Commit>
    ensures { option_copied result ≡ find (λ c. c.transaction == x) commits.now }
{
    commits.iter().find(|c| c.transaction == x)
}

/// Whether there is such a transaction.
pub fn is_living(state: &Core, x: u64) -> bool
    ensures { result ≡ lives state.now x }
{
    transaction_of(state, x).is_some()
}

/// Whether the commit of the transaction was asked.
pub fn is_voting(state: &Core, x: u64) -> bool
    ensures { result ≡ votes state.now x }
{
    commit_of(state, x).is_some()
}
