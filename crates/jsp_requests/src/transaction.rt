//! Transactions as requests ask of them: beginning one, asking its commit, aborting it, its state;
//! and resetting a space (Jini Transactions; reset is this profile's own).
ghost use Rattle.std.specs.Prelude.{◌≡◌, ◌==◌, ◌&&◌, length, nat_le, if◌then◌else◌};
ghost use Rattle.std.specs.List.{list_any};
ghost use Rattle.jsp_types.specs.Tests.{first_that};
ghost use Rattle.jsp_reply.specs.declared.reply.TxnState.TheVariants.{Active as active, Voting as voting};
ghost use Rattle.jsp_model.specs.Lookup.{named as number_named, is_voting as votes};
ghost use Rattle.jsp_model.specs.declared.limits.TheConstants.{MOST_TRANSACTIONS};
ghost use Rattle.jsp_model.specs.Refusals.{begin_tests, txn_tests, commit_tests, reset_tests, is_in_doubt as in_doubt, is_prepared as prepared};

use crate::lease::grants_nothing;
use jsp_core::Core;
use jsp_model::{Joined, LAST_CRASH_COUNT, MOST_TRANSACTIONS, Transaction, Vote};
use jsp_reply::{Refusal, TxnState};
use jsp_state::{
    crash_count, is_living, is_used_up, is_voting, named, place_of, space_named, waits_for_many,
};
use jsp_table::Test;

/// Why a transaction isn't begun, or nothing where it is.
pub(crate) fn refuse_begin(state: &Core, lease: &i64) -> Option<Refusal>
    ensures { result ≡ first_that (begin_tests state.now lease.now) }
{
    if grants_nothing(lease) {
        return Some(Refusal::BadLease);
    }
    if is_full(state) {
        return Some(Refusal::TooMany);
    }
    if is_used_up(state, 1) {
        return Some(Refusal::UsedUp);
    }
    None
}

fn is_full(state: &Core) -> bool
    ensures { result ≡ nat_le MOST_TRANSACTIONS (length state.now.transactions) }
{
    state.transactions.has_at_least(MOST_TRANSACTIONS)
}

/// Why nothing is asked of a transaction: there is none of this number.
pub(crate) fn refuse_transaction(state: &Core, txn: &i64) -> Option<Refusal>
    ensures { result ≡ first_that (txn_tests state.now txn.now) }
{
    if !is_living(state, named(*txn)) {
        return Some(Refusal::UnknownTransaction);
    }
    None
}

/// Why a commit can't be asked, or nothing where it can.
pub(crate) fn refuse_commit(state: &Core, session: u64, txn: &i64) -> Option<Refusal>
    ensures { result ≡ first_that (commit_tests state.now session txn.now) }
{
    let number = named(*txn);
    if !is_living(state, number) {
        return Some(Refusal::UnknownTransaction);
    }
    if is_voting(state, number) {
        return Some(Refusal::NotActive);
    }
    if waits_for_many(state, session) {
        return Some(Refusal::TooManyWaiting);
    }
    None
}

/// Whether the transaction is active, or its commit was asked.
pub(crate) fn state_of(state: &Core, txn: &i64) -> TxnState
    ensures { result ≡ (if votes state.now (number_named txn.now) then voting else active) }
{
    if is_voting(state, named(*txn)) {
        TxnState::Voting
    } else {
        TxnState::Active
    }
}

/// Why a space isn't reset, or nothing where it is.
pub(crate) fn refuse_reset(state: &Core, space: &str) -> Option<Refusal>
    ensures { result ≡ first_that (reset_tests state.now space.now) }
{
    if space_named(state, space).is_none() {
        return Some(Refusal::UnknownSpace);
    }
    let place = place_of(state, space);
    if is_in_doubt(state, place) {
        return Some(Refusal::InDoubt);
    }
    if LAST_CRASH_COUNT <= crash_count(state, place) {
        return Some(Refusal::UsedUp);
    }
    None
}

/// Whether a prepared vote of the space awaits its decision.
fn is_in_doubt(state: &Core, space: u64) -> bool
    ensures { result ≡ in_doubt state.now space }
{
    state.transactions.any(&PreparedIn { space })
}

/// Whether a space has voted for a transaction that changed something there.
#[derive(Drop)]
struct PreparedIn {
    space: u64,
}

impl Test<Transaction> for PreparedIn {
    ghost is_passed = { λ p t. list_any (λ j. j.space == p.space && prepared j.vote) t.joined };

    fn passes(&self, transaction: &Transaction) -> bool {
        is_prepared_in(transaction, self.space)
    }
}

fn is_prepared_in(transaction: &Transaction, space: u64) -> bool
    ensures { result ≡ list_any (λ j. j.space == space && prepared j.vote) transaction.now.joined }
{
    transaction
        .joined
        .as_slice()
        .iter()
        .any(|j| j.space == space && is_prepared(j))
}

fn is_prepared(joined: &Joined) -> bool
    ensures { result ≡ prepared joined.now.vote }
{
    matches!(joined.vote, Some(Vote::Prepared))
}
