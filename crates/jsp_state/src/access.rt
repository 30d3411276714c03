//! Whether an operation can be made at a space, and under a transaction.
ghost use Rattle.std.specs.Prelude.{◌≡◌, not, false};
ghost use Rattle.std.specs.Option.{option_map_or};
ghost use Rattle.jsp_types.specs.Tests.{first_that};
ghost use Rattle.jsp_model.specs.Lookup.{is_living as lives, is_voting as votes};
ghost use Rattle.jsp_model.specs.Refusals.{space_tests};

use crate::numbers::caller_of;
use crate::spaces::space_named;
use crate::transactions::{is_living, is_voting, joined_otherwise};
use jsp_core::Core;
use jsp_reply::Refusal;

/// Why no operation can be made at the space under the transaction, if none can: there is no such
/// space, no such transaction, its commit was asked, or the space was reset since it joined it.
pub fn space_refusal(state: &Core, space: &str, txn: Option<i64>) -> Option<Refusal>
    ensures { result ≡ first_that (space_tests state.now space.now txn) }
{
    let place = space_named(state, space);
    let caller = caller_of(txn);
    if place.is_none() {
        return Some(Refusal::UnknownSpace);
    }
    if is_gone(state, caller) {
        return Some(Refusal::UnknownTransaction);
    }
    if has_asked(state, caller) {
        return Some(Refusal::NotActive);
    }
    if joined_otherwise(state, caller, place) {
        return Some(Refusal::CrashCount);
    }
    None
}

fn is_gone(state: &Core, caller: Option<u64>) -> bool
    ensures { result ≡ option_map_or (λ x. not (lives state.now x)) caller false }
{
    match caller {
        None => false,
        Some(x) => !is_living(state, x),
    }
}

fn has_asked(state: &Core, caller: Option<u64>) -> bool
    ensures { result ≡ option_map_or (votes state.now) caller false }
{
    match caller {
        None => false,
        Some(x) => is_voting(state, x),
    }
}
