//! Numbers as requests and callers give them.
ghost use Rattle.std.specs.Prelude.{◌≡◌, ◌≤◌};
ghost use Rattle.jsp_model.specs.Lookup.{named as number_named};
ghost use Rattle.jsp_model.specs.Requests.{caller_of as transaction_named};
ghost use Rattle.jsp_model.specs.Refusals.{is_used_up as lacks_numbers};

use jsp_core::Core;
use jsp_model::LAST_NUMBER;

/// The number that a request gives. Nothing has the number 0.
pub fn named(number: i64) -> u64
    ensures { result ≡ number_named number }
{
    if number < 0 {
        return 0;
    }
    number as u64
}

/// The transaction under which a request is made, if it is made under one.
pub fn caller_of(txn: Option<i64>) -> Option<u64>
    ensures { result ≡ transaction_named txn }
{
    match txn {
        None => None,
        Some(number) => Some(named(number)),
    }
}

/// Whether so many numbers more can't be drawn.
pub fn is_used_up(state: &Core, count: u64) -> bool
    requires { count ≤ 64 }
    ensures { result ≡ lacks_numbers state.now count }
{
    LAST_NUMBER + 1 - count < state.next_number
}
