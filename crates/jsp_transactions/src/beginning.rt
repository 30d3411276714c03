//! A transaction begins.
ghost use Rattle.std.specs.Prelude.{◌≡◌, ◌≤◌, ◌+◌, ◌^◌, IfOk, OnErr};
ghost use Rattle.jsp_model.specs.Changes.{begin as begun};
ghost use Rattle.jsp_model.specs.declared.limits.TheConstants.{LAST_NUMBER, LAST_TIME};

use jsp_core::Core;
use jsp_lease::ms_of;
use jsp_model::Transaction;
use jsp_types::{Items, NoMemory};
use std::alloc::Global;

/// A transaction begins, with a lease of the time that is granted for the asked one, in
/// milliseconds (`jsp_lease::granted`). No space has joined it. Gives its number.
///
/// # Errors
///
/// Where memory is refused the state is as it was.
pub fn begin(alloc: Global, state: &mut Core, lease: i64) -> Result<u64, NoMemory>
    requires time { state.old.time ≤ LAST_TIME }
    requires next_number { state.old.next_number ≤ LAST_NUMBER + 1 }
    ensures ok { IfOk result (λ n. (n ≡ state.old.next_number) × (state.new ≡ begun state.old lease)) }
    ensures err { OnErr result (state.new ≡ state.old) }
{
    let number = state.next_number;
    state.transactions.push(Transaction {
        number,
        end: state.time + ms_of(lease),
        joined: Items::new(alloc),
    })?;
    state.next_number += 1;
    Ok(number)
}
