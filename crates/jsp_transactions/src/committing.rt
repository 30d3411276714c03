//! A transaction ends with its changes.
ghost use Rattle.std.specs.Prelude.{◌≡◌, OnOk, OnErr};
ghost use Rattle.jsp_model.specs.Changes.{commit as after_commit, ask_commit as after_asking};
ghost use Rattle.jsp_transactions.specs.Owing.{with_news};

use crate::aborting::{forget, leave_active};
use jsp_core::Core;
use jsp_model::Commit;
use jsp_types::{Items, NoMemory};
use std::alloc::Global;

/// The session's request of this id asks for the commit. From then on the transaction is voting:
/// its blocked requests and match sets go. Only the commit that is noted takes memory.
///
/// # Errors
///
/// Where memory is refused the state is as it was.
pub fn ask_commit(state: &mut Core, session: u64, id: u64, x: u64) -> Result<(), NoMemory>
    ensures ok { OnOk result (state.new ≡ after_asking state.old session id x) }
    ensures err { OnErr result (state.new ≡ state.old) }
{
    state.commits.push(Commit {
        transaction: x,
        session,
        id,
    })?;
    leave_active(state, x);
    Ok(())
}

/// The transaction ends with its changes, in all spaces at once (Jini Transactions): the rows that
/// it took go, those that it wrote become everyone's, its read marks go, and all else that it has.
/// The registrations that stay are owed the rows that become everyone's. Only what they are owed
/// needs memory: where there is none to record what becomes of the rows, it is done at once.
///
/// # Errors
///
/// Where memory is refused the state is as it was.
pub fn commit(alloc: Global, state: &mut Core, x: u64) -> Result<(), NoMemory>
    ensures ok { OnOk result (state.new ≡ after_commit state.old x) }
    ensures err { OnErr result (state.new ≡ state.old) }
{
    record_news(alloc, state, x)?;
    let rows = &mut state.rows;
    rows.commit(x);
    forget(state, x);
    Ok(())
}

fn record_news(alloc: Global, state: &mut Core, x: u64) -> Result<(), NoMemory>
    ensures ok { OnOk result (state.new ≡ with_news state.old x) }
    ensures err { OnErr result (state.new ≡ state.old) }
{
    if state.registrations.is_empty() {
        return Ok(());
    }
    let published = state.rows.published(alloc, x)?;
    let registrations = &mut state.registrations;
    registrations.record(&state.classes, Items::from_vec(published))
}
