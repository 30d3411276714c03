//! What waits for a session, and handing it out.
ghost use Rattle.std.specs.Prelude.{◌≡◌, length, take, IfOk, OnOk, OnErr};
ghost use Rattle.jsp_model.specs.Outboxes.{outbox_of};
ghost use Rattle.jsp_state.specs.Outboxes.{after_handing};

use jsp_core::Core;
use jsp_reply::Said;
use jsp_types::NoMemory;
use std::alloc::Global;

/// Hands out the first answers of a session, so many of those that are there, whole or not at all.
pub fn hand_out(
    alloc: Global,
    state: &mut Core,
    session: u64,
    count: usize,
) -> Result<Vec<Said>, NoMemory>
    ensures answers { IfOk result (λ v. v.items ≡ take count (outbox_of state.old session)) }
    ensures ok { OnOk result (state.new ≡ after_handing state.old session count) }
    ensures err { OnErr result (state.new ≡ state.old) }
{
    let outboxes = &mut state.outboxes;
    outboxes.hand_out(alloc, session, count)
}

/// How many answers wait for the session.
pub fn waiting(state: &Core, session: u64) -> u64
    ensures { result ≡ length (outbox_of state.now session) }
{
    state.outboxes.waiting(session)
}
