//! Handing out the first answers of a session.
ghost use Rattle.std.specs.Prelude.{◌≡◌, ◌<◌, length, take, IfOk, OnOk, OnErr, IsTrue};
ghost use Rattle.jsp_model.specs.Outboxes.{hand_out as handed_out};
ghost use Rattle.jsp_model.specs.Limits.{are_outboxes};
ghost use Rattle.jsp_outbox.specs.Outboxes.{answers_at, answers_for, without_first};

use crate::find::place_of;
use crate::queue::Queue;
use jsp_reply::Said;
use jsp_types::NoMemory;
use std::alloc::Global;

/// Hands out the first answers of a session, so many of those that are there, whole or not at all.
pub(crate) fn hand_out(
    alloc: Global,
    queues: &mut Vec<Queue>,
    session: u64,
    count: usize,
) -> Result<Vec<Said>, NoMemory>
    requires { IsTrue (are_outboxes queues.old.items) }
    ensures answers { IfOk result (λ v. v.items ≡ take count (answers_for session queues.old.items)) }
    ensures ok { OnOk result (queues.new.items ≡ handed_out session count queues.old.items) }
    ensures err { OnErr result (queues.new.items ≡ queues.old.items) }
{
    match place_of(queues.as_slice(), session) {
        None => Ok(Vec::new(alloc)),
        Some(place) => take_first(alloc, queues, place, count),
    }
}

/// Takes the first answers of the outbox at a place, so many. An outbox that is left empty goes.
fn take_first(
    alloc: Global,
    queues: &mut Vec<Queue>,
    place: usize,
    count: usize,
) -> Result<Vec<Said>, NoMemory>
    requires { place < length queues.old.items }
    ensures ok { IfOk result (λ v. (v.items ≡ take count (answers_at queues.old.items place)) × (queues.new.items ≡ without_first queues.old.items place count)) }
    ensures err { OnErr result (queues.new.items ≡ queues.old.items) }
{
    if queues[place].len() <= count {
        let queue = queues.remove(place);
        return Ok(queue.into_answers());
    }
    let queue = &mut queues[place];
    queue.take_front(alloc, count)
}
