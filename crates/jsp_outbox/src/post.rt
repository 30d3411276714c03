//! Posting one answer, and taking it back.
ghost use Rattle.std.specs.Prelude.{◌≡◌, ◌≤◌, ◌<◌, ◌∷◌, [], length, insert, IfOk, OnErr, IsTrue};
ghost use Rattle.jsp_model.specs.Outboxes.{post as posted};
ghost use Rattle.jsp_model.specs.Limits.{are_outboxes};
ghost use Rattle.jsp_outbox.specs.Outboxes.{before, added};

use crate::find::first_from;
use crate::queue::Queue;
use jsp_reply::Said;
use jsp_types::NoMemory;
use std::alloc::Global;

/// Where an answer was posted: at the end of the outbox at this place. It tells nothing once
/// another answer is posted or handed out.
#[derive(Clone, Copy, Debug)]
pub struct Posted {
    place: usize,
}

/// Adds an answer at the end of a session's outbox, whole or not at all.
pub(crate) fn post(
    alloc: Global,
    queues: &mut Vec<Queue>,
    session: u64,
    said: Said,
) -> Result<Posted, NoMemory>
    requires { IsTrue (are_outboxes queues.old.items) }
    ensures ok { IfOk result (λ p. (queues.new.items ≡ posted queues.old.items (session, said)) × (before p queues.new.items ≡ queues.old.items)) }
    ensures err { OnErr result (queues.new.items ≡ queues.old.items) }
{
    match first_from(queues.as_slice(), session) {
        None => {
            let place = queues.len();
            open(alloc, queues, place, session, said)
        }
        Some(place) => {
            if queues[place].session() == session {
                add(queues, place, said)
            } else {
                open(alloc, queues, place, session, said)
            }
        }
    }
}

/// Takes back the answer that was posted last.
pub(crate) fn take_back(queues: &mut Vec<Queue>, posted: Posted)
    ensures { queues.new.items ≡ before posted queues.old.items }
{
    let place = posted.place;
    if place < queues.len() {
        drop_last(queues, place);
    }
}

/// Drops the last answer of the outbox at a place. An outbox that is left empty goes.
fn drop_last(queues: &mut Vec<Queue>, place: usize)
    requires { place < length queues.old.items }
    ensures { queues.new.items ≡ before (record { place = place }) queues.old.items }
{
    if queues[place].len() <= 1 {
        let _queue = queues.remove(place);
    } else {
        let queue = &mut queues[place];
        queue.pop();
    }
}

/// Opens an outbox at a place, with one answer in it.
fn open(
    alloc: Global,
    queues: &mut Vec<Queue>,
    place: usize,
    session: u64,
    said: Said,
) -> Result<Posted, NoMemory>
    requires { place ≤ length queues.old.items }
    ensures ok { IfOk result (λ p. (p.place ≡ place) × (queues.new.items ≡ insert queues.old.items place (record { session = session; answers = said ∷ [] }))) }
    ensures err { OnErr result (queues.new.items ≡ queues.old.items) }
{
    let queue = Queue::open(alloc, session, said)?;
    queues.insert(place, queue)?;
    Ok(Posted { place })
}

/// Adds an answer to the outbox at a place.
fn add(queues: &mut Vec<Queue>, place: usize, said: Said) -> Result<Posted, NoMemory>
    requires { place < length queues.old.items }
    ensures ok { IfOk result (λ p. (p.place ≡ place) × (queues.new.items ≡ added queues.old.items place said)) }
    ensures err { OnErr result (queues.new.items ≡ queues.old.items) }
{
    let queue = &mut queues[place];
    queue.push(said)?;
    Ok(Posted { place })
}
