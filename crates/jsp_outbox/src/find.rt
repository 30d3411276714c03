//! Finding the outbox of a session, by binary search.
ghost use Rattle.std.specs.Prelude.{◌≡◌, ◌==◌, nat_le, nat_lt, length, find, position, option_map, IsTrue};
ghost use Rattle.jsp_model.specs.Limits.{are_outboxes};
ghost use Rattle.jsp_outbox.specs.Outboxes.{answers_for};

use crate::queue::Queue;

/// The place of the first outbox of this session or a later one.
pub(crate) fn first_from(queues: &[Queue], session: u64) -> Option<usize>
    requires { IsTrue (are_outboxes queues.now) }
    ensures { result ≡ position (λ b. nat_le session b.session) queues.now }
{
    let place = queues.partition_point(|queue| queue.session() < session);
    if place < queues.len() {
        Some(place)
    } else {
        None
    }
}

/// The place of the session's outbox, if it has one.
pub(crate) fn place_of(queues: &[Queue], session: u64) -> Option<usize>
    requires { IsTrue (are_outboxes queues.now) }
    ensures { result ≡ position (λ b. b.session == session) queues.now }
{
    match first_from(queues, session) {
        None => None,
        Some(place) => {
            if queues[place].session() == session {
                Some(place)
            } else {
                None
            }
        }
    }
}

/// How many answers wait for the session.
pub(crate) fn waiting(queues: &[Queue], session: u64) -> u64
    requires { IsTrue (are_outboxes queues.now) }
    ensures { result ≡ length (answers_for session queues.now) }
{
    match place_of(queues, session) {
        None => 0,
        Some(place) => queues[place].len() as u64,
    }
}

/// About how many bytes of memory the answers take that wait for the session.
pub(crate) fn weight(queues: &[Queue], session: u64) -> u64
    requires { IsTrue (are_outboxes queues.now) }
{
    let Some(place) = place_of(queues, session) else {
        return 0;
    };
    match queues.get(place) {
        None => 0,
        Some(queue) => queue.weight(),
    }
}

/// The least session above this number that has an outbox.
pub(crate) fn next_after(queues: &[Queue], session: u64) -> Option<u64>
    requires { IsTrue (are_outboxes queues.now) }
    ensures { result ≡ option_map (λ b. b.session) (find (λ b. nat_lt session b.session) queues.now) }
{
    let place = queues.partition_point(|queue| queue.session() <= session);
    if place < queues.len() {
        Some(queues[place].session())
    } else {
        None
    }
}
