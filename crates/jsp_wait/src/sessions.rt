//! The requests of each session, in arrival order.
ghost use Rattle.std.specs.Prelude.{◌≡◌, ◌==◌, ◌<◌, [], ℕ, if◌then◌else◌, nat_eq, nat_le, length, map, slice_get, OnOk};
ghost use Rattle.std.specs.List.{list_any};
ghost use Rattle.indexmap.specs.IndexMap.{insert_entry, shift_remove_entry};
ghost use Rattle.jsp_wait.specs.Sessions.{entries_of, room_of};

use indexmap::IndexMap;
use jsp_types::NoMemory;
use std::alloc::Global;
use std::collections::HashMap;

/// From a session to its requests, which go from their numbers to their ids. A session without
/// requests has no map or an empty one.
pub(crate) type Sessions = HashMap<u64, IndexMap<u64, u64>>;

/// Makes room for one more request of a session. All stays as it was, on `Err` too.
pub(crate) fn make_room(
    alloc: Global,
    sessions: &mut Sessions,
    session: u64,
) -> Result<(), NoMemory>
    ensures same { (s : ℕ) → entries_of sessions.new s ≡ entries_of sessions.old s }
    ensures room { OnOk result (0 < room_of sessions.new session) }
{
    if let Some(requests) = sessions.get_mut(&session) {
        requests.reserve(1)?;
        return Ok(());
    }
    let mut requests = IndexMap::new(alloc);
    requests.reserve(1)?;
    sessions.insert(session, requests)?;
    Ok(())
}

/// Adds a request to its session's, for which there is room. Takes no memory.
pub(crate) fn add(sessions: &mut Sessions, session: u64, number: u64, id: u64)
    requires { 0 < room_of sessions.old session }
    ensures { (s : ℕ) → entries_of sessions.new s ≡ (if s == session then insert_entry nat_eq (entries_of sessions.old s) number id else entries_of sessions.old s) }
{
    if let Some(requests) = sessions.get_mut(&session) {
        let _ = requests.insert(number, id);
    }
}

/// A request goes from its session's. Takes no memory.
pub(crate) fn drop_one(sessions: &mut Sessions, session: u64, number: u64)
    ensures { (s : ℕ) → entries_of sessions.new s ≡ (if s == session then shift_remove_entry (nat_eq number) (entries_of sessions.old s) else entries_of sessions.old s) }
{
    if let Some(requests) = sessions.get_mut(&session) {
        requests.shift_remove(&number);
    }
}

/// A session goes. Takes no memory.
pub(crate) fn drop_session(sessions: &mut Sessions, session: u64)
    ensures { (s : ℕ) → entries_of sessions.new s ≡ (if s == session then [] else entries_of sessions.old s) }
{
    sessions.remove(&session);
}

/// The number of a session's first request.
pub(crate) fn first_number(sessions: &Sessions, session: u64) -> Option<u64>
    ensures { result ≡ slice_get (map (λ p. p.0) (entries_of sessions.now session)) 0 }
{
    match sessions.get(&session) {
        None => None,
        Some(requests) => match requests.keys().as_slice().first() {
            None => None,
            Some(number) => Some(*number),
        },
    }
}

/// Whether one of a session's requests has this id.
pub(crate) fn has_id(sessions: &Sessions, session: u64, id: u64) -> bool
    ensures { result ≡ list_any (λ i. i == id) (map (λ p. p.1) (entries_of sessions.now session)) }
{
    match sessions.get(&session) {
        None => false,
        Some(requests) => requests.values().as_slice().iter().any(|i| *i == id),
    }
}

/// Whether a session has so many requests.
pub(crate) fn has_so_many(sessions: &Sessions, session: u64, count: usize) -> bool
    ensures { result ≡ nat_le count (length (entries_of sessions.now session)) }
{
    match sessions.get(&session) {
        None => count == 0,
        Some(requests) => count <= requests.len(),
    }
}
