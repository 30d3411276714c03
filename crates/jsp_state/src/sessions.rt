//! Sessions: which are open, what waits for their requests, opening and closing.
ghost use Rattle.std.specs.Prelude.{◌≡◌, ◌==◌, ◌&&◌, nat_le, length, filter, OnOk, OnErr};
ghost use Rattle.std.specs.List.{list_any};
ghost use Rattle.jsp_model.specs.Lookup.{is_open as has_open, is_waiting as waits, waiting_count};
ghost use Rattle.jsp_model.specs.Changes.{open_session, close as closed, set_version as with_version};
ghost use Rattle.jsp_model.specs.declared.limits.TheConstants.{MOST_WAITING};

use jsp_core::Core;
use jsp_model::{Commit, MOST_WAITING, Session};
use jsp_types::NoMemory;
use jsp_wire::Version;

/// Whether the session is open.
pub fn is_open(state: &Core, session: u64) -> bool
    ensures { result ≡ has_open state.now session }
{
    state.sessions.has(session)
}

/// Whether the session's request of this id waits.
pub fn is_waiting(state: &Core, session: u64, id: u64) -> bool
    ensures { result ≡ waits state.now session id }
{
    state.blocked.is_waiting(session, id) || is_asked(state.commits.as_slice(), session, id)
}

fn is_asked(commits: &[Commit], session: u64, id: u64) -> bool
    ensures { result ≡ list_any (λ c. c.session == session && c.id == id) commits.now }
{
    commits.iter().any(|c| c.session == session && c.id == id)
}

/// Whether as many of the session's requests wait as may.
pub fn waits_for_many(state: &Core, session: u64) -> bool
    ensures { result ≡ nat_le MOST_WAITING (waiting_count state.now session) }
{
    let commits = count_asked(state.commits.as_slice(), session);
    let left = MOST_WAITING.saturating_sub(commits);
    state.blocked.has_at_least(session, left)
}

fn count_asked(commits: &[Commit], session: u64) -> usize
    ensures { result ≡ length (filter (λ c. c.session == session) commits.now) }
{
    commits.iter().filter(|c| c.session == session).count()
}

/// Opens a session, whole or not at all. Its line begins in version 1.
pub fn open(state: &mut Core, session: u64) -> Result<(), NoMemory>
    ensures ok { OnOk result (state.new ≡ open_session state.old session) }
    ensures err { OnErr result (state.new ≡ state.old) }
{
    state.sessions.push(Session {
        number: session,
        version: Version::One,
    })?;
    state.last_session = session;
    Ok(())
}

/// Closes a session: its blocked requests, registrations and match sets go without answer. Rows,
/// transactions and asked commits stay (this profile's own).
pub fn close(state: &mut Core, session: u64)
    ensures { state.new ≡ closed state.old session }
{
    let sessions = &mut state.sessions;
    sessions.remove(session);
    let blocked = &mut state.blocked;
    blocked.remove_of(session);
    let registrations = &mut state.registrations;
    registrations.remove_of(session);
    let sets = &mut state.sets;
    sets.remove_of(session);
}

/// The session's line has this version from now on (this profile's own).
pub fn set_version(state: &mut Core, session: u64, version: Version)
    ensures { state.new ≡ with_version state.old session version }
{
    let sessions = &mut state.sessions;
    sessions.set_version(session, version);
}
