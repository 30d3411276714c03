//! The open sessions. Contracts see them as a list, in the order in which they were opened.
ghost use Rattle.std.specs.Prelude.{◌≡◌, ◌==◌, ◌<◌, ◌^◌, ◌++◌, ◌∷◌, [], not, nat_lt, map, filter, zip, drop, length, IfOk, OnOk, OnErr};
ghost use Rattle.std.specs.Bool.{OnTrue};
ghost use Rattle.std.specs.List.{list_any, list_all};
ghost use Rattle.jsp_core.specs.Numbering.{AreRising, IsAt, HasNone, versioned};

use jsp_model::Session;
use jsp_types::{Items, NoMemory};
use jsp_wire::Version;
use std::alloc::Global;
use std::marker::Model;

/// The open sessions.
///
/// One is found by a binary search, since a house opens sessions in rising order of their numbers.
/// Where one comes whose number doesn't rise, each is looked at from then on.
#[derive(Drop)]
pub struct Sessions {
    list: Items<Session>,
    are_rising: bool,
}

impl Model for Sessions {
    ghost use Rattle.std.specs.Prelude.{◌≡◌, List, true};
    ghost use Rattle.jsp_model.specs.declared.state.Session.{Session};
    ghost use Rattle.jsp_core.specs.Numbering.{AreRising};

    ghost Value = { List Session };

    ghost view = { λ s. s.list };

    ghost invariant = { λ s. s.are_rising ≡ true → AreRising s.list };
}

impl Sessions {
    /// No sessions.
    pub fn new(alloc: Global) -> Self
        ensures { result ≡ [] }
    {
        Sessions {
            list: Items::new(alloc),
            are_rising: true,
        }
    }

    /// These sessions.
    pub fn of(sessions: Items<Session>) -> Self
        ensures { result ≡ sessions }
    {
        let are_rising = are_rising(sessions.as_slice());
        Sessions {
            list: sessions,
            are_rising,
        }
    }

    /// A plain copy of these sessions.
    ///
    /// # Errors
    ///
    /// `NoMemory` where memory is refused.
    pub fn to_items(&self) -> Result<Items<Session>, NoMemory>
        ensures { IfOk result (λ c. c ≡ self.now) }
    {
        copy(&self.list)
    }

    /// Adds a session at the end, whole or not at all.
    ///
    /// # Errors
    ///
    /// Where memory is refused the sessions are as they were.
    pub fn push(&mut self, session: Session) -> Result<(), NoMemory>
        ensures ok { OnOk result (self.new ≡ self.old ++ session ∷ []) }
        ensures err { OnErr result (self.new ≡ self.old) }
    {
        let are_rising = self.are_rising && may_follow(self.list.as_slice(), session);
        self.list.push(session)?;
        self.are_rising = are_rising;
        Ok(())
    }

    // ---- Nothing from here on takes memory.

    /// The session of this number goes.
    pub fn remove(&mut self, number: u64)
        ensures { self.new ≡ filter (λ k. not (k.number == number)) self.old }
    {
        let list = &mut self.list;
        if self.are_rising {
            drop_found(&mut list.items, number);
        } else {
            drop_each(&mut list.items, number);
        }
    }

    /// The line of the session of this number has this version from now on.
    pub fn set_version(&mut self, number: u64, version: Version)
        ensures { self.new ≡ map (versioned number version) self.old }
    {
        let list = &mut self.list;
        if self.are_rising {
            change_found(&mut list.items, number, version);
        } else {
            change_each(&mut list.items, number, version);
        }
    }

    /// Whether there is a session of this number.
    pub fn has(&self, number: u64) -> bool
        ensures { result ≡ list_any (λ k. k.number == number) self.now }
    {
        let sessions = self.list.as_slice();
        if self.are_rising {
            is_found(sessions, number)
        } else {
            is_any(sessions, number)
        }
    }

    /// How many there are.
    pub fn len(&self) -> usize
        ensures len { result ≡ length self.now }
        ensures fits { result < 2 ^ 63 }
    {
        count(self.list.as_slice())
    }
}

fn copy(sessions: &Items<Session>) -> Result<Items<Session>, NoMemory>
    ensures { IfOk result (λ c. c ≡ sessions.now) }
{
    sessions.clone()
}

fn count(sessions: &[Session]) -> usize
    ensures len { result ≡ length sessions.now }
    ensures fits { result < 2 ^ 63 }
{
    sessions.len()
}

// ---- whose numbers rise

/// Whether the numbers rise.
fn are_rising(sessions: &[Session]) -> bool
    ensures { OnTrue result (AreRising sessions.now) }
{
    each_below_next(sessions)
}

fn each_below_next(sessions: &[Session]) -> bool
    ensures { result ≡ list_all (λ p. nat_lt p.0.number p.1.number) (zip sessions.now (drop 1 sessions.now)) }
{
    sessions
        .iter()
        .zip(sessions.iter().skip(1))
        .all(|(session, next)| session.number < next.number)
}

/// Whether the numbers rise with one more session behind those whose numbers do.
fn may_follow(sessions: &[Session], session: Session) -> bool
    requires { AreRising sessions.now }
    ensures { OnTrue result (AreRising (sessions.now ++ session ∷ [])) }
{
    match sessions.last() {
        None => true,
        Some(last) => last.number < session.number,
    }
}

/// The place of the session of a number, or the one where it would stand.
fn search(sessions: &[Session], number: u64) -> Result<usize, usize>
    requires { AreRising sessions.now }
    ensures found { IfOk result (IsAt sessions.now number) }
    ensures absent { OnErr result (HasNone sessions.now number) }
{
    sessions.binary_search_by_key(&number, |session| session.number)
}

fn is_found(sessions: &[Session], number: u64) -> bool
    requires { AreRising sessions.now }
    ensures { result ≡ list_any (λ k. k.number == number) sessions.now }
{
    search(sessions, number).is_ok()
}

fn drop_found(sessions: &mut Vec<Session>, number: u64)
    requires { AreRising sessions.old.items }
    ensures { sessions.new.items ≡ filter (λ k. not (k.number == number)) sessions.old.items }
{
    if let Ok(place) = search(sessions.as_slice(), number) {
        sessions.remove(place);
    }
}

fn change_found(sessions: &mut Vec<Session>, number: u64, version: Version)
    requires { AreRising sessions.old.items }
    ensures { sessions.new.items ≡ map (versioned number version) sessions.old.items }
{
    if let Ok(place) = search(sessions.as_slice(), number) {
        change_one(&mut sessions[place], number, version);
    }
}

// ---- whose numbers needn't rise

fn is_any(sessions: &[Session], number: u64) -> bool
    ensures { result ≡ list_any (λ k. k.number == number) sessions.now }
{
    sessions.iter().any(|session| session.number == number)
}

fn drop_each(sessions: &mut Vec<Session>, number: u64)
    ensures { sessions.new.items ≡ filter (λ k. not (k.number == number)) sessions.old.items }
{
    sessions.retain(|session| !(session.number == number));
}

fn change_each(sessions: &mut [Session], number: u64, version: Version)
    ensures { sessions.new ≡ map (versioned number version) sessions.old }
{
    'sessions: for session in sessions.iter_mut() {
        change_one(session, number, version);
    }
}

fn change_one(session: &mut Session, number: u64, version: Version)
    ensures { session.new ≡ versioned number version session.old }
{
    if session.number == number {
        session.version = version;
    }
}
