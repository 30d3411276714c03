//! The requests that wait, found by hints, and by session.
ghost use Rattle.std.specs.Prelude.{◌≡◌, ◌==◌, ◌&&◌, ◌++◌, ◌∷◌, [], ℕ, true, not, nat_le, length, filter, find, option_map, OnErr, IfOk, MatchOption};
ghost use Rattle.std.specs.List.{list_any};
ghost use Rattle.jsp_model.specs.declared.state.Blocked.{Blocked as OfBlocked};
ghost use Rattle.jsp_table.specs.Finding.{AreNumbered};
ghost use Rattle.jsp_keyed.specs.Finding.{is_sought};
ghost use Rattle.jsp_wait.specs.Sought.{request_keys};

use crate::by_number::Requests;
use crate::sessions::{
    Sessions, add, drop_one, drop_session, first_number, has_id, has_so_many, make_room,
};
use jsp_keyed::{Keyed, Keys};
use jsp_model::Blocked;
use jsp_table::Test;
use jsp_types::NoMemory;
use std::alloc::Global;
use std::collections::HashMap;
use std::marker::Model;

/// The requests that wait. Contracts see them as a list, in arrival order.
#[derive(Drop)]
pub(crate) struct Found {
    alloc: Global,
    pub(crate) requests: Requests,
    sessions: Sessions,
}

impl Model for Found {
    ghost use Rattle.std.specs.Prelude.{List};
    ghost use Rattle.jsp_model.specs.declared.state.Blocked.{Blocked};
    ghost use Rattle.jsp_wait.specs.Sessions.{AreOfSessions};

    ghost Value = { List Blocked };

    ghost view = { λ f. f.requests };

    ghost invariant = { λ f. AreOfSessions f.sessions f.requests };
}

impl Found {
    /// No requests. The seed is for the keys.
    pub(crate) fn new(alloc: Global, seed: u64) -> Self
        ensures { result ≡ [] }
    {
        Found {
            alloc,
            requests: Keyed::new(alloc, seed),
            sessions: HashMap::new(alloc),
        }
    }

    /// Adds a request whose number is above all that were given, whole or not at all. One whose
    /// number isn't is answered, and all stays as it was.
    pub(crate) fn push(&mut self, request: Blocked) -> Result<Option<Blocked>, NoMemory>
        ensures ok { IfOk result (λ back. MatchOption back (self.new ≡ self.old ++ request ∷ []) (λ it. (it ≡ request) × (self.new ≡ self.old))) }
        ensures err { OnErr result (self.new ≡ self.old) }
    {
        let session = request.session;
        let number = request.number;
        let id = request.id;
        // Room is made before anything is added, so that what follows the table can't fail.
        make_room(self.alloc, &mut self.sessions, session)?;
        if let Some(back) = self.requests.push(request)? {
            return Ok(Some(back));
        }
        // Which says that the numbers rise.
        let _ = self.requests.places();
        add(&mut self.sessions, session, number, id);
        Ok(None)
    }

    /// The request of this number goes. Takes no memory.
    pub(crate) fn remove(&mut self, number: u64)
        ensures { self.new ≡ filter (λ b. not (b.number == number)) self.old }
    {
        // Which says that the numbers rise.
        let _ = self.requests.places();
        if let Some(request) = self.requests.get(number) {
            let session = request.session;
            self.requests.remove(number);
            drop_one(&mut self.sessions, session, number);
        }
    }

    /// The number of the first request that passes a test, which only requests pass that have one
    /// of the keys that are sought.
    fn first_passing<P: Test<Blocked> + Keys>(&self, test: &P) -> Option<u64>
        requires { (seed : ℕ) (b : OfBlocked) → P.is_passed test.now b ≡ true → is_sought (P.sought test.now seed) (request_keys seed b) ≡ true }
        ensures found { result ≡ option_map (λ b. b.number) (find (P.is_passed test.now) self.now) }
        ensures rising { AreNumbered (λ b. b.number) self.now }
    {
        self.requests.first_number(test)
    }

    /// Those that pass a test go, which only requests pass that have one of the keys that are
    /// sought. Takes no memory.
    pub(crate) fn remove_all<P: Test<Blocked> + Keys>(&mut self, test: &P)
        requires { (seed : ℕ) (b : OfBlocked) → P.is_passed test.now b ≡ true → is_sought (P.sought test.now seed) (request_keys seed b) ≡ true }
        ensures { self.new ≡ filter (λ b. not (P.is_passed test.now b)) self.old }
    {
        'requests: while let Some(number) = self.first_passing(test) {
            self.remove(number);
        }
    }

    /// The number of a session's first request.
    fn first_of(&self, session: u64) -> Option<u64>
        ensures found { result ≡ option_map (λ b. b.number) (find (λ b. b.session == session) self.now) }
        ensures rising { AreNumbered (λ b. b.number) self.now }
    {
        // Which says that the numbers rise.
        let _ = self.requests.places();
        first_number(&self.sessions, session)
    }

    /// The requests of a session go, and its map. Takes no memory.
    pub(crate) fn remove_of(&mut self, session: u64)
        ensures { self.new ≡ filter (λ b. not (b.session == session)) self.old }
    {
        self.remove_each_of(session);
        drop_session(&mut self.sessions, session);
    }

    fn remove_each_of(&mut self, session: u64)
        ensures { self.new ≡ filter (λ b. not (b.session == session)) self.old }
    {
        'requests: while let Some(number) = self.first_of(session) {
            self.remove(number);
        }
    }

    /// Whether the session's request of this id waits.
    pub(crate) fn is_asked(&self, session: u64, id: u64) -> bool
        ensures { result ≡ list_any (λ b. b.session == session && b.id == id) self.now }
    {
        // Most often nobody waits, and then the session needn't be hashed.
        if self.requests.places().is_empty() {
            return false;
        }
        has_id(&self.sessions, session, id)
    }

    /// Whether at least so many of the session's requests wait.
    pub(crate) fn are_at_least(&self, session: u64, count: usize) -> bool
        ensures { result ≡ nat_le count (length (filter (λ b. b.session == session) self.now)) }
    {
        has_so_many(&self.sessions, session, count)
    }
}
