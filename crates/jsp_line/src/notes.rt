//! What a floor notes of the sessions that it shut by itself.
ghost use Rattle.std.specs.Prelude.{◌≡◌, ◌-◌, ◌∷◌, ◌++◌, [], None, length, take, OnErr, OnOk};
ghost use Rattle.jsp_line.specs.Notes.{noting, reason_of};

use jsp_types::NoMemory;
use std::alloc::Global;
use std::marker::Model;

/// Why a floor shut a session by itself, and not for the session's own line.
#[derive(Clone, Copy, Debug, PartialEq, Eq)]
pub enum ShutFor {
    /// More answers waited for it than may.
    Backlog,
    /// No thread could be had for its line.
    NoThread,
    /// The server was ending.
    Ending,
    /// It was silent, waited for nothing, and another line wanted its place.
    Silent,
}

/// Why a floor shut sessions by itself: what is noted of the session s stands at the place s - 1.
/// It has that place before, so that a note takes no memory.
#[derive(Drop)]
pub(crate) struct Notes {
    reasons: Vec<Option<ShutFor>>,
}

impl Model for Notes {
    ghost use Rattle.std.specs.Prelude.{List, Option};
    ghost use Rattle.jsp_line.specs.declared.notes.ShutFor.{ShutFor};

    ghost Value = { List (Option ShutFor) };

    ghost view = { λ n. n.reasons.items };
}

impl Notes {
    pub(crate) fn new(alloc: Global) -> Notes
        ensures { result ≡ [] }
    {
        Notes {
            reasons: Vec::new(alloc),
        }
    }

    /// Adds the place of the next session.
    pub(crate) fn add(&mut self) -> Result<(), NoMemory>
        ensures ok { OnOk result (self.new ≡ self.old ++ None ∷ []) }
        ensures err { OnErr result (self.new ≡ self.old) }
    {
        self.reasons.push(None)?;
        Ok(())
    }

    /// Takes the last place away.
    pub(crate) fn remove_last(&mut self)
        ensures { self.new ≡ take (length self.old - 1) self.old }
    {
        let _last = self.reasons.pop();
    }

    /// Notes why a session was shut, where it has a place.
    pub(crate) fn note(&mut self, session: u64, why: ShutFor)
        ensures { self.new ≡ noting self.old session why }
    {
        if 0 < session && session <= self.reasons.len() as u64 {
            self.reasons[session as usize - 1] = Some(why);
        }
    }

    /// Why the session was shut, where that is noted.
    pub(crate) fn reason_of(&self, session: u64) -> Option<ShutFor>
        ensures { result ≡ reason_of self.now session }
    {
        if 0 < session && session <= self.reasons.len() as u64 {
            self.reasons[session as usize - 1]
        } else {
            None
        }
    }

    /// Drops what is noted, and all places.
    pub(crate) fn forget(&mut self)
        ensures { self.new ≡ [] }
    {
        self.reasons.clear();
    }
}
