//! What lies under a floor's lock.
ghost use Rattle.std.specs.Prelude.{◌≡◌, ◌<◌, ◌≤◌, ◌+◌, ◌∷◌, ◌++◌, [], true, false, None, if◌then◌else◌, IfOk, OnErr, OnOk};
ghost use Rattle.jsp_model.specs.Lookup.{is_open};
ghost use Rattle.jsp_model.specs.House.{Makes, shuts};
ghost use Rattle.jsp_kept.specs.Calls.{Seals};
ghost use Rattle.jsp_line.specs.Notes.{noting, reason_of};
ghost use Rattle.jsp_line.specs.Seats.{IsSeated};

use crate::notes::{Notes, ShutFor};
use jsp_kept::{AskSeat, InParts, Kept, OutSeat};
use jsp_model::{Stopped, Why};
use std::alloc::Global;
use std::sync::ledger::Ledger;

/// The history, and why the floor shut sessions by itself. Once an era was sealed nobody asks for
/// that.
#[derive(Drop)]
pub(crate) struct Locked<H: InParts, A: Ledger, O: Ledger> {
    pub(crate) kept: Kept<H, A, O>,
    pub(crate) notes: Notes,
    /// How many bytes lines read and wrote since they were last too many for an era.
    pub(crate) bytes: u64,
    pub(crate) most_bytes: u64,
}

/// How a session's line leaves a floor.
#[derive(Clone, Copy, Drop)]
pub struct Left {
    /// Whether an era was sealed, so that nobody asks for what lines read and wrote.
    pub is_sealed: bool,
    /// Why the floor shut the session by itself, where it did.
    pub shut_for: Option<ShutFor>,
}

impl<H: InParts, A: Ledger, O: Ledger> Locked<H, A, O> {
    pub(crate) fn new(alloc: Global, kept: Kept<H, A, O>, most_bytes: u64) -> Locked<H, A, O>
        ensures kept { result.kept ≡ kept }
        ensures notes { result.notes ≡ [] }
        ensures bytes { (result.bytes ≡ 0) × (result.most_bytes ≡ most_bytes) }
    {
        Locked {
            kept,
            notes: Notes::new(alloc),
            bytes: 0,
            most_bytes,
        }
    }

    /// Counts what a line read and wrote, and begins a new era where that is too much for one: its
    /// steps hold what was read, and its lines keep both.
    pub(crate) fn weigh(&mut self, bytes: u64)
        ensures seals { self.old.most_bytes < self.old.bytes + bytes → Seals self.old.kept self.new.kept }
        ensures anew { self.old.most_bytes < self.old.bytes + bytes → self.new.bytes ≡ 0 }
        ensures same { self.old.bytes + bytes ≤ self.old.most_bytes → self.new.kept ≡ self.old.kept }
        ensures counted { self.old.bytes + bytes ≤ self.old.most_bytes → self.new.bytes ≡ self.old.bytes + bytes }
        ensures notes { self.new.notes ≡ self.old.notes }
        ensures most { self.new.most_bytes ≡ self.old.most_bytes }
    {
        if is_within(self.bytes, bytes, self.most_bytes) {
            self.bytes += bytes;
        } else {
            self.kept.seal();
            self.bytes = 0;
        }
    }

    /// Opens a session, which has a place for a note, and answers its two seats.
    pub(crate) fn begin(&mut self) -> Result<(AskSeat<A>, OutSeat<O>), Stopped>
        ensures seats { IfOk result (λ s. IsSeated s.0 s.1) }
        ensures place { OnOk result (self.old.kept.is_sealed ≡ false → self.new.notes ≡ self.old.notes ++ None ∷ []) }
        ensures none { OnErr result (self.old.kept.is_sealed ≡ false → self.new.notes ≡ self.old.notes) }
    {
        if self.kept.is_sealed() {
            self.notes.forget();
            return Ok(self.kept.begin()?.split());
        }
        if self.notes.add().is_err() {
            return Err(Stopped {
                why: Why::NoMemory,
                done: false,
            });
        }
        match self.kept.begin() {
            Ok(seat) => Ok(seat.split()),
            Err(stopped) => {
                self.notes.remove_last();
                Err(stopped)
            }
        }
    }

    /// Closes the session and notes why, if it is open.
    pub(crate) fn shut_for(&mut self, session: u64, why: ShutFor)
        ensures steps { Makes self.old.kept.state self.new.kept.state self.old.kept.steps self.new.kept.steps (shuts self.old.kept.state session) }
        ensures notes { self.new.notes ≡ (if is_open self.old.kept.state session then noting self.old.notes session why else self.old.notes) }
    {
        if self.kept.is_open(session) {
            self.notes.note(session, why);
        }
        self.kept.shut(session);
    }

    /// How the session's line leaves.
    pub(crate) fn leave(&self, session: u64) -> Left
        ensures is_sealed { result.is_sealed ≡ self.now.kept.is_sealed }
        ensures shut_for { result.shut_for ≡ reason_of self.now.notes session }
    {
        Left {
            is_sealed: self.kept.is_sealed(),
            shut_for: self.notes.reason_of(session),
        }
    }
}

/// Whether so many and so many more are no more than the most.
fn is_within(so_far: u64, more: u64, most: u64) -> bool
    ensures yes { result ≡ true → so_far + more ≤ most }
    ensures no { result ≡ false → most < so_far + more }
{
    so_far <= most && more <= most - so_far
}
