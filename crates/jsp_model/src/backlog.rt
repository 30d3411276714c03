//! How much waits for a session, and how much stands in a house.
ghost use Rattle.std.specs.Prelude.{◌≡◌, ◌==◌, filter, length};
ghost use Rattle.jsp_model.specs.Outboxes.{outbox_of};

use crate::House;

/// A house that counts what stands in it: the answers that wait for a session, which may be too
/// many for one whose client reads none, the transactions, and what each space has.
pub trait Backlog: House {
    /// How many answers wait for a session.
    fn waiting(&self, session: u64) -> u64
        ensures { result ≡ length (outbox_of (Self.view self.now) session) };

    /// How many transactions there are, and how many of them vote.
    fn transactions(&self) -> TransactionCounts
        ensures living { result.living ≡ length (Self.view self.now).transactions }
        ensures voting { result.voting ≡ length (Self.view self.now).commits };

    /// What stands at a space.
    fn counts_in(&self, space: u64) -> SpaceCounts
        ensures rows { result.rows ≡ length (filter (λ r. r.space == space) (Self.view self.now).rows) }
        ensures waiting { result.waiting ≡ length (filter (λ b. b.space == space) (Self.view self.now).blocked) }
        ensures registrations { result.registrations ≡ length (filter (λ r. r.space == space) (Self.view self.now).registrations) }
        ensures match_sets { result.match_sets ≡ length (filter (λ m. m.space == space) (Self.view self.now).sets) };

    /// A session that was told something since it was named here, while there is one, so that its
    /// line is woken. More may be named, and one that has no answers waiting by now. Nothing else
    /// changes.
    fn next_told(&mut self) -> Option<u64>
        ensures view { Self.view self.new ≡ Self.view self.old }
        ensures debt { Self.debt self.new ≡ Self.debt self.old }
        ensures bound { Self.bound_of self.new ≡ Self.bound_of self.old };
}

/// How many transactions there are, and how many of them vote.
#[derive(Clone, Copy, Debug, PartialEq, Eq)]
pub struct TransactionCounts {
    pub living: u64,
    pub voting: u64,
}

/// How much stands at a space.
#[derive(Clone, Copy, Debug, PartialEq, Eq)]
pub struct SpaceCounts {
    pub rows: u64,
    pub waiting: u64,
    pub registrations: u64,
    pub match_sets: u64,
}
