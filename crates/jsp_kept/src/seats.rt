//! Seats: a session's two counts, each with the share of a ledger that stands for it.
ghost use Rattle.std.specs.Prelude.{◌≡◌};

use std::marker::Model;
use std::sync::ledger::{Ledger, Share};

/// The half of a seat that asks. Contracts see its session, and how many requests and faults it
/// made.
#[derive(Drop)]
pub struct AskSeat<A: Ledger> {
    pub(crate) session: u64,
    pub(crate) count: u64,
    pub(crate) share: Share<A>,
}

impl<A: Ledger> Model for AskSeat<A> {
    ghost use Rattle.std.specs.Prelude.{◌≡◌, ◌<◌};
    ghost use Rattle.jsp_kept.specs.History.{Place};

    ghost Value = { Place };

    ghost view = { λ a. record { session = a.session; count = a.count } };

    ghost invariant = { λ a. (a.share.parts ≡ 1) × (a.share.amount ≡ a.count) × (0 < a.session) };
}

/// The half of a seat that takes. Contracts see its session, and how many answers it took.
#[derive(Drop)]
pub struct OutSeat<O: Ledger> {
    pub(crate) session: u64,
    pub(crate) count: u64,
    pub(crate) share: Share<O>,
}

impl<O: Ledger> Model for OutSeat<O> {
    ghost use Rattle.std.specs.Prelude.{◌≡◌, ◌<◌};
    ghost use Rattle.jsp_kept.specs.History.{Place};

    ghost Value = { Place };

    ghost view = { λ a. record { session = a.session; count = a.count } };

    ghost invariant = { λ a. (a.share.parts ≡ 1) × (a.share.amount ≡ a.count) × (0 < a.session) };
}

/// A session's two counts.
#[derive(Drop)]
pub struct Seat<A: Ledger, O: Ledger> {
    pub(crate) asks: AskSeat<A>,
    pub(crate) outs: OutSeat<O>,
}

impl<A: Ledger, O: Ledger> Seat<A, O> {
    /// The two halves. Each has its own count and share.
    pub fn split(self) -> (AskSeat<A>, OutSeat<O>)
        ensures asks { result.0 ≡ self.asks }
        ensures outs { result.1 ≡ self.outs }
    {
        let Seat { asks, outs } = self;
        (asks, outs)
    }
}

impl<A: Ledger> AskSeat<A> {
    /// The number of its session.
    pub fn session(&self) -> u64
        ensures { result ≡ self.now.session }
    {
        self.session
    }

    /// How many requests and faults it made.
    pub fn count(&self) -> u64
        ensures { result ≡ self.now.count }
    {
        self.count
    }
}

impl<O: Ledger> OutSeat<O> {
    /// The number of its session.
    pub fn session(&self) -> u64
        ensures { result ≡ self.now.session }
    {
        self.session
    }

    /// How many answers it took.
    pub fn count(&self) -> u64
        ensures { result ≡ self.now.count }
    {
        self.count
    }
}
