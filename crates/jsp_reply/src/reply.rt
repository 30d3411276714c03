//! Answers and events.
use crate::Refusal;
use jsp_types::{Entry, Items, Text};

/// The state of a transaction.
#[derive(Clone, Copy, Debug, PartialEq, Eq)]
pub enum TxnState {
    /// Operations can be made under it.
    Active,
    /// Its commit was asked and isn't decided.
    Voting,
}

/// What became of one lease of a batch.
#[derive(Clone, Copy, Debug, PartialEq, Eq)]
pub enum LeaseOutcome {
    /// For so many milliseconds from now on.
    Renewed(u64),
    /// It is ended.
    Cancelled,
    /// It is as it was.
    Refused(Refusal),
}

/// A lease of a batch, by the number that was asked, and what became of it.
#[derive(Clone, Copy, Debug, PartialEq, Eq)]
pub struct LeaseAnswer {
    pub lease: i64,
    pub outcome: LeaseOutcome,
}

/// An answer or an event.
#[derive(Clone, Drop)]
pub enum Reply {
    /// It is done.
    Done {
        id: u64,
    },
    /// A lease was granted: its number, and its time in milliseconds.
    Leased {
        id: u64,
        lease: u64,
        ms: u64,
    },
    /// The entry that was read or taken (JavaSpaces).
    Shown {
        id: u64,
        entry: Entry,
    },
    /// There is no such entry.
    Nothing {
        id: u64,
    },
    /// The state of a transaction (Jini Transactions).
    State {
        id: u64,
        state: TxnState,
    },
    /// The names of the spaces, in their order.
    Names {
        id: u64,
        names: Items<Text>,
    },
    /// What became of each lease of a batch, in the order of the request.
    Leases {
        id: u64,
        items: Items<LeaseAnswer>,
    },
    /// The request is refused; without an id where it couldn't be read.
    Refused {
        id: Option<u64>,
        refusal: Refusal,
    },
    /// An event of a registration: its number, and 1, 2, 3 and so on (Jini Events).
    Told {
        handback: Text,
        lease: u64,
        sequence: u64,
    },
    /// The leases of entries that were written together, all for the same time in milliseconds.
    Batch {
        id: u64,
        leases: Items<u64>,
        ms: u64,
    },
    /// Entries that were taken together, at least one.
    Many {
        id: u64,
        entries: Items<Entry>,
    },
    /// Entries of a match set, and whether none is left beyond them.
    Page {
        id: u64,
        end: bool,
        entries: Items<Entry>,
    },
}
