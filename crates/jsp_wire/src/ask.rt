//! What a client asks. Entries and templates are as they were written, and aren't checked yet.
use jsp_types::{Items, Kind, Raw, Text};

/// The version of a line.
#[derive(Clone, Copy, PartialEq, Eq)]
pub enum Version {
    One,
    Two,
}

/// A class to be declared. The kind of a field is none where its text names no kind.
#[derive(Drop)]
pub struct Declare {
    pub class: Text,
    pub parent: Option<Text>,
    pub fields: Items<(Text, Option<Kind>)>,
}

/// An entry to be written (JavaSpaces). The lease is asked for in milliseconds; -1 leaves the time
/// to the server (Jini Leasing).
#[derive(Drop)]
pub struct Write {
    pub space: Text,
    pub entry: Raw,
    pub lease: i64,
    pub txn: Option<i64>,
}

/// Entries to be written together.
#[derive(Drop)]
pub struct WriteAll {
    pub space: Text,
    pub entries: Items<Raw>,
    pub lease: i64,
    pub txn: Option<i64>,
}

/// An entry to be read or taken (JavaSpaces). The timeout is in milliseconds.
#[derive(Drop)]
pub struct Search {
    pub space: Text,
    pub template: Option<Raw>,
    pub timeout: i64,
    pub txn: Option<i64>,
}

/// Entries to be taken together, at most `most`.
#[derive(Drop)]
pub struct TakeMany {
    pub space: Text,
    pub templates: Items<Option<Raw>>,
    pub most: u64,
    pub timeout: i64,
    pub txn: Option<i64>,
}

/// A registration for events. In an `Asked` the handback has at most 256 bytes, a limit of this
/// profile's own.
#[derive(Drop)]
pub struct Notify {
    pub space: Text,
    pub template: Option<Raw>,
    pub lease: i64,
    pub handback: Text,
    pub txn: Option<i64>,
}

/// A match set to be opened.
#[derive(Drop)]
pub struct Contents {
    pub space: Text,
    pub template: Option<Raw>,
    pub lease: i64,
    pub txn: Option<i64>,
}

/// One operation.
#[derive(Drop)]
pub enum Ask {
    /// A class is declared (this profile's own).
    Declare(Declare),
    /// An entry is written (JavaSpaces).
    Write(Write),
    /// An entry is read; the request may wait (JavaSpaces).
    Read(Search),
    /// An entry is read if it exists (JavaSpaces).
    ReadIf(Search),
    /// An entry is taken; the request may wait (JavaSpaces).
    Take(Search),
    /// An entry is taken if it exists (JavaSpaces).
    TakeIf(Search),
    /// A registration for events (JavaSpaces, Jini Events).
    Notify(Notify),
    /// A lease to be renewed, by its number, for `ms` milliseconds from the renewal on, whatever
    /// was left of it; -1 leaves the time to the server (Jini Leasing).
    Renew { lease: i64, ms: i64 },
    /// A lease to be cancelled, by its number (Jini Leasing).
    Cancel { lease: i64 },
    /// Leases to be renewed one by one, each by its number and for its own milliseconds, as in a
    /// `LeaseMap` (Jini Leasing). In an `Asked` they are 1 to 64, a limit of this profile's own.
    RenewAll { leases: Items<(i64, i64)> },
    /// Leases to be cancelled one by one, each by its number, as in a `LeaseMap` (Jini Leasing). In
    /// an `Asked` they are 1 to 64, a limit of this profile's own.
    CancelAll { leases: Items<i64> },
    /// A transaction is begun, with a lease in milliseconds (Jini Transactions).
    Txn { lease: i64 },
    /// The commit of a transaction is asked (Jini Transactions).
    Commit { txn: i64 },
    /// A transaction is aborted (Jini Transactions).
    Abort { txn: i64 },
    /// The state of a transaction is asked (Jini Transactions).
    State { txn: i64 },
    /// A space loses all that it has, as after a crash (this profile's own).
    Reset { space: Text },
    /// The names of the spaces (this profile's own).
    Spaces,
    /// The session is answered and closed (this profile's own).
    Bye,
    /// The line has this version from the next frame on (this profile's own).
    Hello { version: Version },
    /// Entries are written, all or none (this profile's own).
    WriteAll(WriteAll),
    /// Entries are taken together (this profile's own).
    TakeMany(TakeMany),
    /// A match set is opened (JavaSpaces contents).
    Contents(Contents),
    /// The next page of a match set, of at most so many entries (this profile's own).
    Next { set: i64, most: u64 },
    /// A match set is closed (this profile's own).
    CloseSet { set: i64 },
}

/// A request: its id, and what it asks.
#[derive(Drop)]
pub struct Request {
    pub id: u64,
    pub ask: Ask,
}
