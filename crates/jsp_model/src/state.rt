//! The state of the spaces, in plain lists. A space goes by its place in the configured order.
use jsp_reply::Said;
use jsp_types::{Classes, Entry, Items, Template, Text};
use jsp_wire::Version;

/// A space: its name, and its crash count.
#[derive(Clone, Drop)]
pub struct Space {
    pub name: Text,
    pub crash_count: u64,
}

/// An open session, and its line's version.
#[derive(Clone, Copy, PartialEq, Eq)]
pub struct Session {
    pub number: u64,
    pub version: Version,
}

/// What was said to a session and isn't handed out. It outlives the session.
#[derive(Clone, Drop)]
pub struct Outbox {
    pub session: u64,
    pub answers: Items<Said>,
}

/// A written entry. Writer, readers and taker are transactions.
#[derive(Clone, Drop)]
pub struct Row {
    pub number: u64,
    pub space: u64,
    pub entry: Entry,
    /// In milliseconds of house time.
    pub end: u64,
    pub writer: Option<u64>,
    pub readers: Items<u64>,
    pub taker: Option<u64>,
}

/// A registration. It is owed an event for each row in `owed`.
#[derive(Clone, Drop)]
pub struct Registration {
    pub number: u64,
    pub space: u64,
    pub template: Template,
    pub transaction: Option<u64>,
    pub session: u64,
    pub handback: Text,
    /// In milliseconds of house time.
    pub end: u64,
    /// The number of the last event that was told, at first 0.
    pub sequence: u64,
    /// The numbers of the rows that are still to be told of, in their order.
    pub owed: Items<u64>,
}

/// What a request for rows does with them, and when it blocks.
#[derive(Clone, Copy, PartialEq, Eq)]
pub enum Form {
    /// Reads a row, and waits for one.
    Read,
    /// Reads a row, and waits only while a matching one is in conflict.
    ReadIf,
    /// Takes a row, and waits for one.
    Take,
    /// Takes a row, and waits only while a matching one is in conflict.
    TakeIf,
    /// Takes several rows, and waits for the first.
    TakeMany,
}

/// A request that waits for rows, at most `most` of them.
#[derive(Clone, Drop)]
pub struct Blocked {
    pub number: u64,
    pub session: u64,
    pub id: u64,
    pub space: u64,
    pub templates: Items<Template>,
    pub transaction: Option<u64>,
    pub form: Form,
    pub most: u64,
    /// In milliseconds of house time; 2^62 + 1 never comes.
    pub end: u64,
}

/// What a space voted.
#[derive(Clone, Copy, PartialEq, Eq)]
pub enum Vote {
    /// It can commit, and waits for the decision.
    Prepared,
    /// The transaction changed nothing there.
    NotChanged,
    /// It can't commit, since it was reset.
    Aborted,
}

/// A space that joined a transaction, its crash count then, and its vote.
#[derive(Clone, Copy, PartialEq, Eq)]
pub struct Joined {
    pub space: u64,
    pub crash_count: u64,
    pub vote: Option<Vote>,
}

/// A transaction, with its joined spaces in joining order.
#[derive(Clone, Drop)]
pub struct Transaction {
    pub number: u64,
    /// In milliseconds of house time.
    pub end: u64,
    pub joined: Items<Joined>,
}

/// A commit that was asked and isn't decided. Its transaction is voting.
#[derive(Clone, Copy, PartialEq, Eq)]
pub struct Commit {
    pub transaction: u64,
    pub session: u64,
    pub id: u64,
}

/// A match set. The rows up to its cursor were shown or passed over.
#[derive(Clone, Drop)]
pub struct MatchSet {
    pub number: u64,
    pub session: u64,
    pub space: u64,
    pub template: Template,
    pub transaction: Option<u64>,
    /// In milliseconds of house time.
    pub end: u64,
    pub cursor: u64,
}

/// The whole house.
#[derive(Clone, Drop)]
pub struct State {
    pub classes: Classes,
    pub spaces: Items<Space>,
    pub sessions: Items<Session>,
    /// The greatest number of a session so far.
    pub last_session: u64,
    /// House time, in milliseconds: the greatest reading of the clock so far, at most 2^62.
    pub time: u64,
    /// The number that is drawn next.
    pub next_number: u64,
    pub rows: Items<Row>,
    pub registrations: Items<Registration>,
    /// In arrival order.
    pub blocked: Items<Blocked>,
    pub transactions: Items<Transaction>,
    /// In the order in which they were asked.
    pub commits: Items<Commit>,
    pub sets: Items<MatchSet>,
    /// By session number, and none empty.
    pub outboxes: Items<Outbox>,
}
