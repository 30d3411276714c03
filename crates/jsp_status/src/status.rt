//! What a server says about itself.
use crate::chart::Chart;

/// The numbers of a server at one moment.
#[derive(Drop)]
pub struct Status {
    pub version: String,
    /// Milliseconds since the server began.
    pub uptime_ms: u64,
    /// Which era the history is in.
    pub era: u64,
    /// How many eras have ended.
    pub seals: u64,
    /// Bytes of the process that are in memory, where that can be read.
    pub memory: Option<u64>,
    pub connections: ConnectionCounts,
    pub requests: u64,
    pub answers: u64,
    pub rates: Rates,
    pub refusals: Vec<RefusalCount>,
    /// Transactions that haven't ended.
    pub living: u64,
    /// Those of them that have been asked to commit, and are voted on.
    pub voting: u64,
    /// How many entries a space may have.
    pub rows_limit: u64,
    pub spaces: Vec<SpaceStatus>,
    /// Connections that are open, the first of them where they are very many.
    pub connection_list: Vec<ConnectionStatus>,
    /// What is drawn on the page, in its order.
    pub charts: Vec<Chart>,
}

/// How many connections there are and were.
#[derive(Clone, Copy)]
pub struct ConnectionCounts {
    pub open: u64,
    /// All that were opened so far.
    pub total: u64,
    /// The most that were open at once.
    pub peak: u64,
    /// How many may be open at once.
    pub limit: u64,
}

/// A connection that is open.
#[derive(Drop)]
pub struct ConnectionStatus {
    /// The number of its session.
    pub number: u64,
    /// Where its client is.
    pub address: String,
    /// For how many milliseconds it has been open.
    pub open_ms: u64,
    pub requests: u64,
    /// How many of them aren't answered yet.
    pub waiting: u64,
}

/// How many came lately, in ten seconds. A tenth of it is a rate a second.
#[derive(Clone, Copy)]
pub struct Rates {
    pub requests: u64,
    pub answers: u64,
    pub refusals: u64,
}

/// How many requests were refused with this number, which has a name too.
#[derive(Drop)]
pub struct RefusalCount {
    pub number: u64,
    pub name: String,
    pub count: u64,
}

/// The numbers of a space.
#[derive(Drop)]
pub struct SpaceStatus {
    pub name: String,
    /// Entries that are stored.
    pub rows: u64,
    /// Requests that wait for an entry.
    pub waiting: u64,
    pub registrations: u64,
    pub match_sets: u64,
}
