//! The limits of the spaces (this profile's own). The definitions cite these numbers, and so does
//! all code.

/// The most spaces.
pub const MOST_SPACES: usize = 64;

/// The most entries of a space, also hidden and taken ones.
pub const MOST_ROWS: usize = 65_536;

/// The most living registrations.
pub const MOST_REGISTRATIONS: usize = 4_096;

/// The most living transactions.
pub const MOST_TRANSACTIONS: usize = 1_024;

/// The most living match sets.
pub const MOST_SETS: usize = 1_024;

/// The most requests of a session that wait, with the commits that await their decision.
pub const MOST_WAITING: usize = 64;

/// The last number that is drawn for an entry, a registration, a transaction, a match set or a
/// request that waits.
pub const LAST_NUMBER: u64 = 1 << 62;

/// The latest time, in milliseconds. A later reading of the clock counts as this one.
pub const LAST_TIME: u64 = 1 << 62;

/// The end of a request that waits as long as there is time, in milliseconds. It never comes.
pub const NEVER: u64 = LAST_TIME + 1;

/// The last number of a session.
pub const LAST_SESSION: u64 = 1 << 31;

/// The last crash count of a space, which says how often it was reset.
pub const LAST_CRASH_COUNT: u64 = (1 << 32) - 1;
