//! How much stands in a house and was done in it.
use jsp_kept::{SpaceCounts, TransactionCounts};

/// How much stands in a house and was done in it, at one moment.
#[derive(Drop)]
pub struct Counts {
    /// How many lines are served.
    pub lines: u64,
    /// How many eras were sealed.
    pub seals: u64,
    pub requests: u64,
    /// Events are among them.
    pub answers: u64,
    /// How many of the answers are refusals of each number: the number is the place.
    pub refusals: Vec<u64>,
    pub transactions: TransactionCounts,
    /// Of each space, in their order.
    pub spaces: Vec<SpaceCounts>,
}
