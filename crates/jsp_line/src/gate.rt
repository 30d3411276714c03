//! What lines are given from outside: what tells the time, and what is called at each frame and
//! answer.

use crate::counts::Counts;

/// What is called with no lock held at each frame and answer of a line, where a session was shut
/// since its client reads no answers, and where it is counted what stands. A server's shows what
/// was counted; a test's may hold a line until something else has happened.
pub trait Gate {
    /// Before the act of a session's nth frame, from 1.
    fn before(&self, session: u64, nth: u64);

    /// After a session's nth answer or event was written, from 1.
    fn written(&self, session: u64, nth: u64);

    /// After a session was shut since its client reads no answers. Its connection is to be ended.
    fn cut(&self, session: u64);

    /// After an era was sealed for the first time.
    fn sealed(&self);

    /// Whether somebody wants to know how much stands in the house. Then it is counted, and told
    /// once.
    fn wants_counts(&self) -> bool;

    /// How much stands in the house, which was wanted.
    fn counted(&self, counts: Counts);
}

/// What tells the time, in milliseconds.
pub trait Clock {
    fn now(&self) -> u64;
}
