//! A line's connection as it is seen from within.
use crate::line_end::LineEnd;
use std::sync::atomic::AtomicU64;

/// The connection of a line, which can be ended, knows how much was asked, and is told how its line
/// fares.
pub trait Hangup {
    /// Ends it both ways: whoever waits for its next bytes goes on, and its client sees that it
    /// ended.
    fn hang_up(&self);

    /// How many whole frames of it were acted. Its line counts them.
    fn requests(&self) -> &AtomicU64;

    /// For how many milliseconds none was.
    fn silent(&self) -> u64;

    /// Its session was opened, which has this number.
    fn opened(&self, session: u64);

    /// Its line has ended, or isn't served at all.
    fn ended(&self, why: LineEnd);
}
