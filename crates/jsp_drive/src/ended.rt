//! How the reading of a line ends, for those that read lines and those that compare what they read.

/// Why the thread that reads a line ended.
#[derive(Clone, Copy, Debug, PartialEq, Eq)]
pub enum Ended {
    /// Its input ended.
    End,
    /// A read failed.
    Failed,
    /// It read as often as it may.
    Bound,
    /// Its own last input closed the session: a `bye`, or a frame that is too long.
    Closing,
    /// Its last input made no step, since the session had been closed otherwise.
    Cut,
    /// A call was stopped, for want of memory.
    Stopped,
}
