//! Why a line ended, as whoever runs a server is told.
use crate::answer_writer::Health;
use crate::locked::Left;
use crate::notes::ShutFor;
use crate::serve_line::LineDone;
use jsp_drive::Ended;
use jsp_model::Why;
use std::io::{Read, Write};
use std::sync::ledger::Ledger;

/// Why a line ended. No contract speaks of it: what a line read and wrote is told by its report.
#[derive(Clone, Copy, Debug, PartialEq, Eq)]
pub enum LineEnd {
    /// Its client closed it.
    Closed,
    /// Its session said `bye`.
    Bye,
    /// A frame was longer than the limit.
    TooLong,
    /// It couldn't be read any more.
    Unreadable,
    /// It couldn't be written to any more.
    Unwritable,
    /// Memory was wanting for a request or an answer of it.
    NoMemory,
    /// Its session was shut by the server.
    Shut(ShutFor),
    /// As many lines as may be at once were served.
    Full,
}

impl LineEnd {
    /// Why a line ended that leaves so.
    pub fn of<A: Ledger, O: Ledger, R: Read, W: Write>(
        done: &LineDone<A, O, R, W>,
        left: &Left,
    ) -> LineEnd {
        if let Some(why) = left.shut_for {
            return LineEnd::Shut(why);
        }
        if is_short(done.read.why) || is_short(done.why) {
            return LineEnd::NoMemory;
        }
        match (done.out.health, done.read.ended) {
            (Health::NoMemory, _) => LineEnd::NoMemory,
            (Health::Sound, Ended::End) => LineEnd::Closed,
            (Health::Sound, Ended::Closing) if done.read.is_too_long => LineEnd::TooLong,
            (Health::Sound, Ended::Closing) => LineEnd::Bye,
            (Health::Sound, _) => LineEnd::Unreadable,
            (Health::Failed, _) => LineEnd::Unwritable,
        }
    }
}

fn is_short(why: Option<Why>) -> bool {
    matches!(why, Some(Why::NoMemory))
}
