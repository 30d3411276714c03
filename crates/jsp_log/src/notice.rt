//! What a line of a server's log says.
use jsp_line::{LineEnd, ShutFor};
use std::fmt;
use std::net::SocketAddr;

/// Something that happened to a server. A connection has the number of its session.
#[derive(Clone, Copy, Drop)]
pub enum Notice {
    Opened {
        connection: u64,
        address: SocketAddr,
    },
    Ended {
        connection: u64,
        address: SocketAddr,
        requests: u64,
        why: Cause,
    },
    /// A connection that wasn't served.
    Refused {
        address: SocketAddr,
        why: Cause,
    },
    /// An era was sealed, so that the history isn't compared at the end.
    Sealed,
    /// The system has no room for a connection, by the number of its error. It is asked again.
    Unaccepted {
        error: i32,
    },
    /// So many lines were left out, since there were too many at once.
    LeftOut {
        count: u64,
    },
}

/// Why a connection ended.
#[derive(Clone, Copy, Debug, PartialEq, Eq)]
pub enum Cause {
    Line(LineEnd),
    /// It made no request for as long as it may.
    Idle,
}

/// How much a line matters.
#[derive(Clone, Copy, Debug, PartialEq, Eq)]
pub(crate) enum Level {
    Info,
    Warn,
}

impl Notice {
    /// Whether all is as it should be, or somebody should know.
    pub(crate) fn level(&self) -> Level {
        match self {
            Notice::Opened { .. } | Notice::Sealed => Level::Info,
            Notice::Ended { why, .. } | Notice::Refused { why, .. } => why.level(),
            Notice::Unaccepted { .. } | Notice::LeftOut { .. } => Level::Warn,
        }
    }

    /// What it is, in a word for programs.
    pub(crate) fn name(&self) -> &'static str {
        match self {
            Notice::Opened { .. } => "opened",
            Notice::Ended { .. } => "ended",
            Notice::Refused { .. } => "refused",
            Notice::Sealed => "sealed",
            Notice::Unaccepted { .. } => "unaccepted",
            Notice::LeftOut { .. } => "left_out",
        }
    }
}

impl Cause {
    fn level(self) -> Level {
        match self {
            Cause::Line(
                LineEnd::NoMemory
                | LineEnd::Full
                | LineEnd::Shut(ShutFor::Backlog)
                | LineEnd::Shut(ShutFor::NoThread),
            ) => Level::Warn,
            Cause::Line(_) | Cause::Idle => Level::Info,
        }
    }

    /// The cause in a word for programs.
    pub(crate) fn name(self) -> &'static str {
        match self {
            Cause::Idle => "idle",
            Cause::Line(LineEnd::Closed) => "closed",
            Cause::Line(LineEnd::Bye) => "bye",
            Cause::Line(LineEnd::TooLong) => "too_long",
            Cause::Line(LineEnd::Unreadable) => "unreadable",
            Cause::Line(LineEnd::Unwritable) => "unwritable",
            Cause::Line(LineEnd::NoMemory) => "no_memory",
            Cause::Line(LineEnd::Full) => "full",
            Cause::Line(LineEnd::Shut(ShutFor::Backlog)) => "backlog",
            Cause::Line(LineEnd::Shut(ShutFor::NoThread)) => "no_thread",
            Cause::Line(LineEnd::Shut(ShutFor::Ending)) => "ending",
            Cause::Line(LineEnd::Shut(ShutFor::Silent)) => "silent",
        }
    }

    fn words(self) -> &'static str {
        match self {
            Cause::Idle => "it was idle for too long",
            Cause::Line(LineEnd::Closed) => "its client closed it",
            Cause::Line(LineEnd::Bye) => "its client said bye",
            Cause::Line(LineEnd::TooLong) => "a frame was longer than the limit",
            Cause::Line(LineEnd::Unreadable) => "it broke",
            Cause::Line(LineEnd::Unwritable) => "it broke while it was written to",
            Cause::Line(LineEnd::NoMemory) => "memory was wanting",
            Cause::Line(LineEnd::Full) => "no more are served at once",
            Cause::Line(LineEnd::Shut(ShutFor::Backlog)) => "its client left too much unread",
            Cause::Line(LineEnd::Shut(ShutFor::NoThread)) => "no thread could be had for it",
            Cause::Line(LineEnd::Shut(ShutFor::Ending)) => "the server ends",
            Cause::Line(LineEnd::Shut(ShutFor::Silent)) => {
                "it was silent, and another took its place"
            }
        }
    }
}

impl fmt::Display for Level {
    fn fmt<W: fmt::Write>(&self, f: &mut fmt::Formatter<W>) -> fmt::Result {
        f.write_str(match self {
            Level::Info => "info",
            Level::Warn => "warn",
        })
    }
}

impl fmt::Display for Cause {
    fn fmt<W: fmt::Write>(&self, f: &mut fmt::Formatter<W>) -> fmt::Result {
        f.write_str(self.words())
    }
}

impl fmt::Display for Notice {
    fn fmt<W: fmt::Write>(&self, f: &mut fmt::Formatter<W>) -> fmt::Result {
        match self {
            Notice::Opened {
                connection,
                address,
            } => write!(f, "connection {connection} from {address} opened"),
            Notice::Ended {
                connection,
                address,
                requests,
                why,
            } => write!(
                f,
                "connection {connection} from {address} ended after {requests} requests: {why}"
            ),
            Notice::Refused { address, why } => {
                write!(f, "connection from {address} refused: {why}")
            }
            Notice::Sealed => f.write_str(
                "an era was sealed: the history isn't compared at the end",
            ),
            Notice::Unaccepted { error } => {
                write!(f, "no connection can be accepted for now: error {error}")
            }
            Notice::LeftOut { count } => write!(f, "{count} lines were left out"),
        }
    }
}
