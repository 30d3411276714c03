//! Why nothing is sent for a line, and why a session ends before its work is done.
use jsp_forms::LineFault;
use std::alloc::{AllocError, AllocFailed};
use std::io;
use thiserror::Error;

/// Why nothing is sent for a line, in the words that follow its number on standard error.
#[derive(Debug, Drop, Error)]
pub(crate) enum NotSent {
    #[error(transparent)]
    NotUnderstood(LineFault),
    #[error("cannot be read: {0}")]
    NotRead(io::Error),
    /// It stands behind this line, which leaves the session.
    #[error("not sent, since the session was left by `{0}`")]
    Left(&'static str),
    #[error("out of memory")]
    NoMemory,
}

impl From<LineFault> for NotSent {
    fn from(fault: LineFault) -> NotSent {
        NotSent::NotUnderstood(fault)
    }
}

impl From<AllocError> for NotSent {
    fn from(_error: AllocError) -> NotSent {
        NotSent::NoMemory
    }
}

impl<T: Drop> From<AllocFailed<T>> for NotSent {
    fn from(_error: AllocFailed<T>) -> NotSent {
        NotSent::NoMemory
    }
}

/// Why a session ends before its work is done.
#[derive(Debug, Drop, Error)]
pub enum ShellFault {
    #[error("cannot connect: {0}")]
    Connect(io::Error),
    #[error("the connection broke: {0}")]
    Broken(io::Error),
    #[error("the server ended the connection")]
    Ended,
    #[error("the server sent a frame that is too long")]
    TooLong,
    #[error("the server sent what isn't JSON")]
    NotJson,
    #[error("cannot write")]
    Write,
    #[error("out of memory")]
    NoMemory,
}

impl From<AllocError> for ShellFault {
    fn from(_error: AllocError) -> ShellFault {
        ShellFault::NoMemory
    }
}

impl<T: Drop> From<AllocFailed<T>> for ShellFault {
    fn from(_error: AllocFailed<T>) -> ShellFault {
        ShellFault::NoMemory
    }
}
