//! Why the program ends without its work done.
use crate::spaces::BadName;
use jsp_serve::RunFault;
use jsp_shell::ShellFault;
use jsp_status::AskFault;
use std::alloc::{AllocError, AllocFailed};
use std::io;
use std::process::ExitCode;
use thiserror::Error;

/// Why the program ends without its work done, in the words that follow `jsp: ` on standard error.
#[derive(Debug, Drop, Error)]
pub(crate) enum Fault {
    #[error("arguments cannot be read")]
    Arguments,
    #[error("cannot open the null device for standard input, output or error, one of which is closed: {0}")]
    Standard(io::Error),
    #[error("bad space name: {0}")]
    BadName(BadName),
    #[error("out of memory")]
    NoMemory,
    #[error("cannot listen: {0}")]
    Listen(io::Error),
    #[error("cannot show a status: {0}")]
    Show(io::Error),
    #[error("cannot write")]
    Write,
    #[error("cannot serve")]
    Serve,
    #[error("its history isn't that of what its lines read and wrote")]
    Audit,
    #[error(transparent)]
    Shell(ShellFault),
    #[error(transparent)]
    Ask(AskFault),
    #[error("cannot read standard input in a thread")]
    Spawn,
    #[error("cannot show a status in a thread")]
    SpawnShow,
    #[error("cannot write a log in a thread")]
    SpawnLog,
    #[error("no descriptor is left for a connection: {0}")]
    NoDescriptor(io::Error),
    #[error("no threads are left for a connection")]
    NoThreads,
}

impl Fault {
    /// The status that the program ends with: 2 where the arguments or the standard streams can't
    /// be used, 3 where a history differs, and else 1.
    pub(crate) fn status(&self) -> ExitCode {
        ExitCode::from(match self {
            Fault::Arguments | Fault::BadName(_) | Fault::Standard(_) => 2,
            Fault::Audit => 3,
            Fault::NoMemory
            | Fault::Listen(_)
            | Fault::Show(_)
            | Fault::Write
            | Fault::Serve
            | Fault::Shell(_)
            | Fault::Ask(_)
            | Fault::Spawn
            | Fault::SpawnShow
            | Fault::SpawnLog
            | Fault::NoDescriptor(_)
            | Fault::NoThreads => 1,
        })
    }
}

impl From<AllocError> for Fault {
    fn from(_error: AllocError) -> Fault {
        Fault::NoMemory
    }
}

impl<T: Drop> From<AllocFailed<T>> for Fault {
    fn from(_error: AllocFailed<T>) -> Fault {
        Fault::NoMemory
    }
}

impl From<RunFault> for Fault {
    fn from(fault: RunFault) -> Fault {
        match fault {
            RunFault::NoMemory => Fault::NoMemory,
            RunFault::Spawn => Fault::Serve,
            RunFault::Audit => Fault::Audit,
        }
    }
}

impl From<AskFault> for Fault {
    fn from(fault: AskFault) -> Fault {
        Fault::Ask(fault)
    }
}

impl From<ShellFault> for Fault {
    fn from(fault: ShellFault) -> Fault {
        Fault::Shell(fault)
    }
}
