//! Why a script ends early.
ghost use Rattle.std.specs.Prelude.{◌≡◌};
ghost use Rattle.jsp_script.specs.declared.fault.ScriptFault.TheVariants as fault;

use jsp_types::NoMemory;
use std::alloc::AllocFailed;
use thiserror::Error;

/// Why a script ends early. What a user is told of it is in `specs/Faults.antt`.
#[derive(Clone, Copy, Debug, Drop, Error, PartialEq, Eq)]
pub(crate) enum ScriptFault {
    #[error("cannot read")]
    CannotRead,
    /// It is longer than 16,777,216 bytes.
    #[error("input too long")]
    TooLong,
    /// The first line that isn't understood, counted from 1.
    #[error("line {0}: not understood")]
    NotUnderstood(u64),
    #[error("out of memory")]
    NoMemory,
    /// The steps are no run, or say something else than was sent. `script` never meets it.
    #[error("the history doesn't replay")]
    DoesNotReplay,
    #[error("cannot write")]
    CannotWrite,
}

impl From<NoMemory> for ScriptFault {
    ghost from_gives = { λ _ e. e ≡ fault.NoMemory };

    fn from(_e: NoMemory) -> ScriptFault {
        ScriptFault::NoMemory
    }
}

impl<T: Drop> From<AllocFailed<T>> for ScriptFault {
    ghost from_gives = { λ _ e. e ≡ fault.NoMemory };

    fn from(_e: AllocFailed<T>) -> ScriptFault {
        ScriptFault::NoMemory
    }
}
