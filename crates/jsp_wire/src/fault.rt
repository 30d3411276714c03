//! Why a payload is no request.
ghost use Rattle.std.specs.Prelude.{◌≡◌};
ghost use Rattle.jsp_wire.specs.declared.fault.Flaw.TheVariants.{Memory};

use jsp_types::NoMemory;
use std::alloc::AllocFailed;
use thiserror::Error;

/// Why a payload is no request.
#[derive(Clone, Copy, Debug, PartialEq, Eq, Error)]
pub enum WireFault {
    /// It isn't read as JSON, and so it has no id.
    #[error("the payload is no JSON")]
    BadJson,
    /// It is JSON that is no request; its id, where it has one.
    #[error("the JSON is no request")]
    BadRequest { id: Option<u64> },
    /// No memory was left to read it.
    #[error("out of memory")]
    NoMemory,
}

/// Why a part of a request wasn't read.
#[derive(Clone, Copy, Debug)]
pub(crate) enum Flaw {
    Refused,
    Memory,
}

impl From<NoMemory> for Flaw {
    ghost from_gives = { λ _ e. e ≡ Memory };

    fn from(_e: NoMemory) -> Flaw {
        Flaw::Memory
    }
}

impl<T: Drop> From<AllocFailed<T>> for Flaw {
    ghost from_gives = { λ _ e. e ≡ Memory };

    fn from(_e: AllocFailed<T>) -> Flaw {
        Flaw::Memory
    }
}
