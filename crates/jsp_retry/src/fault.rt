//! Why a script isn't run to its end.
use jsp_types::NoMemory;
use thiserror::Error;

/// Why a script isn't run to its end.
#[derive(Clone, Copy, Debug, PartialEq, Eq, Error)]
pub(crate) enum Fault {
    #[error("it couldn't begin")]
    NotBegun,
    #[error("line {0} isn't understood")]
    NotUnderstood(u64),
    #[error("the steps are no run")]
    NoRun,
    #[error("a call was stopped otherwise than for want of memory")]
    Otherwise,
    #[error("memory is wanting again and again")]
    NoMemory,
}

/// Where memory is wanting before the first call, it couldn't begin.
impl From<NoMemory> for Fault {
    fn from(_error: NoMemory) -> Fault {
        Fault::NotBegun
    }
}
