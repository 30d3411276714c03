//! Why a lease is refused.
use thiserror::Error;

/// Why a lease isn't cancelled (Jini Leasing; the name is this profile's own).
#[derive(Clone, Copy, Debug, Drop, Error, PartialEq, Eq)]
pub enum LeaseFault {
    /// No item has the number: it was never given, or its item has gone.
    #[error("no lease has this number")]
    UnknownLease,
}
