//! The history that one lock keeps, without threads and without the lock.
//!
//! `Kept` has a house and the steps of the present era of its history; those of earlier eras are
//! gone. Its type keeps that both together are one legal run from the empty state to the house's
//! state (`specs/History.antt`). For each session it counts the requests made and the answers
//! taken, and the type ties these counts to that run. A `Seat` has a session's counts too, with a
//! share of each of two ledgers, whose books stand beside the history: so a history that lost a
//! request or an answer could not meet its type. A call with a seat whose count isn't its session's
//! is refused before all else. What each call changes, and what stays, is said in
//! `specs/Calls.antt`. Calls in parts make so many steps at most, beside what others left to be
//! made (`specs/Parts.antt`).
#![tactic(auto)]

mod aside;
mod calls;
mod counts;
mod in_era;
mod kept;
mod parts;
mod seats;
mod through;
mod turns;
mod within;

pub use aside::MOST_OLD;
pub use jsp_beside::InParts;
pub use jsp_drive::LineInput;
// What is asked of its house, so that its callers name one crate.
pub use jsp_model::{Backlog, SpaceCounts, TransactionCounts};
pub use kept::Kept;
pub use seats::{AskSeat, OutSeat, Seat};
