//! What changes a state when transactions begin, are joined, vote and end, and what goes when a
//! lease ends or a space is reset.
//!
//! Each function's contract is the definition of `jsp_model/specs/Changes` itself: the state after
//! a commit is `commit` of the state before it, and so on. What takes memory is whole or not at
//! all: its clause `err` says that the state is as it was. What can only take away takes no memory
//! and can't fail. Where a change is one part of a greater one that may fail later, it can be taken
//! back, and that takes no memory either: `leave` takes back a `join`.
//! No contract speaks of the limits of a state, but where a sum has to fit or numbers have to rise.
//! The transactions are those of Jini and JavaSpaces: two phases, and a space that was reset votes
//! to abort.
#![tactic(auto)]

mod aborting;
mod beginning;
mod committing;
mod joining;
mod removing;
mod resetting;
mod voting;

pub use aborting::{abort, forget, leave_active};
pub use beginning::begin;
pub use committing::{ask_commit, commit};
pub use joining::{Joining, join, leave};
pub use removing::remove;
pub use resetting::reset;
pub use voting::{cast_vote, would_vote_not_changed};
