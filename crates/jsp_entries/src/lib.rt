//! Operations on entries: declaring a class, writing, and reading or taking what a template
//! matches.
//!
//! Each operation has a file with its refusals, its change and its answer, and each of these has
//! the definition of jsp_model as its contract (`Refusals`, `Changes`, `Answers`). A refusal is the
//! first test that applies. A change is made whole, or not at all where a growth is refused. A
//! request for rows that finds none waits (`Blocked`), and `giving` gives it its rows, at once or
//! later.
#![tactic(auto)]

mod blocking;
mod declare;
mod giving;
mod requests;
mod search;
mod storing;
mod write;

pub use blocking::{RowsWanted, blocked_named, unblock};
pub use declare::{accept_declare, refuse_declare};
pub use requests::{
    accept_entries, accept_entry, answer_entries, refuse_entries, refuse_entry, refuse_many,
    refuse_one, want_many, want_one,
};
pub use search::{accept_rows, answer_rows, answer_with, grant};
pub use write::answer_leased;
