//! Finding things in a state of the abstract spaces, and what is said to its sessions.
//!
//! Each list finds by itself what is asked of it, by hints or by a scan (jsp_store, jsp_wait,
//! jsp_notify, jsp_txn); here is what goes over several of them. Each call's contract is a
//! definition of jsp_model: what a caller may see (`Sight`), whether a space owes anything
//! (`Quiet`), what is due (`Due`), what a number names (`Lookup`). What is said is posted by
//! jsp_outbox; here it is handed out. What answers with no list takes no memory, so its result is
//! not a `Result`. Houses and replays stand on this crate.
#![tactic(auto)]

mod access;
mod choices;
mod ends;
mod entries;
mod numbers;
mod offered;
mod outboxes;
mod quiet;
mod ranks;
mod rows;
mod sessions;
mod sight;
mod spaces;
mod transactions;
mod withdrawing;

pub use access::space_refusal;
pub use choices::{choose, is_choice};
pub use ends::{due, first_end};
pub use entries::{entries_refusal, entry_of, template_of, templates_of, templates_refusal};
pub use jsp_sight::{contains, is_caller, is_if, is_readable, is_take};
pub use numbers::{caller_of, is_used_up, named};
pub use offered::{first_answerable, first_grantable};
pub use outboxes::{hand_out, waiting};
pub use quiet::is_quiet;
pub use ranks::rank_of;
pub use rows::{entries_of, rows_in};
pub use sessions::{close, is_open, is_waiting, open, set_version, waits_for_many};
pub use sight::{has_conflict, has_none, must_wait};
pub use spaces::{crash_count, names_of, place_of, space_named};
pub use transactions::{
    commit_of, is_living, is_voting, joined_at, joined_otherwise, transaction_of,
};
pub use withdrawing::withdraw;
