//! One row: what a caller sees of it, and what becomes of it.
//!
//! A row has marks: the transaction that wrote it, those that read it, and the one that took it.
//! `is_available`, `is_in_conflict` and `may_show` say what a request or a match set finds in a
//! row, the other calls change one, each by a definition of `specs/` or of jsp_model. Whatever
//! keeps rows, by a list or by hints, judges and changes each of them by these calls.
#![tactic(auto)]

mod deciding;
mod ends;
mod marks;
mod sight;

pub use deciding::{Decision, decide};
pub use ends::{earlier, row_item};
pub use marks::{add_reader, extend_row, release_row, settle, take_row, undo};
pub use sight::{
    contains, is_available, is_caller, is_free, is_if, is_in_conflict, is_readable, is_take,
    may_show, wants,
};
