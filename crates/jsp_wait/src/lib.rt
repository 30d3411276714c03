//! The requests that wait, in arrival order, and the open match sets, as a program keeps them;
//! contracts see the plain lists.
//!
//! `Waiters` and `MatchSets` have private fields. What there is to do with waiting requests is a
//! call of one of three forms: add one, leave some out, find; match sets change in place too. The
//! contract of each says by the plain list what it leaves or answers. Requests are found by hints
//! (jsp_keyed): by transaction, and by what their templates ask for, so that a row on offer finds
//! those that may want it. Each session has a map of its own requests, in arrival order. Match sets
//! are found by number, session, transaction, space and end. Either is looked at one by one where
//! the list isn't the machine's. Adding one is whole or not at all; only that, and what answers in
//! lists, takes memory.
#![tactic(auto)]

mod by_number;
mod found;
mod freeing;
mod keyed;
mod match_sets;
mod offer;
mod request_keys;
mod scanned;
mod sessions;
mod set_changes;
mod set_keys;
mod set_tests;
mod taking;
mod waiters;

pub use match_sets::MatchSets;
pub use offer::Offer;
pub use waiters::{Asker, Waiters};
