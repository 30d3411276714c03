//! The transactions, as a program keeps them; contracts see the plain list.
//!
//! `Transactions` has private fields. What there is to do with transactions is a call of one of
//! four forms: add one, leave one out, change one in place, find. The contract of each says by the
//! plain list what it leaves or answers. They are found by number and by end (jsp_keyed), or looked
//! at one by one. Adding one and joining one are whole or not at all; only these two, and a plain
//! copy, take memory.
#![tactic(auto)]

mod by_number;
mod transaction_changes;
mod transactions;
mod voting;

pub use transactions::Transactions;
