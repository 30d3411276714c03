//! Registrations for events, in the order in which they were made, as a program keeps them;
//! contracts see the plain list.
//!
//! `Registrations` has private fields. What there is to do with them is a call of one of four
//! forms: add one, leave some out, change some in place, find. The contract of each says by the
//! plain list what it leaves or answers (`specs/Owing.antt`, `specs/Registered.antt`). They are
//! found by hints (jsp_keyed): by session, by transaction, by space, by the first value that their
//! templates ask for, so that a row that is written finds those that it is news to, and by space
//! where they are owed an event. What a commit publishes is recorded as news (`news.rt`), and told
//! space by space, some at a time (`untold.rt`), before anything else that they are owed there, or
//! that hangs on it, is. What adds or tells is whole or not at all; only that, and what answers in
//! lists, takes memory.
#![tactic(auto)]

mod by_number;
mod finding;
mod heard;
mod hinted;
mod listeners;
mod naming;
mod news;
mod owing;
mod registration_changes;
mod registration_keys;
mod registrations;
mod scanned;
mod untold;

pub use heard::Heard;
pub use listeners::Listeners;
pub use registrations::Registrations;
